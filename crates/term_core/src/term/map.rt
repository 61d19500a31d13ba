//! Maps, made of pairs in ascending key order.
ghost use Rattle.std.specs.Prelude.{◌≡◌, ◌∷◌, [], length, IfOk, IfErr};
ghost use Rattle.term_core.specs.Term.{datum_of, IsKept};
ghost use Rattle.term_core.specs.Datum.{entries_of};
ghost use Rattle.term_core.specs.Datum.Datum.{map};
ghost use Rattle.term_core.specs.Fault.{IsFault};
ghost use Rattle.term_core.specs.Limits.{depth as depth_of};
ghost use Rattle.term_core.specs.MapPairs.{AreRising, IsMapDepth};

use super::blocks::{block_of_four, block_of_three, block_of_two, last};
use super::{Shape, Term, shared};
use crate::MAX_DEPTH;
use crate::fault::{Fault, Refused};
use std::alloc::Allocator;
use std::sync::Arc;

/// Moves the only pair of a row into a block. On failure, hands the row back.
fn block_of_pair<A: Allocator>(
    alloc: A,
    mut pairs: Vec<(Term<A>, Term<A>), A>,
) -> Result<Arc<(Term<A>, Term<A>), A>, Refused<Vec<(Term<A>, Term<A>), A>>>
    requires { length pairs.items ≡ 1 }
    ensures ok { IfOk result (λ pair. pair.value ∷ [] ≡ pairs.items) }
    ensures refused { IfErr result (λ r. (r.value.items ≡ pairs.items)
        × (r.fault ≡ Fault.Memory)) }
{
    let pair = last(&mut pairs);
    match shared(alloc, pair) {
        Ok(pair) => Ok(pair),
        Err(refused) => {
            let Refused { value: pair, fault } = refused;
            pairs.push_reserved(pair);
            Err(Refused {
                value: pairs,
                fault,
            })
        }
    }
}

/// Makes the representation of the map of these pairs, of the given depth. One to four pairs take one block. On failure,
/// hands the pairs back.
fn map_shape<A: Allocator>(
    alloc: A,
    depth: u8,
    pairs: Vec<(Term<A>, Term<A>), A>,
) -> Result<Shape<A>, Refused<Vec<(Term<A>, Term<A>), A>>>
    requires { depth ≡ depth_of (map (entries_of pairs.items)) }
    ensures value { IfOk result (λ s. datum_of s ≡ map (entries_of pairs.items)) }
    ensures kept { IfOk result (λ s. IsKept s) }
    ensures refused { IfErr result (λ r. (r.value.items ≡ pairs.items)
        × (r.fault ≡ Fault.Memory)) }
{
    match pairs.len() {
        1 => Ok(Shape::MapOfOne(depth, block_of_pair(alloc, pairs)?)),
        2 => Ok(Shape::MapOfTwo(depth, block_of_two(alloc, pairs)?)),
        3 => Ok(Shape::MapOfThree(depth, block_of_three(alloc, pairs)?)),
        4 => Ok(Shape::MapOfFour(depth, block_of_four(alloc, pairs)?)),
        _ => Ok(Shape::Map(depth, shared(alloc, pairs)?)),
    }
}

impl<A: Allocator> Term<A> {
    /// Makes the map of one pair, with the smallest allocation. Fails if it would be deeper than `MAX_DEPTH`, or if the
    /// allocation fails. On failure, hands the key and the value back.
    pub fn map_of_one(
        alloc: A,
        key: Term<A>,
        value: Term<A>,
    ) -> Result<Self, Refused<(Term<A>, Term<A>)>>
        ensures ok { IfOk result (λ t. t ≡ map (entries_of ((key, value) ∷ []))) }
        ensures refused { IfErr result (λ r. (r.value ≡ (key, value))
            × IsFault r.fault (map (entries_of ((key, value) ∷ [])))) }
    {
        let deepest = key.depth().max(value.depth());
        if deepest >= MAX_DEPTH {
            return Err(Refused {
                value: (key, value),
                fault: Fault::TooDeep,
            });
        }
        let pair = shared(alloc, (key, value))?;
        Ok(Term {
            shape: Shape::MapOfOne(deepest + 1, pair),
        })
    }

    /// Makes the map of pairs in strictly ascending key order, within the limits. The depth is that of the map. On
    /// failure, which is out of memory, hands the pairs back.
    pub fn from_rising(
        alloc: A,
        depth: u8,
        pairs: Vec<(Term<A>, Term<A>), A>,
    ) -> Result<Self, Refused<Vec<(Term<A>, Term<A>), A>>>
        requires within { IsMapDepth depth pairs.items }
        requires rising { AreRising (entries_of pairs.items) }
        ensures ok { IfOk result (λ t. t ≡ map (entries_of pairs.items)) }
        ensures refused { IfErr result (λ r. (r.value.items ≡ pairs.items)
            × (r.fault ≡ Fault.Memory)) }
    {
        let shape = map_shape(alloc, depth, pairs)?;
        Ok(Term { shape })
    }
}
