//! Maps, made of pairs in any order.
ghost use Rattle.std.specs.Prelude.{◌≡◌, ◌<◌, ◌≤◌, ◌↔◌, length, map as map_list, IsTrue, IsSorted, IfOk, IfErr};
ghost use Rattle.std.specs.List.{AllByRecursion, IsDistinct};
ghost use Rattle.std.specs.Ordering.{eq_by_cmp};
ghost use Rattle.term_core.specs.Datum.{entries_of};
ghost use Rattle.term_core.specs.Limits.{entries_depth};
ghost use Rattle.term_core.specs.MapPairs.{AreRising, HasTwice, IsMapOf, IsMapFault, IsMapDepth, IsPairSound, keys_of};
ghost use Rattle.term_core.specs.Order.{datum_cmp};

use super::Term;
use crate::fault::{Fault, Refused};
use crate::{MAX_DEPTH, MAX_MAP};
use std::alloc::{AllocError, Allocator};

/// Returns the greatest depth of the keys and values of these pairs, 0 if there are none.
fn deepest_pair<A: Allocator>(pairs: &[(Term<A>, Term<A>)]) -> u8
    ensures value { result ≡ entries_depth (entries_of pairs.now) }
    ensures sound { AllByRecursion IsPairSound pairs.now }
{
    let mut deepest = 0;
    for pair in pairs {
        deepest = deepest.max(pair.0.depth()).max(pair.1.depth());
    }
    deepest
}

/// Returns the depth of the map of these pairs. Fails if it would be too deep or too long.
fn map_depth<A: Allocator>(pairs: &[(Term<A>, Term<A>)]) -> Result<u8, Fault>
    ensures ok { IfOk result (λ d. IsMapDepth d pairs.now) }
    ensures refused { IfErr result (λ fault. IsMapFault fault pairs.now) }
{
    let deepest = deepest_pair(pairs);
    if deepest >= MAX_DEPTH {
        return Err(Fault::TooDeep);
    }
    if pairs.len() > MAX_MAP {
        return Err(Fault::TooLong);
    }
    Ok(deepest + 1)
}

/// Returns whether the keys are in strictly ascending order.
fn is_rising<A: Allocator>(pairs: &[(Term<A>, Term<A>)]) -> bool
    ensures { IsTrue result ↔ AreRising (entries_of pairs.now) }
{
    for later in 1..pairs.len() {
        if pairs[later - 1].0 >= pairs[later].0 {
            return false;
        }
    }
    true
}

/// Returns references to the keys of these pairs, in the order of the pairs.
fn keys<'a, A: Allocator>(
    alloc: A,
    pairs: &'a [(Term<A>, Term<A>)],
) -> Result<Vec<&'a Term<A>, A>, AllocError>
    ensures { IfOk result (λ keys. map_list (λ key. key.now) keys.items ≡ keys_of pairs.now) }
{
    let mut keys = Vec::with_capacity(alloc, pairs.len())?;
    for pair in pairs {
        keys.push(&pair.0)?;
    }
    Ok(keys)
}

/// Returns whether all of these terms differ. Requires that they are sorted in ascending order.
pub fn neighbours_differ<A: Allocator>(terms: &[&Term<A>]) -> bool
    requires { IsSorted (λ a b. datum_cmp a.now b.now) terms.now }
    ensures { IsTrue result ↔ IsDistinct (eq_by_cmp datum_cmp)
        (map_list (λ term. term.now) terms.now) }
{
    for later in 1..terms.len() {
        if terms[later - 1] == terms[later] {
            return false;
        }
    }
    true
}

/// Returns whether a key occurs twice among these pairs.
fn has_twin<A: Allocator>(alloc: A, pairs: &[(Term<A>, Term<A>)]) -> Result<bool, AllocError>
    ensures { IfOk result (λ twin. IsTrue twin ↔ HasTwice pairs.now) }
{
    let mut keys = keys(alloc, pairs)?;
    keys.sort_unstable();
    Ok(!neighbours_differ(keys.as_slice()))
}

/// Returns copies of these pairs, in their order.
fn copy_pairs<A: Allocator>(
    alloc: A,
    pairs: &[(Term<A>, Term<A>)],
) -> Result<Vec<(Term<A>, Term<A>), A>, AllocError>
    ensures { IfOk result (λ v. v.items ≡ pairs.now) }
{
    let mut copies = Vec::with_capacity(alloc, pairs.len())?;
    for (key, value) in pairs {
        copies.push((key.copy()?, value.copy()?))?;
    }
    Ok(copies)
}

/// Makes the map of pairs in any order whose keys all differ. On failure, which is out of memory, hands the pairs back
/// in their order.
fn sorted_map<A: Allocator + Copy>(
    alloc: A,
    depth: u8,
    pairs: Vec<(Term<A>, Term<A>), A>,
) -> Result<Term<A>, Refused<Vec<(Term<A>, Term<A>), A>>>
    requires within { IsMapDepth depth pairs.items }
    requires apart { ¬ HasTwice pairs.items }
    ensures ok { IfOk result (λ t. IsMapOf pairs.items t) }
    ensures refused { IfErr result (λ r. (r.value.items ≡ pairs.items) × (r.fault ≡ Fault.Memory)) }
{
    // Copies are sorted instead of the pairs, so that the pairs are handed back in their order if memory runs out.
    let Ok(mut sorted) = copy_pairs(alloc, pairs.as_slice()) else {
        return Err(Refused {
            value: pairs,
            fault: Fault::Memory,
        });
    };
    sorted.sort_unstable();
    match Term::from_rising(alloc, depth, sorted) {
        Ok(map) => Ok(map),
        Err(_) => Err(Refused {
            value: pairs,
            fault: Fault::Memory,
        }),
    }
}

impl<A: Allocator + Copy> Term<A> {
    ghost use Rattle.std.specs.Prelude.{◌≡◌, IfOk, IfErr};
    ghost use Rattle.term_core.specs.Datum.{Datum};
    ghost use Rattle.term_core.specs.MapPairs.{HasTwice, IsMapOf, IsMapFault};

    /// Makes the map of these pairs, in any order. Fails if it would be deeper than `MAX_DEPTH`, if there are more than
    /// `MAX_MAP` pairs, if a key occurs twice, or if an allocation fails. On failure, hands the pairs back in their
    /// order.
    pub fn map(
        alloc: A,
        pairs: Vec<(Term<A>, Term<A>), A>,
    ) -> Result<Self, Refused<Vec<(Term<A>, Term<A>), A>>>
        ensures ok { IfOk result (λ t. IsMapOf pairs.items t) }
        ensures only { IfOk result (λ t. (d : Datum) → IsMapOf pairs.items d → d ≡ t) }
        ensures apart { IfOk result (λ t. ¬ HasTwice pairs.items) }
        ensures refused { IfErr result (λ r. (r.value.items ≡ pairs.items)
            × IsMapFault r.fault pairs.items) }
    {
        let depth = match map_depth(pairs.as_slice()) {
            Ok(depth) => depth,
            Err(fault) => {
                return Err(Refused {
                    value: pairs,
                    fault,
                });
            }
        };
        if is_rising(pairs.as_slice()) {
            return Term::from_rising(alloc, depth, pairs);
        }
        match has_twin(alloc, pairs.as_slice()) {
            Ok(false) => sorted_map(alloc, depth, pairs),
            Ok(true) => Err(Refused {
                value: pairs,
                fault: Fault::DuplicateKey,
            }),
            Err(AllocError) => Err(Refused {
                value: pairs,
                fault: Fault::Memory,
            }),
        }
    }
}
