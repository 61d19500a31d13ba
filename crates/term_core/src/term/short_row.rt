//! Rows of one to four terms, and the tuples and lists made of them.
ghost use Rattle.std.specs.Prelude.{◌≡◌, ◌<◌, ◌≤◌, ◌++◌, ◌∷◌, [], length, IfOk, IfErr};
ghost use Rattle.term_core.specs.Datum.{cells, items_of};
ghost use Rattle.term_core.specs.Datum.Datum.{nil, tuple};
ghost use Rattle.term_core.specs.Fault.{IsFault};
ghost use Rattle.term_core.specs.Limits.{depth as depth_of};
ghost use Rattle.term_core.specs.ShortRow.{row_items};
ghost use Rattle.term_core.specs.Term.{datum_of, IsKept};

use super::{Shape, Term, deepest, list_depth, shared};
use crate::MAX_DEPTH;
use crate::fault::{Fault, Refused};
use std::alloc::{Allocator, Global};

/// One to four terms in a row. The shortest tuples and lists are made of such rows, since they take the least memory.
#[derive(Drop)]
pub enum ShortRow<A: Allocator = Global> {
    /// One term.
    One([Term<A>; 1]),
    /// Two terms.
    Two([Term<A>; 2]),
    /// Three terms.
    Three([Term<A>; 3]),
    /// Four terms.
    Four([Term<A>; 4]),
}

impl<A: Allocator> ShortRow<A> {
    /// Returns the terms, from the left.
    pub fn as_slice(&self) -> &[Term<A>]
        ensures terms { result.now ≡ row_items self.now }
        ensures some { 0 < length result.now }
        ensures few { length result.now ≤ 4 }
    {
        match self {
            ShortRow::One(terms) => &terms[..],
            ShortRow::Two(terms) => &terms[..],
            ShortRow::Three(terms) => &terms[..],
            ShortRow::Four(terms) => &terms[..],
        }
    }

    /// Returns the row with one more term appended. Requires that the row has fewer than four terms.
    pub fn with(self, next: Term<A>) -> Self
        requires { length (row_items self) < 4 }
        ensures { row_items result ≡ row_items self ++ next ∷ [] }
    {
        match self {
            ShortRow::One([first]) => ShortRow::Two([first, next]),
            ShortRow::Two([first, second]) => ShortRow::Three([first, second, next]),
            ShortRow::Three([first, second, third]) => ShortRow::Four([first, second, third, next]),
            ShortRow::Four(_full) => unreachable!(),
        }
    }
}

/// Makes the representation of the tuple of these elements, of the given depth. On failure, hands the elements back.
fn short_shape<A: Allocator>(
    alloc: A,
    depth: u8,
    elements: ShortRow<A>,
) -> Result<Shape<A>, Refused<ShortRow<A>>>
    requires { depth ≡ depth_of (tuple (items_of (row_items elements))) }
    ensures value { IfOk result (λ s. datum_of s ≡ tuple (items_of (row_items elements))) }
    ensures kept { IfOk result (λ s. IsKept s) }
    ensures refused { IfErr result (λ r. (r.value ≡ elements) × (r.fault ≡ Fault.Memory)) }
{
    match elements {
        ShortRow::One(row) => match shared(alloc, row) {
            Ok(row) => Ok(Shape::TupleOfOne(depth, row)),
            Err(refused) => Err(Refused {
                value: ShortRow::One(refused.value),
                fault: refused.fault,
            }),
        },
        ShortRow::Two(row) => match shared(alloc, row) {
            Ok(row) => Ok(Shape::TupleOfTwo(depth, row)),
            Err(refused) => Err(Refused {
                value: ShortRow::Two(refused.value),
                fault: refused.fault,
            }),
        },
        ShortRow::Three(row) => match shared(alloc, row) {
            Ok(row) => Ok(Shape::TupleOfThree(depth, row)),
            Err(refused) => Err(Refused {
                value: ShortRow::Three(refused.value),
                fault: refused.fault,
            }),
        },
        ShortRow::Four(row) => match shared(alloc, row) {
            Ok(row) => Ok(Shape::TupleOfFour(depth, row)),
            Err(refused) => Err(Refused {
                value: ShortRow::Four(refused.value),
                fault: refused.fault,
            }),
        },
    }
}

/// Makes the shape of the list of these elements, of this depth. Hands the elements back if the allocation fails.
fn list_shape<A: Allocator>(
    alloc: A,
    depth: u8,
    elements: ShortRow<A>,
) -> Result<Shape<A>, Refused<ShortRow<A>>>
    requires some { 0 < length (row_items elements) }
    requires depth { depth ≡ depth_of (cells (row_items elements) nil) }
    ensures value { IfOk result (λ s. datum_of s ≡ cells (row_items elements) nil) }
    ensures kept { IfOk result (λ s. IsKept s) }
    ensures refused { IfErr result (λ r. (r.value ≡ elements) × (r.fault ≡ Fault.Memory)) }
{
    match elements {
        ShortRow::One(row) => match shared(alloc, row) {
            Ok(row) => Ok(Shape::ListOfOne(depth, row)),
            Err(refused) => Err(Refused {
                value: ShortRow::One(refused.value),
                fault: refused.fault,
            }),
        },
        ShortRow::Two(row) => match shared(alloc, row) {
            Ok(row) => Ok(Shape::ListOfTwo(depth, row)),
            Err(refused) => Err(Refused {
                value: ShortRow::Two(refused.value),
                fault: refused.fault,
            }),
        },
        ShortRow::Three(row) => match shared(alloc, row) {
            Ok(row) => Ok(Shape::ListOfThree(depth, row)),
            Err(refused) => Err(Refused {
                value: ShortRow::Three(refused.value),
                fault: refused.fault,
            }),
        },
        ShortRow::Four(row) => match shared(alloc, row) {
            Ok(row) => Ok(Shape::ListOfFour(depth, row)),
            Err(refused) => Err(Refused {
                value: ShortRow::Four(refused.value),
                fault: refused.fault,
            }),
        },
    }
}

impl<A: Allocator> Term<A> {
    /// Makes the tuple of one to four elements with a single allocation of the smallest size. Fails if the tuple would
    /// be deeper than `MAX_DEPTH`, or if the allocation fails. On failure, hands the elements back.
    pub fn short_tuple(alloc: A, elements: ShortRow<A>) -> Result<Self, Refused<ShortRow<A>>>
        ensures ok { IfOk result (λ t. t ≡ tuple (items_of (row_items elements))) }
        ensures refused { IfErr result (λ r. (r.value ≡ elements)
            × IsFault r.fault (tuple (items_of (row_items elements)))) }
    {
        let deepest = deepest(elements.as_slice());
        if deepest >= MAX_DEPTH {
            return Err(Refused {
                value: elements,
                fault: Fault::TooDeep,
            });
        }
        let shape = short_shape(alloc, deepest + 1, elements)?;
        Ok(Term { shape })
    }

    /// Makes the list of one to four elements with a single allocation of the smallest size. Fails if the list would be
    /// deeper than `MAX_DEPTH`, or if the allocation fails. On failure, hands the elements back.
    pub fn short_list(alloc: A, elements: ShortRow<A>) -> Result<Self, Refused<ShortRow<A>>>
        ensures ok { IfOk result (λ t. t ≡ cells (row_items elements) nil) }
        ensures refused { IfErr result (λ r. (r.value ≡ elements)
            × IsFault r.fault (cells (row_items elements) nil)) }
    {
        match list_depth(elements.as_slice(), &None) {
            Ok(depth) => {
                let shape = list_shape(alloc, depth, elements)?;
                Ok(Term { shape })
            }
            Err(fault) => Err(Refused {
                value: elements,
                fault,
            }),
        }
    }
}
