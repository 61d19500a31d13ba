//! Tuples and lists of the last terms of a vector.
ghost use Rattle.std.specs.Prelude.{◌≡◌, ◌≤◌, drop, length, take, IfOk, IfErr, OnOk};
ghost use Rattle.term_core.specs.Datum.{cells, items_of};
ghost use Rattle.term_core.specs.Datum.Datum.{nil, tuple};
ghost use Rattle.term_core.specs.Fault.{IsFault};

use super::{Term, behind, blocks, deepest, list_depth};
use crate::fault::Fault;
use crate::{MAX_DEPTH, MAX_TUPLE};
use std::alloc::{AllocError, Allocator};

impl<A: Allocator + Copy> Term<A> {
    /// Makes the tuple of the terms of a vector from an index on, and removes them from the vector. Requires that the
    /// index is at most the vector's length. Up to six elements take one block. Fails if the tuple would be deeper than
    /// `MAX_DEPTH`, if there are more than `MAX_TUPLE` elements, or if an allocation fails; then some of the terms may
    /// be removed.
    #[inline(always)]
    pub fn tuple_of_last(alloc: A, terms: &mut Vec<Term<A>, A>, base: usize) -> Result<Self, Fault>
        requires { base ≤ length terms.old.items }
        ensures rest { OnOk result (terms.new.items ≡ take base terms.old.items) }
        ensures ok { IfOk result (λ t. t ≡ tuple (items_of (drop base terms.old.items))) }
        ensures refused { IfErr result (λ fault. IsFault fault
            (tuple (items_of (drop base terms.old.items)))) }
    {
        let deepest = deepest(behind(terms.as_slice(), base));
        if deepest >= MAX_DEPTH {
            return Err(Fault::TooDeep);
        }
        if terms.len() - base > MAX_TUPLE {
            return Err(Fault::TooLong);
        }
        match blocks::tuple_of_last(alloc, deepest + 1, terms, base) {
            Ok(shape) => Ok(Term { shape }),
            Err(AllocError) => Err(Fault::Memory),
        }
    }

    /// Makes the list of the terms of a vector from an index on, and removes them from the vector. Requires that the
    /// index is at most the vector's length. Up to four elements take one block. Fails if the list would be deeper than
    /// `MAX_DEPTH`, if there are more than `MAX_LIST` elements, or if an allocation fails; then some of the terms may be
    /// removed.
    #[inline(always)]
    pub fn list_of_last(alloc: A, terms: &mut Vec<Term<A>, A>, base: usize) -> Result<Self, Fault>
        requires { base ≤ length terms.old.items }
        ensures rest { OnOk result (terms.new.items ≡ take base terms.old.items) }
        ensures ok { IfOk result (λ t. t ≡ cells (drop base terms.old.items) nil) }
        ensures refused { IfErr result (λ fault. IsFault fault
            (cells (drop base terms.old.items) nil)) }
    {
        if terms.len() == base {
            return Ok(Term::nil());
        }
        match list_depth(behind(terms.as_slice(), base), &None) {
            Ok(depth) => match blocks::list_of_last(alloc, depth, terms, base) {
                Ok(shape) => Ok(Term { shape }),
                Err(AllocError) => Err(Fault::Memory),
            },
            Err(fault) => Err(fault),
        }
    }
}
