//! Terms made of terms, or `None` if they would exceed a limit.
ghost use Rattle.std.specs.Prelude.{◌≡◌, ◌≢◌, IfOk, OnOk};
ghost use Rattle.term_core.specs.Datum.{cells, entries_of, items_of};
ghost use Rattle.term_core.specs.Datum.Datum.{map, tuple};
ghost use Rattle.term_core.specs.Limits.{within_limits};
ghost use Rattle.term_core.specs.MapPairs.{HasTwice, by_key};

use crate::named::map_of_pairs;
use std::alloc::{AllocError, Allocator};
use term_core::{Fault, Term};

/// Turns a fault that is out of memory into an error, and any other fault into `Ok`.
fn unless_memory(fault: Fault) -> Result<(), AllocError>
    ensures { OnOk result (fault ≢ Fault.Memory) }
{
    match fault {
        Fault::Memory => Err(AllocError),
        Fault::TooDeep | Fault::TooLong | Fault::DuplicateKey => Ok(()),
    }
}

/// Makes the tuple of these elements, or returns `None` if there are more than `MAX_TUPLE` or it would be deeper than
/// `MAX_DEPTH`. Fails if an allocation fails.
pub fn make_tuple<A: Allocator + Copy>(
    alloc: A,
    elements: Vec<Term<A>, A>,
) -> Result<Option<Term<A>>, AllocError>
    ensures { IfOk result (λ made. made ≡ within_limits (tuple (items_of elements.items))) }
{
    match Term::tuple(alloc, elements) {
        Ok(tuple) => {
            // The proof needs this read: a term that is read is known to be within its limits.
            let _ = tuple.depth();
            Ok(Some(tuple))
        }
        Err(refused) => {
            unless_memory(refused.fault)?;
            Ok(None)
        }
    }
}

/// Makes the list of these elements followed by a tail. Returns `None` if it would have more than `MAX_LIST` elements,
/// counting those of a tail that is a list, or would be deeper than `MAX_DEPTH`. Without elements, the result is the
/// tail. Fails if an allocation fails.
pub fn make_list<A: Allocator + Copy>(
    alloc: A,
    elements: Vec<Term<A>, A>,
    tail: Term<A>,
) -> Result<Option<Term<A>>, AllocError>
    ensures { IfOk result (λ made. made ≡ within_limits (cells elements.items tail)) }
{
    match Term::list(alloc, elements, Some(tail)) {
        Ok(list) => {
            // The proof needs this read: a term that is read is known to be within its limits.
            let _ = list.depth();
            Ok(Some(list))
        }
        Err(refused) => {
            unless_memory(refused.fault)?;
            Ok(None)
        }
    }
}

/// Makes the map of these pairs, in any order, whose keys all differ. Returns `None` if there are more than `MAX_MAP`
/// pairs or the map would be deeper than `MAX_DEPTH`. Fails if an allocation fails.
pub fn make_map<A: Allocator + Copy>(
    alloc: A,
    pairs: Vec<(Term<A>, Term<A>), A>,
) -> Result<Option<Term<A>>, AllocError>
    requires { ¬ HasTwice pairs.items }
    ensures { IfOk result (λ made. made ≡ within_limits (map (entries_of (by_key pairs.items)))) }
{
    match map_of_pairs(alloc, pairs) {
        Ok(map) => {
            // The proof needs this read: a term that is read is known to be within its limits.
            let _ = map.depth();
            Ok(Some(map))
        }
        Err(refused) => {
            unless_memory(refused.fault)?;
            Ok(None)
        }
    }
}
