//! Heads of clauses matched with objects.
ghost use Rattle.std.specs.Prelude.{◌≡◌, length, IfOk, MatchOption};
ghost use Rattle.mspec_match.specs.Slots.{seen, AreFree, NeverMatches, MatchesBy};

use crate::bind::{Slot, bind};
use mspec_syntax::Clause;
use std::alloc::{AllocError, Allocator};
use term_core::Term;
use term_operand::Operand;

/// Returns `count` free slots.
fn free_slots<'a, A: Allocator + Copy>(
    alloc: A,
    count: usize,
) -> Result<Vec<Slot<'a, A>, A>, AllocError>
    ensures { IfOk result (λ slots. (length slots.items ≡ count) × AreFree (seen slots.items)) }
{
    let mut slots = Vec::with_capacity(alloc, count)?;
    while slots.len() < count {
        slots.push(None)?;
    }
    Ok(slots)
}

/// Returns the slots of a clause's variables if its head matches the object, otherwise `None`. Fails if an allocation
/// fails.
pub fn matched<'a, A: Allocator + Copy>(
    alloc: A,
    clause: &Clause<A>,
    object: &'a Term<A>,
) -> Result<Option<Vec<Slot<'a, A>, A>>, AllocError>
    ensures { IfOk result (λ found. MatchOption found (NeverMatches clause.now.head object.entry.now)
        (λ slots. MatchesBy clause.now slots object.entry.now)) }
{
    let mut slots = free_slots(alloc, clause.variables().len())?;
    if bind(
        clause.variables(),
        slots.as_mut_slice(),
        clause.head(),
        Operand::Term(object),
    ) {
        Ok(Some(slots))
    } else {
        Ok(None)
    }
}
