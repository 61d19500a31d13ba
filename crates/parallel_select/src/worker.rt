//! What one worker does: a walk through each part that is its own.
ghost use Rattle.std.specs.Prelude.{ℕ, true, ◌≡◌, ◌<◌, ◌≤◌, ◌++◌, IsTrue, IfOk, IfErr, List, length, vec_items, map};
ghost use Rattle.term_core.specs.Datum.{Datum};
ghost use Rattle.part_core.specs.Acts.Purpose.{Answers};
ghost use Rattle.tables.specs.Turns.{Views, Follows};
ghost use Rattle.parallel_select.specs.Gained.{IsFor, is_counting, purpose_of};
ghost use Rattle.parallel_select.specs.Parts.{part_walk, is_share, answers_of, Passes, PassesCounting, CeasesAt, CeasesCounting, Works, Broken, Counted, BrokenAt};

use crate::gained::{Asking, Gained};
use crate::part::select_part;
use std::alloc::{AllocError, Allocator};
use tables::Turns;
use term_core::{Refused, Term};
use walks::Query;

/// Returns the answers of a part, none if the part is another worker's. Fails if an allocation fails.
fn answer_part<A: Allocator + Copy, T: Turns<A>>(
    alloc: A,
    query: &Query<A>,
    workers: u8,
    number: u8,
    part: u8,
    turns: &mut T,
) -> Result<Vec<Term<A>, A>, AllocError>
    requires ready { T.is_ready turns.old }
    requires part { part < (T.home turns.old).options.parts }
    requires workers { 0 < workers }
    ensures ready { T.is_ready turns.new }
    ensures same { T.home turns.new ≡ T.home turns.old }
    ensures done { IfOk result (λ answers. Follows (T.sees turns.old) (T.sees turns.new)
        (Passes (T.home turns.old) (part_walk (T.home turns.old) Answers query.now) (is_share workers number) part answers.items)) }
    ensures refused { IfErr result (λ _. Follows (T.sees turns.old) (T.sees turns.new)
        (λ v u. (found : List Datum) × CeasesAt (T.home turns.old) (part_walk (T.home turns.old) Answers query.now) (is_share workers number) part found v u)) }
{
    if part % workers != number {
        return Ok(Vec::new(alloc));
    }
    let mut gained = Gained::no_answers(alloc);
    match select_part(turns, query, Asking::Answers, part, &mut gained) {
        Ok(()) => Ok(gained.into_answers()),
        Err(_) => Err(AllocError),
    }
}

/// Returns the answers of each part, none for those of other workers. Fails if an allocation fails.
pub(crate) fn answer_parts<A: Allocator + Copy, T: Turns<A>>(
    alloc: A,
    query: &Query<A>,
    workers: u8,
    number: u8,
    turns: &mut T,
) -> Result<Vec<Vec<Term<A>, A>, A>, AllocError>
    requires ready { T.is_ready turns.old }
    requires workers { 0 < workers }
    ensures ready { T.is_ready turns.new }
    ensures same { T.home turns.new ≡ T.home turns.old }
    ensures each { IfOk result (λ lists. length (map vec_items lists.items) ≡ (T.home turns.old).options.parts) }
    ensures done { IfOk result (λ lists. Follows (T.sees turns.old) (T.sees turns.new)
        (λ v u. Works (T.home turns.old) (part_walk (T.home turns.old) Answers query.now) (is_share workers number)
        (answers_of (map vec_items lists.items)) v (T.home turns.old).options.parts u)) }
    ensures refused { IfErr result (λ _. Follows (T.sees turns.old) (T.sees turns.new)
        (Broken (T.home turns.old) (part_walk (T.home turns.old) Answers query.now) (is_share workers number))) }
{
    let parts = turns.options().parts;
    let Ok(lists) = Vec::with_capacity(alloc, usize::from(parts)) else {
        return Err(AllocError);
    };
    let mut lists = lists;
    for part in 0..parts {
        match answer_part(alloc, query, workers, number, part, turns) {
            Ok(answers) => lists.push_reserved(answers),
            Err(_) => return Err(AllocError),
        }
    }
    Ok(lists)
}

/// Counts or deletes in a part if it is the worker's own. Fails if an allocation fails.
fn count_part<A: Allocator, T: Turns<A>>(
    query: &Query<A>,
    asking: Asking,
    workers: u8,
    number: u8,
    part: u8,
    turns: &mut T,
    gained: &mut Gained<A>,
) -> Result<(), AllocError>
    requires ready { T.is_ready turns.old }
    requires part { part < (T.home turns.old).options.parts }
    requires workers { 0 < workers }
    requires purpose { IsFor asking gained.old }
    ensures ready { T.is_ready turns.new }
    ensures same { T.home turns.new ≡ T.home turns.old }
    ensures purpose { IsFor asking gained.new }
    ensures done { IfOk result (λ _. Follows (T.sees turns.old) (T.sees turns.new)
        (PassesCounting (T.home turns.old) (part_walk (T.home turns.old) (purpose_of asking) query.now) (is_share workers number) part gained.old gained.new)) }
    ensures refused { IfErr result (λ _. Follows (T.sees turns.old) (T.sees turns.new)
        (CeasesCounting (T.home turns.old) (part_walk (T.home turns.old) (purpose_of asking) query.now) (is_share workers number) part gained.old gained.new)) }
{
    if part % workers != number {
        return Ok(());
    }
    select_part(turns, query, asking, part, gained)
}

/// Counts or deletes in the worker's own parts, and returns the number, at most 2^64 - 1. If an allocation fails, the
/// error has the number up to then.
pub(crate) fn count_parts_of<A: Allocator, T: Turns<A>>(
    query: &Query<A>,
    asking: Asking,
    workers: u8,
    number: u8,
    turns: &mut T,
) -> Result<u64, Refused<u64, AllocError>>
    requires ready { T.is_ready turns.old }
    requires workers { 0 < workers }
    requires counting { is_counting asking ≡ true }
    ensures ready { T.is_ready turns.new }
    ensures same { T.home turns.new ≡ T.home turns.old }
    ensures done { IfOk result (λ count. Follows (T.sees turns.old) (T.sees turns.new)
        (Counted (T.home turns.old) (part_walk (T.home turns.old) (purpose_of asking) query.now) (is_share workers number) count)) }
    ensures refused { IfErr result (λ refused. Follows (T.sees turns.old) (T.sees turns.new)
        (BrokenAt (T.home turns.old) (part_walk (T.home turns.old) (purpose_of asking) query.now) (is_share workers number) refused.value)) }
{
    let mut gained: Gained<A> = Gained::nothing_counted();
    for part in 0..turns.options().parts {
        match count_part(query, asking, workers, number, part, turns, &mut gained) {
            Ok(()) => (),
            Err(_) => {
                return Err(Refused {
                    value: gained.count(),
                    fault: AllocError,
                });
            }
        }
    }
    Ok(gained.count())
}
