//! Selection by the sessions of a table, each with a worker of its own.
ghost use Rattle.std.specs.Prelude.{ℕ, ◌≡◌, ◌<◌, ◌≤◌, ◌≢◌, All, List, IfOk, IfErr, IsErrAnd, IsErrOf, MatchBool, length, map, flat_map, true, false, vec_items};
ghost use Rattle.term_core.specs.Datum.{Datum};
ghost use Rattle.part_core.specs.Acts.Purpose.{Counts, Deletes};
ghost use Rattle.parallel_select.specs.Gained.{is_counting, purpose_of};
ghost use Rattle.parallel_select.specs.Workers.{AreFew, AreOfOneTable, EachAnswers, EachBroken, EachTallied};

use crate::fault::SelectFault;
use crate::gained::Asking;
use crate::workers::{Plan, answer_each, tally_each};
use std::alloc::{AllocError, Allocator};
use std::thread::Threads;
use tables::Turns;
use term_core::{Refused, Term};
use walks::Query;

/// The greatest number of members of a selection.
pub const MOST_MEMBERS: usize = 16;

/// Returns whether there are 1 to 16 members.
fn are_few(count: usize) -> bool
    ensures { MatchBool result (AreFew count) (¬ (AreFew count)) }
{
    0 < count && count <= MOST_MEMBERS
}

/// Returns lists of answers joined into one. Fails if an allocation fails.
fn join_lists<A: Allocator + Copy>(
    alloc: A,
    lists: Vec<Vec<Term<A>, A>, A>,
) -> Result<Vec<Term<A>, A>, AllocError>
    ensures { IfOk result (λ answers. answers.items ≡ flat_map vec_items lists.items) }
{
    let mut answers = Vec::new(alloc);
    for list in lists {
        let mut list = list;
        answers.append(&mut list)?;
    }
    Ok(answers)
}

/// Returns the answers of each part, with a worker for each member. Fails if an allocation fails.
fn answer_parts_of<R: Threads + Sync, A: Allocator + Copy + Send + Sync, T: Turns<A> + Send>(
    rt: &R,
    alloc: A,
    members: &mut [T],
    query: &Query<A>,
) -> Result<Vec<Vec<Term<A>, A>, A>, AllocError>
    requires ready { All T.is_ready members.old }
    requires table { AreOfOneTable (map T.home members.old) }
    requires few { AreFew (length members.old) }
    ensures ready { All T.is_ready members.new }
    ensures same { map T.home members.new ≡ map T.home members.old }
    ensures done { IfOk result (λ lists. EachAnswers T.is_ready T.home T.sees query.now (length members.old) (map vec_items lists.items) 0 members.old members.new) }
    ensures refused { IfErr result (λ _. EachBroken T.is_ready T.home T.sees query.now (length members.old) 0 members.old members.new) }
{
    let workers = members.len() as u8;
    let parts = members[0].options().parts;
    let plan = Plan {
        alloc,
        query,
        workers,
        parts,
    };
    answer_each(rt, &plan, 0, members)
}

/// Returns the answers of a query for the objects of a table, in the order of the parts. There is a worker for each
/// member, on a thread of its own: part p belongs to the worker with number p modulo the number of members. Each worker
/// makes walks of its own session, one through each of its parts. A part of a set or bag that the session doesn't fix
/// is fixed first, and released at the walk's end, also if it fails. If there aren't 1 to 16 members, fails with
/// `BadOptions` before any turn. If an allocation fails, returns `Memory` after all workers have ended.
pub fn select_parts<R: Threads + Sync, A: Allocator + Copy + Send + Sync, T: Turns<A> + Send>(
    rt: &R,
    alloc: A,
    members: &mut [T],
    query: &Query<A>,
) -> Result<Vec<Term<A>, A>, SelectFault>
    requires ready { All T.is_ready members.old }
    requires table { AreOfOneTable (map T.home members.old) }
    ensures ready { All T.is_ready members.new }
    ensures same { map T.home members.new ≡ map T.home members.old }
    ensures done { IfOk result (λ answers. AreFew (length members.old) × (lists : List (List Datum)) × (answers.items ≡ flat_map (λ list. list) lists)
        × EachAnswers T.is_ready T.home T.sees query.now (length members.old) lists 0 members.old members.new) }
    ensures refused { IfErr result (λ fault. (fault ≢ SelectFault.BadOptions)
        → EachBroken T.is_ready T.home T.sees query.now (length members.old) 0 members.old members.new) }
    ensures few { AreFew (length members.old) → IfErr result (λ fault. fault ≡ SelectFault.Memory) }
    ensures many { ¬ (AreFew (length members.old)) → IsErrOf result SelectFault.BadOptions × (members.new ≡ members.old) }
{
    if !are_few(members.len()) {
        return Err(SelectFault::BadOptions);
    }
    match answer_parts_of(rt, alloc, members, query) {
        Ok(lists) => match join_lists(alloc, lists) {
            Ok(answers) => Ok(answers),
            Err(_) => Err(SelectFault::Memory),
        },
        Err(_) => Err(SelectFault::Memory),
    }
}

/// Counts, or deletes and counts, with a worker for each member. An error has the number up to then.
fn tally_parts<R: Threads + Sync, A: Allocator + Copy + Send + Sync, T: Turns<A> + Send>(
    rt: &R,
    members: &mut [T],
    query: &Query<A>,
    asking: Asking,
) -> Result<u64, Refused<u64, SelectFault>>
    requires ready { All T.is_ready members.old }
    requires counting { is_counting asking ≡ true }
    ensures ready { All T.is_ready members.new }
    ensures same { map T.home members.new ≡ map T.home members.old }
    ensures done { IfOk result (λ count. AreFew (length members.old)
        × EachTallied T.is_ready T.home T.sees query.now (purpose_of asking) (length members.old) false count 0 members.old members.new) }
    ensures refused { IfErr result (λ refused. (refused.fault ≢ SelectFault.BadOptions)
        → EachTallied T.is_ready T.home T.sees query.now (purpose_of asking) (length members.old) true refused.value 0 members.old members.new) }
    ensures few { AreFew (length members.old) → IfErr result (λ refused. refused.fault ≡ SelectFault.Memory) }
    ensures many { ¬ (AreFew (length members.old)) → IsErrAnd result (λ refused. (refused.value ≡ 0) × (refused.fault ≡ SelectFault.BadOptions)) × (members.new ≡ members.old) }
{
    if !are_few(members.len()) {
        return Err(Refused {
            value: 0,
            fault: SelectFault::BadOptions,
        });
    }
    let workers = members.len() as u8;
    let tally = tally_each(rt, query, asking, workers, 0, members);
    if tally.refused {
        return Err(Refused {
            value: tally.count,
            fault: SelectFault::Memory,
        });
    }
    Ok(tally.count)
}

/// Returns the number of objects of a table for which a query returns `true`, at most 2^64 - 1. There is a worker for
/// each member, on a thread of its own, with the parts and fixes of `select_parts`. Fails with `BadOptions` before any
/// turn if there aren't 1 to 16 members, and with `Memory` if an allocation fails.
pub fn count_parts<R: Threads + Sync, A: Allocator + Copy + Send + Sync, T: Turns<A> + Send>(
    rt: &R,
    members: &mut [T],
    query: &Query<A>,
) -> Result<u64, SelectFault>
    requires ready { All T.is_ready members.old }
    requires table { AreOfOneTable (map T.home members.old) }
    ensures ready { All T.is_ready members.new }
    ensures same { map T.home members.new ≡ map T.home members.old }
    ensures done { IfOk result (λ count. AreFew (length members.old)
        × EachTallied T.is_ready T.home T.sees query.now Counts (length members.old) false count 0 members.old members.new) }
    ensures refused { IfErr result (λ fault. (fault ≢ SelectFault.BadOptions)
        → (until : ℕ) × EachTallied T.is_ready T.home T.sees query.now Counts (length members.old) true until 0 members.old members.new) }
    ensures few { AreFew (length members.old) → IfErr result (λ fault. fault ≡ SelectFault.Memory) }
    ensures many { ¬ (AreFew (length members.old)) → IsErrOf result SelectFault.BadOptions × (members.new ≡ members.old) }
{
    match tally_parts(rt, members, query, Asking::Counts) {
        Ok(count) => Ok(count),
        Err(refused) => Err(refused.fault),
    }
}

/// Deletes the objects of a table for which a query returns `true`, and returns their number, at most 2^64 - 1. Each is
/// deleted in the turn in which it was evaluated. There is a worker for each member, on a thread of its own, with the
/// parts and fixes of `select_parts`. Fails with `BadOptions` before any turn if there aren't 1 to 16 members, and with
/// `Memory` if an allocation fails. The error has the number deleted up to then, and these deletions stay.
pub fn delete_parts<R: Threads + Sync, A: Allocator + Copy + Send + Sync, T: Turns<A> + Send>(
    rt: &R,
    members: &mut [T],
    query: &Query<A>,
) -> Result<u64, Refused<u64, SelectFault>>
    requires ready { All T.is_ready members.old }
    requires table { AreOfOneTable (map T.home members.old) }
    ensures ready { All T.is_ready members.new }
    ensures same { map T.home members.new ≡ map T.home members.old }
    ensures done { IfOk result (λ count. AreFew (length members.old)
        × EachTallied T.is_ready T.home T.sees query.now Deletes (length members.old) false count 0 members.old members.new) }
    ensures refused { IfErr result (λ refused. (refused.fault ≢ SelectFault.BadOptions)
        → EachTallied T.is_ready T.home T.sees query.now Deletes (length members.old) true refused.value 0 members.old members.new) }
    ensures few { AreFew (length members.old) → IfErr result (λ refused. refused.fault ≡ SelectFault.Memory) }
    ensures many { ¬ (AreFew (length members.old)) → IsErrAnd result (λ refused. (refused.value ≡ 0) × (refused.fault ≡ SelectFault.BadOptions)) × (members.new ≡ members.old) }
{
    tally_parts(rt, members, query, Asking::Deletes)
}
