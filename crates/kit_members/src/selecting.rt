//! Queries of a session over its whole table: by members of a selection if it has any, else by the session alone.
ghost use Rattle.std.specs.Prelude.{◌≡◌};
ghost use Rattle.kit_members.specs.Members.{AreMembers};

use parallel_select::{count_parts, delete_parts, select_parts};
use std::alloc::Global;
use std::sync::Wait;
use std::thread::Threads;
use tables::Turns;
use term_core::Term;
use walks::{Query, select, select_count, select_delete};

/// Returns the answers of a query, or `None` if memory runs out.
pub fn selected<R: Threads + Wait + Sync, T: Turns<Global>, M: Turns<Global> + Send>(
    rt: &R,
    alloc: Global,
    turns: &mut T,
    members: &mut [M],
    query: &Query,
) -> Option<Vec<Term>>
    requires ready { T.is_ready turns.old }
    requires members { AreMembers M.is_ready M.home members.old }
    ensures ready { T.is_ready turns.new }
    ensures same { T.home turns.new ≡ T.home turns.old }
    ensures members { AreMembers M.is_ready M.home members.new }
{
    if members.is_empty() {
        select(alloc, turns, query).ok()
    } else {
        select_parts(rt, alloc, members, query).ok()
    }
}

/// Returns the number of objects for which the answer is true, or `None` if memory runs out.
pub fn counted<R: Threads + Wait + Sync, T: Turns<Global>, M: Turns<Global> + Send>(
    rt: &R,
    turns: &mut T,
    members: &mut [M],
    query: &Query,
) -> Option<u64>
    requires ready { T.is_ready turns.old }
    requires members { AreMembers M.is_ready M.home members.old }
    ensures ready { T.is_ready turns.new }
    ensures same { T.home turns.new ≡ T.home turns.old }
    ensures members { AreMembers M.is_ready M.home members.new }
{
    if members.is_empty() {
        select_count(turns, query).ok()
    } else {
        count_parts(rt, members, query).ok()
    }
}

/// Deletes the objects for which the answer is true, and returns their number, or `None` if memory runs out.
pub fn deleted<R: Threads + Wait + Sync, T: Turns<Global>, M: Turns<Global> + Send>(
    rt: &R,
    turns: &mut T,
    members: &mut [M],
    query: &Query,
) -> Option<u64>
    requires ready { T.is_ready turns.old }
    requires members { AreMembers M.is_ready M.home members.old }
    ensures ready { T.is_ready turns.new }
    ensures same { T.home turns.new ≡ T.home turns.old }
    ensures members { AreMembers M.is_ready M.home members.new }
{
    if members.is_empty() {
        select_delete(turns, query).ok()
    } else {
        delete_parts(rt, members, query).ok()
    }
}
