//! What a session does at a table that is opened for it, and what becomes of the table, with each allocation failing in
//! turn, alone and together with all later ones.
ghost use Rattle.std.specs.Prelude.{◌≡◌};
ghost use Rattle.tables.specs.Sessions.{IsOpened};

use crate::leaks::{Middle, is_reached};
use crate::pairs::{local_table, opened};
use crate::putting::{Call, are_put};
use crate::refusals::{is_fixed, is_opened, is_opened_over, is_put, is_spare};
use crate::selecting::is_selected;
use gate::Closed;
use kit_alloc::{Failing, sweep, sweep_onward};
use part_core::{Part, TableKind};
use part_hash::HashPart;
use part_order::OrderPart;
use part_plain::PlainPart;
use std::alloc::{Allocator, Global};
use std::sync::Wait;
use tables::{Options, Session, Table, Turns};

/// The maximal number of runs of a sweep.
const RUNS: u64 = 2_000;

/// The sort of a table's parts.
#[derive(Clone, Copy)]
pub(crate) enum Sort {
    Plain,
    Hashed,
    Ordered,
}

/// What a session does.
#[derive(Clone, Copy)]
pub(crate) enum Act {
    /// Nothing, since its table is only opened.
    Nothing,
    /// It inserts objects by a call, one after the other.
    Put(Call),
    /// It inserts one object.
    PutOne,
    /// It inserts objects and fixes the table.
    Fix,
    /// It gets into the middle of an action.
    Reach(Middle),
    /// It makes calls that never allocate.
    Spare,
}

/// Which table it is, and what becomes of it after its session.
#[derive(Clone, Copy)]
pub(crate) enum Home {
    /// One on one thread, which is dropped.
    Alone,
    /// One with gates, which is dropped as it is opened: no session does anything.
    Opened,
    /// One with gates over parts that the caller gives, which is dropped as it is opened.
    OpenedOver,
    /// One with gates, which is dropped with its sessions, none of which leaves.
    Gates,
    /// One with gates, which another session closes although the first does not leave, and which is dropped after this
    /// many of its parts were taken out.
    Closed(u8),
    /// One with gates, which another session closes after the first has met it and left.
    Left,
    /// One with gates in which the session walks, and which is dropped.
    Walked,
}

/// A table, what a session does there, and what becomes of it.
#[derive(Clone, Copy)]
pub(crate) struct Trial {
    pub(crate) sort: Sort,
    pub(crate) kind: TableKind,
    pub(crate) parts: u8,
    pub(crate) home: Home,
    pub(crate) act: Act,
}

impl Trial {
    /// Returns the options of the table, with one session more than are used.
    fn options(self) -> Options
        ensures { result.sessions ≡ 3 }
    {
        Options {
            name: 1,
            kind: self.kind,
            keypos: 1,
            parts: self.parts,
            sessions: 3,
        }
    }
}

/// Returns whether a session does what it has to, or `None` if memory runs out.
fn is_done<A: Allocator + Copy, T: Turns<A>>(
    alloc: Global,
    heap: A,
    counts: &Failing<Global>,
    turns: &mut T,
    trial: Trial,
) -> Option<bool>
    requires { T.is_ready turns.old }
    ensures ready { T.is_ready turns.new }
    ensures same { T.home turns.new ≡ T.home turns.old }
{
    match trial.act {
        Act::Nothing => Some(true),
        Act::Put(call) => are_put(alloc, heap, counts, turns, trial.kind, call),
        Act::PutOne => Some(is_put(heap, counts, turns)),
        Act::Fix => is_fixed(heap, turns),
        Act::Reach(middle) => is_reached(heap, turns, middle),
        Act::Spare => is_spare(heap, counts, turns),
    }
}

/// Has a session of a table with gates do its act. Returns the session, and whether it did what it has to, or `None` if
/// memory ran out.
fn done_in<R: Wait, A: Allocator + Copy, P: Part<A> + Drop>(
    rt: &R,
    alloc: Global,
    heap: A,
    counts: &Failing<Global>,
    table: &Table<P, A>,
    session: Session<P, A>,
    trial: Trial,
) -> (Session<P, A>, Option<bool>)
    requires { IsOpened table.now.options table.now.gates.items session.number session.passes.items }
    ensures { IsOpened table.now.options table.now.gates.items result.0.number result.0.passes.items }
{
    let mut session = session;
    let mut at = table.at(rt, &mut session);
    let is_done = is_done(alloc, heap, counts, &mut at, trial);
    (session, is_done)
}

/// Takes parts out of a closed table, at most `most`, and returns their number. Drops the others.
fn parts_out<A: Allocator, P: Part<A> + Drop>(closed: Closed<P, A>, most: u8) -> u8 {
    let mut closed = closed;
    for out in 0..most {
        let part = closed.next_part();
        let is_out = matches!(&part, Some(Ok(_)));
        drop(part);
        if !is_out {
            drop(closed);
            return out;
        }
    }
    drop(closed);
    most
}

/// Has two sessions meet, and the first leave with its fixes. Returns whether exactly two parts are then taken out of
/// the table, closed with the other session, and no allocation failed.
fn is_left<R: Wait, A: Allocator + Copy, P: Part<A> + Drop>(
    rt: &R,
    counts: &Failing<Global>,
    table: Table<P, A>,
    first: Session<P, A>,
    other: Session<P, A>,
) -> bool
    requires first { IsOpened table.options table.gates.items first.number first.passes.items }
    requires other { IsOpened table.options table.gates.items other.number other.passes.items }
{
    let mut first = first;
    let mut other = other;
    table.meet(&mut first, &mut other);
    table.leave(rt, first);
    parts_out(table.close(other), 3) == 2 && !counts.was_refused()
}

/// Does with a table what its trial says, and returns whether the results of that are right.
fn is_let_go<R: Wait, A: Allocator + Copy, P: Part<A> + Drop>(
    rt: &R,
    heap: A,
    counts: &Failing<Global>,
    table: Table<P, A>,
    first: Session<P, A>,
    other: Session<P, A>,
    home: Home,
) -> bool
    requires first { IsOpened table.options table.gates.items first.number first.passes.items }
    requires other { IsOpened table.options table.gates.items other.number other.passes.items }
{
    match home {
        Home::Alone | Home::Opened | Home::OpenedOver | Home::Gates => {
            drop(other);
            drop(first);
            drop(table);
            true
        }
        Home::Closed(count) => {
            let are_out = parts_out(table.close(other), count) == count;
            drop(first);
            are_out
        }
        Home::Left => is_left(rt, counts, table, first, other),
        Home::Walked => {
            let is_selected = is_selected(rt, heap, counts, &table, first);
            drop(other);
            drop(table);
            is_selected
        }
    }
}

/// Returns whether a session does what it has to at a table with gates, and the table is then dropped or closed as it
/// has to be. Returns `None` if memory runs out.
fn is_done_at<R: Wait, A: Allocator + Copy, P: Part<A> + Drop>(
    rt: &R,
    alloc: Global,
    heap: A,
    counts: &Failing<Global>,
    trial: Trial,
) -> Option<bool> {
    let (table, first, other) = opened::<A, P>(heap, trial.options())?;
    let (first, is_done) = done_in(rt, alloc, heap, counts, &table, first, trial);
    let is_let_go = is_let_go(rt, heap, counts, table, first, other, trial.home);
    match is_done {
        Some(is_done) => Some(is_done && is_let_go),
        None => None,
    }
}

/// Returns whether a session does what it has to at a table on one thread, or `None` if memory runs out.
fn is_done_alone<A: Allocator + Copy, P: Part<A> + Drop>(
    alloc: Global,
    heap: A,
    counts: &Failing<Global>,
    trial: Trial,
) -> Option<bool> {
    let mut table = local_table::<A, P>(heap, trial.options())?;
    let mut at = table.at(0);
    let is_done = is_done(alloc, heap, counts, &mut at, trial);
    drop(table);
    is_done
}

/// Returns whether a trial is right, at the table that it names, or `None` if memory runs out.
fn is_done_by<R: Wait, A: Allocator + Copy, P: Part<A> + Drop>(
    rt: &R,
    alloc: Global,
    heap: A,
    counts: &Failing<Global>,
    trial: Trial,
) -> Option<bool> {
    match trial.home {
        Home::Alone => is_done_alone::<A, P>(alloc, heap, counts, trial),
        Home::Opened => Some(is_opened::<A, P>(heap, counts, trial.options())),
        Home::OpenedOver => Some(is_opened_over::<A, P>(heap, counts, trial.options())),
        Home::Gates | Home::Closed(_) | Home::Left | Home::Walked => {
            is_done_at::<R, A, P>(rt, alloc, heap, counts, trial)
        }
    }
}

/// Returns whether a trial is right, over an allocator that may fail, or `None` if memory runs out.
fn is_done_with<R: Wait>(
    rt: &R,
    alloc: Global,
    heap: &Failing<Global>,
    trial: Trial,
) -> Option<bool> {
    match trial.sort {
        Sort::Plain => is_done_by::<R, &Failing<Global>, PlainPart<&Failing<Global>>>(
            rt, alloc, heap, heap, trial,
        ),
        Sort::Hashed => is_done_by::<R, &Failing<Global>, HashPart<&Failing<Global>>>(
            rt, alloc, heap, heap, trial,
        ),
        Sort::Ordered => is_done_by::<R, &Failing<Global>, OrderPart<&Failing<Global>>>(
            rt, alloc, heap, heap, trial,
        ),
    }
}

/// Returns whether a trial is right, or ran out of memory after an allocation failed; no block may be left allocated.
fn is_right<R: Wait>(rt: &R, alloc: Global, heap: &Failing<Global>, trial: Trial) -> bool {
    let is_right = match is_done_with(rt, alloc, heap, trial) {
        Some(is_done) => is_done,
        None => heap.was_refused(),
    };
    is_right && heap.blocks() == 0
}

/// Returns whether a trial is right with each allocation failing in turn, alone and together with all later ones.
pub(crate) fn is_swept<R: Wait>(rt: &R, alloc: Global, trial: Trial) -> bool {
    let alone = sweep(alloc, RUNS, |heap: &Failing<Global>| {
        is_right(rt, alloc, heap, trial)
    });
    let onward = sweep_onward(alloc, RUNS, |heap: &Failing<Global>| {
        is_right(rt, alloc, heap, trial)
    });
    alone.is_complete() && onward.is_complete()
}
