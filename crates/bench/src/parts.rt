//! The time of a selection over a table by members, each on a thread of its own, and by one session.
ghost use Rattle.std.specs.Prelude.{◌≡◌, ◌<◌, All, IfSome};
ghost use Rattle.tables.specs.Opened.{AllOpened};
ghost use Rattle.tables.specs.Sessions.{IsOpened};
ghost use Rattle.kit_members.specs.Members.{AreMembers};

use crate::lists::{SOME, objects};
use crate::reading::{query, specification};
use crate::timing::{ROUNDS, median, since};
use kit_members::{members_of, opened, selected};
use part_core::{Part, TableKind};
use part_hash::HashPart;
use std::alloc::Global;
use std::sync::Wait;
use std::thread::Threads;
use std::time::Instant;
use tables::{Options, Session, Table, Turns};
use walks::Query;

/// The options of a set of four parts, with four members and one more session.
const OPTIONS: Options = Options {
    name: 0,
    kind: TableKind::Set,
    keypos: 1,
    parts: 4,
    sessions: 5,
};

/// Makes a selection by members, if there are any, else by the session. Returns the number of answers and the
/// nanoseconds.
fn once<H: Threads + Wait + Sync, T: Turns<Global>, M: Turns<Global> + Send>(
    rt: &HostRuntime,
    handle: &H,
    turns: &mut T,
    members: &mut [M],
    query: &Query,
) -> Option<(usize, u64)>
    requires ready { T.is_ready turns.old }
    requires members { AreMembers M.is_ready M.home members.old }
    ensures ready { T.is_ready turns.new }
    ensures same { T.home turns.new ≡ T.home turns.old }
    ensures members { AreMembers M.is_ready M.home members.new }
{
    let began = Instant::now(rt).ok()?;
    let answers = selected(handle, rt.alloc(), turns, members, query)?;
    let took = since(rt, began)?;
    Some((answers.len(), took))
}

/// Returns the number of answers of a selection, and the median of the nanoseconds.
fn timed<H: Threads + Wait + Sync, T: Turns<Global>, M: Turns<Global> + Send>(
    rt: &HostRuntime,
    handle: &H,
    turns: &mut T,
    members: &mut [M],
    query: &Query,
) -> Option<(usize, u64)>
    requires ready { T.is_ready turns.old }
    requires members { AreMembers M.is_ready M.home members.old }
    ensures ready { T.is_ready turns.new }
    ensures same { T.home turns.new ≡ T.home turns.old }
{
    let mut rounds = [0; ROUNDS];
    let mut count = 0;
    for round in 0..ROUNDS {
        let (found, took) = once(rt, handle, turns, members, query)?;
        count = found;
        rounds[round] = took;
    }
    Some((count, median(rounds)))
}

/// Returns the number of answers of a selection at a table, and the median of the nanoseconds. These sessions are the
/// members; if there are none, `session` makes it alone.
fn timed_at<H: Threads + Wait + Sync, P: Part<Global> + Drop + Send>(
    rt: &HostRuntime,
    handle: &H,
    table: &Table<P>,
    session: &mut Session<P>,
    members: &mut [Session<P>],
    query: &Query,
) -> Option<(usize, u64)>
    requires session { IsOpened table.now.options table.now.gates.items session.old.number session.old.passes.items }
    requires members { All (λ s. IsOpened table.now.options table.now.gates.items s.number s.passes.items) members.old }
    ensures { IsOpened table.now.options table.now.gates.items session.new.number session.new.passes.items }
{
    let mut members = members_of(handle, rt.alloc(), table, members)?;
    let mut at = table.at(handle, session);
    timed(rt, handle, &mut at, members.as_mut_slice(), query)
}

/// Returns the number of answers and the nanoseconds of a selection over `count` objects, by one session and then by
/// members.
fn both<H: Threads + Wait + Sync, P: Part<Global> + Drop + Send>(
    rt: &HostRuntime,
    handle: &H,
    count: u32,
) -> Option<((usize, u64), (usize, u64))> {
    let query = query(rt.alloc(), &specification(rt.alloc(), SOME)?)?;
    let objects = objects(rt.alloc(), count)?;
    let (table, mut members, mut session) = opened::<H, Global, P>(
        handle,
        rt.alloc(),
        OPTIONS,
        objects.as_slice(),
    )?;
    let mut nobody = Vec::new(rt.alloc());
    let alone = timed_at(
        rt,
        handle,
        &table,
        &mut session,
        nobody.as_mut_slice(),
        &query,
    )?;
    let together = timed_at(
        rt,
        handle,
        &table,
        &mut session,
        members.as_mut_slice(),
        &query,
    )?;
    Some((alone, together))
}

/// Writes the line with the nanoseconds of a selection.
pub(crate) fn write_times<H: Threads + Wait + Sync>(
    rt: &HostRuntime,
    handle: &H,
    count: u32,
    lines: &mut String,
) -> Option<()> {
    let (alone, together) = both::<H, HashPart<Global>>(rt, handle, count)?;
    writeln!(
        lines,
        "four members {} ns, one session {} ns",
        together.1, alone.1
    )
    .ok()
}

/// Writes the line with the number of objects that have an answer.
pub(crate) fn write_found<H: Threads + Wait + Sync>(
    rt: &HostRuntime,
    handle: &H,
    count: u32,
    lines: &mut String,
) -> Option<()> {
    let (alone, together) = both::<H, HashPart<Global>>(rt, handle, count)?;
    writeln!(
        lines,
        "{} of {count} answered by four members, {} of {count} by one session",
        together.0, alone.0
    )
    .ok()
}
