//! A session that sleeps until a part which another has taken out is put back, and is woken then.
ghost use Rattle.std.specs.Prelude.{◌≡◌, All, []};
ghost use Rattle.tables.specs.Options.{settings_of};
ghost use Rattle.tables.specs.Sessions.{IsOpened};

use crate::acts::{Act, NO_ROW, acted};
use crate::sleeping::{SleepWatch, SystemWatch};
use crate::watching::{Watching, flag, next_met, opened_over, part_that_watches};
use kit_members::is_raised;
use part_core::{Part, TableKind};
use part_plain::PlainPart;
use std::alloc::Global;
use std::process::Abort;
use std::sync::atomic::{AtomicBool, Ordering};
use std::sync::{Arc, Wait};
use std::thread::{Threads, join};
use tables::{Options, Session, Table};

/// A set of one part and two sessions.
pub(crate) const OPTIONS: Options = Options {
    name: 1,
    kind: TableKind::Set,
    keypos: 1,
    parts: 1,
    sessions: 2,
};

/// Returns one part, which sets a flag when it is taken out, and keeps its session until another one sleeps.
pub(crate) fn kept_part<R: Abort, P: Part<Global> + Drop>(
    rt: &R,
    alloc: Global,
    options: Options,
    is_out: &Arc<AtomicBool>,
    is_asleep: &Arc<AtomicBool>,
) -> Vec<Watching<P>>
    ensures { All (λ w. (P.settings w.part ≡ settings_of options) × P.is_after w.part []) result.items }
{
    let mut parts = Vec::new(alloc);
    let part = part_that_watches(rt, alloc, options, is_out, is_asleep);
    parts.push(part).ok().expect(rt, "room for a part");
    parts
}

/// A session requests a key when the part is taken out, and a third thread sets a flag when the session sleeps. Returns
/// the session.
fn asked_and_slept<
    R: Threads + Wait + Abort + Sync,
    P: Part<Global> + Drop + Send,
    W: SleepWatch + Sync,
>(
    rt: &R,
    alloc: Global,
    table: &Table<P>,
    session: Session<P>,
    is_out: &AtomicBool,
    is_asleep: &AtomicBool,
    watch: &W,
) -> Session<P>
    requires { IsOpened table.now.options table.now.gates.items session.number session.passes.items }
    ensures { IsOpened table.now.options table.now.gates.items result.number result.passes.items }
{
    let (session, ()) = join(
        rt,
        || -> Session<P>
            requires { IsOpened table.now.options table.now.gates.items session.number session.passes.items }
            ensures { IsOpened table.entry.now.options table.entry.now.gates.items result.number result.passes.items }
        {
            is_raised(is_out);
            watch.tell();
            acted(rt, alloc, table, session, Act::Member(1), 0)
        },
        || is_asleep.store(watch.falls_asleep(), Ordering::SeqCst),
    );
    session
}

/// A session acts, with the wanted result; while it has the part out, another session makes a request and falls asleep.
/// Returns the latter.
fn asked_while_out<
    R: Threads + Wait + Abort + Sync,
    P: Part<Global> + Drop + Send,
    W: SleepWatch + Sync,
>(
    rt: &R,
    alloc: Global,
    table: &Table<P>,
    first: Session<P>,
    second: Session<P>,
    is_out: &Arc<AtomicBool>,
    is_asleep: &Arc<AtomicBool>,
    watch: &W,
    act: Act,
    wanted: usize,
) -> Session<P>
    requires first { IsOpened table.now.options table.now.gates.items first.number first.passes.items }
    requires second { IsOpened table.now.options table.now.gates.items second.number second.passes.items }
    ensures { IsOpened table.now.options table.now.gates.items result.number result.passes.items }
{
    let ((), second) = join(
        rt,
        ||
            requires { IsOpened table.now.options table.now.gates.items first.number first.passes.items }
        {
            drop(acted(rt, alloc, table, first, act, wanted));
        },
        || -> Session<P>
            requires { IsOpened table.now.options table.now.gates.items second.number second.passes.items }
            ensures { IsOpened table.entry.now.options table.entry.now.gates.items result.number result.passes.items }
        { asked_and_slept(rt, alloc, table, second, is_out, is_asleep, watch) },
    );
    second
}

/// Returns whether a session got a part for which it slept, and the other session, which acted with the wanted result, saw that
/// it slept.
fn is_woken<R: Threads + Wait + Abort + Sync, P: Part<Global> + Drop + Send, W: SleepWatch + Sync>(
    rt: &R,
    alloc: Global,
    watch: &W,
    act: Act,
    wanted: usize,
) -> Option<bool> {
    let is_out = flag(rt, alloc);
    let is_asleep = flag(rt, alloc);
    let parts = kept_part::<R, P>(rt, alloc, OPTIONS, &is_out, &is_asleep);
    let (table, first, second) = opened_over(rt, alloc, OPTIONS, parts);
    let second = asked_while_out(
        rt, alloc, &table, first, second, &is_out, &is_asleep, watch, act, wanted,
    );
    let mut closed = table.close(second);
    let has_met = next_met(rt, &mut closed);
    drop(closed);
    drop(is_asleep);
    drop(is_out);
    has_met
}

#[test]
fn a_session_that_waits_is_woken(rt: HostRuntime) {
    let watch = SystemWatch::new(&rt);
    let alloc = rt.alloc();
    let by_a_reply = is_woken::<_, PlainPart<Global>, _>(&rt, alloc, &watch, Act::Member(1), 0);
    assert!(rt; by_a_reply == Some(true));
    // The operation of the session that has the part fails, since the key has no row.
    let by_an_error = is_woken::<_, PlainPart<Global>, _>(&rt, alloc, &watch, Act::Next(1), NO_ROW);
    assert!(rt; by_an_error == Some(true));
}
