//! Sessions that wait for no part: a turn is put off while another session has the part, or if no turn is left, and it is
//! made if the part is at home, also after turns that were put off.
ghost use Rattle.std.specs.Prelude.{◌≡◌, All, []};
ghost use Rattle.tables.specs.Options.{settings_of};
ghost use Rattle.tables.specs.Sessions.{IsOpened};

use crate::waiting::{OPTIONS, kept_part};
use crate::watching::{flag, opened_over};
use kit_members::is_raised;
use part_core::Part;
use part_plain::PlainPart;
use std::alloc::Global;
use std::process::Abort;
use std::sync::atomic::{AtomicBool, Ordering};
use std::sync::{Arc, Wait};
use std::thread::{Threads, join};
use tables::{Halt, Session, Table, try_member};
use term_core::Term;

/// Asks whether a key has objects, with this many looks for its part and at most `turns` turns. Returns the session,
/// and why the turn was put off, `Halt::Nothing` if it was made.
fn tried<P: Part<Global> + Drop>(
    table: &Table<P>,
    session: Session<P>,
    looks: u64,
    turns: u64,
) -> (Session<P>, Option<Halt>)
    requires { IsOpened table.now.options table.now.gates.items session.number session.passes.items }
    ensures { IsOpened table.now.options table.now.gates.items result.0.number result.0.passes.items }
{
    let mut session = session;
    let key = Term::int(1);
    let mut at = table.brief_at(&mut session, looks, turns);
    let found = try_member(&mut at, &key);
    let halt = at.halt;
    drop(key);
    let is_made = found == Ok(false);
    if is_made == (halt == Halt::Nothing) {
        (session, Some(halt))
    } else {
        (session, None)
    }
}

/// Asks for a key while another session has its part, with several numbers of looks. Returns the session, and whether
/// each turn was put off for the right reason.
fn put_off_while_out<P: Part<Global> + Drop>(
    table: &Table<P>,
    session: Session<P>,
    is_out: &AtomicBool,
    is_done: &AtomicBool,
) -> (Session<P>, bool)
    requires { IsOpened table.now.options table.now.gates.items session.number session.passes.items }
    ensures { IsOpened table.now.options table.now.gates.items result.0.number result.0.passes.items }
{
    let is_taken = is_raised(is_out);
    let (session, none) = tried(table, session, 0, 1);
    let (session, one) = tried(table, session, 1, 1);
    let (session, many) = tried(table, session, 1_000, 1);
    let (session, bound) = tried(table, session, 1_000, 0);
    is_done.store(true, Ordering::SeqCst);
    let are_busy = none == Some(Halt::Busy) && one == Some(Halt::Busy) && many == Some(Halt::Busy);
    (session, is_taken && are_busy && bound == Some(Halt::Bound))
}

/// Has the first session take the part while the second asks for it, on a thread each. Returns both sessions, and what
/// their turns came to.
fn both_tried<R: Threads + Wait + Abort + Sync, P: Part<Global> + Drop + Send>(
    rt: &R,
    table: &Table<P>,
    first: Session<P>,
    second: Session<P>,
    is_out: &Arc<AtomicBool>,
    is_done: &Arc<AtomicBool>,
) -> ((Session<P>, Option<Halt>), (Session<P>, bool))
    requires first { IsOpened table.now.options table.now.gates.items first.number first.passes.items }
    requires second { IsOpened table.now.options table.now.gates.items second.number second.passes.items }
    ensures first { IsOpened table.now.options table.now.gates.items result.0.0.number result.0.0.passes.items }
    ensures second { IsOpened table.now.options table.now.gates.items result.1.0.number result.1.0.passes.items }
{
    join(
        rt,
        || -> (Session<P>, Option<Halt>)
            requires { IsOpened table.now.options table.now.gates.items first.number first.passes.items }
            ensures { IsOpened table.entry.now.options table.entry.now.gates.items result.0.number result.0.passes.items }
        { tried(table, first, 1, 1) },
        || -> (Session<P>, bool)
            requires { IsOpened table.now.options table.now.gates.items second.number second.passes.items }
            ensures { IsOpened table.entry.now.options table.entry.now.gates.items result.0.number result.0.passes.items }
        { put_off_while_out(table, second, is_out, is_done) },
    )
}

/// Returns whether a session's turns are put off while another session has the part, and both sessions' turns are made
/// with one look before and afterwards.
fn is_put_off<R: Threads + Wait + Abort + Sync, P: Part<Global> + Drop + Send>(
    rt: &R,
    alloc: Global,
) -> bool {
    let is_out = flag(rt, alloc);
    let is_done = flag(rt, alloc);
    let parts = kept_part::<R, P>(rt, alloc, OPTIONS, &is_out, &is_done);
    let (table, first, second) = opened_over(rt, alloc, OPTIONS, parts);
    let ((first, made), (second, are_put_off)) = both_tried(
        rt, &table, first, second, &is_out, &is_done,
    );
    let (first, made_again) = tried(&table, first, 1, 1);
    let (second, made_there) = tried(&table, second, 0, 1);
    drop(second);
    drop(first);
    drop(table);
    let made = [made, made_again, made_there];
    drop(is_done);
    drop(is_out);
    are_put_off
        && made
            == [
                Some(Halt::Nothing),
                Some(Halt::Nothing),
                Some(Halt::Nothing),
            ]
}

#[test]
fn a_turn_is_put_off_while_the_part_is_out(rt: HostRuntime) {
    assert!(rt; is_put_off::<_, PlainPart<Global>>(&rt, rt.alloc()));
}
