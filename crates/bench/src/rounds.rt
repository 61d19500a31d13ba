//! A table of many sessions, each on a thread of its own, and a table that one thread uses.
ghost use Rattle.tables.specs.Opened.{AllOpened};
ghost use Rattle.tables.specs.Sessions.{IsOpened};

use crate::phases::{Times, timed};
use crate::times::opened;
use part_core::Part;
use std::alloc::Global;
use std::sync::Wait;
use std::thread::{self, Threads};
use std::time::Clock;
use tables::{Options, Session, Table};
use term_core::Term;

/// Returns the objects of a session: the share with this number, of as many shares as there are sessions.
fn share(objects: &[Term], number: u8, sessions: u8) -> &[Term] {
    let size = objects.len().div_ceil(usize::from(sessions.max(1)));
    match objects.chunks(size.max(1)).nth(usize::from(number)) {
        Some(share) => share,
        None => &[],
    }
}

/// Returns the times of a session for its share.
fn session_timed<R: Wait + Clock, P: Part<Global> + Drop>(
    rt: &R,
    table: &Table<P>,
    session: Session<P>,
    objects: &[Term],
) -> Option<Times>
    requires { IsOpened table.now.options table.now.gates.items session.number session.passes.items }
{
    let mut session = session;
    let share = share(objects, session.number, table.options.sessions);
    let mut at = table.at(rt, &mut session);
    timed(rt, &mut at, share)
}

/// Returns the times of each session.
fn sessions_timed<R: Threads + Wait + Clock + Sync, P: Part<Global> + Drop + Send>(
    rt: &R,
    table: &Table<P>,
    sessions: Vec<Session<P>>,
    objects: &[Term],
) -> Option<Vec<Option<Times>>>
    requires { AllOpened table.now.options table.now.gates.items sessions.items }
{
    thread::map_vec(
        rt,
        sessions,
        &|session: Session<P>| -> Option<Times>
            requires { IsOpened table.now.options table.now.gates.items session.number session.passes.items }
        { session_timed(rt, table, session, objects) },
    )
    .ok()
}

/// Returns the longest insert time and the longest lookup time of a session, and how many objects all sessions found.
fn slowest(all: &[Option<Times>]) -> Option<Times> {
    let mut slowest = Times {
        insert: 0,
        lookup: 0,
        found: 0,
    };
    for times in all {
        let times = (*times)?;
        slowest.insert = times.insert.max(slowest.insert);
        slowest.lookup = times.lookup.max(slowest.lookup);
        slowest.found = slowest.found.saturating_add(times.found);
    }
    Some(slowest)
}

/// Returns the longest times of the sessions on threads, and how many objects they found.
pub(crate) fn round<R: Threads + Wait + Clock + Sync, P: Part<Global> + Drop + Send>(
    rt: &R,
    alloc: Global,
    options: Options,
    objects: &[Term],
) -> Option<Times> {
    let Ok((table, sessions)) = Table::<P>::open(alloc, options) else {
        return None;
    };
    slowest(sessions_timed(rt, &table, sessions, objects)?.as_slice())
}

/// Returns the times of the session of a table on one thread.
pub(crate) fn round_alone<R: Clock, P: Part<Global> + Drop>(
    rt: &R,
    alloc: Global,
    options: Options,
    objects: &[Term],
) -> Option<Times> {
    let mut table = opened::<P>(alloc, options)?;
    timed(rt, &mut table.at(0), objects)
}
