//! A table as a library: sessions on threads of their own insert objects, and the table is closed.
ghost use Rattle.std.specs.Prelude.{◌≡◌};
ghost use Rattle.ets.specs.Opened.{AllOpened};
ghost use Rattle.ets.specs.Sessions.{IsOpened};

use ets::table::{HashPart, Options, TableKind};
use ets::term::Term;
use ets::threads::{Part, Session, SharedTable, Turns, insert};
use std::alloc::Global;
use std::io::Write;
use std::sync::Wait;
use std::thread::{self, Threads};

/// The number of parts of the table.
const PARTS: u8 = 4;

/// Returns the options of a table with three sessions, and keys at the first position.
const fn options_of(kind: TableKind) -> Options {
    Options {
        name: 1,
        kind,
        keypos: 1,
        parts: PARTS,
        sessions: 3,
    }
}

/// Inserts the objects `{Key,Session}` of 100 keys.
fn put_keys<T: Turns<Global>>(alloc: Global, turns: &mut T) -> Option<()>
    requires { T.is_ready turns.old }
    ensures ready { T.is_ready turns.new }
    ensures same { T.home turns.new ≡ T.home turns.old }
{
    let session = i64::from(turns.number());
    for key in 0..100i64 {
        let mut elements = Vec::with_capacity(alloc, 2).ok()?;
        elements.push(Term::int(key)).ok()?;
        elements.push(Term::int(session)).ok()?;
        insert(turns, Term::tuple(alloc, elements).ok()?).ok()?;
    }
    Some(())
}

/// Has a session, which was opened with the table, insert its objects and leave. It runs on a thread of its own.
/// Returns whether all were inserted.
fn work<R: Wait, P: Part<Global> + Drop>(
    rt: &R,
    alloc: Global,
    table: &SharedTable<P>,
    session: Session<P>,
) -> bool
    requires { IsOpened table.now.options table.now.gates.items session.number session.passes.items }
{
    let mut session = session;
    let mut at = table.at(rt, &mut session);
    let done = put_keys(alloc, &mut at);
    table.leave(rt, session);
    done.is_some()
}

/// Runs all these sessions at the same time, each on a thread of its own.
fn work_all<R: Threads + Wait + Sync, P: Part<Global> + Drop + Send>(
    rt: &R,
    alloc: Global,
    table: &SharedTable<P>,
    sessions: Vec<Session<P>>,
) -> Option<Vec<bool>>
    requires { AllOpened table.now.options table.now.gates.items sessions.items }
{
    thread::map_vec(
        rt,
        sessions,
        &|session: Session<P>| -> bool
            requires { IsOpened table.now.options table.now.gates.items session.number session.passes.items }
        { work(rt, alloc, table, session) },
    )
    .ok()
}

/// Opens a table, has all but one session insert their objects, and closes it with that one. Returns how many objects
/// are left: for a set one for each key, for a bag those of all sessions.
fn objects_left<R: Threads + Wait + Sync, P: Part<Global> + Drop + Send>(
    rt: &R,
    alloc: Global,
    kind: TableKind,
) -> Option<usize> {
    let Ok((table, mut sessions)) = SharedTable::<P>::open(alloc, options_of(kind)) else {
        return None;
    };
    let Some(last) = sessions.pop() else {
        return None;
    };
    work_all(rt, alloc, &table, sessions)?;
    let mut closed = table.close(last);
    let mut count: usize = 0;
    for _part in 0..PARTS {
        let part = closed.next_part()?.ok()?;
        count = count.saturating_add(part.objects(alloc).ok()?.len());
    }
    Some(count)
}

/// Writes the line for a table of this kind.
fn write_line<R: Threads + Wait + Sync>(
    rt: &R,
    alloc: Global,
    kind: TableKind,
    lines: &mut String,
) -> Option<()> {
    let count = objects_left::<_, HashPart<Global>>(rt, alloc, kind)?;
    writeln!(lines, "{kind:?}: {count} objects").ok()
}

/// Returns all lines: one for each kind of table that keeps its objects in any order.
pub(crate) fn lines<R: Threads + Wait + Sync>(rt: &R, alloc: Global) -> Option<String> {
    let mut lines = String::new(alloc);
    for kind in [TableKind::Set, TableKind::Bag, TableKind::DuplicateBag] {
        write_line(rt, alloc, kind, &mut lines)?;
    }
    Some(lines)
}
