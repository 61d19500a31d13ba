//! The results of calls by members of a selection: sessions of a table on threads of their own, and of tables on one
//! thread.
ghost use Rattle.std.specs.Prelude.{◌≡◌, ◌<◌, All, IfSome, map};
ghost use Rattle.tables.specs.Opened.{AllOpened};
ghost use Rattle.tables.specs.Sessions.{IsOpened};
ghost use Rattle.parallel_select.specs.Workers.{AreOfOneTable};

use crate::seats::Seat;
use kit_members::opened;
use kit_rows::{digits, listed, numbered};
use parallel_select::{count_parts, delete_parts, select_parts};
use part_core::{Part, TableKind};
use std::alloc::{Allocator, Global};
use std::process::Abort;
use std::sync::Wait;
use std::sync::atomic::AtomicBool;
use std::thread::Threads;
use tables::{At, LocalAt, LocalTable, Options, Session, Table, Turns};
use term_core::Term;
use term_text::read_terms;
use walks::Query;

/// What members do together.
#[derive(Clone, Copy)]
pub(crate) enum Call {
    /// They select answers.
    Select,
    /// They count the objects for which the answer is true.
    Count,
    /// They delete the objects for which the answer is true.
    Delete,
}

/// Returns the options of a set.
pub(crate) fn options(parts: u8, sessions: u8) -> Options
    ensures { result.sessions ≡ sessions }
{
    Options {
        name: 1,
        kind: TableKind::Set,
        keypos: 1,
        parts,
        sessions,
    }
}

/// Returns whether a result is this text.
pub(crate) fn is_text(came: Option<Vec<u8>>, wanted: &str) -> bool {
    match came {
        Some(text) => {
            let is_wanted = text.as_slice() == wanted.as_bytes();
            drop(text);
            is_wanted
        }
        None => false,
    }
}

/// Returns the result of a call: the answers, the number, or the error code.
fn called<R: Threads + Wait + Sync, T: Turns<Global> + Send>(
    rt: &R,
    alloc: Global,
    members: &mut [T],
    query: &Query,
    call: Call,
) -> Option<Vec<u8>>
    requires ready { All T.is_ready members.old }
    requires table { AreOfOneTable (map T.home members.old) }
{
    match call {
        Call::Select => match select_parts(rt, alloc, members, query) {
            Ok(answers) => {
                let text = listed(alloc, answers.as_slice());
                drop(answers);
                text
            }
            Err(fault) => numbered(alloc, "refused", usize::from(fault.number())),
        },
        Call::Count => match count_parts(rt, members, query) {
            Ok(count) => digits(alloc, count),
            Err(fault) => numbered(alloc, "refused", usize::from(fault.number())),
        },
        Call::Delete => match delete_parts(rt, members, query) {
            Ok(count) => digits(alloc, count),
            Err(refused) => numbered(alloc, "refused", usize::from(refused.fault.number())),
        },
    }
}

/// Returns whether a member waited in vain.
fn was_alone<T>(members: &[Seat<'_, T>]) -> bool {
    for member in members {
        if member.is_alone {
            return true;
        }
    }
    false
}

/// Appends a seat for a session of a table.
fn seat_one<'t, 'f, R: Wait + Abort, P: Part<Global> + Drop>(
    rt: &'t R,
    table: &'t Table<P>,
    session: &'t mut Session<P>,
    flag: &'f AtomicBool,
    waits: bool,
    seats: &mut Vec<Seat<'f, At<'t, P, Global, R>>>,
)
    requires opened { IsOpened table.now.options table.now.gates.items session.old.number session.old.passes.items }
    requires seated { All (λ s. (s.turns.table.now ≡ table.now) × IsOpened s.turns.table.now.options s.turns.table.now.gates.items s.turns.session.now.number s.turns.session.now.passes.items) seats.old.items }
    ensures { All (λ s. (s.turns.table.now ≡ table.now) × IsOpened s.turns.table.now.options s.turns.table.now.gates.items s.turns.session.now.number s.turns.session.now.passes.items) seats.new.items }
{
    let seat = Seat {
        turns: table.at(rt, session),
        flag,
        waits,
        is_alone: false,
    };
    seats.push(seat).ok().expect(rt, "room for a seat");
}

/// Appends seats for sessions of a table; the session with the index `waiter` waits.
fn seat_all<'t, 'f, R: Wait + Abort, P: Part<Global> + Drop>(
    rt: &'t R,
    table: &'t Table<P>,
    sessions: &'t mut [Session<P>],
    flag: &'f AtomicBool,
    waiter: Option<usize>,
    seats: &mut Vec<Seat<'f, At<'t, P, Global, R>>>,
)
    requires opened { All (λ s. IsOpened table.now.options table.now.gates.items s.number s.passes.items) sessions.old }
    requires seated { All (λ s. (s.turns.table.now ≡ table.now) × IsOpened s.turns.table.now.options s.turns.table.now.gates.items s.turns.session.now.number s.turns.session.now.passes.items) seats.old.items }
    ensures { All (λ s. (s.turns.table.now ≡ table.now) × IsOpened s.turns.table.now.options s.turns.table.now.gates.items s.turns.session.now.number s.turns.session.now.passes.items) seats.new.items }
{
    match sessions.split_first_mut() {
        Some((first, rest)) => {
            let waits = waiter == Some(seats.len());
            seat_one(rt, table, first, flag, waits, seats);
            seat_all(rt, table, rest, flag, waiter, seats);
        }
        None => {}
    }
}

/// Returns the result of a call by sessions of a table, none of which may wait in vain.
fn called_at<R: Threads + Wait + Abort + Sync, P: Part<Global> + Drop + Send>(
    rt: &R,
    alloc: Global,
    table: &Table<P>,
    sessions: &mut [Session<P>],
    waiter: Option<usize>,
    query: &Query,
    call: Call,
) -> Option<Vec<u8>>
    requires { All (λ s. IsOpened table.now.options table.now.gates.items s.number s.passes.items) sessions.old }
{
    let flag = AtomicBool::new(false);
    let mut seats = Vec::new(alloc);
    seat_all(rt, table, sessions, &flag, waiter, &mut seats);
    let came = called(rt, alloc, seats.as_mut_slice(), query, call);
    let was_alone = was_alone(seats.as_slice());
    drop(seats);
    assert!(rt; !was_alone);
    came
}

/// Returns the sessions of a table with one more appended.
fn put_back<A: Allocator, P: Part<A> + Drop>(
    _table: &Table<P, A>,
    mut sessions: Vec<Session<P, A>, A>,
    last: Session<P, A>,
) -> Option<Vec<Session<P, A>, A>>
    requires { All (λ s. IsOpened _table.now.options _table.now.gates.items s.number s.passes.items) sessions.items
        × IsOpened _table.now.options _table.now.gates.items last.number last.passes.items }
    ensures { IfSome result (λ all. All (λ s. IsOpened _table.now.options _table.now.gates.items s.number s.passes.items) all.items) }
{
    match sessions.push(last).ok() {
        Some(()) => Some(sessions),
        None => {
            drop(sessions);
            None
        }
    }
}

/// Opens a table and inserts objects. Returns it with all its sessions, or `None` if memory runs out.
pub(crate) fn set_with_objects<R: Wait, A: Allocator + Copy, P: Part<A> + Drop>(
    rt: &R,
    heap: A,
    options: Options,
    objects: &[Term<A>],
) -> Option<(Table<P, A>, Vec<Session<P, A>, A>)>
    ensures { IfSome result (λ made. All (λ s. IsOpened made.0.options made.0.gates.items s.number s.passes.items) made.1.items) }
{
    let (table, sessions, last) = opened::<R, A, P>(rt, heap, options, objects)?;
    match put_back(&table, sessions, last) {
        Some(all) => Some((table, all)),
        None => {
            drop(table);
            None
        }
    }
}

/// Returns the result of a call by this number of members at a table with objects. The member with the index `waiter`
/// waits for another one.
pub(crate) fn asked<P: Part<Global> + Drop + Send, R: Threads + Wait + Abort + Sync>(
    rt: &R,
    alloc: Global,
    members: u8,
    waiter: Option<usize>,
    objects: &str,
    query: &Query,
    call: Call,
) -> Option<Vec<u8>> {
    let terms = read_terms(alloc, objects.as_bytes()).expect(rt, "the objects");
    let options = options(2, members);
    let objects = terms.as_slice();
    let Some((table, mut sessions)) = set_with_objects::<R, Global, P>(rt, alloc, options, objects)
    else {
        rt.panic("no table")
    };
    drop(terms);
    let all = sessions.as_mut_slice();
    let came = called_at(rt, alloc, &table, all, waiter, query, call);
    drop(sessions);
    drop(table);
    came
}

/// Returns the results of a deletion by two members, and of a count by a third one afterwards.
pub(crate) fn deleted_and_counted<P: Part<Global> + Drop + Send, R: Threads + Wait + Abort + Sync>(
    rt: &R,
    alloc: Global,
    objects: &str,
    query: &Query,
) -> (Option<Vec<u8>>, Option<Vec<u8>>) {
    let terms = read_terms(alloc, objects.as_bytes()).expect(rt, "the objects");
    let options = options(2, 3);
    let objects = terms.as_slice();
    let Some((table, mut sessions, mut third)) = opened::<R, Global, P>(rt, alloc, options, objects)
    else {
        rt.panic("no table")
    };
    drop(terms);
    let two = sessions.as_mut_slice();
    let deleted = called_at(rt, alloc, &table, two, None, query, Call::Delete);
    let one = std::slice::from_mut(&mut third);
    let counted = called_at(rt, alloc, &table, one, None, query, Call::Count);
    drop(third);
    drop(sessions);
    drop(table);
    (deleted, counted)
}

/// Returns `count` tables on one thread.
fn local_tables<R: Abort, P: Part<Global> + Drop>(
    rt: &R,
    alloc: Global,
    options: Options,
    count: usize,
) -> Vec<LocalTable<P>>
    ensures { All (λ t. t.options ≡ options) result.items }
{
    let mut tables = Vec::new(alloc);
    for place in 0..count {
        let Ok(table) = LocalTable::open(alloc, options) else {
            rt.panic("no table")
        };
        tables.push(table).ok().expect(rt, "room for a table");
    }
    tables
}

/// Appends the session of a table.
fn put_local<'t, R: Abort, P: Part<Global> + Drop>(
    rt: &R,
    options: Options,
    table: &'t mut LocalTable<P>,
    members: &mut Vec<LocalAt<'t, P>>,
)
    requires sessions { 0 < options.sessions }
    requires opened { table.old.options ≡ options }
    requires before { All (λ m. (m.table.now.options ≡ options) × (m.number < m.table.now.options.sessions)) members.old.items }
    ensures { All (λ m. (m.table.now.options ≡ options) × (m.number < m.table.now.options.sessions)) members.new.items }
{
    members
        .push(table.at(0))
        .ok()
        .expect(rt, "room for a member");
}

/// Appends a session of each of these tables.
fn put_locals<'t, R: Abort, P: Part<Global> + Drop>(
    rt: &R,
    options: Options,
    tables: &'t mut [LocalTable<P>],
    members: &mut Vec<LocalAt<'t, P>>,
)
    requires sessions { 0 < options.sessions }
    requires opened { All (λ t. t.options ≡ options) tables.old }
    requires before { All (λ m. (m.table.now.options ≡ options) × (m.number < m.table.now.options.sessions)) members.old.items }
    ensures { All (λ m. (m.table.now.options ≡ options) × (m.number < m.table.now.options.sessions)) members.new.items }
{
    match tables.split_first_mut() {
        Some((first, rest)) => {
            put_local(rt, options, first, members);
            put_locals(rt, options, rest, members);
        }
        None => {}
    }
}

/// Returns the result of a call by this number of members, each of a table of its own on one thread.
pub(crate) fn asked_alone<P: Part<Global> + Drop + Send, R: Threads + Wait + Abort + Sync>(
    rt: &R,
    alloc: Global,
    members: usize,
    query: &Query,
    call: Call,
) -> Option<Vec<u8>> {
    let options = options(2, 1);
    let mut tables = local_tables::<R, P>(rt, alloc, options, members);
    let mut seats = Vec::new(alloc);
    put_locals(rt, options, tables.as_mut_slice(), &mut seats);
    let came = called(rt, alloc, seats.as_mut_slice(), query, call);
    drop(seats);
    drop(tables);
    came
}
