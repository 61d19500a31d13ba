//! A table of many sessions, each on a thread of its own.
ghost use Rattle.std.specs.Prelude.{◌≡◌, ◌<◌, All, IfSome};
ghost use Rattle.kit_members.specs.Members.{AreMembers};
ghost use Rattle.tables.specs.Opened.{AllOpened};
ghost use Rattle.tables.specs.Sessions.{IsOpened};

use crate::judge::judge;
use crate::keys::{KEYS, Object, key_term};
use crate::worker::Worker;
use crate::wrong::{Failure, Wrong, check};
use gate::Closed;
use kit_members::members_of;
use kit_rows::was_ok;
use part_core::Part;
use part_hash::HashPart;
use std::alloc::Global;
use std::sync::Wait;
use std::thread::{self, Threads, join};
use tables::{At, Options, Session, Table, Turns, part_of_key};
use term_core::Term;

/// A run: the options of the table, the number of its members, the seed, and the number of calls of each session.
/// Members are sessions with which another session makes its selections; they make no calls of their own.
#[derive(Clone, Copy)]
pub(crate) struct Run {
    pub(crate) options: Options,
    pub(crate) members: u8,
    pub(crate) seed: u64,
    pub(crate) calls: u32,
}

/// Has a session make its calls, with selections by members if there are any. Returns its record.
fn played<R: Threads + Wait + Sync, P: Part<Global> + Drop, M: Turns<Global> + Send>(
    rt: &R,
    alloc: Global,
    table: &Table<P>,
    session: &mut Session<P>,
    members: &mut [M],
    run: Run,
) -> Worker
    requires opened { IsOpened table.now.options table.now.gates.items session.old.number session.old.passes.items }
    requires members { AreMembers M.is_ready M.home members.old }
    ensures { IsOpened table.now.options table.now.gates.items session.new.number session.new.passes.items }
{
    let holds_many = !run.options.kind.is_set();
    let mut worker = Worker::new(alloc, run.seed, session.number, holds_many);
    let mut at = table.at(rt, session);
    let played = worker.run(rt, alloc, &mut at, members, run.calls);
    worker.is_whole = played.is_some();
    worker
}

/// Has a session without members, for any type of parts of members, make its calls. Returns its record.
fn played_alone<R: Threads + Wait + Sync, P: Part<Global> + Drop, Q: Part<Global> + Drop + Send>(
    rt: &R,
    alloc: Global,
    table: &Table<P>,
    session: &mut Session<P>,
    run: Run,
) -> Worker
    requires { IsOpened table.now.options table.now.gates.items session.old.number session.old.passes.items }
    ensures { IsOpened table.now.options table.now.gates.items session.new.number session.new.passes.items }
{
    let mut nobody: Vec<At<'_, Q, Global, R>> = Vec::new(alloc);
    let worker = played(rt, alloc, table, session, nobody.as_mut_slice(), run);
    drop(nobody);
    worker
}

/// Has a session without members make its calls and leave the table. Returns its record.
fn played_and_left<R: Threads + Wait + Sync, P: Part<Global> + Drop>(
    rt: &R,
    alloc: Global,
    table: &Table<P>,
    session: Session<P>,
    run: Run,
) -> Worker
    requires { IsOpened table.now.options table.now.gates.items session.number session.passes.items }
{
    let mut session = session;
    let worker = played_alone::<R, P, HashPart<Global>>(rt, alloc, table, &mut session, run);
    table.leave(rt, session);
    worker
}

/// Returns whether a part, of this number of parts, is that of a key.
fn is_part_of(key: u32, part: u8, parts: u8) -> bool
    requires { 0 < parts }
{
    let key = key_term(key);
    let is_part = part_of_key(&key, parts) == part;
    drop(key);
    is_part
}

/// Appends an object that is left in a part, which must be its key's part.
fn put_left(object: Object, part: u8, parts: u8, left: &mut Vec<Object>) -> Result<(), Wrong> {
    if parts == 0 {
        return Err(Wrong::Misplaced(object.key));
    }
    if !is_part_of(object.key, part, parts) {
        return Err(Wrong::Misplaced(object.key));
    }
    if KEYS <= object.key {
        return Err(Wrong::NoKey(object.key));
    }
    check(left.push(object).is_ok(), Wrong::NoMemory)
}

/// Appends the objects that are left in a part, which is one of `parts`.
pub(crate) fn put_all_left(
    objects: &[Term],
    part: u8,
    parts: u8,
    left: &mut Vec<Object>,
) -> Result<(), Failure> {
    for term in objects {
        let Some(object) = Object::of_term(term) else {
            return Err(Failure::Refused);
        };
        put_left(object, part, parts, left)?;
    }
    Ok(())
}

/// Takes the last part out of a closed table that is still there, and appends the objects that are left in it.
fn put_next_left<P: Part<Global> + Drop>(
    alloc: Global,
    closed: &mut Closed<P>,
    part: u8,
    parts: u8,
    left: &mut Vec<Object>,
) -> Result<(), Failure> {
    match closed.next_part() {
        Some(Ok(there)) => {
            let objects = there.objects(alloc);
            drop(there);
            let put = match &objects {
                Ok(objects) => put_all_left(objects.as_slice(), part, parts, left),
                Err(_) => Err(Failure::Refused),
            };
            drop(objects);
            put
        }
        Some(Err(_lost)) => Err(Failure::Lost),
        None => Err(Failure::Lost),
    }
}

/// Appends the objects that are left in a closed table.
fn put_left_in<P: Part<Global> + Drop>(
    alloc: Global,
    closed: &mut Closed<P>,
    parts: u8,
    left: &mut Vec<Object>,
) -> Result<(), Failure> {
    for part in (0..parts).rev() {
        put_next_left(alloc, closed, part, parts, left)?;
    }
    Ok(())
}

/// Judges what sessions recorded, and what is left in their closed table.
fn judged_left<P: Part<Global> + Drop>(
    alloc: Global,
    closed: &mut Closed<P>,
    workers: &[Worker],
    run: Run,
) -> Result<(), Failure> {
    let mut left = Vec::new(alloc);
    let judged = match put_left_in(alloc, closed, run.options.parts, &mut left) {
        Ok(()) => judge(alloc, run.options.kind, workers, left.as_slice()),
        Err(failure) => Err(failure),
    };
    drop(left);
    judged
}

/// Returns the records of all sessions, in the order of their numbers, or `None` if there are none or memory runs out.
fn all_workers(others: Option<Vec<Worker>>, last: Worker) -> Option<Vec<Worker>> {
    match others {
        Some(others) => {
            let mut workers = others;
            if was_ok(workers.push(last)) {
                Some(workers)
            } else {
                drop(workers);
                None
            }
        }
        None => {
            drop(last);
            None
        }
    }
}

/// Judges a closed table, and what its sessions recorded.
fn judged_closed<P: Part<Global> + Drop>(
    alloc: Global,
    closed: Closed<P>,
    others: Option<Vec<Worker>>,
    last: Worker,
    run: Run,
) -> Result<(), Failure> {
    let mut closed = closed;
    let workers = all_workers(others, last);
    let judged = match &workers {
        Some(workers) => judged_left(alloc, &mut closed, workers.as_slice(), run),
        None => Err(Failure::Refused),
    };
    drop(closed);
    drop(workers);
    judged
}

/// Has all but the last session make their calls and leave, each on a thread of its own. Returns their records.
fn others_played<R: Threads + Wait + Sync, P: Part<Global> + Drop + Send>(
    rt: &R,
    alloc: Global,
    table: &Table<P>,
    sessions: Vec<Session<P>>,
    run: Run,
) -> Option<Vec<Worker>>
    requires { AllOpened table.now.options table.now.gates.items sessions.items }
{
    thread::map_vec(
        rt,
        sessions,
        &|session: Session<P>| -> Worker
            requires { IsOpened table.now.options table.now.gates.items session.number session.passes.items }
        { played_and_left(rt, alloc, table, session, run) },
    )
    .ok()
}

/// Has a session make its calls, using its members for selections. Returns its record, or `None` if it does not
/// complete its calls.
fn played_by<R: Threads + Wait + Sync, P: Part<Global> + Drop + Send>(
    rt: &R,
    alloc: Global,
    table: &Table<P>,
    session: &mut Session<P>,
    members: &mut [Session<P>],
    run: Run,
) -> Option<Worker>
    requires session { IsOpened table.now.options table.now.gates.items session.old.number session.old.passes.items }
    requires members { All (λ s. IsOpened table.now.options table.now.gates.items s.number s.passes.items) members.old }
    ensures { IsOpened table.now.options table.now.gates.items session.new.number session.new.passes.items }
{
    let mut seats = members_of(rt, alloc, table, members)?;
    let worker = played(rt, alloc, table, session, seats.as_mut_slice(), run);
    drop(seats);
    if worker.is_whole {
        Some(worker)
    } else {
        drop(worker);
        None
    }
}

/// Has the last session make its calls, using its members for selections. Returns the session and its record.
fn last_played<R: Threads + Wait + Sync, P: Part<Global> + Drop + Send>(
    rt: &R,
    alloc: Global,
    table: &Table<P>,
    session: Session<P>,
    members: Vec<Session<P>>,
    run: Run,
) -> Option<(Session<P>, Worker)>
    requires session { IsOpened table.now.options table.now.gates.items session.number session.passes.items }
    requires members { All (λ s. IsOpened table.now.options table.now.gates.items s.number s.passes.items) members.items }
    ensures { IfSome result (λ r. IsOpened table.now.options table.now.gates.items r.0.number r.0.passes.items) }
{
    let mut session = session;
    let mut members = members;
    let worker = played_by(rt, alloc, table, &mut session, members.as_mut_slice(), run);
    drop(members);
    match worker {
        Some(worker) => Some((session, worker)),
        None => {
            drop(session);
            None
        }
    }
}

/// Has all but the last session make their calls and leave, while the last one makes its own, with these members.
/// Returns all records and the last session.
fn all_played<R: Threads + Wait + Sync, P: Part<Global> + Drop + Send>(
    rt: &R,
    alloc: Global,
    table: &Table<P>,
    sessions: Vec<Session<P>>,
    last: Session<P>,
    members: Vec<Session<P>>,
    run: Run,
) -> (Option<Vec<Worker>>, Option<(Session<P>, Worker)>)
    requires others { AllOpened table.now.options table.now.gates.items sessions.items }
    requires last { IsOpened table.now.options table.now.gates.items last.number last.passes.items }
    requires members { All (λ s. IsOpened table.now.options table.now.gates.items s.number s.passes.items) members.items }
    ensures { IfSome result.1 (λ r. IsOpened table.now.options table.now.gates.items r.0.number r.0.passes.items) }
{
    join(
        rt,
        || -> Option<Vec<Worker>>
            requires { AllOpened table.now.options table.now.gates.items sessions.items }
        { others_played(rt, alloc, table, sessions, run) },
        || -> Option<(Session<P>, Worker)>
            requires { IsOpened table.now.options table.now.gates.items last.number last.passes.items
                × All (λ s. IsOpened table.now.options table.now.gates.items s.number s.passes.items) members.items }
            ensures { IfSome result (λ r. IsOpened table.entry.now.options table.entry.now.gates.items r.0.number r.0.passes.items) }
        { last_played(rt, alloc, table, last, members, run) },
    )
}

/// Appends a session to the members.
fn put_member<P: Part<Global> + Drop>(
    _table: &Table<P>,
    session: Session<P>,
    members: &mut Vec<Session<P>>,
) -> Option<()>
    requires session { IsOpened _table.now.options _table.now.gates.items session.number session.passes.items }
    requires members { All (λ s. IsOpened _table.now.options _table.now.gates.items s.number s.passes.items) members.old.items }
    ensures { All (λ s. IsOpened _table.now.options _table.now.gates.items s.number s.passes.items) members.new.items }
{
    members.push(session).ok()
}

/// Takes the last one of the sessions, and appends it to the members.
fn move_one<P: Part<Global> + Drop>(
    table: &Table<P>,
    sessions: &mut Vec<Session<P>>,
    members: &mut Vec<Session<P>>,
) -> Option<()>
    requires sessions { AllOpened table.now.options table.now.gates.items sessions.old.items }
    requires members { All (λ s. IsOpened table.now.options table.now.gates.items s.number s.passes.items) members.old.items }
    ensures sessions { AllOpened table.now.options table.now.gates.items sessions.new.items }
    ensures members { All (λ s. IsOpened table.now.options table.now.gates.items s.number s.passes.items) members.new.items }
{
    let member = sessions.pop()?;
    put_member(table, member, members)
}

/// Takes the last `count` of a table's sessions, and appends them to the members.
fn move_members<P: Part<Global> + Drop>(
    table: &Table<P>,
    sessions: &mut Vec<Session<P>>,
    members: &mut Vec<Session<P>>,
    count: u8,
) -> Option<()>
    requires sessions { AllOpened table.now.options table.now.gates.items sessions.old.items }
    requires members { All (λ s. IsOpened table.now.options table.now.gates.items s.number s.passes.items) members.old.items }
    ensures sessions { AllOpened table.now.options table.now.gates.items sessions.new.items }
    ensures members { All (λ s. IsOpened table.now.options table.now.gates.items s.number s.passes.items) members.new.items }
{
    for _member in 0..count {
        move_one(table, sessions, members)?;
    }
    Some(())
}

/// Takes the last `count` of a table's sessions, and returns them as members.
fn members_from<P: Part<Global> + Drop>(
    alloc: Global,
    table: &Table<P>,
    sessions: &mut Vec<Session<P>>,
    count: u8,
) -> Option<Vec<Session<P>>>
    requires { AllOpened table.now.options table.now.gates.items sessions.old.items }
    ensures sessions { AllOpened table.now.options table.now.gates.items sessions.new.items }
    ensures members { IfSome result (λ members. All (λ s. IsOpened table.now.options table.now.gates.items s.number s.passes.items) members.items) }
{
    let mut members = Vec::new(alloc);
    match move_members(table, sessions, &mut members, count) {
        Some(()) => Some(members),
        None => {
            drop(members);
            None
        }
    }
}

/// Opens a table, has all sessions make their calls, and judges what they recorded and what is left.
pub(crate) fn judged<R: Threads + Wait + Sync, P: Part<Global> + Drop + Send>(
    rt: &R,
    alloc: Global,
    run: Run,
) -> Result<(), Failure> {
    let Ok((table, mut sessions)) = Table::<P>::open(alloc, run.options) else {
        return Err(Failure::Refused);
    };
    let Some(members) = members_from(alloc, &table, &mut sessions, run.members) else {
        drop(sessions);
        drop(table);
        return Err(Failure::Refused);
    };
    let Some(last) = sessions.pop() else {
        drop(members);
        drop(sessions);
        drop(table);
        return Err(Failure::Refused);
    };
    let (others, last) = all_played(rt, alloc, &table, sessions, last, members, run);
    match last {
        Some((session, worker)) => {
            judged_closed(alloc, table.close(session), others, worker, run)
        }
        None => {
            drop(others);
            drop(table);
            Err(Failure::Refused)
        }
    }
}
