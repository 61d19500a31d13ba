//! Walks of a session, some by the members that it has, and its fixes.
ghost use Rattle.std.specs.Prelude.{◌≡◌};
ghost use Rattle.kit_members.specs.Members.{AreMembers};

use crate::event::Event;
use crate::keys::{COUNTED, OPEN, Object, key_term};
use crate::worker::Worker;
use kit_members::{counted, deleted, selected};
use kit_rows::{number, term_of, was_some};
use mspec_reader::read_spec;
use std::alloc::Global;
use std::sync::Wait;
use std::thread::Threads;
use tables::{Turns, fix, unfix};
use term_core::Term;
use walks::{Continuation, Query, Step, first, next, select_limit, select_more};

/// The maximal number of pieces of a walk, and of keys of a tour.
const MOST: u32 = 1_000_000;
/// The maximal number of pieces or keys of a walk that is abandoned.
const FEW: u32 = 8;

/// Returns the query of a specification, or `None`.
fn query(alloc: Global, specification: &str) -> Option<Query> {
    let term = term_of(alloc, specification.as_bytes())?;
    let read = read_spec(alloc, &term).ok();
    drop(term);
    let specification = read?;
    let query = Query::from_spec(alloc, &specification, 1).ok();
    drop(specification);
    query
}

/// Records the answers of a piece.
pub(crate) fn record_piece(worker: &mut Worker, answers: &[Term]) -> Option<()> {
    for answer in answers {
        let object = Object::of_term(answer)?;
        worker.record(Event::Walked(object))?;
    }
    Some(())
}

/// Records the answers of a walk that was made at once. For a set, each was found when the session had made no other
/// call since.
fn record_all(worker: &mut Worker, answers: &[Term]) -> Option<()> {
    if worker.holds_many {
        return record_piece(worker, answers);
    }
    for answer in answers {
        let object = Object::of_term(answer)?;
        worker.record(Event::Met(object.key))?;
        worker.record(Event::Found(object.key, Some(object)))?;
    }
    Some(())
}

/// Records a walk that was made at once.
pub(crate) fn record_whole(worker: &mut Worker, answers: &[Term]) -> Option<()> {
    worker.record(Event::Begun)?;
    record_all(worker, answers)?;
    worker.record(Event::Ended)
}

/// Returns how many pieces or keys a walk goes on for: one of four walks is abandoned.
fn walk_length(worker: &mut Worker) -> u32 {
    if worker.below(4) == 0 {
        worker.below(FEW)
    } else {
        MOST
    }
}

/// Records a piece, makes a call at a key at which others write, too, and goes on with the walk.
fn step_after<T: Turns<Global>>(
    alloc: Global,
    turns: &mut T,
    worker: &mut Worker,
    answers: Vec<Term>,
    walk: Continuation,
) -> Option<Step>
    requires { T.is_ready turns.old }
    ensures ready { T.is_ready turns.new }
    ensures same { T.home turns.new ≡ T.home turns.old }
{
    let recorded = record_piece(worker, answers.as_slice());
    drop(answers);
    if recorded.is_none() {
        drop(walk);
        return None;
    }
    if worker.call_at_shared_key(alloc, turns).is_none() {
        drop(walk);
        return None;
    }
    select_more(alloc, turns, walk).ok()
}

/// Walks over all objects, in pieces; between two pieces the session makes a call at a key at which others write, too.
/// A walk that is abandoned drops its continuation, and no end is recorded.
fn pieces<T: Turns<Global>>(alloc: Global, turns: &mut T, worker: &mut Worker) -> Option<()>
    requires { T.is_ready turns.old }
    ensures ready { T.is_ready turns.new }
    ensures same { T.home turns.new ≡ T.home turns.old }
{
    worker.record(Event::Begun)?;
    let most = walk_length(worker);
    let limit = u64::from(worker.below(50)).saturating_add(1);
    let all = query(alloc, "[{'$1',[],['$1']}].")?;
    let mut step = select_limit(alloc, turns, all, limit).ok();
    for _piece in 0..most {
        match step? {
            Step::Piece(answers, walk) => {
                step = step_after(alloc, turns, worker, answers, walk);
            }
            Step::End(query) => {
                drop(query);
                return worker.record(Event::Ended);
            }
        }
    }
    if was_some(step) && most < MOST {
        Some(())
    } else {
        None
    }
}

/// Returns the number that a key is, if there is a key. Returns `None` if the key is no number.
fn number_of(key: Option<Term>) -> Option<Option<u32>> {
    let number = match &key {
        Some(key) => match number(key) {
            Some(number) => Some(Some(number)),
            None => None,
        },
        None => Some(None),
    };
    drop(key);
    number
}

/// Returns the key after another, or the first one for `None`.
fn following_key<T: Turns<Global>>(turns: &mut T, last: Option<u32>) -> Option<Option<u32>>
    requires { T.is_ready turns.old }
    ensures ready { T.is_ready turns.new }
    ensures same { T.home turns.new ≡ T.home turns.old }
{
    let Some(key) = last else {
        return number_of(first(turns).ok()?);
    };
    let key = key_term(key);
    let found = next(turns, &key).ok();
    drop(key);
    number_of(found?)
}

/// Visits all keys, one after the other, by `first` and `next`, or at most `most` of them. Returns whether there are no
/// more.
fn tour<T: Turns<Global>>(turns: &mut T, worker: &mut Worker, most: u32) -> Option<bool>
    requires { T.is_ready turns.old }
    ensures ready { T.is_ready turns.new }
    ensures same { T.home turns.new ≡ T.home turns.old }
{
    let mut last = None;
    for _key in 0..most {
        last = following_key(turns, last)?;
        match last {
            Some(key) => worker.record(Event::Met(key))?,
            None => return Some(true),
        }
    }
    Some(false)
}

/// Makes a tour through the table while it is fixed. A tour that is abandoned leaves it fixed.
fn fixed_tour<T: Turns<Global>>(turns: &mut T, worker: &mut Worker) -> Option<()>
    requires { T.is_ready turns.old }
    ensures ready { T.is_ready turns.new }
    ensures same { T.home turns.new ≡ T.home turns.old }
{
    worker.record(Event::Begun)?;
    fix(turns).ok()?;
    let most = walk_length(worker);
    if tour(turns, worker, most)? {
        unfix(turns).ok()?;
        worker.record(Event::Ended)
    } else if most < MOST {
        worker.record(Event::Fixed)
    } else {
        None
    }
}

/// A query over the whole table.
#[derive(Clone, Copy)]
enum Asking {
    /// All objects at once.
    Whole,
    /// The number of objects that the session has at its own keys.
    Count,
    /// Deletes the session's objects of even or of odd sequence numbers at its own keys.
    Remove(u32),
    /// The objects at one of the session's keys, by a specification that names it.
    Named(u32),
    /// The number of objects of the table.
    CountAll,
    /// Deletes the objects at the keys whose objects are counted.
    Clear,
}

impl Asking {
    /// Writes the specification of a session's query.
    fn write(self, number: u8, text: &mut String) -> Option<()> {
        match self {
            Asking::Whole => write!(text, "[{{'$1',[],['$1']}}]."),
            Asking::Count => write!(
                text,
                "[{{{{'$1',{number},'$2'}},[{{'<','$1',{OPEN}}}],[true]}}]."
            ),
            Asking::Remove(parity) => write!(
                text,
                "[{{{{'$1',{number},'$2'}},[{{'<','$1',{OPEN}}},{{'=:=',{{'rem','$2',2}},{parity}}}],[true]}}]."
            ),
            Asking::Named(key) => write!(text, "[{{{{{key},'_','_'}},[],['$_']}}]."),
            Asking::CountAll => write!(text, "[{{'_',[],[true]}}]."),
            Asking::Clear => write!(
                text,
                "[{{{{'$1','_','_'}},[{{'>=','$1',{COUNTED}}}],[true]}}]."
            ),
        }
        .ok()
    }

    /// Returns the query of a session, or `None`.
    fn query(self, alloc: Global, number: u8) -> Option<Query> {
        let mut text = String::new(alloc);
        let asked = match self.write(number, &mut text) {
            Some(()) => query(alloc, text.as_str()),
            None => None,
        };
        drop(text);
        asked
    }

    /// Returns the event that records the number that a query returned.
    fn event(self, count: u64) -> Event {
        match self {
            Asking::Count => Event::Counted(count),
            Asking::Remove(parity) => Event::Removed(parity, count),
            Asking::Clear => Event::Cleared(count),
            _ => Event::CountedAll(count),
        }
    }
}

/// Makes a query, by members if there are any, and records the result.
fn ask_query<R: Threads + Wait + Sync, T: Turns<Global>, M: Turns<Global> + Send>(
    rt: &R,
    alloc: Global,
    turns: &mut T,
    members: &mut [M],
    worker: &mut Worker,
    asking: Asking,
    query: &Query,
) -> Option<()>
    requires ready { T.is_ready turns.old }
    requires members { AreMembers M.is_ready M.home members.old }
    ensures ready { T.is_ready turns.new }
    ensures same { T.home turns.new ≡ T.home turns.old }
    ensures members { AreMembers M.is_ready M.home members.new }
{
    match asking {
        Asking::Whole => {
            let answers = selected(rt, alloc, turns, members, query)?;
            let recorded = record_whole(worker, answers.as_slice());
            drop(answers);
            recorded
        }
        Asking::Named(key) => {
            let found = selected(rt, alloc, turns, members, query)?;
            let recorded = worker.record_found(key, found.as_slice());
            drop(found);
            recorded
        }
        Asking::Count | Asking::CountAll => {
            let count = counted(rt, turns, members, query)?;
            worker.record(asking.event(count))
        }
        Asking::Remove(_) | Asking::Clear => {
            let count = deleted(rt, turns, members, query)?;
            worker.record(asking.event(count))
        }
    }
}

/// Makes a session's query, by members if there are any, and records the result.
fn ask<R: Threads + Wait + Sync, T: Turns<Global>, M: Turns<Global> + Send>(
    rt: &R,
    alloc: Global,
    turns: &mut T,
    members: &mut [M],
    worker: &mut Worker,
    asking: Asking,
) -> Option<()>
    requires ready { T.is_ready turns.old }
    requires members { AreMembers M.is_ready M.home members.old }
    ensures ready { T.is_ready turns.new }
    ensures same { T.home turns.new ≡ T.home turns.old }
    ensures members { AreMembers M.is_ready M.home members.new }
{
    let query = asking.query(alloc, worker.number)?;
    let recorded = ask_query(rt, alloc, turns, members, worker, asking, &query);
    drop(query);
    recorded
}

/// Makes a random walk or query, or changes the session's fixes.
pub(crate) fn walk<R: Threads + Wait + Sync, T: Turns<Global>, M: Turns<Global> + Send>(
    rt: &R,
    alloc: Global,
    turns: &mut T,
    members: &mut [M],
    worker: &mut Worker,
) -> Option<()>
    requires ready { T.is_ready turns.old }
    requires members { AreMembers M.is_ready M.home members.old }
    ensures ready { T.is_ready turns.new }
    ensures same { T.home turns.new ≡ T.home turns.old }
    ensures members { AreMembers M.is_ready M.home members.new }
{
    let walks = if members.is_empty() { 9 } else { 10 };
    let asking = match worker.below(walks) {
        0 => {
            fix(turns).ok()?;
            return worker.record(Event::Fixed);
        }
        1 => {
            let done = unfix(turns).is_ok();
            return worker.record(Event::Unfixed(done));
        }
        2 => Asking::Count,
        3 => Asking::Remove(worker.below(2)),
        4 => Asking::Named(worker.own_key()),
        5 => Asking::Whole,
        6 => return pieces(alloc, turns, worker),
        7 => return fixed_tour(turns, worker),
        8 => Asking::CountAll,
        _ => Asking::Clear,
    };
    ask(rt, alloc, turns, members, worker, asking)
}
