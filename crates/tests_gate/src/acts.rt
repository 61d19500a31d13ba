//! What a session does when memory is available: acts, each with the number that it has to result in.
ghost use Rattle.std.specs.Prelude.{◌≡◌};
ghost use Rattle.tables.specs.Sessions.{IsOpened};

use crate::objects::{is_there, put_one};
use crate::refusals::most_fixes;
use kit_rows::number;
use part_core::{Fault, Part};
use std::alloc::Global;
use std::process::Abort;
use std::sync::Wait;
use std::thread::{Threads, join};
use tables::{Session, Table, Turns, delete, fix, lookup, unfix};
use term_core::Term;
use walks::next;

/// Keys in ascending order, with equal distances.
#[derive(Clone, Copy)]
pub(crate) struct Keys {
    pub(crate) first: u32,
    pub(crate) apart: u32,
    pub(crate) count: u32,
}

impl Keys {
    /// Returns the key at a place, counted from 0.
    pub(crate) fn at(self, place: u32) -> u32 {
        self.first.saturating_add(place.saturating_mul(self.apart))
    }
}

/// Returns one key alone.
pub(crate) const fn only(key: u32) -> Keys {
    Keys {
        first: key,
        apart: 0,
        count: 1,
    }
}

/// To which the error code is added for the result of a rejected request for a key.
pub(crate) const REFUSED: u32 = 1_000;

/// The result of a request for the key that follows one without a row.
pub(crate) const NO_ROW: usize = REFUSED as usize + 53;

/// An act of a session. The result of one that returns nothing is 0.
#[derive(Clone, Copy)]
pub(crate) enum Act {
    /// It inserts the object of each key.
    Put(Keys),
    /// It deletes each key.
    Delete(Keys),
    /// It counts the objects of a key.
    Count(u32),
    /// It checks whether a key has an object: 1 if it has.
    Member(u32),
    /// It requests the key that follows another: the result is that key, or 1,000 plus the error code.
    Next(u32),
    /// It fixes the table.
    Fix,
    /// It fixes the table as many times as it may: the result is the error code of one more fix, after which the other
    /// fixes are still there.
    FixMost,
    /// It releases a fix.
    Unfix,
}

/// Inserts the object of each key.
fn put<R: Abort, T: Turns<Global>>(rt: &R, alloc: Global, turns: &mut T, keys: Keys)
    requires { T.is_ready turns.old }
    ensures ready { T.is_ready turns.new }
    ensures same { T.home turns.new ≡ T.home turns.old }
{
    for place in 0..keys.count {
        put_one(alloc, turns, i64::from(keys.at(place))).expect(rt, "an object, and its insert");
    }
}

/// Deletes a key.
fn delete_one<T: Turns<Global>>(turns: &mut T, key: u32)
    requires { T.is_ready turns.old }
    ensures ready { T.is_ready turns.new }
    ensures same { T.home turns.new ≡ T.home turns.old }
{
    let key = Term::int(i64::from(key));
    delete(turns, &key);
    drop(key);
}

/// Deletes each key.
fn delete_each<T: Turns<Global>>(turns: &mut T, keys: Keys)
    requires { T.is_ready turns.old }
    ensures ready { T.is_ready turns.new }
    ensures same { T.home turns.new ≡ T.home turns.old }
{
    for place in 0..keys.count {
        delete_one(turns, keys.at(place));
    }
}

/// Returns the number of objects of a key.
fn count<R: Abort, T: Turns<Global>>(rt: &R, turns: &mut T, key: u32) -> usize
    requires { T.is_ready turns.old }
    ensures ready { T.is_ready turns.new }
    ensures same { T.home turns.new ≡ T.home turns.old }
{
    let key = Term::int(i64::from(key));
    let found = lookup(turns, &key);
    drop(key);
    let found = found.expect(rt, "a look-up");
    let count = found.len();
    drop(found);
    count
}

/// Returns the number of the key, or 1,000 plus the error code. Returns `None` if there is no key.
fn key_of(answered: Result<Option<Term>, Fault>) -> Option<u32> {
    let key = match &answered {
        Ok(Some(key)) => number(key),
        Ok(None) => None,
        Err(fault) => Some(REFUSED + u32::from(fault.number())),
    };
    drop(answered);
    key
}

/// Returns the key that follows another, or 1,000 plus the error code. Returns `None` if there is no key.
fn behind<T: Turns<Global>>(turns: &mut T, key: u32) -> Option<u32>
    requires { T.is_ready turns.old }
    ensures ready { T.is_ready turns.new }
    ensures same { T.home turns.new ≡ T.home turns.old }
{
    let key = Term::int(i64::from(key));
    let answered = next(turns, &key);
    drop(key);
    key_of(answered)
}

/// Fixes the table as many times as possible, and returns the error code of one fix too many. Checks that all the other
/// fixes are still there, at each part.
fn limit<R: Abort, T: Turns<Global>>(rt: &R, turns: &mut T) -> u8
    requires { T.is_ready turns.old }
    ensures ready { T.is_ready turns.new }
    ensures same { T.home turns.new ≡ T.home turns.old }
{
    let (fixes, fault) = most_fixes(turns).expect(rt, "a refused fix");
    for part in 0..turns.options().parts {
        assert!(rt; u32::from(turns.fixes(part)) == fixes);
    }
    fault.number()
}

/// Returns the error code of a change of fixes, or 0.
fn refusal(changed: Result<(), Fault>) -> u8 {
    match changed {
        Ok(()) => 0,
        Err(fault) => fault.number(),
    }
}

/// Returns the result of an act.
fn came<R: Abort, T: Turns<Global>>(rt: &R, alloc: Global, turns: &mut T, act: Act) -> usize
    requires { T.is_ready turns.old }
    ensures ready { T.is_ready turns.new }
    ensures same { T.home turns.new ≡ T.home turns.old }
{
    match act {
        Act::Put(keys) => {
            put(rt, alloc, turns, keys);
            0
        }
        Act::Delete(keys) => {
            delete_each(turns, keys);
            0
        }
        Act::Count(key) => count(rt, turns, key),
        Act::Member(key) => usize::from(is_there(turns, i64::from(key))),
        Act::Next(key) => behind(turns, key).expect(rt, "a key or a refusal") as usize,
        Act::Fix => usize::from(refusal(fix(turns))),
        Act::FixMost => usize::from(limit(rt, turns)),
        Act::Unfix => usize::from(refusal(unfix(turns))),
    }
}

/// Has a session perform an act, which has to have the result `wanted`. Returns the session.
pub(crate) fn acted<R: Wait + Abort, P: Part<Global> + Drop>(
    rt: &R,
    alloc: Global,
    table: &Table<P>,
    session: Session<P>,
    act: Act,
    wanted: usize,
) -> Session<P>
    requires { IsOpened table.now.options table.now.gates.items session.number session.passes.items }
    ensures { IsOpened table.now.options table.now.gates.items result.number result.passes.items }
{
    let mut session = session;
    let mut at = table.at(rt, &mut session);
    let came = came(rt, alloc, &mut at, act);
    assert!(rt; came == wanted);
    session
}

/// Has a session perform an act on a thread of its own, which is joined. The act has to have the result `wanted`.
/// Returns the session.
pub(crate) fn acted_on_a_thread<R: Threads + Wait + Abort + Sync, P: Part<Global> + Drop + Send>(
    rt: &R,
    alloc: Global,
    table: &Table<P>,
    session: Session<P>,
    act: Act,
    wanted: usize,
) -> Session<P>
    requires { IsOpened table.now.options table.now.gates.items session.number session.passes.items }
    ensures { IsOpened table.now.options table.now.gates.items result.number result.passes.items }
{
    let (session, ()) = join(
        rt,
        || -> Session<P>
            requires { IsOpened table.now.options table.now.gates.items session.number session.passes.items }
            ensures { IsOpened table.entry.now.options table.entry.now.gates.items result.number result.passes.items }
        { acted(rt, alloc, table, session, act, wanted) },
        || {},
    );
    session
}

/// Has two sessions perform an act each at the same time, the first on a thread of its own. Both acts have to have the
/// result 0. Returns both sessions.
pub(crate) fn both_acted<R: Threads + Wait + Abort + Sync, P: Part<Global> + Drop + Send>(
    rt: &R,
    alloc: Global,
    table: &Table<P>,
    first: Session<P>,
    first_act: Act,
    second: Session<P>,
    second_act: Act,
) -> (Session<P>, Session<P>)
    requires first { IsOpened table.now.options table.now.gates.items first.number first.passes.items }
    requires second { IsOpened table.now.options table.now.gates.items second.number second.passes.items }
    ensures first { IsOpened table.now.options table.now.gates.items result.0.number result.0.passes.items }
    ensures second { IsOpened table.now.options table.now.gates.items result.1.number result.1.passes.items }
{
    join(
        rt,
        || -> Session<P>
            requires { IsOpened table.now.options table.now.gates.items first.number first.passes.items }
            ensures { IsOpened table.entry.now.options table.entry.now.gates.items result.number result.passes.items }
        { acted(rt, alloc, table, first, first_act, 0) },
        || -> Session<P>
            requires { IsOpened table.now.options table.now.gates.items second.number second.passes.items }
            ensures { IsOpened table.entry.now.options table.entry.now.gates.items result.number result.passes.items }
        { acted(rt, alloc, table, second, second_act, 0) },
    )
}
