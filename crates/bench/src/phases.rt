//! Inserts and lookups of a session, each timed.
ghost use Rattle.std.specs.Prelude.{◌≡◌};

use crate::timing::since;
use kit_members::put_all;
use part_core::key_in;
use std::alloc::Global;
use std::time::{Clock, Instant};
use tables::{Turns, lookup};
use term_core::Term;

/// The nanoseconds of all inserts and of all lookups of a session, and how many objects it found.
#[derive(Clone, Copy)]
pub(crate) struct Times {
    pub(crate) insert: u64,
    pub(crate) lookup: u64,
    pub(crate) found: usize,
}

/// Looks up all keys, and returns how many objects were found.
fn find_all<T: Turns<Global>>(session: &mut T, objects: &[Term]) -> Option<usize>
    requires { T.is_ready session.old }
    ensures ready { T.is_ready session.new }
    ensures same { T.home session.new ≡ T.home session.old }
{
    let keypos = session.options().keypos;
    let mut found: usize = 0;
    for object in objects {
        let key = key_in(keypos, object)?;
        let objects = lookup(session, key).ok()?;
        found = found.saturating_add(objects.len());
    }
    Some(found)
}

/// Inserts all objects and looks up all keys. Returns the times of both, and how many objects were found.
pub(crate) fn timed<R: Clock, T: Turns<Global>>(
    rt: &R,
    session: &mut T,
    objects: &[Term],
) -> Option<Times>
    requires { T.is_ready session.old }
    ensures ready { T.is_ready session.new }
    ensures same { T.home session.new ≡ T.home session.old }
{
    let began = Instant::now(rt).ok()?;
    put_all(session, objects)?;
    let insert = since(rt, began)?;
    let began = Instant::now(rt).ok()?;
    let found = find_all(session, objects)?;
    Some(Times {
        insert,
        lookup: since(rt, began)?,
        found,
    })
}
