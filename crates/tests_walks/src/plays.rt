//! Tables on one thread, their objects, and what a session requests of them.
ghost use Rattle.std.specs.Prelude.{◌≡◌, ◌<◌, IfSome};

use kit_rows::term_of;
use mspec_reader::read_spec;
use part_core::{Part, TableKind};
use std::alloc::Allocator;
use tables::{LocalAt, LocalTable, Options, Turns, fix_at};
use walks::Query;

/// A table, its objects, and the specification by which it is walked.
#[derive(Clone, Copy)]
pub(crate) struct Play {
    pub(crate) kind: TableKind,
    pub(crate) parts: u8,
    pub(crate) objects: &'static str,
    pub(crate) specification: &'static str,
    /// The session fixes the parts below this number before its call.
    pub(crate) fixed: u8,
}

/// A session of a table on one thread, which can go on as another session of the table.
pub(crate) trait Numbered<A: Allocator>: Turns<A> {
    /// Goes on as the session with this number, and returns whether the table has one.
    fn goes_on_as(&mut self, number: u8) -> bool
        requires { Self.is_ready self.old }
        ensures { Self.is_ready self.new };
}

impl<'t, A: Allocator, P: Part<A> + Drop> Numbered<A> for LocalAt<'t, P, A> {
    fn goes_on_as(&mut self, number: u8) -> bool
        requires { self.old.number < self.old.table.now.options.sessions }
        ensures { self.new.number < self.new.table.now.options.sessions }
    {
        if number < self.table.options.sessions {
            self.number = number;
            return true;
        }
        false
    }
}

/// Opens an empty table of two sessions, or returns `None` if memory runs out.
pub(crate) fn opened<P: Part<A> + Drop, A: Allocator + Copy>(
    heap: A,
    play: Play,
) -> Option<LocalTable<P, A>>
    ensures { IfSome result (λ table. 0 < table.options.sessions) }
{
    let options = Options {
        name: 0,
        kind: play.kind,
        keypos: 1,
        parts: play.parts,
        sessions: 2,
    };
    LocalTable::open(heap, options).ok()
}

/// Returns the query of a specification, or `None`.
pub(crate) fn query_of<A: Allocator + Copy>(heap: A, specification: &str) -> Option<Query<A>> {
    let term = term_of(heap, specification.as_bytes())?;
    let specification = read_spec(heap, &term);
    drop(term);
    let Ok(specification) = specification else {
        return None;
    };
    let query = Query::from_spec(heap, &specification, 1);
    drop(specification);
    query.ok()
}

/// Fixes the parts below a number, unless they are fixed.
pub(crate) fn fix_below<A: Allocator, T: Turns<A>>(session: &mut T, fixed: u8)
    requires { T.is_ready session.old }
    ensures ready { T.is_ready session.new }
    ensures same { T.home session.new ≡ T.home session.old }
{
    for part in 0..session.options().parts {
        if part < fixed {
            if session.fixes(part) == 0 {
                fix_at(session, part);
            }
        }
    }
}

/// Returns whether the session fixes the parts below a number once, and no others.
pub(crate) fn fixes_below<A: Allocator, T: Turns<A>>(session: &T, fixed: u8) -> bool
    requires { T.is_ready session.now }
{
    for part in 0..session.options().parts {
        if session.fixes(part) != u16::from(part < fixed) {
            return false;
        }
    }
    true
}
