//! The objects that tests insert, their keys, and queries.
ghost use Rattle.std.specs.Prelude.{◌≡◌};

use kit_rows::{fields, number, put, term_of};
use mspec_reader::read_spec;
use std::alloc::Allocator;
use tables::{Turns, insert, member};
use term_core::Term;
use walks::Query;

/// Returns the object `{Key}`, or `None` if memory runs out.
pub(crate) fn object<A: Allocator + Copy>(heap: A, key: i64) -> Option<Term<A>> {
    let Ok(mut elements) = Vec::with_capacity(heap, 1) else {
        return None;
    };
    if put(&mut elements, Term::int(key)) {
        Term::tuple(heap, elements).ok()
    } else {
        drop(elements);
        None
    }
}

/// Returns the key of an object, if it is a number.
pub(crate) fn key_of<A: Allocator>(object: &Term<A>) -> Option<u32> {
    number(fields(object)?.first()?)
}

/// Inserts the object of a key. Returns `None` if memory runs out.
pub(crate) fn put_one<A: Allocator + Copy, T: Turns<A>>(
    heap: A,
    turns: &mut T,
    key: i64,
) -> Option<()>
    requires { T.is_ready turns.old }
    ensures ready { T.is_ready turns.new }
    ensures same { T.home turns.new ≡ T.home turns.old }
{
    let object = object(heap, key)?;
    insert(turns, object).ok()
}

/// Inserts `{1}` and `{2}`. Returns `None` if memory runs out.
pub(crate) fn put_both<A: Allocator + Copy, T: Turns<A>>(heap: A, turns: &mut T) -> Option<()>
    requires { T.is_ready turns.old }
    ensures ready { T.is_ready turns.new }
    ensures same { T.home turns.new ≡ T.home turns.old }
{
    put_one(heap, turns, 1)?;
    put_one(heap, turns, 2)
}

/// Returns whether a key has an object.
pub(crate) fn is_there<A: Allocator, T: Turns<A>>(turns: &mut T, key: i64) -> bool
    requires { T.is_ready turns.old }
    ensures ready { T.is_ready turns.new }
    ensures same { T.home turns.new ≡ T.home turns.old }
{
    let key = Term::int(key);
    let is_there = member(turns, &key);
    drop(key);
    is_there
}

/// Returns the query that a text spells, or `None`.
pub(crate) fn query_of<A: Allocator + Copy>(heap: A, text: &[u8]) -> Option<Query<A>> {
    let term = term_of(heap, text)?;
    let specification = read_spec(heap, &term);
    drop(term);
    let Ok(specification) = specification else {
        return None;
    };
    let query = Query::from_spec(heap, &specification, 1).ok();
    drop(specification);
    query
}
