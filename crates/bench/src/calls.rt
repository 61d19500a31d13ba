//! Calls of a session at a table, one with each object, and walks through the table.
ghost use Rattle.std.specs.Prelude.{◌≡◌};

use machine::run;
use mspec_syntax::Spec;
use part_core::{Fault, key_in};
use std::alloc::{AllocError, Global};
use tables::{Turns, delete, insert, lookup, member};
use term_core::{Refused, Term};
use walks::{Query, Step, select, select_count, select_limit, select_more};

/// The maximal number of answers of a piece.
const PIECE: u64 = 100;

/// A call with an object, or at its key.
#[derive(Clone, Copy)]
pub(crate) enum Call {
    Insert,
    Lookup,
    Member,
    Delete,
}

/// Work that is timed.
#[derive(Clone, Copy)]
pub(crate) enum Work {
    /// A call with each object.
    Each(Call),
    /// A run of the code of the query with conditions on each object.
    Run,
    /// A count of all objects.
    Count,
    /// A selection of all answers of the query with conditions.
    Select,
    /// A selection of the answers of the query with conditions, in pieces.
    Pieces,
}

/// What the work is done with: objects with their keys at the first position, the query that counts all, and the query
/// with conditions with its specification.
#[derive(Clone, Copy)]
pub(crate) struct Load<'a> {
    pub(crate) objects: &'a [Term],
    pub(crate) all: &'a Query,
    pub(crate) some: &'a Query,
    pub(crate) specification: &'a Spec,
}

/// Returns how many objects an insert inserted.
fn put(inserted: Result<(), Refused<Term, Fault>>) -> usize {
    usize::from(inserted.is_ok())
}

/// Returns how many objects a lookup found.
fn found(objects: Result<Vec<Term>, AllocError>) -> usize {
    match objects {
        Ok(objects) => objects.len(),
        Err(_) => 0,
    }
}

/// Makes a call, and returns how many objects it inserts or finds. Returns 0 for a term that is no object, since it has
/// no key, and `None` if memory runs out.
fn made<T: Turns<Global>>(session: &mut T, call: Call, object: &Term) -> Option<usize>
    requires { T.is_ready session.old }
    ensures ready { T.is_ready session.new }
    ensures same { T.home session.new ≡ T.home session.old }
{
    let Some(key) = key_in(session.options().keypos, object) else {
        return Some(0);
    };
    match call {
        Call::Insert => Some(put(insert(session, object.copy().ok()?))),
        Call::Lookup => Some(found(lookup(session, key))),
        Call::Member => Some(usize::from(member(session, key))),
        Call::Delete => {
            delete(session, key);
            Some(0)
        }
    }
}

/// Makes a call with each object, and returns how many it inserts or finds.
fn made_with_each<T: Turns<Global>>(session: &mut T, call: Call, objects: &[Term]) -> Option<usize>
    requires { T.is_ready session.old }
    ensures ready { T.is_ready session.new }
    ensures same { T.home session.new ≡ T.home session.old }
{
    let mut count: usize = 0;
    for object in objects {
        count = count.saturating_add(made(session, call, object)?);
    }
    Some(count)
}

/// Runs the code of a query on each object, and returns on how many there is an answer.
fn run_on_each(alloc: Global, query: &Query, objects: &[Term]) -> Option<u64> {
    let mut count: u64 = 0;
    for object in objects {
        let (answer, _steps) = run(alloc, &query.code, object).ok()?;
        count = count.saturating_add(u64::from(answer.is_some()));
    }
    Some(count)
}

/// Returns how many answers the pieces of a walk have, or `None` if there are more than `most` pieces.
fn in_pieces<T: Turns<Global>>(
    alloc: Global,
    session: &mut T,
    specification: &Spec,
    most: usize,
) -> Option<u64>
    requires { T.is_ready session.old }
    ensures ready { T.is_ready session.new }
    ensures same { T.home session.new ≡ T.home session.old }
{
    let query = Query::from_spec(alloc, specification, 1).ok()?;
    let mut count: u64 = 0;
    let mut step = select_limit(alloc, session, query, PIECE).ok()?;
    for _piece in 0..most {
        match step {
            Step::Piece(answers, walk) => {
                count = count.saturating_add(answers.len() as u64);
                step = select_more(alloc, session, walk).ok()?;
            }
            Step::End(_query) => return Some(count),
        }
    }
    None
}

/// Does the work, and returns how many objects it inserts, finds, counts or answers.
pub(crate) fn done<T: Turns<Global>>(
    alloc: Global,
    session: &mut T,
    work: Work,
    load: Load<'_>,
) -> Option<u64>
    requires { T.is_ready session.old }
    ensures ready { T.is_ready session.new }
    ensures same { T.home session.new ≡ T.home session.old }
{
    match work {
        Work::Each(call) => Some(made_with_each(session, call, load.objects)? as u64),
        Work::Run => run_on_each(alloc, load.some, load.objects),
        Work::Count => select_count(session, load.all).ok(),
        Work::Select => Some(select(alloc, session, load.some).ok()?.len() as u64),
        Work::Pieces => {
            let most = load.objects.len().saturating_add(1);
            in_pieces(alloc, session, load.specification, most)
        }
    }
}
