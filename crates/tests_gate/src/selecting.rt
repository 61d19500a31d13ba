//! A whole walk at a table whose parts have gates, with each allocation failing in turn.
ghost use Rattle.tables.specs.Sessions.{IsOpened};

use crate::objects::query_of;
use crate::trials::{Act, Home, Sort, Trial, is_swept};
use kit_alloc::{Failing, Plan};
use part_core::{Part, TableKind};
use std::alloc::{AllocError, Allocator, Global};
use std::sync::Wait;
use tables::{Session, Table, Turns};
use walk_laws::select_at;
use walks::Query;

/// A specification whose answer on each object is its key in a tuple.
const KEYS: &[u8] = b"[{{'$1'},[],[{{'$1'}}]}].";

/// Returns whether a session fixes each part once.
fn is_fixed_once<A: Allocator, T: Turns<A>>(turns: &T) -> bool
    requires { T.is_ready turns.now }
{
    for part in 0..turns.options().parts {
        if turns.fixes(part) != 1 {
            return false;
        }
    }
    true
}

/// Makes a walk. Returns the session, the number of answers (`None` if the walk failed), and whether the session still
/// has its one fix.
fn walked<R: Wait, A: Allocator + Copy, P: Part<A> + Drop>(
    rt: &R,
    heap: A,
    table: &Table<P, A>,
    session: Session<P, A>,
    query: &Query<A>,
) -> (Session<P, A>, Option<usize>, bool)
    requires { IsOpened table.now.options table.now.gates.items session.number session.passes.items }
    ensures { IsOpened table.now.options table.now.gates.items result.0.number result.0.passes.items }
{
    let (session, answers) = select_at(rt, heap, table, session, query);
    let count = match &answers {
        Ok(answers) => Some(answers.len()),
        Err(AllocError) => None,
    };
    drop(answers);
    let mut session = session;
    let at = table.at(rt, &mut session);
    let keeps = is_fixed_once(&at);
    (session, count, keeps)
}

/// Returns whether a walk gives both objects, tried again if it fails, and its session has its one fix in between and
/// afterwards. The second attempt may fail too if all later allocations fail.
fn is_walked<R: Wait, A: Allocator + Copy, P: Part<A> + Drop>(
    rt: &R,
    heap: A,
    counts: &Failing<Global>,
    table: &Table<P, A>,
    session: Session<P, A>,
    query: &Query<A>,
) -> bool
    requires { IsOpened table.now.options table.now.gates.items session.number session.passes.items }
{
    let (session, answers, keeps) = walked(rt, heap, table, session, query);
    if answers.is_some() {
        drop(session);
        return answers == Some(2) && keeps;
    }
    let (session, again, still_keeps) = walked(rt, heap, table, session, query);
    drop(session);
    let is_right = match again {
        Some(count) => count == 2,
        None => matches!(counts.plan(), Plan::From(_)),
    };
    is_right && keeps && still_keeps && counts.was_refused()
}

/// Makes a query, and returns whether a walk by it is right; or whether an allocation failed if there is no query.
pub(crate) fn is_selected<R: Wait, A: Allocator + Copy, P: Part<A> + Drop>(
    rt: &R,
    heap: A,
    counts: &Failing<Global>,
    table: &Table<P, A>,
    session: Session<P, A>,
) -> bool
    requires { IsOpened table.now.options table.now.gates.items session.number session.passes.items }
{
    let Some(query) = query_of(heap, KEYS) else {
        drop(session);
        return counts.was_refused();
    };
    let is_walked = is_walked(rt, heap, counts, table, session, &query);
    drop(query);
    is_walked
}

#[test]
fn each_request_of_a_walk_may_be_refused(rt: HostRuntime) {
    let trial = Trial {
        sort: Sort::Hashed,
        kind: TableKind::Set,
        parts: 2,
        home: Home::Walked,
        act: Act::Fix,
    };
    assert!(rt; is_swept(&rt, rt.alloc(), trial));
}
