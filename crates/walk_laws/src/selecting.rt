//! A walk of a session at a table whose parts have gates.
ghost use Rattle.std.specs.Prelude.{IfOk, IfErr};
ghost use Rattle.tables.specs.Sessions.{IsOpened};
ghost use Rattle.walk_laws.specs.Answered.{IsAnsweredBy, IsGivenUpBy};

use part_core::Part;
use std::alloc::{AllocError, Allocator};
use std::sync::Wait;
use tables::{Session, Table};
use term_core::Term;
use walks::{Query, select};

/// Returns all answers of a query for the objects of a table (ets:select/2), and hands the session back. The session
/// makes no other entries than those of the walk. Other sessions may make turns at the parts meanwhile. Fails if an
/// allocation fails.
pub fn select_at<R: Wait, A: Allocator + Copy, P: Part<A> + Drop>(
    rt: &R,
    alloc: A,
    table: &Table<P, A>,
    session: Session<P, A>,
    query: &Query<A>,
) -> (Session<P, A>, Result<Vec<Term<A>, A>, AllocError>)
    requires { IsOpened table.now.options table.now.gates.items session.number session.passes.items }
    ensures opened { IsOpened table.now.options table.now.gates.items result.0.number result.0.passes.items }
    ensures answered { IfOk result.1 (λ answers. IsAnsweredBy table.now.options table.now.gates.items session.number query.now
        session.passes.items result.0.passes.items answers.items) }
    ensures refused { IfErr result.1 (λ _. IsGivenUpBy table.now.options table.now.gates.items session.number query.now
        session.passes.items result.0.passes.items) }
{
    let mut session = session;
    let mut at = table.at(rt, &mut session);
    let answers = select(alloc, &mut at, query);
    (session, answers)
}
