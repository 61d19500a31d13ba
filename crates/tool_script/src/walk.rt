//! The reply to a session that walks its table by a specification, or goes on with a walk that it began.
ghost use Rattle.std.specs.Prelude.{◌≡◌, ◌≢◌, ◌<◌, IsTrue, IfOk, IfErr, IfSome};
ghost use Rattle.mcode.specs.Answer.{answer_of};
ghost use Rattle.mspec_syntax.specs.Faults.{IsRefusal};
ghost use Rattle.tables.specs.declared.options.Options.{Options};
ghost use Rattle.walks.specs.Query.{plan_of};
ghost use Rattle.tool_script.specs.Command.Selection.{Select, SelectLimit, SelectMore, SelectCount, SelectDelete};
ghost use Rattle.tool_script.specs.Commands.{selection_of};
ghost use Rattle.tool_script.specs.declared.continuations.Continuations.{Continuations};
ghost use Rattle.tool_script.specs.Replies.{reply_term};
ghost use Rattle.tool_script.specs.State.{IsDone, IsSelected};
ghost use Rattle.tool_script.specs.Verdict.{IsMeant};
ghost use Rattle.tool_script.specs.Walks.{begun, fault_term, limit_in, piece_step};

use crate::command::Selection;
use crate::continuations::Continuations;
use crate::reply::CommandReply;
use mspec_reader::read_spec;
use mspec_syntax::SpecFault;
use std::alloc::{AllocError, Allocator};
use tables::Turns;
use term_core::Term;
use tool_io::{BAD_LIMIT, STRANGER_CONTINUATION};
use walks::{
    Query, select, select_count, select_delete, select_first, select_next, steps_are_pieces,
    whole_walks_count, whole_walks_remove, whole_walks_select,
};

/// Compiles a term to the query that it means as a specification, for a table with this `keypos`. Fails with the fault
/// of the term, or with `Memory`.
fn query_of<A: Allocator + Copy>(
    alloc: A,
    term: &Term<A>,
    keypos: u16,
) -> Result<Query<A>, SpecFault>
    ensures ok { IfOk result (λ query. (o : Options) → o.keypos ≡ keypos
        → IsMeant o term.now (answer_of query.code) (plan_of query o)) }
    ensures refused { IfErr result (λ fault. IsRefusal fault term.now) }
{
    let specification = read_spec(alloc, term)?;
    Ok(Query::from_spec(alloc, &specification, keypos)?)
}

/// Returns the reply to a term that is no specification. Fails if the fault is out of memory.
fn refusal<A: Allocator>(fault: SpecFault) -> Result<CommandReply<A>, AllocError>
    ensures { IfOk result (λ reply. (fault ≢ SpecFault.Memory)
        × (reply_term reply ≡ fault_term fault)) }
{
    match fault {
        SpecFault::Memory => Err(AllocError),
        _ => Ok(CommandReply::Fault(fault)),
    }
}

/// Replies to `select`: all answers.
fn select_all<A: Allocator + Copy, T: Turns<A>>(
    alloc: A,
    turns: &mut T,
    term: &Term<A>,
) -> Result<CommandReply<A>, AllocError>
    requires ready { T.is_ready turns.old }
    requires alone { IsTrue (T.home turns.old).alone }
    ensures same { T.home turns.new ≡ T.home turns.old }
    ensures answered { IfOk result (λ reply. (walks : Continuations A)
        → IsSelected (T.home turns.old).options (T.home turns.old).number (T.sees turns.old)
        (T.sees turns.new) walks walks (Select term.now) (reply_term reply)) }
{
    whole_walks_select::<A>();
    match query_of(alloc, term, turns.options().keypos) {
        Ok(query) => Ok(CommandReply::Objects(select(alloc, turns, &query)?)),
        Err(fault) => refusal(fault),
    }
}

/// Replies to `select_count`: the number of objects for which the answer is `true`.
fn count_all<A: Allocator + Copy, T: Turns<A>>(
    alloc: A,
    turns: &mut T,
    term: &Term<A>,
) -> Result<CommandReply<A>, AllocError>
    requires ready { T.is_ready turns.old }
    requires alone { IsTrue (T.home turns.old).alone }
    ensures same { T.home turns.new ≡ T.home turns.old }
    ensures answered { IfOk result (λ reply. (walks : Continuations A)
        → IsSelected (T.home turns.old).options (T.home turns.old).number (T.sees turns.old)
        (T.sees turns.new) walks walks (SelectCount term.now) (reply_term reply)) }
{
    whole_walks_count::<A>();
    match query_of(alloc, term, turns.options().keypos) {
        Ok(query) => Ok(CommandReply::Count(select_count(turns, &query)?)),
        Err(fault) => refusal(fault),
    }
}

/// Replies to `select_delete`: deletes the objects for which the answer is `true`, and returns their number.
fn delete_all<A: Allocator + Copy, T: Turns<A>>(
    alloc: A,
    turns: &mut T,
    term: &Term<A>,
) -> Result<CommandReply<A>, AllocError>
    requires ready { T.is_ready turns.old }
    requires alone { IsTrue (T.home turns.old).alone }
    ensures same { T.home turns.new ≡ T.home turns.old }
    ensures answered { IfOk result (λ reply. (walks : Continuations A)
        → IsSelected (T.home turns.old).options (T.home turns.old).number (T.sees turns.old)
        (T.sees turns.new) walks walks (SelectDelete term.now) (reply_term reply)) }
{
    whole_walks_remove::<A>();
    let query = match query_of(alloc, term, turns.options().keypos) {
        Ok(query) => query,
        Err(fault) => return refusal(fault),
    };
    match select_delete(turns, &query) {
        Ok(count) => Ok(CommandReply::Count(count)),
        Err(_) => Err(AllocError),
    }
}

/// Begins a walk in pieces, and replies with its first piece.
fn begin<A: Allocator + Copy, T: Turns<A>>(
    alloc: A,
    turns: &mut T,
    walks: &mut Continuations<A>,
    query: Query<A>,
    limit: u64,
) -> Result<CommandReply<A>, AllocError>
    requires ready { T.is_ready turns.old }
    requires alone { IsTrue (T.home turns.old).alone }
    requires some { 0 < limit }
    ensures same { T.home turns.new ≡ T.home turns.old }
    ensures answered { IfOk result (λ reply. IsDone (T.home turns.old).options (T.sees turns.old)
        (T.sees turns.new) walks.old walks.new
        (λ w. piece_step w (begun w.table.options (T.home turns.old).number limit
        (answer_of query.code) (plan_of query (T.home turns.old).options))) (reply_term reply)) }
{
    steps_are_pieces::<A>();
    match select_first(alloc, turns, query, limit) {
        Ok(step) => walks.keep(step),
        Err(_) => Err(AllocError),
    }
}

/// Returns the limit if it is at least 1, else `None`.
fn limit_in(limit: i64) -> Option<u64>
    ensures limit { result ≡ limit_in limit }
    ensures some { IfSome result (λ n. 0 < n) }
{
    if limit < 1 {
        return None;
    }
    Some(limit as u64)
}

/// Replies to `select` with a limit: at most `limit` answers, and the number of the continuation. The limit is checked
/// before the specification: error 63 if it is below 1.
fn select_some<A: Allocator + Copy, T: Turns<A>>(
    alloc: A,
    turns: &mut T,
    walks: &mut Continuations<A>,
    term: &Term<A>,
    limit: i64,
) -> Result<CommandReply<A>, AllocError>
    requires ready { T.is_ready turns.old }
    requires alone { IsTrue (T.home turns.old).alone }
    ensures same { T.home turns.new ≡ T.home turns.old }
    ensures answered { IfOk result (λ reply. IsSelected (T.home turns.old).options
        (T.home turns.old).number (T.sees turns.old) (T.sees turns.new)
        walks.old walks.new (SelectLimit term.now limit) (reply_term reply)) }
{
    let Some(limit) = limit_in(limit) else {
        return Ok(CommandReply::Error(BAD_LIMIT));
    };
    match query_of(alloc, term, turns.options().keypos) {
        Ok(query) => begin(alloc, turns, walks, query, limit),
        Err(fault) => refusal(fault),
    }
}

/// Goes on with the walk of a continuation, which is thereby spent. Replies with error 62 if there is no such
/// continuation of this session and table.
fn go_on<A: Allocator + Copy, T: Turns<A>>(
    alloc: A,
    turns: &mut T,
    walks: &mut Continuations<A>,
    number: i64,
) -> Result<CommandReply<A>, AllocError>
    requires ready { T.is_ready turns.old }
    requires alone { IsTrue (T.home turns.old).alone }
    ensures same { T.home turns.new ≡ T.home turns.old }
    ensures answered { IfOk result (λ reply. IsSelected (T.home turns.old).options
        (T.home turns.old).number (T.sees turns.old) (T.sees turns.new)
        walks.old walks.new (SelectMore number) (reply_term reply)) }
{
    steps_are_pieces::<A>();
    let Some(walk) = walks.take(number, turns.options().name, turns.number()) else {
        return Ok(CommandReply::Error(STRANGER_CONTINUATION));
    };
    match select_next(alloc, turns, walk) {
        Ok(step) => walks.keep(step),
        Err(_) => Err(AllocError),
    }
}

/// Walks the table as a session requests, and returns the reply. Fails if an allocation fails.
pub(crate) fn walk<A: Allocator + Copy, T: Turns<A>>(
    alloc: A,
    turns: &mut T,
    walks: &mut Continuations<A>,
    selection: Selection<'_, A>,
) -> Result<CommandReply<A>, AllocError>
    requires ready { T.is_ready turns.old }
    requires alone { IsTrue (T.home turns.old).alone }
    ensures same { T.home turns.new ≡ T.home turns.old }
    ensures answered { IfOk result (λ reply. IsSelected (T.home turns.old).options
        (T.home turns.old).number (T.sees turns.old) (T.sees turns.new)
        walks.old walks.new (selection_of selection.entry) (reply_term reply)) }
{
    match selection {
        Selection::Select(term) => select_all(alloc, turns, term),
        Selection::SelectLimit(term, limit) => select_some(alloc, turns, walks, term, limit),
        Selection::SelectMore(number) => go_on(alloc, turns, walks, number),
        Selection::SelectCount(term) => count_all(alloc, turns, term),
        Selection::SelectDelete(term) => delete_all(alloc, turns, term),
    }
}
