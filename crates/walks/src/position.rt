//! Where a walk with a query begins, what its next visit looks at, and where it goes on.
ghost use Rattle.std.specs.Prelude.{◌≡◌, ◌≢◌, ◌<◌, option_map};
ghost use Rattle.part_core.specs.Acts.{Purpose};
ghost use Rattle.part_core.specs.Ops.{cursor_of, scope_of};
ghost use Rattle.walk_core.specs.Positions.{position_of};
ghost use Rattle.walk_core.specs.Walk.{named_at, named_count, next_position, part_at, scope_at, start_by};
ghost use Rattle.walk_core.specs.Walk.Position.{Over};
ghost use Rattle.walks.specs.Query.{IsWithin, plan_of, walk_of};

use part_core::{Cursor, Scope};
use std::alloc::Allocator;
use tables::{TryTurns, part_of_key};
use term_core::Term;
use walk_core::{Position, after_key, at_key, at_part, behind, scope_from};
use walk_query::Query;

/// Returns how many named keys a walk with a query visits, or 0 if it visits parts.
pub fn named_count<A: Allocator, T: TryTurns<A>>(turns: &T, query: &Query<A>) -> usize
    ensures { result ≡ named_count (plan_of query.now (T.home turns.now).options) }
{
    let options = turns.options();
    match query.keys_at(options.keypos, options.kind.is_ordered()) {
        Some(keys) => keys.len(),
        None => 0,
    }
}

/// Returns the key with a number among those that a walk with a query visits.
fn named_at<'q, A: Allocator, T: TryTurns<A>>(
    turns: &T,
    query: &'q Query<A>,
    number: usize,
) -> &'q Term<A>
    requires { number < named_count (plan_of query.now (T.home turns.now).options) }
    ensures { result.now ≡ named_at (plan_of query.now (T.home turns.now).options) number }
{
    let options = turns.options();
    match query.keys_at(options.keypos, options.kind.is_ordered()) {
        Some(keys) => &keys[number],
        None => unreachable!(),
    }
}

/// Returns the position where a walk with a query begins: at the first named key, if keys are named, else at the first
/// part.
pub fn start<A: Allocator, T: TryTurns<A>>(turns: &T, query: &Query<A>) -> Position<A>
    ensures at { position_of result
        ≡ start_by (plan_of query.now (T.home turns.now).options) 0 (T.home turns.now).options.parts }
    ensures within { IsWithin (T.home turns.now).options query.now result }
{
    let options = turns.options();
    match query.keys_at(options.keypos, options.kind.is_ordered()) {
        Some(keys) => at_key(0, keys.len()),
        None => at_part(0, options.parts),
    }
}

/// Returns the part of the next visit of a walk, and what the visit looks at. The walk must not be at its end.
pub(crate) fn next_visit<'q, A: Allocator, T: TryTurns<A>>(
    turns: &T,
    query: &'q Query<A>,
    at: &'q Position<A>,
) -> (u8, Scope<'q, A>)
    requires ready { T.is_ready turns.now }
    requires within { IsWithin (T.home turns.now).options query.now at.now }
    requires more { position_of at.now ≢ Over }
    ensures part { (purpose : Purpose)
        → result.0 ≡ part_at (walk_of (T.home turns.now) purpose query.now) (position_of at.now) }
    ensures scope { (purpose : Purpose) → scope_of result.1
        ≡ scope_at (walk_of (T.home turns.now) purpose query.now) (position_of at.now) }
    ensures inside { result.0 < (T.home turns.now).options.parts }
{
    match at {
        Position::InPart(part, cursor) => return (*part, scope_from(cursor)),
        Position::AtNamed(number) => {
            let key = named_at(turns, query, *number);
            return (part_of_key(key, turns.options().parts), Scope::Named(key));
        }
        Position::Over => unreachable!(),
    }
}

/// Returns the position after the visit at a position; `next` is the cursor that the visit returned.
fn after_visit<A: Allocator, T: TryTurns<A>>(
    turns: &T,
    query: &Query<A>,
    at: &Position<A>,
    next: Option<Cursor<A>>,
) -> Position<A>
    requires { IsWithin (T.home turns.now).options query.now at.now }
    ensures at { (purpose : Purpose) → position_of result ≡ next_position
        (walk_of (T.home turns.now) purpose query.now) (position_of at.now) (option_map cursor_of next) }
    ensures within { IsWithin (T.home turns.now).options query.now result }
{
    match at {
        Position::InPart(part, _) => behind(*part, next, turns.options().parts),
        Position::AtNamed(number) => after_key(*number, named_count(turns, query)),
        Position::Over => Position::Over,
    }
}

/// Moves the position on after a visit that returned the cursor `next`.
pub(crate) fn move_on<A: Allocator, T: TryTurns<A>>(
    turns: &T,
    query: &Query<A>,
    at: &mut Position<A>,
    next: Option<Cursor<A>>,
)
    requires { IsWithin (T.home turns.now).options query.now at.old }
    ensures at { (purpose : Purpose) → position_of at.new ≡ next_position
        (walk_of (T.home turns.now) purpose query.now) (position_of at.old) (option_map cursor_of next) }
    ensures within { IsWithin (T.home turns.now).options query.now at.new }
{
    *at = after_visit(turns, query, at, next);
}
