//! Visits of a walk through one part.
ghost use Rattle.std.specs.Prelude.{ℕ, ◌≡◌, ◌<◌, Some, None, Option, IfOk, IfErr, is_some, option_map};
ghost use Rattle.part_core.specs.Acts as cursor;
ghost use Rattle.part_core.specs.Acts.Scope.{Named};
ghost use Rattle.part_core.specs.Ops.{cursor_of, scope_of};
ghost use Rattle.tables.specs.Turns.{Views, Follows};
ghost use Rattle.walk_core.specs.Walk.{scope_from, start_of};
ghost use Rattle.walk_core.specs.Walk.Position.{Over};
ghost use Rattle.walks.specs.Query.{plan_of};
ghost use Rattle.parallel_select.specs.Gained.{IsFor, purpose_of};
ghost use Rattle.parallel_select.specs.Parts.{part_walk, Visited, Missed, GoesGaining, StopsGaining};

use crate::gained::{Asking, Gained, visit_op};
use part_core::{Cursor, Fault, Scope};
use std::alloc::{AllocError, Allocator};
use tables::{Turns, part_of_key, turn_at};
use term_core::Term;
use walk_core::scope_from;
use walks::Query;

/// Makes one visit, and adds what it returned to `gained`. Returns where the walk goes on. Fails if the visit is
/// refused or an allocation fails.
fn visit<A: Allocator, T: Turns<A>>(
    turns: &mut T,
    query: &Query<A>,
    asking: Asking,
    part: u8,
    scope: Scope<'_, A>,
    gained: &mut Gained<A>,
) -> Result<Option<Cursor<A>>, Fault>
    requires ready { T.is_ready turns.old }
    requires part { part < (T.home turns.old).options.parts }
    requires purpose { IsFor asking gained.old }
    ensures ready { T.is_ready turns.new }
    ensures same { T.home turns.new ≡ T.home turns.old }
    ensures purpose { IsFor asking gained.new }
    ensures done { IfOk result (λ next. Follows (T.sees turns.old) (T.sees turns.new)
        (Visited (T.home turns.old) part (purpose_of asking) query.now.code (scope_of scope.entry) (option_map cursor_of next) gained.old gained.new)) }
    ensures refused { IfErr result (λ fault. Follows (T.sees turns.old) (T.sees turns.new)
        (Missed (T.home turns.old) part (purpose_of asking) query.now.code (scope_of scope.entry) fault gained.old gained.new)) }
{
    let reply = turn_at(turns, part, visit_op(asking, &query.code, scope))?;
    match gained.take_in(reply) {
        Ok(next) => Ok(next),
        Err(_) => Err(Fault::Memory),
    }
}

/// Moves a walk on, and returns whether it goes on in the part.
fn move_on<A: Allocator>(cursor: &mut Option<Cursor<A>>, next: Option<Cursor<A>>) -> bool
    ensures at { cursor.new ≡ next }
    ensures more { result ≡ is_some next }
{
    let more = next.is_some();
    *cursor = next;
    more
}

/// Makes the next visit of a walk through a part, and returns whether the walk goes on in the part. Fails if the visit
/// is refused or an allocation fails.
fn visit_from<A: Allocator, T: Turns<A>>(
    turns: &mut T,
    query: &Query<A>,
    asking: Asking,
    part: u8,
    cursor: &mut Option<Cursor<A>>,
    gained: &mut Gained<A>,
) -> Result<bool, Fault>
    requires ready { T.is_ready turns.old }
    requires part { part < (T.home turns.old).options.parts }
    requires purpose { IsFor asking gained.old }
    ensures ready { T.is_ready turns.new }
    ensures same { T.home turns.new ≡ T.home turns.old }
    ensures purpose { IsFor asking gained.new }
    ensures more { IfOk result (λ more. more ≡ is_some cursor.new) }
    ensures done { IfOk result (λ _. Follows (T.sees turns.old) (T.sees turns.new)
        (Visited (T.home turns.old) part (purpose_of asking) query.now.code (scope_from (option_map cursor_of cursor.old)) (option_map cursor_of cursor.new) gained.old gained.new)) }
    ensures refused { IfErr result (λ fault. Follows (T.sees turns.old) (T.sees turns.new)
        (Missed (T.home turns.old) part (purpose_of asking) query.now.code (scope_from (option_map cursor_of cursor.old)) fault gained.old gained.new)) }
{
    let next = visit(turns, query, asking, part, scope_from(cursor), gained)?;
    Ok(move_on(cursor, next))
}

/// Makes the visits that are left of a walk through a part. Fails if an allocation fails.
fn visit_rest<A: Allocator, T: Turns<A>>(
    turns: &mut T,
    query: &Query<A>,
    asking: Asking,
    part: u8,
    cursor: &mut Option<Cursor<A>>,
    gained: &mut Gained<A>,
) -> Result<(), AllocError>
    requires ready { T.is_ready turns.old }
    requires part { part < (T.home turns.old).options.parts }
    requires unnamed { plan_of query.now (T.home turns.old).options ≡ None }
    requires begins { cursor.old ≡ None }
    requires purpose { IsFor asking gained.old }
    ensures ready { T.is_ready turns.new }
    ensures same { T.home turns.new ≡ T.home turns.old }
    ensures purpose { IsFor asking gained.new }
    ensures done { IfOk result (λ _. Follows (T.sees turns.old) (T.sees turns.new)
        (GoesGaining (T.home turns.old) (part_walk (T.home turns.old) (purpose_of asking) query.now part)
        (start_of (part_walk (T.home turns.old) (purpose_of asking) query.now part)) Over gained.old gained.new)) }
    ensures refused { IfErr result (λ _. Follows (T.sees turns.old) (T.sees turns.new)
        (StopsGaining (T.home turns.old) (part_walk (T.home turns.old) (purpose_of asking) query.now part)
        (start_of (part_walk (T.home turns.old) (purpose_of asking) query.now part)) gained.old gained.new)) }
{
    for _visit in 0..u64::MAX {
        match visit_from(turns, query, asking, part, cursor, gained) {
            Ok(true) => (),
            Ok(false) => return Ok(()),
            Err(_) => return Err(AllocError),
        }
    }
    Err(AllocError)
}

/// Makes all visits of a walk through a part. Fails if an allocation fails.
fn visit_all<A: Allocator, T: Turns<A>>(
    turns: &mut T,
    query: &Query<A>,
    asking: Asking,
    part: u8,
    gained: &mut Gained<A>,
) -> Result<(), AllocError>
    requires ready { T.is_ready turns.old }
    requires part { part < (T.home turns.old).options.parts }
    requires unnamed { plan_of query.now (T.home turns.old).options ≡ None }
    requires purpose { IsFor asking gained.old }
    ensures ready { T.is_ready turns.new }
    ensures same { T.home turns.new ≡ T.home turns.old }
    ensures purpose { IsFor asking gained.new }
    ensures done { IfOk result (λ _. Follows (T.sees turns.old) (T.sees turns.new)
        (GoesGaining (T.home turns.old) (part_walk (T.home turns.old) (purpose_of asking) query.now part)
        (start_of (part_walk (T.home turns.old) (purpose_of asking) query.now part)) Over gained.old gained.new)) }
    ensures refused { IfErr result (λ _. Follows (T.sees turns.old) (T.sees turns.new)
        (StopsGaining (T.home turns.old) (part_walk (T.home turns.old) (purpose_of asking) query.now part)
        (start_of (part_walk (T.home turns.old) (purpose_of asking) query.now part)) gained.old gained.new)) }
{
    let mut cursor = None;
    visit_rest(turns, query, asking, part, &mut cursor, gained)
}

/// Makes the visit of one named key. Fails if an allocation fails.
fn visit_key<A: Allocator, T: Turns<A>>(
    turns: &mut T,
    query: &Query<A>,
    asking: Asking,
    part: u8,
    key: &Term<A>,
    gained: &mut Gained<A>,
) -> Result<(), Fault>
    requires ready { T.is_ready turns.old }
    requires part { part < (T.home turns.old).options.parts }
    requires purpose { IsFor asking gained.old }
    ensures ready { T.is_ready turns.new }
    ensures same { T.home turns.new ≡ T.home turns.old }
    ensures purpose { IsFor asking gained.new }
    ensures done { IfOk result (λ _. (next : Option cursor.Cursor) × Follows (T.sees turns.old) (T.sees turns.new)
        (Visited (T.home turns.old) part (purpose_of asking) query.now.code (Named key.now) next gained.old gained.new)) }
    ensures refused { IfErr result (λ fault. Follows (T.sees turns.old) (T.sees turns.new)
        (Missed (T.home turns.old) part (purpose_of asking) query.now.code (Named key.now) fault gained.old gained.new)) }
{
    let next = visit(turns, query, asking, part, Scope::Named(key), gained)?;
    drop(next);
    Ok(())
}

/// Makes the visits of a walk through the named keys of a part. Fails if an allocation fails.
fn visit_keys<A: Allocator, T: Turns<A>>(
    turns: &mut T,
    query: &Query<A>,
    asking: Asking,
    part: u8,
    keys: &[Term<A>],
    gained: &mut Gained<A>,
) -> Result<(), AllocError>
    requires ready { T.is_ready turns.old }
    requires part { part < (T.home turns.old).options.parts }
    requires named { plan_of query.now (T.home turns.old).options ≡ Some keys.now }
    requires purpose { IsFor asking gained.old }
    ensures ready { T.is_ready turns.new }
    ensures same { T.home turns.new ≡ T.home turns.old }
    ensures purpose { IsFor asking gained.new }
    ensures done { IfOk result (λ _. Follows (T.sees turns.old) (T.sees turns.new)
        (GoesGaining (T.home turns.old) (part_walk (T.home turns.old) (purpose_of asking) query.now part)
        (start_of (part_walk (T.home turns.old) (purpose_of asking) query.now part)) Over gained.old gained.new)) }
    ensures refused { IfErr result (λ _. Follows (T.sees turns.old) (T.sees turns.new)
        (StopsGaining (T.home turns.old) (part_walk (T.home turns.old) (purpose_of asking) query.now part)
        (start_of (part_walk (T.home turns.old) (purpose_of asking) query.now part)) gained.old gained.new)) }
{
    let parts = turns.options().parts;
    for number in 0..keys.len() {
        if part_of_key(&keys[number], parts) != part {
            continue;
        }
        match visit_key(turns, query, asking, part, &keys[number], gained) {
            Ok(()) => (),
            Err(_) => return Err(AllocError),
        }
    }
    Ok(())
}

/// Makes the visits of a walk through a part, or through the named keys in this part. Fails if an allocation fails.
pub(crate) fn visit_part<A: Allocator, T: Turns<A>>(
    turns: &mut T,
    query: &Query<A>,
    asking: Asking,
    part: u8,
    gained: &mut Gained<A>,
) -> Result<(), AllocError>
    requires ready { T.is_ready turns.old }
    requires part { part < (T.home turns.old).options.parts }
    requires purpose { IsFor asking gained.old }
    ensures ready { T.is_ready turns.new }
    ensures same { T.home turns.new ≡ T.home turns.old }
    ensures purpose { IsFor asking gained.new }
    ensures done { IfOk result (λ _. Follows (T.sees turns.old) (T.sees turns.new)
        (GoesGaining (T.home turns.old) (part_walk (T.home turns.old) (purpose_of asking) query.now part)
        (start_of (part_walk (T.home turns.old) (purpose_of asking) query.now part)) Over gained.old gained.new)) }
    ensures refused { IfErr result (λ _. Follows (T.sees turns.old) (T.sees turns.new)
        (StopsGaining (T.home turns.old) (part_walk (T.home turns.old) (purpose_of asking) query.now part)
        (start_of (part_walk (T.home turns.old) (purpose_of asking) query.now part)) gained.old gained.new)) }
{
    let options = turns.options();
    match query.keys_at(options.keypos, options.kind.is_ordered()) {
        Some(keys) => visit_keys(turns, query, asking, part, keys, gained),
        None => visit_all(turns, query, asking, part, gained),
    }
}
