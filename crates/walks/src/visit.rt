//! Visits of a walk: each one turn at a part.
ghost use Rattle.std.specs.Prelude.{◌≡◌, ◌≢◌, ◌<◌, ◌⊎◌, ◌≤◌, ℕ, [], ◌++◌, Some, None, IsTrue, IfOk, IfErr, IsErrOf, option_map, length};
ghost use Rattle.part_core.specs.Acts.Act.{Visit};
ghost use Rattle.part_core.specs.Acts.Answer.{Replied, Refused};
ghost use Rattle.part_core.specs.Acts.Purpose.{Answers};
ghost use Rattle.part_core.specs.Acts.Said.{Found};
ghost use Rattle.part_core.specs.Ops.{cursor_of, refusal_of, said_of, scope_of};
ghost use Rattle.tables.specs.Turns.{Turned, Follows};
ghost use Rattle.walk_core.specs.Goes.{way, Visits};
ghost use Rattle.walk_core.specs.Walk.Position.{Over};
ghost use Rattle.walk_core.specs.Positions.{position_of};
ghost use Rattle.walks.specs.Asked.{GoesUpTo, IsForeign, IsRefusedThere, StopsUpTo};
ghost use Rattle.walks.specs.Query.{IsWithin, kept_of, walk_of};
ghost use Rattle.walks.specs.Visits.{is_found};

use crate::kept::Kept;
use crate::position::{move_on, next_visit};
use part_core::{Cursor, Fault, Look, PartOp, Reply, Scope};
use std::alloc::Allocator;
use tables::{TryTurns, turn_at};
use term_core::Term;
use verifier::Verified;
use walk_core::Position;
use walk_query::Query;

/// Returns the answers of a reply that found some, and where the walk goes on.
fn found<A: Allocator>(reply: Reply<A>) -> (Vec<Term<A>, A>, Option<Cursor<A>>)
    requires { IsTrue (is_found (Replied (said_of reply))) }
    ensures { said_of reply ≡ Found result.0.items (option_map cursor_of result.1) }
{
    match reply {
        Reply::Found(answers, next) => (answers, next),
        Reply::Done | Reply::Flag(_) | Reply::Objects(_) | Reply::AtKey(_) | Reply::Counted(..) =>
            unreachable!(),
    }
}

/// Makes a visit at a part, with a target of `wanted` answers. Returns the answers, and where the walk goes on. Fails
/// if the cursor isn't the part's or an allocation fails.
fn visit_at<A: Allocator, T: TryTurns<A>>(
    turns: &mut T,
    part: u8,
    code: &Verified<A>,
    scope: Scope<'_, A>,
    wanted: u64,
) -> Result<(Vec<Term<A>, A>, Option<Cursor<A>>), Fault>
    requires ready { T.is_ready turns.old }
    requires part { part < (T.home turns.old).options.parts }
    requires wanted { 0 < wanted }
    ensures ready { T.is_ready turns.new }
    ensures same { T.home turns.new ≡ T.home turns.old }
    ensures done { IfOk result (λ found. Follows (T.sees turns.old) (T.sees turns.new)
        (Turned (T.home turns.old) part (Visit Answers code.now (scope_of scope.entry) wanted)
        (Some (Replied (Found found.0.items (option_map cursor_of found.1)))))) }
    ensures refused { IfErr result (λ fault. Follows (T.sees turns.old) (T.sees turns.new)
        (Turned (T.home turns.old) part (Visit Answers code.now (scope_of scope.entry) wanted)
        (option_map Refused (refusal_of fault)))) }
{
    let look = Look {
        code,
        scope,
        wanted,
    };
    let reply = turn_at(turns, part, PartOp::Visit(look))?;
    Ok(found(reply))
}

/// Makes the next visit of a walk, with a target of `wanted` answers, and keeps what it finds. If it fails, `at` and
/// `kept` are unchanged.
pub(crate) fn visit_next<A: Allocator, T: TryTurns<A>>(
    turns: &mut T,
    query: &Query<A>,
    wanted: u64,
    at: &mut Position<A>,
    kept: &mut Kept<A>,
) -> Result<(), Fault>
    requires ready { T.is_ready turns.old }
    requires within { IsWithin (T.home turns.old).options query.now at.old }
    requires more { position_of at.old ≢ Over }
    requires settled { kept.old.last.items ≡ [] }
    requires wanted { 0 < wanted }
    ensures ready { T.is_ready turns.new }
    ensures same { T.home turns.new ≡ T.home turns.old }
    ensures within { IsWithin (T.home turns.old).options query.now at.new }
    ensures done { IfOk result (λ _. (by_count : ℕ → ℕ) → wanted ≡ by_count (length (kept_of kept.old))
        → Follows (T.sees turns.old) (T.sees turns.new)
        (λ v w. Visits (T.home turns.old) (walk_of (T.home turns.old) Answers query.now) by_count
        (way v (position_of at.old) (kept_of kept.old)) (way w (position_of at.new) (kept_of kept.new)))) }
    ensures refused { IfErr result (λ fault. Follows (T.sees turns.old) (T.sees turns.new)
        (IsRefusedThere (T.home turns.old) Answers query.now (position_of at.old) wanted fault)) }
    ensures back { IfErr result (λ _. (at.new ≡ at.old) × (kept.new ≡ kept.old)) }
{
    let (part, scope) = next_visit(turns, query, at);
    let (answers, next) = visit_at(turns, part, &query.code, scope, wanted)?;
    kept.hold(answers);
    move_on(turns, query, at, next);
    Ok(())
}

/// Makes visits until there are `limit` answers, or the walk is at its end. If a visit fails, `at` and `kept` are those
/// up to then. Fails with `Memory` also after 2^64 - 1 visits.
pub(crate) fn visit_up_to<A: Allocator, T: TryTurns<A>>(
    turns: &mut T,
    query: &Query<A>,
    limit: u64,
    at: &mut Position<A>,
    kept: &mut Kept<A>,
) -> Result<(), Fault>
    requires ready { T.is_ready turns.old }
    requires within { IsWithin (T.home turns.old).options query.now at.old }
    ensures ready { T.is_ready turns.new }
    ensures same { T.home turns.new ≡ T.home turns.old }
    ensures enough { IfOk result (λ _. (kept.new.last.items ≡ [])
        × ((limit ≤ length (kept_of kept.new)) ⊎ (position_of at.new ≡ Over))) }
    ensures done { IfOk result (λ _. Follows (T.sees turns.old) (T.sees turns.new)
        (GoesUpTo (T.home turns.old) query.now limit
        (position_of at.old) (kept_of kept.old) (position_of at.new) (kept_of kept.new))) }
    ensures stopped { IsErrOf result Fault.Memory → Follows (T.sees turns.old) (T.sees turns.new)
        (StopsUpTo (T.home turns.old) query.now limit
        (position_of at.old) (kept_of kept.old) (position_of at.new) (kept_of kept.new)) }
    ensures foreign { IfErr result (λ fault. fault ≢ Fault.Memory
        → IsForeign (T.home turns.old) Answers query.now (T.sees turns.old) (position_of at.old)) }
{
    for _visit in 0..u64::MAX {
        kept.settle()?;
        let found = kept.len();
        if limit <= found {
            return Ok(());
        }
        if at.is_over() {
            return Ok(());
        }
        visit_next(turns, query, limit - found, at, kept)?;
    }
    Err(Fault::Memory)
}
