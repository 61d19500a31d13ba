//! Walks that count, and walks that delete.
ghost use Rattle.std.specs.Prelude.{ℕ, ◌≡◌, ◌≢◌, ◌+◌, ◌<◌, [], ◌++◌, List, Some, None, IsTrue, IfOk, IfErr, IsErrOf, option_map, length, min};
ghost use Rattle.term_core.specs.Datum.{Datum};
ghost use Rattle.part_core.specs.Acts.Act.{Visit};
ghost use Rattle.part_core.specs.Acts.Answer.{Replied, Refused};
ghost use Rattle.part_core.specs.Acts.Said.{Counted};
ghost use Rattle.part_core.specs.Ops.{cursor_of, refusal_of, said_of, scope_of};
ghost use Rattle.part_core.specs.Replies.{most_counted};
ghost use Rattle.tables.specs.Turns.{Turned, Follows};
ghost use Rattle.walk_core.specs.Walk.Position.{Over};
ghost use Rattle.walk_core.specs.Counting.{purpose_of};
ghost use Rattle.walks.specs.Asked.{IsForeign, IsRefusedThere, StopsTallying, TalliesOnce, TalliesTo};
ghost use Rattle.walk_core.specs.Positions.{position_of};
ghost use Rattle.walks.specs.Query.{IsWithin};
ghost use Rattle.walks.specs.Visits.{is_counted};

use crate::position::{move_on, next_visit};
use part_core::{Cursor, Fault, Reply, Scope};
use std::alloc::Allocator;
use tables::{TryTurns, turn_at};
use verifier::Verified;
use walk_core::{Counting, Position, count_op};
use walk_query::Query;

/// Returns the number of a reply that counts, and where the walk goes on.
fn counted<A: Allocator>(reply: Reply<A>) -> (u64, Option<Cursor<A>>)
    requires { IsTrue (is_counted (Replied (said_of reply))) }
    ensures { said_of reply ≡ Counted result.0 (option_map cursor_of result.1) }
{
    match reply {
        Reply::Counted(count, next) => (count, next),
        Reply::Done | Reply::Flag(_) | Reply::Objects(_) | Reply::AtKey(_) | Reply::Found(..) =>
            unreachable!(),
    }
}

/// Makes a visit that counts or deletes at a part. Returns the number, and where the walk goes on. Fails if the cursor
/// isn't the part's or an allocation fails.
fn count_at<A: Allocator, T: TryTurns<A>>(
    turns: &mut T,
    counting: Counting,
    part: u8,
    code: &Verified<A>,
    scope: Scope<'_, A>,
) -> Result<(u64, Option<Cursor<A>>), Fault>
    requires ready { T.is_ready turns.old }
    requires part { part < (T.home turns.old).options.parts }
    ensures ready { T.is_ready turns.new }
    ensures same { T.home turns.new ≡ T.home turns.old }
    ensures done { IfOk result (λ found. Follows (T.sees turns.old) (T.sees turns.new)
        (Turned (T.home turns.old) part
        (Visit (purpose_of counting) code.now (scope_of scope.entry) most_counted)
        (Some (Replied (Counted found.0 (option_map cursor_of found.1)))))) }
    ensures refused { IfErr result (λ fault. Follows (T.sees turns.old) (T.sees turns.new)
        (Turned (T.home turns.old) part
        (Visit (purpose_of counting) code.now (scope_of scope.entry) most_counted)
        (option_map Refused (refusal_of fault)))) }
{
    let reply = turn_at(turns, part, count_op(counting, code, scope))?;
    Ok(counted(reply))
}

/// Makes the next visit of a walk that counts or deletes, and returns the number. If it fails, the position is
/// unchanged.
fn count_next<A: Allocator, T: TryTurns<A>>(
    turns: &mut T,
    query: &Query<A>,
    counting: Counting,
    at: &mut Position<A>,
) -> Result<u64, Fault>
    requires ready { T.is_ready turns.old }
    requires within { IsWithin (T.home turns.old).options query.now at.old }
    requires more { position_of at.old ≢ Over }
    ensures ready { T.is_ready turns.new }
    ensures same { T.home turns.new ≡ T.home turns.old }
    ensures within { IsWithin (T.home turns.old).options query.now at.new }
    ensures done { IfOk result (λ count. Follows (T.sees turns.old) (T.sees turns.new)
        (TalliesOnce (T.home turns.old) (purpose_of counting) query.now
        (position_of at.old) (position_of at.new) count)) }
    ensures refused { IfErr result (λ fault. Follows (T.sees turns.old) (T.sees turns.new)
        (IsRefusedThere (T.home turns.old) (purpose_of counting) query.now (position_of at.old) most_counted fault)) }
    ensures back { IfErr result (λ _. at.new ≡ at.old) }
{
    let (part, scope) = next_visit(turns, query, at);
    let (count, next) = count_at(turns, counting, part, &query.code, scope)?;
    move_on(turns, query, at, next);
    Ok(count)
}

/// Returns the sum of two counts, at most 2^64 - 1.
fn capped_sum(total: u64, count: u64) -> u64
    ensures { result ≡ min (total + count) most_counted }
{
    total.saturating_add(count)
}

/// Makes visits from the walk's position to its end, and adds what they count to `total`, which is 0 before. If a visit
/// fails or is put off, `at` and `total` are those up to then, and a further call goes on from there: by the law
/// `counts_stop` the numbers of the calls add up to that of one walk. Fails with `Memory` also after 2^64 - 1 visits.
pub fn count_on<A: Allocator, T: TryTurns<A>>(
    turns: &mut T,
    query: &Query<A>,
    counting: Counting,
    at: &mut Position<A>,
    total: &mut u64,
) -> Result<(), Fault>
    requires ready { T.is_ready turns.old }
    requires within { IsWithin (T.home turns.old).options query.now at.old }
    requires none { total.old ≡ 0 }
    ensures ready { T.is_ready turns.new }
    ensures same { T.home turns.new ≡ T.home turns.old }
    ensures done { IfOk result (λ _. (position_of at.new ≡ Over) × Follows (T.sees turns.old) (T.sees turns.new)
        (TalliesTo (T.home turns.old) (purpose_of counting) query.now
        (position_of at.old) (position_of at.new) total.new)) }
    ensures stopped { IsErrOf result Fault.Memory → Follows (T.sees turns.old) (T.sees turns.new)
        (StopsTallying (T.home turns.old) (purpose_of counting) query.now
        (position_of at.old) (position_of at.new) total.new) }
    ensures foreign { IfErr result (λ fault. fault ≢ Fault.Memory
        → IsForeign (T.home turns.old) (purpose_of counting) query.now (T.sees turns.old) (position_of at.old)) }
{
    for _visit in 0..u64::MAX {
        if at.is_over() {
            return Ok(());
        }
        let count = count_next(turns, query, counting, at)?;
        *total = capped_sum(*total, count);
    }
    Err(Fault::Memory)
}
