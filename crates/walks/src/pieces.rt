//! Walks in pieces.
ghost use Rattle.std.specs.Prelude.{ℕ, ◌≡◌, ◌≢◌, ◌<◌, ◌++◌, [], IfOk, IfErr, IsErrAnd, IsErrOf, IsTrue, MatchBool, length};
ghost use Rattle.part_core.specs.Acts.Purpose.{Answers};
ghost use Rattle.tables.specs.Turns.{Follows};
ghost use Rattle.walk_core.specs.Positions.{position_of};
ghost use Rattle.walk_core.specs.Walk.{start_of};
ghost use Rattle.walks.specs.Asked.{GoesUpTo, IsForeign, StopsSelecting, StopsUpTo};
ghost use Rattle.walks.specs.Query.{IsWithin, kept_of, walk_of};
ghost use Rattle.walks.specs.Pieces.{IsOwn, IsPiece, IsWalkOf, IsStepOf, Steps, Begins, Continues, Keeps};

use crate::continuation::{Continuation, Step};
use crate::fault::WalkFault;
use crate::kept::Kept;
use crate::position::{named_count, start};
use crate::visit::visit_up_to;
use part_core::Fault;
use std::alloc::Allocator;
use tables::TryTurns;
use term_core::{Refused, Term};
use walk_core::Position;
use walk_query::Query;

/// Converts the fault of a visit: `Memory` stays, and any other means that the walk was begun at another table.
fn fault_of(fault: Fault) -> WalkFault
    ensures scarce { (fault ≡ Fault.Memory) → result ≡ WalkFault.Memory }
    ensures other { (fault ≢ Fault.Memory) → result ≡ WalkFault.StrangerContinuation }
{
    match fault {
        Fault::Memory => WalkFault::Memory,
        Fault::TooSmall
        | Fault::FixLimit
        | Fault::NotFixed
        | Fault::BadKey
        | Fault::CursorOutside => WalkFault::StrangerContinuation,
    }
}

/// Returns the piece with the walk to continue, or the end with the query if the piece has no answer.
fn step_of<A: Allocator>(walk: Continuation<A>, piece: Vec<Term<A>, A>) -> Step<A>
    ensures { IsStepOf walk piece.items result }
{
    if piece.is_empty() {
        Step::End(walk.query)
    } else {
        Step::Piece(piece, walk)
    }
}

/// Makes visits until there are `limit` answers, or the walk is at its end, and returns at most `limit` answers. Fails
/// if an allocation fails, or with `StrangerContinuation` if the walk can't be at its position here. `at` and `kept`
/// are then those up to the failure.
pub(crate) fn next_piece<A: Allocator + Copy, T: TryTurns<A>>(
    alloc: A,
    turns: &mut T,
    query: &Query<A>,
    limit: u64,
    at: &mut Position<A>,
    kept: &mut Kept<A>,
) -> Result<Vec<Term<A>, A>, WalkFault>
    requires ready { T.is_ready turns.old }
    requires within { IsWithin (T.home turns.old).options query.now at.old }
    ensures ready { T.is_ready turns.new }
    ensures same { T.home turns.new ≡ T.home turns.old }
    ensures done { IfOk result (λ piece. Follows (T.sees turns.old) (T.sees turns.new)
        (GoesUpTo (T.home turns.old) query.now limit
        (position_of at.old) (kept_of kept.old) (position_of at.new) (piece.items ++ kept_of kept.new))) }
    ensures piece { IfOk result (λ piece. IsPiece limit piece.items (position_of at.new) (kept_of kept.new)) }
    ensures stopped { IfErr result (λ fault. (fault ≡ WalkFault.Memory) → Follows (T.sees turns.old) (T.sees turns.new)
        (StopsUpTo (T.home turns.old) query.now limit
        (position_of at.old) (kept_of kept.old) (position_of at.new) (kept_of kept.new))) }
    ensures foreign { IfErr result (λ fault. (fault ≢ WalkFault.Memory) → (fault ≡ WalkFault.StrangerContinuation)
        × IsForeign (T.home turns.old) Answers query.now (T.sees turns.old) (position_of at.old)) }
{
    if let Err(fault) = visit_up_to(turns, query, limit, at, kept) {
        return Err(fault_of(fault));
    }
    match kept.piece(alloc, limit) {
        Ok(piece) => Ok(piece),
        Err(_) => Err(WalkFault::Memory),
    }
}

/// Makes visits until a piece can be returned, or the walk is at its end. An error hands the walk back, with the visits
/// that were made and what they found.
fn go_on<A: Allocator + Copy, T: TryTurns<A>>(
    alloc: A,
    turns: &mut T,
    walk: Continuation<A>,
) -> Result<Step<A>, Refused<Continuation<A>, WalkFault>>
    requires ready { T.is_ready turns.old }
    requires own { IsOwn (T.home turns.old) walk }
    requires within { IsWithin (T.home turns.old).options walk.query walk.at }
    ensures ready { T.is_ready turns.new }
    ensures same { T.home turns.new ≡ T.home turns.old }
    ensures done { IfOk result (λ step. Follows (T.sees turns.old) (T.sees turns.new)
        (Steps (T.home turns.old) walk.query walk.limit (position_of walk.at) (kept_of walk.kept) step)) }
    ensures stopped { IfErr result (λ refused. (refused.fault ≡ WalkFault.Memory) → Follows (T.sees turns.old) (T.sees turns.new)
        (StopsUpTo (T.home turns.old) walk.query walk.limit (position_of walk.at) (kept_of walk.kept)
        (position_of refused.value.at) (kept_of refused.value.kept))) }
    ensures foreign { IfErr result (λ refused. (refused.fault ≢ WalkFault.Memory) → (refused.fault ≡ WalkFault.StrangerContinuation)
        × IsForeign (T.home turns.old) Answers walk.query (T.sees turns.old) (position_of walk.at)) }
    ensures back { IfErr result (λ refused. IsWalkOf (T.home turns.old) walk.query walk.limit refused.value) }
{
    let Continuation {
        query,
        table,
        session,
        limit,
        mut at,
        mut kept,
    } = walk;
    let piece = next_piece(alloc, turns, &query, limit, &mut at, &mut kept);
    let walk = Continuation {
        query,
        table,
        session,
        limit,
        at,
        kept,
    };
    match piece {
        Ok(piece) => Ok(step_of(walk, piece)),
        Err(fault) => Err(Refused { value: walk, fault }),
    }
}

/// Returns the error with the query of the walk.
fn query_refused<A: Allocator>(
    refused: Refused<Continuation<A>, WalkFault>,
) -> Refused<Query<A>, WalkFault>
    ensures { (result.value ≡ refused.value.query) × (result.fault ≡ refused.fault) }
{
    let Refused { value: walk, fault } = refused;
    Refused {
        value: walk.query,
        fault,
    }
}

/// Returns whether a walk was begun at the table with this name, by the session with this number.
fn is_own<A: Allocator>(walk: &Continuation<A>, table: u64, session: u8) -> bool
    ensures { MatchBool result ((walk.now.table ≡ table) × (walk.now.session ≡ session))
        (¬ ((walk.now.table ≡ table) × (walk.now.session ≡ session))) }
{
    walk.table == table && walk.session == session
}

/// Returns a walk in pieces of at most `limit` answers each at its beginning, with no visit made yet, which `select_next`
/// continues. The limit must be at least 1. It is for sessions whose turns may be put off: what `select_next` finds before
/// a visit that is put off is kept in the walk, where `select_first` forgets it.
pub fn walk_begun<A: Allocator + Copy, T: TryTurns<A>>(
    alloc: A,
    turns: &T,
    query: Query<A>,
    limit: u64,
) -> Continuation<A>
    requires some { 0 < limit }
    ensures walk { IsWalkOf (T.home turns.now) query limit result }
    ensures start { position_of result.at ≡ start_of (walk_of (T.home turns.now) Answers query) }
    ensures within { IsWithin (T.home turns.now).options result.query result.at }
    ensures none { kept_of result.kept ≡ [] }
{
    let at = start(turns, &query);
    Continuation {
        query,
        table: turns.options().name,
        session: turns.number(),
        limit,
        at,
        kept: Kept::new(alloc),
    }
}

/// Begins a walk in pieces of at most `limit` answers each. The limit must be at least 1: for callers that have checked
/// it, unlike `select_limit`. If an allocation fails, the error hands the query back.
pub fn select_first<A: Allocator + Copy, T: TryTurns<A>>(
    alloc: A,
    turns: &mut T,
    query: Query<A>,
    limit: u64,
) -> Result<Step<A>, Refused<Query<A>, WalkFault>>
    requires ready { T.is_ready turns.old }
    requires some { 0 < limit }
    ensures ready { T.is_ready turns.new }
    ensures same { T.home turns.new ≡ T.home turns.old }
    ensures done { IfOk result (λ step. Follows (T.sees turns.old) (T.sees turns.new)
        (Begins (T.home turns.old) query limit step)) }
    ensures refused { IfErr result (λ refused. (refused.fault ≡ WalkFault.Memory)
        × Follows (T.sees turns.old) (T.sees turns.new) (StopsSelecting (T.home turns.old) query limit)) }
    ensures back { IfErr result (λ refused. refused.value ≡ query) }
{
    let walk = walk_begun(alloc, turns, query, limit);
    match go_on(alloc, turns, walk) {
        Ok(step) => Ok(step),
        Err(refused) => Err(query_refused(refused)),
    }
}

/// Begins a walk in pieces of at most `limit` answers each (ets:select/3). A limit of 0 is rejected with `BadLimit`
/// before any turn. Also fails if an allocation fails. The error hands the query back.
pub fn select_limit<A: Allocator + Copy, T: TryTurns<A>>(
    alloc: A,
    turns: &mut T,
    query: Query<A>,
    limit: u64,
) -> Result<Step<A>, Refused<Query<A>, WalkFault>>
    requires { T.is_ready turns.old }
    ensures ready { T.is_ready turns.new }
    ensures same { T.home turns.new ≡ T.home turns.old }
    ensures done { IfOk result (λ step. Follows (T.sees turns.old) (T.sees turns.new)
        (Begins (T.home turns.old) query limit step)) }
    ensures limited { (limit ≡ 0) → IsErrAnd result (λ refused. refused.fault ≡ WalkFault.BadLimit)
        × Follows (T.sees turns.old) (T.sees turns.new) (λ v w. w ≡ v) }
    ensures refused { IfErr result (λ refused. (0 < limit) → (refused.fault ≡ WalkFault.Memory)
        × Follows (T.sees turns.old) (T.sees turns.new) (StopsSelecting (T.home turns.old) query limit)) }
    ensures back { IfErr result (λ refused. refused.value ≡ query) }
{
    if limit == 0 {
        return Err(Refused {
            value: query,
            fault: WalkFault::BadLimit,
        });
    }
    select_first(alloc, turns, query, limit)
}

/// Continues a walk in pieces that was begun by this session at this table: for callers that know this, unlike
/// `select_more`. Fails if an allocation fails, or if the walk can't be at its position here. The error hands the walk
/// back, with the visits that were made and what they found.
pub fn select_next<A: Allocator + Copy, T: TryTurns<A>>(
    alloc: A,
    turns: &mut T,
    walk: Continuation<A>,
) -> Result<Step<A>, Refused<Continuation<A>, WalkFault>>
    requires ready { T.is_ready turns.old }
    requires own { IsOwn (T.home turns.old) walk }
    ensures ready { T.is_ready turns.new }
    ensures same { T.home turns.new ≡ T.home turns.old }
    ensures done { IfOk result (λ step. Follows (T.sees turns.old) (T.sees turns.new)
        (Continues (T.home turns.old) walk step)) }
    ensures kept { IfErr result (λ refused. (refused.fault ≡ WalkFault.Memory)
        → Follows (T.sees turns.old) (T.sees turns.new) (Keeps (T.home turns.old) walk refused.value)) }
    ensures foreign { IfErr result (λ refused. (refused.fault ≢ WalkFault.Memory)
        → (refused.fault ≡ WalkFault.StrangerContinuation)
        × IsForeign (T.home turns.old) Answers walk.query (T.sees turns.old) (position_of walk.at)) }
{
    let options = turns.options();
    let count = named_count(turns, &walk.query);
    if !walk.at.is_there(options.parts, count) {
        return Err(Refused {
            value: walk,
            fault: WalkFault::StrangerContinuation,
        });
    }
    go_on(alloc, turns, walk)
}

/// Continues a walk in pieces (ets:select/1). A walk of another table or session is rejected with
/// `StrangerContinuation` before any turn. Also fails if an allocation fails. The error hands the walk back, with the
/// visits that were made and what they found.
pub fn select_more<A: Allocator + Copy, T: TryTurns<A>>(
    alloc: A,
    turns: &mut T,
    walk: Continuation<A>,
) -> Result<Step<A>, Refused<Continuation<A>, WalkFault>>
    requires { T.is_ready turns.old }
    ensures ready { T.is_ready turns.new }
    ensures same { T.home turns.new ≡ T.home turns.old }
    ensures done { IfOk result (λ step. Follows (T.sees turns.old) (T.sees turns.new)
        (Continues (T.home turns.old) walk step)) }
    ensures stranger { ¬ (IsOwn (T.home turns.old) walk)
        → IsErrAnd result (λ refused. (refused.fault ≡ WalkFault.StrangerContinuation) × (refused.value ≡ walk))
        × Follows (T.sees turns.old) (T.sees turns.new) (λ v w. w ≡ v) }
    ensures kept { IfErr result (λ refused. (refused.fault ≡ WalkFault.Memory)
        → Follows (T.sees turns.old) (T.sees turns.new) (Keeps (T.home turns.old) walk refused.value)) }
    ensures foreign { IfErr result (λ refused. (refused.fault ≢ WalkFault.Memory)
        → (refused.fault ≡ WalkFault.StrangerContinuation)
        × (IsOwn (T.home turns.old) walk
        → IsForeign (T.home turns.old) Answers walk.query (T.sees turns.old) (position_of walk.at))) }
{
    if !is_own(&walk, turns.options().name, turns.number()) {
        return Err(Refused {
            value: walk,
            fault: WalkFault::StrangerContinuation,
        });
    }
    select_next(alloc, turns, walk)
}
