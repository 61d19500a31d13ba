//! Whole walks.
ghost use Rattle.std.specs.Prelude.{◌≡◌, [], IfOk, IfErr};
ghost use Rattle.part_core.specs.Acts.Purpose.{Answers, Counts, Deletes};
ghost use Rattle.part_core.specs.Replies.{most_counted};
ghost use Rattle.tables.specs.Turns.{Follows};
ghost use Rattle.walk_core.specs.Goes.{up_to, whole};
ghost use Rattle.walk_core.specs.Walk.{Position, start_of};
ghost use Rattle.walk_core.specs.Walk.Position.{Over};
ghost use Rattle.walk_core.specs.Counting.{purpose_of};
ghost use Rattle.walks.specs.Asked.{GivesUpOn, Selects, StopsSelecting, StopsTallying, StopsUpTo, Tallies, TalliesNoMore};
ghost use Rattle.walks.specs.Query.{walk_of};

use crate::counting::count_on;
use crate::fault::WalkFault;
use crate::kept::Kept;
use crate::own::{fix_own, release_own};
use crate::pieces::next_piece;
use crate::position::start;
use std::alloc::{AllocError, Allocator};
use tables::Turns;
use term_core::{Refused, Term};
use walk_core::Counting;
use walk_query::Query;

/// Returns all answers of a walk. Fails if an allocation fails. Adds no fixes.
fn gather<A: Allocator + Copy, T: Turns<A>>(
    alloc: A,
    turns: &mut T,
    query: &Query<A>,
) -> Result<Vec<Term<A>, A>, WalkFault>
    requires { T.is_ready turns.old }
    ensures ready { T.is_ready turns.new }
    ensures same { T.home turns.new ≡ T.home turns.old }
    ensures done { IfOk result (λ answers. Follows (T.sees turns.old) (T.sees turns.new)
        (StopsUpTo (T.home turns.old) query.now most_counted
        (start_of (walk_of (T.home turns.old) Answers query.now)) [] Over answers.items)) }
    ensures stopped { IfErr result (λ _. Follows (T.sees turns.old) (T.sees turns.new)
        (StopsSelecting (T.home turns.old) query.now most_counted)) }
{
    let mut at = start(turns, query);
    let mut kept = Kept::new(alloc);
    next_piece(alloc, turns, query, u64::MAX, &mut at, &mut kept)
}

/// Returns the answers of a query for the objects of a table (ets:select/2). The parts of a set or bag that the session
/// doesn't fix are fixed first, and released at the end, also if the call fails. Fails if an allocation fails.
pub fn select<A: Allocator + Copy, T: Turns<A>>(
    alloc: A,
    turns: &mut T,
    query: &Query<A>,
) -> Result<Vec<Term<A>, A>, AllocError>
    requires { T.is_ready turns.old }
    ensures ready { T.is_ready turns.new }
    ensures same { T.home turns.new ≡ T.home turns.old }
    ensures done { IfOk result (λ answers. Follows (T.sees turns.old) (T.sees turns.new)
        (Selects (T.home turns.old) query.now answers.items)) }
    ensures refused { IfErr result (λ _. Follows (T.sees turns.old) (T.sees turns.new)
        (GivesUpOn (T.home turns.old) Answers query.now (up_to most_counted))) }
{
    let own = fix_own(turns);
    let answers = gather(alloc, turns, query);
    release_own(turns, &own);
    match answers {
        Ok(answers) => Ok(answers),
        Err(_) => Err(AllocError),
    }
}

/// Makes a whole walk, and returns the number of objects for which the query returns `true`, at most 2^64 - 1. With
/// `Counting::Delete`, also deletes these objects. Adds no fixes. If an allocation fails, the error has the number up
/// to then.
fn tally<A: Allocator, T: Turns<A>>(
    turns: &mut T,
    query: &Query<A>,
    counting: Counting,
) -> Result<u64, Refused<u64, AllocError>>
    requires { T.is_ready turns.old }
    ensures ready { T.is_ready turns.new }
    ensures same { T.home turns.new ≡ T.home turns.old }
    ensures done { IfOk result (λ count. Follows (T.sees turns.old) (T.sees turns.new)
        (StopsTallying (T.home turns.old) (purpose_of counting) query.now
        (start_of (walk_of (T.home turns.old) (purpose_of counting) query.now)) Over count)) }
    ensures stopped { IfErr result (λ refused. Follows (T.sees turns.old) (T.sees turns.new)
        (λ v w. (at : Position) × StopsTallying (T.home turns.old) (purpose_of counting) query.now
        (start_of (walk_of (T.home turns.old) (purpose_of counting) query.now)) at refused.value v w)) }
{
    let mut at = start(turns, query);
    let mut total = 0;
    match count_on(turns, query, counting, &mut at, &mut total) {
        Ok(()) => Ok(total),
        Err(_) => Err(Refused {
            value: total,
            fault: AllocError,
        }),
    }
}

/// Makes a whole walk that counts or deletes. The parts of a set or bag that the session doesn't fix are fixed first,
/// and released at the end, also if the walk fails. If an allocation fails, the error has the number up to then.
fn count_table<A: Allocator, T: Turns<A>>(
    turns: &mut T,
    query: &Query<A>,
    counting: Counting,
) -> Result<u64, Refused<u64, AllocError>>
    requires { T.is_ready turns.old }
    ensures ready { T.is_ready turns.new }
    ensures same { T.home turns.new ≡ T.home turns.old }
    ensures done { IfOk result (λ count. Follows (T.sees turns.old) (T.sees turns.new)
        (Tallies (T.home turns.old) (purpose_of counting) query.now count)) }
    ensures refused { IfErr result (λ refused. Follows (T.sees turns.old) (T.sees turns.new)
        (TalliesNoMore (T.home turns.old) (purpose_of counting) query.now refused.value)) }
{
    let own = fix_own(turns);
    let counted = tally(turns, query, counting);
    release_own(turns, &own);
    counted
}

/// Returns the number of objects of a table for which a query returns `true`, at most 2^64 - 1 (ets:select_count/2).
/// The parts of a set or bag that the session doesn't fix are fixed first, and released at the end, also if the call
/// fails. Fails if an allocation fails.
pub fn select_count<A: Allocator, T: Turns<A>>(
    turns: &mut T,
    query: &Query<A>,
) -> Result<u64, AllocError>
    requires { T.is_ready turns.old }
    ensures ready { T.is_ready turns.new }
    ensures same { T.home turns.new ≡ T.home turns.old }
    ensures done { IfOk result (λ count. Follows (T.sees turns.old) (T.sees turns.new)
        (Tallies (T.home turns.old) Counts query.now count)) }
    ensures refused { IfErr result (λ _. Follows (T.sees turns.old) (T.sees turns.new)
        (GivesUpOn (T.home turns.old) Counts query.now whole)) }
{
    match count_table(turns, query, Counting::Count) {
        Ok(count) => Ok(count),
        Err(_) => Err(AllocError),
    }
}

/// Deletes the objects of a table for which a query returns `true`, and returns their number, at most 2^64 - 1
/// (ets:select_delete/2). Each is deleted in the turn in which it was evaluated. The parts of a set or bag that the
/// session doesn't fix are fixed first, and released at the end, also if the call fails. If an allocation fails, the
/// error has the number deleted up to then, and these deletions stay.
pub fn select_delete<A: Allocator, T: Turns<A>>(
    turns: &mut T,
    query: &Query<A>,
) -> Result<u64, Refused<u64, AllocError>>
    requires { T.is_ready turns.old }
    ensures ready { T.is_ready turns.new }
    ensures same { T.home turns.new ≡ T.home turns.old }
    ensures done { IfOk result (λ count. Follows (T.sees turns.old) (T.sees turns.new)
        (Tallies (T.home turns.old) Deletes query.now count)) }
    ensures refused { IfErr result (λ refused. Follows (T.sees turns.old) (T.sees turns.new)
        (TalliesNoMore (T.home turns.old) Deletes query.now refused.value)) }
{
    count_table(turns, query, Counting::Delete)
}
