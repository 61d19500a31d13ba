//! Values that are dropped in the middle of their use free all of their memory, whichever allocation fails.
ghost use Rattle.std.specs.Prelude.{◌≡◌};

use crate::objects::query_of;
use crate::trials::{Act, Home, Sort, Trial, is_swept};
use kit_members::put_all;
use kit_rows::{elements, term_of};
use part_core::TableKind;
use std::alloc::{Allocator, Global};
use std::sync::Wait;
use tables::{Turns, delete, fix, lookup, member, take};
use term_core::Term;
use walks::{Step, select_limit, select_more};

/// Two objects in each of two parts, and three of one more key, which needs memory.
const OBJECTS: &[u8] = b"[{1},{2},{1},{2},{{3}},{{3}},{{3}}].";

/// A specification whose answer on each object is the object.
const EACH: &[u8] = b"[{'_',[],['$_']}].";

/// A specification that names keys.
const NAMED: &[u8] = b"[{{{key,1}},[],['$_']},{{2},[],[{{'$_',again}}]}].";

/// In the middle of which action a session is.
#[derive(Clone, Copy)]
pub(crate) enum Middle {
    /// It has fixed the table, in which there are dead rows.
    Fix,
    /// It walks the table in pieces, of which it has received one.
    OnePiece,
    /// It walks the table in pieces, of which it has received two.
    TwoPieces,
    /// It has received the objects of a key, by `lookup` and by `take`.
    Reply,
    /// It has a query that it has not used.
    Query,
}

/// Fixes the table, deletes a key, and returns whether the key has no object.
fn is_deleted<A: Allocator, T: Turns<A>>(turns: &mut T, key: &Term<A>) -> Option<bool>
    requires { T.is_ready turns.old }
    ensures ready { T.is_ready turns.new }
    ensures same { T.home turns.new ≡ T.home turns.old }
{
    fix(turns).ok()?;
    delete(turns, key);
    Some(!member(turns, key))
}

/// Returns the first step of a walk with pieces of one answer, which keeps the other answers of a key.
fn first_step<A: Allocator + Copy, T: Turns<A>>(heap: A, turns: &mut T) -> Option<Step<A>>
    requires { T.is_ready turns.old }
    ensures ready { T.is_ready turns.new }
    ensures same { T.home turns.new ≡ T.home turns.old }
{
    let query = query_of(heap, EACH)?;
    select_limit(heap, turns, query, 1).ok()
}

/// Returns the step after a piece, and drops the piece.
fn next_step<A: Allocator + Copy, T: Turns<A>>(
    heap: A,
    turns: &mut T,
    step: Step<A>,
) -> Option<Step<A>>
    requires { T.is_ready turns.old }
    ensures ready { T.is_ready turns.new }
    ensures same { T.home turns.new ≡ T.home turns.old }
{
    match step {
        Step::Piece(piece, walk) => {
            let next = select_more(heap, turns, walk).ok();
            drop(piece);
            next
        }
        Step::End(query) => {
            drop(query);
            None
        }
    }
}

/// Returns whether a step is a piece of one object, and drops it with the rest of the walk.
fn is_piece<A: Allocator>(step: Step<A>) -> bool {
    let is_piece = match &step {
        Step::Piece(piece, _) => piece.len() == 1,
        Step::End(_) => false,
    };
    drop(step);
    is_piece
}

/// Returns whether the first step of a walk is a piece.
fn is_begun<A: Allocator + Copy, T: Turns<A>>(heap: A, turns: &mut T) -> Option<bool>
    requires { T.is_ready turns.old }
    ensures ready { T.is_ready turns.new }
    ensures same { T.home turns.new ≡ T.home turns.old }
{
    let step = first_step(heap, turns)?;
    Some(is_piece(step))
}

/// Returns whether the second step of a walk is a piece.
fn is_gone_on<A: Allocator + Copy, T: Turns<A>>(heap: A, turns: &mut T) -> Option<bool>
    requires { T.is_ready turns.old }
    ensures ready { T.is_ready turns.new }
    ensures same { T.home turns.new ≡ T.home turns.old }
{
    let first = first_step(heap, turns)?;
    let second = next_step(heap, turns, first)?;
    Some(is_piece(second))
}

/// Returns whether three objects of a key are looked up, and three are taken. Drops all of them.
fn are_given<A: Allocator, T: Turns<A>>(turns: &mut T, key: &Term<A>) -> Option<bool>
    requires { T.is_ready turns.old }
    ensures ready { T.is_ready turns.new }
    ensures same { T.home turns.new ≡ T.home turns.old }
{
    let Ok(found) = lookup(turns, key) else {
        return None;
    };
    let taken = take(turns, key);
    let are_given = match &taken {
        Ok(taken) => Some(found.len() == 3 && taken.len() == 3),
        Err(_) => None,
    };
    drop(taken);
    drop(found);
    are_given
}

/// Makes a query that names keys, and drops it.
fn is_query<A: Allocator + Copy>(heap: A) -> Option<bool> {
    let query = query_of(heap, NAMED)?;
    drop(query);
    Some(true)
}

/// Has a session insert these objects, and returns whether it gets into the middle of the action. Returns `None` if
/// memory runs out.
fn is_reached_by<A: Allocator + Copy, T: Turns<A>>(
    heap: A,
    turns: &mut T,
    list: &Term<A>,
    middle: Middle,
) -> Option<bool>
    requires { T.is_ready turns.old }
    ensures ready { T.is_ready turns.new }
    ensures same { T.home turns.new ≡ T.home turns.old }
{
    let objects = elements(list)?;
    put_all(turns, objects)?;
    let key = objects.last()?.element_at(1)?;
    match middle {
        Middle::Fix => is_deleted(turns, key),
        Middle::OnePiece => is_begun(heap, turns),
        Middle::TwoPieces => is_gone_on(heap, turns),
        Middle::Reply => are_given(turns, key),
        Middle::Query => is_query(heap),
    }
}

/// Has a session insert objects of its own, and returns whether it gets into the middle of the action. Returns `None`
/// if memory runs out.
pub(crate) fn is_reached<A: Allocator + Copy, T: Turns<A>>(
    heap: A,
    turns: &mut T,
    middle: Middle,
) -> Option<bool>
    requires { T.is_ready turns.old }
    ensures ready { T.is_ready turns.new }
    ensures same { T.home turns.new ≡ T.home turns.old }
{
    let list = term_of(heap, OBJECTS)?;
    let is_reached = is_reached_by(heap, turns, &list, middle);
    drop(list);
    is_reached
}

/// Returns a trial with a session in the middle of an action, at a bag of two hashed parts that is then dropped in this
/// way.
const fn middle_of(home: Home, middle: Middle) -> Trial {
    Trial {
        sort: Sort::Hashed,
        kind: TableKind::DuplicateBag,
        parts: 2,
        home,
        act: Act::Reach(middle),
    }
}

/// Returns whether two actions leave no block allocated, at a table with gates and at one on one thread, neither of
/// which is closed.
fn leak_nothing<R: Wait>(rt: &R, alloc: Global, one: Middle, other: Middle) -> bool {
    is_swept(rt, alloc, middle_of(Home::Gates, one))
        && is_swept(rt, alloc, middle_of(Home::Gates, other))
        && is_swept(rt, alloc, middle_of(Home::Alone, one))
        && is_swept(rt, alloc, middle_of(Home::Alone, other))
}

#[test]
fn a_table_that_is_not_closed_leaks_nothing(rt: HostRuntime) {
    assert!(rt; leak_nothing(&rt, rt.alloc(), Middle::Fix, Middle::Reply));
}

#[test]
fn a_walk_that_is_not_at_its_end_leaks_nothing(rt: HostRuntime) {
    assert!(rt; leak_nothing(&rt, rt.alloc(), Middle::OnePiece, Middle::TwoPieces));
}

#[test]
fn a_closed_table_whose_parts_are_not_all_out_leaks_nothing(rt: HostRuntime) {
    assert!(rt; is_swept(&rt, rt.alloc(), middle_of(Home::Closed(0), Middle::Fix)));
    assert!(rt; is_swept(&rt, rt.alloc(), middle_of(Home::Closed(1), Middle::Fix)));
}

#[test]
fn a_query_that_is_not_asked_leaks_nothing(rt: HostRuntime) {
    assert!(rt; is_swept(&rt, rt.alloc(), middle_of(Home::Alone, Middle::Query)));
}
