//! Allocations that fail in turn when tables are opened and objects are inserted, and calls that never allocate.
ghost use Rattle.std.specs.Prelude.{◌≡◌, All, [], IfSome};
ghost use Rattle.tables.specs.Options.{settings_of};

use crate::objects::{is_there, object, put_both};
use crate::trials::{Act, Home, Sort, Trial, is_swept};
use kit_alloc::Failing;
use part_core::{Fault, OpenFault, Part, TableKind};
use std::alloc::{Allocator, Global};
use tables::{Options, Table, Turns, delete, delete_object, fix, insert, member, unfix};
use term_core::Term;

/// More fixes than a session may have.
const MOST_FIXES: u32 = 70_000;

/// Returns whether a table was opened if no allocation failed, and rejected as out of memory if one did. Drops it.
fn is_due<T: Drop>(counts: &Failing<Global>, opened: Result<T, OpenFault>) -> bool {
    let is_due = match &opened {
        Ok(_) => !counts.was_refused(),
        Err(fault) => *fault == OpenFault::Memory && counts.was_refused(),
    };
    drop(opened);
    is_due
}

/// Opens a table, and returns whether it was opened if no allocation failed, and rejected as out of memory if one did.
pub(crate) fn is_opened<A: Allocator + Copy, P: Part<A> + Drop>(
    heap: A,
    counts: &Failing<Global>,
    options: Options,
) -> bool {
    is_due(counts, Table::<P, A>::open(heap, options))
}

/// Appends a part in its opening state. Returns `None` if memory runs out.
fn put_part<A: Allocator, P: Part<A> + Drop>(
    heap: A,
    options: Options,
    parts: &mut Vec<P, A>,
) -> Option<()>
    requires { All (λ p. (P.settings p ≡ settings_of options) × P.is_after p []) parts.old.items }
    ensures { All (λ p. (P.settings p ≡ settings_of options) × P.is_after p []) parts.new.items }
{
    let Ok(part) = P::make(
        heap,
        options.kind,
        options.keypos,
        options.parts,
        options.sessions,
    ) else {
        return None;
    };
    parts.push(part).ok()
}

/// Returns two parts in their opening states, or `None` if memory runs out.
fn two_parts<A: Allocator + Copy, P: Part<A> + Drop>(heap: A, options: Options) -> Option<Vec<P, A>>
    ensures { IfSome result (λ parts. All (λ p. (P.settings p ≡ settings_of options) × P.is_after p []) parts.items) }
{
    let mut parts = Vec::new(heap);
    let first = put_part(heap, options, &mut parts);
    let second = put_part(heap, options, &mut parts);
    if first.is_some() && second.is_some() {
        Some(parts)
    } else {
        drop(parts);
        None
    }
}

/// Opens a table over two parts, and returns whether it was opened if no allocation failed, and rejected as out of
/// memory if one did.
pub(crate) fn is_opened_over<A: Allocator + Copy, P: Part<A> + Drop>(
    heap: A,
    counts: &Failing<Global>,
    options: Options,
) -> bool {
    match two_parts::<A, P>(heap, options) {
        Some(parts) => is_due(counts, Table::over(heap, options, parts)),
        None => counts.was_refused(),
    }
}

/// Inserts `{1}`. Returns whether its key has an object then if no allocation failed, and has none if one did.
pub(crate) fn is_put<A: Allocator + Copy, T: Turns<A>>(
    heap: A,
    counts: &Failing<Global>,
    turns: &mut T,
) -> bool
    requires { T.is_ready turns.old }
    ensures ready { T.is_ready turns.new }
    ensures same { T.home turns.new ≡ T.home turns.old }
{
    let Some(object) = object(heap, 1) else {
        return counts.was_refused();
    };
    let inserted = insert(turns, object);
    let fault = match &inserted {
        Ok(()) => None,
        Err(refused) => Some(refused.fault),
    };
    drop(inserted);
    match fault {
        None => !counts.was_refused() && is_there(turns, 1),
        Some(fault) => fault == Fault::Memory && counts.was_refused() && !is_there(turns, 1),
    }
}

/// Fixes the table until that is rejected. Returns the number of fixes and the fault, or `None` if 70,000 fixes are
/// accepted.
pub(crate) fn most_fixes<A: Allocator, T: Turns<A>>(turns: &mut T) -> Option<(u32, Fault)>
    requires { T.is_ready turns.old }
    ensures ready { T.is_ready turns.new }
    ensures same { T.home turns.new ≡ T.home turns.old }
{
    for fixes in 0..MOST_FIXES {
        if let Err(fault) = fix(turns) {
            return Some((fixes, fault));
        }
    }
    None
}

/// Returns whether the results of calls that never allocate are right, in a table that contains `{1}` and the object.
fn is_answered<A: Allocator, T: Turns<A>>(turns: &mut T, object: &Term<A>, key: &Term<A>) -> bool
    requires { T.is_ready turns.old }
    ensures ready { T.is_ready turns.new }
    ensures same { T.home turns.new ≡ T.home turns.old }
{
    let was_there = member(turns, key);
    delete(turns, key);
    let is_deleted = !member(turns, key);
    let is_object_deleted = delete_object(turns, object).is_ok();
    let is_fixed = fix(turns).is_ok();
    let is_released = unfix(turns).is_ok();
    let is_unfixed = unfix(turns) == Err(Fault::NotFixed);
    let is_no_object = delete_object(turns, key) == Err(Fault::TooSmall);
    let is_refused = is_unfixed && is_no_object;
    let is_limited = most_fixes(turns) == Some((65_535, Fault::FixLimit));
    was_there
        && is_deleted
        && is_object_deleted
        && is_fixed
        && is_released
        && is_refused
        && is_limited
}

/// Inserts `{1}` and `{2}`. Returns whether the results of calls that never allocate are then right, and no allocation
/// failed, also with all later allocations failing. Returns `None` if memory runs out before these calls.
pub(crate) fn is_spare<A: Allocator + Copy, T: Turns<A>>(
    heap: A,
    counts: &Failing<Global>,
    turns: &mut T,
) -> Option<bool>
    requires { T.is_ready turns.old }
    ensures ready { T.is_ready turns.new }
    ensures same { T.home turns.new ≡ T.home turns.old }
{
    put_both(heap, turns)?;
    let two = object(heap, 2)?;
    let one = Term::int(1);
    let is_answered = is_answered(turns, &two, &one);
    drop(one);
    drop(two);
    Some(is_answered && !counts.was_refused())
}

/// Inserts `{1}` and `{2}`, and fixes the table. Returns `None` if memory runs out.
pub(crate) fn is_fixed<A: Allocator + Copy, T: Turns<A>>(heap: A, turns: &mut T) -> Option<bool>
    requires { T.is_ready turns.old }
    ensures ready { T.is_ready turns.new }
    ensures same { T.home turns.new ≡ T.home turns.old }
{
    put_both(heap, turns)?;
    Some(fix(turns).is_ok())
}

/// Returns a trial at a set of two hashed parts.
const fn at_set(home: Home, act: Act) -> Trial {
    at_hashed(TableKind::Set, home, act)
}

/// Returns a trial at two hashed parts.
const fn at_hashed(kind: TableKind, home: Home, act: Act) -> Trial {
    Trial {
        sort: Sort::Hashed,
        kind,
        parts: 2,
        home,
        act,
    }
}

/// Returns a trial at an ordered set, which has one part.
const fn at_ordered(home: Home, act: Act) -> Trial {
    Trial {
        sort: Sort::Ordered,
        kind: TableKind::OrderedSet,
        parts: 1,
        home,
        act,
    }
}

#[test]
fn each_request_of_opening_may_be_refused(rt: HostRuntime) {
    assert!(rt; is_swept(&rt, rt.alloc(), at_set(Home::Opened, Act::Nothing)));
    assert!(rt; is_swept(&rt, rt.alloc(), at_set(Home::OpenedOver, Act::Nothing)));
}

#[test]
fn each_request_of_an_insert_may_be_refused(rt: HostRuntime) {
    assert!(rt; is_swept(&rt, rt.alloc(), at_set(Home::Gates, Act::PutOne)));
}

#[test]
fn calls_that_take_no_memory_take_none(rt: HostRuntime) {
    for kind in [TableKind::Set, TableKind::Bag, TableKind::DuplicateBag] {
        assert!(rt; is_swept(&rt, rt.alloc(), at_hashed(kind, Home::Alone, Act::Spare)));
        assert!(rt; is_swept(&rt, rt.alloc(), at_hashed(kind, Home::Gates, Act::Spare)));
        assert!(rt; is_swept(&rt, rt.alloc(), at_hashed(kind, Home::Left, Act::Fix)));
    }
    assert!(rt; is_swept(&rt, rt.alloc(), at_ordered(Home::Alone, Act::Spare)));
    assert!(rt; is_swept(&rt, rt.alloc(), at_ordered(Home::Gates, Act::Spare)));
}
