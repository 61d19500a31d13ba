//! Selections by members with each allocation failing in turn, alone and together with all later ones, at hashed parts
//! with gates. No member keeps a fix, what a failed deletion says is deleted is deleted, and a second call has the
//! result of one that does not fail.
ghost use Rattle.std.specs.Prelude.{◌≡◌, All, map};
ghost use Rattle.tables.specs.Sessions.{IsOpened};
ghost use Rattle.parallel_select.specs.Workers.{AreOfOneTable};

use crate::deletions::{gone_of, put_marks};
use crate::members::{Call, is_text, options, set_with_objects};
use crate::plays::{fixes_below, query_of};
use crate::watch::Watch;
use kit_alloc::{Failing, sweep, sweep_onward};
use kit_members::members_of;
use kit_rows::listed;
use parallel_select::{SelectFault, count_parts, delete_parts, select_parts};
use part_core::Part;
use part_hash::HashPart;
use std::alloc::{Allocator, Global};
use std::sync::Wait;
use std::test::*;
use std::thread::Threads;
use tables::{Session, Table, Turns};
use term_core::Term;
use term_text::read_terms;
use walks::Query;

/// A set, and what is asked of it.
#[derive(Clone, Copy)]
struct Set {
    parts: u8,
    objects: &'static [u8],
    /// The number of objects.
    count: u64,
    /// The specification of the selection.
    selection: &'static str,
    /// Its answers in table order: an integer is in the part of its remainder, and there in the class of its quotient.
    answers: &'static str,
    /// The specification by which all objects are counted and deleted.
    all: &'static str,
}

impl Set {
    /// Returns the specification of a call.
    const fn specification_of(self, call: Call) -> &'static str {
        match call {
            Call::Select => self.selection,
            Call::Count | Call::Delete => self.all,
        }
    }
}

/// Ten objects of eight parts.
const TEN: Set = Set {
    parts: 8,
    objects: b"{1}. {2}. {3}. {4}. {5}. {6}. {7}. {8}. {9}. {10}.",
    count: 10,
    selection: KEY,
    answers: "[{8},{1},{9},{2},{10},{3},{4},{5},{6},{7}]",
    all: ALL,
};
/// Four objects.
const OBJECTS: &[u8] = b"{1}. {2}. {3}. {4}.";
/// They are in two parts.
const FOUR: Set = Set {
    parts: 2,
    objects: OBJECTS,
    count: 4,
    selection: KEY,
    answers: "[{2},{4},{1},{3}]",
    all: ALL,
};
/// The same objects, asked without a condition and without a term that is made.
const PLAIN: Set = Set {
    parts: 2,
    objects: OBJECTS,
    count: 4,
    selection: "[{{'$1'},[],['$1']}].",
    answers: "[2,4,1,3]",
    all: "[{{'$1'},[],[true]}].",
};
/// The answer on each object is its key, in a tuple that is made.
const KEY: &str = "[{{'$1'},[],[{{'$1'}}]}].";
/// The answer on each object is true, by comparing a tuple that is made of its key.
const ALL: &str = "[{{'$1'},[{'=<',{{0}},{{'$1'}}}],[true]}].";
/// The maximal number of allocations of a call and its table.
const MOST_REQUESTS: u64 = 20_000;

/// The result of a call.
#[derive(Clone, Copy)]
struct Came {
    /// It ran out of memory.
    is_refused: bool,
    /// The number of objects that it says it deleted.
    gone: u64,
    /// It reported all objects, including those that were deleted before.
    is_whole: bool,
}

/// Returns the result of a call that succeeded.
fn answered(gone: u64, is_whole: bool) -> Option<Came> {
    Some(Came {
        is_refused: false,
        gone,
        is_whole,
    })
}

/// Returns the result of a call that ran out of memory, or `None` if it failed for another reason.
fn refused(gone: u64, fault: SelectFault) -> Option<Came> {
    match fault {
        SelectFault::Memory => Some(Came {
            is_refused: true,
            gone,
            is_whole: false,
        }),
        SelectFault::BadOptions => None,
    }
}

/// Returns whether these are the answers of a set.
fn are_answers<A: Allocator>(alloc: Global, answers: Vec<Term<A>, A>, set: Set) -> bool {
    let text = listed(alloc, answers.as_slice());
    drop(answers);
    is_text(text, set.answers)
}

/// Returns the result of a call, if `before` objects were deleted before.
fn called<R: Threads + Wait + Sync, A: Allocator + Copy + Send + Sync, T: Turns<A> + Send>(
    rt: &R,
    alloc: Global,
    heap: A,
    members: &mut [T],
    query: &Query<A>,
    call: Call,
    set: Set,
    before: u64,
) -> Option<Came>
    requires ready { All T.is_ready members.old }
    requires table { AreOfOneTable (map T.home members.old) }
    ensures ready { All T.is_ready members.new }
    ensures same { map T.home members.new ≡ map T.home members.old }
{
    match call {
        Call::Select => match select_parts(rt, heap, members, query) {
            Ok(answers) => answered(0, are_answers(alloc, answers, set)),
            Err(fault) => refused(0, fault),
        },
        Call::Count => match count_parts(rt, members, query) {
            Ok(count) => answered(0, count == set.count),
            Err(fault) => refused(0, fault),
        },
        Call::Delete => match delete_parts(rt, members, query) {
            Ok(count) => answered(count, count.saturating_add(before) == set.count),
            Err(stopped) => refused(stopped.value, stopped.fault),
        },
    }
}

/// Returns whether no member fixes a part.
fn fix_nothing<A: Allocator, T: Turns<A>>(members: &[T]) -> bool
    requires { All T.is_ready members.now }
{
    for place in 0..members.len() {
        if !fixes_below::<A, T>(&members[place], 0) {
            return false;
        }
    }
    true
}

/// Returns how many of these objects are deleted, as the first member finds, or `None` if there is no member.
fn gone<A: Allocator, T: Turns<A>>(
    alloc: Global,
    members: &mut [T],
    objects: &[Term<A>],
) -> Option<u64>
    requires ready { All T.is_ready members.old }
    ensures ready { All T.is_ready members.new }
    ensures same { map T.home members.new ≡ map T.home members.old }
{
    if members.is_empty() {
        return None;
    }
    let mut marks = Vec::new(alloc);
    let are_put = put_marks(&mut members[0], objects, &mut marks).is_some();
    let gone = gone_of(marks.as_slice());
    drop(marks);
    if are_put { Some(gone) } else { None }
}

/// Returns the result of a call. Records whether as many objects are deleted afterwards as it says, with those that
/// were deleted before, and no member fixes a part.
fn called_and_released<
    R: Threads + Wait + Sync,
    A: Allocator + Copy + Send + Sync,
    T: Turns<A> + Send,
>(
    rt: &R,
    alloc: Global,
    heap: A,
    watch: &mut Watch<'_>,
    members: &mut [T],
    query: &Query<A>,
    objects: &[Term<A>],
    call: Call,
    set: Set,
    before: u64,
) -> Option<Came>
    requires ready { All T.is_ready members.old }
    requires table { AreOfOneTable (map T.home members.old) }
    ensures ready { All T.is_ready members.new }
    ensures same { map T.home members.new ≡ map T.home members.old }
{
    let came = called(rt, alloc, heap, members, query, call, set, before)?;
    watch.ended(came.is_refused);
    watch.sees(fix_nothing::<A, T>(members));
    let gone = gone(alloc, members, objects)?;
    watch.sees(came.gone.saturating_add(before) == gone);
    Some(came)
}

/// Returns whether a call is right; it is made again if memory runs out. Returns `None` if it fails for another reason.
fn is_right_again<R: Threads + Wait + Sync, A: Allocator + Copy + Send + Sync, T: Turns<A> + Send>(
    rt: &R,
    alloc: Global,
    heap: A,
    watch: &mut Watch<'_>,
    members: &mut [T],
    query: &Query<A>,
    objects: &[Term<A>],
    call: Call,
    set: Set,
) -> Option<bool>
    requires ready { All T.is_ready members.old }
    requires table { AreOfOneTable (map T.home members.old) }
{
    let first = called_and_released(
        rt, alloc, heap, watch, members, query, objects, call, set, 0,
    )?;
    if !first.is_refused {
        return Some(watch.is_right() && first.is_whole);
    }
    let before = first.gone;
    let second = called_and_released(
        rt, alloc, heap, watch, members, query, objects, call, set, before,
    )?;
    if second.is_refused {
        return Some(watch.stops());
    }
    Some(watch.is_right() && second.is_whole)
}

/// Makes the query, and returns whether a call is right at these objects, which were inserted before. Returns `None` if
/// memory runs out for the query.
fn is_right_by<R: Threads + Wait + Sync, A: Allocator + Copy + Send + Sync, T: Turns<A> + Send>(
    rt: &R,
    alloc: Global,
    heap: A,
    counts: &Failing<Global>,
    members: &mut [T],
    objects: &[Term<A>],
    call: Call,
    set: Set,
) -> Option<bool>
    requires ready { All T.is_ready members.old }
    requires table { AreOfOneTable (map T.home members.old) }
{
    let query = query_of(heap, set.specification_of(call))?;
    let mut watch = Watch::new(counts);
    let is_right = is_right_again(
        rt, alloc, heap, &mut watch, members, &query, objects, call, set,
    );
    drop(query);
    Some(is_right == Some(true))
}

/// Returns whether a call by sessions of a table is right, or `None` if memory runs out before it.
fn is_right_in<
    R: Threads + Wait + Sync,
    A: Allocator + Copy + Send + Sync,
    P: Part<A> + Drop + Send,
>(
    rt: &R,
    alloc: Global,
    heap: A,
    counts: &Failing<Global>,
    table: &Table<P, A>,
    sessions: &mut [Session<P, A>],
    objects: &[Term<A>],
    call: Call,
    set: Set,
) -> Option<bool>
    requires { All (λ s. IsOpened table.now.options table.now.gates.items s.number s.passes.items) sessions.old }
{
    let mut members = members_of(rt, alloc, table, sessions)?;
    let is_right = is_right_by(
        rt,
        alloc,
        heap,
        counts,
        members.as_mut_slice(),
        objects,
        call,
        set,
    );
    drop(members);
    is_right
}

/// Returns whether a call by this number of members is right, or `None` if memory runs out for the table, its objects
/// and the query.
fn is_right_at<
    R: Threads + Wait + Sync,
    A: Allocator + Copy + Send + Sync,
    P: Part<A> + Drop + Send,
>(
    rt: &R,
    alloc: Global,
    heap: A,
    counts: &Failing<Global>,
    members: u8,
    call: Call,
    set: Set,
) -> Option<bool> {
    let Ok(terms) = read_terms(heap, set.objects) else {
        return None;
    };
    let objects = terms.as_slice();
    let options = options(set.parts, members);
    let is_right = match set_with_objects::<R, A, P>(rt, heap, options, objects) {
        Some((table, mut sessions)) => {
            let all = sessions.as_mut_slice();
            let is_right = is_right_in(rt, alloc, heap, counts, &table, all, objects, call, set);
            drop(sessions);
            drop(table);
            is_right
        }
        None => None,
    };
    drop(terms);
    is_right
}

/// Returns whether a call is right over an allocator that may fail, and no block is left allocated.
fn is_right<R: Threads + Wait + Sync>(
    rt: &R,
    alloc: Global,
    heap: &Failing<Global>,
    members: u8,
    call: Call,
    set: Set,
) -> bool {
    match is_right_at::<R, &Failing<Global>, HashPart<&Failing<Global>>>(
        rt, alloc, heap, heap, members, call, set,
    ) {
        Some(is_right) => is_right && heap.blocks() == 0,
        None => heap.was_refused() && heap.blocks() == 0,
    }
}

/// Returns whether `is_right` is true with each allocation failing in turn, alone and together with all later ones.
fn holds<R: Threads + Wait + Sync>(
    rt: &R,
    alloc: Global,
    members: u8,
    call: Call,
    set: Set,
) -> bool {
    let alone = sweep(alloc, MOST_REQUESTS, |heap: &Failing<Global>| {
        is_right(rt, alloc, heap, members, call, set)
    });
    let onward = sweep_onward(alloc, MOST_REQUESTS, |heap: &Failing<Global>| {
        is_right(rt, alloc, heap, members, call, set)
    });
    alone.is_complete() && onward.is_complete()
}

#[test]
fn each_request_of_a_selection_may_be_refused(rt: HostRuntime) {
    for members in [1, 2, 4, 16] {
        for call in [Call::Select, Call::Count, Call::Delete] {
            for set in [TEN, FOUR, PLAIN] {
                assert!(rt; holds(&rt, rt.alloc(), members, call, set), "{members}");
            }
        }
    }
}
