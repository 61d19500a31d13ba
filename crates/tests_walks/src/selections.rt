//! Selections by one member and by several: equal answers, numbers of members that are rejected, deletions, and members
//! that wait for each other.
use crate::members::{Call, asked, asked_alone, deleted_and_counted, is_text};
use crate::plays::query_of;
use part_core::Part;
use part_hash::HashPart;
use std::alloc::Global;
use std::process::Abort;
use std::sync::Wait;
use std::test::*;
use std::thread::Threads;

/// The objects of a set of two parts.
const OBJECTS: &str = "{1}. {2}. {3}. {4}.";
/// The answer on each object is its key.
const KEYS: &str = "[{{'$1'},[],['$1']}].";
/// The answers, part by part.
const ANSWERS: &str = "[2,4,1,3]";
/// The answer on each object is true.
const ALL: &str = "[{{'$1'},[],[true]}].";

/// Returns the specification of a call: of a selection its answer on each object is the key, of the others `true`.
const fn specification_of(call: Call) -> &'static str {
    match call {
        Call::Select => KEYS,
        Call::Count | Call::Delete => ALL,
    }
}

/// Returns whether a call by this number of members has this result.
fn comes_to<P: Part<Global> + Drop + Send, R: Threads + Wait + Abort + Sync>(
    rt: &R,
    alloc: Global,
    members: u8,
    waiter: Option<usize>,
    call: Call,
    wanted: &str,
) -> bool {
    let query = query_of(alloc, specification_of(call)).expect(rt, "a query");
    let came = asked::<P, R>(rt, alloc, members, waiter, OBJECTS, &query, call);
    drop(query);
    is_text(came, wanted)
}

/// Returns whether a call by this number of members, each of a table of its own, is rejected with error 60.
fn is_refused<P: Part<Global> + Drop + Send, R: Threads + Wait + Abort + Sync>(
    rt: &R,
    alloc: Global,
    members: usize,
    call: Call,
) -> bool {
    let query = query_of(alloc, KEYS).expect(rt, "a query");
    let came = asked_alone::<P, R>(rt, alloc, members, &query, call);
    drop(query);
    is_text(came, "{refused,60}")
}

/// Returns whether a deletion by two members and a count afterwards have the results 4 and 0.
fn are_deleted<P: Part<Global> + Drop + Send, R: Threads + Wait + Abort + Sync>(
    rt: &R,
    alloc: Global,
) -> bool {
    let query = query_of(alloc, ALL).expect(rt, "a query");
    let (deleted, counted) = deleted_and_counted::<P, R>(rt, alloc, OBJECTS, &query);
    drop(query);
    let is_deleted = is_text(deleted, "4");
    let is_counted = is_text(counted, "0");
    is_deleted && is_counted
}

#[test]
fn members_answer_in_the_order_of_the_parts(rt: HostRuntime) {
    for members in [1, 2, 16] {
        let is_right = comes_to::<HashPart<Global>, _>(
            &rt,
            rt.alloc(),
            members,
            None,
            Call::Select,
            ANSWERS,
        );
        assert!(rt; is_right, "{members}");
    }
}

#[test]
fn other_numbers_of_members_are_refused(rt: HostRuntime) {
    for call in [Call::Select, Call::Count, Call::Delete] {
        let is_refused_for_none = is_refused::<HashPart<Global>, _>(&rt, rt.alloc(), 0, call);
        assert!(rt; is_refused_for_none);
        let is_refused_for_many = is_refused::<HashPart<Global>, _>(&rt, rt.alloc(), 17, call);
        assert!(rt; is_refused_for_many);
    }
}

#[test]
fn members_delete_all_objects(rt: HostRuntime) {
    assert!(rt; are_deleted::<HashPart<Global>, _>(&rt, rt.alloc()));
}

/// Returns whether two members of a call have this result where the first waits for the second once, and where the second
/// waits for the first; on one thread one of them would wait in vain.
fn work_side_by_side<P: Part<Global> + Drop + Send, R: Threads + Wait + Abort + Sync>(
    rt: &R,
    alloc: Global,
    call: Call,
    wanted: &str,
) -> bool {
    let first_waits = comes_to::<P, R>(rt, alloc, 2, Some(0), call, wanted);
    let second_waits = comes_to::<P, R>(rt, alloc, 2, Some(1), call, wanted);
    first_waits && second_waits
}

#[test]
fn members_work_side_by_side(rt: HostRuntime) {
    assert!(rt; work_side_by_side::<HashPart<Global>, _>(&rt, rt.alloc(), Call::Select, ANSWERS));
    assert!(rt; work_side_by_side::<HashPart<Global>, _>(&rt, rt.alloc(), Call::Count, "4"));
    assert!(rt; work_side_by_side::<HashPart<Global>, _>(&rt, rt.alloc(), Call::Delete, "4"));
}
