//! Sessions that find what others inserted, on one thread after the other and at the same time.
use crate::acts::{Act, Keys, acted_on_a_thread, both_acted, only};
use crate::objects::key_of;
use crate::pairs::opened;
use gate::Closed;
use kit_rows::was_some;
use part_core::{Part, TableKind};
use part_plain::PlainPart;
use std::alloc::Global;
use std::process::Abort;
use std::sync::Wait;
use std::thread::Threads;
use tables::Options;
use term_core::Term;

/// Two keys.
const BOTH: Keys = Keys {
    first: 1,
    apart: 1,
    count: 2,
};
/// The keys that one of two sessions inserts while the other inserts others.
const EVEN: Keys = Keys {
    first: 0,
    apart: 2,
    count: 400,
};

const ODD: Keys = Keys { first: 1, ..EVEN };

/// Returns the options of a set.
fn options(parts: u8, sessions: u8) -> Options {
    Options {
        name: 1,
        kind: TableKind::Set,
        keypos: 1,
        parts,
        sessions,
    }
}

/// Takes the next part out of a closed table. Returns the first key of its objects, 0 if there is none, and their
/// number.
fn next_left<R: Abort, P: Part<Global> + Drop>(
    rt: &R,
    alloc: Global,
    closed: &mut Closed<P>,
) -> (u32, usize) {
    let part = closed.next_part().expect(rt, "a part");
    let part = part.expect(rt, "a part that is home");
    let objects = part.objects(alloc).expect(rt, "its objects");
    drop(part);
    let left = (first_key(rt, objects.as_slice()), objects.len());
    drop(objects);
    left
}

/// Returns the key of the first of some objects, 0 if there is none.
fn first_key<R: Abort>(rt: &R, objects: &[Term]) -> u32 {
    match objects.first() {
        Some(object) => key_of(object).expect(rt, "a key that is a number"),
        None => 0,
    }
}

/// Takes the parts out of a closed table. Returns the first key of the first part, its number of objects, that of the
/// second part, and whether there is a third part.
fn left<R: Abort, P: Part<Global> + Drop>(
    rt: &R,
    alloc: Global,
    closed: Closed<P>,
) -> (u32, usize, usize, bool) {
    let mut closed = closed;
    let (first_key, last) = next_left(rt, alloc, &mut closed);
    let (_, first) = next_left(rt, alloc, &mut closed);
    let is_third = was_some(closed.next_part());
    drop(closed);
    (first_key, last, first, !is_third)
}

/// The first session inserts 1 and 2; the second finds 1 and deletes 2; they meet, and the table is closed with the
/// second. Returns what is left.
fn in_turn<R: Threads + Wait + Abort + Sync, P: Part<Global> + Drop + Send>(
    rt: &R,
    alloc: Global,
) -> (u32, usize, usize, bool) {
    let Some((table, first, second)) = opened::<Global, P>(alloc, options(2, 2)) else {
        rt.panic("no table")
    };
    let mut first = acted_on_a_thread(rt, alloc, &table, first, Act::Put(BOTH), 0);
    let second = acted_on_a_thread(rt, alloc, &table, second, Act::Count(1), 1);
    let mut second = acted_on_a_thread(rt, alloc, &table, second, Act::Delete(only(2)), 0);
    table.meet(&mut first, &mut second);
    let left = left(rt, alloc, table.close(second));
    drop(first);
    left
}

/// A session that was not used closes a table into which another inserted two objects. Returns what is left.
fn closed_by_another<R: Threads + Wait + Abort + Sync, P: Part<Global> + Drop + Send>(
    rt: &R,
    alloc: Global,
) -> (u32, usize, usize, bool) {
    let Some((table, first, second)) = opened::<Global, P>(alloc, options(2, 3)) else {
        rt.panic("no table")
    };
    let first = acted_on_a_thread(rt, alloc, &table, first, Act::Put(BOTH), 0);
    table.leave(rt, first);
    left(rt, alloc, table.close(second))
}

/// Two sessions insert objects at the same time. Returns how many are left.
fn side_by_side<R: Threads + Wait + Abort + Sync, P: Part<Global> + Drop + Send>(
    rt: &R,
    alloc: Global,
) -> usize {
    let Some((table, first, second)) = opened::<Global, P>(alloc, options(1, 2)) else {
        rt.panic("no table")
    };
    let (first, second) = both_acted(
        rt,
        alloc,
        &table,
        first,
        Act::Put(EVEN),
        second,
        Act::Put(ODD),
    );
    table.leave(rt, first);
    let mut closed = table.close(second);
    let (_, count) = next_left(rt, alloc, &mut closed);
    drop(closed);
    count
}

#[test]
fn a_session_finds_what_another_put_in_on_a_thread(rt: HostRuntime) {
    assert!(rt; in_turn::<_, PlainPart<Global>>(&rt, rt.alloc()) == (1, 1, 0, true));
}

#[test]
fn a_session_that_was_not_used_closes_with_all_objects(rt: HostRuntime) {
    assert!(rt; closed_by_another::<_, PlainPart<Global>>(&rt, rt.alloc()) == (1, 1, 1, true));
}

#[test]
fn sessions_put_objects_in_side_by_side(rt: HostRuntime) {
    assert!(rt; side_by_side::<_, PlainPart<Global>>(&rt, rt.alloc()) == 800);
}
