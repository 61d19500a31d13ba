//! Fixes at a table whose parts have gates: a dead row stays as long as some session fixes the table. It is removed
//! with the last fix, also if its session leaves without releasing it.
use crate::acts::{Act, Keys, NO_ROW, acted, only};
use crate::pairs::opened;
use part_core::{Part, TableKind};
use part_hash::HashPart;
use std::alloc::Global;
use std::process::Abort;
use std::sync::Wait;
use tables::Options;

/// Returns the options of a set with two sessions.
const fn options_of(parts: u8) -> Options {
    Options {
        name: 1,
        kind: TableKind::Set,
        keypos: 1,
        parts,
        sessions: 2,
    }
}

/// The keys of the set. Of several parts each is in one of its own, and neither in the first.
const KEYS: Keys = Keys {
    first: 1,
    apart: 1,
    count: 2,
};

/// Both sessions fix; the first deletes a key and releases its fix. It gets the key after the dead row, until the
/// second has left with its fix, which is released at each part.
fn a_dead_row_is_kept<R: Wait + Abort, P: Part<Global> + Drop>(rt: &R, alloc: Global, parts: u8) {
    let Some((table, first, second)) = opened::<Global, P>(alloc, options_of(parts)) else {
        rt.panic("no table")
    };
    let first = acted(rt, alloc, &table, first, Act::Put(KEYS), 0);
    let first = acted(rt, alloc, &table, first, Act::Fix, 0);
    let second = acted(rt, alloc, &table, second, Act::Fix, 0);
    let first = acted(rt, alloc, &table, first, Act::Delete(only(1)), 0);
    let first = acted(rt, alloc, &table, first, Act::Unfix, 0);
    let first = acted(rt, alloc, &table, first, Act::Next(1), 2);
    table.leave(rt, second);
    let first = acted(rt, alloc, &table, first, Act::Next(1), NO_ROW);
    table.leave(rt, first);
    drop(table);
}

/// The second session fixes as many times as it may, deletes a key and leaves. The first gets the key after the dead
/// row before that, and not afterwards.
fn the_most_fixes_go<R: Wait + Abort, P: Part<Global> + Drop>(rt: &R, alloc: Global) {
    let Some((table, first, second)) = opened::<Global, P>(alloc, options_of(1)) else {
        rt.panic("no table")
    };
    let first = acted(rt, alloc, &table, first, Act::Put(KEYS), 0);
    let second = acted(rt, alloc, &table, second, Act::FixMost, 51);
    let second = acted(rt, alloc, &table, second, Act::Delete(only(1)), 0);
    let first = acted(rt, alloc, &table, first, Act::Next(1), 2);
    table.leave(rt, second);
    let first = acted(rt, alloc, &table, first, Act::Next(1), NO_ROW);
    table.leave(rt, first);
    drop(table);
}

#[test]
fn a_session_that_leaves_releases_its_fixes(rt: HostRuntime) {
    a_dead_row_is_kept::<_, HashPart<Global>>(&rt, rt.alloc(), 1);
    a_dead_row_is_kept::<_, HashPart<Global>>(&rt, rt.alloc(), 64);
    the_most_fixes_go::<_, HashPart<Global>>(&rt, rt.alloc());
}
