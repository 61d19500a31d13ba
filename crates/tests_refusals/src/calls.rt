//! Calls with each allocation failing in turn.
use crate::{functions, text};
use kit_alloc::{Failing, sweep, sweep_onward};
use std::alloc::{Allocator, Global};

/// Calls that allocate.
#[derive(Clone, Copy, Debug)]
enum Case {
    /// Terms are read.
    Read,
    /// A term is written.
    Write,
    /// Operands become terms.
    Operands,
    /// A function is called over values, and its value is copied.
    Values,
}

const CASES: [Case; 4] = [Case::Read, Case::Write, Case::Operands, Case::Values];

/// Returns whether the results of calls are right, or `None` if they run out of memory and leave all as it was.
fn is_right<A: Allocator + Copy>(alloc: Global, heap: A, case: Case) -> Option<bool> {
    match case {
        Case::Read => text::is_read(alloc, heap),
        Case::Write => text::is_written(alloc, heap),
        Case::Operands => functions::are_copied(heap),
        Case::Values => functions::is_element_copied(heap),
    }
}

/// Returns whether the results are right or an allocation failed; in each case no block may be left allocated.
fn is_clean(alloc: Global, heap: &Failing<Global>, case: Case) -> bool {
    let is_right = match is_right(alloc, heap, case) {
        Some(is_right) => is_right,
        None => heap.was_refused(),
    };
    is_right && heap.blocks() == 0
}

/// Returns whether `is_clean` is true with each allocation failing in turn, alone and together with all later ones.
fn is_swept(alloc: Global, case: Case) -> bool {
    let alone = sweep(alloc, 2_000, |heap| is_clean(alloc, heap, case));
    let onward = sweep_onward(alloc, 2_000, |heap| is_clean(alloc, heap, case));
    alone.is_complete() && onward.is_complete()
}

#[test]
fn each_request_is_refused_in_turn(rt: HostRuntime) {
    let alloc = rt.alloc();
    for case in CASES {
        assert!(rt; is_right(alloc, alloc, case) == Some(true), "{case:?}");
        assert!(rt; is_swept(alloc, case), "{case:?}");
    }
}
