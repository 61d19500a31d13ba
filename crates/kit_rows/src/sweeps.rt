//! Calls in which each allocation fails in turn.
use crate::outcome::word;
use crate::texts::text;
use kit_alloc::{Failing, Plan, sweep, sweep_onward};
use std::alloc::{Allocator, Global};
use term_core::Term;

/// Calls on a text that a program knows.
pub trait Calls {
    /// The maximal number of allocations of one call.
    const MOST_REQUESTS: u64;

    /// Returns the result of the call of this name on a text, as a text; the call allocates from `heap`. Returns `None`
    /// if the call ran out of memory and left all as it was.
    fn outcome<A: Allocator + Copy>(
        alloc: Global,
        heap: A,
        call: &str,
        given: &[u8],
    ) -> Option<Vec<u8>>;

    /// Returns whether the call of this name may succeed although an allocation failed, since it allocates again
    /// itself.
    fn asks_again(_call: &str) -> bool {
        false
    }
}

/// Returns whether a call in which an allocation failed gives the expected result when it is made again over the same
/// allocator. If all later allocations fail too, it may run out of memory again.
fn is_right_again<C: Calls>(
    alloc: Global,
    heap: &Failing<Global>,
    call: &str,
    given: &[u8],
    wanted: &[u8],
) -> bool {
    match C::outcome(alloc, heap, call, given) {
        Some(out) => out.as_slice() == wanted,
        None => !matches!(heap.plan(), Plan::Once(_)),
    }
}

/// Returns whether a call gives the expected result if no allocation failed, and runs out of memory if one did. In the
/// latter case it has to give the result when it is made again. In each case no block may be left allocated.
fn is_right<C: Calls>(
    alloc: Global,
    heap: &Failing<Global>,
    call: &str,
    given: &[u8],
    wanted: &[u8],
) -> bool {
    let is_right = match C::outcome(alloc, heap, call, given) {
        Some(out) => { out.as_slice() == wanted && (C::asks_again(call) || !heap.was_refused()) }
        None => heap.was_refused() && is_right_again::<C>(alloc, heap, call, given, wanted),
    };
    is_right && heap.blocks() == 0
}

/// Returns whether `is_right` is true with each allocation failing alone, one after the other.
fn is_swept<C: Calls>(alloc: Global, call: &str, given: &[u8], wanted: &[u8]) -> bool {
    sweep(alloc, C::MOST_REQUESTS, |heap: &Failing<Global>| {
        is_right::<C>(alloc, heap, call, given, wanted)
    })
    .is_complete()
}

/// Returns whether `is_right` is true with each allocation failing together with all later ones, one after the other.
fn is_swept_onward<C: Calls>(alloc: Global, call: &str, given: &[u8], wanted: &[u8]) -> bool {
    sweep_onward(alloc, C::MOST_REQUESTS, |heap: &Failing<Global>| {
        is_right::<C>(alloc, heap, call, given, wanted)
    })
    .is_complete()
}

/// Returns the result of a call, made with memory and with each allocation failing alone; `another_without_memory` if
/// the results differ.
pub fn swept<C: Calls>(alloc: Global, call: &str, given: &[u8]) -> Option<Vec<u8>> {
    let out = C::outcome(alloc, alloc, call, given)?;
    if is_swept::<C>(alloc, call, given, out.as_slice()) {
        Some(out)
    } else {
        word(alloc, "another_without_memory")
    }
}

/// Returns the result of a call, made with memory, with each allocation failing alone, and with each failing together
/// with all later ones; `another_without_memory` if the results differ.
fn swept_onward<C: Calls>(alloc: Global, call: &str, given: &[u8]) -> Option<Vec<u8>> {
    let out = swept::<C>(alloc, call, given)?;
    if is_swept_onward::<C>(alloc, call, given, out.as_slice()) {
        Some(out)
    } else {
        word(alloc, "another_without_memory")
    }
}

/// Returns the result of a row of a text and the expected text. The kind of the row is the name of the call, which
/// begins with `swept_`.
pub fn swept_row<C: Calls>(alloc: Global, kind: &str, parts: &[Term]) -> Option<Vec<u8>> {
    let [given, _] = parts else {
        return None;
    };
    if kind.starts_with("swept_") {
        swept_onward::<C>(alloc, kind, text(alloc, given)?.as_slice())
    } else {
        None
    }
}
