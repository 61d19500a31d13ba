//! Calls in which each allocation fails once the terms of a text have been read.
use crate::outcome::word;
use crate::sweeps::Calls;
use crate::texts::text;
use kit_alloc::Failing;
use std::alloc::{Allocator, Global};
use term_core::Term;

/// What the calls of a program need before they are made.
pub trait Loads {
    /// Reads what a text spells, with memory from `heap`, and returns whether that succeeded.
    fn is_loaded<A: Allocator + Copy>(heap: A, given: &[u8]) -> bool;
}

/// Returns the number of allocations that reading what a text spells makes.
fn requests<C: Loads>(alloc: Global, given: &[u8]) -> Option<u64> {
    let heap = Failing::counting(alloc);
    if C::is_loaded(&heap, given) {
        Some(heap.requests())
    } else {
        None
    }
}

/// Returns the result of a call in which each allocation fails once what the text spells has been read. The result is
/// `refused` if an allocation failed and the call ran out of memory, `wanting` if it failed without that.
fn without_memory<C: Calls + Loads>(alloc: Global, call: &str, given: &[u8]) -> Option<Vec<u8>> {
    let heap = Failing::refusing_from(alloc, requests::<C>(alloc, given)?.saturating_add(1));
    match C::outcome(alloc, &heap, call, given) {
        Some(out) => Some(out),
        None if heap.was_refused() => word(alloc, "refused"),
        None => word(alloc, "wanting"),
    }
}

/// Returns the result of a row of a text and the expected text. The kind of the row is the name of a call.
pub fn without_row<C: Calls + Loads>(alloc: Global, kind: &str, parts: &[Term]) -> Option<Vec<u8>> {
    let [given, _] = parts else {
        return None;
    };
    without_memory::<C>(alloc, kind, text(alloc, given)?.as_slice())
}
