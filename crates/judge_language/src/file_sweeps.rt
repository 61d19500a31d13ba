//! Calls on files with each allocation failing in turn.
use crate::files::{encoded, verdict};
use kit_rows::Calls;
use std::alloc::{Allocator, Global};
use term_core::{Term, View};
use term_text::read_terms;

/// Returns the text of whether the code that the first of two terms describes is encoded as the binary that is the
/// second, or `None` if memory runs out.
fn written_of<A: Allocator + Copy>(alloc: Global, heap: A, terms: &[Term<A>]) -> Option<Vec<u8>> {
    let [code, file] = terms else {
        return None;
    };
    match file.view() {
        View::Binary(bytes) => encoded(alloc, heap, code, bytes),
        _ => None,
    }
}

/// Returns the text of whether the code of a text is encoded as the binary that follows it, or `None` if memory runs
/// out.
fn written<A: Allocator + Copy>(alloc: Global, heap: A, given: &[u8]) -> Option<Vec<u8>> {
    let Ok(terms) = read_terms(heap, given) else {
        return None;
    };
    let text = written_of(alloc, heap, terms.as_slice());
    drop(terms);
    text
}

/// The calls of rows with failing allocations.
pub(crate) struct FileCalls;

impl Calls for FileCalls {
    const MOST_REQUESTS: u64 = 2_000;

    fn outcome<A: Allocator + Copy>(
        alloc: Global,
        heap: A,
        call: &str,
        given: &[u8],
    ) -> Option<Vec<u8>> {
        match call {
            "swept_file" => verdict(alloc, heap, given),
            "swept_encoded" => written(alloc, heap, given),
            _ => None,
        }
    }

    // Room for the characters of an atom is allocated first; if that fails, the call goes on without it.
    fn asks_again(call: &str) -> bool {
        matches!(call, "swept_file" | "swept_encoded")
    }
}
