//! How deep and how long a term is.
use crate::outcome::Outcome;
use std::alloc::Global;
use term_core::{Term, View};

/// Returns the number of elements, pairs, characters or bytes of a term; 0 for an integer.
pub fn length(term: &Term) -> usize {
    match term.view() {
        View::Integer(_) => 0,
        View::Nil => 0,
        View::Atom(text) => text.chars().count(),
        View::Tuple(elements) => elements.len(),
        View::List(elements, _) => elements.len(),
        View::Map(pairs) => pairs.len(),
        View::Binary(bytes) => bytes.len(),
    }
}

/// Returns the text of a pair of the depth and the length of a term.
pub fn size_of(alloc: Global, term: &Term) -> Option<Vec<u8>> {
    let (depth, length) = (usize::from(term.depth()), length(term));
    Outcome::tuple(alloc).number(depth).number(length).end()
}
