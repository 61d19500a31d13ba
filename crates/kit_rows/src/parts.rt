//! Names, numbers and lists in a row.
use std::alloc::Allocator;
use term_core::{Term, View};

/// Returns the text of an atom, or `None` for any other term.
pub(crate) fn text_of<A: Allocator>(term: &Term<A>) -> Option<&str> {
    match term.view() {
        View::Atom(text) => Some(text),
        _ => None,
    }
}

/// Returns whether a term is the atom with this text.
pub fn is_atom<A: Allocator>(term: &Term<A>, text: &str) -> bool {
    match text_of(term) {
        Some(name) => name == text,
        None => false,
    }
}

/// Returns the text of an atom, or `None` for any other term or if memory runs out.
pub fn name<A: Allocator + Copy>(heap: A, term: &Term<A>) -> Option<String<A>> {
    String::from_str(heap, text_of(term)?).ok()
}

/// Returns the value of an integer from 0 to 2^32 - 1, or `None` for any other term.
pub fn number<A: Allocator>(term: &Term<A>) -> Option<u32> {
    match term.view() {
        View::Integer(value) => u32::try_from(value).ok(),
        _ => None,
    }
}

/// Returns the value of an integer from 0 to 65,535, or `None` for any other term.
pub fn short<A: Allocator>(term: &Term<A>) -> Option<u16> {
    u16::try_from(number(term)?).ok()
}

/// Returns the elements of a proper list, or `None` for any other term.
pub fn elements<A: Allocator>(term: &Term<A>) -> Option<&[Term<A>]> {
    match term.view() {
        View::List(elements, None) => Some(elements),
        View::Nil => Some(&[]),
        _ => None,
    }
}

/// Returns the elements of a tuple, or `None` for any other term.
pub fn fields<A: Allocator>(term: &Term<A>) -> Option<&[Term<A>]> {
    match term.view() {
        View::Tuple(elements) => Some(elements),
        _ => None,
    }
}
