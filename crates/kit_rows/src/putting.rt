//! Appends terms. A term that a `push` returns since memory ran out is dropped.
use crate::let_go::was_ok;
use std::alloc::Allocator;
use term_core::Term;

/// Appends a term; returns `false` if memory ran out.
pub fn put<A: Allocator>(terms: &mut Vec<Term<A>, A>, term: Term<A>) -> bool {
    was_ok(terms.push(term))
}

/// Appends a copy of a term; returns `false` if memory ran out.
pub fn put_copy<A: Allocator>(terms: &mut Vec<Term<A>, A>, term: &Term<A>) -> bool {
    match term.copy() {
        Ok(copy) => put(terms, copy),
        Err(_) => false,
    }
}

/// Appends a pair; returns `false` if memory ran out.
pub fn put_pair<A: Allocator>(
    pairs: &mut Vec<(Term<A>, Term<A>), A>,
    key: Term<A>,
    value: Term<A>,
) -> bool {
    was_ok(pairs.push((key, value)))
}
