//! Verified code from terms.
use kit_rows::Outcome;
use std::alloc::{Allocator, Global};
use term_core::Term;
use verifier::Verified;

/// Which terms a program accepts as code.
pub trait CodeTerms {
    /// Returns the verified code that a term describes, with memory from `heap`, or `None`.
    fn verified_of<A: Allocator + Copy>(heap: A, term: &Term<A>) -> Option<Verified<A>>;
}

/// Returns the text of `{accepted,Budget,Depth}` of verified code.
pub fn accepted<A: Allocator>(alloc: Global, code: &Verified<A>) -> Option<Vec<u8>> {
    let out = Outcome::tuple(alloc).word("accepted");
    out.number(code.budget() as usize)
        .number(usize::from(code.depth()))
        .end()
}
