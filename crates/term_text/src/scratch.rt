//! Room for terms that have been read and are not yet part of another term.
ghost use Rattle.std.specs.Prelude.{◌≡◌, []};

use std::alloc::{Allocator, Global};
use term_core::Term;

/// Terms that have been read, the last one on top.
pub type Stack<A> = Vec<Term<A>, A>;

/// Room in which a term is put together while it is read. It holds no terms between two readings. A caller that reads
/// term after term keeps one, so that the room is allocated once.
#[derive(Drop)]
pub struct Scratch<A: Allocator = Global> {
    pub(crate) terms: Stack<A>,
}

impl<A: Allocator> Scratch<A> {
    /// Returns room that holds no terms. Allocates nothing.
    pub fn new(alloc: A) -> Self
        ensures { result.terms.items ≡ [] }
    {
        Scratch {
            terms: Vec::new(alloc),
        }
    }
}
