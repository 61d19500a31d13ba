//! Looks up a function by its name. The names that the crates below use for functions are used here alone.
use crate::parts::text_of;
use prims_table::{Arithmetic, Function, Primitive};
use std::alloc::Allocator;
use term_core::Term;

/// The maximal number of arguments of a function other than `and` and `or`.
const MOST_ARGUMENTS: usize = 3;

/// Returns the function with this name and this number of arguments, or `None`.
pub fn primitive<A: Allocator>(name: &Term<A>, arguments: usize) -> Option<Primitive> {
    Primitive::named(text_of(name)?, arguments)
}

/// Returns the function with this name that a `call` instruction calls, or `None`.
pub fn function<A: Allocator>(name: &Term<A>) -> Option<Function> {
    for arguments in 1..=MOST_ARGUMENTS {
        if let Some(Primitive::Function(function)) = primitive(name, arguments) {
            return Some(function);
        }
    }
    None
}

/// Returns the arithmetic function of two integers with this name, or `None`.
pub fn arithmetic<A: Allocator>(name: &Term<A>) -> Option<Arithmetic> {
    match primitive(name, 2)? {
        Primitive::Arithmetic(function) => Some(function),
        _ => None,
    }
}
