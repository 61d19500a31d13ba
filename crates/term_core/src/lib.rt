//! Terms: how they are made, viewed, compared and hashed.
#![tactic(auto)]

mod fault;
mod feed;
mod hash;
mod order;
mod term;
mod view;

pub use fault::{Fault, Refused};
pub use order::compare_texts;
pub use term::{ListParts, ShortRow, Term, deepest, is_same, neighbours_differ};
pub use view::View;

/// The greatest depth of a term.
pub const MAX_DEPTH: u8 = 255;
/// The largest number of characters of an atom.
pub const MAX_CHARACTERS: usize = 255;
/// The largest number of elements of a tuple.
pub const MAX_TUPLE: usize = 65_535;
/// The largest number of pairs of a map.
pub const MAX_MAP: usize = 65_535;
/// The largest number of elements of a list.
pub const MAX_LIST: usize = 1_048_576;
/// The largest number of bytes of a binary.
pub const MAX_BINARY: usize = 1_048_576;
