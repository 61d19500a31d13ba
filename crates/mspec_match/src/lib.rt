//! Matching patterns of match specifications with terms (ERTS User's Guide, "Match Specifications in Erlang",
//! "Semantics").
//!
//! The contract: `matched` returns what the variables of a clause's head are bound to if it matches an object. If it
//! returns `None`, no values make it match (`Matches` of `specs/Match.antt`). The crate also has `failure`, the value
//! of an expression that fails (`specs/Failure.antt`).
//!
//! - `bind`: a pattern and a part of an object, with the slots of `specs/Slots.antt`; `head`: the head of a clause and
//!   the object.
//! - Laws of matching: `laws`, `specs/Laws.antt`.
#![tactic(auto)]

mod bind;
mod failed;
mod head;
mod laws;

pub use bind::Slot;
pub use failed::failure;
pub use head::matched;
pub use laws::{one_substitution_matches, own_term_matches};
