//! Match specifications read from terms.
//!
//! The contract is that of `read_spec`. A term that the grammar allows (`IsSpecification`, in
//! `mspec_syntax/specs/Grammar.antt`) and that is within the limits is read as the specification that it spells, and as
//! no other. Any other term is rejected with its first fault in reading order (`IsRefusal`, in
//! `mspec_syntax/specs/Faults.antt`).
//!
//! - Heads: `head.rt`, conditions and bodies: `body.rt`, clauses: `read.rt`, their size: `size.rt`.
//! - Laws of reading: `laws.rt`, `specs/Laws.antt`.
#![tactic(auto)]

mod body;
mod head;
mod laws;
mod read;
mod size;

pub use laws::{one_fault_is_refused, one_specification_is_read};
pub use read::read_spec;

/// The largest number of nodes of a specification: clauses, patterns, keys of maps, and expressions.
pub const MAX_NODES: usize = 8_000;
/// The largest number of distinct variables of a specification.
pub const MAX_VARIABLES: usize = 256;
