//! The code of clauses and specifications, as blocks of symbolic code.
//!
//! The one contract is that of `write_blocks`: the blocks of a specification are those that `blocks_of` of
//! `specs/Clauses.antt` says, one for each clause and one for the end. It fails only if an allocation fails. Its
//! private parts require a clause that can be written (`specs/Writable.antt`), as each clause of a specification can.
//!
//! - Conditions and bodies: `parts.rt`; a clause: `clause.rt`; all clauses and the end: `blocks.rt`.
//! - What the blocks' labels say: `specs/Labels.antt`.
//! - Lemmas on variables, nodes and lines, which the crates above use: `proofs/`.
#![tactic(auto)]

mod blocks;
mod clause;
mod parts;

pub use blocks::write_blocks;
