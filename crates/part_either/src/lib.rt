//! A part of either of two sorts: one for sets and bags, and one for ordered sets.
//!
//! The one contract: `EitherPart` implements the trait `Part` of `part_core`. It serves the kinds that its sorts serve,
//! each sort its own kinds, and does what the part of its sort does (`specs/Either.antt`).
//!
//! - `either`: the type. A table whose kind is chosen when it is opened is made of such parts.
#![tactic(auto)]

mod either;

pub use either::EitherPart;
