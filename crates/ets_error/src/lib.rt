//! One error for everything that a program does with terms, specifications, code and tables, so that `?` works on each
//! of their calls.
//!
//! The one contract: `Error::from` keeps the refusal whole, and out of memory is `Error::Memory`, whoever refused
//! (`specs/Kept.antt`). `Error::number` returns the number that `docs/REFUSALS.md` lists (`specs/Numbers.antt`).
#![tactic(auto)]

mod error;

pub use error::Error;
