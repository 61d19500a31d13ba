//! Steps of rows of tests at a part of a table: a part that is made for a row, and the result of each step at it, as a
//! text.
//!
//! Everything is generic in the part and in the allocator, so that a test may try each sort of part, and make
//! allocations fail meanwhile.
//!
//! The contract: a part that is `made` has the number of sessions of its options, and `steps_text` needs a part with
//! the number of sessions of its setting.
//!
//! - `steps`: the steps of a row, one after the other; `turns`: one operation, which is tried again if it is rejected.
//! - `watching`: operations at a part that is compared before and after: it has to be unchanged if an operation is
//!   rejected.
//! - `operations`: the operation that a term describes; `replies`: what a part returns, as a text.
#![tactic(auto)]

mod operations;
mod replies;
mod steps;
mod turns;
mod watching;

pub use operations::{byte, kind_of};
pub use replies::open_fault_text;
pub use steps::{Setting, steps_text};
pub use turns::{Options, Wants, made};
pub use watching::watching_code;
