//! The arguments and results of functions and instructions: borrowed terms, parts of them, integers, truth values, and
//! terms that were made.
//!
//! The contract: an `Operand` and a `Value` each represent a term (`operand_datum`, `value_datum` of `specs/`), and
//! each function that looks at one looks at that term. Only values that were made need memory.
//!
//! - `operand`: borrowed terms; `order`: comparing two operands in the order of terms.
//! - `value`: terms that are borrowed or were made.
#![tactic(auto)]

mod operand;
mod order;
mod value;

pub use operand::Operand;
pub use order::compare;
pub use value::{Value, drop_apart};
