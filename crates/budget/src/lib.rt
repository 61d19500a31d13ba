//! The budget of code: the largest number of instructions that a run can execute. It can be computed without a run if
//! every jump goes forward and each body invokes only bodies with higher numbers.
//!
//! The contract: `longest` returns the largest number of instructions on a path from instruction 0 of the main body
//! (`IsBudget` of `specs/Paths.antt`). It requires code for which `all_forward` returns true, and returns `None` if the
//! budget of some body is above `MAX_BUDGET`.
//!
//! - `forward`: whether every jump and every invocation goes forward.
//! - `paths`: the longest path of each body, by one pass from its last instruction to the first.
//! - `laws`: code has only one budget.
#![tactic(auto)]

mod forward;
mod laws;
mod paths;

pub use forward::all_forward;
pub use laws::budget_is_one;
pub use paths::{budget_of, longest};

/// The largest budget that a body of code may have.
pub const MAX_BUDGET: u32 = 2_147_483_648;
