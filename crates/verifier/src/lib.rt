//! The verifier of code.
//!
//! The contract: `verify` accepts code exactly if `IsTyped` of `specs/Typing.antt` holds. That means that each body has
//! a state for each instruction, such that each instruction finds what it needs and leaves what the next one begins
//! with. It also means that no body's budget is above the limit. Otherwise `verify` hands the code back with the first
//! fault and its body (`IsFirstFault` of `specs/Faults.antt`). A `Verified` guarantees the typing, the exact budget and
//! the greatest depth, and only `verify` makes one.
//!
//! - `verification`: the bodies, from the last one; in each the frames, then each instruction in turn, then the budget;
//!   `pass`: what is known before an instruction, and after one more. What is known of a state, the checks of one
//!   instruction and what it leaves are in `verifier_types`.
//! - `verified`: what `verify` returns; `fault`: why it fails; `laws`: no code is both typed and at fault.
#![tactic(auto)]

mod fault;
mod laws;
mod pass;
mod verification;
mod verified;

pub use fault::BodyFault;
pub use laws::{depth_is_one, faulty_code_is_untyped, first_fault_is_one, plain_code_is_typed};
pub use verification::verify;
pub use verified::{Seen, Verified};
pub use verifier_types::Fault;
