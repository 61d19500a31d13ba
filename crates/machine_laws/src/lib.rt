//! Laws of runs of code that speak of what the verifier found.
//!
//! The contract is that of `runs_stay_within_the_depth`: however far a run has come, the terms on the stacks of its body
//! and of those that wait for it are at most the depth that `verify` gives (`specs/Laws.antt`).
#![tactic(auto)]

mod laws;

pub use laws::runs_stay_within_the_depth;
