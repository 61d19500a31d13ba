//! Runs over all bodies of code.
//!
//! The one contract: `run_bodies` gives the answer of the run of verified code on an object, and the exact number of
//! instructions executed, by `HasRun` of `mcode/specs/Run.antt`, the run in which bodies that invoked routines wait.
//!
//! - `bodies`: the run, turn by turn, with a list of the bodies that wait (`specs/Going.antt`); `activation`: one body
//!   that was entered, with places of its own (`specs/Stands.antt`); `came`: what an instruction comes to.
//! - `laws`: that a run has one end, that typed code is never stuck and ends with its answer (`answer_of` of
//!   `mcode/specs/Answer.antt`), and that no run passes the budget (`specs/Laws.antt`).
#![tactic(auto)]

mod activation;
mod bodies;
mod came;
mod laws;

pub use bodies::run_bodies;
pub use laws::{
    machine_is_deterministic, runs_end_with_the_answer, runs_stay_within_the_budget,
    typed_code_ends, typed_code_is_never_stuck,
};
