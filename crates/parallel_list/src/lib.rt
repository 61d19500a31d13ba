//! Answering a list of objects with several threads.
//!
//! The one contract: `run_list` returns the answers of code for a list of objects, in their order, whatever the number
//! of threads.
//!
//! - `list`: the runs of a list, in threads (`specs/Runs.antt`); `runs`: a run of objects, which one machine answers.
#![tactic(auto)]

mod list;
mod runs;

pub use list::{LEAST_RUN, run_list};
