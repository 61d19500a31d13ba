//! Selection by several threads.
//!
//! The contracts: `select_parts`, `count_parts` and `delete_parts` make one walk through each part of a table, each by
//! the session of one worker (`specs/Parts.antt`). In every interleaving, what a walk gains is its answer
//! (`specs/Laws.antt`). `run_list` of `parallel_list`, the answers for a list of objects, is re-exported.
//!
//! - `gained`: what walks gain; `visits`: the visits of a walk through one part; `part`: such a walk with its own fix;
//!   `worker`: the walks of one worker; `workers`: workers in parallel; `selecting`: the public functions; `fault`:
//!   their errors; `laws`: what the walks mean.
#![tactic(auto)]

mod fault;
mod gained;
mod laws;
mod part;
mod selecting;
mod visits;
mod worker;
mod workers;

pub use fault::SelectFault;
pub use laws::{
    broken_parts_are_gathered, counts_join, parts_are_answered, parts_join, removals_join,
};
pub use parallel_list::{LEAST_RUN, run_list};
pub use selecting::{MOST_MEMBERS, count_parts, delete_parts, select_parts};
