//! The machine that runs verified code.
//!
//! The one contract: `run` gives the answer of the run of the code on an object, by the machine's definition (`HasRun` of
//! `mcode/specs/Run.antt`), and the exact number of instructions executed, of all bodies, which is at most the budget; no
//! state of the run is stuck. `run_true` gives whether that answer is `true`, and the same number; of code without
//! routines that makes no terms, and has few places and slots, it takes no memory.
//!
//! - `runs`: a `Machine`, which is made once and runs on any number of objects, and runs on one object; `placed`: the
//!   places that the first run which needs them makes. What a run of the main body does is in `machine_step`; code with
//!   routines that is not answered without places goes to `machine_bodies`, where the laws of runs are, too.
#![tactic(auto)]

mod placed;
mod runs;

pub use machine_bodies::{
    machine_is_deterministic, runs_end_with_the_answer, runs_stay_within_the_budget,
    typed_code_ends, typed_code_is_never_stuck,
};
pub use machine_stack::{INLINE_PLACES, INLINE_SLOTS};
pub use runs::{Machine, run, run_true};
