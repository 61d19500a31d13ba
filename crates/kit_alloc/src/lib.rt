//! An allocator for tests, which refuses the requests for blocks that its plan names: one, all from
//! one on, or none. A test runs its code with request 1, 2, 3, .. refused, alone and together with
//! all later ones, and checks the result. The allocator also counts the blocks that are not freed,
//! so that a test detects leaks.
//!
//! Proved: a block comes from the inner allocator and is freed there, which requests a plan
//! refuses, and how a sweep ends (`SweepsTo` of `specs/Sweeps.antt`). Tested: that a request is
//! refused exactly if the plan says so of its number, since the contract of an allocator leaves
//! open when a request fails; and the counts, since no clause can name what an atomic contains.
//!
//! - `plan`: which requests are refused.
//! - `gate`: the counts of requests and of freed blocks, which threads share.
//! - `failing`: the allocator.
//! - `sweeps`: runs of a closure with each request refused in turn.
#![tactic(auto)]

mod failing;
mod gate;
mod plan;
mod sweeps;

pub use failing::Failing;
pub use plan::Plan;
pub use sweeps::{SweepOutcome, sweep, sweep_onward};
