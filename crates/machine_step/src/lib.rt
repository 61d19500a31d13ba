//! Runs of verified code without routines over an operand stack and slots that are kept from one run to the next.
//!
//! The one contract: `Execution::run` executes the code for an object, according to the machine's definition (`Runs` of
//! `mcode/specs/Machine.antt`): it returns the place of the answer, and the exact number of instructions executed. If
//! the code makes no term, no place holds a made one, and its stack has at most 16 places, it does not allocate
//! (`specs/Memory.antt`). That an instruction finds what it needs follows from the verifier's typing: if a call below
//! it tests that again, the arm of its failure is proved unreachable. What is known of a state that has the shape known
//! to the verifier is in `specs/Fits.antt`.
//!
//! - `execution`: what an instruction does to stack and slots, a step, and a run, which executes some rows of
//!   instructions at once (`Takes` and `Compares` of `specs/Flow.antt`); `stack`: which instructions depend only on the
//!   stack and the constants, whichever body of code they are in; `step`: the result of a step. What instructions do
//!   only to the stack is in `machine_stack`.
#![tactic(auto)]

mod execution;
mod inside;
mod stack;
mod step;

pub use execution::Execution;
pub use inside::execute;
