//! The operand stack of the machine, and what instructions do to the values on it.
//!
//! The one contract: each method that stands for an instruction leads on from the stack, whose lowest places are in
//! use, as `does` of `mcode/specs/Machine.antt` says (`Does` of `specs/Flow.antt`), if it finds there what the
//! instruction needs. Instructions that make no term do not allocate if none of the terms was made, except calls of
//! more than 16 arguments.
//!
//! - `kinds`: the kinds of values; `values`: what instructions find in values, compare and compute; `made`: the terms
//!   that they make. The results for borrowed values are borrowed if no term is made.
//! - `cells`: lists under construction.
//! - `places`: a number of places, also for the slots; `stack`: what instructions do to them; `flow`: where one leads.
#![tactic(auto)]

mod cells;
mod flow;
mod kinds;
mod made;
mod places;
mod stack;
mod values;

pub use flow::Flow;
pub use places::{INLINE_PLACES, INLINE_SLOTS, Places};
