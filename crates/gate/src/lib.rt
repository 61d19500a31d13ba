//! The gate of one part, through which sessions, each on a thread of its own, take turns at it.
//!
//! The one contract: each `turn` returns what the part answers at that point of one legal history. The history begins
//! with all that the session's pass had seen, continues with entries of other sessions only, and ends with the turn's
//! entry (`IsTurn` of `specs/Views.antt`). Of what two passes have seen, one begins with the other (`meet`). The part
//! that is left at the end is in the state after a history that begins with what the last pass had seen (`close`).
//!
//! - `gate`: the gate and its methods. `pass`: with which a session goes through it. `closed`: gates that were closed
//!   together. `lost`: why a gate can't return the part.
//! - `session`: a session's passes through the gates of a table, by the numbers of the parts (`specs/Sessions.antt`).
//! - `view`, `rule`: what each pass knows, in terms of the rule that holds between any two steps at the gate
//!   (`specs/Rule.antt`), and what each step returns (`specs/Steps.antt`).
#![tactic(auto)]

mod closed;
mod gate;
mod lost;
mod pass;
mod rule;
mod session;
mod view;

pub use closed::Closed;
pub use gate::Gate;
pub use lost::Lost;
pub use pass::Pass;
pub use session::Session;
