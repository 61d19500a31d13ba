//! The typing of one instruction of code: what is known of the machine's state before it, what it needs of that state,
//! and what it leaves.
//!
//! The contract: `check` accepts an instruction exactly if it is typed in a state (`IsTypedAt` of `specs/Fit.antt`),
//! and otherwise returns the first of its checks that fails (`IsFaultIn` of `specs/Faults.antt`). `leave` gives the
//! state after it.
//!
//! - A `Shape` has the kinds of the places of the stack and which slots are bound: `shape`, `specs/Shape.antt`. Places
//!   of any kind aren't stored (`specs/Kept.antt`).
//! - What an instruction needs of a state, and what it leaves, is in `specs/Effect.antt`. `effect`: whether a state has
//!   what is needed (`specs/Needed.antt`); `keys`: constants that are lists of keys.
//! - `checks`: the checks in their order; `fault`: their faults, with numbers; `leaving`: the state that is left.
#![tactic(auto)]

mod checks;
mod effect;
mod fault;
mod keys;
mod leaving;
mod shape;

pub use checks::check;
pub use effect::{argument_count, inner_depth};
pub use fault::Fault;
pub use keys::key_counts;
pub use leaving::leave;
pub use shape::Shape;

/// The largest depth of the operand stack, in places.
pub const MAX_DEPTH: u16 = 16_384;
