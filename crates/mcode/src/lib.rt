//! Code for the matching machine, and what the machine does with it.
//!
//! The contract: a `Code` satisfies the limits on counts and the order of frames of `IsWhole` (`specs/Program.antt`),
//! and nothing else is known of it. `Builder` makes it part by part, and rejects parts that would break this. What each
//! instruction does is `does` of `specs/Machine.antt`; a run is `Runs`.
//!
//! - `instr`: the instructions; `kind`: the kinds of terms that the verifier distinguishes (`specs/Kind.antt`);
//!   `frame`: what is known at the targets of jumps.
//! - `code`: code; `parts`: the parts of each of its bodies; `routine`: a body that others invoke; `body`: code viewed
//!   from one of its bodies (`specs/Program.antt`), and runs over all of them (`specs/Run.antt`).
//! - `builder`: building code; `fault`: why a part is rejected.
#![tactic(auto)]

mod body;
mod builder;
mod code;
mod fault;
mod frame;
mod instr;
mod kind;
mod parts;
mod routine;

pub use body::Body;
pub use builder::Builder;
pub use code::Code;
pub use fault::Fault;
pub use frame::{Frame, Places, Slots};
pub use instr::Instr;
pub use kind::Kind;
pub use routine::Routine;

/// The largest number of constants, instructions or frames of code, and of places of a frame.
pub const MAX_COUNT: usize = 65_535;
/// The largest number of slots of a body.
pub const MAX_SLOTS: u16 = 256;
/// The largest number of routines.
pub const MAX_ROUTINES: usize = 255;
/// The largest number of arguments of a routine.
pub const MAX_ARGUMENTS: usize = 255;
