//! The code of patterns, as lines of symbolic code.
//!
//! The one contract is that of `write_head`: it puts the lines that `head_lines` of `specs/Patterns.antt` says before
//! other lines, for a sound head with few enough nodes whose variables all have slots (`specs/Writable.antt`). No
//! instruction of a pattern says how far it leads, so they are written from the left, into a draft that records what is
//! bound after each. Time is linear in the nodes times the nesting depth of patterns.
//!
//! - Code that grows from the left, and which slots are bound after it: `draft.rt`, `specs/Written.antt`. The lines of
//!   a variable, whichever variables are known before: `slots.rt`, `variable_lines` of `specs/Leaves.antt`.
//! - Patterns that spell a term, which is one constant of the code, and that term (`spelled`): `own.rt`.
//! - The lines of each kind of pattern: `write.rt`; those of a head: `head.rt`.
#![tactic(auto)]

mod draft;
mod head;
mod own;
mod slots;
mod write;

pub use head::write_head;
pub use own::spelled;
