//! Code of rows of tests: an assembler of code from terms, and the answers of code and of specifications.
//!
//! A program says which terms it accepts as code (`CodeTerms`). What is read from a row is generic in the allocator, so
//! that a test may make allocations fail meanwhile.
//!
//! - `instr`: instructions; `frame`: frames; `parts`: the parts of code, with its routines; `code`: code that a builder
//!   makes of them.
//! - `codes`: verified code from terms.
//! - `runs`: the answers of code on objects; `loads`: the answers of the code of a text on the objects that follow it,
//!   also by one machine that is called again after an allocation failed.
//! - `meanings`: the answers of a specification, and whether its code gives them too.
#![tactic(auto)]

mod code;
mod codes;
mod frame;
mod instr;
mod loads;
mod meanings;
mod parts;
mod runs;

pub use code::{Built, Part, build, code_of, is_code};
pub use codes::{CodeTerms, accepted};
pub use instr::instruction;
pub use loads::{again_outcome, is_loaded, run_outcome};
pub use meanings::{agrees, answers_of, answers_of_text};
pub use parts::{BodyParts, Parts, RoutineParts, parts_of};
pub use runs::{came, is_true, ran_each};
