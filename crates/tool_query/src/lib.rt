//! The commands of `ets_tool` that run queries: match specifications and code files over terms, from a reader to a
//! writer.
//!
//! The contract is that of `tool_run`, `tool_test`, `tool_compile` and `tool_verify`: what is written is the output for
//! the terms that were read, according to the grammar of specifications, their meaning, the format of code files and
//! the typing of code. If the input is rejected, nothing is written, and the fault names the reason.
//!
//! - `query`: which query the first term of an input is, and its code by way of its file, `specs/Query.antt`.
//! - `answers`: the lines of answers on objects, `specs/Answers.antt`; `run`: the commands that write them,
//!   `specs/Run.antt`.
//! - `file`: the commands `compile` and `verify`, `specs/Code.antt`.
//! - `laws`: the output is a function of the input, `specs/Laws.antt`.
#![tactic(auto)]

mod answers;
mod file;
mod laws;
mod query;
mod run;

pub use file::{only, tool_compile, tool_verify};
pub use laws::output_is_one;
pub use query::{file_of, load, specification_of};
pub use run::{tool_run, tool_test};
