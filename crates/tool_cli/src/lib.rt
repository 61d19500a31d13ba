//! The program `ets_tool`, from the words of its command line to its exit status.
//!
//! The contract is that of `run_program`: what its two streams gain and its exit status, according to what its words
//! request and what the commands of `tool_query`, `tool_explain`, `tool_scan` and `tool_script` write. `run_words` runs
//! the program on given words, and `run_invocation` runs one command. `run_request` runs a command and reports a fault
//! by its error line alone; `run_explained` also reports what the fault means.
//!
//! - `program`: from words to an exit status, `specs/Program.antt`.
//! - `telling`: where the program reports why it ends early, `specs/Telling.antt`.
//! - `why`: what a fault means, `specs/Why.antt`; `place`: the place of a byte in a text, `specs/Place.antt`.
//! - `words`: what the words of the command line request, `specs/Words.antt`.
#![tactic(auto)]

mod place;
mod program;
mod telling;
mod why;
mod words;

pub use place::columns_are_characters;
pub use program::{run_explained, run_invocation, run_program, run_request, run_words};
pub use telling::{Tell, Told};
pub use words::{Detail, Invocation, Request, read_words};
