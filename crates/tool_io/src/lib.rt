//! What the commands of `ets_tool` read and write: the terms of an input, lines of terms, and the error line.
//!
//! The contract: `read_input` returns the terms that a reader's bytes spell, at least one. It rejects any other input
//! with a fault that names what is wrong and the byte where it is. `read_script` does so too, but also accepts an input
//! without terms. `text_of`, `first_of` and `next_of` do so term by term. Lines are the canonical texts of terms; what
//! is gathered is either written or kept. `fault_line` appends the error code of a fault and its arguments.
//!
//! - `input`: the input, read whole, `specs/Input.antt`; `terms`: its terms, `specs/Terms.antt`.
//! - `lines`: lines that are gathered and then written, `specs/Lines.antt`.
//! - `fault`: why a command ends early, and the error line for it, `specs/Fault.antt`; conversion from faults of lower
//!   crates, `specs/Wrapped.antt`. `numbers`: the program's own error codes.
#![tactic(auto)]

mod fault;
mod input;
mod lines;
mod numbers;
mod terms;

pub use fault::{ToolFault, fault_line};
pub use input::{most_reads, read_whole, read_within};
pub use lines::{out_of_memory, put_line, put_line_in, write_if_many, write_lines};
pub use numbers::{
    BAD_INPUT, BAD_LIMIT, READ_FAILED, STRANGER_CONTINUATION, STRANGER_SESSION, WRITE_FAILED,
};
pub use terms::{first_of, next_of, read_input, read_script, text_of};
