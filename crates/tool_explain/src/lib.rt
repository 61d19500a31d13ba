//! The command `explain` of `ets_tool`: which objects a walk by a specification visits, and the code that answers it,
//! from a reader to a writer.
//!
//! The contract is that of `tool_explain`: the output is the plan of a walk, the bounds of a run, and the listing of
//! the code of the query that the only term is. The listing has each instruction in three columns, and a constant that
//! is too long for them once, after the instructions. Nothing is written if the input is rejected. If memory runs out, a
//! beginning of the text is written, maybe nothing.
//!
//! - `table`: the columns of instructions, `specs/Table.antt`.
//! - `listing`: the lines of code, `specs/Listing.antt`, passed to the writer line by line, `specs/Passing.antt`.
//! - `plan`: the lines above them, `specs/Plan.antt`.
//! - `explain`: the command, `specs/Explain.antt`; `laws`: the output is a function of the input, `specs/Laws.antt`.
#![tactic(auto)]

mod explain;
mod laws;
mod listing;
mod plan;
mod table;
mod text;

pub use explain::tool_explain;
pub use laws::explanation_is_one;
