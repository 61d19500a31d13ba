//! Rows of tests as terms, and a judge of them: the result of each row is compared with the expected one.
//!
//! What is read from a row is generic in the allocator, so that a test may make allocations fail meanwhile. Such an
//! allocator is made in this crate alone: the code that a program calls is built and proved as a whole again for each
//! crate that makes an allocator for it.
//!
//! - What a row contains: `parts`, names, numbers and lists; `texts`, a text, in pieces that may be repeated, and the
//!   term that it spells; `functions`, a function by its name; `sizes`, how deep and how long a term is.
//! - `putting`: appends terms, for rows that are made; `let_go`: drops whole values.
//! - `rows`: the rows of a text, compared with what a program returns for each; `tally`: the number of rows of each
//!   kind; `outcome`: a result, as a text that is put together.
//! - Rows with failing allocations: `sweeps`, calls on a text in which each allocation fails in turn; `without`, calls
//!   in which each allocation fails once the text has been read.
#![tactic(auto)]

mod functions;
mod let_go;
mod outcome;
mod parts;
mod putting;
mod rows;
mod sizes;
mod sweeps;
mod tally;
mod texts;
mod without;

pub use functions::{arithmetic, function, primitive};
pub use let_go::{was_ok, was_some};
pub use outcome::{
    Outcome, canonical, digits, listed, numbered, refused, tagged, truth_name, word, written,
};
pub use parts::{elements, fields, is_atom, name, number, short};
pub use putting::{put, put_copy, put_pair};
pub use rows::{Kinds, judge_streams};
pub use sizes::{length, size_of};
pub use sweeps::{Calls, swept, swept_row};
pub use texts::{term_of, text};
pub use without::{Loads, without_row};
