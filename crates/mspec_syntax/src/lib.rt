//! Match specifications: what `ets` calls a match specification, and which term is read as which specification.
//!
//! The contract is that of `Spec::clauses`: a `Spec` is a specification within the limits that is read from some term
//! (`IsReadable`, in `specs/Faults.antt`), and all its parts are sound (`IsSoundClause`, in `specs/Sound.antt`).
//! `mspec_reader` reads a specification from a term.
//!
//! - What is read: `specs/Specification.antt`, with `specs/Pattern.antt` and `specs/Expression.antt`; `clause.rt`,
//!   `pattern.rt`, `expression.rt`, `variables.rt`. Whether an expression is in a condition or a body: `mode.rt`,
//!   `specs/Mode.antt`.
//! - What atoms mean: `specs/Word.antt`, `Callee.antt`, `Sought.antt`; `word.rt`.
//! - Which term is read as which specification: `specs/Grammar.antt`. The faults of a term, in reading order:
//!   `specs/Faults.antt`; `fault.rt`.
#![tactic(auto)]

mod clause;
mod expression;
mod fault;
mod mode;
mod pattern;
mod variables;
mod word;

pub use clause::{Clause, Spec};
pub use expression::{Expression, ExpressionKind};
pub use fault::SpecFault;
pub use mode::{Mode, exit_term};
pub use pattern::{Pattern, PatternKind};
pub use variables::Variables;
pub use word::{Callee, Sought, Word};

/// The largest number of digits of a variable's number.
pub const MAX_DIGITS: usize = 8;
