//! What match specifications mean: a plain evaluator.
//!
//! The contract is that of `evaluate`: it returns the answer that the specification has on an object (`Means`, in
//! `specs/Meaning.antt`), or fails because memory ran out.
//!
//! - What the value of an expression depends on (whether it is in a condition or a body, the values of the variables,
//!   and the object): `environment.rt`. What is computed from the values of its parts: terms that are made, `made.rt`;
//!   calls, `called.rt`; arguments of `andalso` and `orelse`, `decided.rt`. The value of a failure:
//!   `mspec_match::failure`.
//! - The values of expressions: `value.rt`. A value is borrowed until it becomes part of a term or the answer
//!   (`term_operand::Value`).
//! - Clauses and specifications: `clauses.rt`. When a head matches: `mspec_match`.
//! - Laws of the meaning: `laws.rt`, `specs/Laws.antt`.
#![tactic(auto)]

mod called;
mod clauses;
mod decided;
mod environment;
mod laws;
mod made;
mod value;

pub use clauses::evaluate;
pub use laws::{
    applicable_clauses_answer, empty_answers_nothing, first_clause_decides, one_answer_is_meant,
};
