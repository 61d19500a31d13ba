//! The compiler: specifications become verified code.
//!
//! The one contract: `compile` returns the code that `code_of` of `compiler_clauses/specs/Clauses.antt` says, verified,
//! and every run of it ends with what the specification means. It fails only if an allocation fails: the code of a
//! specification is within the limits of code, and the verifier accepts it.
//!
//! - `compilation`: the code of a specification; `laws`: that such code answers as meant, how long it is, and how deep
//!   its stack. The lines of the templates: `compiler_clauses`, `compiler_patterns`, `compiler_expressions`; code from
//!   lines: `compiler_assembly`.
//! - `meaning`: a law for code whose frames are each at an instruction, as in typed code: it has a run for each object,
//!   which ends with what the specification means for it (`specs/Meaning.antt`). Runs are put together from parts
//!   (`Comes` of `specs/Reach.antt`): the lines of an expression push its value, and those of a pattern bind what it
//!   matches. If one fails, the run comes to the next clause with nothing on the stack. Expressions:
//!   `proofs/ExpressionLemmas.antt`, with `FailLemmas`, `MadeLemmas`, `ListLemmas`, `ArithmeticLemmas`, `ChoiceLemmas`
//!   and `BindingLemmas`; patterns: `proofs/PatternLemmas.antt`, over slots as `specs/Known.antt` sees them; clauses
//!   and specifications: `proofs/ClauseLemmas.antt`.
//! - `typing`: a law that the verifier accepts such code, whatever the specification (`specs/Typing.antt`). It is
//!   proved line by line: what an instruction needs and leaves is `IsFit` of `specs/Flow.antt`, in states with places
//!   and slots as `specs/Ready.antt` and `specs/Marked.antt` say. Expressions: `proofs/ExpressionFlow.antt`, with
//!   `StepLemmas`, `ChoiceFlow` and `ArithmeticFlow`; patterns: `proofs/PatternFlow.antt`; clauses:
//!   `proofs/ClauseFlow.antt`; the code as a whole: `proofs/ProgramFlow.antt`, `proofs/CodeFlow.antt`.
#![tactic(auto)]

mod compilation;
mod laws;
mod meaning;
mod typing;

pub use compilation::compile;
pub use laws::{code_is_shallow, code_is_short, compiled_code_answers_as_meant};
pub use meaning::code_runs_as_meant;
pub use typing::code_of_specifications_is_typed;
