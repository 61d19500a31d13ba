//! Symbolic code, and how it becomes code. Its instructions contain their constants, and give a target as the number of
//! lines to skip.
//!
//! The one contract: `assemble` returns the code that `assembled` of `specs/Assembled.antt` says, with each constant
//! once, in order of first use, and a frame for each label. It fails if an allocation fails, or if the result would not
//! be code. By the law of `laws`, each line is at its position in the code (`specs/Stands.antt`).
//!
//! - `op`: symbolic instructions and their targets; `line`: an instruction with the label after it.
//! - `lines`: lists of lines, which grow at the front; `block`: a list of lines that fail together.
//! - `pool`: constants, each once; `instruction`: converting symbolic instructions; `assembler`: code from blocks;
//!   `laws`: properties of assembled code.
#![tactic(auto)]

mod assembler;
mod block;
mod instruction;
mod laws;
mod line;
mod lines;
mod op;
mod pool;

pub use assembler::assemble;
pub use block::Block;
pub use laws::assembled_code_stands;
pub use line::{Label, Line};
pub use lines::Lines;
pub use op::{Op, Target};
