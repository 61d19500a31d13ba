//! The code of expressions, as lines of symbolic code.
//!
//! The one contract is that of `Site::write_expression`: it puts the lines that `lines_at` of `specs/Expressions.antt`
//! says before other lines, for an expression that is sound under the head of its clause and has few enough nodes
//! (`specs/Writable.antt`). The last line is put first, so that it is known how far an instruction leads when it is
//! put.
//!
//! - The context of an expression: `site.rt`.
//! - Lines that need no expression: `put.rt`; the lines of each kind of expression: `write.rt`.
#![tactic(auto)]

mod put;
mod site;
mod write;

pub use site::Site;
