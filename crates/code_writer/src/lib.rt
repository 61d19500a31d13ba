//! Code files: code as bytes, where each part has only one spelling. The crate defines the format and writes files.
//!
//! The contract: `file_bytes` of `specs/File.antt` is the one file of code, made of the bytes of each part in
//! `specs/Spelling.antt`. `Spells` says which bytes are the file of which code. `encode` writes it. By the law
//! `one_code` no file spells two programs, and by `read_back` the file of code spells that code alone.
//!
//! - `opcode`: the opcodes of instructions, grouped by the arguments that they have.
//! - `laws`: laws of files.
//! - `number`, `instr`, `frame`, `constant`, `routine`: the parts, each appended to what was written; `encoding`: whole
//!   files.
//!
//! Readers use the formats of the parts, `specs/Formats.antt`.
#![tactic(auto)]

mod constant;
mod encoding;
mod frame;
mod instr;
mod laws;
mod number;
mod opcode;
mod routine;

pub use constant::put_constant;
pub use encoding::encode;
pub use laws::{one_code, read_back};
pub use opcode::{Bare, Double, MAX_OPCODE, MAX_PLAIN_OPCODE, Opcode, Single, Slotted};
