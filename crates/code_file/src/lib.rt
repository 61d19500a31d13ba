//! Code files: code as bytes. Files may come from untrusted sources.
//!
//! The contract: `decode` returns the code that a file spells (`Spells` of `code_writer`). It rejects only what is not
//! a code file, unless memory runs out. The fault says what is wrong and where (`IsNoFile`, in `specs/Faults.antt`):
//! the bytes before that place are the beginning of a file, an item is due there (`specs/Due.antt`), and the bytes
//! there are wrong for that item (`specs/Causes.antt`). `encode` writes a file, and the laws `one_code` and `read_back`
//! say that reading and writing are inverse.
//!
//! Each reader of a part returns the value at the beginning of some bytes and the rest, or why they do not begin with a
//! value (`FileStop`). In any file in which the part is due before these bytes, the cause is at the place
//! (`specs/Reads.antt`). Places are counted in the bytes that are left.
//!
//! - `stop`: why a reader stops; `number`: numbers and rows of bytes; `constant`: terms, at most 255 levels deep;
//!   `instr`: instructions; `frame`: frames; `count`: numbers that have a limit.
//! - `body`: the parts of code, read into a builder; `routine`: routines; `header`: the magic and the version;
//!   `reading`: whole files, of both versions; `fault`: why a file can't be read.
#![tactic(auto)]

mod body;
mod constant;
mod count;
mod fault;
mod frame;
mod header;
mod instr;
mod number;
mod reading;
mod routine;
mod stop;

pub use code_writer::{encode, one_code, read_back};
pub use constant::read_constant;
pub use fault::FileFault;
pub use reading::decode;
pub use stop::{FileCause, FileStop};
