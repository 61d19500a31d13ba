//! Streams for tests of commands: readers that fail or give a byte at a time, writers that fail or hold bytes back, and
//! inputs that several tests read.
//!
//! - `readers`, `writers`: each is a value whose fields say what it does.
//! - `inputs`: a code file, and a specification followed by objects.
#![tactic(auto)]

mod inputs;
mod readers;
mod writers;

pub use inputs::{FILE, INPUT};
pub use readers::{FailingReader, SlowReader};
pub use writers::{FailingWriter, Failure, HoldingWriter};
