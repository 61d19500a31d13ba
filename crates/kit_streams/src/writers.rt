//! Writers of bytes.
use std::alloc::Global;
use std::io::{self, ErrorKind, Write};

/// What a writer does at the call that fails.
#[derive(Clone, Copy)]
pub enum Failure {
    /// The call fails, also if it is a flush.
    Fails,
    /// The call writes nothing and returns 0.
    TakesNothing,
    /// The call is interrupted, unless it is a flush.
    IsInterrupted,
}

/// A writer that accepts one byte at a call, except at its nth call, counted from 1. A flush counts as a call only if
/// `failure` is `Fails`.
#[derive(Drop)]
pub struct FailingWriter {
    pub calls_left: u32,
    pub failure: Failure,
    /// The bytes that it accepted.
    pub taken: Vec<u8>,
}

impl FailingWriter {
    /// Returns a writer that fails in this way at the call of this number, counted from 1.
    pub fn new(alloc: Global, call: u32, failure: Failure) -> FailingWriter {
        FailingWriter {
            calls_left: call,
            failure,
            taken: Vec::new(alloc),
        }
    }

    /// Counts a call, and returns whether it is the one that fails.
    fn is_due(&mut self) -> bool {
        let before = self.calls_left;
        self.calls_left = before.saturating_sub(1);
        before == 1
    }
}

impl Write for FailingWriter {
    fn write(&mut self, buf: &[u8]) -> io::Result<usize> {
        if self.is_due() {
            return match self.failure {
                Failure::Fails => Err(io::Error::from(ErrorKind::Other)),
                Failure::TakesNothing => Ok(0),
                Failure::IsInterrupted => Err(io::Error::from(ErrorKind::Interrupted)),
            };
        }
        let room = buf.len().min(1);
        self.taken.extend_from_slice(&buf[..room])?;
        Ok(room)
    }

    fn flush(&mut self) -> io::Result<()> {
        if matches!(self.failure, Failure::Fails) && self.is_due() {
            return Err(io::Error::from(ErrorKind::Other));
        }
        Ok(())
    }
}

/// A writer that holds the bytes back until it is flushed.
#[derive(Drop)]
pub struct HoldingWriter {
    pub held: Vec<u8>,
    pub passed: Vec<u8>,
}

impl Write for HoldingWriter {
    fn write(&mut self, buf: &[u8]) -> io::Result<usize> {
        self.held.extend_from_slice(buf)?;
        Ok(buf.len())
    }

    fn flush(&mut self) -> io::Result<()> {
        self.passed.extend_from_slice(self.held.as_slice())?;
        self.held.clear();
        Ok(())
    }
}
