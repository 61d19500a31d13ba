//! Readers over bytes.
use std::io::{self, ErrorKind, Read};

/// A reader over bytes that gives at most 7 at a call. It fails at its nth call, counted from 1, and at later ones.
#[derive(Drop)]
pub struct FailingReader<'a> {
    pub bytes: &'a [u8],
    pub calls_left: u32,
}

impl<'a> Read for FailingReader<'a> {
    fn read(&mut self, buf: &mut [u8]) -> io::Result<usize> {
        self.calls_left = self.calls_left.saturating_sub(1);
        if self.calls_left == 0 {
            return Err(io::Error::from(ErrorKind::Other));
        }
        let room = buf.len().min(7).min(self.bytes.len());
        self.bytes.read(&mut buf[..room])
    }
}

/// A reader over blanks followed by bytes, which gives one at a call. If it is to be interrupted, it fails as
/// interrupted before each of them.
#[derive(Drop)]
pub struct SlowReader<'a> {
    pub blanks: u32,
    pub bytes: &'a [u8],
    pub is_interrupted: bool,
    pub is_due: bool,
}

impl<'a> Read for SlowReader<'a> {
    fn read(&mut self, buf: &mut [u8]) -> io::Result<usize> {
        if self.is_interrupted && !self.is_due {
            self.is_due = true;
            return Err(io::Error::from(ErrorKind::Interrupted));
        }
        self.is_due = false;
        if buf.is_empty() {
            return Ok(0);
        }
        if self.blanks > 0 {
            self.blanks -= 1;
            buf[0] = b' ';
            return Ok(1);
        }
        let room = 1.min(self.bytes.len());
        self.bytes.read(&mut buf[..room])
    }
}
