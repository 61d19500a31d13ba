//! Readers that fail, give one byte at a time or are interrupted.
use kit_streams::{FailingReader, INPUT, SlowReader};
use std::alloc::Global;
use term_text::Form;
use tool_io::{ToolFault, read_within};
use tool_query::tool_run;

/// Returns what a reader of one byte a read gives within `limit` reads.
fn read_slowly(
    alloc: Global,
    bytes: &[u8],
    is_interrupted: bool,
    limit: u32,
) -> Result<Vec<u8>, ToolFault> {
    let mut reader = SlowReader {
        blanks: 0,
        bytes,
        is_interrupted,
        is_due: false,
    };
    read_within(alloc, limit, &mut reader)
}

/// Returns whether these bytes are read within `reads` reads, and not within one read less.
fn takes_reads(alloc: Global, bytes: &[u8], is_interrupted: bool, reads: u32) -> bool {
    let is_whole = match read_slowly(alloc, bytes, is_interrupted, reads) {
        Ok(read) => read.as_slice() == bytes,
        Err(_) => false,
    };
    let short = read_slowly(alloc, bytes, is_interrupted, reads.saturating_sub(1));
    is_whole && short.err() == Some(ToolFault::ReadFailed)
}

#[test]
fn reads_are_counted(rt: HostRuntime) {
    let alloc = rt.alloc();
    assert!(rt; takes_reads(alloc, b"", false, 1));
    assert!(rt; takes_reads(alloc, b"abc", false, 4));
    assert!(rt; takes_reads(alloc, b"", true, 2));
    assert!(rt; takes_reads(alloc, b"abc", true, 8));
}

/// Returns whether `run` writes these lines for 100,000 blanks followed by this input, read byte by byte.
fn writes_slowly(alloc: Global, input: &str, is_interrupted: bool, lines: &str) -> bool {
    let mut reader = SlowReader {
        blanks: 100_000,
        bytes: input.as_bytes(),
        is_interrupted,
        is_due: false,
    };
    let mut written = Vec::new(alloc);
    match tool_run(alloc, Form::Canonical, &mut reader, &mut written) {
        Ok(()) => written.as_slice() == lines.as_bytes(),
        Err(_) => false,
    }
}

#[test]
fn a_slow_reader_is_read_to_its_end(rt: HostRuntime) {
    for is_interrupted in [false, true] {
        let input = "[{'_',[],[ok]}]. 1. 2.";
        assert!(rt; writes_slowly(rt.alloc(), input, is_interrupted, "ok.\nok.\n"));
    }
}

fn run_reading(alloc: Global, call: u32) -> Result<(), ToolFault> {
    let mut reader = FailingReader {
        bytes: INPUT.as_bytes(),
        calls_left: call,
    };
    let mut written = Vec::new(alloc);
    tool_run(alloc, Form::Canonical, &mut reader, &mut written)
}

#[test]
fn a_reader_that_fails_is_refused(rt: HostRuntime) {
    for call in 1..6 {
        assert!(rt; run_reading(rt.alloc(), call) == Err(ToolFault::ReadFailed));
    }
    assert!(rt; run_reading(rt.alloc(), 60) == Ok(()));
}
