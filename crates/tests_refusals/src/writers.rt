//! Writers that fail, or hold all bytes back until they are flushed.
use crate::streams::status_of;
use kit_streams::{FILE, FailingWriter, Failure, HoldingWriter, INPUT};
use std::alloc::Global;
use std::sync::Wait;
use std::thread::Threads;
use term_text::Form;
use tool_cli::{Request, Told, run_words};
use tool_io::ToolFault;
use tool_query::tool_run;
use tool_scan::{ScanKind, ScanOptions};

/// Returns whether a command over this input has passed these lines on when it ends, to a writer that holds bytes back
/// until it is flushed.
fn passes_on<H: Threads + Wait + Sync>(
    rt: &H,
    alloc: Global,
    request: Request,
    input: &str,
    lines: &str,
) -> bool {
    let mut reader = input.as_bytes();
    let mut writer = HoldingWriter {
        held: Vec::new(alloc),
        passed: Vec::new(alloc),
    };
    let mut err = Told::new(Vec::new(alloc));
    let _status = status_of(rt, alloc, request, &mut reader, &mut writer, &mut err);
    writer.passed.as_slice() == lines.as_bytes()
}

/// An input of two objects, of which one matches.
const MATCHED: &str = "[{{'$1'},[],['$1']}]. {1}. a.";

/// The file of the code of a specification without clauses.
const EMPTY: &str = "<<69,77,83,67,0,1,0,0,0,0,0,1,25,0,0>>.\n";

/// Its explanation.
const EXPLAINED: &str = "\
walk at keypos 1: 0 looked up:
instructions of a run at most 1, stack at most 0
    0  no_answer
";

#[test]
fn all_lines_are_passed_on(rt: HostRuntime) {
    let options = ScanOptions {
        kind: ScanKind::Set,
        keypos: 1,
        parts: 2,
        workers: 2,
    };
    assert!(rt;
        passes_on(
            &rt,
            rt.alloc(),
            Request::Run(Form::Canonical),
            MATCHED,
            "1.\n"
        )
    );
    assert!(rt;
        passes_on(
            &rt,
            rt.alloc(),
            Request::Test(Form::Canonical),
            MATCHED,
            "{ok,1}.\nfalse.\n"
        )
    );
    assert!(rt; passes_on(&rt, rt.alloc(), Request::Compile, "[].", EMPTY));
    assert!(rt; passes_on(&rt, rt.alloc(), Request::Verify, FILE, "{ok,2,1}.\n"));
    assert!(rt; passes_on(&rt, rt.alloc(), Request::Explain(1), "[].", EXPLAINED));
    assert!(rt;
        passes_on(
            &rt,
            rt.alloc(),
            Request::Script,
            "{close}.",
            "{error,65}.\n"
        )
    );
    assert!(rt; passes_on(&rt, rt.alloc(), Request::Shell, "{close}.", "{error,65}.\n"));
    assert!(rt; passes_on(&rt, rt.alloc(), Request::Scan(options), INPUT, "2.\n1.\n"));
}

fn run_writing(alloc: Global, call: u32) -> Result<(), ToolFault> {
    let mut reader = INPUT.as_bytes();
    let mut writer = FailingWriter::new(alloc, call, Failure::Fails);
    tool_run(alloc, Form::Canonical, &mut reader, &mut writer)
}

#[test]
fn a_writer_that_fails_is_refused(rt: HostRuntime) {
    // The calls for its six bytes, and the flush.
    for call in 1..8 {
        assert!(rt; run_writing(rt.alloc(), call) == Err(ToolFault::WriteFailed));
    }
    assert!(rt; run_writing(rt.alloc(), 60) == Ok(()));
}

/// Returns the exit status of `help` if standard output fails at the third byte, and whether this is what standard
/// error gets.
fn left_by_unwritten_help<H: Threads + Wait + Sync>(
    rt: &H,
    alloc: Global,
    told: &str,
) -> (u8, bool) {
    let mut reader = "".as_bytes();
    let mut out = FailingWriter::new(alloc, 3, Failure::Fails);
    let mut err = Told::new(Vec::new(alloc));
    let words = ["ets_tool", "help"];
    let status = run_words(rt, alloc, words.as_slice(), &mut reader, &mut out, &mut err);
    (status, err.writer.as_slice() == told.as_bytes())
}

#[test]
fn help_that_cannot_be_written_is_refused(rt: HostRuntime) {
    assert!(rt; left_by_unwritten_help(&rt, rt.alloc(), "error E71\n") == (4, true));
}

/// Returns the exit status of `run` if the first term is no specification and standard error fails, and whether that
/// failure is remembered.
fn left_by_an_untold_refusal<H: Threads + Wait + Sync>(rt: &H, alloc: Global) -> (u8, bool) {
    let mut reader = "a.".as_bytes();
    let mut out = Vec::new(alloc);
    let mut err = Told::new(FailingWriter::new(alloc, 2, Failure::Fails));
    let request = Request::Run(Form::Canonical);
    let status = status_of(rt, alloc, request, &mut reader, &mut out, &mut err);
    (status, err.has_failed)
}

/// Returns whether a standard error that holds bytes back gets this line passed on when the first term of `run` is no
/// specification, and whether it reports a failure.
fn passed_on_of_a_refusal<H: Threads + Wait + Sync>(
    rt: &H,
    alloc: Global,
    line: &str,
) -> (bool, bool) {
    let mut reader = "a.".as_bytes();
    let mut out = Vec::new(alloc);
    let mut err = Told::new(HoldingWriter {
        held: Vec::new(alloc),
        passed: Vec::new(alloc),
    });
    let request = Request::Run(Form::Canonical);
    let _status = status_of(rt, alloc, request, &mut reader, &mut out, &mut err);
    let has_failed = err.has_failed;
    let writer = err.writer;
    (writer.passed.as_slice() == line.as_bytes(), has_failed)
}

#[test]
fn a_refusal_is_told(rt: HostRuntime) {
    assert!(rt; left_by_an_untold_refusal(&rt, rt.alloc()) == (2, true));
    assert!(rt; passed_on_of_a_refusal(&rt, rt.alloc(), "error E10\n") == (true, false));
}
