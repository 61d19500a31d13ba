//! Commands whose reader or writer fails at each of its calls in turn, gives a byte at a time, accepts nothing or is
//! interrupted.
use crate::sweeps::lines_in;
use kit_streams::{FILE, FailingReader, FailingWriter, Failure, INPUT, SlowReader};
use part_hash::HashPart;
use std::alloc::Global;
use std::io::{Read, Write};
use std::sync::Wait;
use std::thread::Threads;
use term_text::Form;
use tool_cli::{Request, Told, run_request};
use tool_scan::{ScanKind, ScanOptions};

/// More calls than a stream gets here.
const MOST_CALLS: u32 = 10_000;

/// The bytes that a failing reader gives at a call.
const BYTES_OF_A_CALL: usize = 7;

/// A command, with an input on which it ends well.
#[derive(Clone, Copy)]
struct Case {
    request: Request,
    input: &'static str,
}

/// What is tried with a command.
#[derive(Clone, Copy)]
enum Trial {
    /// Its reader fails at each call in turn.
    Unread,
    /// Its writer fails in this way at each call in turn.
    Unwritten(Failure),
    /// Its reader gives a byte at a time, and is interrupted before each if this is `true`.
    Slow(bool),
}

/// Commands on a table, each with a reply.
const SCRIPT: &str = "{open,set,1,1,1}. {insert,0,{1,[a]}}. {lookup,0,1}. {close}.";

/// Commands on a table for a shell, and a text that is rejected.
const SHELL: &str = "{open,set,1,1,1}.\n{insert,0,{1,[a]}}.\n{lookup 0,1}.\n{close}.\n";

/// The replies of a shell to these commands.
const REPLIES: [&str; 4] = ["true.\n", "true.\n", "{error,5,8}.\n", "[{1,[a]}].\n"];

/// Each command that reads, a scan by two workers.
const CASES: [Case; 8] = [
    Case {
        request: Request::Run(Form::Canonical),
        input: INPUT,
    },
    Case {
        request: Request::Test(Form::Canonical),
        input: INPUT,
    },
    Case {
        request: Request::Compile,
        input: "[{'_',[],[true]}].",
    },
    Case {
        request: Request::Verify,
        input: FILE,
    },
    Case {
        request: Request::Explain(1),
        input: FILE,
    },
    Case {
        request: Request::Script,
        input: SCRIPT,
    },
    Case {
        request: Request::Scan(ScanOptions {
            kind: ScanKind::Set,
            keypos: 1,
            parts: 2,
            workers: 2,
        }),
        input: INPUT,
    },
    Case {
        request: Request::Shell,
        input: SHELL,
    },
];

impl Case {
    /// Returns how many replies a command has made if its reader fails at this call: for a shell those to the lines
    /// that were read before, for any other command none.
    fn replies_before(self, call: u32) -> usize {
        match self.request {
            Request::Shell => {
                let bytes = self.input.as_bytes();
                let given = (call.saturating_sub(1) as usize).saturating_mul(BYTES_OF_A_CALL);
                lines_in(&bytes[..given.min(bytes.len())])
            }
            _ => 0,
        }
    }
}

/// Returns the exit status of a command over these streams.
pub(crate) fn status_of<H: Threads + Wait + Sync, R: Read, W: Write, E: Write + Drop>(
    rt: &H,
    alloc: Global,
    request: Request,
    reader: &mut R,
    writer: &mut W,
    err: &mut Told<E>,
) -> u8 {
    run_request::<H, HashPart<Global>, _, _, _, _>(rt, alloc, request, reader, writer, err)
}

/// Returns the exit status of a command over these streams, and whether it reports this error line.
fn ended<H: Threads + Wait + Sync, R: Read, W: Write>(
    rt: &H,
    alloc: Global,
    request: Request,
    reader: &mut R,
    writer: &mut W,
    line: &str,
) -> (u8, bool) {
    let mut err = Told::new(Vec::new(alloc));
    let status = status_of(rt, alloc, request, reader, writer, &mut err);
    (status, err.writer.as_slice() == line.as_bytes())
}

/// Returns whether the output is the first `lines` replies of a shell.
fn is_replied(written: &[u8], lines: usize) -> bool {
    let mut rest = written;
    for place in 0..REPLIES.len().min(lines) {
        let Some(behind) = rest.strip_prefix(REPLIES[place].as_bytes()) else {
            return false;
        };
        rest = behind;
    }
    rest.is_empty()
}

/// Returns whether a command whose reader fails at this call ends with that fault, and writes the replies that it has
/// made before.
fn is_unread<H: Threads + Wait + Sync>(rt: &H, alloc: Global, case: Case, call: u32) -> bool {
    let mut reader = FailingReader {
        bytes: case.input.as_bytes(),
        calls_left: call,
    };
    let mut out: Vec<u8> = Vec::new(alloc);
    let ended = ended(
        rt,
        alloc,
        case.request,
        &mut reader,
        &mut out,
        "error E70\n",
    );
    ended == (4, true) && is_replied(out.as_slice(), case.replies_before(call))
}

/// Returns how many calls of its reader a command makes that succeeds, or 0 if it does not succeed.
fn reads_of<H: Threads + Wait + Sync>(rt: &H, alloc: Global, case: Case) -> u32 {
    let mut reader = FailingReader {
        bytes: case.input.as_bytes(),
        calls_left: MOST_CALLS,
    };
    let mut out: Vec<u8> = Vec::new(alloc);
    if ended(rt, alloc, case.request, &mut reader, &mut out, "") == (0, true) {
        MOST_CALLS.saturating_sub(reader.calls_left)
    } else {
        0
    }
}

/// Returns whether a command ends with the fault at each call of its reader in turn, including the one that finds the
/// end.
fn is_refused_at_each_read<H: Threads + Wait + Sync>(rt: &H, alloc: Global, case: Case) -> bool {
    let reads = reads_of(rt, alloc, case);
    let mut is_right = 1 < reads;
    for call in 0..reads {
        is_right = is_unread(rt, alloc, case, call.saturating_add(1)) && is_right;
    }
    is_right
}

/// Returns whether a command whose writer fails in this way at this call ends with that fault.
fn is_unwritten<H: Threads + Wait + Sync>(
    rt: &H,
    alloc: Global,
    case: Case,
    call: u32,
    failure: Failure,
) -> bool {
    let mut reader = case.input.as_bytes();
    let mut writer = FailingWriter::new(alloc, call, failure);
    let request = case.request;
    let ended = ended(rt, alloc, request, &mut reader, &mut writer, "error E71\n");
    ended == (4, true)
}

/// Returns whether a command whose writer is interrupted at this call writes its whole output.
fn is_written_all_the_same<H: Threads + Wait + Sync>(
    rt: &H,
    alloc: Global,
    case: Case,
    call: u32,
) -> bool {
    let mut reader = case.input.as_bytes();
    let mut again = case.input.as_bytes();
    let mut writer = FailingWriter::new(alloc, call, Failure::IsInterrupted);
    let is_well = ended(rt, alloc, case.request, &mut reader, &mut writer, "") == (0, true);
    match written(rt, alloc, case.request, &mut again) {
        Some(wanted) => is_well && writer.taken.as_slice() == wanted.as_slice(),
        None => false,
    }
}

/// Returns how many calls of its writer a command makes that succeeds, or 0 if it does not succeed. Flushes count if
/// they may fail.
fn writes_of<H: Threads + Wait + Sync>(rt: &H, alloc: Global, case: Case, failure: Failure) -> u32 {
    let mut reader = case.input.as_bytes();
    let mut writer = FailingWriter::new(alloc, MOST_CALLS, failure);
    if ended(rt, alloc, case.request, &mut reader, &mut writer, "") == (0, true) {
        MOST_CALLS.saturating_sub(writer.calls_left)
    } else {
        0
    }
}

/// Returns whether a command ends with the fault at each call of its writer in turn, or writes its whole output if that
/// call is interrupted.
fn is_right_at_each_write<H: Threads + Wait + Sync>(
    rt: &H,
    alloc: Global,
    case: Case,
    failure: Failure,
) -> bool {
    let writes = writes_of(rt, alloc, case, failure);
    let mut is_right = 1 < writes;
    for before in 0..writes {
        let call = before.saturating_add(1);
        let is_so = match failure {
            Failure::Fails | Failure::TakesNothing => is_unwritten(rt, alloc, case, call, failure),
            Failure::IsInterrupted => is_written_all_the_same(rt, alloc, case, call),
        };
        is_right = is_so && is_right;
    }
    is_right
}

/// Returns what a command writes that succeeds.
fn written<H: Threads + Wait + Sync, R: Read>(
    rt: &H,
    alloc: Global,
    request: Request,
    reader: &mut R,
) -> Option<Vec<u8>> {
    let mut out: Vec<u8> = Vec::new(alloc);
    if ended(rt, alloc, request, reader, &mut out, "") == (0, true) {
        Some(out)
    } else {
        None
    }
}

/// Returns whether a command writes the same with a reader that gives a byte at a time.
fn is_read_slowly<H: Threads + Wait + Sync>(
    rt: &H,
    alloc: Global,
    case: Case,
    is_interrupted: bool,
) -> bool {
    let mut slow = SlowReader {
        blanks: 0,
        bytes: case.input.as_bytes(),
        is_interrupted,
        is_due: false,
    };
    let mut reader = case.input.as_bytes();
    let Some(lines) = written(rt, alloc, case.request, &mut slow) else {
        return false;
    };
    match written(rt, alloc, case.request, &mut reader) {
        Some(wanted) => lines.as_slice() == wanted.as_slice() && !lines.as_slice().is_empty(),
        None => false,
    }
}

/// Returns whether a trial of a command is right.
fn is_right<H: Threads + Wait + Sync>(rt: &H, alloc: Global, case: Case, trial: Trial) -> bool {
    match trial {
        Trial::Unread => is_refused_at_each_read(rt, alloc, case),
        Trial::Unwritten(failure) => is_right_at_each_write(rt, alloc, case, failure),
        Trial::Slow(is_interrupted) => is_read_slowly(rt, alloc, case, is_interrupted),
    }
}

/// Returns the index of the first of these commands whose trial is not right.
fn first_wrong_of<H: Threads + Wait + Sync>(
    rt: &H,
    alloc: Global,
    cases: &[Case],
    trial: Trial,
) -> Option<usize> {
    for (place, case) in cases.iter().enumerate() {
        if !is_right(rt, alloc, *case, trial) {
            return Some(place);
        }
    }
    None
}

/// Returns the index of the first of all commands whose trial is not right.
fn first_wrong<H: Threads + Wait + Sync>(rt: &H, alloc: Global, trial: Trial) -> Option<usize> {
    first_wrong_of(rt, alloc, &CASES, trial)
}

#[test]
fn each_read_of_each_command_may_fail(rt: HostRuntime) {
    let wrong = first_wrong(&rt, rt.alloc(), Trial::Unread);
    assert!(rt; wrong == None, "{wrong:?}");
}

#[test]
fn each_write_of_each_command_may_fail(rt: HostRuntime) {
    let wrong = first_wrong(&rt, rt.alloc(), Trial::Unwritten(Failure::Fails));
    assert!(rt; wrong == None, "{wrong:?}");
    let wrong = first_wrong(&rt, rt.alloc(), Trial::Unwritten(Failure::TakesNothing));
    assert!(rt; wrong == None, "{wrong:?}");
    let wrong = first_wrong(&rt, rt.alloc(), Trial::Unwritten(Failure::IsInterrupted));
    assert!(rt; wrong == None, "{wrong:?}");
}

#[test]
fn each_command_reads_slowly(rt: HostRuntime) {
    let wrong = first_wrong(&rt, rt.alloc(), Trial::Slow(false));
    assert!(rt; wrong == None, "{wrong:?}");
    let interrupted = first_wrong(&rt, rt.alloc(), Trial::Slow(true));
    assert!(rt; interrupted == None, "{interrupted:?}");
}
