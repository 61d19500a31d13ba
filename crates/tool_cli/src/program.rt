//! The program from its words to its exit status: what it reads, and what it writes to which of its two streams.
ghost use Rattle.std.specs.Prelude.{◌≡◌, ◌≢◌, ◌⊎◌, [], IfErr, MatchBool, OnOk, map};
ghost use Rattle.std.specs.Io.KnownBytes.{Appends, Keeps};
ghost use Rattle.clap.specs.Words.{kind_of};
ghost use Rattle.std.specs.IoError.{error_kind};
ghost use Rattle.part_core.specs.Served.{ServesUnordered};
ghost use Rattle.tool_cli.specs.Program.{HasOutcome, IsShell, EndsBy, EndsWith, EndsRequest, EndsHelp, EndsVersion, EndsEarly};
ghost use Rattle.tool_cli.specs.Program.{EndsTelling, EndsExplained, EndsInvocation};
ghost use Rattle.tool_cli.specs.Program.{TellsMistake, EndsMistaken, EndsAsked, EndsProgram};
ghost use Rattle.tool_cli.specs.Telling.{TellsText};
ghost use Rattle.tool_cli.specs.Words.{asked};

use crate::telling::{Tell, shown};
use crate::why::put_meaning;
use crate::words::{Detail, Invocation, Request, read_words};
use clap::error::ErrorKind as WordsErrorKind;
use part_core::Part;
use part_hash::HashPart;
use part_order::OrderPart;
use std::alloc::{AllocError, Allocator, Global};
use std::convert::AsStr;
use std::env::{self, Env};
use std::io::{self, ErrorKind, Read, Write};
use std::sync::Wait;
use std::thread::Threads;
use tool_explain::tool_explain;
use tool_io::{ToolFault, fault_line, read_whole};
use tool_query::{tool_compile, tool_run, tool_test, tool_verify};
use tool_scan::tool_scan;
use tool_script::{run_prompt, run_script, run_shell};

/// The exit status of a program that did what was requested.
const DONE: u8 = 0;
/// The exit status if the words were not understood.
const BAD_WORDS: u8 = 64;
/// What `--version` writes.
const VERSION_LINE: &[u8] = b"ets_tool 0.1.0\n";

/// Runs the program on the words that it was started with, and returns its exit status. It reads from `reader`, writes
/// its output to `out` and reports to `err` why it ends early. A failure of `out` changes the status; one of `err` does
/// not.
#[tactic(auto, using(tool_query::proofs::RunLemmas::kept))]
pub fn run_program<H: Env + AllocGlobal + Threads + Wait + Sync, R: Read, O: Write, E: Tell>(
    rt: &H,
    reader: &mut R,
    out: &mut O,
    err: &mut E,
) -> u8
    ensures { EndsProgram (R.remaining reader.old) (O.contents out.old) (O.contents out.new)
        (E.told err.old) (E.told err.new) (E.has_failed err.new) result }
{
    match words_of(rt) {
        Ok(words) => run_words(rt, rt.alloc(), words.as_slice(), reader, out, err),
        Err(error) => end_unread(rt.alloc(), &error, err),
    }
}

/// Returns the words that the program was started with, its name first. Fails if a word is not UTF-8 or memory runs
/// out.
fn words_of<H: Env + AllocGlobal>(rt: &H) -> io::Result<Vec<String>> {
    let words = env::args(rt)?.collect(rt.alloc())?;
    Ok(words)
}

/// Runs the program on these words, of which the first is the program's name, and returns the exit status. It runs the
/// command that they request, or shows help or the version.
pub fn run_words<'a, H: Threads + Wait + Sync, S: AsStr, R: Read, O: Write, E: Tell>(
    rt: &H,
    alloc: Global,
    words: &'a [S],
    reader: &mut R,
    out: &mut O,
    err: &mut E,
) -> u8
    ensures { EndsAsked (asked (map S.text words.entry.now)) (R.remaining reader.old)
        (O.contents out.old) (O.contents out.new) (E.told err.old) (E.told err.new) (E.has_failed err.new) result }
{
    match read_words(alloc, words) {
        Ok(invocation) => run_invocation::<H, HashPart<Global>, Global, R, O, E>(
            rt, alloc, invocation, reader, out, err,
        ),
        Err(error) => end_unasked(alloc, &error, out, err),
    }
}

/// Runs one command, and returns the program's exit status. Reports a fault by its error line, with an explanation if
/// the invocation has one. Parts of the table of a scan are of the type `P`.
pub fn run_invocation<
    H: Threads + Wait + Sync,
    P: Part<A> + Drop + Send,
    A: Allocator + Copy + Send + Sync,
    R: Read,
    O: Write,
    E: Tell,
>(rt: &H, alloc: A, invocation: Invocation, reader: &mut R, out: &mut O, err: &mut E) -> u8
    requires { ServesUnordered P.serves }
    ensures { EndsInvocation invocation (R.remaining reader.old) (O.contents out.old)
        (O.contents out.new) (E.told err.old) (E.told err.new) (E.has_failed err.new) result }
{
    let request = invocation.request;
    match invocation.detail {
        Detail::Line => run_request::<H, P, A, R, O, E>(rt, alloc, request, reader, out, err),
        Detail::Explained => {
            run_explained::<H, P, A, R, O, E>(rt, alloc, request, reader, out, err)
        }
    }
}

/// Runs one command and returns the exit status as `run_request` does, and reports after the error line what the fault
/// means. The input is read whole before the command runs, except for a shell, whose faults name no byte of its input.
pub fn run_explained<
    H: Threads + Wait + Sync,
    P: Part<A> + Drop + Send,
    A: Allocator + Copy + Send + Sync,
    R: Read,
    O: Write,
    E: Tell,
>(rt: &H, alloc: A, request: Request, reader: &mut R, out: &mut O, err: &mut E) -> u8
    requires { ServesUnordered P.serves }
    ensures { EndsExplained request (R.remaining reader.old) (O.contents out.old)
        (O.contents out.new) (E.told err.old) (E.told err.new) (E.has_failed err.new) result }
{
    if is_shell(request) {
        let outcome = command_outcome::<H, P, A, R, O>(rt, alloc, request, reader, out);
        return end_explained(alloc, outcome, &[], err);
    }
    match read_whole(alloc, reader) {
        Ok(input) => {
            let mut unread = input.as_slice();
            let outcome = command_outcome::<H, P, A, &[u8], O>(
                rt,
                alloc,
                request,
                &mut unread,
                out,
            );
            end_explained(alloc, outcome, input.as_slice(), err)
        }
        Err(fault) => end_explained(alloc, Err(fault), &[], err),
    }
}

/// Returns whether a command reads its input line by line.
fn is_shell(request: Request) -> bool
    ensures { MatchBool result (IsShell request) ((request ≢ Request.Shell) × (request ≢ Request.Prompt)) }
{
    match request {
        Request::Shell => true,
        Request::Prompt => true,
        _ => false,
    }
}

/// Runs one command, reports a fault by its error line, and returns the program's exit status. Parts of the table of a
/// scan are of the type `P`.
pub fn run_request<
    H: Threads + Wait + Sync,
    P: Part<A> + Drop + Send,
    A: Allocator + Copy + Send + Sync,
    R: Read,
    O: Write,
    E: Tell,
>(rt: &H, alloc: A, request: Request, reader: &mut R, out: &mut O, err: &mut E) -> u8
    requires { ServesUnordered P.serves }
    ensures { EndsRequest request (R.remaining reader.old) (O.contents out.old)
        (O.contents out.new) (E.told err.old) (E.told err.new) (E.has_failed err.new) result }
{
    let outcome = command_outcome::<H, P, A, R, O>(rt, alloc, request, reader, out);
    end(alloc, outcome, err)
}

/// Runs one command and returns its outcome.
fn command_outcome<
    H: Threads + Wait + Sync,
    P: Part<A> + Drop + Send,
    A: Allocator + Copy + Send + Sync,
    R: Read,
    O: Write,
>(rt: &H, alloc: A, request: Request, reader: &mut R, out: &mut O) -> Result<(), ToolFault>
    requires { ServesUnordered P.serves }
    ensures { HasOutcome request (R.remaining reader.old) (O.contents out.old)
        (O.contents out.new) result }
{
    match request {
        Request::Run(form) => tool_run(alloc, form, reader, out),
        Request::Test(form) => tool_test(alloc, form, reader, out),
        Request::Compile => tool_compile(alloc, reader, out),
        Request::Verify => tool_verify(alloc, reader, out),
        Request::Script => run_script::<HashPart<A>, OrderPart<A>, A, R, O>(alloc, reader, out),
        Request::Shell => run_shell::<HashPart<A>, OrderPart<A>, A, R, O>(alloc, reader, out),
        Request::Prompt => run_prompt::<HashPart<A>, OrderPart<A>, A, R, O>(alloc, reader, out),
        Request::Scan(options) => { tool_scan::<H, P, A, R, O>(rt, alloc, options, reader, out) }
        Request::Explain(keypos) => tool_explain(alloc, keypos, reader, out),
    }
}

/// Returns the exit status for the outcome of a command, and reports the error line of a fault. Reports nothing if
/// memory runs out for the line.
fn end<A: Allocator + Copy, E: Tell>(alloc: A, outcome: Result<(), ToolFault>, err: &mut E) -> u8
    ensures { EndsWith outcome (E.told err.old) (E.told err.new) (E.has_failed err.new) result }
{
    let Err(fault) = outcome else {
        return DONE;
    };
    let mut line = Vec::new(alloc);
    match fault_line(alloc, &fault, &mut line) {
        Ok(()) => err.tell(line.as_slice()),
        Err(AllocError) => {}
    }
    fault.status()
}

/// Returns the exit status for the outcome of a command over this input, and reports a fault: its error line, followed
/// by what it means. Leaves out the latter if memory runs out for it, and both if memory runs out for the line.
#[tactic(auto, using(crate::proofs::EndLemmas::ends_told))]
fn end_explained<A: Allocator + Copy, E: Tell>(
    alloc: A,
    outcome: Result<(), ToolFault>,
    input: &[u8],
    err: &mut E,
) -> u8
    ensures { EndsTelling input.now outcome (E.told err.old) (E.told err.new) (E.has_failed err.new) result }
{
    let Err(fault) = outcome else {
        return DONE;
    };
    let mut told = Vec::new(alloc);
    match fault_line(alloc, &fault, &mut told) {
        Ok(()) => {
            let _meant = put_meaning(alloc, &fault, input, &mut told);
            err.tell(told.as_slice());
            fault.status()
        }
        Err(AllocError) => fault.status(),
    }
}

/// Returns the exit status if the words request no command, and writes what `clap` says: help and the version line,
/// which were requested, to `out`, and any other error to `err`.
fn end_unasked<O: Write, E: Tell>(
    alloc: Global,
    error: &clap::Error,
    out: &mut O,
    err: &mut E,
) -> u8
    ensures help { kind_of error.now ≡ WordsErrorKind.DisplayHelp
        → EndsHelp (O.contents out.old) (O.contents out.new)
        (E.told err.old) (E.told err.new) (E.has_failed err.new) result }
    ensures version { kind_of error.now ≡ WordsErrorKind.DisplayVersion
        → EndsVersion (O.contents out.old) (O.contents out.new)
        (E.told err.old) (E.told err.new) (E.has_failed err.new) result }
    ensures memory { kind_of error.now ≡ WordsErrorKind.OutOfMemory
        → EndsEarly (O.contents out.old) (O.contents out.new)
        (E.told err.old) (E.told err.new) (E.has_failed err.new) result }
    ensures mistaken { kind_of error.now ≢ WordsErrorKind.DisplayHelp
        → kind_of error.now ≢ WordsErrorKind.DisplayVersion
        → kind_of error.now ≢ WordsErrorKind.OutOfMemory
        → TellsMistake (E.told err.old) (E.told err.new) (E.has_failed err.new) result }
    ensures ended { kind_of error.now ≢ WordsErrorKind.DisplayHelp
        → kind_of error.now ≢ WordsErrorKind.DisplayVersion
        → EndsMistaken (O.contents out.old) (O.contents out.new)
        (E.told err.old) (E.told err.new) (E.has_failed err.new) result }
{
    if error.kind() == WordsErrorKind::OutOfMemory {
        return end(alloc, Err(ToolFault::Memory), err);
    }
    if error.kind() == WordsErrorKind::DisplayVersion {
        return end(alloc, write_text(VERSION_LINE, out), err);
    }
    if error.use_stderr() {
        tell_mistake(alloc, error, err);
        return BAD_WORDS;
    }
    let Ok(text) = error.to_string(alloc) else {
        return end(alloc, Err(ToolFault::Memory), err);
    };
    end(alloc, write_text(shown(&text), out), err)
}

/// Reports what `clap` says about words that were not understood. If memory runs out for its text, reports only that
/// they were not.
fn tell_mistake<E: Tell>(alloc: Global, error: &clap::Error, err: &mut E)
    ensures { TellsText (E.told err.old) (E.told err.new) (E.has_failed err.new) }
{
    match error.to_string(alloc) {
        Ok(text) => err.tell(shown(&text)),
        Err(AllocError) => err.tell(b"error: the words were not understood\n"),
    }
}

/// Writes output that no command writes: help or the version line. Fails with `WriteFailed`.
fn write_text<O: Write>(text: &[u8], out: &mut O) -> Result<(), ToolFault>
    ensures written { OnOk result (Appends (O.contents out.old) (O.contents out.new) text.now) }
    ensures failed { IfErr result (λ fault. fault ≡ ToolFault.WriteFailed) }
{
    if out.write_all(text).is_err() || out.flush().is_err() {
        return Err(ToolFault::WriteFailed);
    }
    Ok(())
}

/// Returns the exit status if the words could not be obtained, and reports why: memory ran out, or a word is not UTF-8.
fn end_unread<E: Tell>(alloc: Global, error: &io::Error, err: &mut E) -> u8
    ensures memory { error_kind error.now ≡ ErrorKind.OutOfMemory
        → EndsBy ToolFault.Memory (E.told err.old) (E.told err.new) (E.has_failed err.new) result }
    ensures mistaken { error_kind error.now ≢ ErrorKind.OutOfMemory
        → TellsMistake (E.told err.old) (E.told err.new) (E.has_failed err.new) result }
    ensures either { TellsMistake (E.told err.old) (E.told err.new) (E.has_failed err.new) result
        ⊎ EndsBy ToolFault.Memory (E.told err.old) (E.told err.new) (E.has_failed err.new) result }
{
    if error.kind() == ErrorKind::OutOfMemory {
        return end(alloc, Err(ToolFault::Memory), err);
    }
    err.tell(b"error: a word is not UTF-8\n");
    BAD_WORDS
}
