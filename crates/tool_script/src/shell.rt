//! A shell: replies to commands as they arrive, from a reader to a writer.
ghost use Rattle.std.specs.Prelude.{◌≡◌, ◌≢◌, ◌≤◌, ℕ, Option, List, [], false, if◌then◌else◌, IfErr, IfOk, IsTrue, MatchBool, OnErr, OnOk, length, take, drop};
ghost use Rattle.std.specs.Io.Buffered.{reader_remaining};
ghost use Rattle.part_core.specs.declared.kind.TableKind.TheVariants.{OrderedSet};
ghost use Rattle.part_core.specs.Served.{ServesUnordered};
ghost use Rattle.tool_io.specs.Lines.{Passes};
ghost use Rattle.tool_io.specs.Terms.{OfInput};
ghost use Rattle.tool_script.specs.Line.{within_end};
ghost use Rattle.tool_script.specs.Script.{beginning};
ghost use Rattle.tool_script.specs.Scripts.{HasState};
ghost use Rattle.tool_script.specs.Shell.{WritesAnswers, StopsShell};
ghost use Rattle.tool_script.specs.Shells.{AreAnswered, StopsTerms, IsRefused, IsLookedAt, StopsText, StopsLine, IsLineAnswered, Stands, StopsHolding, IsToldBy};

use crate::line::{Effect, Progress, Within, effect_after, take_line};
use crate::reply::put_refusal;
use crate::run::put_next;
use crate::script::Script;
use part_core::Part;
use std::alloc::{AllocError, Allocator};
use std::io::{BufRead, BufReader, Read, Write};
use term_core::Term;
use term_text::{TextFault, read_terms};
use tool_io::{ToolFault, write_if_many, write_lines};

/// Appends the lines of the replies to these terms, and writes the gathered lines whenever they have at least 65,536
/// bytes. Returns `false`: nothing is pending any more. If memory runs out, the lines are those of the replies to all
/// terms before the one that was taken up last.
fn put_replies<S: Part<A> + Drop, O: Part<A> + Drop, A: Allocator + Copy, W: Write>(
    script: &mut Script<S, O, A>,
    terms: &[Term<A>],
    writer: &mut W,
    lines: &mut Vec<u8, A>,
) -> Result<bool, ToolFault>
    requires unordered { ServesUnordered S.serves }
    requires ordered { IsTrue (O.serves OrderedSet) }
    ensures ok { IfOk result (λ is_kept. (is_kept ≡ false) × AreAnswered script.old script.new terms.now
        (W.contents writer.old) (W.contents writer.new) lines.old.items lines.new.items) }
    ensures stopped { IfErr result (StopsTerms script.old script.new terms.now
        (W.contents writer.old) (W.contents writer.new) lines.old.items lines.new.items) }
{
    for term in terms {
        match put_next(script, term, lines) {
            Ok(()) => write_if_many(writer, lines)?,
            Err(AllocError) => return Err(ToolFault::Memory),
        }
    }
    Ok(false)
}

/// Returns whether the fault is out of memory.
fn is_want_of_memory(fault: TextFault) -> bool
    ensures { MatchBool result (fault ≡ TextFault.Memory) (fault ≢ TextFault.Memory) }
{
    matches!(fault, TextFault::Memory)
}

/// Returns whether a rejected text of `size` bytes stays pending: it ends too early, and is not given up.
pub(crate) fn is_begun_still(fault: TextFault, size: usize, is_given_up: bool) -> bool
    ensures { MatchBool result ((fault ≡ TextFault.Syntax size) × (is_given_up ≡ false))
        (is_given_up ≡ false → fault ≢ TextFault.Syntax size) }
{
    match fault {
        TextFault::Syntax(at) => at == size && !is_given_up,
        _ => false,
    }
}

/// Handles a rejected text of `size` bytes. Returns `true` if it stays pending. Otherwise appends the error reply and
/// returns `false`. Fails with `Memory`.
fn refuse<A: Allocator + Copy>(
    fault: TextFault,
    size: usize,
    is_given_up: bool,
    lines: &mut Vec<u8, A>,
) -> Result<bool, ToolFault>
    ensures ok { IfOk result (λ is_kept.
        IsRefused fault size is_given_up is_kept lines.old.items lines.new.items) }
    ensures failed { IfErr result (λ f. f ≡ ToolFault.Memory) }
    ensures err { OnErr result (lines.new.items ≡ lines.old.items) }
{
    if is_want_of_memory(fault) {
        return Err(ToolFault::Memory);
    }
    if is_begun_still(fault, size, is_given_up) {
        return Ok(true);
    }
    match put_refusal(fault, lines) {
        Ok(()) => Ok(false),
        Err(AllocError) => Err(ToolFault::Memory),
    }
}

/// Examines a pending text. Returns `true` if it stays pending; otherwise appends its replies or its error reply and
/// returns `false`.
fn answer_text<S: Part<A> + Drop, O: Part<A> + Drop, A: Allocator + Copy, W: Write>(
    alloc: A,
    script: &mut Script<S, O, A>,
    text: &[u8],
    is_given_up: bool,
    writer: &mut W,
    lines: &mut Vec<u8, A>,
) -> Result<bool, ToolFault>
    requires unordered { ServesUnordered S.serves }
    requires ordered { IsTrue (O.serves OrderedSet) }
    ensures ok { IfOk result (λ is_kept. IsLookedAt script.old script.new is_given_up text.now is_kept
        (W.contents writer.old) (W.contents writer.new) lines.old.items lines.new.items) }
    ensures stopped { IfErr result (StopsText script.old text.now
        (W.contents writer.old) (W.contents writer.new) lines.old.items lines.new.items) }
{
    match read_terms(alloc, text) {
        Ok(terms) => put_replies(script, terms.as_slice(), writer, lines),
        Err(fault) => refuse(fault, text.len(), is_given_up, lines),
    }
}

/// Processes the line that begins at `start`, after the pending text, whose end is within `within`. Returns whether the
/// text, with the line, is pending afterwards.
fn answer_line<S: Part<A> + Drop, O: Part<A> + Drop, A: Allocator + Copy, W: Write>(
    alloc: A,
    script: &mut Script<S, O, A>,
    text: &[u8],
    start: usize,
    within: Within,
    writer: &mut W,
    lines: &mut Vec<u8, A>,
) -> Result<bool, ToolFault>
    requires unordered { ServesUnordered S.serves }
    requires ordered { IsTrue (O.serves OrderedSet) }
    requires inside { start ≤ length text.now }
    requires within { within ≡ within_end Within.Nothing (take start text.now) }
    ensures ok { IfOk result (λ is_kept. IsLineAnswered script.old script.new
        (take start text.now) (drop start text.now) is_kept
        (W.contents writer.old) (W.contents writer.new) lines.old.items lines.new.items) }
    ensures stopped { IfErr result (StopsLine script.old
        (take start text.now) (drop start text.now)
        (W.contents writer.old) (W.contents writer.new) lines.old.items lines.new.items) }
{
    match effect_after(&text[..start], within, &text[start..]) {
        Effect::Passes => Ok(false),
        Effect::GoesOn => Ok(true),
        Effect::LooksAt => answer_text(alloc, script, text, false, writer, lines),
        Effect::GivesUp => answer_text(alloc, script, &text[..start], true, writer, lines),
    }
}

/// Writes the gathered lines before a read that may block, which is when no whole line has been read ahead.
pub(crate) fn write_before<A: Allocator, W: Write>(
    ahead: &[u8],
    writer: &mut W,
    lines: &mut Vec<u8, A>,
) -> Result<(), ToolFault>
    ensures ok { OnOk result (Passes (W.contents writer.old) (W.contents writer.new)
        lines.old.items lines.new.items) }
    ensures failed { IfErr result (λ fault. fault ≡ ToolFault.WriteFailed) }
{
    if ahead.contains(&b'\n') {
        return Ok(());
    }
    write_lines(writer, lines)
}

/// Clears the pending text unless it is still pending. Returns what its end is within; `within` is what the line that
/// begins at `start` is within.
pub(crate) fn keep<A: Allocator>(
    begun: &mut Vec<u8, A>,
    start: usize,
    within: Within,
    is_kept: bool,
) -> Within
    requires inside { start ≤ length begun.old.items }
    requires within { within ≡ within_end Within.Nothing (take start begun.old.items) }
    ensures kept { begun.new.items ≡ (if is_kept then begun.old.items else []) }
    ensures within { result ≡ within_end Within.Nothing begun.new.items }
{
    if is_kept {
        return within.end(&begun[start..]);
    }
    begun.clear();
    Within::Nothing
}

/// Reads the next line of the input after the pending text, whose end is within `within`, and processes it. Returns
/// whether the input may go on.
fn answer_next<S: Part<A> + Drop, O: Part<A> + Drop, A: Allocator + Copy, B: BufRead, W: Write>(
    alloc: A,
    script: &mut Script<S, O, A>,
    input: &mut B,
    begun: &mut Vec<u8, A>,
    within: &mut Within,
    writer: &mut W,
    lines: &mut Vec<u8, A>,
) -> Result<Progress, ToolFault>
    requires unordered { ServesUnordered S.serves }
    requires ordered { IsTrue (O.serves OrderedSet) }
    requires within { within.old ≡ within_end Within.Nothing begun.old.items }
    ensures within { OnOk result (within.new ≡ within_end Within.Nothing begun.new.items) }
    ensures ok { IfOk result (λ progress. (known old : Option (List ℕ))
        → Stands script.old Progress.More known (B.remaining input.old) old (W.contents writer.old)
        begun.old.items lines.old.items
        → Stands script.new progress known (B.remaining input.new) old (W.contents writer.new)
        begun.new.items lines.new.items) }
    ensures stopped { IfErr result (λ fault. (known old : Option (List ℕ))
        → Stands script.old Progress.More known (B.remaining input.old) old (W.contents writer.old)
        begun.old.items lines.old.items
        → StopsHolding known old (W.contents writer.new) lines.new.items fault) }
{
    let start = begun.len();
    let progress = take_line(input, begun)?;
    match answer_line(
        alloc,
        script,
        begun.as_slice(),
        start,
        *within,
        writer,
        lines,
    ) {
        Ok(is_kept) => {
            *within = keep(begun, start, *within, is_kept);
            Ok(progress)
        }
        Err(fault) => Err(fault),
    }
}

/// Writes the lines that were gathered before a shell ends early. Returns the fault with which it ends: `fault`, or
/// `WriteFailed` if that write fails.
pub(crate) fn told<A: Allocator, W: Write>(
    fault: ToolFault,
    writer: &mut W,
    lines: &mut Vec<u8, A>,
) -> ToolFault
    ensures { IsToldBy fault (W.contents writer.old) (W.contents writer.new) lines.old.items result }
{
    match write_lines(writer, lines) {
        Ok(()) => fault,
        Err(failed) => failed,
    }
}

/// Gives up the pending text at the end of the input, and writes the gathered lines.
fn finish<S: Part<A> + Drop, O: Part<A> + Drop, A: Allocator + Copy, W: Write>(
    alloc: A,
    script: &mut Script<S, O, A>,
    begun: &[u8],
    writer: &mut W,
    lines: &mut Vec<u8, A>,
) -> Result<(), ToolFault>
    requires unordered { ServesUnordered S.serves }
    requires ordered { IsTrue (O.serves OrderedSet) }
    ensures ok { OnOk result ((known left old : Option (List ℕ))
        → Stands script.old Progress.End known left old (W.contents writer.old)
        begun.now lines.old.items
        → OfInput known (λ input. WritesAnswers input old (W.contents writer.new))) }
    ensures stopped { IfErr result (λ fault. (known left old : Option (List ℕ))
        → Stands script.old Progress.End known left old (W.contents writer.old)
        begun.now lines.old.items
        → StopsShell known old (W.contents writer.new) fault) }
{
    if begun.is_empty() {
        return write_lines(writer, lines);
    }
    match answer_text(alloc, script, begun, true, writer, lines) {
        Ok(_kept) => write_lines(writer, lines),
        Err(fault) => Err(told(fault, writer, lines)),
    }
}

/// Processes an input line by line, up to its end.
fn answer_input<S: Part<A> + Drop, O: Part<A> + Drop, A: Allocator + Copy, R: Read, W: Write>(
    alloc: A,
    script: &mut Script<S, O, A>,
    input: &mut BufReader<R, A>,
    writer: &mut W,
) -> Result<(), ToolFault>
    requires unordered { ServesUnordered S.serves }
    requires ordered { IsTrue (O.serves OrderedSet) }
    requires beginning { HasState script.old beginning }
    ensures ok { OnOk result (OfInput (reader_remaining R.remaining input.old) (λ input.
        WritesAnswers input (W.contents writer.old) (W.contents writer.new))) }
    ensures stopped { IfErr result (StopsShell (reader_remaining R.remaining input.old)
        (W.contents writer.old) (W.contents writer.new)) }
{
    let mut begun = Vec::new(alloc);
    let mut within = Within::Nothing;
    let mut lines = Vec::new(alloc);
    for _line in 0..u64::MAX {
        write_before(input.buffer(), writer, &mut lines)?;
        match answer_next(
            alloc,
            script,
            input,
            &mut begun,
            &mut within,
            writer,
            &mut lines,
        ) {
            Ok(Progress::More) => {}
            Ok(Progress::End) => return finish(alloc, script, begun.as_slice(), writer, &mut lines),
            Err(fault) => return Err(told(fault, writer, &mut lines)),
        }
    }
    Err(told(ToolFault::ReadFailed, writer, &mut lines))
}

/// Reads commands line by line, up to the reader's end, and writes the line of the reply to each as they arrive. Sets
/// and bags are made of parts `S`, ordered sets of parts `O`. The pending text is examined when a line has a dot before
/// white space, `%` or its end, outside of comments and quotation marks. If it spells terms, these are replied to. If it ends too early, the next line is
/// appended to it; an empty line or the end of the input gives it up instead. Otherwise the reply is an error, and none
/// of its commands is obeyed. If memory runs out or the reader fails, the output up to then is written.
#[tactic(auto, using(crate::proofs::ShellLemmas::stops_first))]
pub fn run_shell<S: Part<A> + Drop, O: Part<A> + Drop, A: Allocator + Copy, R: Read, W: Write>(
    alloc: A,
    reader: &mut R,
    writer: &mut W,
) -> Result<(), ToolFault>
    requires unordered { ServesUnordered S.serves }
    requires ordered { IsTrue (O.serves OrderedSet) }
    ensures ok { OnOk result (OfInput (R.remaining reader.old) (λ input.
        WritesAnswers input (W.contents writer.old) (W.contents writer.new))) }
    ensures stopped { IfErr result (StopsShell (R.remaining reader.old)
        (W.contents writer.old) (W.contents writer.new)) }
{
    let mut script: Script<S, O, A> = Script::new(alloc);
    match BufReader::new(alloc, reader) {
        Ok(mut input) => answer_input(alloc, &mut script, &mut input, writer),
        Err(_refused) => Err(ToolFault::Memory),
    }
}
