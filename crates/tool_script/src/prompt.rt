//! A shell for a person: it prompts for each line, writes texts as such, and explains errors.
ghost use Rattle.std.specs.Prelude.{◌≡◌, ◌≤◌, length, take, IfErr, IsTrue, OnOk};
ghost use Rattle.part_core.specs.declared.kind.TableKind.TheVariants.{OrderedSet};
ghost use Rattle.part_core.specs.Served.{ServesUnordered};
ghost use Rattle.tool_script.specs.Line.{within_end};
ghost use Rattle.tool_script.specs.Prompt.{IsStreamFault};

use crate::line::{Effect, Progress, Within, effect_after, take_line};
use crate::reply::{CommandReply, put_refusal, put_reply};
use crate::run::reply_to_term;
use crate::script::Script;
use crate::shell::{is_begun_still, keep, told, write_before};
use mspec_syntax::SpecFault;
use part_core::Part;
use std::alloc::{AllocError, Allocator};
use std::io::{BufRead, BufReader, Read, Write};
use term_core::Term;
use term_text::{TextFault, read_terms, write_readable};
use tool_io::{BAD_INPUT, ToolFault, write_lines};

/// The prompt for a line if nothing is pending.
const FRESH: &[u8] = b"> ";
/// The prompt for a line that follows a pending text.
const BEGUN: &[u8] = b"| ";

/// The comment after a term that is no command, or is a command that can't be given at this point.
const COMMANDS: &[u8] = b"\
% no command, or one while no table is open, or open while one is
% commands, of session S, with an object T, a key K and a specification Spec:
%   {open,Kind,KeyPos,Parts,Sessions} {close}
%   {insert,S,T} {insert_new,S,T} {delete_object,S,T}
%   {lookup,S,K} {member,S,K} {delete,S,K} {take,S,K}
%   {first,S} {next,S,K} {fix,S} {unfix,S} {leave,S}
%   {select,S,Spec} {select_count,S,Spec} {select_delete,S,Spec}
%   {select,S,Spec,Limit} {more,S,C}
";

/// Returns what the error code of a command's reply means.
fn meaning_of(number: u8) -> &'static [u8] {
    match number {
        50 => b"the object is no tuple with an element at the place of the key",
        51 => b"the session fixes the table as often as it can",
        52 => b"the session has no such fix",
        53 => b"the key has no row",
        60 => b"no table has this kind, place of the key, number of parts or number of sessions",
        61 => b"there is no such session, or it has left",
        62 => b"there is no such continuation, or it is spent",
        63 => b"the limit is below 1",
        _ => b"the table refuses it",
    }
}

/// Appends the text as a comment line.
fn put_comment<A: Allocator>(text: &[u8], lines: &mut Vec<u8, A>) -> Result<(), AllocError> {
    lines.extend_from_slice(b"% ")?;
    lines.extend_from_slice(text)?;
    lines.extend_from_slice(b"\n")
}

/// Returns what follows the last line feed, or all if there is none.
fn last_line(text: &[u8]) -> &[u8] {
    for start in (0..text.len()).rev() {
        if text[start] == b'\n' {
            return &text[start + 1..];
        }
    }
    text
}

/// Returns what is before the first line feed, or all if there is none.
fn first_line(text: &[u8]) -> &[u8] {
    for end in 0..text.len() {
        if text[end] == b'\n' {
            return &text[..end];
        }
    }
    text
}

/// Returns the number of bytes without the white space at the end.
fn size_shown(text: &[u8]) -> usize
    ensures { result ≤ length text.now }
{
    for size in (0..text.len()).rev() {
        if !matches!(text[size], b'\t'..=b'\r' | b' ') {
            return size + 1;
        }
    }
    0
}

/// Appends blanks as wide as these bytes: a tab for a tab, and a space for each other character.
fn put_room<A: Allocator>(text: &[u8], lines: &mut Vec<u8, A>) -> Result<(), AllocError> {
    for byte in text {
        match *byte {
            128..=191 => {}
            b'\t' => lines.push(b'\t')?,
            _ => lines.push(b' ')?,
        }
    }
    Ok(())
}

/// Appends, as comments, the line of a text that has this byte, and a caret under the byte. A byte in the white space
/// at the end of the text is marked at the end of the last line that has other characters.
fn put_marked<A: Allocator>(
    text: &[u8],
    at: usize,
    lines: &mut Vec<u8, A>,
) -> Result<(), AllocError> {
    let at = at.min(size_shown(text));
    let before = last_line(&text[..at]);
    lines.extend_from_slice(b"% ")?;
    lines.extend_from_slice(before)?;
    lines.extend_from_slice(first_line(&text[at..]))?;
    lines.extend_from_slice(b"\n% ")?;
    put_room(before, lines)?;
    lines.extend_from_slice(b"^\n")
}

/// Appends the error reply to a text, what it means, and the line with the byte that the fault names.
fn put_refused<A: Allocator + Copy>(
    alloc: A,
    fault: TextFault,
    text: &[u8],
    lines: &mut Vec<u8, A>,
) -> Result<(), AllocError> {
    put_refusal(fault, lines)?;
    let meaning = fault.to_string(alloc)?;
    put_comment(meaning.as_bytes(), lines)?;
    match fault.at() {
        Some(at) => put_marked(text, at, lines),
        None => Ok(()),
    }
}

/// Appends the texts of these terms in readable form, each with a dot on a line of its own.
fn put_terms<A: Allocator + Copy>(
    terms: &[Term<A>],
    lines: &mut Vec<u8, A>,
) -> Result<(), AllocError> {
    for term in terms {
        write_readable(term, lines)?;
        lines.extend_from_slice(b".\n")?;
    }
    Ok(())
}

/// Appends the line of a reply in readable form. A line that is no term within the limits is appended unchanged. Fails if
/// an allocation fails.
fn put_read<A: Allocator + Copy>(
    alloc: A,
    line: &[u8],
    lines: &mut Vec<u8, A>,
) -> Result<(), AllocError> {
    match read_terms(alloc, line) {
        Ok(terms) => put_terms(terms.as_slice(), lines),
        Err(TextFault::Memory) => Err(AllocError),
        Err(_) => lines.extend_from_slice(line),
    }
}

/// Appends a comment that says what a fault of a specification means.
fn put_fault<A: Allocator + Copy>(
    alloc: A,
    fault: SpecFault,
    lines: &mut Vec<u8, A>,
) -> Result<(), AllocError> {
    let meaning = fault.to_string(alloc)?;
    put_comment(meaning.as_bytes(), lines)
}

/// Appends a comment that says what a reply means, if it is an error.
fn put_meaning<A: Allocator + Copy>(
    alloc: A,
    reply: &CommandReply<A>,
    lines: &mut Vec<u8, A>,
) -> Result<(), AllocError> {
    match reply {
        CommandReply::Error(BAD_INPUT) => lines.extend_from_slice(COMMANDS),
        CommandReply::Error(number) => put_comment(meaning_of(*number), lines),
        CommandReply::Fault(fault) => put_fault(alloc, *fault, lines),
        _ => Ok(()),
    }
}

/// Appends a reply in readable form, and what it means if it is an error.
fn put_told<A: Allocator + Copy>(
    alloc: A,
    reply: &CommandReply<A>,
    lines: &mut Vec<u8, A>,
) -> Result<(), AllocError> {
    let mut line = Vec::new(alloc);
    put_reply(reply, &mut line)?;
    put_read(alloc, line.as_slice(), lines)?;
    put_meaning(alloc, reply, lines)
}

/// Appends the reply to a term. Fails if an allocation fails, or if 2^64 - 1 tables have been opened.
fn put_answer<S: Part<A> + Drop, O: Part<A> + Drop, A: Allocator + Copy>(
    alloc: A,
    script: &mut Script<S, O, A>,
    term: &Term<A>,
    lines: &mut Vec<u8, A>,
) -> Result<(), AllocError>
    requires unordered { ServesUnordered S.serves }
    requires ordered { IsTrue (O.serves OrderedSet) }
{
    let reply = reply_to_term(script, term)?;
    put_told(alloc, &reply, lines)
}

/// Appends the replies to these terms. Returns `false`: nothing is pending any more.
fn put_answers<S: Part<A> + Drop, O: Part<A> + Drop, A: Allocator + Copy>(
    alloc: A,
    script: &mut Script<S, O, A>,
    terms: &[Term<A>],
    lines: &mut Vec<u8, A>,
) -> Result<bool, AllocError>
    requires unordered { ServesUnordered S.serves }
    requires ordered { IsTrue (O.serves OrderedSet) }
{
    for term in terms {
        put_answer(alloc, script, term, lines)?;
    }
    Ok(false)
}

/// Handles a rejected text. Returns `true` if it stays pending, since it only ends too early. Otherwise appends the
/// error reply and returns `false`.
fn refuse<A: Allocator + Copy>(
    alloc: A,
    fault: TextFault,
    text: &[u8],
    is_given_up: bool,
    lines: &mut Vec<u8, A>,
) -> Result<bool, AllocError> {
    if is_begun_still(fault, text.len(), is_given_up) {
        return Ok(true);
    }
    put_refused(alloc, fault, text, lines)?;
    Ok(false)
}

/// Examines a pending text. Returns `true` if it stays pending; otherwise appends its replies or its error reply and
/// returns `false`.
fn answer_text<S: Part<A> + Drop, O: Part<A> + Drop, A: Allocator + Copy>(
    alloc: A,
    script: &mut Script<S, O, A>,
    text: &[u8],
    is_given_up: bool,
    lines: &mut Vec<u8, A>,
) -> Result<bool, AllocError>
    requires unordered { ServesUnordered S.serves }
    requires ordered { IsTrue (O.serves OrderedSet) }
{
    match read_terms(alloc, text) {
        Ok(terms) => put_answers(alloc, script, terms.as_slice(), lines),
        Err(TextFault::Memory) => Err(AllocError),
        Err(fault) => refuse(alloc, fault, text, is_given_up, lines),
    }
}

/// Processes the line that begins at `start`, after the pending text, whose end is within `within`. Returns whether the
/// text, with the line, is pending afterwards.
fn answer_line<S: Part<A> + Drop, O: Part<A> + Drop, A: Allocator + Copy>(
    alloc: A,
    script: &mut Script<S, O, A>,
    text: &[u8],
    start: usize,
    within: Within,
    lines: &mut Vec<u8, A>,
) -> Result<bool, AllocError>
    requires unordered { ServesUnordered S.serves }
    requires ordered { IsTrue (O.serves OrderedSet) }
    requires inside { start ≤ length text.now }
    requires within { within ≡ within_end Within.Nothing (take start text.now) }
{
    match effect_after(&text[..start], within, &text[start..]) {
        Effect::Passes => Ok(false),
        Effect::GoesOn => Ok(true),
        Effect::LooksAt => answer_text(alloc, script, text, false, lines),
        Effect::GivesUp => answer_text(alloc, script, &text[..start], true, lines),
    }
}

/// Processes a line as `answer_line` does. If the input ends there, it first ends the line of the prompt.
fn answer_taken<S: Part<A> + Drop, O: Part<A> + Drop, A: Allocator + Copy>(
    alloc: A,
    script: &mut Script<S, O, A>,
    text: &[u8],
    start: usize,
    within: Within,
    progress: Progress,
    lines: &mut Vec<u8, A>,
) -> Result<bool, AllocError>
    requires unordered { ServesUnordered S.serves }
    requires ordered { IsTrue (O.serves OrderedSet) }
    requires inside { start ≤ length text.now }
    requires within { within ≡ within_end Within.Nothing (take start text.now) }
{
    match progress {
        Progress::More => {}
        Progress::End => lines.extend_from_slice(b"\n")?,
    }
    answer_line(alloc, script, text, start, within, lines)
}

/// Reads the next line of the input after the pending text, whose end is within `within`, and processes it. Returns
/// whether the input may go on. Fails with `Memory` or `ReadFailed`.
fn answer_next<S: Part<A> + Drop, O: Part<A> + Drop, A: Allocator + Copy, B: BufRead>(
    alloc: A,
    script: &mut Script<S, O, A>,
    input: &mut B,
    begun: &mut Vec<u8, A>,
    within: &mut Within,
    lines: &mut Vec<u8, A>,
) -> Result<Progress, ToolFault>
    requires unordered { ServesUnordered S.serves }
    requires ordered { IsTrue (O.serves OrderedSet) }
    requires within { within.old ≡ within_end Within.Nothing begun.old.items }
    ensures within { OnOk result (within.new ≡ within_end Within.Nothing begun.new.items) }
    ensures failed { IfErr result IsStreamFault }
{
    let start = begun.len();
    let progress = take_line(input, begun)?;
    match answer_taken(
        alloc,
        script,
        begun.as_slice(),
        start,
        *within,
        progress,
        lines,
    ) {
        Ok(is_kept) => {
            *within = keep(begun, start, *within, is_kept);
            Ok(progress)
        }
        Err(AllocError) => Err(ToolFault::Memory),
    }
}

/// Appends the prompt, which says whether a text is pending. Writes the gathered lines unless a whole line has been
/// read ahead.
fn ask<A: Allocator, W: Write>(
    is_begun: bool,
    ahead: &[u8],
    writer: &mut W,
    lines: &mut Vec<u8, A>,
) -> Result<(), ToolFault>
    ensures { IfErr result IsStreamFault }
{
    let prompt = if is_begun { BEGUN } else { FRESH };
    match lines.extend_from_slice(prompt) {
        Ok(()) => write_before(ahead, writer, lines),
        Err(AllocError) => Err(ToolFault::Memory),
    }
}

/// Examines the pending text at the end of the input, where it can't go on, and appends the result. Does nothing if no
/// text is pending.
fn give_up<S: Part<A> + Drop, O: Part<A> + Drop, A: Allocator + Copy>(
    alloc: A,
    script: &mut Script<S, O, A>,
    begun: &[u8],
    lines: &mut Vec<u8, A>,
) -> Result<bool, AllocError>
    requires unordered { ServesUnordered S.serves }
    requires ordered { IsTrue (O.serves OrderedSet) }
{
    if begun.is_empty() {
        return Ok(false);
    }
    answer_text(alloc, script, begun, true, lines)
}

/// Gives up the pending text at the end of the input, and writes the gathered lines.
fn finish<S: Part<A> + Drop, O: Part<A> + Drop, A: Allocator + Copy, W: Write>(
    alloc: A,
    script: &mut Script<S, O, A>,
    begun: &[u8],
    writer: &mut W,
    lines: &mut Vec<u8, A>,
) -> Result<(), ToolFault>
    requires unordered { ServesUnordered S.serves }
    requires ordered { IsTrue (O.serves OrderedSet) }
    ensures { IfErr result IsStreamFault }
{
    match give_up(alloc, script, begun, lines) {
        Ok(_kept) => write_lines(writer, lines),
        Err(AllocError) => Err(told(ToolFault::Memory, writer, lines)),
    }
}

/// Processes an input line by line. Fails with `Memory`, `ReadFailed` or `WriteFailed`.
fn answer_input<S: Part<A> + Drop, O: Part<A> + Drop, A: Allocator + Copy, R: Read, W: Write>(
    alloc: A,
    script: &mut Script<S, O, A>,
    input: &mut BufReader<R, A>,
    writer: &mut W,
) -> Result<(), ToolFault>
    requires unordered { ServesUnordered S.serves }
    requires ordered { IsTrue (O.serves OrderedSet) }
    ensures { IfErr result IsStreamFault }
{
    let mut begun = Vec::new(alloc);
    let mut within = Within::Nothing;
    let mut lines = Vec::new(alloc);
    for _line in 0..u64::MAX {
        ask(!begun.is_empty(), input.buffer(), writer, &mut lines)?;
        match answer_next(alloc, script, input, &mut begun, &mut within, &mut lines) {
            Ok(Progress::More) => {}
            Ok(Progress::End) => return finish(alloc, script, begun.as_slice(), writer, &mut lines),
            Err(fault) => return Err(told(fault, writer, &mut lines)),
        }
    }
    Err(told(ToolFault::ReadFailed, writer, &mut lines))
}

/// Runs a shell as `run_shell` does, for a person. The prompt of a line is `> `, or `| ` if the line follows a pending
/// text. Lists of printable characters, and binaries of them, are written as text. After an error, comments say what it
/// means; for a text they show its line and a caret under the byte. Fails with `Memory`, `ReadFailed` or `WriteFailed`.
pub fn run_prompt<S: Part<A> + Drop, O: Part<A> + Drop, A: Allocator + Copy, R: Read, W: Write>(
    alloc: A,
    reader: &mut R,
    writer: &mut W,
) -> Result<(), ToolFault>
    requires unordered { ServesUnordered S.serves }
    requires ordered { IsTrue (O.serves OrderedSet) }
    ensures { IfErr result IsStreamFault }
{
    let mut script: Script<S, O, A> = Script::new(alloc);
    match BufReader::new(alloc, reader) {
        Ok(mut input) => answer_input(alloc, &mut script, &mut input, writer),
        Err(_refused) => Err(ToolFault::Memory),
    }
}
