//! The commands that write the answers on objects.
ghost use Rattle.std.specs.Prelude.{◌≡◌, List, None, OnOk, IfErr, IfSome, option_map};
ghost use Rattle.std.specs.Str.{chars};
ghost use Rattle.std.specs.Io.KnownBytes.{Appends};
ghost use Rattle.term_core.specs.Datum.{Datum};
ghost use Rattle.term_text.specs.Text.{Sentences, Front};
ghost use Rattle.tool_io.specs.Terms.{OfTerms, IsUnspelled};
ghost use Rattle.tool_query.specs.Answers.Report.{answers, outcomes};
ghost use Rattle.tool_query.specs.Run.{WritesAnswers, StopsReport, OfItsTerms, StopsReportAt, EndsCut, EndsReport};

use crate::answers::{Reported, outcome_lines, run_lines};
use crate::query::{code_of_query, specification_of};
use std::alloc::Allocator;
use std::io::{Read, Write};
use term_text::{Form, Scratch};
use tool_io::{ToolFault, first_of, next_of, out_of_memory, read_whole, text_of, write_lines};

/// Reads a specification or a code file, which is a binary, and objects, up to the reader's end. Writes each answer in
/// the order of the objects: its text in the given form, a dot and a line feed. A specification is compiled, encoded to
/// its file and loaded from it. Writes nothing if the input is rejected. If memory runs out for the answer on an object,
/// the rest of the text is still read for its faults; if it has none, or can't be read for lack of memory, the answers
/// on the objects before are written. If memory runs out elsewhere, nothing is written.
pub fn tool_run<A: Allocator + Copy, R: Read, W: Write>(
    alloc: A,
    form: Form,
    reader: &mut R,
    writer: &mut W,
) -> Result<(), ToolFault>
    ensures ok { OnOk result (OfTerms (R.remaining reader.old) (λ terms.
        WritesAnswers (answers form) terms (W.contents writer.old) (W.contents writer.new))) }
    ensures refused { IfErr result (StopsReport (answers form) (R.remaining reader.old)
        (W.contents writer.old) (W.contents writer.new)) }
{
    let input = read_whole(alloc, reader)?;
    run_input(alloc, form, input.as_slice(), writer)
}

/// Reads a specification and objects, up to the reader's end. Writes a line for each object, using the plain evaluator:
/// `{ok,A}.` if the answer is `A`, and `false.` if there is none. If the input is rejected or memory runs out, it ends
/// as `tool_run` does.
pub fn tool_test<A: Allocator + Copy, R: Read, W: Write>(
    alloc: A,
    form: Form,
    reader: &mut R,
    writer: &mut W,
) -> Result<(), ToolFault>
    ensures ok { OnOk result (OfTerms (R.remaining reader.old) (λ terms.
        WritesAnswers (outcomes form) terms (W.contents writer.old) (W.contents writer.new))) }
    ensures refused { IfErr result (StopsReport (outcomes form) (R.remaining reader.old)
        (W.contents writer.old) (W.contents writer.new)) }
{
    let input = read_whole(alloc, reader)?;
    test_input(alloc, form, input.as_slice(), writer)
}

/// Writes the answers of the query that is the first term of an input on its other terms. A fault of the text is
/// reported before one of the first term. No line is written before the whole text has been read.
fn run_input<A: Allocator + Copy, W: Write>(
    alloc: A,
    form: Form,
    input: &[u8],
    writer: &mut W,
) -> Result<(), ToolFault>
    ensures ok { OnOk result (OfItsTerms input.now (λ terms.
        WritesAnswers (answers form) terms (W.contents writer.old) (W.contents writer.new))) }
    ensures refused { IfErr result (StopsReportAt (answers form) input.now
        (W.contents writer.old) (W.contents writer.new)) }
{
    let text = text_of(input)?;
    let (first, objects) = first_of(alloc, text)?;
    match code_of_query(alloc, &first) {
        Ok(code) => {
            let reported = run_lines(alloc, form, &code, text, objects)?;
            finish(alloc, text, reported, writer)
        }
        Err(fault) => {
            read_on(alloc, text, objects)?;
            Err(fault)
        }
    }
}

/// Writes the outcomes of the terms of an input after the first, by the specification that the first is. A fault of the
/// text is reported before one of the first term. No line is written before the whole text has been read.
fn test_input<A: Allocator + Copy, W: Write>(
    alloc: A,
    form: Form,
    input: &[u8],
    writer: &mut W,
) -> Result<(), ToolFault>
    ensures ok { OnOk result (OfItsTerms input.now (λ terms.
        WritesAnswers (outcomes form) terms (W.contents writer.old) (W.contents writer.new))) }
    ensures refused { IfErr result (StopsReportAt (outcomes form) input.now
        (W.contents writer.old) (W.contents writer.new)) }
{
    let text = text_of(input)?;
    let (first, objects) = first_of(alloc, text)?;
    match specification_of(alloc, &first) {
        Ok(specification) => {
            let reported = outcome_lines(alloc, form, &specification, text, objects)?;
            finish(alloc, text, reported, writer)
        }
        Err(fault) => {
            read_on(alloc, text, objects)?;
            Err(fault)
        }
    }
}

/// Writes the lines on the terms of `text`, or those on the terms before the one for which memory ran out.
fn finish<A: Allocator + Copy, W: Write>(
    alloc: A,
    text: &str,
    reported: Reported<'_, A>,
    writer: &mut W,
) -> Result<(), ToolFault>
    ensures ok { OnOk result ((option_map (λ s. chars s.now) reported.entry.left ≡ None)
        × Appends (W.contents writer.old) (W.contents writer.new) reported.entry.lines.items) }
    ensures refused { (ds : List Datum) → IfSome (option_map (λ s. chars s.now) reported.entry.left) (Front (chars text.now) ds)
        → IfErr result (EndsReport text.now (W.contents writer.old) (W.contents writer.new)
        reported.entry.lines.items (option_map (λ s. chars s.now) reported.entry.left)) }
{
    let Reported { lines, left } = reported;
    let mut lines = lines;
    match left {
        None => write_lines(writer, &mut lines),
        Some(left) => Err(cut_short(alloc, text, left, writer, &mut lines)),
    }
}

/// Ends a command for which memory ran out before `left`, what is left of `text`: reads on for faults of the text, and
/// writes the lines if it finds none. Returns the fault with which the command ends: that of the text, `Memory`, or
/// `WriteFailed`.
fn cut_short<A: Allocator + Copy, W: Write>(
    alloc: A,
    text: &str,
    left: &str,
    writer: &mut W,
    lines: &mut Vec<u8, A>,
) -> ToolFault
    ensures { (ds : List Datum) → Front (chars text.now) ds (chars left.now)
        → EndsCut text.now (W.contents writer.old) (W.contents writer.new) lines.old.items result }
{
    match read_on(alloc, text, left) {
        Ok(()) | Err(ToolFault::Memory) => out_of_memory(writer, lines),
        Err(fault) => fault,
    }
}

/// Reads the terms of `rest`, what is left of `text`, and drops them. Fails with the first fault of the text.
fn read_on<A: Allocator + Copy>(alloc: A, text: &str, rest: &str) -> Result<(), ToolFault>
    ensures ok { OnOk result ((terms : List Datum) × Sentences (chars rest.now) terms) }
    ensures refused { (ds : List Datum) → Front (chars text.now) ds (chars rest.now)
        → IfErr result (IsUnspelled text.now) }
{
    let mut scratch = Scratch::new(alloc);
    let mut left = rest;
    loop {
        let Some((object, after)) = next_of(alloc, &mut scratch, text, left)? else {
            return Ok(());
        };
        drop(object);
        left = after;
    }
}
