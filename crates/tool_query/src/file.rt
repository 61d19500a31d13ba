//! The commands that write code files and describe them.
ghost use Rattle.std.specs.Prelude.{◌≡◌, ◌<◌, ◌++◌, ◌∷◌, [], length, OnOk, IfOk, IfErr};
ghost use Rattle.term_core.specs.Datum.Datum.{binary};
ghost use Rattle.tool_io.specs.Lines.{line};
ghost use Rattle.tool_io.specs.Terms.{OfTerms};
ghost use Rattle.tool_query.specs.Code.{verdict, WritesFile, StopsFile, WritesVerdict, StopsVerdict};
ghost use Rattle.tool_query.specs.Run.{Stops};

use crate::query::{file_of, load, specification_of};
use std::alloc::{AllocError, Allocator};
use std::io::{Read, Write};
use term_core::{Term, View};
use term_text::write_binary;
use tool_io::{ToolFault, put_line, read_input, write_lines};
use verifier::Verified;

/// Reads one specification, up to the reader's end, and writes the file of its code: a binary, a dot and a line feed.
/// Writes nothing if the input is rejected or memory runs out. An input of more than one term is `BadInput`.
pub fn tool_compile<A: Allocator + Copy, R: Read, W: Write>(
    alloc: A,
    reader: &mut R,
    writer: &mut W,
) -> Result<(), ToolFault>
    ensures ok { OnOk result (OfTerms (R.remaining reader.old) (λ terms.
        WritesFile terms (W.contents writer.old) (W.contents writer.new))) }
    ensures refused { IfErr result (λ fault. Stops (R.remaining reader.old)
        (W.contents writer.old) (W.contents writer.new) fault (λ terms.
        StopsFile terms (W.contents writer.old) (W.contents writer.new) fault)) }
{
    let terms = read_input(alloc, reader)?;
    compile_terms(alloc, terms.as_slice(), writer)
}

/// Reads one code file, which is a binary, up to the reader's end, and writes `{ok,Budget,Depth}.`: the maximal number
/// of instructions that a run executes, and the maximal depth of its stack. Writes nothing if the input is rejected or
/// memory runs out. An input of more than one term, or of no binary, is `BadInput`.
pub fn tool_verify<A: Allocator + Copy, R: Read, W: Write>(
    alloc: A,
    reader: &mut R,
    writer: &mut W,
) -> Result<(), ToolFault>
    ensures ok { OnOk result (OfTerms (R.remaining reader.old) (λ terms.
        WritesVerdict terms (W.contents writer.old) (W.contents writer.new))) }
    ensures refused { IfErr result (λ fault. Stops (R.remaining reader.old)
        (W.contents writer.old) (W.contents writer.new) fault (λ terms.
        StopsVerdict terms (W.contents writer.old) (W.contents writer.new) fault)) }
{
    let terms = read_input(alloc, reader)?;
    verify_terms(alloc, terms.as_slice(), writer)
}

/// Returns the only one of these terms, of which there is at least one. Fails with `BadInput` if there are more.
pub fn only<A: Allocator>(terms: &[Term<A>]) -> Result<&Term<A>, ToolFault>
    requires { 0 < length terms.now }
    ensures ok { IfOk result (λ first. terms.now ≡ first.now ∷ []) }
    ensures refused { IfErr result (λ fault. (fault ≡ ToolFault.BadInput)
        × (1 < length terms.now)) }
{
    let [first] = terms else {
        return Err(ToolFault::BadInput);
    };
    Ok(first)
}

/// Writes the file of the code of the only term.
fn compile_terms<A: Allocator + Copy, W: Write>(
    alloc: A,
    terms: &[Term<A>],
    writer: &mut W,
) -> Result<(), ToolFault>
    requires { 0 < length terms.now }
    ensures ok { OnOk result (WritesFile terms.now
        (W.contents writer.old) (W.contents writer.new)) }
    ensures stopped { IfErr result (StopsFile terms.now
        (W.contents writer.old) (W.contents writer.new)) }
{
    let specification = specification_of(alloc, only(terms)?)?;
    let Ok(file) = file_of(alloc, &specification) else {
        return Err(ToolFault::Memory);
    };
    let mut lines = Vec::new(alloc);
    match put_file(file.as_slice(), &mut lines) {
        Ok(()) => write_lines(writer, &mut lines),
        Err(AllocError) => Err(ToolFault::Memory),
    }
}

/// Appends the line of a file.
fn put_file<A: Allocator + Copy>(file: &[u8], lines: &mut Vec<u8, A>) -> Result<(), AllocError>
    ensures { OnOk result (lines.new.items ≡ lines.old.items ++ line (binary file.now)) }
{
    write_binary(file, lines)?;
    lines.extend_from_slice(b".\n")
}

/// Writes the budget and the depth of the code of which the only term is the file.
fn verify_terms<A: Allocator + Copy, W: Write>(
    alloc: A,
    terms: &[Term<A>],
    writer: &mut W,
) -> Result<(), ToolFault>
    requires { 0 < length terms.now }
    ensures ok { OnOk result (WritesVerdict terms.now
        (W.contents writer.old) (W.contents writer.new)) }
    ensures stopped { IfErr result (StopsVerdict terms.now
        (W.contents writer.old) (W.contents writer.new)) }
{
    let View::Binary(bytes) = only(terms)?.view() else {
        return Err(ToolFault::BadInput);
    };
    let code = load(alloc, bytes)?;
    let mut lines = Vec::new(alloc);
    match put_verdict(code.budget(), code.depth(), &mut lines) {
        Ok(()) => write_lines(writer, &mut lines),
        Err(AllocError) => Err(ToolFault::Memory),
    }
}

/// Appends the line of a verdict: `{ok,Budget,Depth}.`.
#[tactic(auto, using(crate::proofs::TextLemmas::verdict_line))]
fn put_verdict<A: Allocator + Copy>(
    budget: u32,
    depth: u16,
    lines: &mut Vec<u8, A>,
) -> Result<(), AllocError>
    ensures { OnOk result (lines.new.items ≡ lines.old.items ++ line (verdict budget depth)) }
{
    let budget = Term::int(i64::from(budget));
    let depth = Term::int(i64::from(depth));
    put_line(b"{ok,", &budget, b",", lines)?;
    put_line(b"", &depth, b"}.\n", lines)
}
