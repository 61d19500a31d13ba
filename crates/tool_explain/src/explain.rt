//! The command `explain`.
ghost use Rattle.std.specs.Prelude.{ℕ, ◌≡◌, ◌<◌, ◌⊎◌, ◌++◌, List, length, OnOk, IfErr};
ghost use Rattle.std.specs.Io.KnownBytes.{Appends, Keeps};
ghost use Rattle.tool_io.specs.Terms.{OfTerms};
ghost use Rattle.mcode.specs.Program.{Program};
ghost use Rattle.mspec_syntax.specs.Specification.{Specification};
ghost use Rattle.tool_query.specs.Query.{IsLoaded, IsRead, IsUnloaded, IsNoSpecification};
ghost use Rattle.tool_query.specs.Query.Query.{meant, coded};
ghost use Rattle.tool_query.specs.Run.{Stops};
ghost use Rattle.tool_explain.specs.Explain.{QueryText, CodeText, WritesQuery, StopsQuery, StopsTerm};
ghost use Rattle.tool_explain.specs.Listing.{listing};
ghost use Rattle.tool_explain.specs.Passing.{StopsPassing};
ghost use Rattle.walk_query.specs.Named.{named_by};
ghost use Rattle.tool_explain.specs.Plan.{plan_text};
ghost use Rattle.tool_explain.specs.Explain.{WritesExplanation, StopsExplanation};

use crate::listing::pass_listing;
use crate::plan::{put_bounds, put_look_ups, put_whole_walk};
use compiler::compile;
use mcode::Code;
use mspec_syntax::Spec;
use std::alloc::{AllocError, Allocator};
use std::io::{Read, Write};
use term_core::{Term, View};
use tool_io::{ToolFault, read_input, write_lines};
use tool_query::{load, only, specification_of};
use verifier::Verified;
use walk_query::named_keys;

/// Reads one specification, or one code file, which is a binary, up to the reader's end. Writes which objects a walk
/// visits in a table with this `keypos`, the maximal number of instructions and stack depth of a run, and the code. The
/// slots of a specification's code are written as its variables. Lines are written as they are made, 65,536 bytes or more
/// at a time. Writes nothing if the input is rejected, and a beginning of the text, maybe nothing, if memory runs out.
pub fn tool_explain<A: Allocator + Copy, R: Read, W: Write>(
    alloc: A,
    keypos: u16,
    reader: &mut R,
    writer: &mut W,
) -> Result<(), ToolFault>
    ensures ok { OnOk result (OfTerms (R.remaining reader.old) (λ terms.
        WritesExplanation keypos terms (W.contents writer.old) (W.contents writer.new))) }
    ensures refused { IfErr result (λ fault. Stops (R.remaining reader.old)
        (W.contents writer.old) (W.contents writer.new) fault (λ terms.
        StopsExplanation keypos terms (W.contents writer.old) (W.contents writer.new) fault)) }
{
    let terms = read_input(alloc, reader)?;
    explain_terms(alloc, keypos, terms.as_slice(), writer)
}

/// Writes the explanation of the only term. More than one term is `BadInput`.
fn explain_terms<A: Allocator + Copy, W: Write>(
    alloc: A,
    keypos: u16,
    terms: &[Term<A>],
    writer: &mut W,
) -> Result<(), ToolFault>
    requires { 0 < length terms.now }
    ensures ok { OnOk result (WritesExplanation keypos terms.now
        (W.contents writer.old) (W.contents writer.new)) }
    ensures stopped { IfErr result (StopsExplanation keypos terms.now
        (W.contents writer.old) (W.contents writer.new)) }
{
    let term = only(terms)?;
    explain_term(alloc, keypos, term, writer)
}

/// Writes the explanation of the query that a term is: for a binary that of the code of which it is the file, for any
/// other term that of the specification as which it is read.
fn explain_term<A: Allocator + Copy, W: Write>(
    alloc: A,
    keypos: u16,
    term: &Term<A>,
    writer: &mut W,
) -> Result<(), ToolFault>
    ensures ok { OnOk result (WritesQuery keypos term.now (W.contents writer.old) (W.contents writer.new)) }
    ensures stopped { IfErr result (StopsTerm keypos term.now (W.contents writer.old) (W.contents writer.new)) }
{
    if let View::Binary(bytes) = term.view() {
        return explain_file(alloc, keypos, bytes, writer);
    }
    explain_read(alloc, keypos, term, writer)
}

/// Writes the explanation of the code of which the bytes are the file.
fn explain_file<A: Allocator + Copy, W: Write>(
    alloc: A,
    keypos: u16,
    bytes: &[u8],
    writer: &mut W,
) -> Result<(), ToolFault>
    ensures ok { OnOk result ((p : Program) × IsLoaded bytes.now p × (text : List ℕ)
        × QueryText keypos (coded p) text × Appends (W.contents writer.old) (W.contents writer.new) text) }
    ensures stopped { IfErr result (λ fault.
        (IsUnloaded bytes.now fault × Keeps (W.contents writer.old) (W.contents writer.new))
        ⊎ ((p : Program) × IsLoaded bytes.now p
        × StopsQuery keypos (coded p) (W.contents writer.old) (W.contents writer.new) fault)) }
{
    match load(alloc, bytes) {
        Ok(code) => explain_code(alloc, keypos, &code, writer),
        Err(fault) => Err(fault),
    }
}

/// Writes the explanation of the specification as which a term is read.
fn explain_read<A: Allocator + Copy, W: Write>(
    alloc: A,
    keypos: u16,
    term: &Term<A>,
    writer: &mut W,
) -> Result<(), ToolFault>
    ensures ok { OnOk result ((s : Specification) × IsRead term.now s × (text : List ℕ)
        × QueryText keypos (meant s) text × Appends (W.contents writer.old) (W.contents writer.new) text) }
    ensures stopped { IfErr result (λ fault.
        (IsNoSpecification term.now fault × Keeps (W.contents writer.old) (W.contents writer.new))
        ⊎ ((s : Specification) × IsRead term.now s
        × StopsQuery keypos (meant s) (W.contents writer.old) (W.contents writer.new) fault)) }
{
    match specification_of(alloc, term) {
        Ok(specification) => explain_specification(alloc, keypos, &specification, writer),
        Err(fault) => Err(fault),
    }
}

/// Writes the explanation of code. Which keys it names is unknown, so its walk visits all objects.
fn explain_code<A: Allocator + Copy, W: Write>(
    alloc: A,
    keypos: u16,
    code: &Verified<A>,
    writer: &mut W,
) -> Result<(), ToolFault>
    ensures ok { OnOk result ((text : List ℕ) × QueryText keypos (coded code.now) text
        × Appends (W.contents writer.old) (W.contents writer.new) text) }
    ensures stopped { IfErr result
        (StopsQuery keypos (coded code.now) (W.contents writer.old) (W.contents writer.new)) }
{
    let mut lines = Vec::new(alloc);
    match put_whole_walk(keypos, &mut lines) {
        Ok(()) => write_code(alloc, &[], code, writer, &mut lines),
        Err(AllocError) => Err(ToolFault::Memory),
    }
}

/// Writes the explanation of a specification.
fn explain_specification<A: Allocator + Copy, W: Write>(
    alloc: A,
    keypos: u16,
    specification: &Spec<A>,
    writer: &mut W,
) -> Result<(), ToolFault>
    ensures ok { OnOk result ((text : List ℕ) × QueryText keypos (meant specification.now) text
        × Appends (W.contents writer.old) (W.contents writer.new) text) }
    ensures stopped { IfErr result
        (StopsQuery keypos (meant specification.now) (W.contents writer.old) (W.contents writer.new)) }
{
    let mut lines = Vec::new(alloc);
    match put_plan(alloc, keypos, specification, &mut lines) {
        Ok(()) => {}
        Err(AllocError) => return Err(ToolFault::Memory),
    }
    match compile(alloc, specification) {
        Ok(code) => {
            let variables = specification.variables().numbers();
            write_code(alloc, variables, &code, writer, &mut lines)
        }
        Err(AllocError) => Err(ToolFault::Memory),
    }
}

/// Appends which objects a walk by a specification visits.
fn put_plan<A: Allocator + Copy>(
    alloc: A,
    keypos: u16,
    specification: &Spec<A>,
    lines: &mut Vec<u8, A>,
) -> Result<(), AllocError>
    ensures { OnOk result (lines.new.items
        ≡ lines.old.items ++ plan_text keypos (named_by keypos specification.now)) }
{
    match named_keys(alloc, specification, keypos)? {
        Some(keys) => put_look_ups(keypos, keys.as_slice(), lines),
        None => put_whole_walk(keypos, lines),
    }
}

/// Writes the gathered lines, and the bounds and the listing of code after them. The slots of the code are those of these
/// variables.
fn write_code<A: Allocator + Copy, W: Write>(
    alloc: A,
    variables: &[u32],
    code: &Verified<A>,
    writer: &mut W,
    lines: &mut Vec<u8, A>,
) -> Result<(), ToolFault>
    ensures ok { OnOk result ((text : List ℕ) × CodeText variables.now code.now text
        × Appends (W.contents writer.old) (W.contents writer.new) (lines.old.items ++ text)) }
    ensures stopped { IfErr result (λ fault. (text : List ℕ) × CodeText variables.now code.now text
        × StopsPassing (lines.old.items ++ text) (W.contents writer.old) (W.contents writer.new) fault) }
{
    match put_bounds(code.budget(), code.depth(), lines) {
        Ok(()) => write_listing(alloc, variables, code.code(), writer, lines),
        Err(AllocError) => Err(ToolFault::Memory),
    }
}

/// Writes the gathered lines, and the listing of code after them.
fn write_listing<A: Allocator + Copy, W: Write>(
    alloc: A,
    variables: &[u32],
    code: &Code<A>,
    writer: &mut W,
    lines: &mut Vec<u8, A>,
) -> Result<(), ToolFault>
    ensures ok { OnOk result (Appends (W.contents writer.old) (W.contents writer.new)
        (lines.old.items ++ listing variables.now code.now)) }
    ensures stopped { IfErr result (StopsPassing (lines.old.items ++ listing variables.now code.now)
        (W.contents writer.old) (W.contents writer.new)) }
{
    match pass_listing(alloc, variables, code, writer, lines) {
        Ok(()) => write_lines(writer, lines),
        Err(fault) => Err(fault),
    }
}
