//! The command `scan`.
ghost use Rattle.std.specs.Prelude.{◌<◌, IfErr, OnOk, length};
ghost use Rattle.part_core.specs.Served.{ServesUnordered};
ghost use Rattle.tool_io.specs.Terms.{OfTerms};
ghost use Rattle.tool_scan.specs.Options.{AreAllowed};
ghost use Rattle.tool_scan.specs.Scan.{StopsScan, StopsTerms, WritesScan};

use crate::answers::write_answers;
use crate::asking::answers_on;
use crate::objects::check_objects;
use crate::options::{ScanOptions, table_options};
use part_core::Part;
use std::alloc::{AllocError, Allocator};
use std::io::{Read, Write};
use std::sync::Wait;
use std::thread::Threads;
use term_core::Term;
use tool_io::{ToolFault, read_input};
use tool_query::specification_of;

/// Inserts the terms after the first into a table, and writes the answers of the first term on them.
fn scan_terms<
    H: Threads + Wait + Sync,
    P: Part<A> + Drop + Send,
    A: Allocator + Copy + Send + Sync,
    W: Write,
>(
    rt: &H,
    alloc: A,
    options: ScanOptions,
    terms: &[Term<A>],
    writer: &mut W,
) -> Result<(), ToolFault>
    requires serves { ServesUnordered P.serves }
    requires allowed { AreAllowed options }
    requires some { 0 < length terms.now }
    ensures ok { OnOk result (WritesScan options terms.now
        (W.contents writer.old) (W.contents writer.new)) }
    ensures stopped { IfErr result (StopsTerms options terms.now
        (W.contents writer.old) (W.contents writer.new)) }
{
    let [first, objects @ ..] = terms else {
        unreachable!();
    };
    let specification = specification_of(alloc, first)?;
    check_objects(options, objects)?;
    match answers_on::<H, P, A>(rt, alloc, options, &specification, objects) {
        Ok(answers) => write_answers(alloc, answers.as_slice(), writer),
        Err(AllocError) => Err(ToolFault::Memory),
    }
}

/// Reads a specification and objects, up to the reader's end. Inserts the objects into a table of parts `P` in their
/// order, and has sessions on threads of their own walk it by the specification. Writes each answer, part by part: its
/// canonical text, a dot and a line feed.
///
/// Fails with `BadOptions` before anything is read if an option is outside its range. Writes nothing if the input is
/// rejected; the first term is checked before the others, each of which has to be an object. If memory runs out while
/// lines are made of the answers, the lines of the first answers are written.
pub fn tool_scan<
    H: Threads + Wait + Sync,
    P: Part<A> + Drop + Send,
    A: Allocator + Copy + Send + Sync,
    R: Read,
    W: Write,
>(rt: &H, alloc: A, options: ScanOptions, reader: &mut R, writer: &mut W) -> Result<(), ToolFault>
    requires { ServesUnordered P.serves }
    ensures ok { OnOk result (AreAllowed options × OfTerms (R.remaining reader.old) (λ terms.
        WritesScan options terms (W.contents writer.old) (W.contents writer.new))) }
    ensures refused { IfErr result (StopsScan options (R.remaining reader.old)
        (W.contents writer.old) (W.contents writer.new)) }
{
    if !table_options(options).settings().are_in_range() {
        return Err(ToolFault::BadOptions);
    }
    let terms = read_input(alloc, reader)?;
    scan_terms::<H, P, A, W>(rt, alloc, options, terms.as_slice(), writer)
}
