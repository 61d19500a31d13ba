//! The lines of answers.
ghost use Rattle.std.specs.Prelude.{IfErr, OnOk, flat_map};
ghost use Rattle.std.specs.Io.KnownBytes.{Appends};
ghost use Rattle.tool_io.specs.Lines.{line};
ghost use Rattle.tool_scan.specs.Answers.{StopsAnswers};

use std::alloc::{AllocError, Allocator};
use std::io::Write;
use term_core::Term;
use tool_io::{ToolFault, out_of_memory, put_line, write_if_many, write_lines};

/// Writes these answers, one line each. If memory runs out, the lines of the first answers are written.
pub(crate) fn write_answers<A: Allocator + Copy, W: Write>(
    alloc: A,
    answers: &[Term<A>],
    writer: &mut W,
) -> Result<(), ToolFault>
    ensures ok { OnOk result (Appends (W.contents writer.old) (W.contents writer.new) (flat_map line answers.now)) }
    ensures stopped { IfErr result (StopsAnswers answers.now (W.contents writer.old) (W.contents writer.new)) }
{
    let mut lines = Vec::new(alloc);
    for answer in answers {
        match put_line(b"", answer, b".\n", &mut lines) {
            Ok(()) => write_if_many(writer, &mut lines)?,
            Err(AllocError) => return Err(out_of_memory(writer, &mut lines)),
        }
    }
    write_lines(writer, &mut lines)
}
