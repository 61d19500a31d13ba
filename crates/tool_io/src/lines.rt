//! Lines that are gathered, and then written.
ghost use Rattle.std.specs.Prelude.{◌≡◌, ◌++◌, [], IfErr, OnOk, OnErr};
ghost use Rattle.std.specs.Io.KnownBytes.{Appends};
ghost use Rattle.tool_io.specs.Lines.{text_in, text_of, Passes, EndsBy};

use crate::fault::ToolFault;
use std::alloc::{AllocError, Allocator};
use std::io::Write;
use term_core::Term;
use term_text::{Form, write_as};

/// How many bytes of output are gathered before they are written.
const WRITE_SIZE: usize = 65_536;

/// Appends `before`, the text of the term in the given form, and `after`. If an allocation fails, `lines` is unchanged.
pub fn put_line_in<A: Allocator + Copy>(
    form: Form,
    before: &[u8],
    term: &Term<A>,
    after: &[u8],
    lines: &mut Vec<u8, A>,
) -> Result<(), AllocError>
    ensures ok { OnOk result (lines.new.items ≡ lines.old.items
        ++ (before.now ++ (text_in form term.now ++ after.now))) }
    ensures err { OnErr result (lines.new.items ≡ lines.old.items) }
{
    let start = lines.len();
    lines.extend_from_slice(before)?;
    if let Err(AllocError) = write_as(form, term, lines) {
        lines.truncate(start);
        return Err(AllocError);
    }
    match lines.extend_from_slice(after) {
        Ok(()) => Ok(()),
        Err(AllocError) => {
            lines.truncate(start);
            Err(AllocError)
        }
    }
}

/// Appends `before`, the canonical text of the term, and `after`. If an allocation fails, `lines` is unchanged.
pub fn put_line<A: Allocator + Copy>(
    before: &[u8],
    term: &Term<A>,
    after: &[u8],
    lines: &mut Vec<u8, A>,
) -> Result<(), AllocError>
    ensures ok { OnOk result (lines.new.items ≡ lines.old.items
        ++ (before.now ++ (text_of term.now ++ after.now))) }
    ensures err { OnErr result (lines.new.items ≡ lines.old.items) }
{
    put_line_in(Form::Canonical, before, term, after, lines)
}

/// Writes the lines that were gathered before memory ran out. Returns the fault with which the command ends: `Memory`,
/// or `WriteFailed` if that write fails.
pub fn out_of_memory<A: Allocator, W: Write>(writer: &mut W, lines: &mut Vec<u8, A>) -> ToolFault
    ensures { EndsBy (W.contents writer.old) (W.contents writer.new) lines.old.items result }
{
    match write_lines(writer, lines) {
        Ok(()) => ToolFault::Memory,
        Err(fault) => fault,
    }
}

/// Writes the gathered lines if they have at least 65,536 bytes; otherwise keeps them. Fails with `WriteFailed`.
pub fn write_if_many<A: Allocator, W: Write>(
    writer: &mut W,
    lines: &mut Vec<u8, A>,
) -> Result<(), ToolFault>
    ensures ok { OnOk result (Passes (W.contents writer.old) (W.contents writer.new)
        lines.old.items lines.new.items) }
    ensures failed { IfErr result (λ fault. fault ≡ ToolFault.WriteFailed) }
{
    if lines.len() < WRITE_SIZE {
        return Ok(());
    }
    write_lines(writer, lines)
}

/// Writes the gathered lines, flushes the writer, and leaves `lines` empty. Fails with `WriteFailed`.
pub fn write_lines<A: Allocator, W: Write>(
    writer: &mut W,
    lines: &mut Vec<u8, A>,
) -> Result<(), ToolFault>
    ensures ok { OnOk result
        (Appends (W.contents writer.old) (W.contents writer.new) lines.old.items) }
    ensures empty { OnOk result (lines.new.items ≡ []) }
    ensures failed { IfErr result (λ fault. fault ≡ ToolFault.WriteFailed) }
{
    if writer.write_all(lines.as_slice()).is_err() || writer.flush().is_err() {
        return Err(ToolFault::WriteFailed);
    }
    lines.clear();
    Ok(())
}
