//! The code of a specification, as a list.
use compiler::compile;
use mcode::{Code, Frame, Instr};
use mspec_reader::read_spec;
use std::alloc::Global;
use term_core::Term;
use term_text::write_term;
use verifier::Verified;

/// Returns the text of a term.
fn text_of(alloc: Global, term: &Term) -> Option<String> {
    let mut text = Vec::new(alloc);
    write_term(term, &mut text).ok()?;
    String::from_utf8(text).ok()
}

/// Writes the lines of constants.
fn write_constants(alloc: Global, constants: &[Term], lines: &mut String) -> Option<()> {
    for (number, constant) in constants.iter().enumerate() {
        let text = text_of(alloc, constant)?;
        writeln!(lines, "constant {number}: {text}").ok()?;
    }
    Some(())
}

/// Writes the lines of instructions.
fn write_instructions(instructions: &[Instr], lines: &mut String) -> Option<()> {
    for (number, instruction) in instructions.iter().enumerate() {
        writeln!(lines, "{number} {instruction:?}").ok()?;
    }
    Some(())
}

/// Writes the lines of frames.
fn write_frames(frames: &[Frame], lines: &mut String) -> Option<()> {
    for frame in frames {
        let pc = frame.pc;
        let depth = frame.depth;
        let integers = frame.places.as_slice();
        let slots = frame.slots.as_slice();
        writeln!(
            lines,
            "frame {pc}: depth {depth}, {integers:?}, slots {slots:?}"
        )
        .ok()?;
    }
    Some(())
}

/// Writes the lines of code.
fn write_code(alloc: Global, code: &Code, lines: &mut String) -> Option<()> {
    write_constants(alloc, code.constants(), lines)?;
    write_instructions(code.instructions(), lines)?;
    write_frames(code.frames(), lines)
}

/// Writes the lines of verified code, after a line with its slots, its budget and its depth.
fn write_verified(alloc: Global, verified: &Verified, lines: &mut String) -> Option<()> {
    let slots = verified.code().slots();
    let budget = verified.budget();
    let depth = verified.depth();
    writeln!(lines, "slots {slots}, budget {budget}, depth {depth}").ok()?;
    write_code(alloc, verified.code(), lines)
}

/// Writes the constants, instructions and frames of the code of a specification, and its budget and depth.
pub(crate) fn write(alloc: Global, specification: &Term, lines: &mut String) -> Option<()> {
    let specification = read_spec(alloc, specification).ok()?;
    let verified = compile(alloc, &specification).ok()?;
    write_verified(alloc, &verified, lines)
}
