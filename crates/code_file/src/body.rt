//! Reading the parts of code into a builder.
ghost use Rattle.std.specs.Prelude.{◌≡◌, ◌<◌, ◌≤◌, length, ◌++◌, ◌∷◌, [], IfOk, IfErr, OnOk};
ghost use Rattle.mcode.specs.Building.{empty_program, with_constant};
ghost use Rattle.mcode.specs.Program.{Rise, frame_number, most_parts, most_slots};
ghost use Rattle.code_writer.specs.Format.{Begins, rows, such};
ghost use Rattle.code_writer.specs.Formats.{constants_format, instruction_format, instructions_format, frame_format, frames_format, parts_format, body_format};
ghost use Rattle.code_file.specs.Due.Item.{a_count, many, a_frame, a_body};
ghost use Rattle.code_file.specs.Due.Row.{constants, instructions, frames};
ghost use Rattle.code_file.specs.Reads.{Reads, Blames, IsStop};
ghost use Rattle.code_file.specs.Parts.{with_constants, with_instructions, with_frames, with_parts, IsNextRead, IsMainRead};
ghost use Rattle.code_file.specs.Rising.{LastIs};

use crate::constant::read_elements;
use crate::count::read_slot_count;
use crate::frame::{is_above, read_frame_at};
use crate::instr::read_instr;
use crate::number::read_u16;
use crate::stop::{FileCause, FileStop};
use code_writer::MAX_OPCODE;
use mcode::Builder;
use std::alloc::{AllocError, Allocator};
use term_core::{MAX_DEPTH, Term};

/// Reads the constants of code.
pub(crate) fn read_constants<A: Allocator + Copy>(
    alloc: A,
    bytes: &[u8],
) -> Result<(Vec<Term<A>, A>, &[u8]), FileStop>
    ensures { Reads constants_format (Blames (a_count constants) bytes.now)
        (λ r. (r.0.items, r.1.now)) bytes.now result }
{
    let (count, rest) = read_u16(bytes)?;
    let (constants, rest) = read_elements(alloc, u32::from(count), rest, MAX_DEPTH)?;
    Ok((constants, rest))
}

/// Appends a constant. There is room for one more.
fn add_constant<A: Allocator>(builder: &mut Builder<A>, term: Term<A>) -> Result<(), AllocError>
    requires { length builder.old.constants < most_parts }
    ensures { OnOk result (builder.new ≡ with_constant builder.old term) }
{
    let _number = builder
        .constant(term)
        .map_err(|refused| refused.fault.alloc_error())?;
    Ok(())
}

/// Makes code without parts, with this number of slots.
fn builder_over<A: Allocator + Copy>(alloc: A, slots: u16) -> Result<Builder<A>, AllocError>
    requires { slots ≤ most_slots }
    ensures { IfOk result (λ builder. builder ≡ empty_program slots) }
{
    let builder = Builder::new(alloc, slots).map_err(|fault| fault.alloc_error())?;
    Ok(builder)
}

/// Makes code with this number of slots, these constants and no other parts.
pub(crate) fn builder_of<A: Allocator + Copy>(
    alloc: A,
    slots: u16,
    constants: Vec<Term<A>, A>,
) -> Result<Builder<A>, AllocError>
    requires slots { slots ≤ most_slots }
    requires constants { length constants.items ≤ most_parts }
    ensures { IfOk result (λ builder. builder ≡ with_constants (empty_program slots) constants.items) }
{
    let mut builder = builder_over(alloc, slots)?;
    let mut left = constants;
    left.reverse();
    while let Some(constant) = left.pop() {
        add_constant(&mut builder, constant)?;
    }
    Ok(builder)
}

/// Reads `count` instructions, with opcodes up to `most`, into the builder.
fn read_instr_rows<'a, A: Allocator>(
    most: u8,
    builder: &mut Builder<A>,
    count: u16,
    bytes: &'a [u8],
) -> Result<&'a [u8], FileStop>
    requires { builder.old.instructions ≡ [] }
    ensures ok { IfOk result (λ rest. Begins (rows (instruction_format most) count) bytes.now
        builder.new.instructions rest.now) }
    ensures kept { IfOk result (λ rest. builder.new ≡ with_instructions builder.old
        builder.new.instructions) }
    ensures refused { IfErr result (λ stop. IsStop (rows (instruction_format most) count) bytes.now
        (Blames (many (instructions most) count) bytes.now) stop) }
{
    let mut rest = bytes;
    for _read in 0..count {
        let (instr, behind) = read_instr(most, rest)?;
        let _number = builder.instr(instr).map_err(|fault| fault.alloc_error())?;
        rest = behind;
    }
    Ok(rest)
}

/// Reads the number of instructions and then these, with opcodes up to `most`, into the builder.
fn read_instrs<'a, A: Allocator>(
    most: u8,
    builder: &mut Builder<A>,
    bytes: &'a [u8],
) -> Result<&'a [u8], FileStop>
    requires { builder.old.instructions ≡ [] }
    ensures ok { IfOk result (λ rest. Begins (instructions_format most) bytes.now
        builder.new.instructions rest.now) }
    ensures kept { IfOk result (λ rest. builder.new ≡ with_instructions builder.old
        builder.new.instructions) }
    ensures refused { IfErr result (λ stop. IsStop (instructions_format most) bytes.now
        (Blames (a_count (instructions most)) bytes.now)
        stop) }
{
    let (count, rest) = read_u16(bytes)?;
    read_instr_rows(most, builder, count, rest)
}

/// Reads a frame into the builder. It has to be above those that are there, of which `last` is the last one's number.
/// Returns its own number and the rest.
fn read_frame<'a, A: Allocator + Copy>(
    alloc: A,
    builder: &mut Builder<A>,
    last: Option<u16>,
    bytes: &'a [u8],
) -> Result<(u16, &'a [u8]), FileStop>
    requires last { LastIs frame_number builder.old.frames last }
    requires rise { Rise frame_number builder.old.frames }
    requires few { length builder.old.frames < most_parts }
    ensures ok { IfOk result (λ r. IsNextRead builder.old builder.new bytes.now r.0 r.1.now) }
    ensures refused { IfErr result (λ stop. IsStop (such frame_format (λ f. Rise frame_number
        (builder.old.frames ++ f ∷ []))) bytes.now (Blames (a_frame builder.old.frames) bytes.now) stop) }
{
    let (pc, rest) = read_u16(bytes)?;
    if !is_above(last, pc) {
        return Err(FileStop::At(FileCause::NotCanonical, bytes.len()));
    }
    let (frame, rest) = read_frame_at(alloc, pc, rest)?;
    builder
        .frame(frame)
        .map_err(|refused| refused.fault.alloc_error())?;
    Ok((pc, rest))
}

/// Reads `count` frames, in ascending order, into the builder.
fn read_frame_rows<'a, A: Allocator + Copy>(
    alloc: A,
    builder: &mut Builder<A>,
    count: u16,
    bytes: &'a [u8],
) -> Result<&'a [u8], FileStop>
    requires { builder.old.frames ≡ [] }
    ensures ok { IfOk result (λ rest. Begins (such (rows frame_format count) (Rise frame_number))
        bytes.now builder.new.frames rest.now) }
    ensures kept { IfOk result (λ rest. builder.new ≡ with_frames builder.old builder.new.frames) }
    ensures refused { IfErr result (λ stop. IsStop (such (rows frame_format count)
        (Rise frame_number)) bytes.now (Blames (many frames count) bytes.now) stop) }
{
    let mut last = None;
    let mut rest = bytes;
    for _read in 0..count {
        let (pc, behind) = read_frame(alloc, builder, last, rest)?;
        last = Some(pc);
        rest = behind;
    }
    Ok(rest)
}

/// Reads the number of frames and then these into the builder.
fn read_frames<'a, A: Allocator + Copy>(
    alloc: A,
    builder: &mut Builder<A>,
    bytes: &'a [u8],
) -> Result<&'a [u8], FileStop>
    requires { builder.old.frames ≡ [] }
    ensures ok { IfOk result (λ rest. Begins frames_format bytes.now builder.new.frames rest.now) }
    ensures kept { IfOk result (λ rest. builder.new ≡ with_frames builder.old builder.new.frames) }
    ensures refused { IfErr result (λ stop. IsStop frames_format bytes.now (Blames (a_count frames) bytes.now)
        stop) }
{
    let (count, rest) = read_u16(bytes)?;
    read_frame_rows(alloc, builder, count, rest)
}

/// Reads the instructions of a body, with opcodes up to `most`, and its frames.
pub(crate) fn read_parts<'a, A: Allocator + Copy>(
    alloc: A,
    most: u8,
    builder: &mut Builder<A>,
    bytes: &'a [u8],
) -> Result<&'a [u8], FileStop>
    requires instructions { builder.old.instructions ≡ [] }
    requires frames { builder.old.frames ≡ [] }
    ensures ok { IfOk result (λ rest. Begins (parts_format most) bytes.now
        (builder.new.instructions, builder.new.frames) rest.now) }
    ensures kept { IfOk result (λ rest. builder.new ≡ with_parts builder.old
        builder.new.instructions builder.new.frames) }
    ensures refused { IfErr result (λ stop. IsStop (parts_format most) bytes.now
        (Blames (a_count (instructions most)) bytes.now) stop) }
{
    let rest = read_instrs(most, builder, bytes)?;
    let rest = read_frames(alloc, builder, rest)?;
    Ok(rest)
}

/// Reads the main body of code with these constants and with routines.
pub(crate) fn read_main<A: Allocator + Copy>(
    alloc: A,
    constants: Vec<Term<A>, A>,
    bytes: &[u8],
) -> Result<(Builder<A>, &[u8]), FileStop>
    requires { length constants.items ≤ most_parts }
    ensures ok { IfOk result (λ r. IsMainRead constants.items r.0 bytes.now r.1.now) }
    ensures refused { IfErr result (λ stop. IsStop body_format bytes.now (Blames a_body bytes.now) stop) }
{
    let (slots, rest) = read_slot_count(bytes)?;
    let mut builder = builder_of(alloc, slots, constants)?;
    let rest = read_parts(alloc, MAX_OPCODE, &mut builder, rest)?;
    Ok((builder, rest))
}
