//! The lines of code.
ghost use Rattle.std.specs.Prelude.{◌≡◌, ◌++◌, OnOk, IfOk, IfErr};
ghost use Rattle.tool_explain.specs.Listing.{begun_line, instruction_line, numbered, body_lines, heading, routine_text};
ghost use Rattle.tool_explain.specs.Listing.{constant_line, rest_of_listing, listing};
ghost use Rattle.tool_explain.specs.Passing.{Passes, Stops};

use crate::table::{is_long, mnemonic, operand_text, otherwise_text};
use crate::text::{put_blanks, put_in_column, put_number};
use mcode::{Code, Instr, Routine};
use std::alloc::{AllocError, Allocator};
use std::io::Write;
use term_core::Term;
use term_text::write_term;
use tool_io::{ToolFault, write_if_many};

/// The width of the column of instruction numbers, in which they are right-aligned.
const NUMBER_WIDTH: usize = 5;
/// The column that the operand follows.
const OPERAND_COLUMN: usize = 18;
/// The column that the jump target follows.
const OTHERWISE_COLUMN: usize = 36;

/// Returns the beginning of an instruction's line: its number, right-aligned in five columns, and its name.
fn begun_line<A: Allocator + Copy>(
    alloc: A,
    pc: usize,
    name: &str,
) -> Result<Vec<u8, A>, AllocError>
    ensures { IfOk result (λ line. line.items ≡ begun_line pc name.now) }
{
    let mut number = Vec::new(alloc);
    put_number(pc as u64, &mut number)?;
    let mut line = Vec::new(alloc);
    put_blanks(NUMBER_WIDTH.saturating_sub(number.len()), &mut line)?;
    line.extend_from_slice(number.as_slice())?;
    line.extend_from_slice(b"  ")?;
    line.extend_from_slice(name.as_bytes())?;
    Ok(line)
}

/// Appends the line of an instruction.
fn put_instruction<A: Allocator + Copy>(
    alloc: A,
    variables: &[u32],
    constants: &[Term<A>],
    pc: usize,
    instr: Instr,
    lines: &mut Vec<u8, A>,
) -> Result<(), AllocError>
    ensures { OnOk result (lines.new.items
        ≡ lines.old.items ++ instruction_line variables.now constants.now pc instr) }
{
    let operand = operand_text(alloc, variables, constants, instr)?;
    let otherwise = otherwise_text(alloc, instr)?;
    let mut line = begun_line(alloc, pc, mnemonic(instr))?;
    put_in_column(OPERAND_COLUMN, operand.as_slice(), &mut line)?;
    put_in_column(OTHERWISE_COLUMN, otherwise.as_slice(), &mut line)?;
    line.push(b'\n')?;
    lines.extend_from_slice(line.as_slice())
}

/// Appends the line of an instruction, and writes the gathered lines if they are many.
fn pass_instruction<A: Allocator + Copy, W: Write>(
    alloc: A,
    variables: &[u32],
    constants: &[Term<A>],
    pc: usize,
    instr: Instr,
    writer: &mut W,
    lines: &mut Vec<u8, A>,
) -> Result<(), ToolFault>
    ensures ok { OnOk result (Passes (instruction_line variables.now constants.now pc instr)
        (W.contents writer.old) (W.contents writer.new) lines.old.items lines.new.items) }
    ensures stopped { IfErr result (Stops (instruction_line variables.now constants.now pc instr)
        (W.contents writer.old) (W.contents writer.new) lines.old.items) }
{
    match put_instruction(alloc, variables, constants, pc, instr, lines) {
        Ok(()) => write_if_many(writer, lines),
        Err(AllocError) => Err(ToolFault::Memory),
    }
}

/// Passes the lines of a body's instructions on.
fn pass_instructions<A: Allocator + Copy, W: Write>(
    alloc: A,
    variables: &[u32],
    constants: &[Term<A>],
    instructions: &[Instr],
    writer: &mut W,
    lines: &mut Vec<u8, A>,
) -> Result<(), ToolFault>
    ensures ok { OnOk result (Passes (body_lines variables.now constants.now instructions.now)
        (W.contents writer.old) (W.contents writer.new) lines.old.items lines.new.items) }
    ensures stopped { IfErr result (Stops (body_lines variables.now constants.now instructions.now)
        (W.contents writer.old) (W.contents writer.new) lines.old.items) }
{
    for pc in 0..instructions.len() {
        let instr = instructions[pc];
        match pass_instruction(alloc, variables, constants, pc, instr, writer, lines) {
            Ok(()) => {}
            Err(fault) => return Err(fault),
        }
    }
    Ok(())
}

/// Appends a heading with the number of a routine and how many arguments it has.
fn put_heading<A: Allocator + Copy>(
    number: usize,
    routine: &Routine<A>,
    lines: &mut Vec<u8, A>,
) -> Result<(), AllocError>
    ensures { OnOk result (lines.new.items ≡ lines.old.items ++ heading number routine.now) }
{
    lines.extend_from_slice(b"routine ")?;
    put_number(number as u64, lines)?;
    lines.extend_from_slice(b", arguments ")?;
    put_number(routine.arguments().len() as u64, lines)?;
    lines.extend_from_slice(b"\n")?;
    Ok(())
}

/// Passes the heading and the lines of a routine on.
fn pass_routine<A: Allocator + Copy, W: Write>(
    alloc: A,
    variables: &[u32],
    constants: &[Term<A>],
    number: usize,
    routine: &Routine<A>,
    writer: &mut W,
    lines: &mut Vec<u8, A>,
) -> Result<(), ToolFault>
    ensures ok { OnOk result (Passes (routine_text variables.now constants.now number routine.now)
        (W.contents writer.old) (W.contents writer.new) lines.old.items lines.new.items) }
    ensures stopped { IfErr result (Stops (routine_text variables.now constants.now number routine.now)
        (W.contents writer.old) (W.contents writer.new) lines.old.items) }
{
    match put_heading(number, routine, lines) {
        Ok(()) => pass_instructions(
            alloc,
            variables,
            constants,
            routine.instructions(),
            writer,
            lines,
        ),
        Err(AllocError) => Err(ToolFault::Memory),
    }
}

/// Passes the texts of routines on, numbered from 1.
fn pass_routines<A: Allocator + Copy, W: Write>(
    alloc: A,
    variables: &[u32],
    constants: &[Term<A>],
    routines: &[Routine<A>],
    writer: &mut W,
    lines: &mut Vec<u8, A>,
) -> Result<(), ToolFault>
    ensures ok { OnOk result (Passes (numbered (routine_text variables.now constants.now) 1 routines.now)
        (W.contents writer.old) (W.contents writer.new) lines.old.items lines.new.items) }
    ensures stopped { IfErr result (Stops (numbered (routine_text variables.now constants.now) 1 routines.now)
        (W.contents writer.old) (W.contents writer.new) lines.old.items) }
{
    for place in 0..routines.len() {
        match pass_routine(
            alloc,
            variables,
            constants,
            place + 1,
            &routines[place],
            writer,
            lines,
        ) {
            Ok(()) => {}
            Err(fault) => return Err(fault),
        }
    }
    Ok(())
}

/// Appends the line of a constant that is too long for the lines of instructions, or nothing.
fn put_constant<A: Allocator + Copy>(
    alloc: A,
    number: usize,
    constant: &Term<A>,
    lines: &mut Vec<u8, A>,
) -> Result<(), AllocError>
    ensures { OnOk result (lines.new.items ≡ lines.old.items ++ constant_line number constant.now) }
{
    let mut text = Vec::new(alloc);
    write_term(constant, &mut text)?;
    if !is_long(text.as_slice()) {
        return Ok(());
    }
    lines.extend_from_slice(b"constant ")?;
    put_number(number as u64, lines)?;
    lines.extend_from_slice(b": ")?;
    lines.extend_from_slice(text.as_slice())?;
    lines.extend_from_slice(b"\n")?;
    Ok(())
}

/// Appends the line of a constant, if it has one, and writes the gathered lines if they are many.
fn pass_constant<A: Allocator + Copy, W: Write>(
    alloc: A,
    number: usize,
    constant: &Term<A>,
    writer: &mut W,
    lines: &mut Vec<u8, A>,
) -> Result<(), ToolFault>
    ensures ok { OnOk result (Passes (constant_line number constant.now)
        (W.contents writer.old) (W.contents writer.new) lines.old.items lines.new.items) }
    ensures stopped { IfErr result (Stops (constant_line number constant.now)
        (W.contents writer.old) (W.contents writer.new) lines.old.items) }
{
    match put_constant(alloc, number, constant, lines) {
        Ok(()) => write_if_many(writer, lines),
        Err(AllocError) => Err(ToolFault::Memory),
    }
}

/// Passes the lines of constants on, numbered from 0.
fn pass_constants<A: Allocator + Copy, W: Write>(
    alloc: A,
    constants: &[Term<A>],
    writer: &mut W,
    lines: &mut Vec<u8, A>,
) -> Result<(), ToolFault>
    ensures ok { OnOk result (Passes (numbered constant_line 0 constants.now)
        (W.contents writer.old) (W.contents writer.new) lines.old.items lines.new.items) }
    ensures stopped { IfErr result (Stops (numbered constant_line 0 constants.now)
        (W.contents writer.old) (W.contents writer.new) lines.old.items) }
{
    for place in 0..constants.len() {
        match pass_constant(alloc, place, &constants[place], writer, lines) {
            Ok(()) => {}
            Err(fault) => return Err(fault),
        }
    }
    Ok(())
}

/// Passes the lines of routines, and of the constants that are too long for the lines of instructions, on.
fn pass_rest<A: Allocator + Copy, W: Write>(
    alloc: A,
    variables: &[u32],
    code: &Code<A>,
    writer: &mut W,
    lines: &mut Vec<u8, A>,
) -> Result<(), ToolFault>
    ensures ok { OnOk result (Passes (rest_of_listing variables.now code.now)
        (W.contents writer.old) (W.contents writer.new) lines.old.items lines.new.items) }
    ensures stopped { IfErr result (Stops (rest_of_listing variables.now code.now)
        (W.contents writer.old) (W.contents writer.new) lines.old.items) }
{
    let constants = code.constants();
    match pass_routines(alloc, variables, constants, code.routines(), writer, lines) {
        Ok(()) => pass_constants(alloc, constants, writer, lines),
        Err(fault) => Err(fault),
    }
}

/// Passes the listing of code on, whose slots are those of these variables.
pub(crate) fn pass_listing<A: Allocator + Copy, W: Write>(
    alloc: A,
    variables: &[u32],
    code: &Code<A>,
    writer: &mut W,
    lines: &mut Vec<u8, A>,
) -> Result<(), ToolFault>
    ensures ok { OnOk result (Passes (listing variables.now code.now)
        (W.contents writer.old) (W.contents writer.new) lines.old.items lines.new.items) }
    ensures stopped { IfErr result (Stops (listing variables.now code.now)
        (W.contents writer.old) (W.contents writer.new) lines.old.items) }
{
    match pass_instructions(
        alloc,
        variables,
        code.constants(),
        code.instructions(),
        writer,
        lines,
    ) {
        Ok(()) => pass_rest(alloc, variables, code, writer, lines),
        Err(fault) => Err(fault),
    }
}
