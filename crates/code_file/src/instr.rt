//! Reading instructions.
ghost use Rattle.std.specs.Prelude.{◌≡◌, ◌≤◌, ◌↔◌, Some};
ghost use Rattle.code_writer.specs.declared.opcode.Opcode.{Opcode as AnyOpcode};
ghost use Rattle.code_writer.specs.declared.opcode.Opcode.TheVariants as Opcode;
ghost use Rattle.code_writer.specs.Opcodes.{opcode_number};
ghost use Rattle.code_writer.specs.Format.{Begins, both};
ghost use Rattle.code_writer.specs.Formats.{u16_format, opcode_format, function_format, arithmetic_format, instruction_format};
ghost use Rattle.code_file.specs.Due.Item.{an_instruction, a_function, an_arithmetic};
ghost use Rattle.code_file.specs.Reads.{Reads, Blames, IsCut};

use crate::number::{read_u8, read_u16};
use crate::stop::{FileCause, FileStop};
use code_writer::Opcode;
use mcode::Instr;
use prims_table::{Arithmetic, Function};

/// Returns the opcode with a number, or `None` if there is none or the number is above `most`.
fn opcode_of(most: u8, number: u8) -> Option<Opcode>
    ensures { (o : AnyOpcode) → (result ≡ Some o) ↔ ((opcode_number o ≡ number) × (opcode_number o ≤ most)) }
{
    if number > most {
        return None;
    }
    Opcode::numbered(number)
}

/// Reads an opcode with a number up to `most`.
fn read_opcode(most: u8, bytes: &[u8]) -> Result<(Opcode, &[u8]), FileStop>
    ensures { Reads (opcode_format most) (Blames (an_instruction most) bytes.now) (λ r. (r.0, r.1.now)) bytes.now result }
{
    let (byte, rest) = read_u8(bytes)?;
    match opcode_of(most, byte) {
        Some(opcode) => Ok((opcode, rest)),
        None => Err(FileStop::At(FileCause::BadOpcode, bytes.len())),
    }
}

/// Reads two numbers of two bytes each.
fn read_two(bytes: &[u8]) -> Result<((u16, u16), &[u8]), FileStop>
    ensures { Reads (both u16_format u16_format) (IsCut 4 bytes.now) (λ r. (r.0, r.1.now)) bytes.now
        result }
{
    let (first, rest) = read_u16(bytes)?;
    let (second, rest) = read_u16(rest)?;
    Ok(((first, second), rest))
}

/// Reads a function other than those of two integers.
fn read_function(bytes: &[u8]) -> Result<(Function, &[u8]), FileStop>
    ensures { Reads function_format (Blames a_function bytes.now) (λ r. (r.0, r.1.now)) bytes.now
        result }
{
    let (byte, rest) = read_u8(bytes)?;
    match Function::numbered(byte) {
        Some(function) => Ok((function, rest)),
        None => Err(FileStop::At(FileCause::BadOpcode, bytes.len())),
    }
}

/// Reads a function of two integers.
fn read_arithmetic(bytes: &[u8]) -> Result<(Arithmetic, &[u8]), FileStop>
    ensures { Reads arithmetic_format (Blames an_arithmetic bytes.now) (λ r. (r.0, r.1.now))
        bytes.now result }
{
    let (byte, rest) = read_u8(bytes)?;
    match Arithmetic::numbered(byte) {
        Some(arithmetic) => Ok((arithmetic, rest)),
        None => Err(FileStop::At(FileCause::BadOpcode, bytes.len())),
    }
}

/// Reads the arguments of a call. `rest` is what follows its opcode.
fn read_call<'a>(most: u8, bytes: &[u8], rest: &'a [u8]) -> Result<(Instr, &'a [u8]), FileStop>
    requires { Begins (opcode_format most) bytes.now Opcode.Call rest.now }
    ensures { Reads (instruction_format most) (Blames (an_instruction most) bytes.now) (λ r. (r.0, r.1.now)) bytes.now result }
{
    let (function, rest) = read_function(rest)?;
    let ((arguments, otherwise), rest) = read_two(rest)?;
    let instr = Instr::Call {
        function,
        arguments,
        otherwise,
    };
    Ok((instr, rest))
}

/// Reads a function of two integers and the target of the jump. `rest` is what follows the opcode.
fn read_arith<'a>(most: u8, bytes: &[u8], rest: &'a [u8]) -> Result<(Instr, &'a [u8]), FileStop>
    requires { Begins (opcode_format most) bytes.now Opcode.Arith rest.now }
    ensures { Reads (instruction_format most) (Blames (an_instruction most) bytes.now) (λ r. (r.0, r.1.now)) bytes.now result }
{
    let (function, rest) = read_arithmetic(rest)?;
    let (otherwise, rest) = read_u16(rest)?;
    Ok((
        Instr::Arith {
            function,
            otherwise,
        },
        rest,
    ))
}

/// Reads an instruction with an opcode up to `most`.
pub(crate) fn read_instr(most: u8, bytes: &[u8]) -> Result<(Instr, &[u8]), FileStop>
    ensures { Reads (instruction_format most) (Blames (an_instruction most) bytes.now) (λ r. (r.0, r.1.now)) bytes.now result }
{
    let (opcode, rest) = read_opcode(most, bytes)?;
    match opcode {
        Opcode::Bare(bare) => Ok((bare.instr(), rest)),
        Opcode::Slotted(slotted) => {
            let (slot, rest) = read_u8(rest)?;
            Ok((slotted.instr(slot), rest))
        }
        Opcode::Single(single) => {
            let (number, rest) = read_u16(rest)?;
            Ok((single.instr(number), rest))
        }
        Opcode::Double(double) => {
            let ((number, otherwise), rest) = read_two(rest)?;
            Ok((double.instr(number, otherwise), rest))
        }
        Opcode::Call => read_call(most, bytes, rest),
        Opcode::Arith => read_arith(most, bytes, rest),
    }
}
