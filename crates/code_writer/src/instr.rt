//! Writing instructions.
ghost use Rattle.std.specs.Prelude.{◌≡◌, ◌≤◌, ◌++◌, ◌∷◌, [], All, length, OnOk};
ghost use Rattle.std.specs.List.{flat_map};
ghost use Rattle.mcode.specs.Program.{most_parts};
ghost use Rattle.code_writer.specs.Spelling.{u16_bytes, instruction_bytes};
ghost use Rattle.code_writer.specs.File.{HoldsArguments};

use crate::number::{put_u8, put_u16};
use mcode::Instr;
use std::alloc::{AllocError, Allocator};

/// Appends an opcode and a slot.
fn put_slot<A: Allocator>(opcode: u8, slot: u8, out: &mut Vec<u8, A>) -> Result<(), AllocError>
    ensures { OnOk result (out.new.items ≡ out.old.items ++ (opcode ∷ slot ∷ [])) }
{
    out.extend_from_slice(&[opcode, slot])
}

/// Appends an opcode and a number.
fn put_one<A: Allocator>(opcode: u8, number: u16, out: &mut Vec<u8, A>) -> Result<(), AllocError>
    ensures { OnOk result (out.new.items ≡ out.old.items ++ (opcode ∷ u16_bytes number)) }
{
    put_u8(opcode, out)?;
    put_u16(number, out)
}

/// Appends an opcode and two numbers.
fn put_two<A: Allocator>(
    opcode: u8,
    number: u16,
    otherwise: u16,
    out: &mut Vec<u8, A>,
) -> Result<(), AllocError>
    ensures { OnOk result (out.new.items ≡ out.old.items
        ++ (opcode ∷ u16_bytes number ++ u16_bytes otherwise)) }
{
    put_one(opcode, number, out)?;
    put_u16(otherwise, out)
}

/// Appends an instruction.
fn put_instr<A: Allocator>(instr: Instr, out: &mut Vec<u8, A>) -> Result<(), AllocError>
    ensures bytes { OnOk result (out.new.items ≡ out.old.items ++ instruction_bytes instr) }
    ensures held { HoldsArguments instr }
{
    match instr {
        Instr::Load => put_u8(1, out),
        Instr::Const { constant } => put_one(2, constant, out),
        Instr::Get { slot } => put_slot(3, slot, out),
        Instr::Bind { slot } => put_slot(4, slot, out),
        Instr::Dup => put_u8(5, out),
        Instr::Drop => put_u8(6, out),
        Instr::Tuple { size, otherwise } => put_two(7, size, otherwise, out),
        Instr::Field { index } => put_one(8, index, out),
        Instr::Cons { otherwise } => put_one(9, otherwise, out),
        Instr::Head => put_u8(10, out),
        Instr::Tail => put_u8(11, out),
        Instr::Map { otherwise } => put_one(12, otherwise, out),
        Instr::Value { key, otherwise } => put_two(13, key, otherwise, out),
        Instr::Equal { otherwise } => put_one(14, otherwise, out),
        Instr::Jump { target } => put_one(15, target, out),
        Instr::Call {
            function,
            arguments,
            otherwise,
        } => {
            put_slot(16, function.number(), out)?;
            put_u16(arguments, out)?;
            put_u16(otherwise, out)
        }
        Instr::Int { otherwise } => put_one(17, otherwise, out),
        Instr::Arith {
            function,
            otherwise,
        } => {
            put_slot(18, function.number(), out)?;
            put_u16(otherwise, out)
        }
        Instr::Bool { otherwise } => put_one(19, otherwise, out),
        Instr::Branch { otherwise } => put_one(20, otherwise, out),
        Instr::MakeTuple { size, otherwise } => put_two(21, size, otherwise, out),
        Instr::MakeCons { otherwise } => put_one(22, otherwise, out),
        Instr::MakeMap { keys, otherwise } => put_two(23, keys, otherwise, out),
        Instr::Answer => put_u8(24, out),
        Instr::NoAnswer => put_u8(25, out),
        Instr::Invoke { routine, otherwise } => put_two(26, routine, otherwise, out),
        Instr::Return => put_u8(27, out),
        Instr::Fail => put_u8(28, out),
    }
}

/// Appends the number of instructions and then the instructions.
pub(crate) fn put_instrs<A: Allocator>(
    instrs: &[Instr],
    out: &mut Vec<u8, A>,
) -> Result<(), AllocError>
    requires { length instrs.now ≤ most_parts }
    ensures bytes { OnOk result (out.new.items ≡ out.old.items ++ (u16_bytes (length instrs.now)
        ++ flat_map instruction_bytes instrs.now)) }
    ensures held { OnOk result (All HoldsArguments instrs.now) }
{
    put_u16(instrs.len() as u16, out)?;
    for instr in instrs {
        put_instr(*instr, out)?;
    }
    Ok(())
}
