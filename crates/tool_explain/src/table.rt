//! What the columns of a listing have for an instruction.
ghost use Rattle.std.specs.Prelude.{◌≡◌, IfOk, decimal, slice_get};
ghost use Rattle.tool_explain.specs.Table.{mnemonic, operand_text, otherwise_of, otherwise_text};
ghost use Rattle.tool_explain.specs.Table.{constant_text, found_text, function_text, is_long, slot_text};

use crate::text::put_number;
use mcode::Instr;
use prims_table::Primitive;
use std::alloc::{AllocError, Allocator};
use term_core::Term;
use term_text::write_term;

/// Returns the name of an instruction, as the manual has it.
pub(crate) const fn mnemonic(instr: Instr) -> &'static str
    ensures { result.now ≡ mnemonic instr }
{
    match instr {
        Instr::Load => "load",
        Instr::Const { .. } => "const",
        Instr::Get { .. } => "get",
        Instr::Bind { .. } => "bind",
        Instr::Dup => "dup",
        Instr::Drop => "drop",
        Instr::Tuple { .. } => "tuple",
        Instr::Field { .. } => "field",
        Instr::Cons { .. } => "cons",
        Instr::Head => "head",
        Instr::Tail => "tail",
        Instr::Map { .. } => "map",
        Instr::Value { .. } => "value",
        Instr::Equal { .. } => "equal",
        Instr::Jump { .. } => "jump",
        Instr::Call { .. } => "call",
        Instr::Int { .. } => "int",
        Instr::Arith { .. } => "arith",
        Instr::Bool { .. } => "bool",
        Instr::Branch { .. } => "branch",
        Instr::MakeTuple { .. } => "make_tuple",
        Instr::MakeCons { .. } => "make_cons",
        Instr::MakeMap { .. } => "make_map",
        Instr::Answer => "answer",
        Instr::NoAnswer => "no_answer",
        Instr::Invoke { .. } => "invoke",
        Instr::Return => "return",
        Instr::Fail => "fail",
    }
}

/// Returns where an instruction jumps if it fails, or `None` if it does not; a jump never fails.
const fn otherwise_of(instr: Instr) -> Option<u16>
    ensures { result ≡ otherwise_of instr }
{
    match instr {
        Instr::Jump { .. } => None,
        other => other.target(),
    }
}

/// Returns the decimal text of a number.
fn number_text<A: Allocator + Copy>(alloc: A, number: u16) -> Result<Vec<u8, A>, AllocError>
    ensures { IfOk result (λ text. text.items ≡ decimal number) }
{
    let mut text = Vec::new(alloc);
    put_number(u64::from(number), &mut text)?;
    Ok(text)
}

/// How many bytes the text of a constant has at most that stands in an instruction's line.
const LONGEST_SHOWN: usize = 60;

/// Returns whether the text of a constant is too long for an instruction's line.
pub(crate) fn is_long(text: &[u8]) -> bool
    ensures { result ≡ is_long text.now }
{
    text.len() > LONGEST_SHOWN
}

/// Returns the canonical text of a constant, or nothing if there is no constant of this number.
fn found_text<A: Allocator + Copy>(
    alloc: A,
    constants: &[Term<A>],
    number: u16,
) -> Result<Vec<u8, A>, AllocError>
    ensures { IfOk result (λ text. text.items ≡ found_text (slice_get constants.now number)) }
{
    let mut text = Vec::new(alloc);
    if let Some(constant) = constants.get(usize::from(number)) {
        write_term(constant, &mut text)?;
    }
    Ok(text)
}

/// Returns the text of a constant as an instruction's line has it: its canonical text, or its number if that is long.
fn constant_text<A: Allocator + Copy>(
    alloc: A,
    constants: &[Term<A>],
    number: u16,
) -> Result<Vec<u8, A>, AllocError>
    ensures { IfOk result (λ text. text.items ≡ constant_text constants.now number) }
{
    let text = found_text(alloc, constants, number)?;
    if !is_long(text.as_slice()) {
        return Ok(text);
    }
    let mut named = Vec::from_slice(alloc, b"constant ")?;
    put_number(u64::from(number), &mut named)?;
    Ok(named)
}

/// Returns the text of a slot: its variable, as `$1`, or its number if it has no variable, as `#0`.
fn slot_text<A: Allocator + Copy>(
    alloc: A,
    variables: &[u32],
    slot: u8,
) -> Result<Vec<u8, A>, AllocError>
    ensures { IfOk result (λ text. text.items ≡ slot_text variables.now slot) }
{
    let mut text = Vec::new(alloc);
    match variables.get(usize::from(slot)).copied() {
        Some(variable) => {
            text.push(b'$')?;
            put_number(u64::from(variable), &mut text)?;
        }
        None => {
            text.push(b'#')?;
            put_number(u64::from(slot), &mut text)?;
        }
    }
    Ok(text)
}

/// Returns the text of a function with its number of arguments, as `>/2`.
fn function_text<A: Allocator + Copy>(
    alloc: A,
    function: Primitive,
    arguments: u16,
) -> Result<Vec<u8, A>, AllocError>
    ensures { IfOk result (λ text. text.items ≡ function_text function arguments) }
{
    let mut text = Vec::from_slice(alloc, function.name().as_bytes())?;
    text.push(b'/')?;
    put_number(u64::from(arguments), &mut text)?;
    Ok(text)
}

/// Returns the text of an instruction's operand, given the variables of the slots and the constants; nothing if it has
/// none.
pub(crate) fn operand_text<A: Allocator + Copy>(
    alloc: A,
    variables: &[u32],
    constants: &[Term<A>],
    instr: Instr,
) -> Result<Vec<u8, A>, AllocError>
    ensures { IfOk result (λ text. text.items ≡ operand_text variables.now constants.now instr) }
{
    match instr {
        Instr::Const { constant } => constant_text(alloc, constants, constant),
        Instr::Value { key, .. } => constant_text(alloc, constants, key),
        Instr::MakeMap { keys, .. } => constant_text(alloc, constants, keys),
        Instr::Get { slot } | Instr::Bind { slot } => slot_text(alloc, variables, slot),
        Instr::Tuple { size, .. } | Instr::MakeTuple { size, .. } => number_text(alloc, size),
        Instr::Field { index } => number_text(alloc, index),
        Instr::Jump { target } => number_text(alloc, target),
        Instr::Invoke { routine, .. } => number_text(alloc, routine),
        Instr::Call {
            function,
            arguments,
            ..
        } => function_text(alloc, Primitive::Function(function), arguments),
        Instr::Arith { function, .. } => function_text(alloc, Primitive::Arithmetic(function), 2),
        Instr::Load
        | Instr::Dup
        | Instr::Drop
        | Instr::Cons { .. }
        | Instr::Head
        | Instr::Tail
        | Instr::Map { .. }
        | Instr::Equal { .. }
        | Instr::Int { .. }
        | Instr::Bool { .. }
        | Instr::Branch { .. }
        | Instr::MakeCons { .. }
        | Instr::Answer
        | Instr::NoAnswer
        | Instr::Return
        | Instr::Fail => Ok(Vec::new(alloc)),
    }
}

/// Returns the text of where an instruction jumps if it fails, as `else 12`; nothing if it can't.
pub(crate) fn otherwise_text<A: Allocator + Copy>(
    alloc: A,
    instr: Instr,
) -> Result<Vec<u8, A>, AllocError>
    ensures { IfOk result (λ text. text.items ≡ otherwise_text instr) }
{
    let mut text = Vec::new(alloc);
    if let Some(target) = otherwise_of(instr) {
        text.extend_from_slice(b"else ")?;
        put_number(u64::from(target), &mut text)?;
    }
    Ok(text)
}
