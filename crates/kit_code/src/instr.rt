//! Instructions in a row.
//!
//! An instruction without operands is an atom, `load`. One with operands is a tuple, `{tuple,2,4}`, `{call,hd,1,5}`,
//! `{arith,'+',7}`: its name, what it needs, and where it jumps. In a list of instructions, `{Count,[Instruction]}`
//! means that these are repeated `Count` times. `{invoke,next,3}` invokes the routine that follows the body that it is
//! in.
use kit_rows::{arithmetic, elements, fields, function, is_atom, name, number, short};
use mcode::Instr;
use std::alloc::Allocator;
use term_core::Term;

/// Returns the instruction with this name and no operands, or `None`.
fn bare(name: &str) -> Option<Instr> {
    match name {
        "load" => Some(Instr::Load),
        "dup" => Some(Instr::Dup),
        "drop" => Some(Instr::Drop),
        "head" => Some(Instr::Head),
        "tail" => Some(Instr::Tail),
        "answer" => Some(Instr::Answer),
        "no_answer" => Some(Instr::NoAnswer),
        "return" => Some(Instr::Return),
        "fail" => Some(Instr::Fail),
        _ => None,
    }
}

/// Returns the instruction with this name and one number, or `None`.
fn with_one(name: &str, operand: u16) -> Option<Instr> {
    match name {
        "const" => Some(Instr::Const { constant: operand }),
        "get" => Some(Instr::Get {
            slot: u8::try_from(operand).ok()?,
        }),
        "bind" => Some(Instr::Bind {
            slot: u8::try_from(operand).ok()?,
        }),
        "field" => Some(Instr::Field { index: operand }),
        "jump" => Some(Instr::Jump { target: operand }),
        "cons" => Some(Instr::Cons { otherwise: operand }),
        "map" => Some(Instr::Map { otherwise: operand }),
        "equal" => Some(Instr::Equal { otherwise: operand }),
        "int" => Some(Instr::Int { otherwise: operand }),
        "bool" => Some(Instr::Bool { otherwise: operand }),
        "branch" => Some(Instr::Branch { otherwise: operand }),
        "make_cons" => Some(Instr::MakeCons { otherwise: operand }),
        _ => None,
    }
}

/// Returns the instruction with this name, a number and where it jumps, or `None`.
fn with_two(name: &str, operand: u16, otherwise: u16) -> Option<Instr> {
    match name {
        "tuple" => Some(Instr::Tuple {
            size: operand,
            otherwise,
        }),
        "value" => Some(Instr::Value {
            key: operand,
            otherwise,
        }),
        "make_tuple" => Some(Instr::MakeTuple {
            size: operand,
            otherwise,
        }),
        "make_map" => Some(Instr::MakeMap {
            keys: operand,
            otherwise,
        }),
        "invoke" => Some(Instr::Invoke {
            routine: operand,
            otherwise,
        }),
        _ => None,
    }
}

/// Returns the instruction that computes the arithmetic function of this name, or `None`.
fn arith<A: Allocator>(named: &Term<A>, otherwise: u16) -> Option<Instr> {
    Some(Instr::Arith {
        function: arithmetic(named)?,
        otherwise,
    })
}

/// Returns the instruction that calls the function of this name, or `None`.
fn call<A: Allocator>(named: &Term<A>, arguments: u16, otherwise: u16) -> Option<Instr> {
    Some(Instr::Call {
        function: function(named)?,
        arguments,
        otherwise,
    })
}

/// Returns the instruction that invokes the routine after the body with number `own`.
fn invoke_next(own: u16, otherwise: u16) -> Option<Instr> {
    Some(Instr::Invoke {
        routine: own.checked_add(1)?,
        otherwise,
    })
}

/// Returns the instruction with this name and these operands, in the body with number `own`. If there are several
/// operands, the last one is where it jumps.
fn with_operands<A: Allocator>(name: &str, own: u16, operands: &[Term<A>]) -> Option<Instr> {
    let last = short(operands.last()?)?;
    match operands {
        [_] => with_one(name, last),
        [named, _] if name == "arith" => arith(named, last),
        [named, _] if name == "invoke" && is_atom(named, "next") => invoke_next(own, last),
        [operand, _] => with_two(name, short(operand)?, last),
        [named, arguments, _] if name == "call" => call(named, short(arguments)?, last),
        _ => None,
    }
}

/// Returns the instruction that a tuple of a name and operands describes, in the body with number `own`.
fn of_fields<A: Allocator + Copy>(heap: A, own: u16, fields: &[Term<A>]) -> Option<Instr> {
    let (first, operands) = fields.split_first()?;
    with_operands(name(heap, first)?.as_str(), own, operands)
}

/// Returns the instruction that a term describes, in the body with number `own`, or `None`.
pub fn instruction<A: Allocator + Copy>(heap: A, own: u16, term: &Term<A>) -> Option<Instr> {
    match fields(term) {
        Some(fields) => of_fields(heap, own, fields),
        None => bare(name(heap, term)?.as_str()),
    }
}

/// Appends each of these instructions.
fn push_all<A: Allocator + Copy>(
    heap: A,
    own: u16,
    out: &mut Vec<Instr, A>,
    terms: &[Term<A>],
) -> Option<()> {
    for term in terms {
        out.push(instruction(heap, own, term)?).ok()?;
    }
    Some(())
}

/// Appends these instructions `count` times.
fn push_repeated<A: Allocator + Copy>(
    heap: A,
    own: u16,
    out: &mut Vec<Instr, A>,
    count: u32,
    unit: &Term<A>,
) -> Option<()> {
    let mut instructions = Vec::new(heap);
    push_all(heap, own, &mut instructions, elements(unit)?)?;
    for _ in 0..count {
        out.extend_from_slice(instructions.as_slice()).ok()?;
    }
    Some(())
}

/// Appends the instructions that a member of a list describes.
fn push_member<A: Allocator + Copy>(
    heap: A,
    own: u16,
    out: &mut Vec<Instr, A>,
    member: &Term<A>,
) -> Option<()> {
    if let Some([count, unit]) = fields(member)
        && let Some(count) = number(count)
    {
        return push_repeated(heap, own, out, count, unit);
    }
    out.push(instruction(heap, own, member)?).ok()
}

/// Returns the instructions that a list describes, in the body with number `own`, or `None`.
pub(crate) fn instructions<A: Allocator + Copy>(
    heap: A,
    own: u16,
    list: &Term<A>,
) -> Option<Vec<Instr, A>> {
    let mut out = Vec::new(heap);
    for member in elements(list)? {
        push_member(heap, own, &mut out, member)?;
    }
    Some(out)
}
