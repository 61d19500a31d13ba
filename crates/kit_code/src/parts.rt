//! Code in a row: `{code,Slots,[Constant],[Instruction],[Frame]}`, and with routines
//! `{code,Slots,[Constant],[Instruction],[Frame],[Routine]}`. Instead of the list of constants, `{Count,Constant}`
//! means that many times the same constant.
//!
//! A routine is `{routine,[Kind],Kind,Slots,[Instruction],[Frame]}`: the kinds of its arguments, of which the first is
//! the lowest on the stack, the kind of its result, and then its own parts. Among kinds, `{Count,Kind}` means that many
//! times one kind; among routines, `{Count,[Routine]}` means that these are repeated `Count` times.
use crate::frame::{frames, kind};
use crate::instr::instructions;
use kit_rows::{elements, fields, is_atom, number, put_copy, short};
use mcode::{Frame, Instr, Kind};
use std::alloc::Allocator;
use term_build::copy_all;
use term_core::Term;

/// The number of fields of a term that describes code without routines.
const FIELDS: usize = 5;

/// The parts of a body.
#[derive(Drop)]
pub struct BodyParts<A: Allocator> {
    /// The number of slots.
    pub slots: u16,
    /// The instructions.
    pub instructions: Vec<Instr, A>,
    /// The frames.
    pub frames: Vec<Frame<A>, A>,
}

/// The parts of a routine.
#[derive(Drop)]
pub struct RoutineParts<A: Allocator> {
    /// The kinds of the arguments, the lowest first.
    pub arguments: Vec<Kind, A>,
    /// The kind of the routine's result.
    pub gives: Kind,
    /// The routine's own parts.
    pub body: BodyParts<A>,
}

/// The parts of code.
#[derive(Drop)]
pub struct Parts<A: Allocator> {
    /// The constants.
    pub constants: Vec<Term<A>, A>,
    /// The parts of the main body.
    pub main: BodyParts<A>,
    /// The parts of the routines.
    pub routines: Vec<RoutineParts<A>, A>,
}

/// Returns `count` copies of a constant.
fn repeated<A: Allocator + Copy>(
    heap: A,
    count: u32,
    constant: &Term<A>,
) -> Option<Vec<Term<A>, A>> {
    let mut out = Vec::new(heap);
    let mut is_whole = true;
    for _ in 0..count {
        is_whole = put_copy(&mut out, constant) && is_whole;
    }
    is_whole.then_some(out)
}

/// Returns the constants that a term describes.
fn constants<A: Allocator + Copy>(heap: A, term: &Term<A>) -> Option<Vec<Term<A>, A>> {
    match fields(term) {
        Some([count, constant]) => repeated(heap, number(count)?, constant),
        _ => copy_all(heap, elements(term)?).ok(),
    }
}

/// Returns the body with number `own` that these terms describe.
fn body<A: Allocator + Copy>(
    heap: A,
    own: u16,
    slots: &Term<A>,
    listed: &Term<A>,
    framed: &Term<A>,
) -> Option<BodyParts<A>> {
    let slots = short(slots)?;
    let instructions = instructions(heap, own, listed);
    let (instructions, frames) = instructions.zip(frames(heap, framed))?;
    Some(BodyParts {
        slots,
        instructions,
        frames,
    })
}

/// Appends a kind `count` times.
fn push_repeated_kind<A: Allocator>(
    out: &mut Vec<Kind, A>,
    count: u32,
    repeated: Kind,
) -> Option<()> {
    for _ in 0..count {
        out.push(repeated).ok()?;
    }
    Some(())
}

/// Appends the kinds that a member of a list describes.
fn push_kind<A: Allocator>(out: &mut Vec<Kind, A>, member: &Term<A>) -> Option<()> {
    if let Some([count, unit]) = fields(member)
        && let Some(count) = number(count)
    {
        return push_repeated_kind(out, count, kind(unit)?);
    }
    out.push(kind(member)?).ok()
}

/// Returns the kinds that a list describes.
fn kinds<A: Allocator + Copy>(heap: A, list: &Term<A>) -> Option<Vec<Kind, A>> {
    let mut out = Vec::new(heap);
    for member in elements(list)? {
        push_kind(&mut out, member)?;
    }
    Some(out)
}

/// Returns the routine with number `own` that these fields describe.
fn routine<A: Allocator + Copy>(heap: A, own: u16, said: &[Term<A>]) -> Option<RoutineParts<A>> {
    let [word, arguments, gives, slots, listed, framed] = said else {
        return None;
    };
    if !is_atom(word, "routine") {
        return None;
    }
    let gives = kind(gives)?;
    let body = body(heap, own, slots, listed, framed);
    let (arguments, body) = kinds(heap, arguments).zip(body)?;
    Some(RoutineParts {
        arguments,
        gives,
        body,
    })
}

/// Appends the routine that these fields describe.
fn push_routine<A: Allocator + Copy>(
    heap: A,
    out: &mut Vec<RoutineParts<A>, A>,
    said: &[Term<A>],
) -> Option<()> {
    let own = u16::try_from(out.len().checked_add(1)?).ok()?;
    out.push(routine(heap, own, said)?).ok()
}

/// Appends each of these routines.
fn push_each<A: Allocator + Copy>(
    heap: A,
    out: &mut Vec<RoutineParts<A>, A>,
    terms: &[Term<A>],
) -> Option<()> {
    for term in terms {
        push_routine(heap, out, fields(term)?)?;
    }
    Some(())
}

/// Appends these routines `count` times.
fn push_repeated<A: Allocator + Copy>(
    heap: A,
    out: &mut Vec<RoutineParts<A>, A>,
    count: u32,
    terms: &[Term<A>],
) -> Option<()> {
    for _ in 0..count {
        push_each(heap, out, terms)?;
    }
    Some(())
}

/// Appends the routines that a member of a list describes.
fn push_member<A: Allocator + Copy>(
    heap: A,
    out: &mut Vec<RoutineParts<A>, A>,
    member: &[Term<A>],
) -> Option<()> {
    match member {
        [count, units] => push_repeated(heap, out, number(count)?, elements(units)?),
        _ => push_routine(heap, out, member),
    }
}

/// Appends the routines that the members of a list describe.
fn push_members<A: Allocator + Copy>(
    heap: A,
    out: &mut Vec<RoutineParts<A>, A>,
    members: &[Term<A>],
) -> Option<()> {
    for member in members {
        push_member(heap, out, fields(member)?)?;
    }
    Some(())
}

/// Returns the routines that these terms describe.
fn routines<A: Allocator + Copy>(heap: A, members: &[Term<A>]) -> Option<Vec<RoutineParts<A>, A>> {
    let mut out = Vec::new(heap);
    match push_members(heap, &mut out, members) {
        Some(()) => Some(out),
        None => {
            drop(out);
            None
        }
    }
}

/// Returns the parts of code that these fields describe, with these routines.
fn parts_with<A: Allocator + Copy>(
    heap: A,
    said: &[Term<A>],
    routines: Option<Vec<RoutineParts<A>, A>>,
) -> Option<Parts<A>> {
    let [code, slots, fixed, listed, framed] = said else {
        drop(routines);
        return None;
    };
    if !is_atom(code, "code") {
        drop(routines);
        return None;
    }
    let main = body(heap, 0, slots, listed, framed);
    let bodies = main.zip(routines);
    let (constants, (main, routines)) = constants(heap, fixed).zip(bodies)?;
    Some(Parts {
        constants,
        main,
        routines,
    })
}

/// Returns the parts of code that a term describes, or `None`.
pub fn parts_of<A: Allocator + Copy>(heap: A, term: &Term<A>) -> Option<Parts<A>> {
    let said = fields(term)?;
    if said.len() == FIELDS {
        return parts_with(heap, said, Some(Vec::new(heap)));
    }
    let (members, front) = said.split_last()?;
    parts_with(heap, front, routines(heap, elements(members)?))
}
