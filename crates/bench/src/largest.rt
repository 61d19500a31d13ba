//! The largest code, for which the verifier takes longest.
use mcode::{Builder, Code, Frame, Instr, Places, Slots};
use std::alloc::Global;
use verifier::verify;

/// The maximal number of instructions of code.
const INSTRUCTIONS: u16 = 65_535;

/// The maximal number of slots of code.
const SLOTS: u16 = 256;

/// The number of instructions that bind all slots.
const BINDINGS: u16 = 2 * SLOTS;

/// The number of groups of three instructions that fit after them, before the last instruction.
const GROUPS: u16 = (INSTRUCTIONS - BINDINGS - 1) / 3;

/// Returns a frame without places in which all slots are bound.
fn frame(alloc: Global, pc: u16) -> Option<Frame> {
    let mut slots = Vec::new(alloc);
    for slot in 0..=u8::MAX {
        slots.push(slot).ok()?;
    }
    Some(Frame {
        pc,
        depth: 0,
        places: Places::new(Vec::new(alloc)),
        slots: Slots::new(slots),
    })
}

/// Appends instructions that bind all slots to the object.
fn bind_all(code: &mut Builder) -> Option<()> {
    for slot in 0..=u8::MAX {
        code.instr(Instr::Load).ok()?;
        code.instr(Instr::Bind { slot }).ok()?;
    }
    Some(())
}

/// Appends a test whether the object is a list, which jumps to the frame of the instruction after it, with the number
/// `next`.
fn group(alloc: Global, code: &mut Builder, next: u16) -> Option<()> {
    code.instr(Instr::Load).ok()?;
    code.instr(Instr::Cons { otherwise: next }).ok()?;
    code.instr(Instr::Drop).ok()?;
    code.frame(frame(alloc, next)?).ok()
}

/// Returns the largest code, with a frame after each group of three instructions.
fn framed_at_each_third(alloc: Global) -> Option<Code> {
    let mut code = Builder::new(alloc, SLOTS).ok()?;
    bind_all(&mut code)?;
    for number in 0..GROUPS {
        group(alloc, &mut code, BINDINGS + 3 * number + 3)?;
    }
    code.instr(Instr::NoAnswer).ok()?;
    Some(code.finish())
}

/// Appends a jump to the frame of the next instruction, with the number `target`.
fn jump(alloc: Global, code: &mut Builder, target: u16) -> Option<()> {
    code.instr(Instr::Jump { target }).ok()?;
    code.frame(frame(alloc, target)?).ok()
}

/// Returns the largest code, with a frame at each instruction that follows a jump.
fn framed_at_each(alloc: Global) -> Option<Code> {
    let mut code = Builder::new(alloc, SLOTS).ok()?;
    bind_all(&mut code)?;
    for target in BINDINGS + 1..INSTRUCTIONS {
        jump(alloc, &mut code, target)?;
    }
    code.instr(Instr::NoAnswer).ok()?;
    Some(code.finish())
}

/// Returns the budget of code, or `None` if it is not typed.
pub(crate) fn budget_of(alloc: Global, code: Code) -> Option<u64> {
    Some(u64::from(verify(alloc, code).ok()?.budget()))
}

/// Returns the budget of the largest code with a frame at each third instruction.
pub(crate) fn budget_framed_at_each_third(alloc: Global) -> Option<u64> {
    budget_of(alloc, framed_at_each_third(alloc)?)
}

/// Returns the budget of the largest code with a frame at nearly each instruction.
pub(crate) fn budget_framed_at_each(alloc: Global) -> Option<u64> {
    budget_of(alloc, framed_at_each(alloc)?)
}
