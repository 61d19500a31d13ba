//! The checks of one instruction, in their order.
ghost use Rattle.std.specs.Prelude.{ℕ, ◌≡◌, ◌≤◌, ◌↔◌, IsTrue, IfSome, IfOk, OnOk, IfErr, All, List, length};
ghost use Rattle.mcode.specs.Program.{IsProgram};
ghost use Rattle.verifier_types.specs.Shape as shapes;
ghost use Rattle.verifier_types.specs.Effect.{needs, jump_shape};
ghost use Rattle.verifier_types.specs.Kept.{popped_shape};
ghost use Rattle.verifier_types.specs.Needed.{AreCounts};
ghost use Rattle.verifier_types.specs.Fit.{IsFrameFit, IsTargetFit, IsJumpFit, IsTypedAt, most_places};
ghost use Rattle.verifier_types.specs.Inner.{inner_depth};
ghost use Rattle.verifier_types.specs.Faults.{IsFaultIn, IsLeavingFit, IsDepthFit, IsNamingFit, AreKindsFit};

use crate::MAX_DEPTH;
use crate::effect::{
    are_kinds_fit, are_passed, inner_depth, is_constant_fit, is_placed, is_slot_fit, left_depth,
    needed, top_stays,
};
use crate::fault::Fault;
use crate::shape::Shape;
use mcode::{Body, Instr};
use std::alloc::Allocator;

/// Checks that the target of an instruction's jump, if it jumps, is inside the code, after it, and has a frame.
fn check_target<A: Allocator>(body: &Body<'_, A>, pc: u16, instr: Instr) -> Result<(), Fault>
    ensures fit { OnOk result (IsTargetFit body.now pc instr) }
    ensures fault { IfErr result (λ fault. (ds : List ℕ) (s : shapes.Shape)
        → IsFaultIn body.now ds pc instr s fault) }
{
    let Some(target) = instr.target() else {
        return Ok(());
    };
    if usize::from(target) >= body.instructions().len() {
        return Err(Fault::JumpOutside(pc));
    }
    if target <= pc {
        return Err(Fault::JumpBack(pc));
    }
    match body.frame_at(target) {
        Some(_) => Ok(()),
        None => Err(Fault::Frame(pc)),
    }
}

/// Returns how many places an instruction takes from the top if it jumps.
fn jump_pops<A: Allocator>(body: &Body<'_, A>, instr: Instr, needed: usize) -> usize
    requires { needed ≡ needs body.now instr }
    ensures within { result ≤ needs body.now instr }
    ensures shape { (s : shapes.Shape) → popped_shape s result ≡ jump_shape body.now instr s }
{
    if top_stays(instr) {
        return 0;
    }
    needed
}

/// Returns whether the state with which an instruction jumps is at or below the frame at its target.
fn is_jump_fit<A: Allocator>(
    body: &Body<'_, A>,
    instr: Instr,
    shape: &Shape<A>,
    needed: usize,
) -> bool
    requires needed { needed ≡ needs body.now instr }
    requires frames { All (IsFrameFit body.now) body.now.frames }
    requires operands { needs body.now instr ≤ length shape.now.kinds }
    ensures { IsTrue result ↔ IsJumpFit body.now instr shape.now }
{
    let Some(target) = instr.target() else {
        return true;
    };
    let Some(frame) = body.frame_at(target) else {
        return true;
    };
    shape.is_cut_below(jump_pops(body, instr, needed), frame)
}

/// Checks that the target, the routine and the constant that an instruction names are what it needs.
fn check_naming<A: Allocator>(
    body: &Body<'_, A>,
    counts: &[Option<usize>],
    pc: u16,
    instr: Instr,
) -> Result<(), Fault>
    requires { AreCounts body.now counts.now }
    ensures fit { OnOk result (IsNamingFit body.now pc instr) }
    ensures fault { IfErr result (λ fault. (ds : List ℕ) (s : shapes.Shape)
        → IsFaultIn body.now ds pc instr s fault) }
{
    check_target(body, pc, instr)?;
    if !is_placed(body, instr) {
        return Err(Fault::Routine(pc));
    }
    if is_constant_fit(body, counts, instr) {
        Ok(())
    } else {
        Err(Fault::Constant(pc))
    }
}

/// Checks that an instruction finds the operands that it needs, and returns their number.
fn check_operands<A: Allocator>(
    body: &Body<'_, A>,
    counts: &[Option<usize>],
    pc: u16,
    instr: Instr,
    shape: &Shape<A>,
) -> Result<usize, Fault>
    requires { AreCounts body.now counts.now }
    ensures fit { OnOk result (AreKindsFit body.now pc instr shape.now) }
    ensures needed { IfOk result (λ needed. needed ≡ needs body.now instr) }
    ensures fault { IfErr result (λ fault. (ds : List ℕ)
        → IsFaultIn body.now ds pc instr shape.now fault) }
{
    if let Err(fault) = check_naming(body, counts, pc, instr) {
        return Err(fault);
    }
    let needed = needed(body, counts, instr);
    if usize::from(shape.depth()) < needed {
        return Err(Fault::Underflow(pc));
    }
    if !are_kinds_fit(instr, shape) {
        return Err(Fault::Kind(pc));
    }
    if are_passed(body, instr, shape) {
        Ok(needed)
    } else {
        Err(Fault::Kind(pc))
    }
}

/// Checks that an instruction finds its slot, and that neither it nor its routine makes the stack too deep. Returns the
/// number of operands that it needs.
fn check_depth<A: Allocator>(
    body: &Body<'_, A>,
    counts: &[Option<usize>],
    depths: &[u16],
    pc: u16,
    instr: Instr,
    shape: &Shape<A>,
) -> Result<usize, Fault>
    requires { AreCounts body.now counts.now }
    ensures fit { OnOk result (IsDepthFit body.now depths.now pc instr shape.now) }
    ensures needed { IfOk result (λ needed. needed ≡ needs body.now instr) }
    ensures fault { IfErr result (λ fault. IsFaultIn body.now depths.now pc instr shape.now fault) }
{
    let needed = match check_operands(body, counts, pc, instr, shape) {
        Ok(needed) => needed,
        Err(fault) => return Err(fault),
    };
    if !is_slot_fit(body, instr, shape) {
        return Err(Fault::Unbound(pc));
    }
    if left_depth(body, instr, shape, needed) > usize::from(MAX_DEPTH) {
        return Err(Fault::Depth(pc));
    }
    if inner_depth(body, depths, instr, shape) > usize::from(MAX_DEPTH) {
        return Err(Fault::Depth(pc));
    }
    Ok(needed)
}

/// Checks that an instruction is typed in a state, given the depths of all bodies with higher numbers. Returns the
/// number of operands that it needs.
///
/// The checks have an order, and the first that fails gives the fault. They check the target, whether the instruction
/// is allowed in its body, the constant, the number of operands and their kinds. Then they check the slot, the depth
/// that it or its routine needs, the state with which it jumps, and that it isn't the last instruction if it goes on.
pub fn check<A: Allocator>(
    body: &Body<'_, A>,
    counts: &[Option<usize>],
    depths: &[u16],
    pc: u16,
    instr: Instr,
    shape: &Shape<A>,
) -> Result<usize, Fault>
    requires counts { AreCounts body.now counts.now }
    requires frames { All (IsFrameFit body.now) body.now.frames }
    ensures fit { OnOk result (IsTypedAt body.now pc instr shape.now) }
    ensures inner { OnOk result (inner_depth body.now depths.now instr shape.now ≤ most_places) }
    ensures needed { IfOk result (λ needed. needed ≡ needs body.now instr) }
    ensures fault { IfErr result (λ fault. IsFaultIn body.now depths.now pc instr shape.now fault) }
{
    let needed = check_depth(body, counts, depths, pc, instr, shape)?;
    if !is_jump_fit(body, instr, shape, needed) {
        return Err(Fault::Frame(pc));
    }
    if instr.goes_on() && usize::from(pc) + 1 >= body.instructions().len() {
        return Err(Fault::FallsOff(pc));
    }
    Ok(needed)
}
