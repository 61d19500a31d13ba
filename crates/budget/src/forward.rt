//! Whether every jump and every invocation goes forward.
ghost use Rattle.std.specs.Prelude.{◌<◌, ◌≤◌, ◌↔◌, IsTrue, IsSome, IfSome, length};
ghost use Rattle.mcode.specs.Instr.{target_of};
ghost use Rattle.mcode.specs.Program.{body_of, routine_at};
ghost use Rattle.budget.specs.Paths.{AllForward, IsForward, IsCallForward, IsAt};
ghost use Rattle.budget.specs.Pass.{IsStepForward};

use mcode::{Body, Code, Instr};
use std::alloc::Allocator;

/// Returns whether every jump goes to a later instruction of its body, and each body invokes only routines that exist
/// and have a higher number.
pub fn all_forward<A: Allocator>(code: &Code<A>) -> bool
    ensures { IsTrue result ↔ AllForward code.now }
{
    let count = code.routines().len();
    for number in 0..count + 1 {
        if !is_forward_at(code, number as u16) {
            return false;
        }
    }
    true
}

/// Returns whether the jumps and invocations of the body with this number go forward.
fn is_forward_at<A: Allocator>(code: &Code<A>, number: u16) -> bool
    requires { number ≤ length code.now.around.routines }
    ensures { IsTrue result ↔ IsForward (body_of code.now number) }
{
    is_body_forward(&Body::of(code, number))
}

/// Returns whether the jumps and invocations of a body go forward.
fn is_body_forward<A: Allocator>(body: &Body<'_, A>) -> bool
    ensures { IsTrue result ↔ IsForward body.now }
{
    for pc in 0..body.instructions().len() {
        if !is_forward(body, pc) {
            return false;
        }
    }
    true
}

/// Returns whether the instruction at `pc` goes forward: if it jumps, to a later instruction, and if it invokes a
/// routine, one that exists and has a higher number than the body.
fn is_forward<A: Allocator>(body: &Body<'_, A>, pc: usize) -> bool
    requires { pc < length body.now.instructions }
    ensures { IsTrue result ↔ IsStepForward body.now pc }
{
    let instr = instr_at(body, pc);
    is_jump_forward(instr, pc, body.instructions().len()) && is_call_forward(body, instr)
}

/// Returns the instruction at `pc`.
fn instr_at<A: Allocator>(body: &Body<'_, A>, pc: usize) -> Instr
    requires { pc < length body.now.instructions }
    ensures { IsAt body.now pc result }
{
    body.instructions()[pc]
}

/// Returns whether an instruction, which is at `pc` among `count`, jumps to a later one or does not jump.
fn is_jump_forward(instr: Instr, pc: usize, count: usize) -> bool
    ensures { IsTrue result ↔ IfSome (target_of instr)
        (λ target. (pc < target) × (target < count)) }
{
    match instr.target() {
        Some(target) => is_between(usize::from(target), pc, count),
        None => true,
    }
}

/// Returns whether an instruction invokes a routine that exists and has a higher number than the body, or invokes none.
fn is_call_forward<A: Allocator>(body: &Body<'_, A>, instr: Instr) -> bool
    ensures { IsTrue result ↔ IsCallForward body.now instr }
{
    match instr {
        Instr::Invoke { routine, .. } => is_beyond(body, routine),
        _ => true,
    }
}

/// Returns whether a routine exists and has a higher number than a body.
fn is_beyond<A: Allocator>(body: &Body<'_, A>, routine: u16) -> bool
    ensures { IsTrue result ↔ ((body.now.around.number < routine) × IsSome (routine_at body.now routine)) }
{
    body.number() < routine && body.routine(routine).is_some()
}

/// Returns whether the target is greater than `pc` and less than `count`.
fn is_between(target: usize, pc: usize, count: usize) -> bool
    ensures { IsTrue result ↔ ((pc < target) × (target < count)) }
{
    pc < target && target < count
}
