//! What the instructions do that look at nothing but the stack and the constants.
ghost use Rattle.std.specs.Prelude.{◌≡◌, ◌≤◌, List, IsTrue, IsOk, IfOk, length};
ghost use Rattle.term_core.specs.Datum.{Datum};
ghost use Rattle.mcode.specs.Program.{Program};
ghost use Rattle.verifier_types.specs.Effect.{needs};
ghost use Rattle.machine_stack.specs.Flow.{IsWithin, IsReady, Does, DoesIn};
ghost use Rattle.machine_stack.specs.Stack.{stack_at};
ghost use Rattle.machine_step.specs.Flow.{Finds, IsOfStack, Computes, Looks};
ghost use Rattle.machine_step.specs.Memory.{MakesNone};

use machine_stack::{Flow, INLINE_PLACES, Places};
use mcode::{Code, Instr, Kind};
use std::alloc::{AllocError, Allocator};

/// Executes an instruction that leaves all places as they are, and says where it leads.
#[inline(always)]
fn looking<'a, 'h, A: Allocator + Copy>(
    stack: &Places<'a, 'h, INLINE_PLACES, A>,
    instr: Instr,
    height: u16,
) -> Flow
    requires looks { Looks instr }
    requires deep { (p : Program) × (needs p instr ≤ height) }
    requires within { height ≤ length stack.now.terms }
    requires ready { (p : Program) × (object : Datum) × (held : List Datum)
        × IsReady p object instr (stack_at stack.now.terms height) held }
    ensures flow { (p : Program) (object : Datum) (held : List Datum)
        → Does p object instr (stack_at stack.now.terms height) held result stack.now.terms held }
    ensures within { IsWithin result (length stack.now.terms) }
{
    match instr {
        Instr::Drop => Flow::Next(height - 1),
        Instr::Tuple { size, otherwise } => stack.test(height, Kind::Tuple(size), otherwise),
        Instr::Cons { otherwise } => stack.test(height, Kind::Cons, otherwise),
        Instr::Map { otherwise } => stack.test(height, Kind::Map, otherwise),
        Instr::Int { otherwise } => stack.test(height, Kind::Int, otherwise),
        Instr::Bool { otherwise } => stack.test(height, Kind::Bool, otherwise),
        Instr::Equal { otherwise } => stack.equal(height, otherwise),
        Instr::Branch { otherwise } => stack.branch(height, otherwise),
        Instr::Jump { target } => Flow::Jump(target, height),
        Instr::Answer => Flow::Answer(height - 1),
        Instr::NoAnswer => Flow::NoAnswer,
        _ => unreachable!(),
    }
}

/// Executes an instruction that replaces its operands by what it computes, or leaves all places as they are. Returns
/// where it leads, in any code with these constants. Fails if an allocation fails.
// Two functions instead of one with all arms, which takes a fifth longer to prove.
#[inline(always)]
fn computing<'a, 'h, A: Allocator + Copy>(
    stack: &mut Places<'a, 'h, INLINE_PLACES, A>,
    code: &'a Code<A>,
    instr: Instr,
    height: u16,
) -> Result<Flow, AllocError>
    requires kind { Computes instr }
    requires finds { Finds code.now.constants instr (stack_at stack.old.terms height) height
        (length stack.old.terms) }
    ensures flow { IfOk result (λ flow. DoesIn code.now.constants instr
        (stack_at stack.old.terms height) flow stack.new.terms) }
    ensures within { IfOk result (λ flow. IsWithin flow (length stack.old.terms)) }
    ensures count { length stack.new.terms ≡ length stack.old.terms }
    ensures memory { MakesNone instr → length stack.old.terms ≤ INLINE_PLACES
        → IsTrue stack.old.borrowed → IsOk result × IsTrue stack.new.borrowed }
{
    match instr {
        Instr::Call {
            function,
            arguments,
            otherwise,
        } => stack.call(height, function, arguments, otherwise),
        Instr::Arith {
            function,
            otherwise,
        } => Ok(stack.arithmetic(height, function, otherwise)),
        Instr::MakeTuple { size, otherwise } => stack.make_tuple(height, size, otherwise),
        Instr::MakeCons { otherwise } => stack.make_list(height, otherwise),
        Instr::MakeMap { keys, otherwise } => stack.make_map(code, height, keys, otherwise),
        _ => Ok(looking(stack, instr, height)),
    }
}

/// Executes an instruction that goes by the stack and the constants alone, and says where it leads, in any code with
/// these constants.
#[inline(always)]
pub(crate) fn on_stack<'a, 'h, A: Allocator + Copy>(
    stack: &mut Places<'a, 'h, INLINE_PLACES, A>,
    code: &'a Code<A>,
    instr: Instr,
    height: u16,
) -> Result<Flow, AllocError>
    requires kind { IsOfStack instr }
    requires finds { Finds code.now.constants instr (stack_at stack.old.terms height) height
        (length stack.old.terms) }
    ensures flow { IfOk result (λ flow. DoesIn code.now.constants instr
        (stack_at stack.old.terms height) flow stack.new.terms) }
    ensures within { IfOk result (λ flow. IsWithin flow (length stack.old.terms)) }
    ensures count { length stack.new.terms ≡ length stack.old.terms }
    ensures memory { MakesNone instr → length stack.old.terms ≤ INLINE_PLACES
        → IsTrue stack.old.borrowed → IsOk result × IsTrue stack.new.borrowed }
{
    match instr {
        Instr::Dup => stack.duplicate(height),
        Instr::Field { index } => stack.field(height, index),
        Instr::Head => stack.head(height),
        Instr::Tail => stack.tail(height),
        Instr::Value { key, otherwise } => stack.value(code, height, key, otherwise),
        _ => computing(stack, code, instr, height),
    }
}
