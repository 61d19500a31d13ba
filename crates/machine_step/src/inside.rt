//! What the instructions do that stay inside their body, whichever body of code that is.
ghost use Rattle.std.specs.Prelude.{◌≡◌, ◌≤◌, IsTrue, IsOk, IfOk, length};
ghost use Rattle.mcode.specs.Program.{Program};
ghost use Rattle.mcode.specs.declared.instr.Instr.TheVariants as instr;
ghost use Rattle.machine_stack.specs.Flow.{IsWithin, Does};
ghost use Rattle.machine_stack.specs.Stack.{stack_at};
ghost use Rattle.machine_step.specs.Flow.{IsInside, FindsIn, DoesWith};
ghost use Rattle.machine_step.specs.Memory.{MakesNone};

use crate::stack::on_stack;
use machine_stack::{Flow, INLINE_PLACES, INLINE_SLOTS, Places};
use mcode::{Code, Instr};
use std::alloc::{AllocError, Allocator};
use term_core::Term;
use term_operand::Value;

/// Binds a slot to the top, which goes.
#[inline(always)]
fn bind<'a, 'h, A: Allocator + Copy>(
    stack: &mut Places<'a, 'h, INLINE_PLACES, A>,
    slots: &mut Places<'a, 'h, INLINE_SLOTS, A>,
    object: &Term<A>,
    height: u16,
    slot: u8,
) -> Flow
    requires finds { (p : Program) × FindsIn p.constants object.now (instr.Bind slot)
        (stack_at stack.old.terms height) slots.old.terms height (length stack.old.terms) }
    ensures flow { (p : Program) → Does p object.now (instr.Bind slot)
        (stack_at stack.old.terms height) slots.old.terms result stack.new.terms slots.new.terms }
    ensures within { IsWithin result (length stack.old.terms) }
    ensures places { length stack.new.terms ≡ length stack.old.terms }
    ensures slots { length slots.new.terms ≡ length slots.old.terms }
    ensures borrowed { IsTrue stack.old.borrowed → IsTrue slots.old.borrowed
        → IsTrue stack.new.borrowed × IsTrue slots.new.borrowed }
{
    let top = stack.pop(height);
    slots.put(usize::from(slot), top);
    Flow::Next(height - 1)
}

/// Pushes what a slot is bound to.
#[inline(always)]
fn get<'a, 'h, A: Allocator + Copy>(
    stack: &mut Places<'a, 'h, INLINE_PLACES, A>,
    slots: &Places<'a, 'h, INLINE_SLOTS, A>,
    object: &Term<A>,
    height: u16,
    slot: u8,
) -> Result<Flow, AllocError>
    requires finds { (p : Program) × FindsIn p.constants object.now (instr.Get slot)
        (stack_at stack.old.terms height) slots.now.terms height (length stack.old.terms) }
    ensures flow { IfOk result (λ flow. (p : Program) → Does p object.now (instr.Get slot)
        (stack_at stack.old.terms height) slots.now.terms flow stack.new.terms slots.now.terms) }
    ensures within { IfOk result (λ flow. IsWithin flow (length stack.old.terms)) }
    ensures places { length stack.new.terms ≡ length stack.old.terms }
    ensures memory { IsTrue stack.old.borrowed → IsTrue slots.now.borrowed
        → IsOk result × IsTrue stack.new.borrowed }
{
    let bound = slots.get(usize::from(slot)).copy()?;
    Ok(stack.push(height, bound))
}

/// Executes an instruction that stays inside its body and finds what it needs, and says where it leads, in any code with
/// these constants.
// Inlined into one loop with its callers, so that no flow is written to memory.
#[inline(always)]
pub fn execute<'a, 'h, A: Allocator + Copy>(
    stack: &mut Places<'a, 'h, INLINE_PLACES, A>,
    slots: &mut Places<'a, 'h, INLINE_SLOTS, A>,
    code: &'a Code<A>,
    object: &'a Term<A>,
    instr: Instr,
    height: u16,
) -> Result<Flow, AllocError>
    requires inside { IsInside instr }
    requires finds { FindsIn code.now.constants object.now instr (stack_at stack.old.terms height)
        slots.old.terms height (length stack.old.terms) }
    ensures flow { IfOk result (λ flow. DoesWith code.now.constants object.now instr
        (stack_at stack.old.terms height) slots.old.terms flow stack.new.terms slots.new.terms) }
    ensures within { IfOk result (λ flow. IsWithin flow (length stack.old.terms)) }
    ensures places { length stack.new.terms ≡ length stack.old.terms }
    ensures slots { length slots.new.terms ≡ length slots.old.terms }
    ensures memory { MakesNone instr → length stack.old.terms ≤ INLINE_PLACES
        → IsTrue stack.old.borrowed → IsTrue slots.old.borrowed
        → IsOk result × IsTrue stack.new.borrowed × IsTrue slots.new.borrowed }
{
    match instr {
        Instr::Load => Ok(stack.push(height, Value::Term(object))),
        Instr::Const { constant } => {
            let constant = &code.constants()[usize::from(constant)];
            Ok(stack.push(height, Value::Term(constant)))
        }
        Instr::Get { slot } => get(stack, slots, object, height, slot),
        Instr::Bind { slot } => Ok(bind(stack, slots, object, height, slot)),
        _ => on_stack(stack, code, instr, height),
    }
}
