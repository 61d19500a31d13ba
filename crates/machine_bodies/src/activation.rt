//! One body that was entered, with places of its own.
ghost use Rattle.std.specs.Prelude.{◌≡◌, ◌-◌, ◌<◌, ◌≤◌, OnOk, length, take, drop};
ghost use Rattle.machine_stack.specs.Stack.{stack_at};

use crate::came::Came;
use machine_stack::{Flow, INLINE_PLACES, INLINE_SLOTS, Places};
use machine_step::execute;
use mcode::Instr;
use std::alloc::{AllocError, Allocator};
use term_core::Term;
use term_operand::Value;
use verifier::{Seen, Verified};

/// A body that was entered, and where it stands.
#[derive(Drop)]
pub(crate) struct Activation<'a, 'h, A: Allocator> {
    body: Seen<'a, A>,
    stack: Places<'a, 'h, INLINE_PLACES, A>,
    slots: Places<'a, 'h, INLINE_SLOTS, A>,
    /// The instruction that comes next, or that the body waits at.
    pc: u16,
    /// How many places of the stack are taken.
    height: u16,
    /// How many cells of a list were asked for, and aren't made yet.
    cells: u16,
}

/// Moves the top `count` values of one stack to the bottom of another.
fn hand_over<'a, 'h, A: Allocator + Copy>(
    from: &mut Places<'a, 'h, INLINE_PLACES, A>,
    height: u16,
    to: &mut Places<'a, 'h, INLINE_PLACES, A>,
    count: u16,
)
    requires deep { count ≤ height }
    requires within { height ≤ length from.old.terms }
    requires room { count ≤ length to.old.terms }
    ensures handed { stack_at to.new.terms count ≡ take count (stack_at from.old.terms height) }
    ensures left { stack_at from.new.terms (height - count)
        ≡ drop count (stack_at from.old.terms height) }
    ensures places { length from.new.terms ≡ length from.old.terms }
    ensures room { length to.new.terms ≡ length to.old.terms }
{
    for handed in 0..count {
        let value = from.pop(height - handed);
        to.put(usize::from(count - handed) - 1, value);
    }
}

impl<'a, 'h, A: Allocator + Copy> Activation<'a, 'h, A> {
    ghost use Rattle.std.specs.Prelude.{◌≡◌, ◌<◌, ◌≤◌, Option, Some, None, IfOk, OnOk, length, slice_get};
    ghost use Rattle.term_core.specs.Datum.{Datum};
    ghost use Rattle.term_operand.specs.Value.{value_datum};
    ghost use Rattle.mcode.specs.Machine.{State, step};
    ghost use Rattle.mcode.specs.Program.{Routine, body_of};
    ghost use Rattle.mcode.specs.Run.{resumed};
    ghost use Rattle.mcode.specs.declared.instr.Instr.TheVariants as instr;
    ghost use Rattle.machine_step.specs.Fits.{IsResult};
    ghost use Rattle.machine_step.specs.Flow.{IsInside};
    ghost use Rattle.machine_bodies.specs.Stands.{IsNew, IsSettled, Stands, IsWaiting, IsCome, IsInvoking, IsBodyOf, IsInvoked, IsLeft, GoesTo, state_of};

    /// A body that stands before its first instruction, with nothing on its stack and nothing bound.
    pub(crate) fn new(heap: &'h A, body: Seen<'a, A>) -> Result<Self, AllocError>
        ensures { IfOk result (λ activation. IsNew body.entry activation) }
    {
        let stack = Places::of_stack(heap, body.depth())?;
        let slots = Places::of_slots(heap, body.code().slots())?;
        Ok(Activation {
            body,
            stack,
            slots,
            pc: 0,
            height: 0,
            cells: 0,
        })
    }

    /// The instruction that comes next.
    pub(crate) fn fetch(&self) -> Instr
        requires { self.now.pc < length self.now.body.instructions }
        ensures read { slice_get self.now.body.instructions self.now.pc ≡ Some result }
        ensures few { self.now.pc < 65535 }
    {
        self.body.code().instructions()[usize::from(self.pc)]
    }

    /// Makes the cells that were asked for.
    pub(crate) fn settle(&mut self) -> Result<(), AllocError>
        requires { Stands self.old }
        ensures body { self.new.body ≡ self.old.body }
        ensures settled { OnOk result (IsSettled self.old self.new) }
    {
        self.height = self.stack.join(self.height, self.cells)?;
        self.cells = 0;
        Ok(())
    }

    /// Executes an instruction that stays inside the body.
    pub(crate) fn advance(
        &mut self,
        code: &'a Verified<A>,
        object: &'a Term<A>,
        instr: Instr,
    ) -> Result<Came, AllocError>
        requires stands { Stands self.old }
        requires body { IsBodyOf self.old code.now }
        requires read { slice_get self.old.body.instructions self.old.pc ≡ Some instr }
        requires few { self.old.pc < 65535 }
        requires inside { IsInside instr }
        ensures body { self.new.body ≡ self.old.body }
        ensures came { IfOk result (λ came. (stands : Stands self.old)
            → IsCome self.new came (step self.old.body object.now (state_of self.old stands.slots))) }
    {
        if let Instr::MakeCons { otherwise: _ } = instr {
            if self.stack.may_join(self.height, self.cells) {
                self.cells += 1;
                self.pc += 1;
                return Ok(Came::On);
            }
        }
        self.settle()?;
        self.execute(code, object, instr)
    }

    /// Executes an instruction that stays inside the body, with no cell pending. Fails if an allocation fails.
    fn execute(
        &mut self,
        code: &'a Verified<A>,
        object: &'a Term<A>,
        instr: Instr,
    ) -> Result<Came, AllocError>
        requires stands { Stands self.old }
        requires body { IsBodyOf self.old code.now }
        requires none { self.old.cells ≡ 0 }
        requires read { slice_get self.old.body.instructions self.old.pc ≡ Some instr }
        requires few { self.old.pc < 65535 }
        requires inside { IsInside instr }
        ensures body { self.new.body ≡ self.old.body }
        ensures came { IfOk result (λ came. (stands : Stands self.old)
            → IsCome self.new came (step self.old.body object.now (state_of self.old stands.slots))) }
    {
        let height = self.height;
        let code = code.code();
        let ran = execute(
            &mut self.stack,
            &mut self.slots,
            code,
            object,
            instr,
            height,
        );
        let Ok(flow) = ran else {
            return Err(AllocError);
        };
        match flow {
            Flow::Next(height) => {
                self.pc += 1;
                self.height = height;
                Ok(Came::On)
            }
            Flow::Jump(target, _) => {
                self.height = self.body.frame_depth(target);
                self.pc = target;
                Ok(Came::On)
            }
            Flow::Answer(place) => Ok(Came::Answer(place)),
            Flow::NoAnswer => Ok(Came::NoAnswer),
        }
    }

    /// The answer, which is in this place.
    pub(crate) fn answer(&mut self, place: u16) -> Result<Term<A>, AllocError>
        requires { place < length self.old.stack.terms }
        ensures { IfOk result (λ answer. slice_get self.old.stack.terms place ≡ Some answer) }
    {
        let heap = self.stack.heap();
        let answer = self.stack.take(usize::from(place));
        answer.into_term(*heap)
    }

    /// Enters a routine of the code, with its arguments from the stack. The body waits for it.
    pub(crate) fn invoke(
        &mut self,
        heap: &'h A,
        code: &'a Verified<A>,
        routine: u16,
    ) -> Result<Self, AllocError>
        requires stands { Stands self.old }
        requires read { IsInvoking self.old routine }
        requires few { self.old.pc < 65535 }
        requires main { code.now.around.number ≡ 0 }
        requires body { IsBodyOf self.old code.now }
        ensures body { self.new.body ≡ self.old.body }
        ensures entered { IfOk result (λ entered. entered.body ≡ body_of code.now routine) }
        ensures invoked { IfOk result (λ entered. (object : Datum) (stands : Stands self.old)
            → IsInvoked routine self.new entered
            (step self.old.body object (state_of self.old stands.slots))) }
    {
        self.settle()?;
        let count = code.argument_count(routine) as u16;
        let mut entered = Activation::new(heap, code.routine(routine))?;
        hand_over(&mut self.stack, self.height, &mut entered.stack, count);
        entered.height = count;
        self.height -= count;
        Ok(entered)
    }

    /// Takes what the routine that the body is returns.
    pub(crate) fn returned(&mut self) -> Result<Value<'a, A>, AllocError>
        requires stands { Stands self.old }
        requires read { slice_get self.old.body.instructions self.old.pc ≡ Some instr.Return }
        ensures { IfOk result (λ value. (object : Datum) (stands : Stands self.old)
            → IsLeft self.old.body (Some (value_datum value))
            (step self.old.body object (state_of self.old stands.slots))) }
    {
        self.settle()?;
        Ok(self.stack.pop(self.height))
    }

    /// Goes on with what the routine has returned for which the body waited.
    pub(crate) fn resume(&mut self, value: Value<'a, A>)
        requires { (t : Option Routine) × (s : State) × IsWaiting t self.old s
            × IsResult t (Some (value_datum value)) }
        ensures body { self.new.body ≡ self.old.body }
        ensures on { (t : Option Routine) (s : State) → IsWaiting t self.old s
            → IsResult t (Some (value_datum value.entry))
            → GoesTo self.new (resumed self.old.body s (Some (value_datum value.entry))) }
    {
        self.stack.put(usize::from(self.height), value);
        self.height += 1;
        self.pc += 1;
    }

    /// Goes on where the routine has failed for which the body waited.
    pub(crate) fn resume_without(&mut self)
        requires { (t : Option Routine) × (s : State) × IsWaiting t self.old s }
        ensures body { self.new.body ≡ self.old.body }
        ensures on { (t : Option Routine) (s : State) → IsWaiting t self.old s
            → GoesTo self.new (resumed self.old.body s None) }
    {
        let Some(landing) = self.fetch().target() else {
            unreachable!();
        };
        self.height = self.body.frame_depth(landing);
        self.pc = landing;
    }
}
