//! Runs over all bodies of code. The bodies that wait are in a list, so that a run needs no stack for them.
ghost use Rattle.std.specs.Prelude.{◌≡◌, IfOk};
ghost use Rattle.term_core.specs.Datum.{Datum};
ghost use Rattle.mcode.specs.Run.{HasRun};
ghost use Rattle.machine_bodies.specs.Going.{Going};

use crate::activation::Activation;
use crate::came::Came;
use mcode::Instr;
use std::alloc::{AllocError, Allocator};
use std::mem;
use term_core::Term;
use verifier::Verified;

/// What an instruction comes to, in whichever body.
enum Turn<A: Allocator> {
    /// The run goes on.
    On,
    /// The end of the run, with its answer, if it has one.
    Over(Option<Term<A>>),
}

/// A run over all bodies of code.
#[derive(Drop)]
struct Run<'a, 'h, A: Allocator> {
    heap: &'h A,
    code: &'a Verified<A>,
    /// The body that runs.
    current: Activation<'a, 'h, A>,
    /// Those that wait for the routines that they invoked, the nearest last.
    waiting: Vec<Activation<'a, 'h, A>, &'h A>,
}

impl<'a, 'h, A: Allocator + Copy> Run<'a, 'h, A> {
    ghost use Rattle.std.specs.Prelude.{ℕ, ◌≡◌, ◌<◌, ◌+◌, Some, IfOk, OnOk, length, slice_get};
    ghost use Rattle.term_core.specs.Datum.{Datum};
    ghost use Rattle.mcode.specs.declared.instr.Instr.TheVariants as instr;
    ghost use Rattle.machine_step.specs.Flow.{IsInside};
    ghost use Rattle.machine_bodies.specs.Stands.{IsInvoking};
    ghost use Rattle.machine_bodies.specs.Going.{Going, IsTurn};

    /// Executes an instruction that stays inside the body that runs.
    fn advance(&mut self, object: &'a Term<A>, instr: Instr) -> Result<Turn<A>, AllocError>
        requires going { (n : ℕ) × Going self.old.code.now object.now self.old.current self.old.waiting.items n }
        requires read { slice_get self.old.current.body.instructions self.old.current.pc ≡ Some instr }
        requires few { self.old.current.pc < 65535 }
        requires inside { IsInside instr }
        ensures code { self.new.code.now ≡ self.old.code.now }
        ensures turn { IfOk result (λ turn. (n : ℕ) → Going self.old.code.now object.now self.old.current self.old.waiting.items n
            → IsTurn self.old.code.now object.now self.new.current self.new.waiting.items (n + 1) turn) }
    {
        match self.current.advance(self.code, object, instr)? {
            Came::On => Ok(Turn::On),
            Came::Answer(place) => Ok(Turn::Over(Some(self.current.answer(place)?))),
            Came::NoAnswer => Ok(Turn::Over(None)),
        }
    }

    /// Enters a routine, for which the body that ran so far waits.
    fn enter(&mut self, routine: u16) -> Result<(), AllocError>
        requires going { (object : Datum) × (n : ℕ) × Going self.old.code.now object self.old.current self.old.waiting.items n }
        requires read { IsInvoking self.old.current routine }
        requires few { self.old.current.pc < 65535 }
        ensures code { self.new.code.now ≡ self.old.code.now }
        ensures going { OnOk result ((object : Datum) (n : ℕ) → Going self.old.code.now object self.old.current self.old.waiting.items n
            → Going self.old.code.now object self.new.current self.new.waiting.items (n + 1)) }
    {
        let entered = self.current.invoke(self.heap, self.code, routine)?;
        let waits = mem::replace(&mut self.current, entered);
        self.waiting.push(waits)?;
        Ok(())
    }

    /// Leaves a routine that returns, for the body that waits for it.
    fn leave(&mut self) -> Result<(), AllocError>
        requires going { (object : Datum) × (n : ℕ) × Going self.old.code.now object self.old.current self.old.waiting.items n }
        requires read { slice_get self.old.current.body.instructions self.old.current.pc ≡ Some instr.Return }
        ensures code { self.new.code.now ≡ self.old.code.now }
        ensures going { OnOk result ((object : Datum) (n : ℕ) → Going self.old.code.now object self.old.current self.old.waiting.items n
            → Going self.old.code.now object self.new.current self.new.waiting.items (n + 1)) }
    {
        let value = self.current.returned()?;
        let Some(mut waits) = self.waiting.pop() else {
            unreachable!();
        };
        waits.resume(value);
        self.current = waits;
        Ok(())
    }

    /// Leaves a routine that fails, for the body that waits for it.
    fn fail(&mut self)
        requires going { (object : Datum) × (n : ℕ) × Going self.old.code.now object self.old.current self.old.waiting.items n }
        requires read { slice_get self.old.current.body.instructions self.old.current.pc ≡ Some instr.Fail }
        ensures code { self.new.code.now ≡ self.old.code.now }
        ensures going { (object : Datum) (n : ℕ) → Going self.old.code.now object self.old.current self.old.waiting.items n
            → Going self.old.code.now object self.new.current self.new.waiting.items (n + 1) }
    {
        let Some(mut waits) = self.waiting.pop() else {
            unreachable!();
        };
        waits.resume_without();
        self.current = waits;
    }

    /// Executes the instruction that comes next.
    fn turn(&mut self, object: &'a Term<A>) -> Result<Turn<A>, AllocError>
        requires { (n : ℕ) × Going self.old.code.now object.now self.old.current self.old.waiting.items n }
        ensures code { self.new.code.now ≡ self.old.code.now }
        ensures turn { IfOk result (λ turn. (n : ℕ) → Going self.old.code.now object.now self.old.current self.old.waiting.items n
            → IsTurn self.old.code.now object.now self.new.current self.new.waiting.items (n + 1) turn) }
    {
        let instr = self.current.fetch();
        match instr {
            Instr::Invoke { routine, .. } => {
                self.enter(routine)?;
                Ok(Turn::On)
            }
            Instr::Return => {
                self.leave()?;
                Ok(Turn::On)
            }
            Instr::Fail => {
                self.fail();
                Ok(Turn::On)
            }
            _ => self.advance(object, instr),
        }
    }
}

/// A run that is to begin.
fn begin<'a, 'h, A: Allocator + Copy>(
    heap: &'h A,
    code: &'a Verified<A>,
) -> Result<Run<'a, 'h, A>, AllocError>
    ensures code { IfOk result (λ run. run.code.now ≡ code.now) }
    ensures going { IfOk result (λ run. (object : Datum)
        → Going code.now object run.current run.waiting.items 0) }
{
    let _routines = code.code().routines();
    let current = Activation::new(heap, code.main())?;
    Ok(Run {
        heap,
        code,
        current,
        waiting: Vec::new(heap),
    })
}

/// Runs verified code for an object, from the first instruction of its main body, through all bodies that are invoked.
/// Returns the answer, `None` if the run ends without one, and the number of instructions executed in all bodies. Each
/// body that is entered has places of its own. Fails only if an allocation fails.
pub fn run_bodies<'a, A: Allocator + Copy>(
    alloc: A,
    code: &'a Verified<A>,
    object: &'a Term<A>,
) -> Result<(Option<Term<A>>, u32), AllocError>
    ensures { IfOk result (λ r. HasRun code.now object.now r.1 r.0) }
{
    let heap = &alloc;
    let mut run = begin(heap, code)?;
    let mut executed = 0;
    loop {
        match run.turn(object)? {
            Turn::On => executed += 1,
            Turn::Over(answer) => return Ok((answer, executed + 1)),
        }
    }
}
