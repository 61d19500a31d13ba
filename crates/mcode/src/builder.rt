//! Building code part by part.
ghost use Rattle.std.specs.Prelude.{◌≡◌, ◌↔◌, ◌++◌, ◌∷◌, [], IsTrue, IfSome, IfNone, MatchOption, All, map};
ghost use Rattle.mcode.specs.Frame.{frame_of};
ghost use Rattle.mcode.specs.Program.{Rise, place_number, frame_number, IsTelling, IsOrdered};
ghost use Rattle.mcode.specs.Building.{IsFrameTooMany, IsNextFrame, IsFrameRefused, IsRoutineTooMuch};
ghost use Rattle.mcode.specs.declared.fault.Fault.TheVariants.{Limit};

use crate::code::Code;
use crate::fault::Fault;
use crate::frame::Frame;
use crate::instr::Instr;
use crate::kind::Kind;
use crate::parts::Parts;
use crate::routine::Routine;
use crate::{MAX_ARGUMENTS, MAX_COUNT, MAX_ROUTINES, MAX_SLOTS};
use std::alloc::{AllocError, Allocator, Global};
use std::marker::Model;
use term_core::{Refused, Term};

/// Returns whether the places are in strictly ascending order.
fn places_rise(places: &[(u16, Kind)]) -> bool
    ensures { IsTrue result ↔ Rise place_number places.now }
{
    for later in 1..places.len() {
        if places[later - 1].0 >= places[later].0 {
            return false;
        }
    }
    true
}

/// Returns whether each place has a kind other than `Kind::Any`.
fn all_tell(places: &[(u16, Kind)]) -> bool
    ensures { IsTrue result ↔ All IsTelling places.now }
{
    places.iter().all(|place| place.1 != Kind::Any)
}

/// Returns whether the slots are in strictly ascending order.
fn slots_rise(slots: &[u8]) -> bool
    ensures { IsTrue result ↔ Rise (λ slot. slot) slots.now }
{
    for later in 1..slots.len() {
        if slots[later - 1] >= slots[later] {
            return false;
        }
    }
    true
}

/// Returns whether the places and slots of a frame are in order, and each place has a kind other than `Kind::Any`.
fn is_ordered<A: Allocator>(frame: &Frame<A>) -> bool
    ensures { IsTrue result ↔ IsOrdered (frame_of frame.now) }
{
    places_rise(frame.places.as_slice())
        && all_tell(frame.places.as_slice())
        && slots_rise(frame.slots.as_slice())
}

/// Returns whether a frame is above the last of these, which are in ascending order.
fn is_above<A: Allocator>(frames: &[Frame<A>], frame: &Frame<A>) -> bool
    requires { Rise frame_number (map frame_of frames.now) }
    ensures { IsTrue result ↔ Rise frame_number
        (map frame_of frames.now ++ frame_of frame.now ∷ []) }
{
    match frames.last() {
        Some(last) => last.pc < frame.pc,
        None => true,
    }
}

/// Returns why a frame can't be appended to these, or `None` if nothing but a failed allocation can prevent it.
#[tactic(auto, using(crate::proofs::RiseLemmas::frame_count))]
fn frame_fault<A: Allocator>(frames: &[Frame<A>], frame: &Frame<A>) -> Option<Fault>
    requires { Rise frame_number (map frame_of frames.now) }
    ensures fits { IfNone result (¬ IsFrameTooMany (map frame_of frames.now) (frame_of frame.now)) }
    ensures next { IfNone result (IsNextFrame (map frame_of frames.now) (frame_of frame.now)) }
    ensures refused { IfSome result (λ fault. IsFrameRefused (map frame_of frames.now)
        (frame_of frame.now) fault) }
{
    if frames.len() >= MAX_COUNT {
        return Some(Fault::Limit);
    }
    if frame.places.as_slice().len() > MAX_COUNT {
        return Some(Fault::Limit);
    }
    if !is_above(frames, frame) {
        return Some(Fault::FrameOrder);
    }
    if !is_ordered(frame) {
        return Some(Fault::FrameOrder);
    }
    None
}

/// Returns why a routine can't be begun after this number of routines, or `None` if nothing but a failed allocation can
/// prevent it.
fn routine_fault(routines: usize, arguments: &[Kind], slots: u16) -> Option<Fault>
    ensures { MatchOption result (¬ IsRoutineTooMuch routines arguments.now slots)
        (λ fault. (fault ≡ Limit) × IsRoutineTooMuch routines arguments.now slots) }
{
    if routines >= MAX_ROUTINES {
        return Some(Fault::Limit);
    }
    if arguments.len() > MAX_ARGUMENTS {
        return Some(Fault::Limit);
    }
    if slots > MAX_SLOTS {
        return Some(Fault::Limit);
    }
    None
}

/// Code that is built part by part: first the main body, then one routine after the other, and constants at any time. A
/// call that fails leaves it unchanged.
#[derive(Drop)]
pub struct Builder<A: Allocator = Global> {
    /// The code, with the newest body as its main one. The last routine itself has no parts yet.
    code: Code<A>,
    /// The main body, once a routine was begun.
    main: Option<Parts<A>>,
}

impl<A: Allocator> Model for Builder<A> {
    ghost use Rattle.std.specs.Coded.{codes};
    ghost use Rattle.term_core.specs.DatumCode.{datum_code};
    ghost use Rattle.mcode.specs.Building.{begun, IsBegun};
    ghost use Rattle.mcode.specs.Program.{Program};

    ghost Value = { Program };

    ghost coded = { Prim.hlevel (codes, datum_code) };

    ghost view = { λ b. begun b.code b.main };

    ghost invariant = { λ b. IsBegun b.code b.main };
}

impl<A: Allocator> Builder<A> {
    ghost use Rattle.std.specs.Prelude.{◌≡◌, ◌<◌, ◌≤◌, ◌++◌, ◌∷◌, [], length, IfOk, IfErr, OnOk, OnErr};
    ghost use Rattle.mcode.specs.Frame.{frame_of};
    ghost use Rattle.mcode.specs.Program.{Program, most_slots};
    ghost use Rattle.mcode.specs.Building.{empty_program, with_constant, with_instruction, with_frame, with_routine, finished, IsPartRefused, IsFrameTooMany, IsFrameRefused, IsNextFrame, IsRoutineTooMuch, IsRoutineRefused};
    ghost use Rattle.mcode.specs.declared.fault.Fault.TheVariants.{Limit};

    /// Starts code without parts, with this number of slots. Fails with `Limit` for more than `MAX_SLOTS`.
    pub fn new(alloc: A, slots: u16) -> Result<Self, Fault>
    where
        A: Copy,
        ensures ok { IfOk result (λ b. (b ≡ empty_program slots) × (slots ≤ most_slots)) }
        ensures refused { IfErr result (λ fault. (fault ≡ Limit) × (most_slots < slots)) }
    {
        if slots > MAX_SLOTS {
            return Err(Fault::Limit);
        }
        Ok(Builder {
            code: Code::empty(alloc, slots),
            main: None,
        })
    }

    /// Appends a constant and returns its number, counted from 0. Fails with `Limit` if there are `MAX_COUNT` already,
    /// and with `Memory` if an allocation fails. On failure, hands the constant back.
    pub fn constant(&mut self, term: Term<A>) -> Result<u16, Refused<Term<A>, Fault>>
        ensures ok { IfOk result (λ number. (self.new ≡ with_constant self.old term)
            × (number ≡ length self.old.constants)) }
        ensures kept { OnErr result (self.new ≡ self.old) }
        ensures refused { IfErr result (λ r. (r.value ≡ term)
            × IsPartRefused (length self.old.constants) r.fault) }
    {
        let number = self.code.constants().len();
        if number >= MAX_COUNT {
            return Err(Refused {
                value: term,
                fault: Fault::Limit,
            });
        }
        match self.code.push_constant(term) {
            Ok(()) => Ok(number as u16),
            Err(failed) => Err(Refused {
                value: failed.value,
                fault: Fault::Memory,
            }),
        }
    }

    /// Appends an instruction to the newest body and returns its number, counted from 0. Fails with `Limit` if there
    /// are `MAX_COUNT` already, and with `Memory` if an allocation fails.
    pub fn instr(&mut self, instr: Instr) -> Result<u16, Fault>
        ensures ok { IfOk result (λ number. (self.new ≡ with_instruction self.old instr)
            × (number ≡ length self.old.instructions)) }
        ensures kept { OnErr result (self.new ≡ self.old) }
        ensures refused { IfErr result (λ fault. IsPartRefused (length self.old.instructions)
            fault) }
    {
        let number = self.code.instructions().len();
        if number >= MAX_COUNT {
            return Err(Fault::Limit);
        }
        match self.code.push_instruction(instr) {
            Ok(()) => Ok(number as u16),
            Err(AllocError) => Err(Fault::Memory),
        }
    }

    /// Appends a frame to the newest body. Fails with `Limit` if there are `MAX_COUNT` frames already, or the frame has
    /// more places. Fails with `FrameOrder` if the frame is not above the last one, its places or slots are not in
    /// ascending order, or a place has `Kind::Any`. Fails with `Memory` if an allocation fails. On failure, hands the
    /// frame back.
    pub fn frame(&mut self, frame: Frame<A>) -> Result<(), Refused<Frame<A>, Fault>>
        ensures ok { OnOk result (self.new ≡ with_frame self.old (frame_of frame)) }
        ensures next { OnOk result ((¬ IsFrameTooMany self.old.frames (frame_of frame))
            × IsNextFrame self.old.frames (frame_of frame)) }
        ensures kept { OnErr result (self.new ≡ self.old) }
        ensures refused { IfErr result (λ r. (frame_of r.value ≡ frame_of frame)
            × IsFrameRefused self.old.frames (frame_of frame) r.fault) }
    {
        if let Some(fault) = frame_fault(self.code.frames(), &frame) {
            return Err(Refused {
                value: frame,
                fault,
            });
        }
        match self.code.push_frame(frame) {
            Ok(()) => Ok(()),
            Err(failed) => Err(Refused {
                value: failed.value,
                fault: Fault::Memory,
            }),
        }
    }

    /// Begins a routine without parts and returns its number, counted from 1. `arguments` are the kinds of its
    /// arguments, the lowest first, and `gives` is the kind of its result. Instructions and frames appended after that
    /// belong to it. Fails with `Limit` for more than `MAX_ROUTINES` routines, `MAX_ARGUMENTS` arguments or `MAX_SLOTS`
    /// slots, and with `Memory` if an allocation fails.
    pub fn routine(
        &mut self,
        arguments: Vec<Kind, A>,
        gives: Kind,
        slots: u16,
    ) -> Result<u16, Fault>
    where
        A: Copy,
        ensures ok { IfOk result (λ number.
            (self.new ≡ with_routine self.old arguments.items gives slots)
            × (number ≡ self.new.around.number)) }
        ensures fits { OnOk result (¬ IsRoutineTooMuch self.old.around.number arguments.items
            slots) }
        ensures kept { OnErr result (self.new ≡ self.old) }
        ensures refused { IfErr result (λ fault. IsRoutineRefused self.old.around.number
            arguments.items slots fault) }
    {
        let before = self.code.routines().len();
        if let Some(fault) = routine_fault(before, arguments.as_slice(), slots) {
            return Err(fault);
        }
        let alloc = *arguments.allocator();
        let routine = Routine::new(arguments, gives, Parts::empty(alloc, slots));
        if let Err(AllocError) = self.code.push_routine(routine) {
            return Err(Fault::Memory);
        }
        let seen = self.code.exchange(Parts::empty(alloc, slots));
        let Some(last) = before.checked_sub(1) else {
            self.main = Some(seen);
            return Ok(1);
        };
        self.code.store(last, seen);
        Ok(before as u16 + 1)
    }

    /// Returns the code that was built. Does not allocate.
    pub fn finish(self) -> Code<A>
        ensures { result ≡ finished self }
    {
        let Builder { mut code, main } = self;
        let count = code.routines().len();
        if let Some(main) = main {
            let newest = code.exchange(main);
            code.store(count - 1, newest);
        }
        code
    }
}
