//! Code. Only its counts and the order of its frames are known to be right.
use crate::frame::Frame;
use crate::instr::Instr;
use crate::parts::Parts;
use crate::routine::Routine;
use std::alloc::{AllocError, AllocFailed, Allocator, Global};
use std::marker::Model;
use std::mem;
use term_core::Term;

/// Instructions for the machine, with the constants and frames that they name, and the routines that they invoke.
pub struct Code<A: Allocator = Global> {
    constants: Vec<Term<A>, A>,
    /// The parts of the main body.
    parts: Parts<A>,
    routines: Vec<Routine<A>, A>,
}

/// By hand: a function that drops one has one call in its proof, and not a case for each way in which its parts are dropped.
impl<A: Allocator> Drop for Code<A> {
    fn drop(self) {
        let Code {
            constants,
            parts,
            routines,
        } = self;
        drop(constants);
        drop(parts);
        drop(routines);
    }
}

impl<A: Allocator> Model for Code<A> {
    ghost use Rattle.std.specs.Coded.{codes};
    ghost use Rattle.term_core.specs.DatumCode.{datum_code};
    ghost use Rattle.mcode.specs.Program.{Program, IsWhole, code_of};

    ghost Value = { Program };

    ghost coded = { Prim.hlevel (codes, datum_code) };

    ghost view = { λ c. code_of c.constants.items c.parts c.routines.items };

    ghost invariant = { λ c. IsWhole (code_of c.constants.items c.parts c.routines.items) };
}

impl<A: Allocator> Code<A> {
    ghost use Rattle.std.specs.Prelude.{◌≡◌, ◌<◌, ◌≤◌, length, map, OnOk, OnErr, IfErr};
    ghost use Rattle.std.specs.Option.{option_map, option_copied};
    ghost use Rattle.mcode.specs.Frame.{frame_of};
    ghost use Rattle.mcode.specs.Program.{IsProgram, IsRoutine, IsWhole, most_slots, most_parts, most_routines, frame_at, seen_body};
    ghost use Rattle.mcode.specs.Building.{empty_program, with_constant, with_instruction, with_frame, with_body, one_routine_more, with_stored, IsFrameTooMany, IsNextFrame};

    /// Makes code without parts, with this number of slots.
    pub(crate) fn empty(alloc: A, slots: u16) -> Self
    where
        A: Copy,
        requires { slots ≤ most_slots }
        ensures { result ≡ empty_program slots }
    {
        Code {
            constants: Vec::new(alloc),
            parts: Parts::empty(alloc, slots),
            routines: Vec::new(alloc),
        }
    }

    /// Appends a constant. On failure, hands it back.
    pub(crate) fn push_constant(&mut self, term: Term<A>) -> Result<(), AllocFailed<Term<A>>>
        requires { length self.old.constants < most_parts }
        ensures ok { OnOk result (self.new ≡ with_constant self.old term) }
        ensures kept { OnErr result (self.new ≡ self.old) }
        ensures back { IfErr result (λ failed. failed.value ≡ term) }
    {
        self.constants.push(term)
    }

    /// Appends an instruction to the main body.
    pub(crate) fn push_instruction(&mut self, instr: Instr) -> Result<(), AllocError>
        requires { length self.old.instructions < most_parts }
        ensures ok { OnOk result (self.new ≡ with_instruction self.old instr) }
        ensures kept { OnErr result (self.new ≡ self.old) }
    {
        self.parts.push_instruction(instr)
    }

    /// Appends a frame to the main body. It is above the others and in order. On failure, hands it back.
    pub(crate) fn push_frame(&mut self, frame: Frame<A>) -> Result<(), AllocFailed<Frame<A>>>
        requires fits { ¬ IsFrameTooMany self.old.frames (frame_of frame) }
        requires next { IsNextFrame self.old.frames (frame_of frame) }
        ensures ok { OnOk result (self.new ≡ with_frame self.old (frame_of frame)) }
        ensures kept { OnErr result (self.new ≡ self.old) }
        ensures back { IfErr result (λ failed. frame_of failed.value ≡ frame_of frame) }
    {
        self.parts.push_frame(frame)
    }

    /// Appends a routine.
    pub(crate) fn push_routine(&mut self, routine: Routine<A>) -> Result<(), AllocError>
        requires count { length self.old.around.routines < most_routines }
        requires within { IsRoutine routine }
        ensures ok { OnOk result (self.new ≡ one_routine_more self.old routine) }
        ensures kept { OnErr result (self.new ≡ self.old) }
    {
        match self.routines.push(routine) {
            Ok(()) => Ok(()),
            Err(_) => Err(AllocError),
        }
    }

    /// Replaces the main body and returns the old one.
    pub(crate) fn exchange(&mut self, parts: Parts<A>) -> Parts<A>
        ensures code { self.new ≡ with_body self.old parts }
        ensures before { result ≡ seen_body self.old }
    {
        mem::replace(&mut self.parts, parts)
    }

    /// Replaces the body of the routine at this place, counted from 0.
    pub(crate) fn store(&mut self, place: usize, parts: Parts<A>)
        requires { place < length self.old.around.routines }
        ensures { self.new ≡ with_stored self.old place parts }
    {
        drop(self.routines[place].exchange(parts));
    }

    /// Returns the number of slots of the main body, at most `MAX_SLOTS`.
    pub fn slots(&self) -> u16
        ensures value { result ≡ self.now.slots }
        ensures within { IsProgram self.now }
        ensures whole { IsWhole self.now }
    {
        self.parts.slots()
    }

    /// Returns the constants, at most `MAX_COUNT`.
    pub fn constants(&self) -> &[Term<A>]
        ensures value { result.now ≡ self.now.constants }
        ensures within { IsProgram self.now }
    {
        self.constants.as_slice()
    }

    /// Returns the instructions of the main body, at most `MAX_COUNT`.
    pub fn instructions(&self) -> &[Instr]
        ensures value { result.now ≡ self.now.instructions }
        ensures within { IsProgram self.now }
    {
        self.parts.instructions()
    }

    /// Returns the frames of the main body, in ascending order of their instructions, at most `MAX_COUNT`.
    pub fn frames(&self) -> &[Frame<A>]
        ensures value { map frame_of result.now ≡ self.now.frames }
        ensures within { IsProgram self.now }
    {
        self.parts.frames()
    }

    /// Returns the routines, numbered from 1, at most `MAX_ROUTINES`.
    pub fn routines(&self) -> &[Routine<A>]
        ensures value { result.now ≡ self.now.around.routines }
        ensures within { IsWhole self.now }
    {
        self.routines.as_slice()
    }

    /// Returns the frame at an instruction of the main body, or `None` if there is none.
    pub fn frame_at(&self, pc: u16) -> Option<&Frame<A>>
        ensures value { option_map frame_of (option_copied result) ≡ frame_at self.now.frames pc }
        ensures within { IsProgram self.now }
    {
        self.parts.frame_at(pc)
    }
}
