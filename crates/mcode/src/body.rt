//! Code, viewed from one of its bodies.
ghost use Rattle.std.specs.Prelude.{◌≡◌};
ghost use Rattle.std.specs.Option.{option_copied};
ghost use Rattle.mcode.specs.Program.{IsWhole, routine_at};

use crate::code::Code;
use crate::frame::Frame;
use crate::instr::Instr;
use crate::routine::Routine;
use std::alloc::{Allocator, Global};
use std::marker::Model;
use term_core::Term;

/// Returns the routine with this number, counted from 1, or `None` if there is none.
fn routine_of<A: Allocator>(code: &Code<A>, number: u16) -> Option<&Routine<A>>
    ensures value { option_copied result ≡ routine_at code.now number }
    ensures whole { IsWhole code.now }
{
    let routines = code.routines();
    routines.get(usize::from(number.checked_sub(1)?))
}

/// A body of code: the main one, or a routine.
#[derive(Drop)]
pub struct Body<'a, A: Allocator = Global> {
    code: &'a Code<A>,
    number: u16,
    /// `None` for the main body.
    routine: Option<&'a Routine<A>>,
}

impl<'a, A: Allocator> Model for Body<'a, A> {
    ghost use Rattle.std.specs.Coded.{codes};
    ghost use Rattle.std.specs.Option.{option_copied};
    ghost use Rattle.term_core.specs.DatumCode.{datum_code};
    ghost use Rattle.mcode.specs.Program.{Program, IsSeenBy, seen_by};

    ghost Value = { Program };

    ghost coded = { Prim.hlevel (codes, datum_code) };

    ghost view = { λ b. seen_by b.code.now b.number (option_copied b.routine) };

    ghost invariant = { λ b. IsSeenBy b.code.now b.number (option_copied b.routine) };
}

impl<'a, A: Allocator> Body<'a, A> {
    ghost use Rattle.std.specs.Prelude.{◌≡◌, ◌≤◌, length, map};
    ghost use Rattle.std.specs.Option.{option_map, option_copied};
    ghost use Rattle.mcode.specs.Frame.{frame_of};
    ghost use Rattle.mcode.specs.Program.{IsProgram, body_of, frame_at, routine_at, own_routine};

    /// Returns the body with this number: 0 is the main body, routines are numbered from 1. Requires that it exists.
    pub fn of(code: &'a Code<A>, number: u16) -> Self
        requires { number ≤ length code.now.around.routines }
        ensures { result ≡ body_of code.now number }
    {
        Body {
            code,
            number,
            routine: routine_of(code, number),
        }
    }

    /// Returns the body's number.
    pub fn number(&self) -> u16
        ensures { result ≡ self.now.around.number }
    {
        self.number
    }

    /// Returns the number of slots, at most `MAX_SLOTS`.
    pub fn slots(&self) -> u16
        ensures value { result ≡ self.now.slots }
        ensures within { IsProgram self.now }
    {
        match self.routine {
            Some(routine) => routine.slots(),
            None => self.code.slots(),
        }
    }

    /// Returns the constants, which all bodies share, at most `MAX_COUNT`.
    pub fn constants(&self) -> &'a [Term<A>]
        ensures value { result.now ≡ self.now.constants }
        ensures within { IsProgram self.now }
    {
        self.code.constants()
    }

    /// Returns the instructions, at most `MAX_COUNT`.
    pub fn instructions(&self) -> &'a [Instr]
        ensures value { result.now ≡ self.now.instructions }
        ensures within { IsProgram self.now }
    {
        match self.routine {
            Some(routine) => routine.instructions(),
            None => self.code.instructions(),
        }
    }

    /// Returns the frames, in ascending order of their instructions, at most `MAX_COUNT`.
    pub fn frames(&self) -> &'a [Frame<A>]
        ensures value { map frame_of result.now ≡ self.now.frames }
        ensures within { IsProgram self.now }
    {
        match self.routine {
            Some(routine) => routine.frames(),
            None => self.code.frames(),
        }
    }

    /// Returns the frame at an instruction, or `None` if there is none.
    pub fn frame_at(&self, pc: u16) -> Option<&'a Frame<A>>
        ensures value { option_map frame_of (option_copied result) ≡ frame_at self.now.frames pc }
        ensures within { IsProgram self.now }
    {
        match self.routine {
            Some(routine) => routine.frame_at(pc),
            None => self.code.frame_at(pc),
        }
    }

    /// Returns the routine with this number, counted from 1, or `None` if there is none.
    pub fn routine(&self, number: u16) -> Option<&'a Routine<A>>
        ensures { option_copied result ≡ routine_at self.now number }
    {
        routine_of(self.code, number)
    }

    /// Returns the routine of which this is the body, or `None` if it is the main body.
    pub fn own_routine(&self) -> Option<&'a Routine<A>>
        ensures { option_copied result ≡ own_routine self.now }
    {
        self.routine
    }
}
