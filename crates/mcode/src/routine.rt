//! Routines of code.
use crate::frame::Frame;
use crate::instr::Instr;
use crate::kind::Kind;
use crate::parts::Parts;
use std::alloc::{Allocator, Global};
use std::marker::Model;
use std::mem;

/// A body of code that others invoke. It begins with its arguments as its whole stack and no slot bound.
#[derive(Drop)]
pub struct Routine<A: Allocator = Global> {
    arguments: Vec<Kind, A>,
    gives: Kind,
    parts: Parts<A>,
}

impl<A: Allocator> Model for Routine<A> {
    ghost use Rattle.mcode.specs.Program as program;
    ghost use Rattle.mcode.specs.Program.{routine_of};

    ghost Value = { program.Routine };

    ghost view = { λ r. routine_of r.arguments.items r.gives r.parts };

    ghost invariant = { λ r. program.IsRoutine (routine_of r.arguments.items r.gives r.parts) };
}

impl<A: Allocator> Routine<A> {
    ghost use Rattle.std.specs.Prelude.{◌≡◌, ◌≤◌, length, map};
    ghost use Rattle.std.specs.Option.{option_map, option_copied};
    ghost use Rattle.mcode.specs.Frame.{frame_of};
    ghost use Rattle.mcode.specs.Program.{IsRoutine, most_arguments, routine_of, frame_at};

    /// Makes the routine with this body.
    pub(crate) fn new(arguments: Vec<Kind, A>, gives: Kind, parts: Parts<A>) -> Self
        requires { length arguments.items ≤ most_arguments }
        ensures value { result ≡ routine_of arguments.items gives parts }
        ensures within { IsRoutine result }
    {
        Routine {
            arguments,
            gives,
            parts,
        }
    }

    /// Replaces the body and returns the old one.
    pub(crate) fn exchange(&mut self, parts: Parts<A>) -> Parts<A>
        ensures value { self.new ≡ routine_of self.old.arguments self.old.result parts }
        ensures within { IsRoutine self.new }
    {
        mem::replace(&mut self.parts, parts)
    }

    /// Returns the kinds of the arguments, the lowest first, at most `MAX_ARGUMENTS`.
    pub fn arguments(&self) -> &[Kind]
        ensures value { result.now ≡ self.now.arguments }
        ensures within { IsRoutine self.now }
    {
        self.arguments.as_slice()
    }

    /// Returns the kind of the routine's result.
    pub fn gives(&self) -> Kind
        ensures { result ≡ self.now.result }
    {
        self.gives
    }

    /// Returns the number of slots, at most `MAX_SLOTS`.
    pub fn slots(&self) -> u16
        ensures { result ≡ self.now.body.slots }
    {
        self.parts.slots()
    }

    /// Returns the instructions, at most `MAX_COUNT`.
    pub fn instructions(&self) -> &[Instr]
        ensures { result.now ≡ self.now.body.instructions }
    {
        self.parts.instructions()
    }

    /// Returns the frames, in ascending order of their instructions, at most `MAX_COUNT`.
    pub fn frames(&self) -> &[Frame<A>]
        ensures { map frame_of result.now ≡ self.now.body.frames }
    {
        self.parts.frames()
    }

    /// Returns the frame at an instruction, or `None` if there is none.
    pub fn frame_at(&self, pc: u16) -> Option<&Frame<A>>
        ensures { option_map frame_of (option_copied result) ≡ frame_at self.now.body.frames pc }
    {
        self.parts.frame_at(pc)
    }
}
