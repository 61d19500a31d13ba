//! The context of expressions.
use compiler_assembly::Target;
use mspec_syntax::{Mode, Variables};
use std::alloc::{Allocator, Global};
use std::marker::Model;

/// The context of an expression: the variables of the specification, which have slots, those of the clause's head, and
/// whether it is a condition or in a body.
#[derive(Drop)]
pub struct Site<'s, A: Allocator = Global> {
    alloc: A,
    slots: &'s Variables<A>,
    bound: &'s Variables<A>,
    mode: Mode,
}

impl<'s, A: Allocator> Model for Site<'s, A> {
    ghost use Rattle.compiler_expressions.specs.Expressions.{Site};

    ghost Value = { Site };

    ghost view = { λ s. record { slots = s.slots.now; bound = s.bound.now; mode = s.mode } };
}

impl<'s, A: Allocator + Copy> Site<'s, A> {
    ghost use Rattle.std.specs.Prelude.{◌≡◌, ◌+◌, ◌≤◌};
    ghost use Rattle.mspec_syntax.specs.Rising.{rank_of};
    ghost use Rattle.compiler_expressions.specs.Expressions.{failure};
    ghost use Rattle.compiler_expressions.specs.Writable.{IsNear, most_slot};

    /// Makes the context of an expression of a clause whose head has the variables `bound`, in a specification with the
    /// variables `slots`.
    pub fn new(alloc: A, slots: &'s Variables<A>, bound: &'s Variables<A>, mode: Mode) -> Self
        ensures { result ≡ record { slots = slots.now; bound = bound.now; mode = mode } }
    {
        Site {
            alloc,
            slots,
            bound,
            mode,
        }
    }

    /// Returns the allocator of lines and of their constants.
    pub(crate) fn alloc(&self) -> A {
        self.alloc
    }

    /// Returns whether the expression is a condition or in a body.
    pub(crate) fn mode(&self) -> Mode
        ensures { result ≡ self.now.mode }
    {
        self.mode
    }

    /// Returns the variables of the clause's head.
    pub(crate) fn bound(&self) -> &'s [u32]
        ensures { result.now ≡ self.now.bound }
    {
        self.bound.numbers()
    }

    /// Returns the slot of a variable.
    pub(crate) fn slot(&self, number: u32) -> u8
        requires { rank_of self.now.slots number ≤ most_slot }
        ensures { result ≡ rank_of self.now.slots number }
    {
        let rank = self.slots.count_before(number);
        rank as u8
    }

    /// Returns where an instruction leads that fails: in a condition to the clause's end, in a body past `ahead` lines.
    pub(crate) fn failure(&self, ahead: usize) -> Target
        requires { IsNear (failure self.now.mode ahead) }
        ensures { result ≡ failure self.now.mode ahead }
    {
        match self.mode() {
            Mode::Condition => Target::Failing,
            Mode::Body => Target::Ahead(ahead as u16),
        }
    }

    /// Returns where an instruction leads that fails: in a condition to the clause's end, in a body past `count + more`
    /// lines.
    pub(crate) fn failure_after(&self, count: usize, more: usize) -> Target
        requires { IsNear (failure self.now.mode (count + more)) }
        ensures { result ≡ failure self.now.mode (count + more) }
    {
        match self.mode() {
            Mode::Condition => Target::Failing,
            Mode::Body => Target::Ahead((count + more) as u16),
        }
    }
}
