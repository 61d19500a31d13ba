//! Blocks of lines.
use crate::lines::Lines;
use mcode::Slots;
use std::alloc::{Allocator, Global};
use std::marker::Model;

/// Lines that fail together: if a target is `Failing`, execution continues after them.
#[derive(Drop)]
pub struct Block<A: Allocator = Global> {
    slots: Slots<A>,
    lines: Lines<A>,
}

impl<A: Allocator> Model for Block<A> {
    ghost use Rattle.compiler_assembly.specs.Line.{Block};
    ghost use Rattle.std.specs.Coded.{codes};
    ghost use Rattle.term_core.specs.DatumCode.{datum_code};

    ghost Value = { Block };

    ghost coded = { Prim.hlevel (codes, datum_code) };

    ghost view = { λ b. record { slots = b.slots; lines = b.lines } };
}

impl<A: Allocator> Block<A> {
    ghost use Rattle.std.specs.Prelude.{◌≡◌};

    /// Makes a block of these lines, whose labels say that these slots are bound.
    pub fn new(slots: Slots<A>, lines: Lines<A>) -> Self
        ensures { result ≡ record { slots = slots; lines = lines } }
    {
        Block { slots, lines }
    }

    /// Returns the slots and the lines.
    pub(crate) fn into_parts(self) -> (Slots<A>, Lines<A>)
        ensures slots { result.0 ≡ self.slots }
        ensures lines { result.1 ≡ self.lines }
    {
        (self.slots, self.lines)
    }
}
