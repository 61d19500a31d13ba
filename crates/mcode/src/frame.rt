//! Frames: what is known of the state at an instruction to which jumps lead.
ghost use Rattle.std.specs.Prelude.{◌≡◌};

use crate::kind::Kind;
use std::alloc::{Allocator, Global};
use std::marker::Model;

/// Places of the operand stack, counted from 0 at the bottom, with their kinds.
#[derive(Drop)]
pub struct Places<A: Allocator = Global> {
    entries: Vec<(u16, Kind), A>,
}

impl<A: Allocator> Model for Places<A> {
    ghost use Rattle.std.specs.Prelude.{ℕ, List};
    ghost use Rattle.mcode.specs.declared.kind.Kind.{Kind};

    ghost Value = { List (ℕ × Kind) };

    ghost view = { λ p. p.entries.items };
}

impl<A: Allocator> Places<A> {
    ghost use Rattle.std.specs.Prelude.{◌≡◌};

    /// Wraps these places.
    pub const fn new(entries: Vec<(u16, Kind), A>) -> Self
        ensures { result ≡ entries.items }
    {
        Places { entries }
    }

    /// Returns the places as a slice.
    pub fn as_slice(&self) -> &[(u16, Kind)]
        ensures { result.now ≡ self.now }
    {
        self.entries.as_slice()
    }

    /// Returns the places as they were given.
    pub fn into_vec(self) -> Vec<(u16, Kind), A>
        ensures { result.items ≡ self }
    {
        self.entries
    }
}

/// Numbers of slots.
#[derive(Drop)]
pub struct Slots<A: Allocator = Global> {
    numbers: Vec<u8, A>,
}

impl<A: Allocator> Model for Slots<A> {
    ghost use Rattle.std.specs.Prelude.{ℕ, List};

    ghost Value = { List ℕ };

    ghost view = { λ s. s.numbers.items };
}

impl<A: Allocator> Slots<A> {
    ghost use Rattle.std.specs.Prelude.{◌≡◌};

    /// Wraps these slots.
    pub const fn new(numbers: Vec<u8, A>) -> Self
        ensures { result ≡ numbers.items }
    {
        Slots { numbers }
    }

    /// Returns the slots as a slice.
    pub fn as_slice(&self) -> &[u8]
        ensures { result.now ≡ self.now }
    {
        self.numbers.as_slice()
    }

    /// Returns the slots as they were given.
    pub fn into_vec(self) -> Vec<u8, A>
        ensures { result.items ≡ self }
    {
        self.numbers
    }
}

/// What is known of the state in which the instruction with this number begins.
#[derive(Drop)]
pub struct Frame<A: Allocator = Global> {
    /// The number of the instruction.
    pub pc: u16,
    /// The number of places of the operand stack.
    pub depth: u16,
    /// The places whose kind isn't `Kind::Any`, in ascending order.
    pub places: Places<A>,
    /// The slots that are bound, in ascending order.
    pub slots: Slots<A>,
}
