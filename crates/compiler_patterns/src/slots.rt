//! The slots of variables.
use crate::draft::Draft;
use compiler_assembly::{Op, Target};
use mspec_syntax::Variables;
use std::alloc::{AllocError, Allocator};
use std::marker::Model;

/// The variables of a specification, each of which has the slot of its rank, and the allocator of their code.
#[derive(Drop)]
pub struct VariableSlots<'s, A: Allocator> {
    alloc: A,
    numbers: &'s Variables<A>,
}

impl<'s, A: Allocator> Model for VariableSlots<'s, A> {
    ghost use Rattle.std.specs.Prelude.{◌≤◌, ℕ, List, length};
    ghost use Rattle.mcode.specs.Program.{most_slots};

    ghost Value = { List ℕ };

    ghost view = { λ s. s.numbers.now };

    ghost invariant = { λ s. length s.numbers.now ≤ most_slots };
}

impl<'s, A: Allocator + Copy> VariableSlots<'s, A> {
    ghost use Rattle.std.specs.Prelude.{◌≡◌, ◌≤◌, ◌∷◌, [], length, true, OnOk};
    ghost use Rattle.mcode.specs.Program.{most_slots};
    ghost use Rattle.mspec_syntax.specs.Grammar.{is_among};
    ghost use Rattle.mspec_syntax.specs.Rising.{rank_of};
    ghost use Rattle.compiler_patterns.specs.Leaves.{variable_lines};
    ghost use Rattle.compiler_patterns.specs.Written.{Writes};

    /// Makes the slots of these variables, of which there are at most as many as code has slots.
    pub fn new(alloc: A, numbers: &'s Variables<A>) -> Self
        requires { length numbers.now ≤ most_slots }
        ensures { result ≡ numbers.now }
    {
        VariableSlots { alloc, numbers }
    }

    /// Returns the allocator of the code.
    pub fn alloc(&self) -> A {
        self.alloc
    }

    /// Returns the slot of a variable, which must be one of the specification's.
    fn slot(&self, number: u32) -> u8
        requires { is_among self.now number ≡ true }
        ensures { result ≡ rank_of self.now number }
    {
        let rank = self.numbers.count_before(number);
        rank as u8
    }

    /// Appends the instructions that bind a variable, or test that the top is its value if it is bound already. Fails
    /// if an allocation fails.
    pub fn write_variable(&self, number: u32, draft: &mut Draft<A>) -> Result<(), AllocError>
        requires { is_among self.now number ≡ true }
        ensures { OnOk result (Writes self.now (λ known. variable_lines self.now known number)
            (number ∷ []) draft.old draft.new) }
    {
        let slot = self.slot(number);
        if draft.bind(slot) {
            draft.put(Op::Get(slot))?;
            return draft.put(Op::Equal(Target::Failing));
        }
        draft.put(Op::Bind(slot))
    }
}
