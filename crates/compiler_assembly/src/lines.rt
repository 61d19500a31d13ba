//! Lists of lines.
use crate::line::{Label, Line};
use crate::op::Op;
use mcode::Places;
use std::alloc::{AllocError, Allocator, Global};
use std::marker::Model;
use term_core::Term;

/// A list of lines, which grows at the front: the lines to which an instruction leads come after it, and are there
/// first.
#[derive(Drop)]
pub struct Lines<A: Allocator = Global> {
    reversed: Vec<Line<Term<A>, Places<A>>, A>,
}

impl<A: Allocator> Model for Lines<A> {
    ghost use Rattle.std.specs.Prelude.{List, reverse};
    ghost use Rattle.compiler_assembly.specs.Line.{SourceLine};
    ghost use Rattle.std.specs.Coded.{codes};
    ghost use Rattle.term_core.specs.DatumCode.{datum_code};

    ghost Value = { List SourceLine };

    ghost coded = { Prim.hlevel (codes, datum_code) };

    ghost view = { λ l. reverse l.reversed.items };
}

impl<A: Allocator> Lines<A> {
    ghost use Rattle.std.specs.Prelude.{◌≡◌, ◌∷◌, [], length, OnOk, IfOk, MatchOption};

    /// Returns an empty list of lines. It does not allocate.
    pub fn new(alloc: A) -> Self
    where
        A: Copy,
        ensures { result ≡ [] }
    {
        Lines {
            reversed: Vec::new(alloc),
        }
    }

    /// Returns an empty list of lines, with room for `count`. Fails if an allocation fails.
    pub fn with_capacity(alloc: A, count: usize) -> Result<Self, AllocError>
    where
        A: Copy,
        ensures { IfOk result (λ lines. lines ≡ []) }
    {
        Ok(Lines {
            reversed: Vec::with_capacity(alloc, count)?,
        })
    }

    /// Returns the number of lines.
    pub fn len(&self) -> usize
        ensures { result ≡ length self.now }
    {
        self.reversed.len()
    }

    /// Adds a line at the front. Fails if an allocation fails.
    pub fn prepend(
        &mut self,
        op: Op<Term<A>>,
        label: Option<Label<Places<A>>>,
    ) -> Result<(), AllocError>
        ensures { OnOk result (self.new ≡ record { op = op; label = label } ∷ self.old) }
    {
        match self.reversed.push(Line { op, label }) {
            Ok(()) => Ok(()),
            Err(_) => Err(AllocError),
        }
    }

    /// Removes the first line and returns it, or returns `None` if there is none.
    pub(crate) fn pop_front(&mut self) -> Option<Line<Term<A>, Places<A>>>
        ensures { MatchOption result ((self.old ≡ []) × (self.new ≡ []))
            (λ line. self.old ≡ line ∷ self.new) }
    {
        match self.reversed.pop() {
            Some(line) => Some(line),
            None => None,
        }
    }
}
