//! Code that grows from the left.
ghost use Rattle.std.specs.Prelude.{◌≡◌, ◌++◌, map, OnOk};
ghost use Rattle.compiler_assembly.specs.Line.{plain};

use compiler_assembly::{Lines, Op, Target};
use std::alloc::{AllocError, Allocator};
use std::marker::Model;
use term_core::Term;

/// The number of instructions that most heads don't exceed.
const MOST: usize = 16;

/// Instructions without labels, and which slots are bound after them.
#[derive(Drop)]
pub struct Draft<A: Allocator> {
    bound: Vec<bool, A>,
    ops: Vec<Op<Term<A>>, A>,
}

impl<A: Allocator> Model for Draft<A> {
    ghost use Rattle.std.specs.Prelude.{map};
    ghost use Rattle.compiler_assembly.specs.Line.{plain};
    ghost use Rattle.compiler_patterns.specs.Written.{Draft};
    ghost use Rattle.std.specs.Coded.{codes};
    ghost use Rattle.term_core.specs.DatumCode.{datum_code};

    ghost Value = { Draft };

    ghost coded = { Prim.hlevel (codes, datum_code) };

    ghost view = { λ d. record { bound = d.bound.items; lines = map plain d.ops.items } };
}

impl<A: Allocator> Draft<A> {
    ghost use Rattle.std.specs.Prelude.{◌≡◌, ◌∷◌, [], ◌++◌, ◌<◌, length, get_or, set, replicate, false, true, IfOk, OnOk};
    ghost use Rattle.compiler_assembly.specs.Line.{plain};
    ghost use Rattle.compiler_patterns.specs.Leaves.{same_lines};
    ghost use Rattle.compiler_patterns.specs.Written.{Puts};

    /// Returns a draft without instructions, with `slots` slots of which none is bound, and room for the instructions
    /// of most heads. Fails if an allocation fails.
    pub fn new(alloc: A, slots: usize) -> Result<Self, AllocError>
    where
        A: Copy,
        ensures { IfOk result (λ d. d ≡ record { bound = replicate slots false; lines = [] }) }
    {
        Ok(Draft {
            bound: vec![in alloc; false; slots]?,
            ops: Vec::with_capacity(alloc, MOST)?,
        })
    }

    /// Binds a slot if the draft has it, and returns whether it was bound before.
    pub(crate) fn bind(&mut self, slot: u8) -> bool
        ensures was { result ≡ get_or self.old.bound slot false }
        ensures bound { slot < length self.old.bound → self.new ≡ record {
          bound = set self.old.bound slot true;
          lines = self.old.lines;
        } }
    {
        let place = usize::from(slot);
        if place >= self.bound.len() {
            return false;
        }
        let was = self.bound[place];
        self.bound[place] = true;
        was
    }

    /// Appends an instruction. Fails if an allocation fails.
    pub fn put(&mut self, op: Op<Term<A>>) -> Result<(), AllocError>
        ensures { OnOk result (Puts (plain op ∷ []) self.old self.new) }
    {
        match self.ops.push(op) {
            Ok(()) => Ok(()),
            Err(_) => Err(AllocError),
        }
    }

    /// Appends the instructions that test that the top is this term. Fails if an allocation fails.
    pub fn put_same(&mut self, term: Term<A>) -> Result<(), AllocError>
        ensures { OnOk result (Puts (same_lines term) self.old self.new) }
    {
        self.put(Op::Const(term))?;
        self.put(Op::Equal(Target::Failing))
    }

    /// Moves all instructions to the front of `lines`. Fails if an allocation fails.
    pub fn prepend_to(&mut self, lines: &mut Lines<A>) -> Result<(), AllocError>
        ensures { OnOk result (lines.new ≡ self.old.lines ++ lines.old) }
    {
        prepend_all(&mut self.ops, lines)
    }
}

/// Moves all instructions to the front of `lines`. Fails if an allocation fails.
fn prepend_all<A: Allocator>(
    ops: &mut Vec<Op<Term<A>>, A>,
    lines: &mut Lines<A>,
) -> Result<(), AllocError>
    ensures { OnOk result (lines.new ≡ map plain ops.old.items ++ lines.old) }
{
    while let Some(op) = ops.pop() {
        lines.prepend(op, None)?;
    }
    Ok(())
}
