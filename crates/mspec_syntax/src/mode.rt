//! Where an expression is, and the value of an expression that fails.
ghost use Rattle.std.specs.Prelude.{◌≡◌, IfOk};
ghost use Rattle.mspec_syntax.specs.Mode.{exit_term};

use std::alloc::{AllocError, Allocator};
use term_core::Term;

/// Where an expression is: in a condition or in a body.
#[derive(Clone, Copy, Debug, PartialEq, Eq)]
pub enum Mode {
    /// In a condition, where an expression that fails has no value.
    Condition,
    /// In a body, where an expression that fails has the value `'EXIT'`.
    Body,
}

/// Makes the atom `'EXIT'`, the value in a body of an expression that fails. Fails if an allocation fails.
#[tactic(auto, using(crate::proofs::NameLemmas::chars_exit))]
pub fn exit_term<A: Allocator + Copy>(alloc: A) -> Result<Term<A>, AllocError>
    ensures { IfOk result (λ term. term ≡ exit_term) }
{
    match Term::atom(alloc, "EXIT") {
        Ok(exit) => Ok(exit),
        Err(_) => Err(AllocError),
    }
}
