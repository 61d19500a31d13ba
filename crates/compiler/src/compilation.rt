//! The code of specifications.
ghost use Rattle.std.specs.Prelude.{ℕ, ◌≡◌, Option, IfOk};
ghost use Rattle.term_core.specs.Datum.{Datum};
ghost use Rattle.mcode.specs.Answer.{answer_of};
ghost use Rattle.mcode.specs.Run.{HasRun};
ghost use Rattle.mspec_meaning.specs.Meaning.{Means};
ghost use Rattle.compiler_clauses.specs.Clauses.{code_of};
ghost use Rattle.compiler.specs.Typing.{IsGoodCode};

use crate::meaning::code_runs_as_meant;
use crate::typing::code_of_specifications_is_typed;
use compiler_assembly::assemble;
use compiler_clauses::write_blocks;
use machine_bodies::runs_end_with_the_answer;
use mcode::Code;
use mspec_syntax::Spec;
use std::alloc::{AllocError, Allocator};
use verifier::{Fault, Verified, faulty_code_is_untyped, verify};

/// States that the code of a specification is within the limits of code, and typed.
fn is_good<A: Allocator>(specification: &Spec<A>)
    ensures { IsGoodCode specification.now }
{
    code_of_specifications_is_typed();
    let _clauses = specification.clauses();
}

/// States that the code of a specification answers what the specification means.
fn answers_as_meant<A: Allocator>(specification: &Spec<A>)
    ensures runs { (object : Datum) → (answer : Option Datum) × (n : ℕ)
        × Means specification.now object answer × HasRun (code_of specification.now) object n answer }
    ensures answers { (object : Datum)
        → Means specification.now object (answer_of (code_of specification.now) object) }
{
    is_good(specification);
    code_runs_as_meant();
    runs_end_with_the_answer();
    let _clauses = specification.clauses();
}

/// Returns the code of a specification, not yet verified. Fails if an allocation fails.
fn assembled<A: Allocator + Copy>(alloc: A, specification: &Spec<A>) -> Result<Code<A>, AllocError>
    ensures { IfOk result (λ code. code ≡ code_of specification.now) }
{
    is_good(specification);
    let _clauses = specification.clauses();
    let blocks = write_blocks(alloc, specification)?;
    let slots = specification.variables().len() as u16;
    match assemble(alloc, slots, blocks) {
        Ok(code) => Ok(code),
        Err(fault) => match fault {
            mcode::Fault::Memory => Err(AllocError),
            _ => unreachable!(),
        },
    }
}

/// Returns the verified code of a specification. Each run of it ends with what the specification means for the object.
/// Its slots are the variables of all clauses, in ascending order of their numbers; its constants occur once each, in
/// order of first use. Fails only if an allocation fails.
pub fn compile<A: Allocator + Copy>(
    alloc: A,
    specification: &Spec<A>,
) -> Result<Verified<A>, AllocError>
    ensures code { IfOk result (λ verified. verified ≡ code_of specification.now) }
    ensures runs { IfOk result (λ verified. (object : Datum)
        → (answer : Option Datum) × (n : ℕ) × Means specification.now object answer
        × HasRun verified object n answer) }
    ensures answers { IfOk result (λ verified. (object : Datum)
        → Means specification.now object (answer_of verified object)) }
{
    is_good(specification);
    answers_as_meant(specification);
    faulty_code_is_untyped();
    let code = assembled(alloc, specification)?;
    match verify(alloc, code) {
        Ok(verified) => Ok(verified),
        Err(refused) => match refused.fault.fault {
            Fault::Memory => Err(AllocError),
            _ => unreachable!(),
        },
    }
}
