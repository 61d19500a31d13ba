//! Runs of objects, each answered by one machine.
ghost use Rattle.std.specs.Prelude.{◌≡◌, ◌++◌, ◌∷◌, [], ◌<◌, ◌+◌, IfOk, OnOk, map, vec_len, vec_capacity};
ghost use Rattle.mcode.specs.Answer.{answer_of};

use machine::Machine;
use std::alloc::{AllocError, Allocator};
use term_core::Term;
use verifier::Verified;

/// Appends the answer of a machine for an object to `answers`, which has room for it. Fails if an allocation fails.
fn answer<'a, A: Allocator + Copy>(
    machine: &mut Machine<'a, '_, A>,
    object: &'a Term<A>,
    answers: &mut Vec<Option<Term<A>>, A>,
) -> Result<(), AllocError>
    requires { vec_len answers.old < vec_capacity answers.old }
    ensures code { machine.new.code ≡ machine.old.code }
    ensures answer { OnOk result (answers.new.items ≡ answers.old.items ++ answer_of machine.old.code object.now ∷ []) }
    ensures len { OnOk result (vec_len answers.new ≡ vec_len answers.old + 1) }
    ensures capacity { OnOk result (vec_capacity answers.new ≡ vec_capacity answers.old) }
{
    let (answer, _executed) = machine.run(object)?;
    answers.push_reserved(answer);
    Ok(())
}

/// Appends the answers of a machine for objects, in their order, to `answers`, which is empty. Fails if an allocation
/// fails.
fn answer_each<'a, A: Allocator + Copy>(
    machine: &mut Machine<'a, '_, A>,
    objects: &'a [Term<A>],
    answers: &mut Vec<Option<Term<A>>, A>,
) -> Result<(), AllocError>
    requires { answers.old.items ≡ [] }
    ensures { OnOk result (answers.new.items ≡ map (answer_of machine.old.code) objects.now) }
{
    answers.reserve(objects.len())?;
    for place in 0..objects.len() {
        answer(machine, &objects[place], answers)?;
    }
    Ok(())
}

/// Returns the answers of code for a run of objects, in their order, computed with one machine. Fails if an allocation
/// fails.
pub(crate) fn answer_run<'a, A: Allocator + Copy>(
    alloc: A,
    code: &'a Verified<A>,
    objects: &'a [Term<A>],
) -> Result<Vec<Option<Term<A>>, A>, AllocError>
    ensures { IfOk result (λ answers. answers.items ≡ map (answer_of code.now) objects.now) }
{
    let heap = &alloc;
    let mut machine = Machine::new(heap, code)?;
    let mut answers = Vec::new(alloc);
    let answered = answer_each(&mut machine, objects, &mut answers);
    machine.finish();
    answered?;
    Ok(answers)
}
