//! Answers of code for the objects of a key.
ghost use Rattle.std.specs.Prelude.{◌≡◌, ◌++◌, [], ◌∷◌, IfOk, filter, filter_map, length};
ghost use Rattle.mcode.specs.Answer.{answer_of};
ghost use Rattle.part_core.specs.Visits.{is_true};

use machine::Machine;
use part_core::Held;
use std::alloc::{AllocError, Allocator};
use term_core::Term;

/// Appends the answer for an object to `found`, if there is one. Fails if an allocation fails.
fn gather_one<'r, A: Allocator + Copy>(
    machine: &mut Machine<'r, '_, A>,
    object: &'r Term<A>,
    found: &mut Vec<Term<A>, A>,
) -> Result<(), AllocError>
    ensures code { machine.new.code ≡ machine.old.code }
    ensures found { IfOk result (λ _. found.new.items
        ≡ found.old.items ++ filter_map (answer_of machine.old.code) (object.now ∷ [])) }
{
    let (answer, _executed) = machine.run(object)?;
    match answer {
        Some(answer) => {
            found.push(answer)?;
            Ok(())
        }
        None => Ok(()),
    }
}

/// Appends the answers for `objects` to `found`. Fails if an allocation fails.
fn gather_all<'r, A: Allocator + Copy>(
    machine: &mut Machine<'r, '_, A>,
    objects: &'r [Term<A>],
    found: &mut Vec<Term<A>, A>,
) -> Result<(), AllocError>
    ensures code { machine.new.code ≡ machine.old.code }
    ensures found { IfOk result (λ _. found.new.items
        ≡ found.old.items ++ filter_map (answer_of machine.old.code) objects.now) }
{
    for object in objects {
        gather_one(machine, object, found)?;
    }
    Ok(())
}

/// Appends the answers for the objects held at a key to `found`, and returns their number. Fails if an allocation
/// fails.
pub fn gather<'r, A: Allocator + Copy>(
    machine: &mut Machine<'r, '_, A>,
    held: &'r Held<A>,
    found: &mut Vec<Term<A>, A>,
) -> Result<u64, AllocError>
    ensures code { machine.new.code ≡ machine.old.code }
    ensures found { IfOk result (λ count. found.new.items
        ≡ found.old.items ++ filter_map (answer_of machine.old.code) held.now) }
    ensures count { IfOk result (λ count. count ≡ length (filter_map (answer_of machine.old.code) held.now)) }
{
    let before = found.len();
    gather_all(machine, held.as_slice(), found)?;
    Ok((found.len() - before) as u64)
}

/// Returns whether the query returns `true` for an object. Fails if an allocation fails.
pub fn holds<'r, A: Allocator + Copy>(
    machine: &mut Machine<'r, '_, A>,
    object: &'r Term<A>,
) -> Result<bool, AllocError>
    ensures code { machine.new.code ≡ machine.old.code }
    ensures holds { IfOk result (λ holds. holds ≡ is_true machine.old.code object.now) }
{
    let (holds, _executed) = machine.run_true(object)?;
    Ok(holds)
}

/// Returns the number of `objects` for which the query returns `true`. Fails if an allocation fails.
fn count_all<'r, A: Allocator + Copy>(
    machine: &mut Machine<'r, '_, A>,
    objects: &'r [Term<A>],
) -> Result<usize, AllocError>
    ensures code { machine.new.code ≡ machine.old.code }
    ensures count { IfOk result (λ count. count ≡ length (filter (is_true machine.old.code) objects.now)) }
{
    let mut count: usize = 0;
    for object in objects {
        if holds(machine, object)? {
            count = count.saturating_add(1);
        }
    }
    Ok(count)
}

/// Returns the number of objects held at a key for which the query returns `true`. Fails if an allocation fails.
pub fn count_true<'r, A: Allocator + Copy>(
    machine: &mut Machine<'r, '_, A>,
    held: &'r Held<A>,
) -> Result<u64, AllocError>
    ensures code { machine.new.code ≡ machine.old.code }
    ensures count { IfOk result (λ count. count ≡ length (filter (is_true machine.old.code) held.now)) }
{
    let count = count_all(machine, held.as_slice())?;
    Ok(count as u64)
}
