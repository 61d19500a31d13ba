//! Terms that instructions make.
ghost use Rattle.std.specs.Prelude.{◌≡◌, ◌≤◌, Some, IsSome, IsTrue, IfOk, length};
ghost use Rattle.std.specs.List.{zip};
ghost use Rattle.std.specs.Option.{option_map};
ghost use Rattle.term_core.specs.Datum.{proper_elements};
ghost use Rattle.term_core.specs.Datum.Datum.{cons};
ghost use Rattle.term_core.specs.Limits.{within_limits};
ghost use Rattle.term_core.specs.MapPairs.{are_apart};
ghost use Rattle.mcode.specs.Machine.{map_made};
ghost use Rattle.machine_stack.specs.Keys.{keys_in};
ghost use Rattle.term_operand.specs.Value.{value_datum};

use mcode::Code;
use std::alloc::{AllocError, Allocator};
use term_build::{copy_all, make_list, make_map};
use term_core::Term;
use term_operand::Value;

/// What was made, where it passes no limit.
pub fn made_value<'a, A: Allocator>(term: Option<Term<A>>) -> Option<Value<'a, A>>
    ensures { option_map value_datum result ≡ term }
{
    match term {
        Some(term) => Some(Value::Made(term)),
        None => None,
    }
}

/// The list of a head and a tail, none where it passes a limit.
#[inline(never)]
pub fn list_of<'a, A: Allocator + Copy>(
    alloc: A,
    head: Value<'a, A>,
    tail: Value<'a, A>,
) -> Result<Option<Value<'a, A>>, AllocError>
    ensures { IfOk result (λ list. option_map value_datum list
        ≡ within_limits (cons (value_datum head.entry) (value_datum tail.entry))) }
{
    let mut elements = Vec::with_capacity(alloc, 1)?;
    elements.push(head.into_term(alloc)?)?;
    let list = make_list(alloc, elements, tail.into_term(alloc)?)?;
    Ok(made_value(list))
}

/// The elements of a proper list.
fn elements_of<A: Allocator + Copy>(alloc: A, list: &Term<A>) -> Result<Vec<Term<A>, A>, AllocError>
    requires { IsSome (proper_elements list.now) }
    ensures { IfOk result (λ elements. proper_elements list.now ≡ Some elements.items) }
{
    match list.proper_elements() {
        Some(elements) => copy_all(alloc, elements),
        None => unreachable!(),
    }
}

/// The keys that a constant of the code lists.
#[inline(never)]
pub fn keys_of<A: Allocator + Copy>(
    alloc: A,
    code: &Code<A>,
    number: u16,
) -> Result<Vec<Term<A>, A>, AllocError>
    requires { IsSome (keys_in code.now.constants number) }
    ensures keys { IfOk result (λ keys. keys_in code.now.constants number ≡ Some keys.items) }
    ensures apart { IfOk result (λ keys. IsTrue (are_apart keys.items)) }
{
    let list = &code.constants()[usize::from(number)];
    elements_of(alloc, list)
}

/// Returns the pairs of keys and values, where the value of a key is at the key's position. Fails if an allocation
/// fails.
fn pairs_of<A: Allocator + Copy>(
    alloc: A,
    keys: Vec<Term<A>, A>,
    values: Vec<Term<A>, A>,
) -> Result<Vec<(Term<A>, Term<A>), A>, AllocError>
    requires { length keys.items ≡ length values.items }
    ensures { IfOk result (λ pairs. pairs.items ≡ zip keys.items values.items) }
{
    let mut keys = keys;
    let mut values = values;
    let mut pairs = Vec::with_capacity(alloc, keys.len())?;
    while let Some(key) = keys.pop() {
        match values.pop() {
            Some(value) => pairs.push((key, value))?,
            None => unreachable!(),
        }
    }
    pairs.reverse();
    Ok(pairs)
}

/// The map of these keys, of which no two are the same, and as many values; none where it passes a limit.
#[inline(never)]
pub fn map_of<'a, A: Allocator + Copy>(
    alloc: A,
    keys: Vec<Term<A>, A>,
    values: Vec<Term<A>, A>,
) -> Result<Option<Value<'a, A>>, AllocError>
    requires apart { IsTrue (are_apart keys.items) }
    requires count { length keys.items ≡ length values.items }
    ensures { IfOk result (λ map. option_map value_datum map
        ≡ map_made keys.items values.items) }
{
    let pairs = pairs_of(alloc, keys, values)?;
    let map = make_map(alloc, pairs)?;
    Ok(made_value(map))
}
