//! What the value of an expression depends on.
ghost use Rattle.std.specs.Prelude.{◌≡◌, length, IfOk};
ghost use Rattle.std.specs.Option.{option_map};
ghost use Rattle.mspec_match.specs.Match.{lookup};
ghost use Rattle.mspec_match.specs.Slots.{seen, known, substitution_of};
ghost use Rattle.term_operand.specs.Value.{value_datum};

use crate::made::push_element;
use mspec_match::Slot;
use mspec_syntax::{Mode, Variables};
use std::alloc::{AllocError, Allocator};
use std::marker::Model;
use term_core::Term;
use term_operand::Value;

/// Returns the value of a variable, or `None` if it is free or not one of these. Each variable has its slot.
fn bound_to<'a, A: Allocator>(
    variables: &Variables<A>,
    slots: &[Slot<'a, A>],
    number: u32,
) -> Option<Value<'a, A>>
    requires { length slots.now ≡ length variables.now }
    ensures { option_map value_datum result ≡ lookup
        (substitution_of variables.now (seen slots.now)) number }
{
    match variables.rank(number) {
        Some(rank) => match slots[rank] {
            Some(part) => Some(Value::new(part)),
            None => None,
        },
        None => None,
    }
}

/// Returns copies of the terms to which variables are bound.
fn copies<A: Allocator + Copy>(
    alloc: A,
    slots: &[Slot<'_, A>],
) -> Result<Vec<Term<A>, A>, AllocError>
    ensures { IfOk result (λ values. values.items ≡ known (seen slots.now)) }
{
    let mut values = Vec::with_capacity(alloc, slots.len())?;
    for slot in slots {
        let Some(part) = slot else {
            continue;
        };
        push_element(alloc, &mut values, Value::new(*part))?;
    }
    Ok(values)
}

/// What the value of an expression depends on: whether it is in a condition or a body, the values of the head's
/// variables, and the object.
#[derive(Drop)]
pub struct Environment<'s, 'a, A: Allocator> {
    heap: &'s A,
    mode: Mode,
    variables: &'s Variables<A>,
    slots: &'s [Slot<'a, A>],
    object: &'a Term<A>,
}

impl<'s, 'a, A: Allocator> Model for Environment<'s, 'a, A> {
    ghost use Rattle.std.specs.Prelude.{◌≡◌, length};
    ghost use Rattle.std.specs.Coded.{codes};
    ghost use Rattle.term_core.specs.DatumCode.{datum_code};
    ghost use Rattle.mspec_meaning.specs.Environment.{Environment};

    ghost Value = { Environment };

    ghost coded = { Prim.hlevel (codes, datum_code) };

    ghost use Rattle.mspec_match.specs.Slots.{seen, substitution_of};

    ghost view = { λ s. record {
      mode = s.mode;
      substitution = substitution_of s.variables.now (seen s.slots.now);
      object = s.object.now;
    } };

    ghost invariant = { λ s. length s.slots.now ≡ length s.variables.now };
}

impl<'s, 'a, A: Allocator + Copy> Environment<'s, 'a, A> {
    ghost use Rattle.std.specs.Prelude.{◌≡◌, length, IfOk};
    ghost use Rattle.std.specs.Option.{option_map};
    ghost use Rattle.mspec_match.specs.Match.{lookup, values_of};
    ghost use Rattle.mspec_match.specs.Slots.{seen, substitution_of};
    ghost use Rattle.term_operand.specs.Value.{value_datum};

    /// Makes the environment of an expression in a condition or a body. Each variable of the head has its slot.
    pub fn new(
        heap: &'s A,
        mode: Mode,
        variables: &'s Variables<A>,
        slots: &'s [Slot<'a, A>],
        object: &'a Term<A>,
    ) -> Self
        requires { length slots.now ≡ length variables.now }
        ensures mode { result.mode ≡ mode }
        ensures substitution { result.substitution ≡ substitution_of variables.now
            (seen slots.now) }
        ensures object { result.object ≡ object.now }
    {
        Environment {
            heap,
            mode,
            variables,
            slots,
            object,
        }
    }

    /// Returns a reference to the allocator.
    pub fn heap(&self) -> &'s A {
        self.heap
    }

    /// Returns the allocator.
    pub fn alloc(&self) -> A {
        *self.heap
    }

    /// Returns whether the expression is in a condition or a body.
    pub fn mode(&self) -> Mode
        ensures { result ≡ self.now.mode }
    {
        self.mode
    }

    /// Returns the whole object.
    pub fn object(&self) -> Value<'a, A>
        ensures { value_datum result ≡ self.now.object }
    {
        Value::Term(self.object)
    }

    /// Returns the value of a variable, or `None` if it has none.
    pub fn bound(&self, number: u32) -> Option<Value<'a, A>>
        ensures { option_map value_datum result ≡ lookup self.now.substitution number }
    {
        bound_to(self.variables, self.slots, number)
    }

    /// Returns copies of the values of all variables, in ascending order of the variables. Fails if an allocation
    /// fails.
    pub fn bound_values(&self) -> Result<Vec<Term<A>, A>, AllocError>
        ensures { IfOk result (λ values. values.items ≡ values_of self.now.substitution) }
    {
        copies(*self.heap, self.slots)
    }
}
