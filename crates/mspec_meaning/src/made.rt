//! Terms made by expressions.
ghost use Rattle.std.specs.Prelude.{◌≡◌, ◌++◌, ◌∷◌, [], IfOk, OnOk};
ghost use Rattle.std.specs.Option.{option_map};
ghost use Rattle.term_operand.specs.Value.{value_datum};

use crate::environment::Environment;
use mspec_match::failure;
use std::alloc::{AllocError, Allocator};
use term_build::{make_list, make_map, make_tuple};
use term_core::Term;
use term_operand::Value;

/// Returns a value as a term, or `None` if there is no value. Fails if an allocation fails.
pub fn into_term<A: Allocator + Copy>(
    alloc: A,
    value: Option<Value<'_, A>>,
) -> Result<Option<Term<A>>, AllocError>
    ensures { IfOk result (λ term. term ≡ option_map value_datum value.entry) }
{
    match value {
        Some(value) => Ok(Some(value.into_term(alloc)?)),
        None => Ok(None),
    }
}

/// Appends a value to the elements of a tuple or a list. Fails if an allocation fails.
pub fn push_element<A: Allocator + Copy>(
    alloc: A,
    elements: &mut Vec<Term<A>, A>,
    value: Value<'_, A>,
) -> Result<(), AllocError>
    ensures { OnOk result (elements.new.items ≡ elements.old.items
        ++ value_datum value.entry ∷ []) }
{
    elements.push(value.into_term(alloc)?)?;
    Ok(())
}

/// Appends a key and its value to the pairs of a map. Fails if an allocation fails.
pub fn push_entry<A: Allocator + Copy>(
    alloc: A,
    pairs: &mut Vec<(Term<A>, Term<A>), A>,
    key: &Term<A>,
    value: Value<'_, A>,
) -> Result<(), AllocError>
    ensures { OnOk result (pairs.new.items ≡ pairs.old.items
        ++ (key.now, value_datum value.entry) ∷ []) }
{
    let name = key.copy()?;
    let term = value.into_term(alloc)?;
    pairs.push((name, term))?;
    Ok(())
}

impl<'s, 'a, A: Allocator + Copy> Environment<'s, 'a, A> {
    ghost use Rattle.std.specs.Prelude.{◌≡◌, Some, IfOk, IfSome};
    ghost use Rattle.std.specs.Option.{option_map};
    ghost use Rattle.term_operand.specs.Value.{value_datum};
    ghost use Rattle.term_core.specs.Datum.{cells, items_of, entries_of};
    ghost use Rattle.term_core.specs.Datum.Datum.{nil, tuple, map};
    ghost use Rattle.term_core.specs.MapPairs.{AreRising};
    ghost use Rattle.mspec_match.specs.Match.{values_of};
    ghost use Rattle.mspec_meaning.specs.Made.{joined_to, made, made_of, or_failed};

    /// Returns a term that was made as a value, or the value of what fails if it is `None`.
    fn or_failure(&self, made: Option<Term<A>>) -> Result<Option<Value<'a, A>>, AllocError>
        ensures { IfOk result (λ value. option_map value_datum value
            ≡ or_failed self.now.mode made) }
    {
        match made {
            Some(term) => Ok(Some(Value::Made(term))),
            None => failure(self.alloc(), self.mode()),
        }
    }

    /// Returns the list of the values of all variables, or the value of what fails if it exceeds a limit.
    pub fn bindings(&self) -> Result<Option<Value<'a, A>>, AllocError>
        ensures { IfOk result (λ value. option_map value_datum value
            ≡ made self.now.mode (cells (values_of self.now.substitution) nil)) }
    {
        let values = self.bound_values()?;
        self.list(values, Some(Term::nil()))
    }

    /// Returns the tuple of these elements, or `None` if one of them has no value. If the tuple exceeds a limit,
    /// returns the value of what fails.
    pub fn tuple(
        &self,
        elements: Option<Vec<Term<A>, A>>,
    ) -> Result<Option<Value<'a, A>>, AllocError>
        ensures { IfOk result (λ value. option_map value_datum value ≡ made_of self.now.mode
            (option_map (λ ds. tuple (items_of ds)) (option_map (λ terms. terms.items) elements))) }
    {
        match elements {
            Some(elements) => self.or_failure(make_tuple(self.alloc(), elements)?),
            None => Ok(None),
        }
    }

    /// Returns the list of these elements and this tail, or `None` if the tail has no value. If the list exceeds a
    /// limit, returns the value of what fails.
    pub fn list(
        &self,
        elements: Vec<Term<A>, A>,
        tail: Option<Term<A>>,
    ) -> Result<Option<Value<'a, A>>, AllocError>
        ensures { IfOk result (λ value. option_map value_datum value ≡ made_of self.now.mode
            (joined_to (Some elements.items) tail)) }
    {
        match tail {
            Some(tail) => self.or_failure(make_list(self.alloc(), elements, tail)?),
            None => Ok(None),
        }
    }

    /// Returns the map of these pairs, or `None` if one of them has no value. If the map exceeds a limit, returns the
    /// value of what fails.
    pub fn map(
        &self,
        pairs: Option<Vec<(Term<A>, Term<A>), A>>,
    ) -> Result<Option<Value<'a, A>>, AllocError>
        requires { IfSome pairs (λ pairs. AreRising (entries_of pairs.items)) }
        ensures { IfOk result (λ value. option_map value_datum value ≡ made_of self.now.mode
            (option_map map (option_map (λ pairs. entries_of pairs.items) pairs))) }
    {
        match pairs {
            Some(pairs) => self.or_failure(make_map(self.alloc(), pairs)?),
            None => Ok(None),
        }
    }
}
