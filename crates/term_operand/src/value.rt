//! Terms that are borrowed or were made.
use crate::operand::Operand;
use std::alloc::{AllocError, Allocator, Global};
use term_core::{Term, View};

/// A term that is borrowed or was made. It may live as long as the terms that it borrows.
#[derive(Drop)]
pub enum Value<'a, A: Allocator = Global> {
    /// A borrowed term.
    Term(&'a Term<A>),
    /// The rest of this list after its first `count` elements. A term that is not a list is taken as it is.
    Rest(&'a Term<A>, usize),
    /// An integer.
    Int(i64),
    /// The atom `true` or `false`.
    Bool(bool),
    /// A term that was made.
    Made(Term<A>),
}

/// Drops a value in a separate call. Where values seldom need that, the caller contains only a test.
#[inline(never)]
pub fn drop_apart<T: Drop>(_value: T) {}

impl<'a, A: Allocator> Default for Value<'a, A> {
    /// The value of a place before another value is stored there: the atom `false`.
    fn default() -> Self {
        Value::Bool(false)
    }
}

impl<'a, A: Allocator> Value<'a, A> {
    ghost use Rattle.std.specs.Prelude.{◌≡◌, ◌↔◌, IsTrue, IfSome, IsSome, true};
    ghost use Rattle.term_core.specs.Limits.{IsSound};
    ghost use Rattle.term_operand.specs.Operand.{operand_datum, boolean as boolean_atom, boolean_of, integer_of};
    ghost use Rattle.term_operand.specs.Value.{value_datum, is_borrowed};
    ghost use Rattle.term_core.specs.View.{shown, IsSplit};
    ghost use Rattle.term_operand.specs.View.{seen};

    /// Returns the value of an operand.
    #[inline(always)]
    pub fn new(operand: Operand<'a, A>) -> Self
        ensures value { value_datum result ≡ operand_datum operand.entry }
        ensures borrowed { IsTrue (is_borrowed result) }
    {
        match operand {
            Operand::Term(term) => Value::Term(term),
            Operand::Rest(list, count) => Value::Rest(list, count),
            Operand::Int(value) => Value::Int(value),
            Operand::Bool(value) => Value::Bool(value),
        }
    }

    /// Drops the value. Only a value that was made needs a call for that.
    #[inline(always)]
    pub fn go(self) {
        match self {
            Value::Made(term) => drop_apart(term),
            Value::Term(_) | Value::Rest(_, _) | Value::Int(_) | Value::Bool(_) => {}
        }
    }

    /// Returns the value as an operand that borrows from the value.
    #[inline(always)]
    pub fn operand(&self) -> Operand<'_, A>
        ensures { operand_datum result ≡ value_datum self.now }
    {
        match self {
            Value::Term(term) => Operand::Term(term),
            Value::Rest(list, count) => Operand::Rest(list, *count),
            Value::Int(value) => Operand::Int(*value),
            Value::Bool(value) => Operand::Bool(*value),
            Value::Made(term) => Operand::Term(term),
        }
    }

    /// Returns the value as an operand that borrows what the value borrows. Returns `None` if the value was made.
    #[inline(always)]
    pub fn borrowed(&self) -> Option<Operand<'a, A>>
        ensures value { IfSome result (λ operand. operand_datum operand ≡ value_datum self.now) }
        ensures borrowed { IsTrue (is_borrowed self.now) → IsSome result }
    {
        match self {
            Value::Term(term) => Some(Operand::Term(term)),
            Value::Rest(list, count) => Some(Operand::Rest(list, *count)),
            Value::Int(value) => Some(Operand::Int(*value)),
            Value::Bool(value) => Some(Operand::Bool(*value)),
            Value::Made(_) => None,
        }
    }

    /// Returns the value's kind with its parts, one level down.
    #[inline(always)]
    pub fn view(&self) -> View<'_, A>
        ensures value { seen result ≡ value_datum self.now }
        ensures shown { shown result ≡ value_datum self.now }
        ensures split { IsSplit result }
        ensures within { IsSound (shown result) }
    {
        self.operand().view()
    }

    /// Returns the truth value if the value is the atom `true` or `false`, otherwise `None`.
    #[inline(always)]
    pub fn boolean(&self) -> Option<bool>
        ensures { result ≡ boolean_of (value_datum self.now) }
    {
        match self {
            Value::Bool(value) => Some(*value),
            Value::Int(_) => None,
            Value::Term(_) | Value::Rest(_, _) | Value::Made(_) => self.operand().boolean(),
        }
    }

    /// Returns whether the value is the atom `true`.
    #[inline(always)]
    pub fn is_true(&self) -> bool
        ensures { IsTrue result ↔ (value_datum self.now ≡ boolean_atom true) }
    {
        matches!(self.boolean(), Some(true))
    }

    /// Returns the number if the value is an integer, otherwise `None`.
    #[inline(always)]
    pub fn integer(&self) -> Option<i64>
        ensures { result ≡ integer_of (value_datum self.now) }
    {
        self.operand().integer()
    }

    /// Returns the truth value if the value is the atom `true` or `false`, otherwise `None`, and drops the value.
    pub fn into_boolean(self) -> Option<bool>
        ensures { result ≡ boolean_of (value_datum self.entry) }
    {
        self.boolean()
    }
}

impl<'a, A: Allocator + Copy> Value<'a, A> {
    ghost use Rattle.std.specs.Prelude.{◌≡◌, IsTrue, IfOk, IsOkAnd};
    ghost use Rattle.term_operand.specs.Operand.{operand_datum};
    ghost use Rattle.term_operand.specs.Value.{value_datum, is_borrowed};

    /// Returns a value that does not borrow from the operand: a term is copied. Fails if an allocation or a copy fails.
    pub fn kept(alloc: A, operand: Operand<'_, A>) -> Result<Self, AllocError>
        ensures { IfOk result (λ value. value_datum value ≡ operand_datum operand.entry) }
    {
        match operand {
            Operand::Int(value) => Ok(Value::Int(value)),
            Operand::Bool(value) => Ok(Value::Bool(value)),
            Operand::Term(_) | Operand::Rest(_, _) => Ok(Value::Made(operand.to_term(alloc)?)),
        }
    }

    /// Returns a copy of the value. A copy of a borrowed value needs no memory and cannot fail.
    #[inline(always)]
    pub fn copy(&self) -> Result<Self, AllocError>
        ensures value { IfOk result (λ value. value_datum value ≡ value_datum self.now) }
        ensures memory { IsTrue (is_borrowed self.now)
            → IsOkAnd result (λ value. IsTrue (is_borrowed value)) }
    {
        match self {
            Value::Term(term) => Ok(Value::Term(term)),
            Value::Rest(list, count) => Ok(Value::Rest(list, *count)),
            Value::Int(value) => Ok(Value::Int(*value)),
            Value::Bool(value) => Ok(Value::Bool(*value)),
            Value::Made(term) => Ok(Value::Made(term.copy()?)),
        }
    }

    /// Returns the value as a term, copied if it is borrowed. Fails if an allocation or a copy fails.
    pub fn into_term(self, alloc: A) -> Result<Term<A>, AllocError>
        ensures { IfOk result (λ term. term ≡ value_datum self.entry) }
    {
        match self {
            Value::Made(term) => Ok(term),
            Value::Term(_) | Value::Rest(_, _) | Value::Int(_) | Value::Bool(_) => {
                self.operand().to_term(alloc)
            }
        }
    }
}
