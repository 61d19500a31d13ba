//! Views: what other crates see of a term.
ghost use Rattle.std.specs.Prelude.{◌≡◌, ⊤, Some, None, MatchOption};
ghost use Rattle.term_core.specs.Datum.{items_of};
ghost use Rattle.term_core.specs.Datum.Datum.{tuple};
ghost use Rattle.term_core.specs.Order.{rank};
ghost use Rattle.term_core.specs.Parts.{field_of, is_tuple_of, is_map};
ghost use Rattle.term_core.specs.View.{shown, IsSplit};

use crate::term::Term;
use std::alloc::{AllocError, Allocator};

/// The rank of `[]` in the order of kinds.
pub(crate) const NIL_RANK: u8 = 4;
/// The rank of non-empty lists in the order of kinds.
pub(crate) const LIST_RANK: u8 = 5;

/// Returns the element at a place counted from 1 among the elements of a tuple, or `None` if there is no such element.
#[inline(always)]
fn element_of<A: Allocator>(elements: &[Term<A>], place: u16) -> Option<&Term<A>>
    ensures { MatchOption result (field_of place (tuple (items_of elements.now)) ≡ None)
        (λ element. field_of place (tuple (items_of elements.now)) ≡ Some element.now) }
{
    let place = usize::from(place);
    if place == 0 {
        return None;
    }
    if elements.len() < place {
        return None;
    }
    Some(&elements[place - 1])
}

/// A term taken apart one level down.
pub enum View<'a, A: Allocator> {
    /// An integer.
    Integer(i64),
    /// The text of an atom.
    Atom(&'a str),
    /// A tuple's elements.
    Tuple(&'a [Term<A>]),
    /// `[]`.
    Nil,
    /// The elements of a list that is not empty, and its tail if it is not `[]`.
    List(&'a [Term<A>], Option<&'a Term<A>>),
    /// A map's pairs, in ascending key order.
    Map(&'a [(Term<A>, Term<A>)]),
    /// A binary's bytes.
    Binary(&'a [u8]),
}

impl<'a, A: Allocator> Copy for View<'a, A> {}

impl<'a, A: Allocator> Clone for View<'a, A> {
    ghost is_clone = { λ x y. shown y ≡ shown x };

    ghost is_infallible = { λ _. ⊤ };

    fn clone(&self) -> Result<Self, AllocError> {
        Ok(*self)
    }
}

impl<'a, A: Allocator> View<'a, A> {
    /// Returns the rank of the term's kind in the order of kinds, from 0 to 6.
    #[inline(always)]
    pub fn rank(self) -> u8
        requires { IsSplit self }
        ensures { result ≡ rank (shown self.entry) }
    {
        match self {
            View::Integer(_) => 0,
            View::Atom(_) => 1,
            View::Tuple(_) => 2,
            View::Map(_) => 3,
            View::Nil => NIL_RANK,
            View::List(_elements, _tail) => LIST_RANK,
            View::Binary(_) => 6,
        }
    }

    /// Returns the element of a tuple at a place counted from 1. Returns `None` if there is no such element or the term
    /// is not a tuple.
    #[inline(always)]
    pub fn element_at(self, place: u16) -> Option<&'a Term<A>>
        requires { IsSplit self }
        ensures { MatchOption result (field_of place (shown self.entry) ≡ None)
            (λ element. field_of place (shown self.entry) ≡ Some element.now) }
    {
        match self {
            View::Tuple(elements) => element_of(elements, place),
            _ => None,
        }
    }

    /// Returns whether the term is a tuple of `size` elements.
    #[inline(always)]
    pub fn is_tuple(self, size: u16) -> bool
        requires { IsSplit self }
        ensures { result ≡ is_tuple_of size (shown self.entry) }
    {
        match self {
            View::Tuple(elements) => elements.len() == usize::from(size),
            _ => false,
        }
    }

    /// Returns whether the term is a map.
    #[inline(always)]
    pub fn is_map(self) -> bool
        requires { IsSplit self }
        ensures { result ≡ is_map (shown self.entry) }
    {
        match self {
            View::Map(_) => true,
            _ => false,
        }
    }
}
