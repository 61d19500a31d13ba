//! Borrowed terms, and parts of them.
ghost use Rattle.std.specs.Prelude.{◌≡◌, ⊤, false, Some, None, MatchOption, IfOk, IfSome};
ghost use Rattle.std.specs.Str.{chars};
ghost use Rattle.term_core.specs.Datum.{items_of, entries_of};
ghost use Rattle.term_core.specs.Datum.Datum.{atom, tuple, map, cons};
ghost use Rattle.term_core.specs.Limits.{IsSound, ArePairsSound};
ghost use Rattle.term_core.specs.Parts.{field_of, is_tuple_of, is_map};
ghost use Rattle.term_build.specs.Rest.{rest_of};
ghost use Rattle.term_core.specs.View.{shown, IsSplit};
ghost use Rattle.term_operand.specs.View.{seen};
ghost use Rattle.term_operand.specs.Operand.{operand_datum, boolean as boolean_atom, boolean_of, integer_of, IsNoCell, IsNoTuple, IsNoMap};
ghost use Rattle.term_operand.specs.Order.{IsSimple};

use std::alloc::{AllocError, Allocator, Global};
use term_build::{atom_of_text, copy_rest, view_rest};
use term_core::{Term, View};

/// The text of the atom `true`.
const TRUE: &str = "true";
/// The text of the atom `false`.
const FALSE: &str = "false";

/// A term that is an argument or a result of a function, and needs no memory of its own.
pub enum Operand<'a, A: Allocator = Global> {
    /// A whole term.
    Term(&'a Term<A>),
    /// The rest of this list after its first `count` elements. A term that is not a list is taken as it is.
    Rest(&'a Term<A>, usize),
    /// An integer.
    Int(i64),
    /// The atom `true` or `false`.
    Bool(bool),
}

impl<'a, A: Allocator> Copy for Operand<'a, A> {}

impl<'a, A: Allocator> Clone for Operand<'a, A> {
    ghost is_clone = { λ x y. operand_datum y ≡ operand_datum x };

    ghost is_infallible = { λ _. ⊤ };

    fn clone(&self) -> Result<Self, AllocError> {
        Ok(*self)
    }
}

/// The default is the atom `false`, which fills the free places of a small vector.
impl<'a, A: Allocator> Default for Operand<'a, A> {
    ghost is_default = { λ operand. operand_datum operand ≡ boolean_atom false };

    fn default() -> Self {
        Operand::Bool(false)
    }
}

/// Returns the text of the atom `true` or `false`.
fn boolean_text(value: bool) -> &'static str
    ensures value { atom (chars result.now) ≡ boolean_atom value }
    ensures sound { IsSound (atom (chars result.now)) }
{
    if value { TRUE } else { FALSE }
}

/// Returns the truth value with this name, or `None` if there is none.
#[tactic(auto, using(crate::proofs::TextLemmas::is_true, crate::proofs::TextLemmas::is_false))]
fn boolean_named(text: &str) -> Option<bool>
    ensures { result ≡ boolean_of (atom (chars text.now)) }
{
    if text == TRUE {
        return Some(true);
    }
    if text == FALSE {
        return Some(false);
    }
    None
}

/// Makes the atom `true` or `false`. Fails if an allocation fails.
fn boolean_term<A: Allocator + Copy>(alloc: A, value: bool) -> Result<Term<A>, AllocError>
    ensures { IfOk result (λ t. t ≡ boolean_atom value) }
{
    atom_of_text(alloc, boolean_text(value)).map_err(|fault| fault.alloc_error())
}

/// Returns the first element of a list's rest after `count` elements, and what follows that element. Returns `None` if
/// the rest has no elements or the term is not a list.
fn split_after<'a, A: Allocator>(
    list: &'a Term<A>,
    count: usize,
) -> Option<(&'a Term<A>, Operand<'a, A>)>
    ensures { MatchOption result (IsNoCell (rest_of count list.now))
        (λ p. cons p.0.now (operand_datum p.1) ≡ rest_of count list.now) }
{
    match view_rest(list, count) {
        View::List([head, ..], _tail) => Some((head, Operand::Rest(list, count + 1))),
        _ => None,
    }
}

/// Returns the rest of a list after `count` elements if it is a term that exists by itself: a tail, or a term that is
/// not a list. Otherwise returns `None`.
fn whole_after<A: Allocator>(list: &Term<A>, count: usize) -> Option<&Term<A>>
    ensures { MatchOption result (IsSimple (rest_of count list.now))
        (λ t. t.now ≡ rest_of count list.now) }
{
    match list.view() {
        View::List(elements, tail) => {
            if count < elements.len() {
                return None;
            }
            tail
        }
        _ => Some(list),
    }
}

/// Returns the value of an integer, or `None` for any other term.
#[inline(always)]
fn integer_of<A: Allocator>(view: View<'_, A>) -> Option<i64>
    requires { IsSplit view }
    ensures { result ≡ integer_of (shown view.entry) }
{
    match view {
        View::Integer(value) => Some(value),
        View::Atom(_) | View::Nil | View::Tuple(_) => None,
        View::List(_elements, _tail) => None,
        View::Map(_) | View::Binary(_) => None,
    }
}

/// Returns the elements of a tuple, or `None` for any other term.
#[inline(always)]
fn elements_of<'a, A: Allocator>(view: View<'a, A>) -> Option<&'a [Term<A>]>
    requires { IsSplit view }
    ensures { MatchOption result (IsNoTuple (shown view.entry))
        (λ elements. tuple (items_of elements.now) ≡ shown view.entry) }
{
    match view {
        View::Tuple(elements) => Some(elements),
        View::Integer(_) | View::Atom(_) | View::Nil => None,
        View::List(_elements, _tail) => None,
        View::Map(_) | View::Binary(_) => None,
    }
}

impl<'a, A: Allocator> Operand<'a, A> {
    /// Returns the operand's kind with its parts, one level down.
    #[inline]
    pub fn view(self) -> View<'a, A>
        ensures value { seen result ≡ operand_datum self.entry }
        ensures shown { shown result ≡ operand_datum self.entry }
        ensures split { IsSplit result }
        ensures within { IsSound (shown result) }
    {
        match self {
            Operand::Term(term) => term.view(),
            Operand::Rest(list, count) => view_rest(list, count),
            Operand::Int(value) => View::Integer(value),
            Operand::Bool(value) => View::Atom(boolean_text(value)),
        }
    }

    /// Returns the truth value if the operand is the atom `true` or `false`, otherwise `None`.
    pub fn boolean(self) -> Option<bool>
        ensures { result ≡ boolean_of (operand_datum self.entry) }
    {
        match self.view() {
            View::Atom(text) => boolean_named(text),
            View::Integer(_) | View::Nil | View::Tuple(_) => None,
            View::List(..) | View::Map(_) | View::Binary(_) => None,
        }
    }

    /// Returns the value if the operand is an integer, otherwise `None`.
    #[inline(always)]
    pub fn integer(self) -> Option<i64>
        ensures { result ≡ integer_of (operand_datum self.entry) }
    {
        match self {
            Operand::Term(term) => integer_of(term.view()),
            Operand::Rest(list, count) => integer_of(view_rest(list, count)),
            Operand::Int(value) => Some(value),
            Operand::Bool(_) => None,
        }
    }

    /// Returns the first element of a list and what follows it, or `None` if the operand is not a list with elements.
    pub fn split(self) -> Option<(&'a Term<A>, Operand<'a, A>)>
        ensures { MatchOption result (IsNoCell (operand_datum self.entry))
            (λ p. cons p.0.now (operand_datum p.1) ≡ operand_datum self.entry) }
    {
        match self {
            Operand::Term(list) => split_after(list, 0),
            Operand::Rest(list, count) => split_after(list, count),
            Operand::Int(_) | Operand::Bool(_) => None,
        }
    }

    /// Returns the elements if the operand is a tuple, otherwise `None`.
    #[inline(always)]
    pub fn elements(self) -> Option<&'a [Term<A>]>
        ensures { MatchOption result (IsNoTuple (operand_datum self.entry))
            (λ elements. tuple (items_of elements.now) ≡ operand_datum self.entry) }
    {
        match self {
            Operand::Term(term) => elements_of(term.view()),
            Operand::Rest(list, count) => elements_of(view_rest(list, count)),
            Operand::Int(_) | Operand::Bool(_) => None,
        }
    }

    /// Returns the element of a tuple at a place counted from 1. Returns `None` if there is no such element or the
    /// operand is not a tuple.
    #[inline(always)]
    pub fn element_at(self, place: u16) -> Option<&'a Term<A>>
        ensures { MatchOption result (field_of place (operand_datum self.entry) ≡ None)
            (λ element. field_of place (operand_datum self.entry) ≡ Some element.now) }
    {
        match self {
            Operand::Term(term) => term.element_at(place),
            Operand::Rest(list, count) => view_rest(list, count).element_at(place),
            Operand::Int(_) | Operand::Bool(_) => None,
        }
    }

    /// Returns whether the operand is a tuple of `size` elements.
    #[inline(always)]
    pub fn is_tuple(self, size: u16) -> bool
        ensures { result ≡ is_tuple_of size (operand_datum self.entry) }
    {
        match self {
            Operand::Term(term) => term.is_tuple(size),
            Operand::Rest(list, count) => view_rest(list, count).is_tuple(size),
            Operand::Int(_) | Operand::Bool(_) => false,
        }
    }

    /// Returns whether the operand is a map.
    #[inline(always)]
    pub fn is_map(self) -> bool
        ensures { result ≡ is_map (operand_datum self.entry) }
    {
        self.view().is_map()
    }

    /// Returns the pairs, in ascending key order, if the operand is a map, otherwise `None`.
    pub fn pairs(self) -> Option<&'a [(Term<A>, Term<A>)]>
        ensures value { MatchOption result (IsNoMap (operand_datum self.entry))
            (λ pairs. map (entries_of pairs.now) ≡ operand_datum self.entry) }
        ensures sound { IfSome result (λ pairs. ArePairsSound (entries_of pairs.now)) }
    {
        match self.view() {
            View::Map(pairs) => Some(pairs),
            View::Integer(_) | View::Atom(_) | View::Nil => None,
            View::List(..) | View::Tuple(_) | View::Binary(_) => None,
        }
    }

    /// Returns the borrowed term that the operand represents. Returns `None` for an integer, a truth value, and a rest
    /// that does not exist as a term by itself.
    pub fn term(self) -> Option<&'a Term<A>>
        ensures { MatchOption result (IsSimple (operand_datum self.entry))
            (λ t. t.now ≡ operand_datum self.entry) }
    {
        match self {
            Operand::Term(term) => Some(term),
            Operand::Rest(list, count) => whole_after(list, count),
            Operand::Int(_) | Operand::Bool(_) => None,
        }
    }

    /// Returns the term that the operand represents. Copies a borrowed term. Fails if an allocation or a copy fails.
    pub fn to_term(self, alloc: A) -> Result<Term<A>, AllocError>
    where
        A: Copy,
        ensures { IfOk result (λ t. t ≡ operand_datum self.entry) }
    {
        match self {
            Operand::Term(term) => term.copy(),
            Operand::Rest(list, count) => copy_rest(alloc, list, count),
            Operand::Int(value) => Ok(Term::int(value)),
            Operand::Bool(value) => boolean_term(alloc, value),
        }
    }
}
