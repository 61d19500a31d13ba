//! Equality of terms.
ghost use Rattle.std.specs.Prelude.{◌≡◌, length, take, IfSome};
ghost use Rattle.std.specs.Ordering.{int_cmp, is_eq};
ghost use Rattle.term_core.specs.Datum.{items_of};
ghost use Rattle.term_core.specs.Datum.Datum.{atom, tuple};
ghost use Rattle.term_core.specs.Order.{is_same};
ghost use Rattle.std.specs.Str.{chars};
ghost use Rattle.term_core.specs.Term.{datum_of, IsKept, IsShortText};

use super::{SHORT, Shape, Term};
use crate::order::{compare, compare_integers};
use crate::view::View;
use std::alloc::Allocator;

/// Returns whether two integers are equal.
#[inline(always)]
fn same_integers(a: i64, b: i64) -> bool
    ensures { result ≡ is_eq (int_cmp a b) }
{
    compare_integers(a, b).is_eq()
}

/// Returns whether two atoms that are in their terms are equal: each is the first `count` or `of` bytes of its row.
#[inline(always)]
fn same_short(count: u8, bytes: [u8; SHORT], of: u8, others: [u8; SHORT]) -> bool
    requires left { IsShortText count bytes }
    requires right { IsShortText of others }
    ensures { result ≡ is_same (atom (chars (take count bytes))) (atom (chars (take of others))) }
{
    if count != of {
        return false;
    }
    bytes.as_slice() == others.as_slice()
}

/// Returns whether two atoms are equal, if one of them is in its term. Returns `None` for all other pairs of terms.
#[inline(always)]
fn same_atoms<A: Allocator>(a: &Shape<A>, b: &Shape<A>) -> Option<bool>
    requires a { IsKept a.now }
    requires b { IsKept b.now }
    ensures { IfSome result (λ same. same ≡ is_same (datum_of a.now) (datum_of b.now)) }
{
    match (a, b) {
        (Shape::ShortAtom(count, left), Shape::ShortAtom(of, right)) => {
            Some(same_short(*count, *left, *of, *right))
        }
        (Shape::ShortAtom(_, _), Shape::MiddleAtom(_, _)) => Some(false),
        (Shape::MiddleAtom(_, _), Shape::ShortAtom(_, _)) => Some(false),
        (Shape::ShortAtom(_, _), Shape::Atom(_)) => Some(false),
        (Shape::Atom(_), Shape::ShortAtom(_, _)) => Some(false),
        _ => None,
    }
}

/// Returns whether two terms are equal. Two integers are compared without a call, short atoms where they are stored,
/// and tuples from the last element to the first.
#[inline(always)]
#[cycle(same)]
pub fn is_same<A: Allocator>(a: &Term<A>, b: &Term<A>) -> bool
    ensures { result ≡ is_same a.now b.now }
{
    match (&a.shape, &b.shape) {
        (Shape::Integer(left), Shape::Integer(right)) => same_integers(*left, *right),
        _ => is_same_within(a, b),
    }
}

/// Returns whether two terms are equal, by comparing their content.
#[inline(never)]
#[cycle(same)]
fn is_same_within<A: Allocator>(a: &Term<A>, b: &Term<A>) -> bool
    ensures { result ≡ is_same a.now b.now }
{
    if let View::Tuple(left) = a.view() {
        if let View::Tuple(right) = b.view() {
            return same_tuples(left, right);
        }
    }
    match same_atoms(&a.shape, &b.shape) {
        Some(same) => same,
        None => compare(a, b).is_eq(),
    }
}

/// Returns whether two tuples are equal.
#[cycle(same)]
fn same_tuples<A: Allocator>(a: &[Term<A>], b: &[Term<A>]) -> bool
    ensures { result ≡ is_same (tuple (items_of a.now)) (tuple (items_of b.now)) }
{
    if a.len() != b.len() {
        return false;
    }
    same_items(a, b)
}

/// Returns whether two tuples of the same size are equal, comparing from the last element. Elements at the end differ
/// most often, since tuples in a table that are compared tend to have the same key.
#[cycle(same)]
fn same_items<A: Allocator>(a: &[Term<A>], b: &[Term<A>]) -> bool
    requires { length a.now ≡ length b.now }
    ensures { result ≡ is_same (tuple (items_of a.now)) (tuple (items_of b.now)) }
{
    for i in (0..a.len()).rev() {
        if !is_same(&a[i], &b[i]) {
            return false;
        }
    }
    true
}
