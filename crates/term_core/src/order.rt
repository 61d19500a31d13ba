//! The order of terms, and equality and hashing by it.
ghost use Rattle.std.specs.Prelude.{◌≡◌, length};
ghost use Rattle.std.specs.Option.{option_copied};
ghost use Rattle.std.specs.Cmp.Lexicographic.{slice_cmp};
ghost use Rattle.std.specs.Ordering.{int_cmp, nat_cmp};
ghost use Rattle.std.specs.Str.{chars};
ghost use Rattle.term_core.specs.Datum.{items_of, entries_of, cells};
ghost use Rattle.term_core.specs.Datum.Datum.{tuple, map};
ghost use Rattle.term_core.specs.Order.{rank as rank_of, datum_cmp, items_cmp, keys_cmp, values_cmp};
ghost use Rattle.term_core.specs.Term.{tail_of, IsTail};

use crate::term::{Term, is_same};
use crate::view::{LIST_RANK, NIL_RANK, View};
use std::alloc::Allocator;
use std::cmp::Ordering;

/// Returns the rank of a term's kind in the order of kinds, from 0 to 6.
#[inline(always)]
fn rank<A: Allocator>(term: &Term<A>) -> u8
    ensures { result ≡ rank_of term.now }
{
    term.view().rank()
}

/// Returns the rank of the kind of a list's tail; no tail has the rank of `[]`.
fn tail_rank<A: Allocator>(tail: Option<&Term<A>>) -> u8
    ensures { result ≡ rank_of (tail_of (option_copied tail.entry)) }
{
    match tail {
        None => NIL_RANK,
        Some(tail) => rank(tail),
    }
}

/// Compares two integers by value.
pub(crate) fn compare_integers(a: i64, b: i64) -> Ordering
    ensures { result ≡ int_cmp a b }
{
    a.cmp(&b)
}

/// Compares two texts by their characters, from the left. UTF-8 has the same order by its bytes.
pub fn compare_texts(a: &str, b: &str) -> Ordering
    ensures { result ≡ slice_cmp nat_cmp (chars a.now) (chars b.now) }
{
    a.cmp(b)
}

/// Compares two terms in the order of terms.
#[cycle(compare)]
pub(crate) fn compare<A: Allocator>(a: &Term<A>, b: &Term<A>) -> Ordering
    ensures { result ≡ datum_cmp a.now b.now }
{
    match rank(a).cmp(&rank(b)) {
        Ordering::Equal => compare_alike(a, b),
        kinds => kinds,
    }
}

/// Compares two terms of the same kind.
#[cycle(compare)]
fn compare_alike<A: Allocator>(a: &Term<A>, b: &Term<A>) -> Ordering
    requires { rank_of a.now ≡ rank_of b.now }
    ensures { result ≡ datum_cmp a.now b.now }
{
    match (a.view(), b.view()) {
        (View::Integer(a), View::Integer(b)) => compare_integers(a, b),
        (View::Atom(a), View::Atom(b)) => compare_texts(a, b),
        (View::Tuple(a), View::Tuple(b)) => compare_tuples(a, b),
        (View::Map(a), View::Map(b)) => compare_maps(a, b),
        (View::List(a, a_tail), View::List(b, b_tail)) => compare_lists(a, a_tail, b, b_tail),
        (View::Binary(a), View::Binary(b)) => a.cmp(b),
        _ => Ordering::Equal,
    }
}

/// Compares two tuples: by size, then by elements.
#[cycle(compare)]
fn compare_tuples<A: Allocator>(a: &[Term<A>], b: &[Term<A>]) -> Ordering
    ensures { result ≡ datum_cmp (tuple (items_of a.now)) (tuple (items_of b.now)) }
{
    match a.len().cmp(&b.len()) {
        Ordering::Equal => compare_items(a, b),
        sizes => sizes,
    }
}

/// Compares two equally long rows of terms from the left: the first elements that differ decide.
#[cycle(compare)]
fn compare_items<A: Allocator>(a: &[Term<A>], b: &[Term<A>]) -> Ordering
    requires { length a.now ≡ length b.now }
    ensures { result ≡ items_cmp (items_of a.now) (items_of b.now) }
{
    for i in 0..a.len() {
        match compare(&a[i], &b[i]) {
            Ordering::Equal => {}
            order => return order,
        }
    }
    Ordering::Equal
}

/// Compares two maps: by size, then by keys, then by values.
#[cycle(compare)]
fn compare_maps<A: Allocator>(a: &[(Term<A>, Term<A>)], b: &[(Term<A>, Term<A>)]) -> Ordering
    ensures { result ≡ datum_cmp (map (entries_of a.now)) (map (entries_of b.now)) }
{
    match a.len().cmp(&b.len()) {
        Ordering::Equal => compare_entries(a, b),
        sizes => sizes,
    }
}

/// Compares two maps of the same size: by keys, then by values.
#[cycle(compare)]
fn compare_entries<A: Allocator>(a: &[(Term<A>, Term<A>)], b: &[(Term<A>, Term<A>)]) -> Ordering
    requires { length a.now ≡ length b.now }
    ensures { result ≡ datum_cmp (map (entries_of a.now)) (map (entries_of b.now)) }
{
    match compare_keys(a, b) {
        Ordering::Equal => compare_values(a, b),
        keys => keys,
    }
}

/// Compares the keys of two equally long rows of pairs from the left.
#[cycle(compare)]
fn compare_keys<A: Allocator>(a: &[(Term<A>, Term<A>)], b: &[(Term<A>, Term<A>)]) -> Ordering
    requires { length a.now ≡ length b.now }
    ensures { result ≡ keys_cmp (entries_of a.now) (entries_of b.now) }
{
    for i in 0..a.len() {
        match compare(&a[i].0, &b[i].0) {
            Ordering::Equal => {}
            order => return order,
        }
    }
    Ordering::Equal
}

/// Compares the values of two equally long rows of pairs from the left.
#[cycle(compare)]
fn compare_values<A: Allocator>(a: &[(Term<A>, Term<A>)], b: &[(Term<A>, Term<A>)]) -> Ordering
    requires { length a.now ≡ length b.now }
    ensures { result ≡ values_cmp (entries_of a.now) (entries_of b.now) }
{
    for i in 0..a.len() {
        match compare(&a[i].1, &b[i].1) {
            Ordering::Equal => {}
            order => return order,
        }
    }
    Ordering::Equal
}

/// Compares two lists, each given by its elements and its tail.
#[cycle(compare)]
fn compare_lists<A: Allocator>(
    a: &[Term<A>],
    a_tail: Option<&Term<A>>,
    b: &[Term<A>],
    b_tail: Option<&Term<A>>,
) -> Ordering
    requires a_tail { IsTail (option_copied a_tail) }
    requires b_tail { IsTail (option_copied b_tail) }
    ensures { result ≡ datum_cmp (cells a.now (tail_of (option_copied a_tail.entry)))
        (cells b.now (tail_of (option_copied b_tail.entry))) }
{
    let shared = a.len().min(b.len());
    for i in 0..shared {
        match compare(&a[i], &b[i]) {
            Ordering::Equal => {}
            order => return order,
        }
    }
    if shared < b.len() {
        return tail_rank(a_tail).cmp(&LIST_RANK);
    }
    if shared < a.len() {
        return LIST_RANK.cmp(&tail_rank(b_tail));
    }
    compare_tails(a_tail, b_tail)
}

/// Compares the tails of two lists; no tail counts as `[]`.
#[cycle(compare)]
fn compare_tails<A: Allocator>(a: Option<&Term<A>>, b: Option<&Term<A>>) -> Ordering
    requires a { IsTail (option_copied a) }
    requires b { IsTail (option_copied b) }
    ensures { result ≡ datum_cmp (tail_of (option_copied a.entry))
        (tail_of (option_copied b.entry)) }
{
    match (a, b) {
        (None, b) => NIL_RANK.cmp(&tail_rank(b)),
        (Some(a), None) => rank(a).cmp(&NIL_RANK),
        (Some(a), Some(b)) => compare(a, b),
    }
}

impl<A: Allocator> PartialEq for Term<A> {
    ghost use Rattle.std.specs.Ordering.{eq_by_cmp};
    ghost use Rattle.std.specs.Cmp.{partial_equiv_from_equiv, eq_by_cmp_equiv};
    ghost use Rattle.term_core.specs.Order.{datum_cmp};
    ghost use Rattle.term_core.specs.OrderLaws.{datum_cmp_total};

    ghost eq = { eq_by_cmp datum_cmp };

    ghost laws = { partial_equiv_from_equiv (eq_by_cmp_equiv datum_cmp_total) };

    fn eq(&self, other: &Self) -> bool {
        is_same(self, other)
    }
}

impl<A: Allocator> Eq for Term<A> {
    ghost use Rattle.std.specs.Cmp.{eq_by_cmp_equiv};
    ghost use Rattle.term_core.specs.OrderLaws.{datum_cmp_total};

    ghost laws = { eq_by_cmp_equiv datum_cmp_total };
}

/// Compares two terms in the order of terms. Two integers are compared without looking at kinds.
#[inline(always)]
fn order_of<A: Allocator>(a: &Term<A>, b: &Term<A>) -> Ordering
    ensures { result ≡ datum_cmp a.now b.now }
{
    if let View::Integer(left) = a.view() {
        if let View::Integer(right) = b.view() {
            return compare_integers(left, right);
        }
    }
    compare(a, b)
}

impl<A: Allocator> Ord for Term<A> {
    ghost use Rattle.std.proofs.Common.{refl};
    ghost use Rattle.term_core.specs.Order.{datum_cmp};
    ghost use Rattle.term_core.specs.OrderLaws.{datum_cmp_total};

    ghost cmp = { datum_cmp };

    ghost total = { datum_cmp_total };

    ghost matches_partial_cmp = { λ a b. refl };

    ghost matches_eq = { λ a b. refl };

    fn cmp(&self, other: &Self) -> Ordering {
        order_of(self, other)
    }
}

impl<A: Allocator> PartialOrd for Term<A> {
    ghost use Rattle.std.proofs.Common.{refl};
    ghost use Rattle.std.specs.Cmp.{po};
    ghost use Rattle.std.specs.Ordering.{as_partial_cmp};
    ghost use Rattle.term_core.specs.Order.{datum_cmp};
    ghost use Rattle.term_core.specs.OrderLaws.{datum_cmp_total};

    ghost partial_cmp = { as_partial_cmp datum_cmp };

    ghost laws = { po datum_cmp_total (λ a b. refl) };

    fn partial_cmp(&self, other: &Self) -> Option<Ordering> {
        Some(compare(self, other))
    }
}
