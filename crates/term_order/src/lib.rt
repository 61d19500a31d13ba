//! The order of terms and the hash of keys, as functions of terms.
//!
//! `compare` returns the order that `IsBelow` defines (`specs/` of `term_core`, `Order.antt`); `order_is_total` proves
//! that it is a total order. `is_key_above` returns whether a key may follow pairs in ascending key order
//! (`specs/Keys.antt`). `key_hash` returns the hash that `KeyHash.antt` of `term_core` defines.
#![tactic(auto)]

ghost use Rattle.std.specs.Prelude.{◌≡◌, ◌↔◌, IsTrue};
ghost use Rattle.std.specs.Ordering.{MatchOrdering};
ghost use Rattle.term_core.specs.KeyHash.{key_hash};
ghost use Rattle.term_core.specs.Order.{IsBelow, datum_cmp};
ghost use Rattle.term_order.specs.Keys.{IsAboveKeys};
ghost use Rattle.term_order.specs.Laws.{IsTotal};

use std::alloc::Allocator;
use std::cmp::Ordering;
use term_core::Term;

/// Compares two terms: number < atom < tuple < map < `[]` < non-empty list < binary. Integers compare by value, atoms
/// by characters, tuples by size and elements, maps by size, keys and values, lists by head and tail, binaries by
/// bytes. (Erlang Reference Manual, "Term Comparisons".) Does not allocate, and takes time linear in the smaller term.
pub fn compare<A: Allocator>(a: &Term<A>, b: &Term<A>) -> Ordering
    ensures order { MatchOrdering result (IsBelow a.now b.now) (a.now ≡ b.now)
        (IsBelow b.now a.now) }
    ensures value { result ≡ datum_cmp a.now b.now }
{
    a.cmp(b)
}

/// Returns whether a key is above the key of the last of these pairs, or there are no pairs. Does not allocate, and
/// takes time linear in the smaller of the two keys.
pub fn is_key_above<A: Allocator>(before: &[(Term<A>, Term<A>)], key: &Term<A>) -> bool
    ensures { IsTrue result ↔ IsAboveKeys before.now key.now }
{
    match before.last() {
        Some(last) => last.0 < *key,
        None => true,
    }
}

/// Returns the hash of a key, a number modulo 2^64, which decides in which part and slot of a table the key is. Does
/// not allocate, and takes time linear in the term.
pub fn key_hash<A: Allocator>(term: &Term<A>) -> u64
    ensures { result ≡ key_hash term.now }
{
    term.key_hash()
}

/// Proves that the order of terms is total and distinguishes all terms.
pub fn order_is_total()
    ensures { IsTotal }
{}
