//! Feeding a term to a hasher, part by part.
ghost use Rattle.std.specs.Prelude.{◌≡◌, ◌<◌, ◌++◌, length};
ghost use Rattle.std.specs.Option.{option_copied};
ghost use Rattle.std.specs.Hash as fed;
ghost use Rattle.std.specs.Str.{chars};
ghost use Rattle.term_core.specs.Datum.{items_of, entries_of, cells};
ghost use Rattle.term_core.specs.Datum.Datum.{atom, tuple, map, binary};
ghost use Rattle.term_core.specs.Fed.{Feeds, kind_word, characters_fed, term_fed, items_fed, entries_fed};
ghost use Rattle.term_core.specs.Term.{tail_of, IsTail};

use crate::term::{Term, text_length};
use crate::view::View;
use std::alloc::Allocator;
use std::hash::{Hash, Hasher};

/// Returns one word, modulo 2^64, of the number of a kind and a count of parts.
fn kind_word(kind: u64, count: usize) -> u64
    ensures { result ≡ kind_word kind count }
{
    (count as u64).wrapping_mul(8).wrapping_add(kind)
}

fn feed_kind<H: Hasher>(kind: u64, count: usize, state: &mut H)
    ensures { Feeds H.write state.old state.new (λ rest. fed.u64 (kind_word kind count) ++ rest) }
{
    state.write_u64(kind_word(kind, count));
}

fn feed_characters<H: Hasher>(text: &str, state: &mut H)
    ensures { Feeds H.write state.old state.new (characters_fed (chars text.now)) }
{
    for character in text.chars() {
        state.write_u32(u32::from(character));
    }
}

fn feed_atom<H: Hasher>(text: &str, state: &mut H)
    ensures { Feeds H.write state.old state.new (term_fed (atom (chars text.now))) }
{
    feed_kind(1, text_length(text), state);
    feed_characters(text, state);
}

fn feed_binary<H: Hasher>(bytes: &[u8], state: &mut H)
    ensures { Feeds H.write state.old state.new (term_fed (binary bytes.now)) }
{
    feed_kind(6, bytes.len(), state);
    state.write(bytes);
}

/// Feeds a term to the hasher.
#[cycle(feed)]
#[tactic(auto, unfolding(crate::specs::Fed::term_fed))]
fn feed<A: Allocator, H: Hasher>(term: &Term<A>, state: &mut H)
    ensures { Feeds H.write state.old state.new (term_fed term.now) }
{
    match term.view() {
        View::Integer(value) => state.write_i64(value),
        View::Atom(text) => feed_atom(text, state),
        View::Tuple(elements) => feed_tuple(elements, state),
        View::Map(pairs) => feed_map(pairs, state),
        View::Nil => feed_kind(4, 0, state),
        View::List(elements, tail) => feed_list(elements, tail, state),
        View::Binary(bytes) => feed_binary(bytes, state),
    }
}

#[cycle(feed)]
#[tactic(auto, unfolding(crate::specs::Fed::term_fed))]
fn feed_elements<A: Allocator, H: Hasher>(elements: &[Term<A>], state: &mut H)
    ensures { Feeds H.write state.old state.new (items_fed (items_of elements.now)) }
{
    for i in 0..elements.len() {
        feed(&elements[i], state);
    }
}

#[cycle(feed)]
#[tactic(auto, unfolding(crate::specs::Fed::term_fed))]
fn feed_tuple<A: Allocator, H: Hasher>(elements: &[Term<A>], state: &mut H)
    ensures { Feeds H.write state.old state.new (term_fed (tuple (items_of elements.now))) }
{
    feed_kind(2, elements.len(), state);
    feed_elements(elements, state);
}

/// Feeds a key and then its value to the hasher.
#[cycle(feed)]
#[tactic(auto, unfolding(crate::specs::Fed::term_fed))]
fn feed_pair<A: Allocator, H: Hasher>(pair: &(Term<A>, Term<A>), state: &mut H)
    ensures { Feeds H.write state.old state.new (λ rest. term_fed pair.now.0 (term_fed pair.now.1 rest)) }
{
    feed(&pair.0, state);
    feed(&pair.1, state);
}

#[cycle(feed)]
#[tactic(auto, unfolding(crate::specs::Fed::term_fed))]
fn feed_pairs<A: Allocator, H: Hasher>(pairs: &[(Term<A>, Term<A>)], state: &mut H)
    ensures { Feeds H.write state.old state.new (entries_fed (entries_of pairs.now)) }
{
    for i in 0..pairs.len() {
        feed_pair(&pairs[i], state);
    }
}

#[cycle(feed)]
#[tactic(auto, unfolding(crate::specs::Fed::term_fed))]
fn feed_map<A: Allocator, H: Hasher>(pairs: &[(Term<A>, Term<A>)], state: &mut H)
    ensures { Feeds H.write state.old state.new (term_fed (map (entries_of pairs.now))) }
{
    feed_kind(3, pairs.len(), state);
    feed_pairs(pairs, state);
}

/// Feeds a list to the hasher: its kind and its number of elements, the elements, and the tail. There is at least one
/// element.
#[cycle(feed)]
#[tactic(auto, unfolding(crate::specs::Fed::term_fed))]
fn feed_list<A: Allocator, H: Hasher>(elements: &[Term<A>], tail: Option<&Term<A>>, state: &mut H)
    requires some { 0 < length elements.now }
    requires tail { IsTail (option_copied tail) }
    ensures { Feeds H.write state.old state.new
        (term_fed (cells elements.now (tail_of (option_copied tail.entry)))) }
{
    feed_kind(5, elements.len(), state);
    feed_elements(elements, state);
    feed_tail(tail, state);
}

/// Feeds the tail of a list to the hasher; no tail is fed as `[]`.
#[cycle(feed)]
#[tactic(auto, unfolding(crate::specs::Fed::term_fed))]
fn feed_tail<A: Allocator, H: Hasher>(tail: Option<&Term<A>>, state: &mut H)
    requires { IsTail (option_copied tail) }
    ensures { Feeds H.write state.old state.new (term_fed (tail_of (option_copied tail.entry))) }
{
    match tail {
        None => feed_kind(4, 0, state),
        Some(tail) => feed(tail, state),
    }
}

impl<A: Allocator> Hash for Term<A> {
    ghost use Rattle.std.specs.Prelude.{[]};
    ghost use Rattle.term_core.specs.Fed.{term_fed};
    ghost use Rattle.term_core.specs.OrderLaws.{datum_eq-same};
    ghost use Rattle.std.proofs.Common.{ap};

    ghost hash_input = { λ d. term_fed d [] };

    ghost respects_eq = { λ a b same. ap (λ d. term_fed d []) (datum_eq-same a b same) };

    fn hash<H: Hasher>(&self, state: &mut H) {
        feed(self, state);
    }
}
