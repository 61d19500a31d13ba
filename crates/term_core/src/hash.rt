//! The hash of a term as a key.
ghost use Rattle.std.specs.Prelude.{◌≡◌, ◌<◌, length};
ghost use Rattle.std.specs.Int.{w64, cast_unsigned};
ghost use Rattle.std.specs.Option.{option_copied};
ghost use Rattle.std.specs.Str.{chars};
ghost use Rattle.term_core.specs.Datum.{items_of, entries_of, cells};
ghost use Rattle.term_core.specs.KeyHash.{mix as mix_of, mix_all, key_hash, mix_items, mix_entries, mix_cells};
ghost use Rattle.term_core.specs.Term.{tail_of, IsTail};

use crate::term::Term;
use crate::view::View;
use std::alloc::Allocator;

/// The number by which a hash is multiplied before a part is mixed in.
const FACTOR: u64 = 1_099_511_628_211;

/// Returns a hash with one more part mixed in, modulo 2^64.
fn mix(hash: u64, part: u64) -> u64
    ensures { result ≡ mix_of hash part }
{
    hash.wrapping_mul(FACTOR).wrapping_add(part)
}

fn mix_characters(hash: u64, text: &str) -> u64
    ensures { result ≡ mix_all hash (chars text.now) }
{
    let mut mixed = hash;
    for character in text.chars() {
        mixed = mix(mixed, u64::from(character));
    }
    mixed
}

fn mix_bytes(hash: u64, bytes: &[u8]) -> u64
    ensures { result ≡ mix_all hash bytes.now }
{
    let mut mixed = hash;
    for byte in bytes {
        mixed = mix(mixed, u64::from(*byte));
    }
    mixed
}

fn hash_of_integer(value: i64) -> u64
    ensures { result ≡ cast_unsigned w64 value }
{
    value.cast_unsigned()
}

/// Returns the hash of a term as a key.
#[cycle(hash)]
#[tactic(auto, unfolding(crate::specs::KeyHash::key_hash))]
pub(crate) fn hash_of<A: Allocator>(term: &Term<A>) -> u64
    ensures { result ≡ key_hash term.now }
{
    match term.view() {
        View::Integer(value) => hash_of_integer(value),
        View::Atom(text) => mix_characters(1, text),
        View::Tuple(elements) => mix_elements(2, elements),
        View::Map(pairs) => mix_pairs(3, pairs),
        View::Nil => 4,
        View::List(elements, tail) => mix_list(elements, tail),
        View::Binary(bytes) => mix_bytes(6, bytes),
    }
}

#[cycle(hash)]
#[tactic(auto, unfolding(crate::specs::KeyHash::key_hash))]
fn mix_elements<A: Allocator>(hash: u64, elements: &[Term<A>]) -> u64
    ensures { result ≡ mix_items hash (items_of elements.now) }
{
    let mut mixed = hash;
    for i in 0..elements.len() {
        mixed = mix(mixed, hash_of(&elements[i]));
    }
    mixed
}

#[cycle(hash)]
#[tactic(auto, unfolding(crate::specs::KeyHash::key_hash))]
fn mix_pairs<A: Allocator>(hash: u64, pairs: &[(Term<A>, Term<A>)]) -> u64
    ensures { result ≡ mix_entries hash (entries_of pairs.now) }
{
    let mut mixed = hash;
    for i in 0..pairs.len() {
        let key = hash_of(&pairs[i].0);
        let value = hash_of(&pairs[i].1);
        mixed = mix(mix(mixed, key), value);
    }
    mixed
}

/// Returns the hash of a list with these elements and this tail. There is at least one element.
#[cycle(hash)]
#[tactic(auto, unfolding(crate::specs::KeyHash::key_hash))]
fn mix_list<A: Allocator>(elements: &[Term<A>], tail: Option<&Term<A>>) -> u64
    requires some { 0 < length elements.now }
    requires tail { IsTail (option_copied tail) }
    ensures { result ≡ key_hash (cells elements.now (tail_of (option_copied tail.entry))) }
{
    mix(mix_elements(5, elements), hash_of_tail(tail))
}

/// Returns the hash of the tail of a list; no tail has the hash of `[]`.
#[cycle(hash)]
#[tactic(auto, unfolding(crate::specs::KeyHash::key_hash))]
fn hash_of_tail<A: Allocator>(tail: Option<&Term<A>>) -> u64
    requires { IsTail (option_copied tail) }
    ensures { result ≡ key_hash (tail_of (option_copied tail.entry)) }
{
    match tail {
        None => 4,
        Some(tail) => hash_of(tail),
    }
}

impl<A: Allocator> Term<A> {
    /// Returns the hash of the term as a key, a number modulo 2^64. Equal terms have equal hashes.
    pub fn key_hash(&self) -> u64
        ensures { result ≡ key_hash self.now }
    {
        hash_of(self)
    }
}
