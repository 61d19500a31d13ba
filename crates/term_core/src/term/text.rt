//! Atoms, made from text.
ghost use Rattle.std.specs.Prelude.{◌≡◌, nat_le, length, IfOk, IfErr};
ghost use Rattle.std.specs.Str.{chars};
ghost use Rattle.std.specs.String.{string_bytes};
ghost use Rattle.term_core.specs.Datum.Datum.{atom};
ghost use Rattle.term_core.specs.Fault.{IsFault};
ghost use Rattle.term_core.specs.Limits.{AreScalars};
ghost use Rattle.term_core.specs.Term.{datum_of, IsKept};

use super::bytes::row_of;
use super::{MIDDLE, SHORT, Shape, Term, shared};
use crate::MAX_CHARACTERS;
use crate::fault::Fault;
use std::alloc::{AllocError, Allocator};

/// Returns the number of characters of a text.
#[tactic(auto, using(std::proofs::lemmas::Str::chars_from_encodes))]
pub(crate) fn text_length(text: &str) -> usize
    ensures { result ≡ length (chars text.now) }
{
    text.chars().count()
}

/// Returns whether an atom of this text is within its limit. A text has at least as many bytes as characters.
fn is_within(text: &str) -> bool
    ensures { result ≡ nat_le (length (chars text.now)) MAX_CHARACTERS }
{
    if text.len() <= MAX_CHARACTERS {
        return true;
    }
    text_length(text) <= MAX_CHARACTERS
}

/// Makes the shape of the atom of this text, in the smallest form that has room for it. Fails if an allocation fails.
fn atom_shape<A: Allocator + Copy>(alloc: A, text: &str) -> Result<Shape<A>, AllocError>
    ensures value { IfOk result (λ s. datum_of s ≡ atom (chars text.now)) }
    ensures kept { IfOk result (λ s. IsKept s) }
{
    let count = text.len();
    if count <= SHORT {
        return Ok(Shape::ShortAtom(count as u8, row_of(text.as_bytes())));
    }
    if count <= MIDDLE {
        return match shared(alloc, row_of(text.as_bytes())) {
            Ok(row) => Ok(Shape::MiddleAtom(count as u8, row)),
            Err(_) => Err(AllocError),
        };
    }
    match shared(alloc, String::from_str(alloc, text)?) {
        Ok(text) => Ok(Shape::Atom(text)),
        Err(_) => Err(AllocError),
    }
}

/// Returns the number of characters.
fn character_count(characters: &[char]) -> usize
    ensures count { result ≡ length characters.now }
    ensures sound { AreScalars characters.now }
{
    let mut count = 0;
    for character in characters {
        // The proof needs this read: it shows that the character is a Unicode scalar value.
        let _read = *character;
        count += 1;
    }
    count
}

/// Returns the text of these characters. Fails if an allocation fails.
fn text_of<A: Allocator>(alloc: A, characters: &[char]) -> Result<String<A>, AllocError>
    ensures { IfOk result (λ text. chars (string_bytes text) ≡ characters.now) }
{
    let mut text = String::new(alloc);
    for character in characters {
        text.push(*character)?;
    }
    Ok(text)
}

impl<A: Allocator + Copy> Term<A> {
    /// Makes the atom of this text's characters. Fails if there are more than `MAX_CHARACTERS`, or if an allocation
    /// fails.
    pub fn atom(alloc: A, text: &str) -> Result<Self, Fault>
        ensures ok { IfOk result (λ t. t ≡ atom (chars text.now)) }
        ensures refused { IfErr result (λ fault. IsFault fault (atom (chars text.now))) }
    {
        if !is_within(text) {
            return Err(Fault::TooLong);
        }
        match atom_shape(alloc, text) {
            Ok(shape) => Ok(Term { shape }),
            Err(AllocError) => Err(Fault::Memory),
        }
    }

    /// Makes the atom of these characters. Fails if there are more than `MAX_CHARACTERS`, or if an allocation fails.
    pub fn from_characters(alloc: A, characters: &[char]) -> Result<Self, Fault>
        ensures ok { IfOk result (λ t. t ≡ atom characters.now) }
        ensures refused { IfErr result (λ fault. IsFault fault (atom characters.now)) }
    {
        if character_count(characters) > MAX_CHARACTERS {
            return Err(Fault::TooLong);
        }
        match text_of(alloc, characters) {
            Ok(text) => Term::atom(alloc, text.as_str()),
            Err(AllocError) => Err(Fault::Memory),
        }
    }
}
