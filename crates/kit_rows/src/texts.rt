//! A text, in pieces that may be repeated, so that long texts are short rows.
//!
//! A text is a list of pieces: the number of a character; a string; a binary of bytes; `{Count,Piece}` for a string or
//! binary that is repeated; or `{First,Count,Before,After}` for ascending numbers from `First`, each between two
//! strings. So a string is a text too. The bytes of a text may spell terms.
use crate::parts::{elements, fields, number};
use std::alloc::Allocator;
use term_core::{Term, View};
use term_text::read_terms;

/// Returns the character with this number, or `None` if the term is not one.
fn character<A: Allocator>(term: &Term<A>) -> Option<char> {
    char::from_u32(number(term)?)
}

/// Returns the text of the characters with these numbers.
fn string<A: Allocator + Copy>(heap: A, numbers: &[Term<A>]) -> Option<String<A>> {
    let mut text = String::new(heap);
    for number in numbers {
        text.push(character(number)?).ok()?;
    }
    Some(text)
}

/// Returns the bytes of a string or a binary.
fn plain_text<A: Allocator + Copy>(heap: A, text: &Term<A>) -> Option<Vec<u8, A>> {
    match text.view() {
        View::Binary(bytes) => Vec::from_slice(heap, bytes).ok(),
        _ => Some(string(heap, elements(text)?)?.into_bytes()),
    }
}

/// Appends a text `count` times.
fn push_repeated<A: Allocator>(out: &mut Vec<u8, A>, count: u32, unit: &[u8]) -> Option<()> {
    for _ in 0..count {
        out.extend_from_slice(unit).ok()?;
    }
    Some(())
}

/// Appends the text of a term `count` times.
fn push_unit<A: Allocator + Copy>(
    heap: A,
    out: &mut Vec<u8, A>,
    count: u32,
    unit: &Term<A>,
) -> Option<()> {
    let unit = plain_text(heap, unit)?;
    push_repeated(out, count, unit.as_slice())
}

/// Appends the decimal digits of a number.
fn push_digits<A: Allocator + Copy>(heap: A, out: &mut Vec<u8, A>, number: u32) -> Option<()> {
    let digits = number.to_string(heap).ok()?;
    out.extend_from_slice(digits.as_bytes()).ok()
}

/// Appends `count` ascending numbers from `first`, each between these texts.
fn push_numbers<A: Allocator + Copy>(
    heap: A,
    out: &mut Vec<u8, A>,
    first: u32,
    count: u32,
    before: &[u8],
    after: &[u8],
) -> Option<()> {
    for number in first..first.saturating_add(count) {
        out.extend_from_slice(before).ok()?;
        push_digits(heap, out, number)?;
        out.extend_from_slice(after).ok()?;
    }
    Some(())
}

/// Appends `count` ascending numbers from `first`, each between the texts of two terms.
fn push_numbers_between<A: Allocator + Copy>(
    heap: A,
    out: &mut Vec<u8, A>,
    first: u32,
    count: u32,
    before: &Term<A>,
    after: &Term<A>,
) -> Option<()> {
    let (before, after) = plain_text(heap, before).zip(plain_text(heap, after))?;
    push_numbers(heap, out, first, count, before.as_slice(), after.as_slice())
}

/// Appends a character.
fn push_character<A: Allocator + Copy>(
    heap: A,
    out: &mut Vec<u8, A>,
    character: char,
) -> Option<()> {
    let mut text = String::new(heap);
    text.push(character).ok()?;
    out.extend_from_slice(text.as_bytes()).ok()
}

/// Appends a piece of a text that is a tuple: a repeated text or ascending numbers.
fn push_many<A: Allocator + Copy>(heap: A, out: &mut Vec<u8, A>, piece: &[Term<A>]) -> Option<()> {
    match piece {
        [count, unit] => push_unit(heap, out, number(count)?, unit),
        [first, count, before, after] => {
            push_numbers_between(heap, out, number(first)?, number(count)?, before, after)
        }
        _ => None,
    }
}

/// Appends a string or a binary.
fn push_plain<A: Allocator + Copy>(heap: A, out: &mut Vec<u8, A>, text: &Term<A>) -> Option<()> {
    let text = plain_text(heap, text)?;
    out.extend_from_slice(text.as_slice()).ok()
}

/// Appends a piece of a text.
fn push_piece<A: Allocator + Copy>(heap: A, out: &mut Vec<u8, A>, piece: &Term<A>) -> Option<()> {
    if let Some(character) = character(piece) {
        return push_character(heap, out, character);
    }
    match fields(piece) {
        Some(piece) => push_many(heap, out, piece),
        None => push_plain(heap, out, piece),
    }
}

/// Appends each of these pieces.
fn push_pieces<A: Allocator + Copy>(
    heap: A,
    out: &mut Vec<u8, A>,
    pieces: &[Term<A>],
) -> Option<()> {
    for piece in pieces {
        push_piece(heap, out, piece)?;
    }
    Some(())
}

/// Returns the bytes of a text in pieces, or `None` if it is none or memory runs out.
pub fn text<A: Allocator + Copy>(heap: A, pieces: &Term<A>) -> Option<Vec<u8, A>> {
    let pieces = elements(pieces)?;
    let mut out = Vec::new(heap);
    match push_pieces(heap, &mut out, pieces) {
        Some(()) => Some(out),
        None => None,
    }
}

/// Returns the last term of a text, which should be its only one, or `None` if the text can't be read or has no term.
pub fn term_of<A: Allocator + Copy>(heap: A, text: &[u8]) -> Option<Term<A>> {
    let Ok(mut terms) = read_terms(heap, text) else {
        return None;
    };
    let term = terms.pop();
    drop(terms);
    term
}
