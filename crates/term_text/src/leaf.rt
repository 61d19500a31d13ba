//! Reading terms without parts: integers, atoms and binaries.
ghost use Rattle.std.specs.Prelude.{◌≡◌, true, [], ◌++◌, None, IfOk, IfSome, Ok};
ghost use Rattle.std.specs.List.{AllByRecursion};
ghost use Rattle.std.specs.Char.{is_ascii_digit};
ghost use Rattle.std.specs.Str.{chars};
ghost use Rattle.term_core.specs.Datum.Datum.{atom, binary};
ghost use Rattle.term_text.specs.TokenReading.{Gives, begins, is_allowed};
ghost use Rattle.term_text.specs.Reading.{IsWithin, word_term_at, quoted_atom_at, integer_term_at, binary_at, segments_at, segment_at, byte_at, bytes_at, byte_marks, one_byte_at};

use crate::stop::{Cause, Stop};
use crate::token::{
    Marks, Opening, after_both, after_comma, after_gap, begin, behind, expect_both, integer,
    plain_number, quoted, quoted_run, stop, word,
};
use std::alloc::{AllocError, Allocator};
use term_core::{MAX_BINARY, MAX_CHARACTERS, Term};

/// The largest number of letters of an atom that needs no allocation.
const SHORT_WORD: usize = 14;

/// Reads an integer as a term.
#[tactic(auto, unfolding(crate::specs::Reading::integer_term_at))]
#[inline(always)]
pub fn integer_term<A: Allocator>(text: &str) -> Result<(Term<A>, &str), Stop>
    ensures { Gives (λ x. (x.0, chars x.1.now)) result (integer_term_at (chars text.now)) }
{
    let (value, rest) = integer(text)?;
    Ok((Term::int(value), rest))
}

/// Reads an integer without a sign. Returns `None` if it needs more than 63 bits.
#[tactic(auto, unfolding(crate::specs::Reading::integer_term_at))]
#[inline(always)]
pub fn plain_integer<A: Allocator>(text: &str) -> Option<(Term<A>, &str)>
    requires { begins is_ascii_digit (chars text.now) ≡ true }
    ensures { IfSome result (λ x. integer_term_at (chars text.now) ≡ Ok (x.0, chars x.1.now)) }
{
    let (value, rest) = plain_number(text)?;
    Some((Term::int(value), rest))
}

/// Makes the atom of this text, which is within the limit.
#[inline(always)]
fn atom_of<A: Allocator + Copy>(alloc: A, text: &str) -> Result<Term<A>, Stop>
    requires { IsWithin (atom (chars text.now)) }
    ensures { Gives (λ t. t) result (Ok (atom (chars text.now))) }
{
    match Term::atom(alloc, text) {
        Ok(atom) => Ok(atom),
        Err(fault) => Err(Stop::from(fault.alloc_error())),
    }
}

/// Makes the atom of these characters, which are within the limit.
fn atom_of_characters<A: Allocator + Copy>(alloc: A, characters: &[char]) -> Result<Term<A>, Stop>
    requires { IsWithin (atom characters.now) }
    ensures { Gives (λ t. t) result (Ok (atom characters.now)) }
{
    match Term::from_characters(alloc, characters) {
        Ok(atom) => Ok(atom),
        Err(fault) => Err(Stop::from(fault.alloc_error())),
    }
}

/// Reads a bare word of at most `SHORT_WORD` letters, as an atom that needs no allocation. Returns `None` if there is
/// none, or it is longer.
#[tactic(auto, unfolding(crate::specs::Reading::word_term_at))]
#[inline(always)]
pub fn short_word<A: Allocator + Copy>(alloc: A, text: &str) -> Option<(Term<A>, &str)>
    ensures { IfSome result (λ x. word_term_at (chars text.now) ≡ Ok (x.0, chars x.1.now)) }
{
    let Ok((letters, rest)) = word(text) else {
        return None;
    };
    if letters.len() > SHORT_WORD {
        return None;
    }
    match Term::atom(alloc, letters) {
        Ok(atom) => Some((atom, rest)),
        Err(_) => None,
    }
}

/// Reads a bare word as a term.
#[tactic(auto, unfolding(crate::specs::Reading::word_term_at))]
#[inline(always)]
pub fn word_term<A: Allocator + Copy>(alloc: A, text: &str) -> Result<(Term<A>, &str), Stop>
    ensures { Gives (λ x. (x.0, chars x.1.now)) result (word_term_at (chars text.now)) }
{
    let (letters, rest) = word(text)?;
    Ok((atom_of(alloc, letters)?, rest))
}

/// Reads a quoted atom, after its opening mark.
#[tactic(auto, unfolding(crate::specs::Reading::quoted_atom_at))]
#[inline(always)]
pub fn quoted_atom<A: Allocator + Copy>(alloc: A, text: &str) -> Result<(Term<A>, &str), Stop>
    ensures { Gives (λ x. (x.0, chars x.1.now)) result (quoted_atom_at (chars text.now)) }
{
    let marks = Marks {
        mark: '\'',
        room: MAX_CHARACTERS,
        past: Cause::TooLong,
        only_bytes: false,
    };
    if let Some((run, rest)) = quoted_run(marks, text) {
        return Ok((atom_of(alloc, run)?, rest));
    }
    let (characters, rest) = quoted(alloc, marks, text)?;
    Ok((atom_of_characters(alloc, characters.as_slice())?, rest))
}

/// Reads a byte of a binary, written as an integer.
#[tactic(auto, unfolding(crate::specs::Reading::byte_at))]
fn byte(text: &str) -> Result<(u8, &str), Stop>
    ensures { Gives (λ x. (x.0, chars x.1.now)) result (byte_at (chars text.now)) }
{
    let (value, rest) = integer(text)?;
    match u8::try_from(value) {
        Ok(byte) => Ok((byte, rest)),
        Err(_) => Err(stop(Cause::IntegerRange, text)),
    }
}

/// Returns these bytes followed by characters that are bytes.
fn with_bytes<A: Allocator>(
    bytes: Vec<u8, A>,
    characters: &[char],
) -> Result<Vec<u8, A>, AllocError>
    requires { AllByRecursion (λ c. is_allowed true c ≡ true) characters.now }
    ensures { IfOk result (λ all. all.items ≡ bytes.items ++ characters.now) }
{
    let mut bytes = bytes;
    for character in characters {
        bytes.push(*character as u32 as u8)?;
    }
    Ok(bytes)
}

/// Reads one more segment of a binary, an integer or a string, and appends it to these bytes.
#[tactic(auto, unfolding(crate::specs::Reading::segment_at))]
fn segment<A: Allocator + Copy>(
    alloc: A,
    bytes: Vec<u8, A>,
    text: &str,
) -> Result<(Vec<u8, A>, &str), Stop>
    ensures { Gives (λ x. (x.0.items, chars x.1.now)) result (segment_at bytes.items (chars text.now)) }
{
    match begin(text) {
        Some((Opening::Integer, _)) => one_byte(bytes, text),
        Some((Opening::String, rest)) => {
            let marks = byte_marks(bytes.len());
            let (characters, rest) = quoted(alloc, marks, rest)?;
            Ok((with_bytes(bytes, characters.as_slice())?, rest))
        }
        _ => Err(stop(Cause::Syntax, text)),
    }
}

/// Returns how a string is read that continues a binary of `before` bytes.
fn byte_marks(before: usize) -> Marks
    ensures { result ≡ byte_marks before }
{
    Marks {
        mark: '"',
        room: MAX_BINARY.saturating_sub(before),
        past: Cause::TooLong,
        only_bytes: true,
    }
}

/// Reads one more byte and appends it to these bytes.
fn one_byte<A: Allocator>(bytes: Vec<u8, A>, text: &str) -> Result<(Vec<u8, A>, &str), Stop>
    ensures { Gives (λ x. (x.0.items, chars x.1.now)) result (one_byte_at bytes.items (chars text.now)) }
{
    let mut bytes = bytes;
    if bytes.len() == MAX_BINARY {
        return Err(stop(Cause::TooLong, text));
    }
    let (byte, rest) = byte(text)?;
    bytes.push(byte)?;
    Ok((bytes, rest))
}

/// Reads one or more segments separated by commas. Returns their bytes and the text after them and the gap.
fn segments<A: Allocator + Copy>(alloc: A, text: &str) -> Result<(Vec<u8, A>, &str), Stop>
    ensures { Gives (λ x. (x.0.items, chars x.1.now)) result (segments_at [] (chars text.now)) }
{
    let mut bytes = Vec::new(alloc);
    let mut rest = text;
    loop {
        let (more, after) = segment(alloc, bytes, rest)?;
        bytes = more;
        let (goes_on, after) = after_comma(after);
        rest = after;
        if !goes_on {
            return Ok((bytes, rest));
        }
    }
}

/// Makes the binary of these bytes, which are within the limit.
fn binary_of<A: Allocator + Copy>(alloc: A, bytes: &[u8]) -> Result<Term<A>, Stop>
    requires { IsWithin (binary bytes.now) }
    ensures { Gives (λ t. t) result (Ok (binary bytes.now)) }
{
    match Term::binary(alloc, bytes) {
        Ok(binary) => Ok(binary),
        Err(fault) => Err(Stop::from(fault.alloc_error())),
    }
}

/// Reads a binary of one string without escapes, after its opening and the gap. Returns the string and the text after
/// the binary, or `None` if there is none.
#[inline(always)]
fn only_string(text: &str) -> Option<(&str, &str)>
    ensures { IfSome result (λ x. bytes_at None (chars text.now) ≡ Ok (x.0.now, chars x.1.now)) }
{
    let (run, rest) = quoted_run(byte_marks(0), behind('"', text)?)?;
    let rest = after_both('>', '>', rest)?;
    Some((run, rest))
}

/// Reads a binary, after its opening.
#[tactic(auto, unfolding(crate::specs::Reading::binary_at))]
#[inline(always)]
pub fn binary<A: Allocator + Copy>(alloc: A, text: &str) -> Result<(Term<A>, &str), Stop>
    ensures { Gives (λ x. (x.0, chars x.1.now)) result (binary_at (chars text.now)) }
{
    let text = after_gap(text);
    if let Some(rest) = after_both('>', '>', text) {
        return Ok((binary_of(alloc, &[])?, rest));
    }
    if let Some((run, rest)) = only_string(text) {
        return Ok((binary_of(alloc, run.as_bytes())?, rest));
    }
    let (bytes, rest) = segments(alloc, text)?;
    let rest = expect_both('>', '>', rest)?;
    Ok((binary_of(alloc, bytes.as_slice())?, rest))
}
