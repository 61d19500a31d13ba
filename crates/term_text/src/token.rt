//! The tokens of term text.
ghost use Rattle.std.specs.Prelude.{◌≡◌, ◌∷◌, ◌≤◌, ◌<◌, ◌^◌, ◌-◌, ◌≢◌, min, true, false, length, Ok, IfSome, IfOk, MatchOption, if◌then◌else◌};
ghost use Rattle.std.specs.Option.{option_map};
ghost use Rattle.std.specs.List.{prefix_len, AllByRecursion};
ghost use Rattle.std.specs.Char.{is_ascii_digit};
ghost use Rattle.std.specs.Str.{chars};
ghost use Rattle.term_text.specs.Character.{is_white_space, is_word, escaped, backslash};
ghost use Rattle.term_text.specs.Tokens.{EndsRun};
ghost use Rattle.term_text.specs.Reading.{after_comma};
ghost use Rattle.term_text.specs.TokenReading.{Gives, after_gap, opening, behind, after_both, begins, integer_at, number_run, character_at, escape_at, signed, fits, expect, expect_both, begins_gap, dot_at, after_sign, word_at, next_quoted, quoted_at, is_allowed, is_plain};

use crate::byte_table::is_word_byte;
use crate::characters::{count, is_empty, split_ascii, split_first};
use crate::stop::{Cause, Stop};
use std::alloc::Allocator;
use term_core::MAX_CHARACTERS;

/// The first token of a term.
#[derive(Clone, Copy, PartialEq, Eq)]
pub enum Opening {
    Integer,
    Word,
    QuotedAtom,
    String,
    Tuple,
    List,
    Map,
    Binary,
}

/// Returns the fault at the beginning of this text.
#[inline(never)]
pub fn stop(cause: Cause, text: &str) -> Stop
    ensures { result ≡ Stop.At cause (length (chars text.now)) }
{
    Stop::At(cause, count(text))
}

/// Returns whether a character is white space: a horizontal or vertical tab, line feed, form feed, carriage return or
/// space.
fn is_white_space(character: char) -> bool
    ensures { result ≡ is_white_space character }
{
    matches!(character, '\t'..='\r' | ' ')
}

/// Returns the text after white space and comments. A comment goes from `%` to the end of its line.
#[tactic(auto, using(crate::proofs::CharacterLemmas::no_gap, crate::proofs::CharacterLemmas::behind_line_feed))]
#[inline(always)]
pub fn after_gap(text: &str) -> &str
    ensures { chars result.now ≡ after_gap false (chars text.now) }
{
    let Some((first, rest)) = split_ascii(text) else {
        return text;
    };
    if first == '\n' {
        return after_other_gap(rest);
    }
    if is_white_space(first) {
        return past_gap(text);
    }
    if first == '%' {
        return past_gap(text);
    }
    text
}

/// Returns the text after white space and comments, after a line feed that was passed. It has no separate test for
/// another line feed.
#[tactic(auto, using(crate::proofs::CharacterLemmas::no_gap))]
#[inline(always)]
fn after_other_gap(text: &str) -> &str
    ensures { chars result.now ≡ after_gap false (chars text.now) }
{
    let Some((first, _)) = split_ascii(text) else {
        return text;
    };
    if is_white_space(first) {
        return past_gap(text);
    }
    if first == '%' {
        return past_gap(text);
    }
    text
}

/// Returns the text after white space and comments, of which there are some.
#[inline(never)]
fn past_gap(text: &str) -> &str
    ensures { chars result.now ≡ after_gap false (chars text.now) }
{
    let mut rest = text;
    let mut in_comment = false;
    loop {
        let Some((character, behind)) = split_first(rest) else {
            return rest;
        };
        if in_comment {
            in_comment = character != '\n';
        } else if character == '%' {
            in_comment = true;
        } else if !is_white_space(character) {
            return rest;
        }
        rest = behind;
    }
}

/// Returns the text after this character, or `None` if the text doesn't begin with it.
#[tactic(auto, using(crate::proofs::CharacterLemmas::none_behind))]
#[inline(always)]
pub fn behind(character: char, text: &str) -> Option<&str>
    requires { character < 128 }
    ensures { option_map (λ rest. chars rest.now) result ≡ behind character (chars text.now) }
{
    let (first, rest) = split_ascii(text)?;
    if first == character { Some(rest) } else { None }
}

/// Returns whether a comma follows the gap, with the text after the comma and its gap, or else after the first gap.
#[inline(always)]
pub fn after_comma(text: &str) -> (bool, &str)
    ensures { (result.0, chars result.1.now) ≡ after_comma (chars text.now) }
{
    let text = after_gap(text);
    match behind(',', text) {
        Some(rest) => (true, after_gap(rest)),
        None => (false, text),
    }
}

/// Returns whether the text begins with a digit.
#[tactic(auto, using(crate::proofs::CharacterLemmas::no_digit))]
fn begins_digits(text: &str) -> bool
    ensures { result ≡ begins is_ascii_digit (chars text.now) }
{
    match split_ascii(text) {
        Some((first, _)) => first.is_ascii_digit(),
        None => false,
    }
}

/// Returns the first token of a term, and the text to read the term from. Returns `None` if no term begins.
#[tactic(auto, using(crate::proofs::CharacterLemmas::no_opening))]
#[inline(always)]
pub fn begin(text: &str) -> Option<(Opening, &str)>
    ensures { option_map (λ o. (o.0, chars o.1.now)) result ≡ opening (chars text.now) }
{
    let (first, rest) = split_ascii(text)?;
    match first {
        '0'..='9' => Some((Opening::Integer, text)),
        '+' | '-' if begins_digits(rest) => Some((Opening::Integer, text)),
        'a'..='z' => Some((Opening::Word, text)),
        '\'' => Some((Opening::QuotedAtom, rest)),
        '"' => Some((Opening::String, rest)),
        '{' => Some((Opening::Tuple, rest)),
        '[' => Some((Opening::List, rest)),
        '#' => Some((Opening::Map, behind('{', rest)?)),
        '<' => Some((Opening::Binary, behind('<', rest)?)),
        _ => None,
    }
}

/// Returns the text after this character. Stops with a syntax fault if the text doesn't begin with it.
#[tactic(auto, using(crate::proofs::CharacterLemmas::expected, crate::proofs::CharacterLemmas::not_expected))]
#[inline(always)]
pub fn expect(character: char, text: &str) -> Result<&str, Stop>
    requires { character < 128 }
    ensures { Gives (λ rest. chars rest.now) result (expect character (chars text.now)) }
{
    match behind(character, text) {
        Some(rest) => Ok(rest),
        None => Err(stop(Cause::Syntax, text)),
    }
}

/// Returns the text after these two characters, or `None` if the text doesn't begin with them.
#[tactic(auto, using(crate::proofs::CharacterLemmas::behind_second, crate::proofs::CharacterLemmas::no_second))]
pub fn after_both(first: char, second: char, text: &str) -> Option<&str>
    requires { (first < 128) × (second < 128) }
    ensures { option_map (λ rest. chars rest.now) result ≡ after_both first second (chars text.now) }
{
    behind(second, behind(first, text)?)
}

/// Returns the text after these two characters. Stops with a syntax fault if the text doesn't begin with them.
#[tactic(auto, using(crate::proofs::CharacterLemmas::both_expected, crate::proofs::CharacterLemmas::both_not_expected))]
pub fn expect_both(first: char, second: char, text: &str) -> Result<&str, Stop>
    requires { (first < 128) × (second < 128) }
    ensures { Gives (λ rest. chars rest.now) result (expect_both first second (chars text.now)) }
{
    match after_both(first, second, text) {
        Some(rest) => Ok(rest),
        None => Err(stop(Cause::Syntax, text)),
    }
}

/// Returns whether the text begins with white space or a comment, or is empty.
#[tactic(auto, using(crate::proofs::CharacterLemmas::gap_at_end))]
#[inline(always)]
fn begins_gap(text: &str) -> bool
    ensures { result ≡ begins_gap (chars text.now) }
{
    match split_ascii(text) {
        Some((first, _)) => is_white_space(first) || first == '%',
        None => is_empty(text),
    }
}

/// Returns the text after a dot that is followed by white space, a comment or the end. Otherwise stops with a syntax
/// fault.
#[tactic(auto, using(crate::proofs::CharacterLemmas::no_dot, crate::proofs::CharacterLemmas::dot_is, crate::proofs::CharacterLemmas::dot_goes_on))]
#[inline(always)]
pub fn dot(text: &str) -> Result<&str, Stop>
    ensures { Gives (λ rest. chars rest.now) result (dot_at (chars text.now)) }
{
    let Some(rest) = behind('.', text) else {
        return Err(stop(Cause::Syntax, text));
    };
    if begins_gap(rest) {
        Ok(rest)
    } else {
        Err(stop(Cause::Syntax, text))
    }
}

/// A number below this one can have a digit appended without overflow.
const ROOM_FOR_A_DIGIT: u64 = 100_000_000_000_000_000;

/// Reads the digits at the beginning. Returns their number, at most 2^64 - 1, and the text after them.
#[tactic(auto, using(crate::proofs::CharacterLemmas::no_more_digits))]
#[inline(always)]
fn number(text: &str) -> (u64, &str)
    ensures value { result.0 ≡ min (number_run 0 (chars text.now)).0 (2 ^ 64 - 1) }
    ensures rest { chars result.1.now ≡ (number_run 0 (chars text.now)).1 }
{
    let mut value: u64 = 0;
    let mut rest = text;
    while value < ROOM_FOR_A_DIGIT {
        let Some((character, behind)) = split_ascii(rest) else {
            return (value, rest);
        };
        let Some(digit) = character.to_digit(10) else {
            return (value, rest);
        };
        value = value * 10 + u64::from(digit);
        rest = behind;
    }
    more_digits(value, rest)
}

/// Reads the digits at the beginning, which continue the number `before`. Returns the number, at most 2^64 - 1, and the
/// text after them.
#[tactic(auto, using(crate::proofs::CharacterLemmas::no_more_digits))]
#[inline(never)]
fn more_digits(before: u64, text: &str) -> (u64, &str)
    ensures value { result.0 ≡ min (number_run before (chars text.now)).0 (2 ^ 64 - 1) }
    ensures rest { chars result.1.now ≡ (number_run before (chars text.now)).1 }
{
    let mut value = before;
    let mut rest = text;
    loop {
        let Some((character, behind)) = split_ascii(rest) else {
            return (value, rest);
        };
        let Some(digit) = character.to_digit(10) else {
            return (value, rest);
        };
        value = value.saturating_mul(10).saturating_add(u64::from(digit));
        rest = behind;
    }
}

/// Returns the integer with this sign and magnitude, or `None` if it needs more than 64 bits.
#[inline(always)]
fn with_sign(is_negative: bool, magnitude: u64) -> Option<i64>
    ensures { result ≡ (if fits is_negative magnitude then Some (signed is_negative magnitude) else
        None) }
{
    if is_negative {
        0_i64.checked_sub_unsigned(magnitude)
    } else {
        0_i64.checked_add_unsigned(magnitude)
    }
}

/// Returns whether the text begins with a minus, and the text after the sign, if any.
#[tactic(auto, using(crate::proofs::CharacterLemmas::no_sign))]
#[inline(always)]
fn after_sign(text: &str) -> (bool, &str)
    ensures { (result.0, chars result.1.now) ≡ after_sign (chars text.now) }
{
    let Some((first, rest)) = split_ascii(text) else {
        return (false, text);
    };
    match first {
        '-' => (true, rest),
        '+' => (false, rest),
        _ => (false, text),
    }
}

/// Reads an integer: an optional sign, and digits.
#[tactic(auto, unfolding(crate::specs::TokenReading::integer_at))]
#[inline(always)]
pub fn integer(text: &str) -> Result<(i64, &str), Stop>
    ensures { Gives (λ x. (x.0, chars x.1.now)) result (integer_at (chars text.now)) }
{
    let (is_negative, unsigned) = after_sign(text);
    let (magnitude, rest) = number(unsigned);
    match with_sign(is_negative, magnitude) {
        Some(value) => Ok((value, rest)),
        None => Err(stop(Cause::IntegerRange, text)),
    }
}

/// Reads an integer without a sign. Returns it and the text after it, or `None` if it needs more than 63 bits.
#[tactic(auto, using(crate::proofs::Short::plain_number))]
#[inline(always)]
pub fn plain_number(text: &str) -> Option<(i64, &str)>
    requires { begins is_ascii_digit (chars text.now) ≡ true }
    ensures { IfSome result (λ x. integer_at (chars text.now) ≡ Ok (x.0, chars x.1.now)) }
{
    let (magnitude, rest) = number(text);
    let value = with_sign(false, magnitude)?;
    Some((value, rest))
}

/// Returns the number of characters of the bare word at the beginning, each of which is one byte.
#[inline(always)]
fn letter_count(text: &str) -> usize
    ensures { result ≡ prefix_len is_word text.now }
{
    text.as_bytes()
        .iter()
        .take_while(|byte| is_word_byte(**byte))
        .count()
}

/// Reads a bare word. Returns it and the text after it.
#[inline(always)]
pub fn word(text: &str) -> Result<(&str, &str), Stop>
    ensures { Gives (λ x. (chars x.0.now, chars x.1.now)) result (word_at (chars text.now)) }
{
    let count = letter_count(text);
    if count > MAX_CHARACTERS {
        return Err(stop(Cause::TooLong, &text[MAX_CHARACTERS..]));
    }
    Ok(text.split_at(count))
}

/// How quoted characters are read: the mark that ends them, how many there may be, the cause of a fault at one more,
/// and whether each has to be a byte.
#[derive(Clone, Copy)]
pub struct Marks {
    pub mark: char,
    pub room: usize,
    pub past: Cause,
    pub only_bytes: bool,
}

/// Returns the character that an escape of a backslash and this character stands for, or `None` if there is no such
/// escape.
fn escaped(character: char) -> Option<char>
    ensures { result ≡ escaped character }
{
    match character {
        '\\' => Some('\\'),
        '\'' => Some('\''),
        '"' => Some('"'),
        'n' => Some('\n'),
        'r' => Some('\r'),
        't' => Some('\t'),
        _ => None,
    }
}

/// Reads an escape. `text` begins at the backslash, `behind` after it.
fn escape<'t>(text: &str, behind: &'t str) -> Result<(char, &'t str), Stop>
    ensures { Gives (λ x. (x.0, chars x.1.now)) result (escape_at (chars text.now) (chars behind.now)) }
{
    let Some((second, rest)) = split_first(behind) else {
        return Err(Stop::At(Cause::Syntax, 0));
    };
    match escaped(second) {
        Some(character) => Ok((character, rest)),
        None => Err(stop(Cause::UnsupportedEscape, text)),
    }
}

/// Reads a character, given as itself or as an escape.
#[tactic(auto, unfolding(crate::specs::TokenReading::character_at))]
fn character(only_bytes: bool, text: &str) -> Result<(char, &str), Stop>
    ensures { Gives (λ x. (x.0, chars x.1.now)) result (character_at only_bytes (chars text.now)) }
{
    let Some((first, rest)) = split_first(text) else {
        return Err(Stop::At(Cause::Syntax, 0));
    };
    if first == '\\' {
        return escape(text, rest);
    }
    if !only_bytes || first <= '\u{ff}' {
        Ok((first, rest))
    } else {
        Err(stop(Cause::IntegerRange, text))
    }
}

/// Reads the next quoted character, of which there are `count` so far. Returns `None` at the closing mark.
#[tactic(auto, unfolding(crate::specs::TokenReading::next_quoted))]
fn next_quoted(marks: Marks, count: usize, text: &str) -> Result<(Option<char>, &str), Stop>
    ensures { Gives (λ x. (x.0, chars x.1.now)) result (next_quoted marks count (chars text.now)) }
{
    let Some((first, rest)) = split_first(text) else {
        return Err(Stop::At(Cause::Syntax, 0));
    };
    if first == marks.mark {
        return Ok((None, rest));
    }
    if count == marks.room {
        return Err(stop(marks.past, text));
    }
    let (character, rest) = character(marks.only_bytes, text)?;
    Ok((Some(character), rest))
}

/// Reads the characters up to the closing mark. Returns them and the text after the mark.
pub fn quoted<A: Allocator>(
    alloc: A,
    marks: Marks,
    text: &str,
) -> Result<(Vec<char, A>, &str), Stop>
    ensures value { Gives (λ x. (x.0.items, chars x.1.now)) result (quoted_at marks (chars text.now)) }
    ensures allowed { IfOk result (λ x. AllByRecursion (λ c. is_allowed marks.only_bytes c ≡ true)
        x.0.items) }
{
    let mut characters = Vec::new(alloc);
    let mut rest = text;
    loop {
        let (next, after) = next_quoted(marks, characters.len(), rest)?;
        let Some(character) = next else {
            return Ok((characters, after));
        };
        characters.push(character)?;
        rest = after;
    }
}

/// Returns whether a byte is ASCII and stands for itself between these quotation marks.
#[inline(always)]
fn is_plain(mark: u8, byte: u8) -> bool
    ensures { result ≡ is_plain mark byte }
{
    byte < 0x80 && byte != mark && byte != b'\\'
}

/// Returns the number of bytes at the beginning that are ASCII and stand for themselves between these quotation marks.
#[inline(always)]
fn plain_count(mark: u8, text: &str) -> usize
    ensures { result ≡ prefix_len (is_plain mark) text.now }
{
    text.as_bytes()
        .iter()
        .take_while(|byte| is_plain(mark, **byte))
        .count()
}

/// Reads the characters up to the closing mark, where each is ASCII and stands for itself. Returns them and the text
/// after the mark, or `None` if one does not or there are too many.
pub fn quoted_run(marks: Marks, text: &str) -> Option<(&str, &str)>
    requires { (marks.mark < 128) × (marks.mark ≢ backslash) }
    ensures value { IfSome result (λ x. quoted_at marks (chars text.now) ≡ Ok (x.0.now, chars x.1.now)) }
    ensures text { IfSome result (λ x. chars x.0.now ≡ x.0.now) }
{
    let count = plain_count(marks.mark as u32 as u8, text);
    if count > marks.room {
        return None;
    }
    let (run, after) = text.split_at(count);
    let rest = behind(marks.mark, after)?;
    Some((run, rest))
}
