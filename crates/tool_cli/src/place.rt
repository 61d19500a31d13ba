//! The place of a byte in a text, as a person sees it: a line and a column.
ghost use Rattle.std.specs.Prelude.{◌≡◌, ◌++◌, ◌+◌, take, IfOk, OnOk, [], ◌∷◌, codes};
ghost use Rattle.std.specs.Fmt.{decimal};
ghost use Rattle.std.specs.List.{after_last, before_first, before_last, count_by, flat_map};
ghost use Rattle.tool_cli.specs.Place.{is_feed, begins_character, room_for, before_in_line, on_in_line};
ghost use Rattle.tool_cli.specs.Place.{from_character, shown_before, shown_on};
ghost use Rattle.tool_cli.specs.Place.{place_lines, ColumnsAreCharacters};

use std::alloc::{AllocError, Allocator};

/// A text split at a byte.
#[derive(Drop)]
struct Place<'a> {
    /// The text before the byte.
    above: &'a [u8],
    /// What is before the byte in its line.
    before: &'a [u8],
    /// What is in its line from the byte on.
    on: &'a [u8],
}

/// Returns the place of a byte. If `at` is past the end of the text, it is the place of the end.
fn place_of(text: &[u8], at: usize) -> Place<'_>
    ensures above { result.above.now ≡ take at text.now }
    ensures before { result.before.now ≡ before_in_line text.now at }
    ensures on { result.on.now ≡ on_in_line text.now at }
{
    if at > text.len() {
        return Place {
            above: text,
            before: last_line(text),
            on: &[],
        };
    }
    let above = &text[..at];
    Place {
        above,
        before: last_line(above),
        on: first_line(&text[at..]),
    }
}

/// Returns what follows the last line feed, or all if there is none.
fn last_line(text: &[u8]) -> &[u8]
    ensures { result.now ≡ after_last is_feed text.now }
{
    for start in (0..text.len()).rev() {
        if text[start] == b'\n' {
            return &text[start + 1..];
        }
    }
    text
}

/// Returns what is before the first line feed, or all if there is none.
fn first_line(text: &[u8]) -> &[u8]
    ensures { result.now ≡ before_first is_feed text.now }
{
    for end in 0..text.len() {
        if text[end] == b'\n' {
            return &text[..end];
        }
    }
    text
}

/// Returns the number of line feeds.
fn feed_count(text: &[u8]) -> usize
    ensures { result ≡ count_by is_feed text.now }
{
    text.iter().filter(|byte| **byte == b'\n').count()
}

/// Returns whether the byte begins a character in UTF-8: any but 128 to 191.
fn begins_character(byte: u8) -> bool
    ensures { result ≡ begins_character byte }
{
    !(128..192).contains(&byte)
}

/// Returns the number of characters, counted by the bytes that begin one.
fn character_count(text: &[u8]) -> usize
    ensures { result ≡ count_by begins_character text.now }
{
    text.iter().filter(|byte| begins_character(**byte)).count()
}

/// Returns the bytes from the first that begins a character on.
fn from_character(bytes: &[u8]) -> &[u8]
    ensures { result.now ≡ from_character bytes.now }
{
    let mut rest = bytes;
    loop {
        let Some((first, after)) = rest.split_first() else {
            return rest;
        };
        if begins_character(*first) {
            return rest;
        }
        rest = after;
    }
}

/// Returns the bytes before the last one that begins a character, or none if none does.
fn before_last_character(bytes: &[u8]) -> &[u8]
    ensures { result.now ≡ before_last begins_character bytes.now }
{
    for end in (0..bytes.len()).rev() {
        if begins_character(bytes[end]) {
            return &bytes[..end];
        }
    }
    &[]
}

/// How many bytes of a line are shown at most on each side of a byte.
const SIDE: usize = 160;

/// Returns what is shown of a line before a byte: all of it, or dots and its last characters.
fn shown_before<A: Allocator + Copy>(alloc: A, line: &[u8]) -> Result<Vec<u8, A>, AllocError>
    ensures { IfOk result (λ v. v.items ≡ shown_before line.now) }
{
    if line.len() <= SIDE {
        return Vec::from_slice(alloc, line);
    }
    let mut shown = Vec::from_slice(alloc, b"...")?;
    shown.extend_from_slice(from_character(&line[line.len() - SIDE..]))?;
    Ok(shown)
}

/// Appends what is shown of a line from a byte on: all of it, or its first characters and dots.
fn put_on<A: Allocator>(line: &[u8], out: &mut Vec<u8, A>) -> Result<(), AllocError>
    ensures { OnOk result (out.new.items ≡ out.old.items ++ shown_on line.now) }
{
    if line.len() <= SIDE {
        return out.extend_from_slice(line);
    }
    let beginning = &line[..SIDE];
    out.extend_from_slice(before_last_character(beginning))?;
    out.extend_from_slice(b"...")
}

/// Appends the place of a byte of the text: the numbers of its line and its column, the part of the line around it, and
/// a caret under the byte, each on a line of its own.
pub(crate) fn put_place<A: Allocator + Copy>(
    alloc: A,
    text: &[u8],
    at: usize,
    out: &mut Vec<u8, A>,
) -> Result<(), AllocError>
    ensures { OnOk result (out.new.items ≡ out.old.items ++ place_lines text.now at) }
{
    let place = place_of(text, at);
    let before = shown_before(alloc, place.before)?;
    put_numbers(alloc, &place, out)?;
    put_line(before.as_slice(), place.on, out)?;
    put_caret(before.as_slice(), out)
}

/// Appends a line with the numbers of line and column, each counted from 1.
fn put_numbers<A: Allocator + Copy>(
    alloc: A,
    place: &Place<'_>,
    out: &mut Vec<u8, A>,
) -> Result<(), AllocError>
    ensures { OnOk result (out.new.items ≡ out.old.items
        ++ ((codes "line " ++ decimal (count_by is_feed place.now.above.now + 1))
        ++ codes ", column " ++ decimal (count_by begins_character place.now.before.now + 1) ++ 10 ∷ [])) }
{
    out.extend_from_slice(b"line ")?;
    put_number(alloc, feed_count(place.above) + 1, out)?;
    out.extend_from_slice(b", column ")?;
    put_number(alloc, character_count(place.before) + 1, out)?;
    out.push(b'\n')?;
    Ok(())
}

/// Appends what is shown before a byte in its line, and from it on.
fn put_line<A: Allocator>(before: &[u8], on: &[u8], out: &mut Vec<u8, A>) -> Result<(), AllocError>
    ensures { OnOk result (out.new.items ≡ out.old.items ++ (before.now ++ shown_on on.now ++ 10 ∷ [])) }
{
    out.extend_from_slice(before)?;
    put_on(on, out)?;
    out.push(b'\n')?;
    Ok(())
}

/// Appends a caret after blanks as wide as these bytes.
fn put_caret<A: Allocator>(before: &[u8], out: &mut Vec<u8, A>) -> Result<(), AllocError>
    ensures { OnOk result (out.new.items
        ≡ out.old.items ++ flat_map room_for before.now ++ 94 ∷ 10 ∷ []) }
{
    for byte in before {
        put_room(*byte, out)?;
    }
    out.extend_from_slice(b"^\n")
}

/// Appends a blank for a byte that begins a character, or a tab for a tab; nothing for other bytes.
fn put_room<A: Allocator>(byte: u8, out: &mut Vec<u8, A>) -> Result<(), AllocError>
    ensures { OnOk result (out.new.items ≡ out.old.items ++ room_for byte) }
{
    if begins_character(byte) {
        out.push(if byte == b'\t' { b'\t' } else { b' ' })?;
    }
    Ok(())
}

/// Appends the decimal digits of a number.
fn put_number<A: Allocator + Copy>(
    alloc: A,
    number: usize,
    out: &mut Vec<u8, A>,
) -> Result<(), AllocError>
    ensures { OnOk result (out.new.items ≡ out.old.items ++ decimal number) }
{
    let digits = number.to_string(alloc)?;
    out.extend_from_slice(digits.as_bytes())
}

/// States that, if the bytes before the byte in its line are UTF-8, the column is one more than their number of
/// characters.
pub fn columns_are_characters()
    ensures { ColumnsAreCharacters }
{}
