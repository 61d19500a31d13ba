//! Writing terms.
ghost use Rattle.std.specs.Prelude.{◌≡◌, ◌<◌, ◌++◌, ◌∷◌, [], length, decimal, slice_get, true, ◌&&◌, Some, None, if◌then◌else◌, OnOk, OnErr};
ghost use Rattle.std.specs.Str.{chars, encode_utf8_all, bytes_eq};
ghost use Rattle.std.specs.Prelude.{map as each};
ghost use Rattle.std.specs.List.{list_any};
ghost use Rattle.std.specs.Fmt.{signed_decimal};
ghost use Rattle.std.specs.Option.{option_copied};
ghost use Rattle.term_core.specs.Datum.{items_of, entries_of, cells};
ghost use Rattle.term_core.specs.Datum.Datum.{integer, tuple, map, nil, binary};
ghost use Rattle.term_core.specs.Term.{tail_of, IsTail};
ghost use Rattle.term_text.specs.Character.{backslash, double_quote, equals, greater};
ghost use Rattle.term_text.specs.Canonical.{are_word, canonical, readable, text_as, atom_text, is_bare, has_bare_form};
ghost use Rattle.term_text.specs.Canonical.{is_reserved, begins_reserved, quoted_character, quoted_characters, quoted_text, bytes_text};
ghost use Rattle.term_text.specs.Canonical.{is_some, is_shown, are_shown, is_character, code_of, codes_of, is_string, shows_strings};
ghost use Rattle.term_text.specs.Canonical.{binary_text, segments_text, items_text, entries_text, tail_text};

use crate::added::Added;
use crate::byte_table::is_word_byte;
use crate::characters::split_first;
use itoa::Buffer;
use std::alloc::{AllocError, Allocator};
use std::mem;
use term_core::{Term, View};

/// How lists and binaries of printable characters are written.
#[derive(Clone, Copy, Debug, PartialEq, Eq)]
pub enum Form {
    /// As lists and as bytes: the one canonical text of a term.
    Canonical,
    /// Between double quotes, for people.
    Readable,
}

impl Form {
    /// Returns whether lists and binaries of printable characters are written between double quotes.
    fn shows_strings(self) -> bool
        ensures { result ≡ shows_strings self }
    {
        match self {
            Form::Canonical => false,
            Form::Readable => true,
        }
    }
}

/// Returns whether a text is one of these texts.
fn is_among(text: &str, texts: &[&str]) -> bool
    ensures { result ≡ list_any (bytes_eq text.now) (each (λ other. other.now) texts.now) }
{
    for other in texts {
        if text == *other {
            return true;
        }
    }
    false
}

/// The reserved words of Erlang: an atom of one of these is written in quotes.
const RESERVED: [&str; 29] = [
    "after", "and", "andalso", "band", "begin", "bnot", "bor", "bsl", "bsr", "bxor", "case",
    "catch", "cond", "div", "else", "end", "fun", "if", "let", "maybe", "not", "of", "or",
    "orelse", "receive", "rem", "try", "when", "xor",
];

/// Returns whether a reserved word begins with this byte.
#[inline(always)]
fn begins_reserved(first: u8) -> bool
    ensures { result ≡ begins_reserved first }
{
    matches!(first, b'a'..=b'f' | b'i' | b'l'..=b'o' | b'r' | b't' | b'w' | b'x')
}

/// Returns whether a word that begins with this byte is reserved. Compares it with the words that begin so.
#[tactic(auto, using(crate::proofs::ByteWords::same_reserved))]
fn is_reserved_by(first: u8, text: &str) -> bool
    requires { Some first ≡ slice_get text.now 0 }
    ensures { result ≡ is_reserved (chars text.now) }
{
    if !begins_reserved(first) {
        return false;
    }
    match first {
        b'a' => is_among(text, &["after", "and", "andalso"]),
        b'b' => is_among(
            text,
            &["band", "begin", "bnot", "bor", "bsl", "bsr", "bxor"],
        ),
        b'c' => is_among(text, &["case", "catch", "cond"]),
        b'd' => is_among(text, &["div"]),
        b'e' => is_among(text, &["else", "end"]),
        b'f' => is_among(text, &["fun"]),
        b'i' => is_among(text, &["if"]),
        b'l' => is_among(text, &["let"]),
        b'm' => is_among(text, &["maybe"]),
        b'n' => is_among(text, &["not"]),
        b'o' => is_among(text, &["of", "or", "orelse"]),
        b'r' => is_among(text, &["receive", "rem"]),
        b't' => is_among(text, &["try"]),
        b'w' => is_among(text, &["when"]),
        b'x' => is_among(text, &["xor"]),
        _ => is_among(text, &RESERVED),
    }
}

/// Returns whether a word is reserved, and so written in quotes.
fn is_reserved(text: &str) -> bool
    ensures { result ≡ is_reserved (chars text.now) }
{
    match text.as_bytes().first() {
        Some(first) => is_reserved_by(*first, text),
        None => false,
    }
}

/// Returns whether each of these bytes is an ASCII letter or digit, `_` or `@`.
fn are_word(bytes: &[u8]) -> bool
    ensures { result ≡ are_word bytes.now }
{
    for byte in bytes {
        if !is_word_byte(*byte) {
            return false;
        }
    }
    true
}

/// Returns whether these bytes form a bare word: a small letter, followed by letters, digits, `_` and `@`.
fn has_bare_form(bytes: &[u8]) -> bool
    ensures { result ≡ has_bare_form bytes.now }
{
    match bytes {
        [] => false,
        [first, rest @ ..] => first.is_ascii_lowercase() && are_word(rest),
    }
}

/// Returns whether an atom of this text is written without quotes.
#[tactic(auto, using(crate::proofs::ByteWords::same_form))]
fn is_bare(text: &str) -> bool
    ensures { result ≡ is_bare (chars text.now) }
{
    has_bare_form(text.as_bytes()) && !is_reserved(text)
}

/// Appends a character as it is written between these quotation marks.
fn put_quoted<B: Allocator>(
    mark: char,
    character: char,
    out: &mut Added<B>,
) -> Result<(), AllocError>
    ensures front { out.new.front ≡ out.old.front }
    ensures items { OnOk result (out.new.items ≡ out.old.items
        ++ encode_utf8_all (quoted_character mark character)) }
{
    match character {
        '\\' => out.extend_from_slice(b"\\\\"),
        _ if character == mark => put_mark(mark, out),
        '\n' => out.extend_from_slice(b"\\n"),
        '\r' => out.extend_from_slice(b"\\r"),
        '\t' => out.extend_from_slice(b"\\t"),
        _ => put_character(character, out),
    }
}

/// Appends a backslash and a mark.
fn put_mark<B: Allocator>(mark: char, out: &mut Added<B>) -> Result<(), AllocError>
    ensures front { out.new.front ≡ out.old.front }
    ensures items { OnOk result (out.new.items ≡ out.old.items ++ encode_utf8_all (backslash ∷ mark ∷ [])) }
{
    out.push(b'\\')?;
    put_character(mark, out)
}

/// Appends a character in UTF-8.
fn put_character<B: Allocator>(character: char, out: &mut Added<B>) -> Result<(), AllocError>
    ensures front { out.new.front ≡ out.old.front }
    ensures items { OnOk result (out.new.items ≡ out.old.items ++ encode_utf8_all (character ∷ [])) }
{
    let mut buffer = [0; 4];
    out.extend_from_slice(character.encode_utf8(&mut buffer).as_bytes())
}

/// Appends the characters of a text as they are written between these quotation marks.
fn put_all_quoted<B: Allocator>(
    mark: char,
    text: &str,
    out: &mut Added<B>,
) -> Result<(), AllocError>
    ensures front { out.new.front ≡ out.old.front }
    ensures items { OnOk result (out.new.items ≡ out.old.items
        ++ encode_utf8_all (quoted_characters mark (chars text.now))) }
{
    let mut rest = text;
    loop {
        let Some((character, after)) = split_first(rest) else {
            return Ok(());
        };
        put_quoted(mark, character, out)?;
        rest = after;
    }
}

/// Appends an atom, without quotes if possible.
#[tactic(auto, using(crate::proofs::Bytes::quoted_bytes))]
fn put_atom<B: Allocator>(text: &str, out: &mut Added<B>) -> Result<(), AllocError>
    ensures front { out.new.front ≡ out.old.front }
    ensures items { OnOk result (out.new.items ≡ out.old.items
        ++ encode_utf8_all (atom_text (chars text.now))) }
{
    if is_bare(text) {
        return out.extend_from_slice(text.as_bytes());
    }
    out.push(b'\'')?;
    put_all_quoted('\'', text, out)?;
    out.push(b'\'')?;
    Ok(())
}

/// Returns whether a byte is a printable ASCII character, a tab, a line feed or a carriage return.
fn is_shown(byte: u8) -> bool
    ensures { result ≡ is_shown byte }
{
    matches!(byte, b' '..=b'~' | b'\t' | b'\n' | b'\r')
}

/// Returns whether all bytes are printable ASCII characters, tabs, line feeds or carriage returns.
fn are_shown(bytes: &[u8]) -> bool
    ensures { result ≡ are_shown bytes.now }
{
    for byte in bytes {
        if !is_shown(*byte) {
            return false;
        }
    }
    true
}

/// Appends these printable characters between double quotes.
#[tactic(auto, using(crate::proofs::Bytes::shown_bytes))]
fn put_shown<B: Allocator>(bytes: &[u8], out: &mut Added<B>) -> Result<(), AllocError>
    ensures front { out.new.front ≡ out.old.front }
    ensures items { OnOk result (out.new.items ≡ out.old.items
        ++ encode_utf8_all (quoted_text double_quote bytes.now)) }
{
    out.push(b'"')?;
    for byte in bytes {
        put_quoted('"', char::from(*byte), out)?;
    }
    out.push(b'"')?;
    Ok(())
}

/// Returns the printable character with this code, or `None` if there is none.
fn shown_character(code: i64) -> Option<u8>
    ensures { result ≡ (if is_character (integer code) then Some (code_of (integer code)) else None) }
{
    let byte = u8::try_from(code).ok()?;
    if is_shown(byte) { Some(byte) } else { None }
}

/// Returns the printable character of which an integer is the code, or `None` for any other term.
fn character_of<A: Allocator>(term: &Term<A>) -> Option<u8>
    ensures { result ≡ (if is_character term.now then Some (code_of term.now) else None) }
{
    match term.view() {
        View::Integer(code) => shown_character(code),
        _ => None,
    }
}

/// Returns whether all of these terms are codes of printable characters.
fn are_characters<A: Allocator>(elements: &[Term<A>]) -> bool
    ensures { result ≡ is_string (cells elements.now nil) }
{
    for element in elements {
        if character_of(element).is_none() {
            return false;
        }
    }
    true
}

/// Appends the character of which a term is the code, as it is written between double quotes.
fn put_code<A: Allocator, B: Allocator>(
    term: &Term<A>,
    out: &mut Added<B>,
) -> Result<(), AllocError>
    requires { is_character term.now ≡ true }
    ensures front { out.new.front ≡ out.old.front }
    ensures items { OnOk result (out.new.items ≡ out.old.items
        ++ encode_utf8_all (quoted_character double_quote (code_of term.now))) }
{
    match character_of(term) {
        Some(byte) => put_quoted('"', char::from(byte), out),
        None => Ok(()),
    }
}

/// Appends the characters of which these terms are the codes, between double quotes.
fn put_string<A: Allocator, B: Allocator>(
    elements: &[Term<A>],
    out: &mut Added<B>,
) -> Result<(), AllocError>
    requires { is_string (cells elements.now nil) ≡ true }
    ensures front { out.new.front ≡ out.old.front }
    ensures items { OnOk result (out.new.items ≡ out.old.items
        ++ encode_utf8_all (quoted_text double_quote (codes_of (cells elements.now nil)))) }
{
    out.push(b'"')?;
    for element in elements {
        put_code(element, out)?;
    }
    out.push(b'"')?;
    Ok(())
}

/// Appends a number below 100 in decimal.
#[inline(always)]
fn put_small<B: Allocator>(value: u8, out: &mut Added<B>) -> Result<(), AllocError>
    requires { value < 100 }
    ensures front { out.new.front ≡ out.old.front }
    ensures items { OnOk result (out.new.items ≡ out.old.items ++ decimal value) }
{
    if value < 10 {
        return out.push(b'0' + value);
    }
    out.push(b'0' + value / 10)?;
    out.push(b'0' + value % 10)
}

/// Appends a byte in decimal.
#[inline(always)]
fn put_byte<B: Allocator>(byte: u8, out: &mut Added<B>) -> Result<(), AllocError>
    ensures front { out.new.front ≡ out.old.front }
    ensures items { OnOk result (out.new.items ≡ out.old.items ++ decimal byte) }
{
    if byte < 100 {
        return put_small(byte, out);
    }
    put_small(byte / 10, out)?;
    out.push(b'0' + byte % 10)
}

/// Appends an integer in decimal.
fn put_integer<B: Allocator>(value: i64, out: &mut Added<B>) -> Result<(), AllocError>
    ensures front { out.new.front ≡ out.old.front }
    ensures items { OnOk result (out.new.items ≡ out.old.items ++ signed_decimal value) }
{
    let mut buffer = Buffer::new();
    out.extend_from_slice(buffer.format(value).as_bytes())
}

/// Appends bytes in decimal, separated by commas.
fn put_bytes<B: Allocator>(bytes: &[u8], out: &mut Added<B>) -> Result<(), AllocError>
    ensures front { out.new.front ≡ out.old.front }
    ensures items { OnOk result (out.new.items ≡ out.old.items ++ bytes_text bytes.now) }
{
    let Some((first, rest)) = bytes.split_first() else {
        return Ok(());
    };
    put_byte(*first, out)?;
    for byte in rest {
        out.push(b',')?;
        put_byte(*byte, out)?;
    }
    Ok(())
}

/// Appends the text of a term in this form.
#[tactic(auto, using(crate::proofs::Bytes::integer_bytes, crate::proofs::Bytes::nil_bytes, crate::proofs::Bytes::atom_is, crate::proofs::Bytes::binary_is, crate::proofs::Bytes::list_depth))]
#[cycle(put)]
fn put<A: Allocator, B: Allocator>(
    form: Form,
    term: &Term<A>,
    out: &mut Added<B>,
) -> Result<(), AllocError>
    ensures front { out.new.front ≡ out.old.front }
    ensures items { OnOk result (out.new.items ≡ out.old.items ++ encode_utf8_all (text_as form term.now)) }
{
    match term.view() {
        View::Integer(value) => put_integer(value, out),
        View::Atom(text) => put_atom(text, out),
        View::Tuple(elements) => put_tuple(form, elements, out),
        View::Nil => out.extend_from_slice(b"[]"),
        View::List(elements, tail) => put_list(form, elements, tail, out),
        View::Map(pairs) => put_map(form, pairs, out),
        View::Binary(bytes) => put_binary(form, bytes, out),
    }
}

/// Returns whether a binary of these bytes is written between double quotes in this form.
fn is_text(form: Form, bytes: &[u8]) -> bool
    ensures { result ≡ (shows_strings form && (is_some bytes.now && are_shown bytes.now)) }
{
    match bytes {
        [] => false,
        [_, ..] => form.shows_strings() && are_shown(bytes),
    }
}

/// Appends the content of a binary.
#[tactic(auto, using(crate::proofs::Bytes::bytes_ascii))]
fn put_segments<B: Allocator>(
    form: Form,
    bytes: &[u8],
    out: &mut Added<B>,
) -> Result<(), AllocError>
    ensures front { out.new.front ≡ out.old.front }
    ensures items { OnOk result (out.new.items ≡ out.old.items
        ++ encode_utf8_all (segments_text form bytes.now)) }
{
    if is_text(form, bytes) {
        put_shown(bytes, out)
    } else {
        put_bytes(bytes, out)
    }
}

/// Appends a binary.
fn put_binary<B: Allocator>(form: Form, bytes: &[u8], out: &mut Added<B>) -> Result<(), AllocError>
    ensures front { out.new.front ≡ out.old.front }
    ensures items { OnOk result (out.new.items ≡ out.old.items
        ++ encode_utf8_all (binary_text form bytes.now)) }
{
    out.extend_from_slice(b"<<")?;
    put_segments(form, bytes, out)?;
    out.extend_from_slice(b">>")?;
    Ok(())
}

/// Appends the tuple of these elements.
#[tactic(auto, using(crate::proofs::Bytes::tuple_bytes))]
#[cycle(put)]
fn put_tuple<A: Allocator, B: Allocator>(
    form: Form,
    elements: &[Term<A>],
    out: &mut Added<B>,
) -> Result<(), AllocError>
    ensures front { out.new.front ≡ out.old.front }
    ensures items { OnOk result (out.new.items ≡ out.old.items
        ++ encode_utf8_all (text_as form (tuple (items_of elements.now)))) }
{
    out.push(b'{')?;
    put_elements(form, elements, out)?;
    out.push(b'}')?;
    Ok(())
}

/// Appends terms separated by commas.
#[tactic(auto, using(crate::proofs::Bytes::items_bytes, crate::proofs::Bytes::no_items_bytes, crate::proofs::Bytes::more_items_bytes, crate::proofs::Bytes::element_depth))]
#[cycle(put)]
fn put_elements<A: Allocator, B: Allocator>(
    form: Form,
    elements: &[Term<A>],
    out: &mut Added<B>,
) -> Result<(), AllocError>
    ensures front { out.new.front ≡ out.old.front }
    ensures items { OnOk result (out.new.items ≡ out.old.items
        ++ encode_utf8_all (items_text form (items_of elements.now))) }
{
    let Some((first, rest)) = elements.split_first() else {
        return Ok(());
    };
    put(form, first, out)?;
    for element in rest {
        out.push(b',')?;
        put(form, element, out)?;
    }
    Ok(())
}

/// Returns whether a list is written between double quotes in this form.
fn is_string<A: Allocator>(form: Form, elements: &[Term<A>], tail: Option<&Term<A>>) -> bool
    requires { IsTail (option_copied tail) }
    ensures { result ≡ (shows_strings form
        && is_string (cells elements.now (tail_of (option_copied tail.entry)))) }
{
    match tail {
        None => form.shows_strings() && are_characters(elements),
        Some(_) => false,
    }
}

/// Appends a list that has elements.
#[tactic(auto, using(crate::proofs::Bytes::list_bytes))]
#[cycle(put)]
fn put_list<A: Allocator, B: Allocator>(
    form: Form,
    elements: &[Term<A>],
    tail: Option<&Term<A>>,
    out: &mut Added<B>,
) -> Result<(), AllocError>
    requires { (0 < length elements.now) × IsTail (option_copied tail) }
    ensures front { out.new.front ≡ out.old.front }
    ensures items { OnOk result (out.new.items ≡ out.old.items
        ++ encode_utf8_all (text_as form (cells elements.now (tail_of (option_copied tail.entry))))) }
{
    if is_string(form, elements, tail) {
        return put_string(elements, out);
    }
    out.push(b'[')?;
    put_elements(form, elements, out)?;
    if let Some(tail) = tail {
        out.push(b'|')?;
        put(form, tail, out)?;
    }
    out.push(b']')?;
    Ok(())
}

/// Appends the map of these pairs.
#[tactic(auto, using(crate::proofs::Bytes::map_bytes))]
#[cycle(put)]
fn put_map<A: Allocator, B: Allocator>(
    form: Form,
    pairs: &[(Term<A>, Term<A>)],
    out: &mut Added<B>,
) -> Result<(), AllocError>
    ensures front { out.new.front ≡ out.old.front }
    ensures items { OnOk result (out.new.items ≡ out.old.items
        ++ encode_utf8_all (text_as form (map (entries_of pairs.now)))) }
{
    out.extend_from_slice(b"#{")?;
    put_pairs(form, pairs, out)?;
    out.push(b'}')?;
    Ok(())
}

/// Appends pairs separated by commas.
#[tactic(auto, using(crate::proofs::Bytes::pairs_bytes, crate::proofs::Bytes::no_pairs_bytes, crate::proofs::Bytes::more_pairs_bytes, crate::proofs::Bytes::entry_depth))]
#[cycle(put)]
fn put_pairs<A: Allocator, B: Allocator>(
    form: Form,
    pairs: &[(Term<A>, Term<A>)],
    out: &mut Added<B>,
) -> Result<(), AllocError>
    ensures front { out.new.front ≡ out.old.front }
    ensures items { OnOk result (out.new.items ≡ out.old.items
        ++ encode_utf8_all (entries_text form (entries_of pairs.now))) }
{
    let Some(((key, value), rest)) = pairs.split_first() else {
        return Ok(());
    };
    put_pair(form, key, value, out)?;
    for (key, value) in rest {
        out.push(b',')?;
        put_pair(form, key, value, out)?;
    }
    Ok(())
}

/// Appends a key, an arrow and a value.
#[tactic(auto, using(crate::proofs::Bytes::pair_bytes))]
#[cycle(put)]
fn put_pair<A: Allocator, B: Allocator>(
    form: Form,
    key: &Term<A>,
    value: &Term<A>,
    out: &mut Added<B>,
) -> Result<(), AllocError>
    ensures front { out.new.front ≡ out.old.front }
    ensures items { OnOk result (out.new.items ≡ out.old.items
        ++ encode_utf8_all (text_as form key.now ++ (equals ∷ greater ∷ text_as form value.now))) }
{
    put(form, key, out)?;
    out.extend_from_slice(b"=>")?;
    put(form, value, out)?;
    Ok(())
}

/// Takes the bytes out of `out`, which is then empty, to append to them.
#[inline(always)]
fn taken<B: Allocator + Copy>(out: &mut Vec<u8, B>) -> Added<B>
    ensures front { result.front ≡ out.old.items }
    ensures items { result.items ≡ [] }
{
    let empty = Vec::new(*out.allocator());
    Added::new(mem::replace(out, empty))
}

/// Puts the bytes back into `out`: with what was appended if `ended` is `Ok`, without it otherwise. Returns `ended`.
#[inline(always)]
fn put_back<B: Allocator>(
    text: Added<B>,
    ended: Result<(), AllocError>,
    out: &mut Vec<u8, B>,
) -> Result<(), AllocError>
    ensures same { result ≡ ended }
    ensures ok { OnOk result (out.new.items ≡ text.front ++ text.items) }
    ensures err { OnErr result (out.new.items ≡ text.front) }
{
    match ended {
        Ok(()) => *out = text.whole(),
        Err(AllocError) => *out = text.before(),
    }
    ended
}

/// Appends the text of a term in this form, in UTF-8. Fails if an allocation fails; `out` is then unchanged.
pub fn write_as<A: Allocator, B: Allocator + Copy>(
    form: Form,
    term: &Term<A>,
    out: &mut Vec<u8, B>,
) -> Result<(), AllocError>
    ensures ok { OnOk result (out.new.items ≡ out.old.items
        ++ encode_utf8_all (text_as form term.now)) }
    ensures err { OnErr result (out.new.items ≡ out.old.items) }
{
    let mut text = taken(out);
    let ended = put(form, term, &mut text);
    put_back(text, ended, out)
}

/// Appends the canonical text of a term: no white space, integers in decimal, lists never as strings, maps in ascending
/// key order. Fails if an allocation fails; `out` is then unchanged.
pub fn write_term<A: Allocator, B: Allocator + Copy>(
    term: &Term<A>,
    out: &mut Vec<u8, B>,
) -> Result<(), AllocError>
    ensures ok { OnOk result (out.new.items ≡ out.old.items
        ++ encode_utf8_all (canonical term.now)) }
    ensures err { OnErr result (out.new.items ≡ out.old.items) }
{
    write_as(Form::Canonical, term, out)
}

/// Appends the text of a term for people. It is the canonical text, except that strings are written between double
/// quotes. A string is a binary or a proper list of character codes that is not empty, and consists of printable ASCII,
/// tabs, line feeds and carriage returns. Fails if an allocation fails; `out` is then unchanged.
pub fn write_readable<A: Allocator, B: Allocator + Copy>(
    term: &Term<A>,
    out: &mut Vec<u8, B>,
) -> Result<(), AllocError>
    ensures ok { OnOk result (out.new.items ≡ out.old.items
        ++ encode_utf8_all (readable term.now)) }
    ensures err { OnErr result (out.new.items ≡ out.old.items) }
{
    write_as(Form::Readable, term, out)
}

/// Appends the canonical text of the binary of these bytes, such as `<<1,2>>`. There may be more bytes than a term may
/// have. Fails if an allocation fails; `out` is then unchanged.
#[tactic(auto, using(crate::proofs::Bytes::binary_is))]
pub fn write_binary<B: Allocator + Copy>(
    bytes: &[u8],
    out: &mut Vec<u8, B>,
) -> Result<(), AllocError>
    ensures ok { OnOk result (out.new.items ≡ out.old.items
        ++ encode_utf8_all (canonical (binary bytes.now))) }
    ensures err { OnErr result (out.new.items ≡ out.old.items) }
{
    let mut text = taken(out);
    let ended = put_binary(Form::Canonical, bytes, &mut text);
    put_back(text, ended, out)
}
