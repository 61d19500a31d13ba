//! Reading constants.
ghost use Rattle.std.specs.Prelude.{◌≡◌, ◌≢◌, ◌<◌, ◌≤◌, ◌↔◌, ◌++◌, ◌∷◌, [], IsTrue, ◌*◌, max, vec_len, vec_capacity};
ghost use Rattle.term_core.specs.declared.fault.Fault.TheVariants as Refusal;
ghost use Rattle.term_core.specs.ShortRow.{row_items};
ghost use Rattle.code_writer.specs.Format.{Begins, rows, such};
ghost use Rattle.code_writer.specs.Formats.{u8_format, u16_format, length_format, constant_format, utf8_format, binary_format, pair_format, RisingPairs};
ghost use Rattle.code_file.specs.Due.{BeginsWith};
ghost use Rattle.code_file.specs.Due.Item.{many, a_term, a_pair, a_text_size, a_list_length, a_binary_size};
ghost use Rattle.code_file.specs.Due.Row.{terms, pairs};
ghost use Rattle.code_file.specs.Reads.{Reads, Blames, limit_stop};

use crate::number::{read_i64, read_u8, read_u16, read_u32, take};
use crate::stop::{FileCause, FileStop};
use std::alloc::{AllocError, Allocator};
use std::str::from_utf8;
use term_build::{atom_of_text, map_of_pairs};
use term_core::{Fault, MAX_BINARY, MAX_LIST, ShortRow, Term};
use term_order::is_key_above;

/// The tag of a list.
const LIST: u8 = 6;

/// Returns why an atom was not made, if its characters begin where `left` bytes are left.
fn atom_stop(fault: Fault, left: usize) -> FileStop
    requires deep { fault ≢ Refusal.TooDeep }
    requires twice { fault ≢ Refusal.DuplicateKey }
    ensures { result ≡ limit_stop fault left }
{
    match fault {
        Fault::Memory => FileStop::Memory,
        Fault::TooLong => FileStop::At(FileCause::Limit, left),
        Fault::TooDeep | Fault::DuplicateKey => unreachable!(),
    }
}

/// Reads the text of an atom, after its tag. Stops if it is not UTF-8.
fn read_text(bytes: &[u8]) -> Result<(&str, &[u8]), FileStop>
    ensures { Reads utf8_format (Blames a_text_size bytes.now) (λ r. (r.0.now, r.1.now)) bytes.now
        result }
{
    let (count, behind) = read_u16(bytes)?;
    let (text, rest) = take(behind, usize::from(count))?;
    let text = from_utf8(text).map_err(|_| FileStop::At(FileCause::NotCanonical, behind.len()))?;
    Ok((text, rest))
}

/// Reads the bytes of a binary, after its tag. Stops if there are too many.
fn read_binary_bytes(bytes: &[u8]) -> Result<(&[u8], &[u8]), FileStop>
    ensures { Reads binary_format (Blames a_binary_size bytes.now) (λ r. (r.0.now, r.1.now))
        bytes.now result }
{
    let (count, behind) = read_u32(bytes)?;
    let count = count as usize;
    if count > MAX_BINARY {
        return Err(FileStop::At(FileCause::Limit, bytes.len()));
    }
    let (content, rest) = take(behind, count)?;
    Ok((content, rest))
}

/// Reads the number of elements of a list. Stops if it is 0 or too large.
fn read_length(bytes: &[u8]) -> Result<(u32, &[u8]), FileStop>
    ensures { Reads length_format (Blames a_list_length bytes.now) (λ r. (r.0, r.1.now)) bytes.now
        result }
{
    let (count, rest) = read_u32(bytes)?;
    if count == 0 {
        return Err(FileStop::At(FileCause::NotCanonical, bytes.len()));
    }
    if count as usize > MAX_LIST {
        return Err(FileStop::At(FileCause::Limit, bytes.len()));
    }
    Ok((count, rest))
}

/// Reads an integer. `rest` is what follows its tag.
fn read_integer<'a, A: Allocator>(
    bytes: &[u8],
    rest: &'a [u8],
    room: u8,
) -> Result<(Term<A>, &'a [u8]), FileStop>
    requires tag { Begins u8_format bytes.now 1 rest.now }
    requires room { 0 < room }
    ensures { Reads (constant_format room) (Blames (a_term room) bytes.now) (λ r. (r.0, r.1.now))
        bytes.now result }
{
    let (value, behind) = read_i64(rest)?;
    Ok((Term::int(value), behind))
}

/// Reads an atom. `rest` is what follows its tag.
fn read_atom<'a, A: Allocator + Copy>(
    alloc: A,
    bytes: &[u8],
    rest: &'a [u8],
    room: u8,
) -> Result<(Term<A>, &'a [u8]), FileStop>
    requires tag { Begins u8_format bytes.now 2 rest.now }
    requires room { 0 < room }
    ensures { Reads (constant_format room) (Blames (a_term room) bytes.now) (λ r. (r.0, r.1.now))
        bytes.now result }
{
    let (text, behind) = read_text(rest)?;
    let left = rest.len() - 2;
    let atom = atom_of_text(alloc, text).map_err(|fault| atom_stop(fault, left))?;
    // The proof needs this read: a term is within its limits.
    let _depth = atom.depth();
    Ok((atom, behind))
}

/// Reads a binary. `rest` is what follows its tag.
fn read_binary<'a, A: Allocator + Copy>(
    alloc: A,
    bytes: &[u8],
    rest: &'a [u8],
    room: u8,
) -> Result<(Term<A>, &'a [u8]), FileStop>
    requires tag { Begins u8_format bytes.now 7 rest.now }
    requires room { 0 < room }
    ensures { Reads (constant_format room) (Blames (a_term room) bytes.now) (λ r. (r.0, r.1.now))
        bytes.now result }
{
    let (content, behind) = read_binary_bytes(rest)?;
    let binary = Term::binary(alloc, content).map_err(|fault| fault.alloc_error())?;
    // The proof needs this read: a term is within its limits.
    let _depth = binary.depth();
    Ok((binary, behind))
}

/// Returns whether these bytes begin with the tag of a list.
fn begins_list(bytes: &[u8]) -> bool
    ensures { IsTrue result ↔ BeginsWith (6 ∷ []) bytes.now }
{
    match bytes.first() {
        Some(tag) => *tag == LIST,
        None => false,
    }
}

/// Reads a term of at most `room` levels. The recursion is no deeper than that, whatever the file.
#[cycle(constant)]
pub fn read_constant<A: Allocator + Copy>(
    alloc: A,
    bytes: &[u8],
    room: u8,
) -> Result<(Term<A>, &[u8]), FileStop>
    ensures { Reads (constant_format room) (Blames (a_term room) bytes.now) (λ r. (r.0, r.1.now))
        bytes.now result }
{
    let (tag, rest) = read_u8(bytes)?;
    if room == 0 {
        return Err(FileStop::At(FileCause::Limit, bytes.len()));
    }
    match tag {
        1 => read_integer(bytes, rest, room),
        2 => read_atom(alloc, bytes, rest, room),
        3 => read_tuple(alloc, bytes, rest, room),
        4 => read_map(alloc, bytes, rest, room),
        5 => Ok((Term::nil(), rest)),
        LIST => read_list(alloc, bytes, rest, room),
        7 => read_binary(alloc, bytes, rest, room),
        _ => Err(FileStop::At(FileCause::BadOpcode, bytes.len())),
    }
}

/// The largest number of terms for which a row has places at first.
const FIRST_TERMS: usize = 16;
/// The largest number of pairs for which a row has places at first.
const FIRST_PAIRS: usize = 8;

/// Returns the number of places with which a row of `count` items begins: the number that it needs, but at most `most`.
/// A count is not trusted before its items were read.
fn first_places(count: u32, most: usize) -> usize
    ensures { result ≤ most }
{
    (count as usize).min(most)
}

/// Makes room in a full row that expects `left` more items: for these, but at most for as many as it has.
fn make_room<T, A: Allocator>(row: &mut Vec<T, A>, left: u32) -> Result<(), AllocError>
    ensures same { row.new.items ≡ row.old.items }
    ensures room { vec_capacity row.new ≤ max (vec_capacity row.old) (2 * vec_len row.old) }
{
    if row.len() == row.capacity() {
        row.reserve_exact(first_places(left, row.len()))?;
    }
    Ok(())
}

/// Reads `count` terms, one after the other.
#[cycle(constant)]
pub(crate) fn read_elements<A: Allocator + Copy>(
    alloc: A,
    count: u32,
    bytes: &[u8],
    room: u8,
) -> Result<(Vec<Term<A>, A>, &[u8]), FileStop>
    ensures { Reads (rows (constant_format room) count) (Blames (many (terms room) count) bytes.now)
        (λ r. (r.0.items, r.1.now)) bytes.now result }
{
    let mut elements = Vec::with_capacity(alloc, first_places(count, FIRST_TERMS))?;
    let mut rest = bytes;
    for read in 0..count {
        let (element, behind) = read_constant(alloc, rest, room)?;
        make_room(&mut elements, count - read)?;
        elements.push(element)?;
        rest = behind;
    }
    Ok((elements, rest))
}

/// Reads one to four terms, one after the other, without allocating a row.
#[cycle(constant)]
fn read_short_row<A: Allocator + Copy>(
    alloc: A,
    count: u16,
    bytes: &[u8],
    room: u8,
) -> Result<(ShortRow<A>, &[u8]), FileStop>
    requires some { 0 < count }
    requires few { count ≤ 4 }
    ensures { Reads (rows (constant_format room) count) (Blames (many (terms room) count) bytes.now)
        (λ r. (row_items r.0, r.1.now)) bytes.now result }
{
    let (first, behind) = read_constant(alloc, bytes, room)?;
    let mut row = ShortRow::One([first]);
    let mut rest = behind;
    for _read in 1..count {
        let (term, after) = read_constant(alloc, rest, room)?;
        row = row.with(term);
        rest = after;
    }
    Ok((row, rest))
}

/// Reads a tuple of one to four elements. `rest` is what follows its tag, `behind` what follows its count.
#[cycle(constant)]
fn read_short_tuple<'a, A: Allocator + Copy>(
    alloc: A,
    bytes: &[u8],
    rest: &[u8],
    count: u16,
    behind: &'a [u8],
    room: u8,
) -> Result<(Term<A>, &'a [u8]), FileStop>
    requires tag { Begins u8_format bytes.now 3 rest.now }
    requires count { Begins u16_format rest.now count behind.now }
    requires some { 0 < count }
    requires few { count ≤ 4 }
    requires room { 0 < room }
    ensures { Reads (constant_format room) (Blames (a_term room) bytes.now) (λ r. (r.0, r.1.now))
        bytes.now result }
{
    let (elements, behind) = read_short_row(alloc, count, behind, room - 1)?;
    let tuple = Term::short_tuple(alloc, elements).map_err(
        |refused| -> AllocError
            requires { refused.fault ≡ Refusal.Memory }
        { refused.fault.alloc_error() },
    )?;
    Ok((tuple, behind))
}

/// Reads a tuple. `rest` is what follows its tag.
#[cycle(constant)]
fn read_tuple<'a, A: Allocator + Copy>(
    alloc: A,
    bytes: &[u8],
    rest: &'a [u8],
    room: u8,
) -> Result<(Term<A>, &'a [u8]), FileStop>
    requires tag { Begins u8_format bytes.now 3 rest.now }
    requires room { 0 < room }
    ensures { Reads (constant_format room) (Blames (a_term room) bytes.now) (λ r. (r.0, r.1.now))
        bytes.now result }
{
    let (count, behind) = read_u16(rest)?;
    if let 1..=4 = count {
        return read_short_tuple(alloc, bytes, rest, count, behind, room);
    }
    let (elements, behind) = read_elements(alloc, u32::from(count), behind, room - 1)?;
    let tuple = Term::tuple(alloc, elements).map_err(|refused| refused.fault.alloc_error())?;
    Ok((tuple, behind))
}

/// Reads a pair. Stops if its key is not above those before it.
#[cycle(constant)]
fn read_pair<'a, A: Allocator + Copy>(
    alloc: A,
    before: &[(Term<A>, Term<A>)],
    bytes: &'a [u8],
    room: u8,
) -> Result<((Term<A>, Term<A>), &'a [u8]), FileStop>
    requires rising { RisingPairs before.now }
    ensures { Reads (such (pair_format room) (λ p. RisingPairs (before.now ++ p ∷ [])))
        (Blames (a_pair room before.now) bytes.now)
        (λ r. (r.0, r.1.now)) bytes.now result }
{
    let (key, rest) = read_constant(alloc, bytes, room)?;
    if !is_key_above(before, &key) {
        return Err(FileStop::At(FileCause::NotCanonical, bytes.len()));
    }
    let (value, rest) = read_constant(alloc, rest, room)?;
    Ok(((key, value), rest))
}

/// Reads `count` pairs, whose keys have to be in ascending order.
#[cycle(constant)]
fn read_pairs<A: Allocator + Copy>(
    alloc: A,
    count: u16,
    bytes: &[u8],
    room: u8,
) -> Result<(Vec<(Term<A>, Term<A>), A>, &[u8]), FileStop>
    ensures { Reads (such (rows (pair_format room) count) RisingPairs)
        (Blames (many (pairs room) count) bytes.now) (λ r. (r.0.items, r.1.now)) bytes.now result }
{
    let mut pairs = Vec::with_capacity(alloc, first_places(u32::from(count), FIRST_PAIRS))?;
    let mut rest = bytes;
    for read in 0..count {
        let (pair, behind) = read_pair(alloc, pairs.as_slice(), rest, room)?;
        make_room(&mut pairs, u32::from(count - read))?;
        pairs.push(pair)?;
        rest = behind;
    }
    Ok((pairs, rest))
}

/// Reads a map of one pair without allocating a row. `rest` is what follows its tag, `behind` what follows its count.
#[cycle(constant)]
fn read_map_of_one<'a, A: Allocator + Copy>(
    alloc: A,
    bytes: &[u8],
    rest: &[u8],
    behind: &'a [u8],
    room: u8,
) -> Result<(Term<A>, &'a [u8]), FileStop>
    requires tag { Begins u8_format bytes.now 4 rest.now }
    requires count { Begins u16_format rest.now 1 behind.now }
    requires room { 0 < room }
    ensures { Reads (constant_format room) (Blames (a_term room) bytes.now) (λ r. (r.0, r.1.now))
        bytes.now result }
{
    let before = Vec::new(alloc);
    let ((key, value), behind) = read_pair(alloc, before.as_slice(), behind, room - 1)?;
    let map = Term::map_of_one(alloc, key, value).map_err(|refused| refused.fault.alloc_error())?;
    Ok((map, behind))
}

/// Reads a map. `rest` is what follows its tag.
#[cycle(constant)]
fn read_map<'a, A: Allocator + Copy>(
    alloc: A,
    bytes: &[u8],
    rest: &'a [u8],
    room: u8,
) -> Result<(Term<A>, &'a [u8]), FileStop>
    requires tag { Begins u8_format bytes.now 4 rest.now }
    requires room { 0 < room }
    ensures { Reads (constant_format room) (Blames (a_term room) bytes.now) (λ r. (r.0, r.1.now))
        bytes.now result }
{
    let (count, behind) = read_u16(rest)?;
    if count == 1 {
        return read_map_of_one(alloc, bytes, rest, behind, room);
    }
    let (pairs, behind) = read_pairs(alloc, count, behind, room - 1)?;
    let map = map_of_pairs(alloc, pairs).map_err(|refused| refused.fault.alloc_error())?;
    Ok((map, behind))
}

/// Reads a list. `rest` is what follows its tag.
#[cycle(constant)]
fn read_list<'a, A: Allocator + Copy>(
    alloc: A,
    bytes: &[u8],
    rest: &'a [u8],
    room: u8,
) -> Result<(Term<A>, &'a [u8]), FileStop>
    requires tag { Begins u8_format bytes.now 6 rest.now }
    requires room { 0 < room }
    ensures { Reads (constant_format room) (Blames (a_term room) bytes.now) (λ r. (r.0, r.1.now))
        bytes.now result }
{
    let (count, behind) = read_length(rest)?;
    let (elements, behind) = read_elements(alloc, count, behind, room - 1)?;
    if begins_list(behind) {
        return Err(FileStop::At(FileCause::NotCanonical, behind.len()));
    }
    let (tail, behind) = read_constant(alloc, behind, room - 1)?;
    let list = Term::list(alloc, elements, Some(tail)).map_err(|refused| {
        refused.fault.alloc_error()
    })?;
    Ok((list, behind))
}
