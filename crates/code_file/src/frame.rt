//! Reading frames.
ghost use Rattle.std.specs.Prelude.{◌≡◌, ◌<◌, ◌↔◌, ◌++◌, ◌∷◌, [], IsTrue, IfSome, IfOk};
ghost use Rattle.mcode.specs.Program.{Rise, place_number};
ghost use Rattle.code_writer.specs.Format.{rows, such};
ghost use Rattle.code_writer.specs.Formats.{u8_format, kind_format, place_format, places_format, slots_format, frame_rest_format};
ghost use Rattle.code_file.specs.Due.Item.{a_count, many, a_depth, a_place, a_kind, a_slot};
ghost use Rattle.code_file.specs.Due.Row.{places, slots};
ghost use Rattle.code_file.specs.Reads.{Reads, Blames};
ghost use Rattle.code_file.specs.Rising.{LastIs};

use crate::number::{read_u8, read_u16};
use crate::stop::{FileCause, FileStop};
use mcode::{Frame, Kind, Places, Slots};
use std::alloc::Allocator;

/// Reads a kind other than `Kind::Any`.
pub(crate) fn read_kind(bytes: &[u8]) -> Result<(Kind, &[u8]), FileStop>
    ensures { Reads kind_format (Blames a_kind bytes.now) (λ r. (r.0, r.1.now)) bytes.now result }
{
    let (tag, rest) = read_u8(bytes)?;
    match tag {
        1 => Ok((Kind::Int, rest)),
        2 => Ok((Kind::Bool, rest)),
        3 => Ok((Kind::Cons, rest)),
        4 => Ok((Kind::Map, rest)),
        5 => {
            let (size, rest) = read_u16(rest)?;
            Ok((Kind::Tuple(size), rest))
        }
        _ => Err(FileStop::At(FileCause::BadOpcode, bytes.len())),
    }
}

/// Returns whether a number is above the last one, if there is one.
pub(crate) fn is_above(last: Option<u16>, number: u16) -> bool
    ensures { IsTrue result ↔ IfSome last (λ l. l < number) }
{
    match last {
        Some(last) => last < number,
        None => true,
    }
}

/// Returns the number of the last of these places, or `None` if there are none.
fn last_place(places: &[(u16, Kind)]) -> Option<u16>
    ensures { LastIs place_number places.now result }
{
    match places.last() {
        Some(last) => Some(last.0),
        None => None,
    }
}

/// Returns the last of these slots, or `None` if there are none.
fn last_slot(slots: &[u8]) -> Option<u16>
    ensures { LastIs (λ slot. slot) slots.now result }
{
    match slots.last() {
        Some(last) => Some(u16::from(*last)),
        None => None,
    }
}

/// Reads a place with its kind. Stops if it is not above those before it.
fn read_place<'a>(
    before: &[(u16, Kind)],
    bytes: &'a [u8],
) -> Result<((u16, Kind), &'a [u8]), FileStop>
    requires { Rise place_number before.now }
    ensures { Reads (such place_format (λ p. Rise place_number (before.now ++ p ∷ [])))
        (Blames (a_place before.now) bytes.now) (λ r. (r.0, r.1.now)) bytes.now
        result }
{
    let (number, rest) = read_u16(bytes)?;
    if !is_above(last_place(before), number) {
        return Err(FileStop::At(FileCause::NotCanonical, bytes.len()));
    }
    let (kind, rest) = read_kind(rest)?;
    Ok(((number, kind), rest))
}

/// Reads `count` places, which have to be in ascending order.
fn read_place_rows<A: Allocator>(
    alloc: A,
    count: u16,
    bytes: &[u8],
) -> Result<(Vec<(u16, Kind), A>, &[u8]), FileStop>
    ensures { Reads (such (rows place_format count) (Rise place_number)) (Blames (many places count) bytes.now)
        (λ r. (r.0.items, r.1.now)) bytes.now result }
{
    let mut places = Vec::new(alloc);
    let mut rest = bytes;
    for _read in 0..count {
        let (place, behind) = read_place(places.as_slice(), rest)?;
        places.push(place)?;
        rest = behind;
    }
    Ok((places, rest))
}

/// Reads the number of places of a frame and then these.
fn read_places<A: Allocator>(alloc: A, bytes: &[u8]) -> Result<(Places<A>, &[u8]), FileStop>
    ensures { Reads places_format (Blames (a_count places) bytes.now) (λ r. (r.0, r.1.now)) bytes.now result }
{
    let (count, rest) = read_u16(bytes)?;
    let (places, rest) = read_place_rows(alloc, count, rest)?;
    Ok((Places::new(places), rest))
}

/// Reads a slot. Stops if it is not above those before it.
fn read_slot<'a>(before: &[u8], bytes: &'a [u8]) -> Result<(u8, &'a [u8]), FileStop>
    requires { Rise (λ slot. slot) before.now }
    ensures { Reads (such u8_format (λ v. Rise (λ slot. slot) (before.now ++ v ∷ [])))
        (Blames (a_slot before.now) bytes.now) (λ r. (r.0, r.1.now)) bytes.now result }
{
    let (slot, rest) = read_u8(bytes)?;
    if !is_above(last_slot(before), u16::from(slot)) {
        return Err(FileStop::At(FileCause::NotCanonical, bytes.len()));
    }
    Ok((slot, rest))
}

/// Reads `count` slots, which have to be in ascending order.
fn read_slot_rows<A: Allocator>(
    alloc: A,
    count: u16,
    bytes: &[u8],
) -> Result<(Vec<u8, A>, &[u8]), FileStop>
    ensures { Reads (such (rows u8_format count) (Rise (λ slot. slot))) (Blames (many slots count) bytes.now)
        (λ r. (r.0.items, r.1.now)) bytes.now result }
{
    let mut slots = Vec::new(alloc);
    let mut rest = bytes;
    for _read in 0..count {
        let (slot, behind) = read_slot(slots.as_slice(), rest)?;
        slots.push(slot)?;
        rest = behind;
    }
    Ok((slots, rest))
}

/// Reads the number of slots of a frame and then these.
fn read_slots<A: Allocator>(alloc: A, bytes: &[u8]) -> Result<(Slots<A>, &[u8]), FileStop>
    ensures { Reads slots_format (Blames (a_count slots) bytes.now) (λ r. (r.0, r.1.now)) bytes.now result }
{
    let (count, rest) = read_u16(bytes)?;
    let (slots, rest) = read_slot_rows(alloc, count, rest)?;
    Ok((Slots::new(slots), rest))
}

/// Reads the frame at an instruction, after the instruction's number.
pub(crate) fn read_frame_at<A: Allocator + Copy>(
    alloc: A,
    pc: u16,
    bytes: &[u8],
) -> Result<(Frame<A>, &[u8]), FileStop>
    ensures rest { Reads frame_rest_format (Blames a_depth bytes.now)
        (λ r. ((r.0.depth, (r.0.places, r.0.slots)), r.1.now)) bytes.now result }
    ensures pc { IfOk result (λ r. r.0.pc ≡ pc) }
{
    let (depth, rest) = read_u16(bytes)?;
    let (places, rest) = read_places(alloc, rest)?;
    let (slots, rest) = read_slots(alloc, rest)?;
    let frame = Frame {
        pc,
        depth,
        places,
        slots,
    };
    Ok((frame, rest))
}
