//! Frames in a row.
//!
//! A frame is `{Pc,Depth,[{Place,Kind}],[Slot]}`. In a list of frames, `{First,Count}` means that many frames of depth
//! 0 and any kinds, at ascending instructions. Among places, `{First,Count,Kind}` means that many places of one kind,
//! and among slots `{First,Count}` means that many slots.
use kit_rows::{elements, fields, is_atom, number, short};
use mcode::{Frame, Kind, Places, Slots};
use std::alloc::Allocator;
use term_core::Term;

/// The kinds that a word names.
const KINDS: [(&str, Kind); 5] = [
    ("any", Kind::Any),
    ("int", Kind::Int),
    ("bool", Kind::Bool),
    ("cons", Kind::Cons),
    ("map", Kind::Map),
];

/// Returns the one of these kinds that a term names, or `None`.
fn named<A: Allocator>(kinds: &[(&str, Kind)], term: &Term<A>) -> Option<Kind> {
    for (name, kind) in kinds {
        if is_atom(term, name) {
            return Some(*kind);
        }
    }
    None
}

/// Returns the kind that a term describes, or `None`.
pub(crate) fn kind<A: Allocator>(term: &Term<A>) -> Option<Kind> {
    match fields(term) {
        Some([tuple, size]) if is_atom(tuple, "tuple") => Some(Kind::Tuple(short(size)?)),
        _ => named(&KINDS, term),
    }
}

/// Appends `count` places of one kind, from `first` on.
fn push_places<A: Allocator>(
    out: &mut Vec<(u16, Kind), A>,
    first: u32,
    count: u32,
    kind: Kind,
) -> Option<()> {
    for place in first..first.saturating_add(count) {
        out.push((u16::try_from(place).ok()?, kind)).ok()?;
    }
    Some(())
}

/// Appends the places that a member of a list describes.
fn push_member<A: Allocator>(out: &mut Vec<(u16, Kind), A>, member: &[Term<A>]) -> Option<()> {
    match member {
        [place, named] => out.push((short(place)?, kind(named)?)).ok(),
        [first, count, named] => push_places(out, number(first)?, number(count)?, kind(named)?),
        _ => None,
    }
}

/// Appends the places that the members of a list describe.
fn push_members<A: Allocator>(out: &mut Vec<(u16, Kind), A>, members: &[Term<A>]) -> Option<()> {
    for member in members {
        push_member(out, fields(member)?)?;
    }
    Some(())
}

/// Returns the places that a list describes.
fn places<A: Allocator + Copy>(heap: A, list: &Term<A>) -> Option<Vec<(u16, Kind), A>> {
    let members = elements(list)?;
    let mut out = Vec::new(heap);
    match push_members(&mut out, members) {
        Some(()) => Some(out),
        None => None,
    }
}

/// Appends `count` slots, from `first` on.
fn push_slots<A: Allocator>(out: &mut Vec<u8, A>, first: u32, count: u32) -> Option<()> {
    for slot in first..first.saturating_add(count) {
        out.push(u8::try_from(slot).ok()?).ok()?;
    }
    Some(())
}

/// Returns the first slot that a member of a list describes, and the number of slots.
fn slot_range<A: Allocator>(member: &Term<A>) -> Option<(u32, u32)> {
    match fields(member) {
        Some([first, count]) => Some((number(first)?, number(count)?)),
        _ => Some((number(member)?, 1)),
    }
}

/// Returns the slots that a list describes.
fn slots<A: Allocator + Copy>(heap: A, list: &Term<A>) -> Option<Vec<u8, A>> {
    let mut out = Vec::new(heap);
    for member in elements(list)? {
        let (first, count) = slot_range(member)?;
        push_slots(&mut out, first, count)?;
    }
    Some(out)
}

/// Returns a frame of depth 0 and any kinds, at this instruction.
fn bare<A: Allocator + Copy>(heap: A, pc: u32) -> Option<Frame<A>> {
    Some(Frame {
        pc: u16::try_from(pc).ok()?,
        depth: 0,
        places: Places::new(Vec::new(heap)),
        slots: Slots::new(Vec::new(heap)),
    })
}

/// Appends `count` frames of depth 0 and any kinds, from the instruction `first` on.
fn push_bare<A: Allocator + Copy>(
    heap: A,
    out: &mut Vec<Frame<A>, A>,
    first: u32,
    count: u32,
) -> Option<()> {
    for pc in first..first.saturating_add(count) {
        out.push(bare(heap, pc)?).ok()?;
    }
    Some(())
}

/// Returns the frame at an instruction, of this depth, with the places and slots that these lists describe.
fn frame<A: Allocator + Copy>(
    heap: A,
    pc: u16,
    depth: u16,
    placed: &Term<A>,
    bound: &Term<A>,
) -> Option<Frame<A>> {
    let (places, slots) = places(heap, placed).zip(slots(heap, bound))?;
    Some(Frame {
        pc,
        depth,
        places: Places::new(places),
        slots: Slots::new(slots),
    })
}

/// Appends the frames that a member of a list describes.
fn push_frame<A: Allocator + Copy>(
    heap: A,
    out: &mut Vec<Frame<A>, A>,
    member: &[Term<A>],
) -> Option<()> {
    match member {
        [first, count] => push_bare(heap, out, number(first)?, number(count)?),
        [pc, depth, placed, bound] => {
            let frame = frame(heap, short(pc)?, short(depth)?, placed, bound)?;
            out.push(frame).ok()
        }
        _ => None,
    }
}

/// Appends the frames that the members of a list describe.
fn push_frames<A: Allocator + Copy>(
    heap: A,
    out: &mut Vec<Frame<A>, A>,
    members: &[Term<A>],
) -> Option<()> {
    for member in members {
        push_frame(heap, out, fields(member)?)?;
    }
    Some(())
}

/// Returns the frames that a list describes, or `None`.
pub(crate) fn frames<A: Allocator + Copy>(heap: A, list: &Term<A>) -> Option<Vec<Frame<A>, A>> {
    let members = elements(list)?;
    let mut out = Vec::new(heap);
    match push_frames(heap, &mut out, members) {
        Some(()) => Some(out),
        None => {
            drop(out);
            None
        }
    }
}

/// Returns whether two frames are equal.
pub(crate) fn same_frame<A: Allocator>(left: &Frame<A>, right: &Frame<A>) -> bool {
    left.pc == right.pc
        && left.depth == right.depth
        && left.places.as_slice() == right.places.as_slice()
        && left.slots.as_slice() == right.slots.as_slice()
}
