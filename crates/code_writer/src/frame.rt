//! Writing frames.
ghost use Rattle.std.specs.Prelude.{◌≡◌, ◌≤◌, ◌++◌, All, length, map, OnOk};
ghost use Rattle.std.specs.List.{flat_map};
ghost use Rattle.mcode.specs.Frame.{frame_of};
ghost use Rattle.mcode.specs.Program.{IsFrame, Rise, most_parts};
ghost use Rattle.code_writer.specs.Spelling.{u16_bytes, kind_bytes, place_bytes, frame_bytes};
ghost use Rattle.code_writer.specs.File.{IsU8, HoldsSize, HoldsPlace, HoldsFrame};

use crate::number::{put_u8, put_u16};
use mcode::{Frame, Kind};
use std::alloc::{AllocError, Allocator};

/// Appends a kind, or nothing for `Kind::Any`.
pub(crate) fn put_kind<A: Allocator>(kind: Kind, out: &mut Vec<u8, A>) -> Result<(), AllocError>
    ensures bytes { OnOk result (out.new.items ≡ out.old.items ++ kind_bytes kind) }
    ensures held { HoldsSize kind }
{
    match kind {
        Kind::Any => Ok(()),
        Kind::Int => put_u8(1, out),
        Kind::Bool => put_u8(2, out),
        Kind::Cons => put_u8(3, out),
        Kind::Map => put_u8(4, out),
        Kind::Tuple(size) => {
            put_u8(5, out)?;
            put_u16(size, out)
        }
    }
}

/// Appends a place and its kind.
fn put_place<A: Allocator>(place: (u16, Kind), out: &mut Vec<u8, A>) -> Result<(), AllocError>
    ensures bytes { OnOk result (out.new.items ≡ out.old.items ++ place_bytes place) }
    ensures held { OnOk result (HoldsPlace place) }
{
    let (number, kind) = place;
    put_u16(number, out)?;
    put_kind(kind, out)
}

/// Appends the number of places and then the places.
fn put_places<A: Allocator>(places: &[(u16, Kind)], out: &mut Vec<u8, A>) -> Result<(), AllocError>
    requires { length places.now ≤ most_parts }
    ensures bytes { OnOk result (out.new.items ≡ out.old.items ++ (u16_bytes (length places.now)
        ++ flat_map place_bytes places.now)) }
    ensures held { OnOk result (All HoldsPlace places.now) }
{
    put_u16(places.len() as u16, out)?;
    for place in places {
        put_place(*place, out)?;
    }
    Ok(())
}

/// Appends the number of slots and then the slots, which are in ascending order.
fn put_slots<A: Allocator>(slots: &[u8], out: &mut Vec<u8, A>) -> Result<(), AllocError>
    requires { Rise (λ slot. slot) slots.now }
    ensures bytes { OnOk result (out.new.items ≡ out.old.items ++ (u16_bytes (length slots.now)
        ++ slots.now)) }
    ensures held { All IsU8 slots.now }
{
    put_u16(slots.len() as u16, out)?;
    out.extend_from_slice(slots)
}

/// Appends a frame.
fn put_frame<A: Allocator, B: Allocator>(
    frame: &Frame<A>,
    out: &mut Vec<u8, B>,
) -> Result<(), AllocError>
    requires { IsFrame (frame_of frame.now) }
    ensures bytes { OnOk result (out.new.items ≡ out.old.items ++ frame_bytes (frame_of frame.now)) }
    ensures held { OnOk result (HoldsFrame (frame_of frame.now)) }
{
    put_u16(frame.pc, out)?;
    put_u16(frame.depth, out)?;
    put_places(frame.places.as_slice(), out)?;
    put_slots(frame.slots.as_slice(), out)
}

/// Appends the number of frames and then the frames.
pub(crate) fn put_frames<A: Allocator, B: Allocator>(
    frames: &[Frame<A>],
    out: &mut Vec<u8, B>,
) -> Result<(), AllocError>
    requires count { length frames.now ≤ most_parts }
    requires each { All IsFrame (map frame_of frames.now) }
    ensures bytes { OnOk result (out.new.items ≡ out.old.items ++ (u16_bytes (length frames.now)
        ++ flat_map frame_bytes (map frame_of frames.now))) }
    ensures held { OnOk result (All HoldsFrame (map frame_of frames.now)) }
{
    put_u16(frames.len() as u16, out)?;
    for frame in frames {
        put_frame(frame, out)?;
    }
    Ok(())
}
