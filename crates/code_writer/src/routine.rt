//! Writing routines.
ghost use Rattle.std.specs.Prelude.{◌≡◌, ◌≤◌, ◌++◌, All, length, map, OnOk};
ghost use Rattle.std.specs.List.{flat_map};
ghost use Rattle.mcode.specs.Frame.{frame_of};
ghost use Rattle.mcode.specs.Program.{IsFrame, most_parts, most_arguments};
ghost use Rattle.code_writer.specs.Spelling.{u16_bytes, any_kind_bytes, instructions_bytes, frames_bytes, routine_bytes};
ghost use Rattle.code_writer.specs.File.{HoldsSize, HoldsArguments, HoldsFrame, HoldsRoutine};

use crate::frame::{put_frames, put_kind};
use crate::instr::put_instrs;
use crate::number::{put_u8, put_u16};
use mcode::{Frame, Instr, Kind, Routine};
use std::alloc::{AllocError, Allocator};

/// Appends the instructions and the frames of a body.
pub(crate) fn put_parts<A: Allocator, B: Allocator>(
    instrs: &[Instr],
    frames: &[Frame<A>],
    out: &mut Vec<u8, B>,
) -> Result<(), AllocError>
    requires instrs { length instrs.now ≤ most_parts }
    requires count { length frames.now ≤ most_parts }
    requires each { All IsFrame (map frame_of frames.now) }
    ensures bytes { OnOk result (out.new.items ≡ out.old.items ++ (instructions_bytes instrs.now
        ++ frames_bytes (map frame_of frames.now))) }
    ensures arguments { OnOk result (All HoldsArguments instrs.now) }
    ensures frames { OnOk result (All HoldsFrame (map frame_of frames.now)) }
{
    put_instrs(instrs, out)?;
    put_frames(frames, out)
}

/// Appends the kind of an argument or a result.
fn put_any_kind<A: Allocator>(kind: Kind, out: &mut Vec<u8, A>) -> Result<(), AllocError>
    ensures bytes { OnOk result (out.new.items ≡ out.old.items ++ any_kind_bytes kind) }
    ensures held { HoldsSize kind }
{
    match kind {
        Kind::Any => put_u8(0, out),
        _ => put_kind(kind, out),
    }
}

/// Appends the number of arguments and then their kinds.
fn put_arguments<A: Allocator>(kinds: &[Kind], out: &mut Vec<u8, A>) -> Result<(), AllocError>
    requires { length kinds.now ≤ most_arguments }
    ensures bytes { OnOk result (out.new.items ≡ out.old.items ++ (u16_bytes (length kinds.now)
        ++ flat_map any_kind_bytes kinds.now)) }
    ensures held { OnOk result (All HoldsSize kinds.now) }
{
    put_u16(kinds.len() as u16, out)?;
    for kind in kinds {
        put_any_kind(*kind, out)?;
    }
    Ok(())
}

/// Appends a routine.
fn put_routine<A: Allocator, B: Allocator>(
    routine: &Routine<A>,
    out: &mut Vec<u8, B>,
) -> Result<(), AllocError>
    ensures bytes { OnOk result (out.new.items ≡ out.old.items ++ routine_bytes routine.now) }
    ensures held { OnOk result (HoldsRoutine routine.now) }
{
    put_arguments(routine.arguments(), out)?;
    put_any_kind(routine.gives(), out)?;
    put_u16(routine.slots(), out)?;
    put_parts(routine.instructions(), routine.frames(), out)
}

/// Appends routines, one after the other.
pub(crate) fn put_routines<A: Allocator, B: Allocator>(
    routines: &[Routine<A>],
    out: &mut Vec<u8, B>,
) -> Result<(), AllocError>
    ensures bytes { OnOk result (out.new.items ≡ out.old.items ++ flat_map routine_bytes routines.now) }
    ensures held { OnOk result (All HoldsRoutine routines.now) }
{
    for routine in routines {
        put_routine(routine, out)?;
    }
    Ok(())
}
