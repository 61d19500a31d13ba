//! Reading routines into a builder.
ghost use Rattle.std.specs.Prelude.{◌≡◌, ◌<◌, ◌≤◌, length, IfOk, IfErr, OnOk};
ghost use Rattle.mcode.specs.Building.{with_routine};
ghost use Rattle.mcode.specs.Program.{most_arguments, most_routines, most_slots};
ghost use Rattle.code_writer.specs.Format.{rows};
ghost use Rattle.code_writer.specs.Formats.{any_kind_format, signature_format, routine_format};
ghost use Rattle.code_file.specs.Due.Item.{many, a_routine, a_signature_kind};
ghost use Rattle.code_file.specs.Due.Row.{kinds, routines};
ghost use Rattle.code_file.specs.Reads.{Reads, Blames, IsStop};
ghost use Rattle.code_file.specs.Parts.{IsRoutineRead, AreRoutinesRead};

use crate::body::read_parts;
use crate::count::{read_argument_count, read_slot_count};
use crate::frame::read_kind;
use crate::number::read_u8;
use crate::stop::FileStop;
use code_writer::MAX_OPCODE;
use mcode::{Builder, Kind};
use std::alloc::{AllocError, Allocator};

/// The byte of `Kind::Any` as the kind of an argument or a result.
const ANY: u8 = 0;

/// Reads the kind of an argument or a result.
fn read_any_kind(bytes: &[u8]) -> Result<(Kind, &[u8]), FileStop>
    ensures { Reads any_kind_format (Blames a_signature_kind bytes.now) (λ r. (r.0, r.1.now))
        bytes.now result }
{
    let (tag, rest) = read_u8(bytes)?;
    if tag == ANY {
        return Ok((Kind::Any, rest));
    }
    read_kind(bytes)
}

/// Reads the kinds of `count` arguments.
fn read_arguments<A: Allocator>(
    alloc: A,
    count: u16,
    bytes: &[u8],
) -> Result<(Vec<Kind, A>, &[u8]), FileStop>
    ensures { Reads (rows any_kind_format count) (Blames (many kinds count) bytes.now)
        (λ r. (r.0.items, r.1.now)) bytes.now result }
{
    let mut kinds = Vec::new(alloc);
    let mut rest = bytes;
    for _read in 0..count {
        let (kind, behind) = read_any_kind(rest)?;
        kinds.push(kind)?;
        rest = behind;
    }
    Ok((kinds, rest))
}

/// Reads the kinds of a routine's arguments and of its result.
fn read_signature<A: Allocator>(
    alloc: A,
    bytes: &[u8],
) -> Result<((Vec<Kind, A>, Kind), &[u8]), FileStop>
    ensures { Reads signature_format (Blames a_routine bytes.now)
        (λ r. ((r.0.0.items, r.0.1), r.1.now)) bytes.now result }
{
    let (count, rest) = read_argument_count(bytes)?;
    let (arguments, rest) = read_arguments(alloc, count, rest)?;
    let (gives, rest) = read_any_kind(rest)?;
    Ok(((arguments, gives), rest))
}

/// Begins a routine in the builder. Its counts are within their limits.
fn begin_routine<A: Allocator + Copy>(
    builder: &mut Builder<A>,
    arguments: Vec<Kind, A>,
    gives: Kind,
    slots: u16,
) -> Result<(), AllocError>
    requires number { builder.old.around.number < most_routines }
    requires arguments { length arguments.items ≤ most_arguments }
    requires slots { slots ≤ most_slots }
    ensures { OnOk result (builder.new ≡ with_routine builder.old arguments.items gives slots) }
{
    let _number = builder
        .routine(arguments, gives, slots)
        .map_err(|fault| fault.alloc_error())?;
    Ok(())
}

/// Reads a routine into the builder.
fn read_routine<'a, A: Allocator + Copy>(
    alloc: A,
    builder: &mut Builder<A>,
    bytes: &'a [u8],
) -> Result<&'a [u8], FileStop>
    requires { builder.old.around.number < most_routines }
    ensures ok { IfOk result (λ rest. IsRoutineRead builder.old builder.new bytes.now rest.now) }
    ensures refused { IfErr result (λ stop. IsStop routine_format bytes.now (Blames a_routine bytes.now)
        stop) }
{
    let ((arguments, gives), rest) = read_signature(alloc, bytes)?;
    let (slots, rest) = read_slot_count(rest)?;
    begin_routine(builder, arguments, gives, slots)?;
    let rest = read_parts(alloc, MAX_OPCODE, builder, rest)?;
    Ok(rest)
}

/// Reads `count` routines into the builder, after the main body.
pub(crate) fn read_routines<'a, A: Allocator + Copy>(
    alloc: A,
    builder: &mut Builder<A>,
    count: u16,
    bytes: &'a [u8],
) -> Result<&'a [u8], FileStop>
    requires none { builder.old.around.number ≡ 0 }
    requires few { count ≤ most_routines }
    ensures ok { IfOk result (λ rest. AreRoutinesRead builder.old builder.new bytes.now count
        rest.now) }
    ensures refused { IfErr result (λ stop. IsStop (rows routine_format count) bytes.now
        (Blames (many routines count) bytes.now) stop) }
{
    let mut rest = bytes;
    for _read in 0..count {
        let behind = read_routine(alloc, builder, rest)?;
        rest = behind;
    }
    Ok(rest)
}
