//! Reading numbers that code limits.
ghost use Rattle.code_writer.specs.Formats.{slot_count_format, body_count_format, argument_count_format};
ghost use Rattle.code_file.specs.Due.Item.{a_slot_count, a_body_count, a_routine};
ghost use Rattle.code_file.specs.Reads.{Reads, Blames};

use crate::number::read_u16;
use crate::stop::{FileCause, FileStop};
use mcode::{MAX_ARGUMENTS, MAX_ROUTINES, MAX_SLOTS};

/// Reads the number of slots of a body. Stops if it is above `MAX_SLOTS`.
pub(crate) fn read_slot_count(bytes: &[u8]) -> Result<(u16, &[u8]), FileStop>
    ensures { Reads slot_count_format (Blames a_slot_count bytes.now) (λ r. (r.0, r.1.now)) bytes.now
        result }
{
    let (count, rest) = read_u16(bytes)?;
    if count > MAX_SLOTS {
        return Err(FileStop::At(FileCause::Limit, bytes.len()));
    }
    Ok((count, rest))
}

/// Reads the number of bodies of code with routines. Stops if it is below 2 or above `MAX_ROUTINES + 1`.
pub(crate) fn read_body_count(bytes: &[u8]) -> Result<(u16, &[u8]), FileStop>
    ensures { Reads body_count_format (Blames a_body_count bytes.now) (λ r. (r.0, r.1.now)) bytes.now
        result }
{
    let (count, rest) = read_u16(bytes)?;
    if count < 2 {
        return Err(FileStop::At(FileCause::NotCanonical, bytes.len()));
    }
    if usize::from(count) > MAX_ROUTINES + 1 {
        return Err(FileStop::At(FileCause::Limit, bytes.len()));
    }
    Ok((count, rest))
}

/// Reads the number of arguments of a routine. Stops if it is above `MAX_ARGUMENTS`.
pub(crate) fn read_argument_count(bytes: &[u8]) -> Result<(u16, &[u8]), FileStop>
    ensures { Reads argument_count_format (Blames a_routine bytes.now) (λ r. (r.0, r.1.now)) bytes.now
        result }
{
    let (count, rest) = read_u16(bytes)?;
    if usize::from(count) > MAX_ARGUMENTS {
        return Err(FileStop::At(FileCause::Limit, bytes.len()));
    }
    Ok((count, rest))
}
