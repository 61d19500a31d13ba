//! Reading numbers and rows of bytes.
ghost use Rattle.code_writer.specs.Formats.{u8_format, u16_format, u32_format, i64_format, bytes_format};
ghost use Rattle.code_file.specs.Reads.{Reads, IsCut};

use crate::stop::{FileCause, FileStop};
use byteorder::{BigEndian, ByteOrder};

/// Returns the first `count` bytes and what follows them. Stops if there are fewer.
pub(crate) fn take(bytes: &[u8], count: usize) -> Result<(&[u8], &[u8]), FileStop>
    ensures { Reads (bytes_format count) (IsCut count bytes.now) (λ r. (r.0.now, r.1.now)) bytes.now
        result }
{
    if bytes.len() < count {
        return Err(FileStop::At(FileCause::Truncated, 0));
    }
    Ok(bytes.split_at(count))
}

/// Reads a number of one byte.
pub fn read_u8(bytes: &[u8]) -> Result<(u8, &[u8]), FileStop>
    ensures { Reads u8_format (IsCut 1 bytes.now) (λ r. (r.0, r.1.now)) bytes.now result }
{
    match bytes.split_first() {
        Some((number, rest)) => Ok((*number, rest)),
        None => Err(FileStop::At(FileCause::Truncated, 0)),
    }
}

/// Reads a number of two bytes, big-endian.
pub fn read_u16(bytes: &[u8]) -> Result<(u16, &[u8]), FileStop>
    ensures { Reads u16_format (IsCut 2 bytes.now) (λ r. (r.0, r.1.now)) bytes.now result }
{
    if bytes.len() < 2 {
        return Err(FileStop::At(FileCause::Truncated, 0));
    }
    let (front, rest) = bytes.split_at(2);
    Ok((BigEndian::read_u16(front), rest))
}

/// Reads a number of four bytes, big-endian.
pub(crate) fn read_u32(bytes: &[u8]) -> Result<(u32, &[u8]), FileStop>
    ensures { Reads u32_format (IsCut 4 bytes.now) (λ r. (r.0, r.1.now)) bytes.now result }
{
    if bytes.len() < 4 {
        return Err(FileStop::At(FileCause::Truncated, 0));
    }
    let (front, rest) = bytes.split_at(4);
    Ok((BigEndian::read_u32(front), rest))
}

/// Reads an integer of eight bytes, big-endian in two's complement.
pub(crate) fn read_i64(bytes: &[u8]) -> Result<(i64, &[u8]), FileStop>
    ensures { Reads i64_format (IsCut 8 bytes.now) (λ r. (r.0, r.1.now)) bytes.now result }
{
    if bytes.len() < 8 {
        return Err(FileStop::At(FileCause::Truncated, 0));
    }
    let (front, rest) = bytes.split_at(8);
    Ok((BigEndian::read_i64(front), rest))
}
