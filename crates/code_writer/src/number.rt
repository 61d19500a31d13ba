//! Writing numbers.
ghost use Rattle.std.specs.Prelude.{◌≡◌, ◌++◌, ◌∷◌, [], OnOk};
ghost use Rattle.code_writer.specs.Spelling.{u16_bytes, u32_bytes, i64_bytes};

use byteorder::{BigEndian, ByteOrder};
use std::alloc::{AllocError, Allocator};

/// Appends a byte.
pub(crate) fn put_u8<A: Allocator>(byte: u8, out: &mut Vec<u8, A>) -> Result<(), AllocError>
    ensures { OnOk result (out.new.items ≡ out.old.items ++ byte ∷ []) }
{
    out.push(byte)?;
    Ok(())
}

/// Appends a number as two bytes, big-endian.
#[tactic(auto, unfolding(crate::specs::Spelling::u16_bytes))]
pub(crate) fn put_u16<A: Allocator>(number: u16, out: &mut Vec<u8, A>) -> Result<(), AllocError>
    ensures { OnOk result (out.new.items ≡ out.old.items ++ u16_bytes number) }
{
    let mut bytes = [0; 2];
    BigEndian::write_u16(&mut bytes, number);
    out.extend_from_slice(&bytes)
}

/// Appends a number as four bytes, big-endian.
#[tactic(auto, unfolding(crate::specs::Spelling::u32_bytes))]
pub(crate) fn put_u32<A: Allocator>(number: u32, out: &mut Vec<u8, A>) -> Result<(), AllocError>
    ensures { OnOk result (out.new.items ≡ out.old.items ++ u32_bytes number) }
{
    let mut bytes = [0; 4];
    BigEndian::write_u32(&mut bytes, number);
    out.extend_from_slice(&bytes)
}

/// Appends an integer as eight bytes, big-endian in two's complement.
#[tactic(auto, unfolding(crate::specs::Spelling::i64_bytes))]
pub(crate) fn put_i64<A: Allocator>(number: i64, out: &mut Vec<u8, A>) -> Result<(), AllocError>
    ensures { OnOk result (out.new.items ≡ out.old.items ++ i64_bytes number) }
{
    let mut bytes = [0; 8];
    BigEndian::write_i64(&mut bytes, number);
    out.extend_from_slice(&bytes)
}
