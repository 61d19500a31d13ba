//! Binaries.
ghost use Rattle.std.specs.Prelude.{◌≡◌, ◌≤◌, length, IfOk, IfErr};
ghost use Rattle.term_core.specs.Datum.Datum.{binary};
ghost use Rattle.term_core.specs.Fault.{IsFault};
ghost use Rattle.term_core.specs.Limits.{AreBytes, IsTerm};
ghost use Rattle.term_core.specs.Term.{datum_of, IsKept};

use super::bytes::row_of;
use super::{LARGE, MIDDLE, SHORT, Shape, Term, shared};
use crate::MAX_BINARY;
use crate::fault::Fault;
use std::alloc::{AllocError, Allocator};

/// Returns the number of bytes.
fn byte_count(bytes: &[u8]) -> usize
    ensures count { result ≡ length bytes.now }
    ensures sound { AreBytes bytes.now }
{
    bytes.len()
}

/// Makes the shape of the binary of these bytes, in the smallest form that has room for them. Fails if an allocation fails.
fn binary_shape<A: Allocator + Copy>(alloc: A, bytes: &[u8]) -> Result<Shape<A>, AllocError>
    ensures value { IfOk result (λ s. datum_of s ≡ binary bytes.now) }
    ensures kept { IfOk result (λ s. IsKept s) }
{
    let count = bytes.len();
    if count <= SHORT {
        return Ok(Shape::ShortBinary(count as u8, row_of(bytes)));
    }
    if count <= MIDDLE {
        return match shared(alloc, row_of(bytes)) {
            Ok(row) => Ok(Shape::MiddleBinary(count as u8, row)),
            Err(_) => Err(AllocError),
        };
    }
    if count <= LARGE {
        return match shared(alloc, row_of(bytes)) {
            Ok(row) => Ok(Shape::LargeBinary(count as u8, row)),
            Err(_) => Err(AllocError),
        };
    }
    match shared(alloc, Vec::from_slice(alloc, bytes)?) {
        Ok(bytes) => Ok(Shape::Binary(bytes)),
        Err(_) => Err(AllocError),
    }
}

impl<A: Allocator + Copy> Term<A> {
    /// Makes the binary of these bytes. Fails if there are more than `MAX_BINARY`, or if an allocation fails.
    pub fn binary(alloc: A, bytes: &[u8]) -> Result<Self, Fault>
        ensures ok { IfOk result (λ t. t ≡ binary bytes.now) }
        ensures refused { IfErr result (λ fault. IsFault fault (binary bytes.now)) }
    {
        if byte_count(bytes) > MAX_BINARY {
            return Err(Fault::TooLong);
        }
        match binary_shape(alloc, bytes) {
            Ok(shape) => Ok(Term { shape }),
            Err(AllocError) => Err(Fault::Memory),
        }
    }
}
