//! Functions of the bits of two integers.
ghost use Rattle.std.specs.Prelude.{◌≡◌, ◌+◌, ◌%◌, min, max};
ghost use Rattle.std.specs.Int.{w64, int_bit_and, int_bit_or, int_bit_xor};
ghost use Rattle.prims.specs.Bits.{IsMadeOfBits};

/// `band`: the bits that are set in both integers.
pub(crate) fn band(left: i64, right: i64) -> i64
    ensures value { result ≡ int_bit_and w64 left right }
    ensures bits { IsMadeOfBits (λ a b. min a b) left right result }
{
    left & right
}

/// `bor`: the bits that are set in at least one of the integers.
pub(crate) fn bor(left: i64, right: i64) -> i64
    ensures value { result ≡ int_bit_or w64 left right }
    ensures bits { IsMadeOfBits (λ a b. max a b) left right result }
{
    left | right
}

/// `bxor`: the bits that are set in exactly one of the integers.
pub(crate) fn bxor(left: i64, right: i64) -> i64
    ensures value { result ≡ int_bit_xor w64 left right }
    ensures bits { IsMadeOfBits (λ a b. (a + b) % 2) left right result }
{
    left ^ right
}
