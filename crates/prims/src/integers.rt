//! Functions of integers.
ghost use Rattle.std.specs.Prelude.{◌≡◌};
ghost use Rattle.prims.specs.Integers.{integer_function_of, arithmetic_of, quotient, remainder};

use crate::bits::{band, bor, bxor};
use crate::shifts::{shift_left, shift_right};
use prims_table::{Arithmetic, IntegerFunction};

/// Calls a function of one integer. Returns `None` if the result is outside 64 bits.
pub(crate) fn of_one(function: IntegerFunction, value: i64) -> Option<i64>
    ensures { result ≡ integer_function_of function value }
{
    match function {
        IntegerFunction::Abs => value.checked_abs(),
        IntegerFunction::Round | IntegerFunction::Trunc | IntegerFunction::Plus => Some(value),
        IntegerFunction::Negate => value.checked_neg(),
        IntegerFunction::Bnot => Some(!value),
    }
}

/// Calls a function of two integers. Returns `None` if the result is outside 64 bits or the divisor is 0.
pub fn compute(function: Arithmetic, left: i64, right: i64) -> Option<i64>
    ensures { result ≡ arithmetic_of function left right }
{
    match function {
        Arithmetic::Add => left.checked_add(right),
        Arithmetic::Subtract => left.checked_sub(right),
        Arithmetic::Multiply => left.checked_mul(right),
        Arithmetic::Div => left.checked_div(right),
        Arithmetic::Rem => rem(left, right),
        Arithmetic::Band => Some(band(left, right)),
        Arithmetic::Bor => Some(bor(left, right)),
        Arithmetic::Bxor => Some(bxor(left, right)),
        Arithmetic::Bsl => shift_left(left, right),
        Arithmetic::Bsr => shift_right(left, right),
    }
}

/// Returns the remainder of a division, with the sign of the dividend, or `None` if the divisor is 0. For the least
/// integer and -1 it is 0, for which `checked_rem` returns `None`.
fn rem(dividend: i64, divisor: i64) -> Option<i64>
    ensures { result ≡ remainder dividend divisor }
{
    if divisor == 0 {
        None
    } else {
        Some(dividend.wrapping_rem(divisor))
    }
}
