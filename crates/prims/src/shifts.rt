//! Shifts.
ghost use Rattle.std.specs.Prelude.{◌≡◌};
ghost use Rattle.prims.specs.Shifts as spec;

/// Returns the value times 2 to the power `by`, or `None` if that is outside 64 bits.
fn times_power(value: i64, by: u64) -> Option<i64>
    ensures { result ≡ spec.times_power value by }
{
    if value == 0 {
        return Some(0);
    }
    if by > 63 {
        return None;
    }
    let product = i128::from(value) * i128::from(1_u64 << by);
    i64::try_from(product).ok()
}

/// Returns the value divided by 2 to the power `by`, rounded down.
fn over_power(value: i64, by: u64) -> i64
    ensures { result ≡ spec.over_power value by }
{
    if by < 64 {
        value >> by
    } else if value < 0 {
        -1
    } else {
        0
    }
}

/// `value bsl by`, or `None` if that is outside 64 bits.
pub(crate) fn shift_left(value: i64, by: i64) -> Option<i64>
    ensures { result ≡ spec.shift_left value by }
{
    if by < 0 {
        Some(over_power(value, by.unsigned_abs()))
    } else {
        times_power(value, by.unsigned_abs())
    }
}

/// `value bsr by`, or `None` if that is outside 64 bits.
pub(crate) fn shift_right(value: i64, by: i64) -> Option<i64>
    ensures { result ≡ spec.shift_right value by }
{
    if by < 0 {
        times_power(value, by.unsigned_abs())
    } else {
        Some(over_power(value, by.unsigned_abs()))
    }
}
