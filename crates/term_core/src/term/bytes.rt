//! Rows of bytes with room for more, of which the first ones count.
ghost use Rattle.std.specs.Prelude.{◌≡◌, ◌<◌, ◌≤◌, ◌^◌, length, take};
ghost use Rattle.std.specs.Str.{IsUtf8};
ghost use Rattle.term_core.specs.Term.{padded};

use std::str::from_utf8_unchecked;

/// Returns the first `count` bytes of a row.
#[inline(always)]
pub(super) fn front<const N: usize>(row: &[u8; N], count: u8) -> &[u8]
    requires small { N < 2 ^ 63 }
    requires within { count ≤ N }
    ensures { result.now ≡ take count row.now }
{
    &row[..usize::from(count)]
}

/// Returns the text that the first `count` bytes of a row are.
#[inline(always)]
pub(super) fn front_text<const N: usize>(row: &[u8; N], count: u8) -> &str
    requires small { N < 2 ^ 63 }
    requires within { count ≤ N }
    requires text { IsUtf8 (take count row.now) }
    ensures { result.now ≡ take count row.now }
{
    // SAFETY: the bytes are UTF-8, as `text` says.
    unsafe { from_utf8_unchecked(front(row, count)) }
}

/// Returns a row that begins with these bytes, and has zeros after them.
#[inline(always)]
pub(super) fn row_of<const N: usize>(bytes: &[u8]) -> [u8; N]
    requires small { N < 2 ^ 63 }
    requires within { length bytes.now ≤ N }
    ensures { result ≡ padded N bytes.now }
{
    let mut row = [0; N];
    for i in 0..bytes.len() {
        row[i] = bytes[i];
    }
    row
}
