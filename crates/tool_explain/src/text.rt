//! Building blocks of texts.
ghost use Rattle.std.specs.Prelude.{◌≡◌, ◌++◌, OnOk, decimal};
ghost use Rattle.tool_explain.specs.Table.{blanks, in_column};

use std::alloc::{AllocError, Allocator};

/// Appends the decimal digits of a number.
pub(crate) fn put_number<A: Allocator + Copy>(
    number: u64,
    line: &mut Vec<u8, A>,
) -> Result<(), AllocError>
    ensures { OnOk result (line.new.items ≡ line.old.items ++ decimal number) }
{
    let digits = number.to_string(*line.allocator())?;
    line.extend_from_slice(digits.as_bytes())
}

/// Appends `count` blanks.
pub(crate) fn put_blanks<A: Allocator>(
    count: usize,
    line: &mut Vec<u8, A>,
) -> Result<(), AllocError>
    ensures { OnOk result (line.new.items ≡ line.old.items ++ blanks count) }
{
    for _blank in 0..count {
        line.push(b' ')?;
    }
    Ok(())
}

/// Appends a text that follows the given column of a line, and is at least one blank after the text before it. An empty
/// text appends nothing.
pub(crate) fn put_in_column<A: Allocator>(
    column: usize,
    text: &[u8],
    line: &mut Vec<u8, A>,
) -> Result<(), AllocError>
    ensures { OnOk result (line.new.items ≡ in_column column line.old.items text.now) }
{
    if text.is_empty() {
        return Ok(());
    }
    put_blanks(column.saturating_sub(line.len()), line)?;
    line.push(b' ')?;
    line.extend_from_slice(text)
}
