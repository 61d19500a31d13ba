//! Rebuilding an index: all rows are inserted into new cells.
ghost use Rattle.std.specs.Prelude.{◌≡◌, ℕ, ◌+◌, ◌*◌, ◌/◌, ◌^◌, ◌<◌, ◌≤◌, length, count_by, replicate, IfOk};
ghost use Rattle.hash_index.specs.Cells.{free_cell, is_free};
ghost use Rattle.hash_index.specs.Index.{AreMixed, HasIn};
ghost use Rattle.hash_index.specs.Kept.{AreFound, AreNear};

use crate::cell::{Cell, free_cell};
use crate::search::put_cell;
use std::alloc::{AllocError, Allocator};

/// The number of cells of the first allocation.
const FEWEST_CELLS: usize = 8;

/// The greatest number of cells: a mixed hash of 32 bits leads to no further cell.
const MOST_CELLS: usize = 1 << 32;

/// Returns how many rows fit into `count` cells: three quarters of the cells, since a fuller index makes searches long.
pub(crate) fn most_rows(count: usize) -> usize
    ensures { result ≡ count / 4 * 3 }
{
    count / 4 * 3
}

/// Returns the number of cells for a rebuilt index: `count` if `left`, the number of further rows that have room, is
/// above 0, and else twice as many, at least 8. Fails if that would be more than 2^32 cells.
pub(crate) fn count_anew(count: usize, left: usize) -> Result<usize, AllocError>
    ensures { (free : ℕ) → count + left ≡ count / 4 * 3 + free → IfOk result (λ anew. count < anew / 4 * 3 + free) }
{
    if 0 < left {
        return Ok(count);
    }
    if MOST_CELLS / 2 < count {
        return Err(AllocError);
    }
    Ok(FEWEST_CELLS.max(2 * count))
}

/// Returns `count` free cells. Fails if an allocation fails.
pub(crate) fn free_cells<A: Allocator>(alloc: A, count: usize) -> Result<Vec<Cell, A>, AllocError>
    ensures { IfOk result (λ cells. cells.items ≡ replicate count free_cell) }
{
    let mut cells = Vec::with_capacity(alloc, count)?;
    cells.resize(count, free_cell())?;
    Ok(cells)
}

/// Inserts all rows of `old` into `cells`, which are all free, each under the mixed hash that `mixed_of` returns for
/// its cell. Returns how many more rows have room, and the number of cells that the longest search for a row examines.
pub(crate) fn put_all<F: Fn(Cell) -> u32>(
    cells: &mut [Cell],
    old: &[Cell],
    mixed_of: F,
) -> (usize, usize)
    requires callable { (m a : ℕ) → HasIn old.now m a → F.pre mixed_of (record { mixed = m; at = a }) }
    requires free { cells.old ≡ replicate (length cells.old) free_cell }
    requires room { length old.now < length cells.old / 4 * 3 + count_by is_free old.now }
    requires found { AreFound old.now }
    ensures found { AreFound cells.new }
    ensures mixed { AreMixed (λ m a n. F.post mixed_of (record { mixed = m; at = a }) n) old.now cells.new }
    ensures load { length cells.new + result.0 ≡ length cells.new / 4 * 3 + count_by is_free cells.new }
    ensures room { 0 < result.0 }
    ensures near { AreNear cells.new result.1 }
    ensures count { length cells.new ≡ length cells.old }
{
    let mut room = most_rows(cells.len());
    let mut longest = 0;
    for cell in old {
        if !cell.is_free() {
            let mixed = mixed_of(*cell);
            let passed = put_cell(cells, mixed, cell.at);
            longest = longest.max(passed + 1);
            room -= 1;
        }
    }
    (room, longest)
}
