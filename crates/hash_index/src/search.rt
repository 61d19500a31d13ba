//! Searching for a row, and inserting one.
ghost use Rattle.std.specs.Prelude.{◌≡◌, ℕ, ◌+◌, ◌-◌, ◌^◌, ◌<◌, true, false, length, count_by, max, IfSome, IfNone};
ghost use Rattle.hash_index.specs.Cells.{cell_at, is_free};
ghost use Rattle.hash_index.specs.Index.{HasIn, Holds, Passing, Puts};
ghost use Rattle.hash_index.specs.Kept.{AreFound, AreNear, IsFirstFree};

use crate::cell::{Cell, distance, home, next};

/// Returns the position of a row under the mixed hash `mixed` for whose number `eq` returns `true`, or `None` if there
/// is none. Examines at most `longest` cells, since no search for a row is longer.
#[inline(always)]
pub(crate) fn find_cell<F: Fn(usize) -> bool>(
    cells: &[Cell],
    longest: usize,
    mixed: u32,
    eq: F,
) -> Option<usize>
    requires found { AreFound cells.now }
    requires near { AreNear cells.now longest }
    requires callable { (at : ℕ) → HasIn cells.now mixed at → F.pre eq at }
    ensures found { IfSome result (λ i. Holds cells.now mixed (cell_at cells.now i).at i
        × F.post eq (cell_at cells.now i).at true) }
    ensures absent { IfNone result ((at : ℕ) → HasIn cells.now mixed at → F.post eq at false) }
{
    let count = cells.len();
    if count == 0 {
        return None;
    }
    let mut pos = home(count, mixed);
    for _passed in 0..longest {
        let cell = cells[pos];
        if cell.is_free() {
            if cell.is_end() {
                return None;
            }
        } else if cell.mixed == mixed {
            if eq(cell.at as usize) {
                return Some(pos);
            }
        }
        pos = next(count, pos);
    }
    None
}

/// Returns the position of the row `at`, which is in the cells under the mixed hash `mixed`. The row's number alone
/// identifies it.
pub(crate) fn place_of(cells: &[Cell], longest: usize, mixed: u32, at: usize) -> usize
    requires there { HasIn cells.now mixed at }
    requires found { AreFound cells.now }
    requires near { AreNear cells.now longest }
    ensures { Holds cells.now mixed at result }
{
    let count = cells.len();
    let mut pos = home(count, mixed);
    for _looked in 0..longest {
        if cells[pos].at as usize == at {
            return pos;
        }
        pos = next(count, pos);
    }
    unreachable!()
}

/// Returns the first position from `start` on whose cell is free. Some cell must be free.
fn free_from(cells: &[Cell], start: usize) -> usize
    requires start { start < length cells.now }
    requires free { 0 < count_by is_free cells.now }
    ensures { IsFirstFree cells.now start result }
{
    let count = cells.len();
    let mut pos = start;
    for _taken in 0..count {
        if cells[pos].is_free() {
            return pos;
        }
        pos = next(count, pos);
    }
    unreachable!()
}

/// Inserts the row `at` under the mixed hash `mixed` into the first free cell from the hash's home on. Some cell must
/// be free. Returns how many taken cells a search for the row passes.
pub(crate) fn put_cell(cells: &mut [Cell], mixed: u32, at: u32) -> usize
    requires at { at < 2 ^ 32 - 1 }
    requires free { 0 < count_by is_free cells.old }
    requires absent { (m : ℕ) → HasIn cells.old m at → ⊥ }
    requires found { AreFound cells.old }
    ensures found { AreFound cells.new }
    ensures puts { Puts cells.old cells.new mixed at }
    ensures passed { Passing cells.new mixed at result }
    ensures within { result < length cells.old }
    ensures near { (longest : ℕ) → AreNear cells.old longest → AreNear cells.new (max longest (result + 1)) }
    ensures free { count_by is_free cells.new + 1 ≡ count_by is_free cells.old }
    ensures count { length cells.new ≡ length cells.old }
{
    let count = cells.len();
    let start = home(count, mixed);
    let pos = free_from(cells, start);
    cells[pos] = Cell { mixed, at };
    distance(count, start, pos)
}
