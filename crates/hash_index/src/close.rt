//! Removing a row. The rows after it whose search passed it move forward, so that searches stay short however many rows
//! come and go. Where very many rows follow, only the first of them are examined, and the hole then remains as a
//! tombstone.
ghost use Rattle.std.specs.Prelude.{◌≡◌, ℕ, ◌+◌, ◌<◌, length, count_by};
ghost use Rattle.hash_index.specs.Cells.{IsTaken, cell_at, distance, is_free};
ghost use Rattle.hash_index.specs.Index.{HasIn, Takes};
ghost use Rattle.hash_index.specs.Kept.{AreFound, AreMoved, AreNear, IsFilled, moved};

use crate::cell::{Cell, distance, free_cell, home, next, tombstone};
use crate::search::place_of;

/// The number of steps after which a deletion stops moving rows and leaves a tombstone.
const MOST_CLOSED: usize = 40;

/// Moves the content of one cell to the cell `hole`, and leaves a tombstone where it was.
fn move_into(cells: &mut [Cell], from: usize, hole: usize)
    requires from { from < length cells.old }
    requires hole { hole < length cells.old }
    ensures { cells.new ≡ moved cells.old from hole }
{
    cells[hole] = cells[from];
    cells[from] = tombstone();
}

/// Moves the row at `pos`, if there is one, into the hole if a search for the row reaches the hole first, i.e. if it
/// passes at least as many cells as the hole is before `pos`. Returns where the hole is now: `pos` if the row moved,
/// else `hole`.
fn fill(cells: &mut [Cell], hole: usize, pos: usize) -> usize
    requires hole { hole < length cells.old }
    requires pos { pos < length cells.old }
    requires apart { 0 < distance (length cells.old) hole pos }
    ensures { IsFilled cells.old cells.new hole pos result }
{
    let count = cells.len();
    let cell = cells[pos];
    if cell.is_free() {
        return hole;
    }
    let behind = distance(count, hole, pos);
    let passed = distance(count, home(count, cell.mixed), pos);
    if behind <= passed {
        move_into(cells, pos, hole);
        return pos;
    }
    hole
}

/// Removes the row at `gone`. The rows after it close the hole, up to a cell at which searches end. They also stop once
/// the hole is so far back that no search is long enough to have passed it. Then the hole becomes a free cell. If
/// neither comes within 39 cells, the hole remains a tombstone.
fn close(cells: &mut [Cell], longest: usize, gone: usize)
    requires gone { IsTaken (cell_at cells.old gone) }
    requires found { AreFound cells.old }
    requires near { AreNear cells.old longest }
    ensures found { AreFound cells.new }
    ensures near { AreNear cells.new longest }
    ensures moved { AreMoved cells.old cells.new gone }
    ensures free { count_by is_free cells.new ≡ count_by is_free cells.old + 1 }
    ensures count { length cells.new ≡ length cells.old }
{
    let count = cells.len();
    cells[gone] = tombstone();
    let mut hole = gone;
    let mut pos = next(count, gone);
    for _looked in 1..count.min(MOST_CLOSED) {
        if cells[pos].is_end() || longest <= distance(count, hole, pos) {
            cells[hole] = free_cell();
            return;
        }
        hole = fill(cells, hole, pos);
        pos = next(count, pos);
    }
}

/// Removes the row `at` that is in the cells under the mixed hash `mixed`. `longest` is a bound of the cells that a
/// search examines.
pub(crate) fn take_cell(cells: &mut [Cell], longest: usize, mixed: u32, at: usize)
    requires there { HasIn cells.old mixed at }
    requires found { AreFound cells.old }
    requires near { AreNear cells.old longest }
    ensures found { AreFound cells.new }
    ensures near { AreNear cells.new longest }
    ensures takes { Takes cells.old cells.new at }
    ensures free { count_by is_free cells.new ≡ count_by is_free cells.old + 1 }
    ensures count { length cells.new ≡ length cells.old }
{
    let gone = place_of(cells, longest, mixed, at);
    close(cells, longest, gone);
}
