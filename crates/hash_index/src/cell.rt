//! Cells, and the path of a search through them.
ghost use Rattle.std.specs.Prelude.{◌≡◌, ◌<◌};
ghost use Rattle.hash_index.specs.Cells.{IsNext, distance, free_cell, home, is_end, is_free, tombstone};

/// The row number of a free cell. No row has it.
const FREE: u32 = u32::MAX;

/// Where a row is: its mixed hash and its number.
#[derive(Clone, Copy)]
pub struct Cell {
    /// The mixed hash, whose low bits say where a search for the row begins.
    pub mixed: u32,
    /// The row's number, or `u32::MAX` if the cell is free.
    pub at: u32,
}

/// Returns a free cell, at which searches end.
pub(crate) fn free_cell() -> Cell
    ensures { result ≡ free_cell }
{
    Cell { mixed: 0, at: FREE }
}

/// Returns a tombstone: a free cell that searches go past, because a row after it may have passed the row that was
/// there.
pub(crate) fn tombstone() -> Cell
    ensures { result ≡ tombstone }
{
    Cell { mixed: 1, at: FREE }
}

impl Cell {
    /// Returns whether no row is in the cell.
    pub(crate) fn is_free(self) -> bool
        ensures { result ≡ is_free self }
    {
        self.at == FREE
    }

    /// Returns whether searches end at the cell: it is free, and no tombstone.
    pub(crate) fn is_end(self) -> bool
        ensures { result ≡ is_end self }
    {
        self.is_free() && self.mixed == 0
    }
}

/// Returns the position, among `count` cells, where a search for a mixed hash begins: the low bits of the hash, since
/// `count` is a power of two.
pub(crate) fn home(count: usize, mixed: u32) -> usize
    requires { 0 < count }
    ensures value { result ≡ home count mixed }
    ensures within { result < count }
{
    mixed as usize & (count - 1)
}

/// Returns the position after `pos` among `count` cells; after the last comes the first.
pub(crate) fn next(count: usize, pos: usize) -> usize
    requires { pos < count }
    ensures { IsNext count pos result }
{
    if pos + 1 < count { pos + 1 } else { 0 }
}

/// Returns how many cells a search that begins at `from` passes before it reaches `to`, among `count` cells.
pub(crate) fn distance(count: usize, from: usize, to: usize) -> usize
    requires from { from < count }
    requires to { to < count }
    ensures { result ≡ distance count from to }
{
    if from <= to {
        to - from
    } else {
        count - from + to
    }
}
