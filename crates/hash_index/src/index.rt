//! An index that finds row numbers by mixed hashes.
ghost use Rattle.std.specs.Prelude.{◌≡◌, ℕ, ◌+◌, ◌-◌, ◌^◌, ◌<◌, true, false, IfSome, IfNone, OnOk, OnErr};
ghost use Rattle.hash_index.specs.Index.{AreMixed, AreSame, Has, Passing, Puts, Takes, cells, room};

use crate::anew::{count_anew, free_cells, put_all};
use crate::cell::Cell;
use crate::close::take_cell;
use crate::search::{find_cell, put_cell};
use std::alloc::{AllocError, Allocator};
use std::marker::Model;

/// A hash index: the numbers of rows, each under a mixed hash, which is a function of the row's key that the caller
/// knows. Finding a row takes about the same time however many rows there are, unless many mixed hashes agree in their
/// low bits; the result of `put` shows how long a search has become.
#[derive(Drop)]
pub struct HashIndex<A: Allocator> {
    cells: Vec<Cell, A>,
    // How many more rows can be inserted without growth.
    left: usize,
    // The greatest number of cells that a search examines before it reaches its row.
    longest_probe: usize,
}

impl<A: Allocator> Model for HashIndex<A> {
    ghost use Rattle.std.specs.Prelude.{ℕ, List};
    ghost use Rattle.std.specs.Coded.{codes};
    ghost use Rattle.hash_index.specs.declared.cell.Cell.{Cell as AnyCell};
    ghost use Rattle.hash_index.specs.Kept.{IsKept};

    ghost Value = { List AnyCell × ℕ };

    ghost coded = { Prim.hlevel codes };

    ghost view = { λ index. (index.cells.items, index.left) };

    ghost invariant = { λ index. IsKept index.cells.items index.left index.longest_probe };
}

impl<A: Allocator> HashIndex<A> {
    /// Returns an index with no rows. It does not allocate.
    pub fn new(alloc: A) -> Self
        ensures { (mixed at : ℕ) → Has result mixed at → ⊥ }
    {
        HashIndex {
            cells: Vec::new(alloc),
            left: 0,
            longest_probe: 0,
        }
    }

    /// Returns the number of a row under the mixed hash `mixed` for which `eq` returns `true`, or `None` if there is no
    /// such row.
    #[inline(always)]
    pub fn find<F: Fn(usize) -> bool>(&self, mixed: u32, eq: F) -> Option<usize>
        requires { (at : ℕ) → Has self.now mixed at → F.pre eq at }
        ensures found { IfSome result (λ at. Has self.now mixed at × F.post eq at true) }
        ensures absent { IfNone result ((at : ℕ) → Has self.now mixed at → F.post eq at false) }
    {
        match find_cell(self.cells.as_slice(), self.longest_probe, mixed, eq) {
            Some(pos) => Some(self.cells[pos].at as usize),
            None => None,
        }
    }

    /// Makes room for one more row: grows the index if it has none. If an allocation fails, returns an error, and the
    /// index is unchanged.
    pub fn reserve(&mut self) -> Result<(), AllocError>
    where
        A: Copy,
        ensures room { OnOk result (0 < room self.new) }
        ensures same { AreSame (cells self.old) (cells self.new) }
        ensures refused { OnErr result (self.new ≡ self.old) }
    {
        if 0 < self.left {
            return Ok(());
        }
        self.put_anew(|cell| cell.mixed)
    }

    /// Inserts the row `at` (below 2^32 - 1) under the mixed hash `mixed`. The index must have room, and must not
    /// contain the row. Returns how many cells a search for the row passes: if they are many, the caller may mix all
    /// hashes in another way. It does not allocate.
    pub fn put(&mut self, mixed: u32, at: usize) -> usize
        requires at { at < 2 ^ 32 - 1 }
        requires room { 0 < room self.old }
        requires absent { (m : ℕ) → Has self.old m at → ⊥ }
        ensures puts { Puts (cells self.old) (cells self.new) mixed at }
        ensures passed { Passing (cells self.new) mixed at result }
        ensures room { room self.new + 1 ≡ room self.old }
    {
        let passed = put_cell(self.cells.as_mut_slice(), mixed, at as u32);
        self.left -= 1;
        self.longest_probe = self.longest_probe.max(passed + 1);
        passed
    }

    /// Removes the row `at`, which is in the index under the mixed hash `mixed`. It does not allocate.
    pub fn take(&mut self, mixed: u32, at: usize)
        requires { Has self.old mixed at }
        ensures takes { Takes (cells self.old) (cells self.new) at }
        ensures room { room self.new ≡ room self.old + 1 }
    {
        take_cell(self.cells.as_mut_slice(), self.longest_probe, mixed, at);
        self.left += 1;
    }

    /// Rebuilds the index with each row under the mixed hash that `mixed_of` returns for its number, with room for at
    /// least one more row. If an allocation fails, returns an error, and the index is unchanged.
    pub fn mix<F: Fn(usize) -> u32>(&mut self, mixed_of: F) -> Result<(), AllocError>
    where
        A: Copy,
        requires { (mixed at : ℕ) → Has self.old mixed at → F.pre mixed_of at }
        ensures mixed { OnOk result (AreMixed (λ mixed at anew. F.post mixed_of at anew)
            (cells self.old) (cells self.new)) }
        ensures room { OnOk result (0 < room self.new) }
        ensures refused { OnErr result (self.new ≡ self.old) }
    {
        self.put_anew(
            |cell|
                requires { F.pre mixed_of cell.at }
            { mixed_of(cell.at as usize) },
        )
    }

    /// Inserts all rows into new cells, each under the mixed hash that `mixed_of` returns for its cell. If an
    /// allocation fails, returns an error, and the index is unchanged.
    fn put_anew<F: Fn(Cell) -> u32>(&mut self, mixed_of: F) -> Result<(), AllocError>
    where
        A: Copy,
        requires { (m a : ℕ) → Has self.old m a → F.pre mixed_of (record { mixed = m; at = a }) }
        ensures mixed { OnOk result (AreMixed (λ m a n. F.post mixed_of (record { mixed = m; at = a }) n)
            (cells self.old) (cells self.new)) }
        ensures room { OnOk result (0 < room self.new) }
        ensures refused { OnErr result (self.new ≡ self.old) }
    {
        let count = count_anew(self.cells.len(), self.left)?;
        let mut cells = free_cells(*self.cells.allocator(), count)?;
        let (left, longest_probe) = put_all(cells.as_mut_slice(), self.cells.as_slice(), mixed_of);
        *self = HashIndex {
            cells,
            left,
            longest_probe,
        };
        Ok(())
    }
}
