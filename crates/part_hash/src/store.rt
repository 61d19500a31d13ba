//! Rows with what finds them and lists them.
ghost use Rattle.std.specs.Prelude.{◌≡◌, ℕ, true, is_some, length};
ghost use Rattle.slab.specs.Slab.{get};
ghost use Rattle.hash_index.specs.Index.{Has};
ghost use Rattle.part_core.specs.States.{IsBase};

use crate::places::Slot;
use crate::row::Row;
use hash_index::HashIndex;
use slab::Slab;
use std::alloc::Allocator;

/// Rows in a slab, with an index of their keys and the slots that list them.
#[derive(Drop)]
pub struct Store<A: Allocator> {
    pub rows: Slab<Row<A>, A>,
    /// At which keys of the slab the rows are, by the mixed hashes of their keys.
    pub index: HashIndex<A>,
    /// By what hashes are mixed.
    pub seed: u64,
    pub slots: Vec<Slot<A>, A>,
    /// How many rows were ever made.
    pub made: u64,
    /// The keys of the slab at which rows died.
    pub dying: Vec<u32, A>,
    /// Whether there was no room for one of them.
    pub lost: bool,
    ghost is_base: { IsBase (length slots.items) },
    ghost only: { (mixed at : ℕ) → Has index mixed at → is_some (get rows at) ≡ true },
}
