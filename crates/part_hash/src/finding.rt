//! Rows that are found by their keys.
ghost use Rattle.std.specs.Prelude.{◌≡◌, ◌<◌, ◌^◌, ℕ, false, IfOk, IfSome, IsFalse, IsTrue, MatchOption, Some, None, [], List, length, replicate};
ghost use Rattle.std.specs.Map.{lookup};
ghost use Rattle.std.specs.Option.{option_copied, option_map, option_map_or};
ghost use Rattle.slab.specs.Slab.{get};
ghost use Rattle.term_operand.specs.Order.{is_same};
ghost use Rattle.hash_index.specs.Index.{Has};
ghost use Rattle.part_core.specs.declared.settings.Settings.{Settings as AnySettings};
ghost use Rattle.part_core.specs.Rows.{Row as AnyRow, first_slots, has_row, objects_at};
ghost use Rattle.part_hash.specs.Mixed.{mixed as mixed_of};
ghost use Rattle.part_hash.specs.Places.{row_in};
ghost use Rattle.part_hash.specs.Standing.{Stands};

use crate::mixing::{FIRST_SEED, mixed};
use crate::places::Slot;
use crate::row::Row;
use crate::store::Store;
use hash_index::HashIndex;
use part_core::{FIRST_SLOTS, Held};
use slab::Slab;
use std::alloc::{AllocError, Allocator};
use term_core::Term;

/// So many slots with no rows.
fn empty_slots<A: Allocator + Copy>(alloc: A, count: u32) -> Result<Vec<Slot<A>, A>, AllocError>
    ensures { IfOk result (λ slots. slots.items ≡ replicate count ([], 0, 0)) }
{
    let mut slots = Vec::new(alloc);
    for _number in 0..count {
        slots.push(Slot::new(alloc))?;
    }
    Ok(slots)
}

/// No rows, in the slots that a set has at first.
pub(crate) fn empty<A: Allocator + Copy>(alloc: A) -> Result<Store<A>, AllocError>
    ensures rows { IfOk result (λ store. (o : AnySettings) → Stands o store []) }
    ensures slots { IfOk result (λ store. length store.slots.items ≡ first_slots) }
{
    let slots = empty_slots(alloc, FIRST_SLOTS)?;
    Ok(Store {
        rows: Slab::new(alloc),
        index: HashIndex::new(alloc),
        seed: FIRST_SEED,
        slots,
        made: 0,
        dying: Vec::new(alloc),
        lost: false,
    })
}

/// Whether the row at a key of the slab is that of a key.
fn has_key<A: Allocator>(rows: &Slab<Row<A>, A>, at: usize, key: &Term<A>) -> bool
    ensures { result ≡ option_map_or (λ s. is_same key.now s.0.0) (get rows.now at) false }
{
    match rows.get(at) {
        Some(row) => key == row.key(),
        None => false,
    }
}

/// What the row at a key of the slab holds.
fn held_at<A: Allocator>(rows: &Slab<Row<A>, A>, at: usize) -> Option<&Held<A>>
    ensures { option_copied result ≡ option_map (λ r. r.1) (row_in rows.now at) }
{
    match rows.get(at) {
        Some(row) => Some(row.held()),
        None => None,
    }
}

impl<A: Allocator> Store<A> {
    /// At which key of the slab the row of a key is, whose mixed hash is known.
    pub fn find(&self, mixed: u32, key: &Term<A>) -> Option<usize>
        requires { mixed ≡ mixed_of self.now.seed key.now }
        ensures known { IfSome result (λ at. Has self.now.index mixed at) }
        ensures found { (o : AnySettings) (rows : List AnyRow) → Stands o self.now rows
            → MatchOption result (IsFalse (has_row rows key.now))
            (λ at. IsTrue (has_row rows key.now)
            × (row_in self.now.rows at ≡ Some (key.now, objects_at rows key.now))) }
    {
        match self.index.find(mixed, |at| has_key(&self.rows, at, key)) {
            Some(at) => Some(at),
            None => None,
        }
    }

    /// What is held of a key, none where it has no row.
    pub fn held(&self, key: &Term<A>) -> Option<&Held<A>>
        ensures { (o : AnySettings) (rows : List AnyRow) → Stands o self.now rows
            → option_copied result ≡ lookup (is_same key.now) rows }
    {
        match self.find(mixed(self.seed, key), key) {
            Some(at) => held_at(&self.rows, at),
            None => None,
        }
    }
}
