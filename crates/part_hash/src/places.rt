//! Places, and the slots that list them.
ghost use Rattle.std.specs.Prelude.{ℕ, ◌≡◌, ◌<◌, ◌≤◌, ◌+◌, ◌++◌, ◌∷◌, ◌/◌, ◌%◌, ◌^◌, [], All, IsTrue, OnOk, OnErr, drop, false, get_or, length};
ghost use Rattle.std.specs.List.{AllWithin};
ghost use Rattle.part_hash.specs.Places.{is_standing, row_of, spread, standing};
ghost use Rattle.part_hash.specs.Slots.{Adds, AreRising, FindsSame, Relists, with_gone};

use crate::row::Row;
use part_core::Settings;
use part_rows::{Place, SeenRow};
use slab::Slab;
use std::alloc::{AllocError, Allocator};
use std::marker::Model;

/// How many places may have gone in a slot that isn't packed for it.
const FEW: usize = 4;

/// The places of the rows of a slot, in the order in which they were made. A row that goes leaves its place, at which
/// no row stands from then on: a row that takes its key of the slab was made later.
#[derive(Drop)]
pub struct Slot<A: Allocator> {
    places: Vec<Place, A>,
    // How many of the rows have gone, at least.
    gone: u32,
    // How many places at the front are known to be of rows that have gone.
    front: u32,
    // Whether there may be places of rows that are gone in addition to those that are counted.
    uncounted: bool,
}

impl<A: Allocator> Model for Slot<A> {
    ghost use Rattle.std.specs.Prelude.{ℕ, ◌≤◌, List, length};
    ghost use Rattle.std.specs.Coded.{codes};
    ghost use Rattle.part_rows.specs.declared.place.Place.{Place as AnyPlace};
    ghost use Rattle.part_hash.specs.Slots.{AreRising};

    ghost Value = { List AnyPlace × ℕ × ℕ };

    ghost coded = { Prim.hlevel codes };

    ghost view = { λ slot. (slot.places.items, slot.gone, slot.front) };

    ghost invariant = { λ slot. AreRising slot.places.items × (slot.front ≤ length slot.places.items) };
}

/// By what the hashes of a part's keys are divided.
pub(crate) fn spread_of(settings: Settings) -> u64
    ensures value { result ≡ spread settings }
    ensures some { 0 < result }
{
    if settings.parts == 0 {
        1
    } else {
        u64::from(settings.parts)
    }
}

/// Returns the slot of a key among `count` slots, given the key's hash.
pub(crate) fn slot_of(spread: u64, hash: u64, count: u64) -> u64
    requires spread { 0 < spread }
    requires count { 0 < count }
    ensures value { result ≡ (hash / spread) % count }
    ensures within { result < count }
{
    (hash / spread) % count
}

/// The part of a hash that says in which slot its key stands, however many there are.
pub(crate) fn low_of(spread: u64, hash: u64) -> u32
    requires { 0 < spread }
    ensures { result ≡ (hash / spread) % 2 ^ 32 }
{
    (hash / spread % (1 << 32)) as u32
}

/// Returns the row that is at a place, or `None`.
pub(crate) fn row_at<A: Allocator>(rows: &Slab<Row<A>, A>, place: Place) -> Option<SeenRow<'_, A>>
    ensures { result ≡ row_of rows.now place }
{
    match rows.get(place.at as usize) {
        Some(row) => {
            if row.made() == place.made {
                Some(row.seen())
            } else {
                None
            }
        }
        None => None,
    }
}

/// Returns whether a row is at a place.
fn is_standing<A: Allocator>(rows: &Slab<Row<A>, A>, place: Place) -> bool
    ensures { result ≡ is_standing rows.now place }
{
    row_at(rows, place).is_some()
}

/// The first place from one on at which a row stands, or the end up to which is looked.
fn first_standing<A: Allocator>(
    rows: &Slab<Row<A>, A>,
    places: &[Place],
    from: usize,
    end: usize,
) -> usize
    requires from { from ≤ end }
    requires end { end ≤ length places.now }
    ensures within { result ≤ end }
    ensures gone { AllWithin (λ p. is_standing rows.now p ≡ false) places.now from result }
{
    for number in from..end {
        if is_standing(rows, places[number]) {
            return number;
        }
    }
    end
}

/// A number, or the greatest of 32 bits where it is greater.
fn capped(number: usize) -> u32
    ensures { result ≤ number }
{
    number.min(u32::MAX as usize) as u32
}

/// Returns whether a row before which `made` rows were created was created after those at `places`.
fn is_last(places: &[Place], made: u64) -> bool
    ensures { IsTrue result → AreRising places.now → All (λ p. p.made < made) places.now }
{
    match places.last() {
        Some(last) => last.made < made,
        None => true,
    }
}

/// Returns the places from the first one on whose row was created after the first `from` rows.
pub(crate) fn later(places: &[Place], from: u64) -> &[Place]
    ensures { AreRising places.now → FindsSame from places.now result.now }
{
    let begin = places.partition_point(|place| place.made < from);
    &places[begin..]
}

/// Returns whether `gone` places of `count` are many: more than a few, and more than three quarters.
fn are_many(gone: usize, count: usize) -> bool {
    FEW < gone && count - count / 4 < gone
}

impl<A: Allocator> Slot<A> {
    /// A slot with no rows.
    pub fn new(alloc: A) -> Self
        ensures { result ≡ ([], 0, 0) }
    {
        Slot {
            places: Vec::new(alloc),
            gone: 0,
            front: 0,
            uncounted: false,
        }
    }

    /// A slot with these places. None is counted as gone; `uncounted` says whether some may have.
    pub fn of(places: Vec<Place, A>, uncounted: bool) -> Self
        requires { AreRising places.items }
        ensures { result ≡ (places.items, 0, 0) }
    {
        Slot {
            places,
            gone: 0,
            front: 0,
            uncounted,
        }
    }

    /// The places, those of rows that have gone among them.
    pub fn places(&self) -> &[Place]
        ensures places { result.now ≡ self.now.0 }
        ensures rising { AreRising result.now }
    {
        self.places.as_slice()
    }

    /// Whether some of the places may be of rows that have gone.
    pub fn has_gone(&self) -> bool {
        0 < self.gone || self.uncounted
    }

    /// The places from the first on that isn't known to be of a row that has gone.
    pub fn from_front(&self) -> &[Place]
        ensures places { result.now ≡ drop self.now.2 self.now.0 }
        ensures rising { AreRising result.now }
    {
        &self.places[self.front as usize..]
    }

    /// Appends a place. If this needs memory, and a quarter of the rows are gone, the other places are moved up
    /// instead. Fails if an allocation fails; no place is added then.
    pub fn push(&mut self, rows: &Slab<Row<A>, A>, place: Place) -> Result<(), AllocError>
        ensures done { OnOk result (Adds rows.now place self.old self.new) }
        ensures refused { OnErr result (Relists rows.now self.old self.new) }
    {
        // A row that is added is the last one made, so this is never reached.
        if !is_last(self.places.as_slice(), place.made) {
            return Err(AllocError);
        }
        self.make_room(rows);
        self.put_last(place)
    }

    /// Lets the places go of rows that have gone, where there is no room for one more and they are a quarter.
    fn make_room(&mut self, rows: &Slab<Row<A>, A>)
        ensures kept { Relists rows.now self.old self.new }
        ensures last { (made : ℕ) → All (λ p. p.made < made) self.old.0 → All (λ p. p.made < made) self.new.0 }
    {
        let count = self.places.len();
        if count == self.places.capacity() && 0 < self.gone && count / 4 <= self.gone as usize {
            self.pack(rows);
        }
    }

    /// Appends a place. If an allocation fails, nothing is changed.
    fn put_last(&mut self, place: Place) -> Result<(), AllocError>
        requires { All (λ p. p.made < place.made) self.old.0 }
        ensures done { OnOk result (self.new ≡ (self.old.0 ++ place ∷ [], self.old.1, self.old.2)) }
        ensures refused { OnErr result (self.new ≡ self.old) }
    {
        self.places.push(place)?;
        Ok(())
    }

    /// Counts a row as gone, before which `made` rows were created. It does not search: the places are removed only if
    /// no row is left, or few in a long slot.
    pub fn lose(&mut self, rows: &Slab<Row<A>, A>, made: u64)
        ensures { Relists rows.now (with_gone self.old) self.new }
    {
        self.gone = self.gone.saturating_add(1);
        let count = self.places.len();
        let gone = self.gone as usize;
        if count <= gone {
            self.clear();
        } else if are_many(gone, count) {
            self.pack(rows);
        } else {
            self.pass(rows, made);
        }
    }

    /// Lets all places go.
    fn clear(&mut self)
        ensures { self.new ≡ ([], 0, 0) }
    {
        self.places.clear();
        self.gone = 0;
        self.front = 0;
        self.uncounted = false;
    }

    /// Lets the places go at which no row stands.
    fn pack(&mut self, rows: &Slab<Row<A>, A>)
        ensures { self.new ≡ (standing rows.now self.old.0, 0, 0) }
    {
        self.places.retain(|place| is_standing(rows, *place));
        self.gone = 0;
        self.front = 0;
        self.uncounted = false;
    }

    /// If the place at the front is that of a row before which `made` rows were created, and which is gone, moves the
    /// front past that place and those after it at which no row is.
    fn pass(&mut self, rows: &Slab<Row<A>, A>, made: u64)
        ensures { Relists rows.now self.old self.new }
    {
        let front = self.front as usize;
        if self.is_front(made) {
            let end = self.end_of_gone();
            self.front = capped(first_standing(rows, self.places.as_slice(), front, end));
        }
    }

    /// Returns how far the places of rows that are gone may reach, if that at the front is one: no further than that
    /// place if all rows that are gone are counted and their places are at the front.
    fn end_of_gone(&self) -> usize
        ensures front { self.now.2 ≤ result }
        ensures within { result ≤ length self.now.0 }
    {
        let behind = self.front as usize + 1;
        if self.uncounted || behind < self.gone as usize {
            self.places.len()
        } else {
            behind.min(self.places.len())
        }
    }

    /// Returns whether the place at the front is that of a row before which `made` rows were created.
    fn is_front(&self, made: u64) -> bool {
        match self.places.get(self.front as usize) {
            Some(place) => place.made == made,
            None => false,
        }
    }
}
