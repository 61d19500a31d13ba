//! Rows that are added.
ghost use Rattle.std.specs.Prelude.{ℕ, ◌≡◌, ◌<◌, ◌≤◌, ◌+◌, ◌-◌, ◌*◌, ◌%◌, ◌^◌, ◌==◌, ◌∷◌, ◌++◌, [], List, if◌then◌else◌, None, Some, OnOk, OnErr, IfOk, IsFalse, IsSome, filter, length, map, unwrap_or};
ghost use Rattle.std.specs.List.{range_with_len};
ghost use Rattle.slab.specs.Slab.{Slab as AnySlab, HasRoomFor, Updates, get, slab_len};
ghost use Rattle.term_core.specs.Datum.{Datum};
ghost use Rattle.term_core.specs.Datum.Datum.{nil};
ghost use Rattle.term_core.specs.KeyHash.{key_hash};
ghost use Rattle.hash_index.specs.Index.{AreMixed, Puts, cells, room};
ghost use Rattle.part_core.specs.declared.kind.TableKind.TheVariants.{Set};
ghost use Rattle.part_core.specs.declared.settings.Settings.{Settings as AnySettings};
ghost use Rattle.part_core.specs.After.{slots_after};
ghost use Rattle.part_core.specs.Rows.{Row as AnyRow, has_row};
ghost use Rattle.part_core.specs.States.{IsBase};
ghost use Rattle.part_rows.specs.declared.place.Place.{Place as AnyPlace};
ghost use Rattle.part_hash.specs.Mixed.{mixed as mixed_of};
ghost use Rattle.part_hash.specs.Places.{Kept, Standing, low_of as low_at};
ghost use Rattle.part_hash.specs.Slots.{AreListed, IsAdded, half_at, listing_at};
ghost use Rattle.part_hash.specs.Standing.{AreLow, Stands};

use crate::mixing::mixed;
use crate::places::{Slot, low_of, slot_of, spread_of};
use crate::row::Row;
use crate::store::Store;
use hash_index::HashIndex;
use part_core::{Settings, slots_with_row, taken};
use part_rows::Place;
use slab::Slab;
use std::alloc::{AllocError, Allocator};
use std::mem;
use term_core::Term;

/// How many cells of the index a search may pass before all hashes are mixed again. The longest search in a simulation
/// of 25 million rows with random hashes, in indexes up to three quarters full, passed 222. If one passes more, all
/// hashes are mixed again once, which does no harm.
const MOST_PASSED: usize = 256;

/// For how many rows that die there is room at least,
const FEWEST_NOTED: usize = 64;
/// and of how many rows one has room.
const ROWS_A_NOTE: usize = 16;

/// Returns the places that belong to the slot `number` of `count` slots, where `count` divides 2^32. Fails if an
/// allocation fails.
fn part<A: Allocator>(
    alloc: A,
    places: &[Place],
    count: u64,
    number: u64,
) -> Result<Vec<Place, A>, AllocError>
    requires { 0 < count }
    ensures { IfOk result (λ part. part.items ≡ filter (λ p. p.low % count == number) places.now) }
{
    let mut part = Vec::new(alloc);
    for place in places {
        if u64::from(place.low) % count == number {
            part.push(*place)?;
        }
    }
    Ok(part)
}

/// A slot among twice as many.
fn half<A: Allocator>(alloc: A, slots: &[Slot<A>], number: usize) -> Result<Slot<A>, AllocError>
    requires some { 0 < length slots.now }
    requires few { length slots.now ≤ 65536 }
    ensures { IfOk result (λ half. half ≡ half_at slots.now number) }
{
    let count = slots.len();
    let slot = &slots[number % count];
    let places = part(alloc, slot.places(), 2 * count as u64, number as u64)?;
    Ok(Slot::of(places, slot.has_gone()))
}

/// Twice as many slots. No row is looked at.
fn doubled<A: Allocator + Copy>(alloc: A, slots: &[Slot<A>]) -> Result<Vec<Slot<A>, A>, AllocError>
    requires some { 0 < length slots.now }
    requires few { length slots.now ≤ 65536 }
    ensures { IfOk result (λ wide. wide.items
        ≡ map (half_at slots.now) (range_with_len 0 (2 * length slots.now))) }
{
    let mut wide = Vec::new(alloc);
    for number in 0..2 * slots.len() {
        wide.push(half(alloc, slots, number)?)?;
    }
    Ok(wide)
}

/// Appends a place to those of the slot of a hash. Fails if an allocation fails; no place is added then.
fn list_in<A: Allocator>(
    slots: &mut Vec<Slot<A>, A>,
    rows: &Slab<Row<A>, A>,
    settings: Settings,
    hash: u64,
    place: Place,
) -> Result<(), AllocError>
    requires { 0 < length slots.old.items }
    ensures count { length slots.new.items ≡ length slots.old.items }
    ensures listed { OnOk result ((new : AnySlab Kept) (row : AnyRow) (list : List Standing) → hash ≡ key_hash row.0
        → IsAdded rows.now new place row
        → AreListed settings rows.now place.made slots.old.items list
        → AreListed settings new (place.made + 1) slots.new.items (list ++ (place, row) ∷ [])) }
    ensures refused { OnErr result ((made : ℕ) (list : List Standing)
        → AreListed settings rows.now made slots.old.items list
        → AreListed settings rows.now made slots.new.items list) }
{
    let number = slot_of(spread_of(settings), hash, slots.len() as u64) as usize;
    slots[number].push(rows, place)?;
    Ok(())
}

/// Returns whether there are too few slots for `count` rows, after one was added.
fn are_too_few<A: Allocator>(slots: &[Slot<A>], count: usize) -> bool
    requires base { IsBase (length slots.now) }
    requires some { 0 < count }
    ensures { slots_after Set (count - 1) count (length slots.now)
        ≡ (if result then 2 * length slots.now else length slots.now) }
{
    let number = slots.len() as u32;
    number < slots_with_row(count, number)
}

/// Twice as many slots, with a further place, by the hash of its row's key.
fn list_doubled<A: Allocator + Copy>(
    alloc: A,
    slots: &[Slot<A>],
    rows: &Slab<Row<A>, A>,
    settings: Settings,
    hash: u64,
    place: Place,
) -> Result<Vec<Slot<A>, A>, AllocError>
    requires base { IsBase (length slots.now) }
    ensures count { IfOk result (λ wide. length wide.items ≡ 2 * length slots.now) }
    ensures listed { IfOk result (λ wide. (new : AnySlab Kept) (row : AnyRow) (list : List Standing)
        → hash ≡ key_hash row.0
        → IsAdded rows.now new place row → AreLow settings list
        → AreListed settings rows.now place.made slots.now list
        → AreListed settings new (place.made + 1) wide.items (list ++ (place, row) ∷ [])) }
{
    let mut wide = doubled(alloc, slots)?;
    list_in(&mut wide, rows, settings, hash, place)?;
    Ok(wide)
}

/// Lists a place by the hash of its row's key, in twice as many slots where there are too few.
fn enlist<A: Allocator + Copy>(
    slots: &mut Vec<Slot<A>, A>,
    rows: &Slab<Row<A>, A>,
    settings: Settings,
    count: usize,
    hash: u64,
    place: Place,
) -> Result<(), AllocError>
    requires base { IsBase (length slots.old.items) }
    requires some { 0 < count }
    ensures base { IsBase (length slots.new.items) }
    ensures slots { OnOk result (length slots.new.items
        ≡ slots_after Set (count - 1) count (length slots.old.items)) }
    ensures listed { OnOk result ((new : AnySlab Kept) (row : AnyRow) (list : List Standing) → hash ≡ key_hash row.0
        → IsAdded rows.now new place row → AreLow settings list
        → AreListed settings rows.now place.made slots.old.items list
        → AreListed settings new (place.made + 1) slots.new.items (list ++ (place, row) ∷ [])) }
    ensures same { OnErr result (length slots.new.items ≡ length slots.old.items) }
    ensures refused { OnErr result ((made : ℕ) (list : List Standing)
        → AreListed settings rows.now made slots.old.items list
        → AreListed settings rows.now made slots.new.items list) }
{
    if are_too_few(slots.as_slice(), count) {
        let alloc = *slots.allocator();
        let wide = list_doubled(alloc, slots.as_slice(), rows, settings, hash, place)?;
        drop(mem::replace(slots, wide));
        Ok(())
    } else {
        list_in(slots, rows, settings, hash, place)?;
        Ok(())
    }
}

/// Makes room for the keys of rows that die among `count` rows. Fails if an allocation fails.
fn reserve_notes<A: Allocator>(dying: &mut Vec<u32, A>, count: usize) -> Result<(), AllocError>
    ensures { dying.new.items ≡ dying.old.items }
{
    let wanted = FEWEST_NOTED + count / ROWS_A_NOTE;
    if dying.capacity() < wanted {
        dying.reserve(wanted - dying.len())?;
    }
    Ok(())
}

/// Makes room for one more row.
fn reserve<A: Allocator + Copy>(store: &mut Store<A>) -> Result<(), AllocError>
    ensures rows { OnOk result (HasRoomFor store.new.rows 1) }
    ensures index { OnOk result (0 < room store.new.index) }
    ensures kept { (o : AnySettings) (rows : List AnyRow) → Stands o store.old rows → Stands o store.new rows }
    ensures seed { store.new.seed ≡ store.old.seed }
    ensures slots { length store.new.slots.items ≡ length store.old.slots.items }
{
    let count = store.rows.len();
    store.rows.reserve(1)?;
    store.index.reserve()?;
    reserve_notes(&mut store.dying, count)
}

/// Returns the key of the slab at which the next row is inserted. Fails if there are as many rows as the index can
/// have.
fn vacant<A: Allocator>(rows: &Slab<Row<A>, A>) -> Result<u32, AllocError>
    ensures at { IfOk result (λ at. at ≡ rows.now.vacant_key) }
    ensures small { IfOk result (λ at. at < 2 ^ 32 - 1) }
    ensures none { IfOk result (λ at. get rows.now at ≡ None) }
{
    let at = rows.vacant_key();
    if at < u32::MAX as usize {
        Ok(at as u32)
    } else {
        Err(AllocError)
    }
}

/// Puts a row in, where there is room, that the index finds by a mixed hash, and answers how many cells of it a search
/// passes.
fn enter<A: Allocator + Copy>(store: &mut Store<A>, row: Row<A>, mixed: u32, made: u64) -> usize
    requires rows { HasRoomFor store.old.rows 1 }
    requires index { 0 < room store.old.index }
    requires small { store.old.rows.vacant_key < 2 ^ 32 - 1 }
    ensures rows { Updates store.old.rows store.new.rows store.old.rows.vacant_key (Some row) }
    ensures count { slab_len store.new.rows ≡ slab_len store.old.rows + 1 }
    ensures index { Puts (cells store.old.index) (cells store.new.index) mixed store.old.rows.vacant_key }
    ensures slots { store.new.slots.items ≡ store.old.slots.items }
    ensures made { store.new.made ≡ made }
    ensures seed { store.new.seed ≡ store.old.seed }
    ensures dying { store.new.dying.items ≡ store.old.dying.items }
    ensures lost { store.new.lost ≡ store.old.lost }
{
    let at = store.rows.insert_reserved(row);
    let passed = store.index.put(mixed, at);
    store.made = made;
    passed
}

/// The mixed hash, by a seed, of the key of the row at a key of the slab.
fn mixed_at<A: Allocator>(rows: &Slab<Row<A>, A>, seed: u64, at: usize) -> u32
    ensures { (s : Kept) → get rows.now at ≡ Some s → result ≡ mixed_of seed s.0.0 }
{
    match rows.get(at) {
        Some(row) => mixed(seed, row.key()),
        None => 0,
    }
}

/// Mixes the hashes of all keys by another seed.
fn mix_by<A: Allocator + Copy>(
    index: &mut HashIndex<A>,
    rows: &Slab<Row<A>, A>,
    seed: u64,
) -> Result<(), AllocError>
    ensures mixed { OnOk result (AreMixed (λ m at n. (s : Kept) → get rows.now at ≡ Some s → n ≡ mixed_of seed s.0.0)
        (cells index.old) (cells index.new)) }
    ensures refused { OnErr result (index.new ≡ index.old) }
{
    index.mix(|at| mixed_at(rows, seed, at))?;
    Ok(())
}

/// Mixes all hashes again with another seed, for keys whose hashes are alike and make searches long. If an allocation
/// fails, nothing is changed.
fn mix<A: Allocator + Copy>(store: &mut Store<A>)
    ensures kept { (o : AnySettings) (rows : List AnyRow) → Stands o store.old rows → Stands o store.new rows }
    ensures slots { length store.new.slots.items ≡ length store.old.slots.items }
{
    let seed = store.seed.wrapping_add(1);
    match mix_by(&mut store.index, &store.rows, seed) {
        Ok(()) => store.seed = seed,
        Err(_) => {}
    }
}

/// Mixes all hashes again if a search passes more than 256 cells.
fn keep_short<A: Allocator + Copy>(store: &mut Store<A>, passed: usize)
    ensures kept { (o : AnySettings) (rows : List AnyRow) → Stands o store.old rows → Stands o store.new rows }
    ensures slots { length store.new.slots.items ≡ length store.old.slots.items }
{
    if MOST_PASSED < passed {
        mix(store);
    }
}

/// How many rows there are with one more, for which there is room.
fn with_one<A: Allocator>(rows: &Slab<Row<A>, A>) -> usize
    requires { HasRoomFor rows.now 1 }
    ensures { result ≡ slab_len rows.now + 1 }
{
    let _most = rows.capacity();
    rows.len() + 1
}

/// Adds a row with an object for a key that has none; the key's mixed hash is known.
pub(crate) fn add<A: Allocator + Copy>(
    store: &mut Store<A>,
    settings: Settings,
    mixed: u32,
    key: Term<A>,
    object: &mut Option<Term<A>>,
) -> Result<(), AllocError>
    requires object { IsSome object.old }
    requires mixed { mixed ≡ mixed_of store.old.seed key }
    ensures done { OnOk result ((rows : List AnyRow) → IsFalse (has_row rows key)
        → Stands settings store.old rows
        → Stands settings store.new (rows ++ (key, unwrap_or object.old nil ∷ []) ∷ [])
        × (length store.new.slots.items ≡ slots_after Set (length rows) (length rows + 1)
        (length store.old.slots.items))) }
    ensures spent { OnOk result (object.new ≡ None) }
    ensures back { OnErr result (object.new ≡ object.old) }
    ensures refused { OnErr result ((rows : List AnyRow)
        → Stands settings store.old rows → Stands settings store.new rows) }
    ensures slots { OnErr result (length store.new.slots.items ≡ length store.old.slots.items) }
{
    reserve(store)?;
    let at = vacant(&store.rows)?;
    let hash = key.key_hash();
    let Some(made) = store.made.checked_add(1) else {
        return Err(AllocError);
    };
    let place = Place {
        made: store.made,
        at,
        low: low_of(spread_of(settings), hash),
    };
    let count = with_one(&store.rows);
    enlist(&mut store.slots, &store.rows, settings, count, hash, place)?;
    let row = Row::new(key, taken(object), store.made);
    let passed = enter(store, row, mixed, made);
    keep_short(store, passed);
    Ok(())
}
