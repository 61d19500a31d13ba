//! The rows that a visit looks at.
ghost use Rattle.std.specs.Prelude.{ℕ, ◌≡◌, ◌<◌, ◌==◌, ◌++◌, List, IfOk, IfSome, OnOk, IsTrue, IsFalse, filter};
ghost use Rattle.std.specs.List.Sorted.{IsNonDecreasingBy};
ghost use Rattle.std.specs.Option.{option_to_list};
ghost use Rattle.term_operand.specs.Order.{is_same};
ghost use Rattle.part_core.specs.Ops.{scope_of};
ghost use Rattle.part_core.specs.Rows.{Row as AnyRow};
ghost use Rattle.part_core.specs.Settings.{class_at, is_ordered};
ghost use Rattle.part_core.specs.Visits.{in_class};
ghost use Rattle.part_rows.specs.Looks.{is_placed, looked_at};
ghost use Rattle.part_hash.specs.Classes.{class_of_slots};
ghost use Rattle.part_hash.specs.Places.{passes, row_in, row_of, rows_of};
ghost use Rattle.part_hash.specs.Standing.{Stands};

use crate::mixing::mixed;
use crate::places::row_at;
use crate::row::Row;
use crate::store::Store;
use crate::walking::{is_in, slot_in, step_of};
use part_core::{Cursor, Scope, Settings};
use part_rows::{Place, SeenRow};
use slab::Slab;
use std::alloc::{AllocError, Allocator};
use term_core::Term;

/// Appends the places whose rows are of a class to `into`. Fails if an allocation fails.
fn gather_places<A: Allocator>(
    rows: &Slab<Row<A>, A>,
    settings: Settings,
    base: u64,
    class: u64,
    places: &[Place],
    into: &mut Vec<Place, A>,
) -> Result<(), AllocError>
    requires parts { 0 < settings.parts }
    requires base { 0 < base }
    ensures { IfOk result (λ _. into.new.items ≡ into.old.items
        ++ filter (passes (λ k. class_at settings base k == class) rows.now) places.now) }
{
    for place in places {
        if is_of_class(rows, settings, base, class, *place) {
            into.push(*place)?;
        }
    }
    Ok(())
}

/// Whether the row at a place is of a class.
fn is_of_class<A: Allocator>(
    rows: &Slab<Row<A>, A>,
    settings: Settings,
    base: u64,
    class: u64,
    place: Place,
) -> bool
    requires parts { 0 < settings.parts }
    requires base { 0 < base }
    ensures { result ≡ passes (λ k. class_at settings base k == class) rows.now place }
{
    match row_at(rows, place) {
        Some(row) => is_in(settings, base, class, row.key()),
        None => false,
    }
}

/// The places of the rows of a class, slot after slot.
fn places_by_slot<A: Allocator + Copy>(
    alloc: A,
    store: &Store<A>,
    settings: Settings,
    base: u64,
    class: u64,
) -> Result<Vec<Place, A>, AllocError>
    requires parts { 0 < settings.parts }
    requires base { 0 < base }
    ensures { IfOk result (λ places. places.items
        ≡ class_of_slots settings base class store.now.rows store.now.slots.items) }
{
    let slots = store.slots.as_slice();
    let mut places = Vec::new(alloc);
    for turn in 0..slots.len() as u64 / step_of(slots.len() as u64, base) {
        let some = slot_in(slots, base, class, turn).places();
        gather_places(&store.rows, settings, base, class, some, &mut places)?;
    }
    Ok(places)
}

/// Puts places in the order in which their rows were made.
fn sort<A: Allocator + Copy>(places: &mut Vec<Place, A>) -> Result<(), AllocError>
    ensures rising { OnOk result (IsNonDecreasingBy (λ p. p.made) places.new.items) }
    ensures same { OnOk result ((n : ℕ) → filter (λ p. p.made == n) places.new.items
        ≡ filter (λ p. p.made == n) places.old.items) }
{
    places.sort_by_key(|place| place.made)?;
    Ok(())
}

/// The places of the rows of a class, in the order in which they were made.
pub(crate) fn places_of_class<A: Allocator + Copy>(
    alloc: A,
    store: &Store<A>,
    settings: Settings,
    base: u64,
    class: u64,
) -> Result<Vec<Place, A>, AllocError>
    requires parts { 0 < settings.parts }
    requires base { 0 < base }
    ensures { IfOk result (λ places. (rows : List AnyRow)
        → Stands settings store.now rows
        → rows_of store.now.rows places.items ≡ in_class settings base class rows) }
{
    let mut places = places_by_slot(alloc, store, settings, base, class)?;
    sort(&mut places)?;
    Ok(places)
}

/// Appends the row at a key of the slab to `into`, if there is one. Fails if an allocation fails.
fn look_at_row<'r, A: Allocator>(
    rows: &'r Slab<Row<A>, A>,
    at: usize,
    into: &mut Vec<SeenRow<'r, A>, A>,
) -> Result<(), AllocError>
    ensures { IfOk result (λ _. into.new.items ≡ into.old.items ++ option_to_list (row_in rows.now at)) }
{
    if let Some(row) = rows.get(at) {
        into.push(row.seen())?;
    }
    Ok(())
}

/// Appends the row at a place to `into`, if one is there. Fails if an allocation fails.
fn look_at_place<'r, A: Allocator>(
    rows: &'r Slab<Row<A>, A>,
    place: Place,
    into: &mut Vec<SeenRow<'r, A>, A>,
) -> Result<(), AllocError>
    ensures { IfOk result (λ _. into.new.items ≡ into.old.items ++ option_to_list (row_of rows.now place)) }
{
    if let Some(row) = row_at(rows, place) {
        into.push(row)?;
    }
    Ok(())
}

/// Appends the rows at places to `into`. Fails if an allocation fails.
fn look_at_places<'r, A: Allocator>(
    rows: &'r Slab<Row<A>, A>,
    places: &[Place],
    into: &mut Vec<SeenRow<'r, A>, A>,
) -> Result<(), AllocError>
    ensures { IfOk result (λ _. into.new.items ≡ into.old.items ++ rows_of rows.now places.now) }
{
    for place in places {
        look_at_place(rows, *place, into)?;
    }
    Ok(())
}

/// The places of the rows of a class by the number of slots, which are those of its slot.
pub(crate) fn listed_in<A: Allocator>(
    store: &Store<A>,
    _settings: Settings,
    base: u64,
    class: u64,
) -> Option<&[Place]>
    requires parts { 0 < _settings.parts }
    requires class { class < base }
    ensures { IfSome result (λ places. (rows : List AnyRow) → Stands _settings store.now rows
        → rows_of store.now.rows places.now ≡ in_class _settings base class rows) }
{
    if base == store.slots.len() as u64 {
        return Some(store.slots[class as usize].places());
    }
    None
}

/// Appends the rows of a class to `into`. Fails if an allocation fails.
fn look_in<'r, A: Allocator + Copy>(
    store: &'r Store<A>,
    settings: Settings,
    base: u64,
    class: u64,
    into: &mut Vec<SeenRow<'r, A>, A>,
) -> Result<(), AllocError>
    requires parts { 0 < settings.parts }
    requires class { class < base }
    ensures { IfOk result (λ _. (rows : List AnyRow)
        → Stands settings store.now rows
        → into.new.items ≡ into.old.items ++ in_class settings base class rows) }
{
    if let Some(places) = listed_in(store, settings, base, class) {
        look_at_places(&store.rows, places, into)?;
        return Ok(());
    }
    let places = places_of_class(*into.allocator(), store, settings, base, class)?;
    look_at_places(&store.rows, places.as_slice(), into)?;
    Ok(())
}

/// Appends the row of a key to `into`, if it has one. Fails if an allocation fails.
fn look_at<'r, A: Allocator>(
    store: &'r Store<A>,
    _settings: Settings,
    key: &Term<A>,
    into: &mut Vec<SeenRow<'r, A>, A>,
) -> Result<(), AllocError>
    ensures { IfOk result (λ _. (rows : List AnyRow)
        → Stands _settings store.now rows
        → into.new.items ≡ into.old.items ++ filter (λ r. is_same key.now r.0) rows) }
{
    if let Some(at) = store.find(mixed(store.seed, key), key) {
        look_at_row(&store.rows, at, into)?;
    }
    Ok(())
}

/// Appends the rows that a visit of a set looks at to `into`. Fails if an allocation fails.
pub(crate) fn look<'r, A: Allocator + Copy>(
    store: &'r Store<A>,
    settings: Settings,
    base: u64,
    scope: &Scope<'_, A>,
    into: &mut Vec<SeenRow<'r, A>, A>,
) -> Result<(), AllocError>
    requires parts { 0 < settings.parts }
    requires base { 0 < base }
    requires placed { IsTrue (is_placed settings (scope_of scope.now)) }
    ensures { IfOk result (λ _. (rows : List AnyRow) → IsFalse (is_ordered settings.kind)
        → Stands settings store.now rows
        → into.new.items ≡ into.old.items ++ looked_at settings base (scope_of scope.now) rows) }
{
    match scope {
        Scope::Begin => look_in(store, settings, base, 0, into),
        Scope::After(cursor) => match cursor {
            Cursor::Class { base, class } => {
                look_in(store, settings, u64::from(*base), u64::from(*class), into)
            }
            Cursor::Behind(_) => Ok(()),
        },
        Scope::Named(key) => look_at(store, settings, key, into),
    }
}

/// The places of the rows that a visit of a set may look at, where they are those of one slot.
pub(crate) fn listed<'r, A: Allocator>(
    store: &'r Store<A>,
    settings: Settings,
    base: u64,
    scope: &Scope<'_, A>,
) -> Option<&'r [Place]>
    requires parts { 0 < settings.parts }
    requires base { 0 < base }
    requires placed { IsTrue (is_placed settings (scope_of scope.now)) }
    ensures { IfSome result (λ places. (rows : List AnyRow) → IsFalse (is_ordered settings.kind)
        → Stands settings store.now rows
        → rows_of store.now.rows places.now ≡ looked_at settings base (scope_of scope.now) rows) }
{
    match scope {
        Scope::Begin => listed_in(store, settings, base, 0),
        Scope::After(cursor) => match cursor {
            Cursor::Class { base, class } => {
                listed_in(store, settings, u64::from(*base), u64::from(*class))
            }
            Cursor::Behind(_) => None,
        },
        Scope::Named(_) => None,
    }
}
