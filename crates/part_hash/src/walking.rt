//! The order of a walk: class by class, in each as the rows were made.
ghost use Rattle.std.specs.Prelude.{◌≡◌, ◌<◌, ◌+◌, ◌/◌, ◌%◌, ◌≤◌, ◌==◌, ◌++◌, List, Some, find, length, IsTrue, IsFalse};
ghost use Rattle.std.specs.Option.{option_copied, option_map};
ghost use Rattle.slab.specs.Slab.{get};
ghost use Rattle.part_core.specs.Replies.{first_live, rows_past};
ghost use Rattle.part_core.specs.Rows.{Row as AnyRow, has_row};
ghost use Rattle.part_core.specs.Settings.{class_at, is_ordered};
ghost use Rattle.part_core.specs.Visits.{in_class, walk_order};
ghost use Rattle.part_engine.specs.Sets.{rows_from};
ghost use Rattle.part_hash.specs.Classes.{earlier as earlier_of, is_next as is_next_of, made_from, next_of_class, slot_of_class, step_of as step_between};
ghost use Rattle.part_hash.specs.Places.{Kept, row_of};
ghost use Rattle.part_hash.specs.Slots.{listing_at};
ghost use Rattle.part_hash.specs.Standing.{Stands};

use crate::mixing::mixed;
use crate::places::{Slot, later, row_at};
use crate::row::Row;
use crate::store::Store;
use part_core::Settings;
use part_engine::class_of;
use part_rows::Place;
use slab::Slab;
use std::alloc::Allocator;
use term_core::Term;

/// Whether a key is of a class, by a base.
pub(crate) fn is_in<A: Allocator>(settings: Settings, base: u64, class: u64, key: &Term<A>) -> bool
    requires parts { 0 < settings.parts }
    requires base { 0 < base }
    ensures { result ≡ (class_at settings base key.now == class) }
{
    class_of(settings, base, key.key_hash()) == class
}

/// Returns whether the row at a place is a live one of a class, created after the first `from` rows.
fn is_next<A: Allocator>(
    rows: &Slab<Row<A>, A>,
    settings: Settings,
    base: u64,
    class: u64,
    from: u64,
    place: Place,
) -> bool
    requires parts { 0 < settings.parts }
    requires base { 0 < base }
    ensures { result ≡ is_next_of settings base class from rows.now place }
{
    if place.made < from {
        return false;
    }
    match row_at(rows, place) {
        Some(row) => !row.held().is_empty() && is_in(settings, base, class, row.key()),
        None => false,
    }
}

/// The first of these places at which there is such a row.
fn next_among<A: Allocator>(
    rows: &Slab<Row<A>, A>,
    settings: Settings,
    base: u64,
    class: u64,
    from: u64,
    places: &[Place],
) -> Option<Place>
    requires parts { 0 < settings.parts }
    requires base { 0 < base }
    ensures { result ≡ find (is_next_of settings base class from rows.now) places.now }
{
    for place in places {
        if is_next(rows, settings, base, class, from, *place) {
            return Some(*place);
        }
    }
    None
}

/// The earlier of two places.
fn earlier(first: Option<Place>, second: Option<Place>) -> Option<Place>
    ensures { result ≡ earlier_of first second }
{
    let Some(one) = first else {
        return second;
    };
    let Some(other) = second else {
        return first;
    };
    if one.made <= other.made {
        first
    } else {
        second
    }
}

/// Returns the distance of the slots in which rows of a class may be, if there are `count` slots.
pub(crate) fn step_of(count: u64, base: u64) -> u64
    requires { 0 < base }
    ensures value { result ≡ step_between count base }
    ensures some { 0 < result }
{
    if count % base == 0 { base } else { 1 }
}

/// One of the slots in which rows of a class may stand.
pub(crate) fn slot_in<A: Allocator>(slots: &[Slot<A>], base: u64, class: u64, turn: u64) -> &Slot<A>
    requires base { 0 < base }
    requires few { length slots.now ≤ 65536 }
    requires turn { turn < length slots.now / step_between (length slots.now) base }
    ensures { result.now ≡ listing_at slots.now (slot_of_class (length slots.now) base class turn) }
{
    let step = step_of(slots.len() as u64, base);
    &slots[(class % step + turn * step) as usize]
}

/// Returns the first place of a live row of a class, created after the first `from` rows, or `None`.
fn next_place<A: Allocator>(
    store: &Store<A>,
    settings: Settings,
    base: u64,
    class: u64,
    from: u64,
) -> Option<Place>
    requires parts { 0 < settings.parts }
    requires base { 0 < base }
    ensures { (rows : List AnyRow) → Stands settings store.now rows
        → result ≡ next_of_class settings base class from store.now.rows store.now.slots.items }
{
    let slots = store.slots.as_slice();
    let mut next = None;
    for turn in 0..slots.len() as u64 / step_of(slots.len() as u64, base) {
        let places = later(slot_in(slots, base, class, turn).from_front(), from);
        let found = next_among(&store.rows, settings, base, class, from, places);
        next = earlier(next, found);
    }
    next
}

/// The key of the row at a place.
fn key_at<A: Allocator>(rows: &Slab<Row<A>, A>, place: Place) -> Option<&Term<A>>
    ensures { option_copied result ≡ option_map (λ r. r.0) (row_of rows.now place) }
{
    match row_at(rows, place) {
        Some(row) => Some(row.key()),
        None => None,
    }
}

/// Returns the key of the first live row of a class, created after the first `from` rows, or `None`.
fn live_in<A: Allocator>(
    store: &Store<A>,
    settings: Settings,
    base: u64,
    class: u64,
    from: u64,
) -> Option<&Term<A>>
    requires parts { 0 < settings.parts }
    requires base { 0 < base }
    requires class { class < base }
    ensures { (rows : List AnyRow)
        → (s : Stands settings store.now rows)
        → option_copied result ≡ first_live (in_class settings base class (made_from from s.list)) }
{
    match next_place(store, settings, base, class, from) {
        Some(place) => key_at(&store.rows, place),
        None => None,
    }
}

/// The key of the first live row of the classes from one on.
fn live_from<A: Allocator>(
    store: &Store<A>,
    settings: Settings,
    base: u64,
    first: u64,
) -> Option<&Term<A>>
    requires parts { 0 < settings.parts }
    requires base { 0 < base }
    ensures { (rows : List AnyRow)
        → Stands settings store.now rows
        → option_copied result ≡ first_live (rows_from settings base first rows) }
{
    for class in first..base {
        if let Some(key) = live_in(store, settings, base, class, 0) {
            return Some(key);
        }
    }
    None
}

/// The key of the first live row of all classes.
pub(crate) fn first_live<A: Allocator>(
    store: &Store<A>,
    settings: Settings,
    base: u64,
) -> Option<&Term<A>>
    requires parts { 0 < settings.parts }
    requires base { 0 < base }
    ensures { (rows : List AnyRow) → IsFalse (is_ordered settings.kind)
        → Stands settings store.now rows
        → option_copied result ≡ first_live (walk_order settings base rows) }
{
    live_from(store, settings, base, 0)
}

/// Returns the key of the first live row of a class created after the first `from` rows, or else of a class above, or
/// `None`.
fn live_after<A: Allocator>(
    store: &Store<A>,
    settings: Settings,
    base: u64,
    class: u64,
    from: u64,
) -> Option<&Term<A>>
    requires parts { 0 < settings.parts }
    requires class { class < base }
    ensures { (rows : List AnyRow)
        → (s : Stands settings store.now rows)
        → option_copied result ≡ first_live (in_class settings base class (made_from from s.list)
        ++ rows_from settings base (class + 1) rows) }
{
    match live_in(store, settings, base, class, from) {
        Some(key) => Some(key),
        None => live_from(store, settings, base, class + 1),
    }
}

/// Returns how many rows were created up to that at a key of the slab, if `made` were created in all.
fn made_to<A: Allocator>(rows: &Slab<Row<A>, A>, at: usize, made: u64) -> u64
    ensures { (s : Kept) → get rows.now at ≡ Some s → s.1 < made → result ≡ s.1 + 1 }
{
    match rows.get(at) {
        Some(row) => {
            if row.made() < made {
                row.made() + 1
            } else {
                made
            }
        }
        None => made,
    }
}

/// Returns the key of the first live row after that of a key, in walk order, or `None`.
pub(crate) fn live_past<'r, A: Allocator>(
    store: &'r Store<A>,
    settings: Settings,
    base: u64,
    key: &Term<A>,
) -> Option<&'r Term<A>>
    requires parts { 0 < settings.parts }
    requires base { 0 < base }
    ensures { (rows : List AnyRow) → IsFalse (is_ordered settings.kind) → IsTrue (has_row rows key.now)
        → Stands settings store.now rows
        → option_copied result ≡ first_live (rows_past key.now (walk_order settings base rows)) }
{
    let Some(at) = store.find(mixed(store.seed, key), key) else {
        return None;
    };
    let from = made_to(&store.rows, at, store.made);
    let class = class_of(settings, base, key.key_hash());
    live_after(store, settings, base, class, from)
}
