//! The objects of all rows, in the order of a walk.
ghost use Rattle.std.specs.Prelude.{◌≡◌, ◌<◌, ◌++◌, List, Option, [], IfOk, IsFalse, flat_map};
ghost use Rattle.std.specs.Option.{option_map_or};
ghost use Rattle.part_core.specs.Rows.{Row as AnyRow};
ghost use Rattle.part_core.specs.Settings.{is_ordered};
ghost use Rattle.part_core.specs.Visits.{in_class, walk_order};
ghost use Rattle.part_hash.specs.Places.{row_of, rows_of};
ghost use Rattle.part_hash.specs.Standing.{Stands};

use crate::looking::{listed_in, places_of_class};
use crate::places::row_at;
use crate::row::Row;
use crate::store::Store;
use part_core::Settings;
use part_rows::Place;
use slab::Slab;
use std::alloc::{AllocError, Allocator};
use term_core::Term;

/// Appends copies of the objects of the row at a place to `into`, if one is there. Fails if an allocation fails.
fn gather_row<A: Allocator + Copy>(
    rows: &Slab<Row<A>, A>,
    place: Place,
    into: &mut Vec<Term<A>, A>,
) -> Result<(), AllocError>
    ensures { IfOk result (λ _. into.new.items
        ≡ into.old.items ++ option_map_or (λ r. r.1) (row_of rows.now place) []) }
{
    if let Some(row) = row_at(rows, place) {
        row.held().copy_into(into)?;
    }
    Ok(())
}

/// Appends copies of the objects of the rows at places to `into`. Fails if an allocation fails.
fn gather_places<A: Allocator + Copy>(
    rows: &Slab<Row<A>, A>,
    places: &[Place],
    into: &mut Vec<Term<A>, A>,
) -> Result<(), AllocError>
    ensures { IfOk result (λ _. into.new.items
        ≡ into.old.items ++ flat_map (λ r. r.1) (rows_of rows.now places.now)) }
{
    for place in places {
        gather_row(rows, *place, into)?;
    }
    Ok(())
}

/// Appends copies of the objects of a class to `into`. Fails if an allocation fails.
fn gather_class<A: Allocator + Copy>(
    store: &Store<A>,
    settings: Settings,
    base: u64,
    class: u64,
    into: &mut Vec<Term<A>, A>,
) -> Result<(), AllocError>
    requires parts { 0 < settings.parts }
    requires class { class < base }
    ensures { IfOk result (λ _. (rows : List AnyRow)
        → Stands settings store.now rows
        → into.new.items ≡ into.old.items ++ flat_map (λ r. r.1) (in_class settings base class rows)) }
{
    if let Some(places) = listed_in(store, settings, base, class) {
        gather_places(&store.rows, places, into)?;
        return Ok(());
    }
    let places = places_of_class(*into.allocator(), store, settings, base, class)?;
    gather_places(&store.rows, places.as_slice(), into)?;
    Ok(())
}

/// Appends copies of the objects of all classes to `into`, class by class. Fails if an allocation fails.
pub(crate) fn gather<A: Allocator + Copy>(
    store: &Store<A>,
    settings: Settings,
    base: u64,
    into: &mut Vec<Term<A>, A>,
) -> Result<(), AllocError>
    requires parts { 0 < settings.parts }
    requires base { 0 < base }
    ensures { IfOk result (λ _. (rows : List AnyRow) → IsFalse (is_ordered settings.kind)
        → Stands settings store.now rows
        → into.new.items ≡ into.old.items ++ flat_map (λ r. r.1) (walk_order settings base rows)) }
{
    for class in 0..base {
        gather_class(store, settings, base, class, into)?;
    }
    Ok(())
}
