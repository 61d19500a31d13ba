//! Walk order: class by class, in each class in the order in which rows were created.
ghost use Rattle.std.specs.Prelude.{◌≡◌, ◌<◌, ◌+◌, ◌++◌, drop, length, IsTrue, IsFalse};
ghost use Rattle.std.specs.Option.{option_copied};
ghost use Rattle.part_core.specs.Replies.{first_live, rows_past};
ghost use Rattle.part_core.specs.Rows.{has_row};
ghost use Rattle.part_core.specs.Settings.{is_ordered};
ghost use Rattle.part_core.specs.Visits.{in_class, walk_order};
ghost use Rattle.part_engine.specs.Sets.{rows_from};

use crate::places::place_of;
use part_core::Settings;
use part_engine::{HashedRow, class_of};
use std::alloc::Allocator;
use term_core::Term;

/// Returns the key of the first live row of a class, or `None`.
fn live_in<A: Allocator>(
    rows: &[HashedRow<A>],
    settings: Settings,
    base: u64,
    class: u64,
) -> Option<&Term<A>>
    requires parts { 0 < settings.parts }
    requires base { 0 < base }
    ensures { option_copied result ≡ first_live (in_class settings base class rows.now) }
{
    for row in rows {
        if row.is_live() && row.is_in(settings, base, class) {
            return Some(row.key());
        }
    }
    None
}

/// Returns the key of the first live row of the classes from `first` on, or `None`.
fn live_from<A: Allocator>(
    rows: &[HashedRow<A>],
    settings: Settings,
    base: u64,
    first: u64,
) -> Option<&Term<A>>
    requires parts { 0 < settings.parts }
    requires base { 0 < base }
    ensures { option_copied result ≡ first_live (rows_from settings base first rows.now) }
{
    for class in first..base {
        if let Some(key) = live_in(rows, settings, base, class) {
            return Some(key);
        }
    }
    None
}

/// Returns the key of the first live row of all classes, in walk order, or `None`.
pub(crate) fn first_live<A: Allocator>(
    rows: &[HashedRow<A>],
    settings: Settings,
    base: u64,
) -> Option<&Term<A>>
    requires parts { 0 < settings.parts }
    requires base { 0 < base }
    ensures { IsFalse (is_ordered settings.kind)
        → option_copied result ≡ first_live (walk_order settings base rows.now) }
{
    live_from(rows, settings, base, 0)
}

/// Returns the key of the first live row after a position of a class, in walk order, or `None`.
fn live_after<A: Allocator>(
    rows: &[HashedRow<A>],
    settings: Settings,
    base: u64,
    place: usize,
    class: u64,
) -> Option<&Term<A>>
    requires parts { 0 < settings.parts }
    requires place { place < length rows.now }
    requires class { class < base }
    ensures { option_copied result
        ≡ first_live (in_class settings base class (drop (place + 1) rows.now)
        ++ rows_from settings base (class + 1) rows.now) }
{
    match live_in(&rows[place + 1..], settings, base, class) {
        Some(key) => Some(key),
        None => live_from(rows, settings, base, class + 1),
    }
}

/// Returns the key of the first live row after that of a key, in walk order, or `None`. The key must have a row.
pub(crate) fn live_past<'r, A: Allocator>(
    rows: &'r [HashedRow<A>],
    settings: Settings,
    base: u64,
    key: &Term<A>,
) -> Option<&'r Term<A>>
    requires parts { 0 < settings.parts }
    requires base { 0 < base }
    ensures { IsFalse (is_ordered settings.kind) → IsTrue (has_row rows.now key.now)
        → option_copied result ≡ first_live (rows_past key.now (walk_order settings base rows.now)) }
{
    let hash = key.key_hash();
    match place_of(rows, key, hash) {
        Some(place) => live_after(rows, settings, base, place, class_of(settings, base, hash)),
        None => None,
    }
}
