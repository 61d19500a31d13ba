//! Copying the objects of all rows, in walk order.
ghost use Rattle.std.specs.Prelude.{◌≡◌, ◌<◌, ◌++◌, ◌==◌, if◌then◌else◌, flat_map, [], IfOk, IsFalse};
ghost use Rattle.part_core.specs.Settings.{class_at, is_ordered};
ghost use Rattle.part_core.specs.Visits.{in_class, walk_order};

use part_core::Settings;
use part_engine::HashedRow;
use std::alloc::{AllocError, Allocator};
use term_core::Term;

/// Appends copies of a row's objects to `into` if its key is in the class. Fails if an allocation fails.
fn gather_row<A: Allocator + Copy>(
    row: &HashedRow<A>,
    settings: Settings,
    base: u64,
    class: u64,
    into: &mut Vec<Term<A>, A>,
) -> Result<(), AllocError>
    requires parts { 0 < settings.parts }
    requires base { 0 < base }
    ensures { IfOk result (λ _. into.new.items ≡ into.old.items
        ++ (if class_at settings base row.now.0 == class then row.now.1 else [])) }
{
    if row.is_in(settings, base, class) {
        row.held().copy_into(into)?;
    }
    Ok(())
}

/// Appends copies of the objects of a class to `into`. Fails if an allocation fails.
fn gather_class<A: Allocator + Copy>(
    rows: &[HashedRow<A>],
    settings: Settings,
    base: u64,
    class: u64,
    into: &mut Vec<Term<A>, A>,
) -> Result<(), AllocError>
    requires parts { 0 < settings.parts }
    requires base { 0 < base }
    ensures { IfOk result (λ _. into.new.items ≡ into.old.items
        ++ flat_map (λ r. r.1) (in_class settings base class rows.now)) }
{
    for row in rows {
        gather_row(row, settings, base, class, into)?;
    }
    Ok(())
}

/// Appends copies of the objects of all classes to `into`, class by class. Fails if an allocation fails.
pub(crate) fn gather<A: Allocator + Copy>(
    rows: &[HashedRow<A>],
    settings: Settings,
    base: u64,
    into: &mut Vec<Term<A>, A>,
) -> Result<(), AllocError>
    requires parts { 0 < settings.parts }
    requires base { 0 < base }
    ensures { IfOk result (λ _. IsFalse (is_ordered settings.kind) → into.new.items ≡ into.old.items
        ++ flat_map (λ r. r.1) (walk_order settings base rows.now)) }
{
    for class in 0..base {
        gather_class(rows, settings, base, class, into)?;
    }
    Ok(())
}
