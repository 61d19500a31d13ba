//! The rows that a visit looks at.
ghost use Rattle.std.specs.Prelude.{◌≡◌, ◌<◌, ◌++◌, filter, IsTrue, IsFalse, IfOk};
ghost use Rattle.std.specs.List.{IsDistinct};
ghost use Rattle.std.specs.Map.{keys_of};
ghost use Rattle.term_operand.specs.Order.{is_same};
ghost use Rattle.part_core.specs.Ops.{scope_of};
ghost use Rattle.part_core.specs.Settings.{is_ordered};
ghost use Rattle.part_core.specs.Visits.{in_class};
ghost use Rattle.part_rows.specs.Looks.{is_placed, looked_at};

use crate::places::place_of;
use part_core::{Cursor, Scope, Settings};
use part_engine::HashedRow;
use part_rows::SeenRow;
use std::alloc::{AllocError, Allocator};
use term_core::Term;

/// Appends the rows of a class to `into`. Fails if an allocation fails.
fn look_in<'r, A: Allocator>(
    rows: &'r [HashedRow<A>],
    settings: Settings,
    base: u64,
    class: u64,
    into: &mut Vec<SeenRow<'r, A>, A>,
) -> Result<(), AllocError>
    requires parts { 0 < settings.parts }
    requires base { 0 < base }
    ensures { IfOk result (λ _. into.new.items ≡ into.old.items ++ in_class settings base class rows.now) }
{
    for row in rows {
        if row.is_in(settings, base, class) {
            into.push(row.seen())?;
        }
    }
    Ok(())
}

/// Appends the row of a key to `into`, if it has one. Fails if an allocation fails.
fn look_at<'r, A: Allocator>(
    rows: &'r [HashedRow<A>],
    key: &Term<A>,
    into: &mut Vec<SeenRow<'r, A>, A>,
) -> Result<(), AllocError>
    ensures { IfOk result (λ _. IsDistinct is_same (keys_of rows.now)
        → into.new.items ≡ into.old.items ++ filter (λ r. is_same key.now r.0) rows.now) }
{
    if let Some(place) = place_of(rows, key, key.key_hash()) {
        into.push(rows[place].seen())?;
    }
    Ok(())
}

/// Appends the rows that a visit looks at to `into`. Fails if an allocation fails.
pub(crate) fn look<'r, A: Allocator>(
    rows: &'r [HashedRow<A>],
    settings: Settings,
    base: u64,
    scope: &Scope<'_, A>,
    into: &mut Vec<SeenRow<'r, A>, A>,
) -> Result<(), AllocError>
    requires parts { 0 < settings.parts }
    requires base { 0 < base }
    requires placed { IsTrue (is_placed settings (scope_of scope.now)) }
    ensures { IfOk result (λ _. IsFalse (is_ordered settings.kind) → IsDistinct is_same (keys_of rows.now)
        → into.new.items ≡ into.old.items ++ looked_at settings base (scope_of scope.now) rows.now) }
{
    match scope {
        Scope::Begin => look_in(rows, settings, base, 0, into),
        Scope::After(cursor) => match cursor {
            Cursor::Class { base, class } => {
                look_in(rows, settings, u64::from(*base), u64::from(*class), into)
            }
            Cursor::Behind(_) => Ok(()),
        },
        Scope::Named(key) => look_at(rows, key, into),
    }
}
