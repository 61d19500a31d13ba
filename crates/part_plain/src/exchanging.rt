//! Exchanging the objects of rows, and removing dead rows.
ghost use Rattle.std.specs.Prelude.{vec_len, ◌≡◌, ◌<◌, ◌∷◌, ◌++◌, if◌then◌else◌, filter, length, List};
ghost use Rattle.std.specs.List.{IsDistinct};
ghost use Rattle.std.specs.Map.{keys_of};
ghost use Rattle.term_operand.specs.Order.{is_same};
ghost use Rattle.part_core.specs.Rows.{Row as AnyRow, has_row, is_live, objects_at};
ghost use Rattle.part_rows.specs.Shown.{rows_exchanged};

use crate::places::place_of;
use part_core::Held;
use part_engine::HashedRow;
use std::alloc::Allocator;
use term_core::Term;

/// Removes the row at a place if it is dead.
fn settle<A: Allocator>(rows: &mut Vec<HashedRow<A>, A>, place: usize)
    requires { place < vec_len rows.old }
    ensures { (before after : List AnyRow) (row : AnyRow) → length before ≡ place
        → rows.old.items ≡ before ++ row ∷ after
        → rows.new.items ≡ before ++ (if is_live row then row ∷ after else after) }
{
    if !rows[place].is_live() {
        drop(rows.remove(place));
    }
}

/// Exchanges the objects of a key with `held` if the key has a row, and returns whether it has. If the row is dead
/// then, it is removed, unless `keeps`.
pub(crate) fn exchange<A: Allocator>(
    rows: &mut Vec<HashedRow<A>, A>,
    key: &Term<A>,
    held: &mut Held<A>,
    keeps: bool,
) -> bool
    ensures found { result ≡ has_row rows.old.items key.now }
    ensures held { held.new ≡ (if result then objects_at rows.old.items key.now else held.old) }
    ensures rows { IsDistinct is_same (keys_of rows.old.items)
        → rows.new.items ≡ rows_exchanged key.now held.old keeps rows.old.items }
{
    let Some(place) = place_of(rows, key, key.key_hash()) else {
        return false;
    };
    rows[place].exchange(held);
    if !keeps {
        settle(rows, place);
    }
    true
}

/// Removes all dead rows.
pub(crate) fn keep_live<A: Allocator>(rows: &mut Vec<HashedRow<A>, A>)
    ensures { rows.new.items ≡ filter is_live rows.old.items }
{
    rows.retain(|row| row.is_live());
}
