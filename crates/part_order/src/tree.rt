//! A tree of rows, found by their keys.
ghost use Rattle.std.specs.Prelude.{◌≡◌, ◌&&◌, [], ◌∷◌, Some, true, filter, not, if◌then◌else◌};
ghost use Rattle.std.specs.Map.{set_value};
ghost use Rattle.term_core.specs.Datum.{Datum};
ghost use Rattle.term_operand.specs.Order.{is_same};
ghost use Rattle.part_core.specs.Rows.{has_row, is_empty, objects_at};
ghost use Rattle.part_rows.specs.Puts.{put_at};

use part_core::Held;
use part_rows::Put;
use std::alloc::Allocator;
use std::collections::BTreeMap;
use std::mem;
use term_core::Term;

/// A tree of rows: the objects held at each key.
pub(crate) type Tree<A> = BTreeMap<Term<A>, Held<A>, A>;

/// Replaces the objects at `place` by `held`.
pub(crate) fn put_down<A: Allocator>(place: &mut Held<A>, held: Held<A>)
    ensures { place.new ≡ held }
{
    drop(mem::replace(place, held));
}

/// Returns what became of the row of a key at which an object replaced the objects `replaced`, or `None` if it had no
/// row.
pub(crate) fn put_over<A: Allocator>(replaced: Option<Held<A>>) -> Put
    ensures { result ≡ put_at true replaced }
{
    Put::over(replaced.as_ref(), true)
}

/// Puts the object of a row that was made but not inserted back into the option from which it was taken.
pub(crate) fn put_back<A: Allocator>(place: &mut Option<Term<A>>, row: (Term<A>, Held<A>))
    ensures { (object : Datum) → row.1 ≡ object ∷ [] → place.new ≡ Some object }
{
    drop(mem::replace(place, row.1.into_object()));
}

/// Returns whether a row is removed whose objects become `held`: it would be dead, and `keeps` is `false`.
pub(crate) fn goes<A: Allocator>(held: &Held<A>, keeps: bool) -> bool
    ensures { result ≡ (not keeps && is_empty held.now) }
{
    !keeps && held.is_empty()
}

/// Exchanges the objects of a key with `held` if the key has a row, and returns whether it has.
pub(crate) fn swap_held<A: Allocator>(tree: &mut Tree<A>, key: &Term<A>, held: &mut Held<A>) -> bool
    ensures there { result ≡ has_row tree.old.entries key.now }
    ensures held { held.new ≡ (if result then objects_at tree.old.entries key.now else held.old) }
    ensures rows { tree.new.entries ≡ set_value (is_same key.now) tree.old.entries held.old }
{
    match tree.get_mut(key) {
        Some(place) => {
            mem::swap(place, held);
            true
        }
        None => false,
    }
}

/// Removes the rows without objects.
// The keys are of any type: the borrow checker covers no call with a closure over two types that name the allocator.
pub(crate) fn keep_live<K: Ord + Drop, A: Allocator>(tree: &mut BTreeMap<K, Held<A>, A>)
    ensures { tree.new.entries ≡ filter (λ r. not (is_empty r.1)) tree.old.entries }
{
    tree.retain(|_key, held| !held.is_empty());
}
