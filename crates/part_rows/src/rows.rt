//! What every sort of rows guarantees.
ghost use Rattle.std.specs.Prelude.{◌≡◌, ◌<◌, ◌-◌, ◌^◌, ◌||◌, ◌++◌, Bool, IsTrue, IsFalse, Option, None, IfOk, IfSome, IsErrOf, OnOk, OnErr, if◌then◌else◌, unwrap_or, filter_map, flat_map, length};
ghost use Rattle.std.specs.Map.{lookup};
ghost use Rattle.std.specs.Option.{option_copied};
ghost use Rattle.term_core.specs.Datum.Datum.{nil};
ghost use Rattle.term_operand.specs.Order.{is_same};
ghost use Rattle.part_core.specs.declared.kind.TableKind.{TableKind};
ghost use Rattle.part_core.specs.declared.settings.Settings.{Settings as AnySettings};
ghost use Rattle.part_core.specs.Settings.{is_object, is_ordered, key_of};
ghost use Rattle.part_core.specs.Rows.{Row, has_row, objects_at};
ghost use Rattle.part_core.specs.Visits.{following_rows, walk_order};
ghost use Rattle.part_core.specs.Replies.{first_live, rows_past};
ghost use Rattle.part_core.specs.Ops.{scope_of};
ghost use Rattle.part_rows.specs.declared.place.Place.{Place as AnyPlace};
ghost use Rattle.part_rows.specs.Shown.{Shown, AreSound, no_rows, shown_with, shown_exchanged, shown_live};
ghost use Rattle.part_rows.specs.Puts.{put_at, is_put};
ghost use Rattle.part_rows.specs.Looks.{is_placed, looked_at};

use crate::place::Place;
use crate::put::{Put, PutFault};
use crate::seen::SeenRow;
use part_core::{Held, Scope, Settings, TableKind};
use std::alloc::{AllocError, Allocator};
use term_core::Term;

/// Rows of a part, each a key with its objects, found by their keys. What they show is their list, in a set in the
/// order of their creation, and the number of their slots. The contract of each operation says how it changes whatever
/// they show. An operation that runs out of memory changes nothing of it.
pub trait Rows<A: Allocator>: Sized {
    /// The kinds of table that such rows are for.
    ghost serves: { TableKind → Bool };
    /// What the rows of a table show.
    ghost shows: { AnySettings → Self → Shown → Type 0 };
    /// The row that is at a place, if one is.
    ghost row_of: { Self → AnyPlace → Option Row };

    /// Returns whether such rows are for a kind of table.
    fn is_served(kind: TableKind) -> bool
        ensures { result ≡ serves kind };

    /// Returns no rows, in 8 slots. Fails if an allocation fails.
    fn new(alloc: A, settings: Settings) -> Result<Self, AllocError>
        requires { IsTrue (serves settings.kind) }
        ensures { IfOk result (λ rows. shows settings rows no_rows) };

    /// Returns the number of slots.
    fn slots(&self) -> u32
        ensures slots { (o : AnySettings) (w : Shown) → shows o self.now w → result ≡ w.slots }
        ensures some { 0 < result };

    /// Returns the objects held at a key, or `None` if it has no row.
    fn held(&self, settings: Settings, key: &Term<A>) -> Option<&Held<A>>
        ensures { (w : Shown) → shows settings self.now w → AreSound settings w
            → option_copied result ≡ lookup (is_same key.now) w.rows };

    /// Inserts an object, unless its key has one and `replaces` is `false`; the object is taken in either case. Returns
    /// what became of the key's row. Fails if the term is no object or an allocation fails; then nothing is taken or
    /// changed.
    fn put(
        &mut self,
        settings: Settings,
        object: &mut Option<Term<A>>,
        replaces: bool,
    ) -> Result<Put, PutFault>
        ensures object { IfOk result (λ _. IsTrue (is_object settings (unwrap_or object.old nil))) }
        ensures no_object { IsErrOf result PutFault.NoObject → IsFalse (is_object settings (unwrap_or object.old nil)) }
        ensures scarce { IsErrOf result PutFault.Memory → IsTrue (is_object settings (unwrap_or object.old nil)) }
        ensures put { IfOk result (λ put. (w : Shown) → shows settings self.old w → AreSound settings w
            → (put ≡ put_at replaces (lookup (is_same (key_of settings (unwrap_or object.old nil))) w.rows))
            × shows settings self.new (if is_put put then shown_with settings (unwrap_or object.old nil) w else w)) }
        ensures spent { OnOk result (object.new ≡ None) }
        ensures back { OnErr result (object.new ≡ object.old) }
        ensures refused { OnErr result ((w : Shown) → shows settings self.old w → shows settings self.new w) };

    /// Exchanges the objects of a key with `held` if the key has a row, and returns whether it has. The row is removed
    /// if no objects are left, unless `keeps`. It does not allocate. The contract also states that there are fewer than
    /// 2^64 - 1 rows.
    fn exchange(
        &mut self,
        settings: Settings,
        key: &Term<A>,
        held: &mut Held<A>,
        keeps: bool,
    ) -> bool
        ensures exchanged { (w : Shown) → shows settings self.old w → AreSound settings w
            → (result ≡ has_row w.rows key.now)
            × (held.new ≡ (if result then objects_at w.rows key.now else held.old))
            × shows settings self.new (shown_exchanged key.now held.old keeps w) }
        ensures few { (w : Shown) → shows settings self.old w → length w.rows < 2 ^ 64 - 1 };

    /// Removes the rows whose keys have no objects. It does not allocate.
    fn keep_live(&mut self)
        ensures { (o : AnySettings) (w : Shown) → shows o self.old w → shows o self.new (shown_live w) };

    /// Appends the rows that a visit may look at to `into`: that of a named key; those of a class, which is class 0 by
    /// `base` if a walk begins; of an ordered set the first 64 after the cursor. Fails if an allocation fails.
    fn look<'r>(
        &'r self,
        settings: Settings,
        base: u32,
        scope: &Scope<'_, A>,
        into: &mut Vec<SeenRow<'r, A>, A>,
    ) -> Result<(), AllocError>
        requires parts { 0 < settings.parts }
        requires base { 0 < base }
        requires placed { IsTrue (is_placed settings (scope_of scope.now)) }
        ensures { IfOk result (λ _. (w : Shown) → shows settings self.now w → AreSound settings w
            → into.new.items ≡ into.old.items ++ looked_at settings base (scope_of scope.now) w.rows) };

    /// Returns the places of the rows that a visit may look at, if there is one list of them in the order of the visit;
    /// otherwise `None`. At some of the places there may no longer be a row. It does not allocate.
    fn listed(&self, settings: Settings, base: u32, scope: &Scope<'_, A>) -> Option<&[Place]>
        requires parts { 0 < settings.parts }
        requires base { 0 < base }
        requires placed { IsTrue (is_placed settings (scope_of scope.now)) }
        ensures { IfSome result (λ places. (w : Shown) → shows settings self.now w → AreSound settings w
            → filter_map (row_of self.now) places.now ≡ looked_at settings base (scope_of scope.now) w.rows) };

    /// Returns the row that is at a place, or `None` if it is no longer there.
    fn row_at(&self, place: Place) -> Option<SeenRow<'_, A>>
        ensures { result ≡ row_of self.now place };

    /// Returns the first key in walk order that has objects, or `None`.
    fn first_key(&self, settings: Settings, base: u32) -> Option<&Term<A>>
        requires parts { 0 < settings.parts }
        requires base { 0 < base }
        ensures { (w : Shown) → shows settings self.now w → AreSound settings w
            → option_copied result ≡ first_live (walk_order settings base w.rows) };

    /// Returns the first key after another in walk order that has objects, or `None`. In a set the other key has a row.
    fn following_key(&self, settings: Settings, base: u32, key: &Term<A>) -> Option<&Term<A>>
        requires parts { 0 < settings.parts }
        requires base { 0 < base }
        ensures { (w : Shown) → shows settings self.now w → AreSound settings w
            → IsTrue (is_ordered settings.kind || has_row w.rows key.now)
            → option_copied result ≡ first_live (if is_ordered settings.kind then following_rows key.now w.rows
            else rows_past key.now (walk_order settings base w.rows)) };

    /// Appends copies of all objects to `into`, in walk order. Fails if an allocation fails.
    fn gather(
        &self,
        settings: Settings,
        base: u32,
        into: &mut Vec<Term<A>, A>,
    ) -> Result<(), AllocError>
        requires parts { 0 < settings.parts }
        requires base { 0 < base }
        ensures { IfOk result (λ _. (w : Shown) → shows settings self.now w → AreSound settings w
            → into.new.items ≡ into.old.items ++ flat_map (λ r. r.1) (walk_order settings base w.rows)) };
}
