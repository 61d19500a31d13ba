//! Rows in a tree.
use crate::looking::{first_key, following_key, gather, look};
use crate::tree::{Tree, goes, keep_live, put_back, put_down, put_over, swap_held};
use part_core::{FIRST_SLOTS, Held, Scope, Settings, TableKind};
use part_engine::key_of;
use part_rows::{Place, Put, PutFault, Rows, SeenRow};
use std::alloc::{AllocError, Allocator, Global};
use std::marker::Model;
use term_core::Term;

/// Rows of an ordered set, in a tree in key order.
#[derive(Drop)]
pub struct OrderRows<A: Allocator = Global> {
    tree: Tree<A>,
}

impl<A: Allocator> Model for OrderRows<A> {
    ghost use Rattle.std.specs.Prelude.{List};
    ghost use Rattle.std.specs.Coded.{codes};
    ghost use Rattle.term_core.specs.Datum.{Datum};
    ghost use Rattle.term_core.specs.DatumCode.{datum_code};

    ghost Value = { List (Datum × List Datum) };

    ghost coded = { Prim.hlevel (codes, datum_code) };

    ghost view = { λ r. r.tree.entries };
}

impl<A: Allocator> OrderRows<A> {
    ghost use Rattle.std.specs.Prelude.{◌≡◌, [], ◌∷◌, None, true, not, IfOk, IsErrOf, OnOk, OnErr, IsSome, IsTrue, IsFalse, if◌then◌else◌, unwrap_or};
    ghost use Rattle.std.specs.BTreeMap.{insert_entry};
    ghost use Rattle.std.specs.List.Sorted.{IsStrictlySortedBy};
    ghost use Rattle.std.specs.Map.{keys_of, lookup, remove_entry, set_value};
    ghost use Rattle.term_core.specs.Datum.Datum.{nil};
    ghost use Rattle.term_core.specs.Order.{datum_cmp};
    ghost use Rattle.term_operand.specs.Order.{is_same};
    ghost use Rattle.part_core.specs.declared.kind.TableKind.TheVariants.{OrderedSet};
    ghost use Rattle.part_core.specs.Rows.{has_row, objects_at, with_object};
    ghost use Rattle.part_core.specs.Settings.{is_object, key_of};
    ghost use Rattle.part_rows.specs.Puts.{is_put, put_at};

    /// Exchanges the objects of a key with `held` if the key has a row, and returns whether it has.
    fn swap(&mut self, key: &Term<A>, held: &mut Held<A>) -> bool
        ensures there { result ≡ has_row self.old key.now }
        ensures held { held.new ≡ (if result then objects_at self.old key.now else held.old) }
        ensures rows { self.new ≡ set_value (is_same key.now) self.old held.old }
    {
        swap_held(&mut self.tree, key, held)
    }

    /// Removes the row of a key if it has one, and returns whether it had. Its objects are in `held` then.
    fn take_row(&mut self, key: &Term<A>, held: &mut Held<A>) -> bool
        ensures there { result ≡ has_row self.old key.now }
        ensures held { held.new ≡ (if result then objects_at self.old key.now else held.old) }
        ensures rows { self.new ≡ remove_entry (is_same key.now) self.old }
    {
        let Some(removed) = self.tree.remove(key) else {
            return false;
        };
        put_down(held, removed);
        true
    }

    /// Returns whether the key keeps its object when another is inserted: it has one, and `replaces` is `false`.
    fn stays(&self, key: &Term<A>, replaces: bool) -> bool
        ensures { result ≡ not (is_put (put_at replaces (lookup (is_same key.now) self.now))) }
    {
        if replaces {
            return false;
        }
        !Put::over(self.tree.get(key), replaces).is_done()
    }

    /// Inserts an object at a key, instead of the objects that are held at it, and returns what became of the key's
    /// row. If an allocation fails, the object is handed back, and nothing is changed.
    fn put_row(&mut self, key: Term<A>, object: &mut Option<Term<A>>) -> Result<Put, AllocError>
    where
        A: Copy,
        requires { IsSome object.old }
        ensures put { IfOk result (λ put. put ≡ put_at true (lookup (is_same key) self.old)) }
        ensures ordered { IsStrictlySortedBy datum_cmp (keys_of self.old) }
        ensures rows { OnOk result (self.new ≡ insert_entry datum_cmp self.old key (unwrap_or object.old nil ∷ [])) }
        ensures spent { OnOk result (object.new ≡ None) }
        ensures back { OnErr result (object.new ≡ object.old) }
        ensures refused { OnErr result (self.new ≡ self.old) }
    {
        let Some(taken) = object.take() else {
            unreachable!();
        };
        match self.tree.insert(key, Held::one(taken)) {
            Ok(replaced) => Ok(put_over(replaced)),
            Err(failed) => {
                put_back(object, failed.value);
                Err(AllocError)
            }
        }
    }

    /// Inserts an object, unless its key has one and `replaces` is `false`; the object is taken in either case. Returns
    /// what became of its key's row. Fails, with nothing changed, if the term is no object or an allocation fails.
    fn put_object(
        &mut self,
        settings: Settings,
        object: &mut Option<Term<A>>,
        replaces: bool,
    ) -> Result<Put, PutFault>
    where
        A: Copy,
        ensures object { IfOk result (λ _. IsTrue (is_object settings (unwrap_or object.old nil))) }
        ensures no_object { IsErrOf result PutFault.NoObject → IsFalse (is_object settings (unwrap_or object.old nil)) }
        ensures scarce { IsErrOf result PutFault.Memory → IsTrue (is_object settings (unwrap_or object.old nil)) }
        ensures put { IfOk result (λ put. put
            ≡ put_at replaces (lookup (is_same (key_of settings (unwrap_or object.old nil))) self.old)) }
        ensures rows { IfOk result (λ put. settings.kind ≡ OrderedSet
            → self.new ≡ (if is_put put then with_object settings (unwrap_or object.old nil) self.old else self.old)) }
        ensures spent { OnOk result (object.new ≡ None) }
        ensures back { OnErr result (object.new ≡ object.old) }
        ensures refused { OnErr result (self.new ≡ self.old) }
    {
        let Some(key) = key_of(settings, object) else {
            return Err(PutFault::NoObject);
        };
        if self.stays(key, replaces) {
            drop(object.take());
            return Ok(Put::Kept);
        }
        let key = key.copy()?;
        let put = self.put_row(key, object)?;
        Ok(put)
    }
}

impl<A: Allocator + Copy> Rows<A> for OrderRows<A> {
    ghost use Rattle.std.specs.Prelude.{◌≡◌, ◌<◌, ◌++◌, None, IsTrue, IfOk};
    ghost use Rattle.part_core.specs.Ops.{scope_of};
    ghost use Rattle.part_rows.specs.Shown.{Shown, AreSound};
    ghost use Rattle.part_rows.specs.Looks.{is_placed, looked_at};
    ghost use Rattle.part_order.specs.Served.{serves, IsShown};

    ghost serves = { serves };

    ghost shows = { λ o rows w. IsShown o rows w };

    ghost row_of = { λ rows place. None };

    fn is_served(kind: TableKind) -> bool {
        kind.is_ordered()
    }

    fn new(alloc: A, _settings: Settings) -> Result<Self, AllocError> {
        Ok(OrderRows {
            tree: Tree::new(alloc),
        })
    }

    fn slots(&self) -> u32 {
        FIRST_SLOTS
    }

    fn held(&self, _settings: Settings, key: &Term<A>) -> Option<&Held<A>> {
        self.tree.get(key)
    }

    fn put(
        &mut self,
        settings: Settings,
        object: &mut Option<Term<A>>,
        replaces: bool,
    ) -> Result<Put, PutFault> {
        let put = self.put_object(settings, object, replaces)?;
        Ok(put)
    }

    fn exchange(
        &mut self,
        _settings: Settings,
        key: &Term<A>,
        held: &mut Held<A>,
        keeps: bool,
    ) -> bool {
        prove!(self.tree.len() < usize::MAX);
        if goes(held, keeps) {
            return self.take_row(key, held);
        }
        self.swap(key, held)
    }

    fn keep_live(&mut self) {
        keep_live(&mut self.tree);
    }

    fn look<'r>(
        &'r self,
        settings: Settings,
        base: u32,
        scope: &Scope<'_, A>,
        into: &mut Vec<SeenRow<'r, A>, A>,
    ) -> Result<(), AllocError>
        requires parts { 0 < settings.parts }
        requires base { 0 < base }
        requires placed { IsTrue (is_placed settings (scope_of scope.now)) }
        ensures { IfOk result (λ _. (w : Shown) → IsShown settings self.now w → AreSound settings w
            → into.new.items ≡ into.old.items ++ looked_at settings base (scope_of scope.now) w.rows) }
    {
        look(&self.tree, scope, into)
    }

    fn listed(&self, _settings: Settings, _base: u32, _scope: &Scope<'_, A>) -> Option<&[Place]> {
        None
    }

    fn row_at(&self, _place: Place) -> Option<SeenRow<'_, A>> {
        None
    }

    fn first_key(&self, _settings: Settings, _base: u32) -> Option<&Term<A>> {
        first_key(&self.tree)
    }

    fn following_key(&self, _settings: Settings, _base: u32, key: &Term<A>) -> Option<&Term<A>> {
        following_key(&self.tree, key)
    }

    fn gather(
        &self,
        _settings: Settings,
        _base: u32,
        into: &mut Vec<Term<A>, A>,
    ) -> Result<(), AllocError> {
        gather(&self.tree, into)
    }
}
