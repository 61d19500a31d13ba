//! Rows that are found by their hashes.
ghost use Rattle.std.specs.Prelude.{◌<◌};

use crate::finding::empty;
use crate::gathering::gather;
use crate::looking::{listed, look};
use crate::places::{row_at, spread_of};
use crate::putting::put;
use crate::removing::{exchange, keep_live};
use crate::store::Store;
use crate::walking::{first_live, live_past};
use part_core::{Held, Scope, Settings, TableKind};
use part_rows::{Place, Put, PutFault, Rows, SeenRow};
use std::alloc::{AllocError, Allocator, Global};
use term_core::Term;

/// The rows of a table that isn't walked by key in a slab: an index finds them by their keys, and slots list those of
/// each class.
#[derive(Drop)]
pub struct HashRows<A: Allocator = Global> {
    store: Store<A>,
    // By what the hashes of the part's keys are divided.
    spread: u64,
    ghost some: { 0 < spread },
}

impl<A: Allocator + Copy> Rows<A> for HashRows<A> {
    ghost use Rattle.std.specs.Prelude.{◌≡◌, ◌<◌, ◌++◌, IsTrue, IfOk};
    ghost use Rattle.part_core.specs.Ops.{scope_of};
    ghost use Rattle.part_rows.specs.Shown.{Shown, AreSound};
    ghost use Rattle.part_rows.specs.Looks.{is_placed, looked_at};
    ghost use Rattle.part_hash.specs.Places.{row_of};
    ghost use Rattle.part_hash.specs.Served.{IsShown};
    ghost use Rattle.part_engine.specs.Sets.{serves};

    ghost serves = { serves };

    ghost shows = { λ o p w. IsShown o p.store p.spread w };

    ghost row_of = { λ p place. row_of p.store.rows place };

    fn is_served(kind: TableKind) -> bool {
        !kind.is_ordered()
    }

    fn new(alloc: A, settings: Settings) -> Result<Self, AllocError> {
        Ok(HashRows {
            store: empty(alloc)?,
            spread: spread_of(settings),
        })
    }

    fn slots(&self) -> u32 {
        self.store.slots.len() as u32
    }

    fn held(&self, _settings: Settings, key: &Term<A>) -> Option<&Held<A>> {
        self.store.held(key)
    }

    fn put(
        &mut self,
        settings: Settings,
        object: &mut Option<Term<A>>,
        replaces: bool,
    ) -> Result<Put, PutFault> {
        let put = put(&mut self.store, settings, object, replaces)?;
        Ok(put)
    }

    fn exchange(
        &mut self,
        settings: Settings,
        key: &Term<A>,
        held: &mut Held<A>,
        keeps: bool,
    ) -> bool {
        exchange(&mut self.store, settings, key, held, keeps)
    }

    fn keep_live(&mut self) {
        keep_live(&mut self.store, self.spread);
    }

    fn look<'r>(
        &'r self,
        settings: Settings,
        base: u32,
        scope: &Scope<'_, A>,
        into: &mut Vec<SeenRow<'r, A>, A>,
    ) -> Result<(), AllocError>
        requires parts { 0 < settings.parts }
        requires base { 0 < base }
        requires placed { IsTrue (is_placed settings (scope_of scope.now)) }
        ensures { IfOk result (λ _. (w : Shown) → IsShown settings self.now.store self.now.spread w
            → AreSound settings w
            → into.new.items ≡ into.old.items ++ looked_at settings base (scope_of scope.now) w.rows) }
    {
        look(&self.store, settings, u64::from(base), scope, into)?;
        Ok(())
    }

    fn listed(&self, settings: Settings, base: u32, scope: &Scope<'_, A>) -> Option<&[Place]> {
        listed(&self.store, settings, u64::from(base), scope)
    }

    fn row_at(&self, place: Place) -> Option<SeenRow<'_, A>> {
        row_at(&self.store.rows, place)
    }

    fn first_key(&self, settings: Settings, base: u32) -> Option<&Term<A>> {
        first_live(&self.store, settings, u64::from(base))
    }

    fn following_key(&self, settings: Settings, base: u32, key: &Term<A>) -> Option<&Term<A>> {
        live_past(&self.store, settings, u64::from(base), key)
    }

    fn gather(
        &self,
        settings: Settings,
        base: u32,
        into: &mut Vec<Term<A>, A>,
    ) -> Result<(), AllocError> {
        gather(&self.store, settings, u64::from(base), into)?;
        Ok(())
    }
}
