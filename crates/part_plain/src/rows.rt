//! Rows in one list.
ghost use Rattle.std.specs.Prelude.{◌≡◌, ◌≤◌, ◌<◌, ◌+◌, length};
ghost use Rattle.part_core.specs.declared.kind.TableKind.TheVariants.{Set};
ghost use Rattle.part_core.specs.After.{slots_after};
ghost use Rattle.part_core.specs.States.{IsBase};

use crate::exchanging::{exchange, keep_live};
use crate::gathering::gather;
use crate::looking::look;
use crate::places::held_of;
use crate::putting::put;
use crate::walking::{first_live, live_past};
use part_core::{FIRST_SLOTS, Held, Scope, Settings, TableKind, slots_with_row};
use part_engine::HashedRow;
use part_rows::{Place, Put, PutFault, Rows, SeenRow};
use std::alloc::{AllocError, Allocator, Global};
use term_core::Term;

/// The rows of a table that isn't walked in key order, in one list in the order of their creation. Each operation
/// searches the list for its key, comparing hashes first.
#[derive(Drop)]
pub struct PlainRows<A: Allocator = Global> {
    rows: Vec<HashedRow<A>, A>,
    slots: u32,
    ghost is_base: { IsBase slots },
}

/// Returns the number of slots of rows that were `before` rows before at most one was added.
fn slots_after<A: Allocator>(rows: &[HashedRow<A>], before: usize, slots: u32) -> u32
    requires { IsBase slots }
    ensures base { IsBase result }
    ensures slots { length rows.now ≤ before + 1
        → result ≡ slots_after Set before (length rows.now) slots }
{
    if before < rows.len() {
        slots_with_row(rows.len(), slots)
    } else {
        slots
    }
}

impl<A: Allocator + Copy> Rows<A> for PlainRows<A> {
    ghost use Rattle.std.specs.Prelude.{◌≡◌, ◌<◌, ◌++◌, None, IsTrue, IfOk};
    ghost use Rattle.part_core.specs.Ops.{scope_of};
    ghost use Rattle.part_rows.specs.Shown.{Shown, AreSound};
    ghost use Rattle.part_rows.specs.Looks.{is_placed, looked_at};
    ghost use Rattle.part_plain.specs.Served.{IsShown};
    ghost use Rattle.part_engine.specs.Sets.{serves};

    ghost serves = { serves };

    ghost shows = { λ o p w. IsShown o p.rows.items p.slots w };

    ghost row_of = { λ p place. None };

    fn is_served(kind: TableKind) -> bool {
        !kind.is_ordered()
    }

    fn new(alloc: A, _settings: Settings) -> Result<Self, AllocError> {
        Ok(PlainRows {
            rows: Vec::new(alloc),
            slots: FIRST_SLOTS,
        })
    }

    fn slots(&self) -> u32 {
        self.slots
    }

    fn held(&self, _settings: Settings, key: &Term<A>) -> Option<&Held<A>> {
        held_of(self.rows.as_slice(), key)
    }

    fn put(
        &mut self,
        settings: Settings,
        object: &mut Option<Term<A>>,
        replaces: bool,
    ) -> Result<Put, PutFault> {
        let before = self.rows.as_slice().len();
        let put = put(settings, &mut self.rows, object, replaces)?;
        self.slots = slots_after(self.rows.as_slice(), before, self.slots);
        Ok(put)
    }

    fn exchange(
        &mut self,
        _settings: Settings,
        key: &Term<A>,
        held: &mut Held<A>,
        keeps: bool,
    ) -> bool {
        prove!(self.rows.len() < usize::MAX);
        exchange(&mut self.rows, key, held, keeps)
    }

    fn keep_live(&mut self) {
        keep_live(&mut self.rows);
    }

    fn look<'r>(
        &'r self,
        settings: Settings,
        base: u32,
        scope: &Scope<'_, A>,
        into: &mut Vec<SeenRow<'r, A>, A>,
    ) -> Result<(), AllocError>
        requires parts { 0 < settings.parts }
        requires base { 0 < base }
        requires placed { IsTrue (is_placed settings (scope_of scope.now)) }
        ensures { IfOk result (λ _. (w : Shown)
            → IsShown settings self.now.rows.items self.now.slots w
            → AreSound settings w
            → into.new.items ≡ into.old.items ++ looked_at settings base (scope_of scope.now) w.rows) }
    {
        look(self.rows.as_slice(), settings, u64::from(base), scope, into)
    }

    fn listed(&self, _settings: Settings, _base: u32, _scope: &Scope<'_, A>) -> Option<&[Place]> {
        None
    }

    fn row_at(&self, _place: Place) -> Option<SeenRow<'_, A>> {
        None
    }

    fn first_key(&self, settings: Settings, base: u32) -> Option<&Term<A>> {
        first_live(self.rows.as_slice(), settings, u64::from(base))
    }

    fn following_key(&self, settings: Settings, base: u32, key: &Term<A>) -> Option<&Term<A>> {
        live_past(self.rows.as_slice(), settings, u64::from(base), key)
    }

    fn gather(
        &self,
        settings: Settings,
        base: u32,
        into: &mut Vec<Term<A>, A>,
    ) -> Result<(), AllocError> {
        gather(self.rows.as_slice(), settings, u64::from(base), into)
    }
}
