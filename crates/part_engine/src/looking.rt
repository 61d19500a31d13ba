//! Where a visit looks, how far it goes, and where the walk goes on.
ghost use Rattle.std.specs.Prelude.{ℕ, ◌≡◌, ◌≤◌, ◌<◌, ◌+◌, ◌-◌, ◌&&◌, ◌||◌, ◌==◌, IsTrue, IsFalse, IfOk, sum_by, take, length, List};
ghost use Rattle.std.specs.Option.{option_map};
ghost use Rattle.part_core.specs.Ops.{cursor_of, scope_of};
ghost use Rattle.part_core.specs.Rows.{Row};
ghost use Rattle.part_core.specs.Visits.{is_inside, most_rows, next_class, next_key};
ghost use Rattle.part_rows.specs.Shown.{Shown, AreSound, state_of};
ghost use Rattle.part_rows.specs.Looks.{is_placed, looked_at};
ghost use Rattle.part_engine.specs.Looks.{next_after, stops};

use crate::stored::StoredPart;
use part_core::{Cursor, MOST_ROWS, Scope, is_base};
use part_rows::{Rows, SeenRow};
use std::alloc::{AllocError, Allocator};

/// How far a visit went.
#[derive(Clone, Copy)]
pub(crate) struct Reach {
    /// How many rows it saw.
    pub(crate) rows: usize,
    /// How many answers are missing to the target; 0 once it is reached.
    pub(crate) left: u64,
}

/// Returns whether a visit is over: it stops at its target, and no answers are missing.
pub(crate) fn is_over(stops: bool, left: u64) -> bool
    ensures { result ≡ (stops && (left == 0)) }
{
    stops && left == 0
}

/// Returns the cursor at the class after `class`, or `None` after the last.
fn class_after<A: Allocator>(base: u32, class: u32) -> Option<Cursor<A>>
    requires { class < base }
    ensures { option_map cursor_of result ≡ next_class base class }
{
    if class + 1 < base {
        Some(Cursor::Class {
            base,
            class: class + 1,
        })
    } else {
        None
    }
}

/// Returns whether a visit of an ordered set stopped at its target or at its greatest number of rows.
fn is_stopped(reach: Reach) -> bool
    ensures { result ≡ ((reach.left == 0) || (reach.rows == most_rows)) }
{
    reach.left == 0 || reach.rows == MOST_ROWS
}

/// Returns the cursor after the last row that a visit of an ordered set saw, or `None` if no row is left. Fails if an
/// allocation fails.
fn following_key<A: Allocator + Copy>(
    rows: &[SeenRow<'_, A>],
    reach: Reach,
) -> Result<Option<Cursor<A>>, AllocError>
    requires { reach.rows ≤ length rows.now }
    ensures { IfOk result (λ next. (answers : Row → ℕ) (wanted : ℕ)
        → reach.left ≡ wanted - sum_by answers (take reach.rows rows.now)
        → option_map cursor_of next ≡ next_key answers wanted (take reach.rows rows.now)) }
{
    if !is_stopped(reach) {
        return Ok(None);
    }
    match rows[..reach.rows].last() {
        Some(row) => Ok(Some(Cursor::Behind(row.key().copy()?))),
        None => Ok(None),
    }
}

impl<R: Rows<A> + Drop, A: Allocator> StoredPart<R, A> {
    /// Returns whether a walk can go on there: in an ordered set after any key, in a set at a class below a base that
    /// the part has had.
    pub(crate) fn is_inside(&self, scope: &Scope<'_, A>) -> bool
        ensures inside { (w : Shown) (fixes : List ℕ)
            → is_inside self.now.settings (state_of w fixes self.now.base) (scope_of scope.now) ≡ result }
        ensures placed { IsTrue result → IsTrue (is_placed self.now.settings (scope_of scope.now)) }
    {
        let is_ordered = self.settings.kind.is_ordered();
        match scope {
            Scope::Begin => true,
            Scope::Named(_) => true,
            Scope::After(cursor) => match cursor {
                Cursor::Class { base, class } => {
                    !is_ordered && is_base(*base) && *base <= self.base && *class < *base
                }
                Cursor::Behind(_) => is_ordered,
            },
        }
    }

    /// Returns whether a visit stops once it has reached its target, as one of an ordered set without a named key does.
    pub(crate) fn stops(&self, scope: &Scope<'_, A>) -> bool
        ensures { result ≡ stops self.now.settings (scope_of scope.now) }
    {
        match scope {
            Scope::Begin => self.settings.kind.is_ordered(),
            Scope::Named(_) => false,
            Scope::After(cursor) => match cursor {
                Cursor::Class { .. } => false,
                Cursor::Behind(_) => true,
            },
        }
    }

    /// Returns where the walk goes on after a visit that doesn't stop before its end: at the next class, if there is
    /// one.
    pub(crate) fn next_class(&self, scope: &Scope<'_, A>) -> Option<Cursor<A>>
        requires placed { IsTrue (is_placed self.now.settings (scope_of scope.now)) }
        requires whole { IsFalse (stops self.now.settings (scope_of scope.now)) }
        ensures { (answers : Row → ℕ) (wanted : ℕ) (rows : List Row) → option_map cursor_of result
            ≡ next_after self.now.settings self.now.base (scope_of scope.now) answers wanted rows }
    {
        match scope {
            Scope::Begin => class_after(self.base, 0),
            Scope::Named(_) => None,
            Scope::After(cursor) => match cursor {
                Cursor::Class { base, class } => class_after(*base, *class),
                Cursor::Behind(_) => None,
            },
        }
    }
}

impl<R: Rows<A> + Drop, A: Allocator + Copy> StoredPart<R, A> {
    /// Returns the rows that a visit may look at. Fails if an allocation fails.
    pub(crate) fn look<'r>(
        &'r self,
        scope: &Scope<'_, A>,
    ) -> Result<Vec<SeenRow<'r, A>, A>, AllocError>
        requires { IsTrue (is_placed self.now.settings (scope_of scope.now)) }
        ensures { IfOk result (λ rows. (w : Shown) → R.shows self.now.settings self.now.rows w
            → AreSound self.now.settings w
            → rows.items ≡ looked_at self.now.settings self.now.base (scope_of scope.now) w.rows) }
    {
        let mut rows = Vec::new(self.alloc);
        self.rows.look(self.settings, self.base, scope, &mut rows)?;
        Ok(rows)
    }

    /// Returns where the walk goes on after a visit that saw the first of `rows`, as many as `reach` says, or `None` at
    /// its end. Fails if an allocation fails.
    pub(crate) fn next_of(
        &self,
        scope: &Scope<'_, A>,
        rows: &[SeenRow<'_, A>],
        reach: Reach,
    ) -> Result<Option<Cursor<A>>, AllocError>
        requires rows { reach.rows ≤ length rows.now }
        requires placed { IsTrue (is_placed self.now.settings (scope_of scope.now)) }
        ensures { IfOk result (λ next. (answers : Row → ℕ) (wanted : ℕ)
            → reach.left ≡ wanted - sum_by answers (take reach.rows rows.now)
            → option_map cursor_of next ≡ next_after self.now.settings self.now.base (scope_of scope.now) answers wanted
            (take reach.rows rows.now)) }
    {
        if !self.stops(scope) {
            return Ok(self.next_class(scope));
        }
        following_key(rows, reach)
    }
}
