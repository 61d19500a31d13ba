//! Visits that count.
ghost use Rattle.std.specs.Prelude.{ℕ, ◌≡◌, ◌≤◌, ◌-◌, IsTrue, IsFalse, IfOk, filter_map, length, min, sum_by, take};
ghost use Rattle.std.specs.Option.{option_map};
ghost use Rattle.part_core.specs.Acts.Act.{Visit};
ghost use Rattle.part_core.specs.Acts.Purpose.{Counts};
ghost use Rattle.part_core.specs.Ops.{answer_in, cursor_of, scope_of};
ghost use Rattle.part_core.specs.Replies.{most_counted};
ghost use Rattle.part_core.specs.Visits.{answers_of, yield_of_rows};
ghost use Rattle.part_rows.specs.Looks.{is_placed, looked_at};
ghost use Rattle.part_rows.specs.Shown.{Shown, AreSound};
ghost use Rattle.part_engine.specs.Looks.{rows_until, stops, IsCounted};
ghost use Rattle.part_engine.specs.Stored.{Leads};

use crate::looking::{Reach, is_over};
use crate::stored::StoredPart;
use machine::Machine;
use part_core::{Cursor, Fault, Look, Reply};
use part_rows::{Place, Rows, SeenRow, count_listed, count_true};
use std::alloc::{AllocError, Allocator};
use verifier::Verified;

/// Adds to `total` the number of objects for which the query returns `true`, until there are `wanted` if `stops`.
/// Returns how far the visit went. Fails if an allocation fails.
fn count_until<'r, A: Allocator + Copy>(
    machine: &mut Machine<'r, '_, A>,
    rows: &[SeenRow<'r, A>],
    stops: bool,
    wanted: u64,
    total: &mut u64,
) -> Result<Reach, AllocError>
    requires { total.old ≡ 0 }
    ensures inside { IfOk result (λ reach. reach.rows ≤ length rows.now) }
    ensures rows { IfOk result (λ reach. take reach.rows rows.now
        ≡ rows_until stops (answers_of Counts machine.old.code) wanted rows.now) }
    ensures left { IfOk result (λ reach. reach.left
        ≡ wanted - sum_by (answers_of Counts machine.old.code) (take reach.rows rows.now)) }
    ensures total { IfOk result (λ reach. total.new
        ≡ min (length (yield_of_rows Counts machine.old.code (take reach.rows rows.now))) most_counted) }
{
    let mut left = wanted;
    for place in 0..rows.len() {
        let count = count_true(machine, rows[place].held())?;
        left = left.saturating_sub(count);
        *total = total.saturating_add(count);
        if is_over(stops, left) {
            return Ok(Reach {
                rows: place + 1,
                left,
            });
        }
    }
    Ok(Reach {
        rows: rows.len(),
        left,
    })
}

/// Returns the number of objects for which the query returns `true`, and how far the visit went, with one machine.
/// Fails if an allocation fails.
fn count<'r, A: Allocator + Copy>(
    heap: &A,
    code: &'r Verified<A>,
    rows: &[SeenRow<'r, A>],
    stops: bool,
    wanted: u64,
) -> Result<(u64, Reach), AllocError>
    ensures inside { IfOk result (λ r. r.1.rows ≤ length rows.now) }
    ensures rows { IfOk result (λ r. take r.1.rows rows.now
        ≡ rows_until stops (answers_of Counts code.now) wanted rows.now) }
    ensures left { IfOk result (λ r. r.1.left
        ≡ wanted - sum_by (answers_of Counts code.now) (take r.1.rows rows.now)) }
    ensures total { IfOk result (λ r. r.0
        ≡ min (length (yield_of_rows Counts code.now (take r.1.rows rows.now))) most_counted) }
{
    let mut machine = Machine::new(heap, code)?;
    let mut total = 0;
    let reach = count_until(&mut machine, rows, stops, wanted, &mut total);
    machine.finish();
    Ok((total, reach?))
}

/// Returns the number of objects of the rows at `places` for which the query returns `true`, with one machine. Fails if
/// an allocation fails.
fn total_listed<'r, R: Rows<A>, A: Allocator + Copy>(
    heap: &A,
    code: &'r Verified<A>,
    rows: &'r R,
    places: &[Place],
) -> Result<u64, AllocError>
    ensures { IfOk result (λ total. total
        ≡ min (length (yield_of_rows Counts code.now (filter_map (R.row_of rows.now) places.now))) most_counted) }
{
    let mut machine = Machine::new(heap, code)?;
    let total = count_listed(&mut machine, rows, places);
    machine.finish();
    total
}

/// What a visit that counts has found.
#[derive(Drop)]
struct Counted<A: Allocator> {
    /// The number of objects for which the query returns `true`.
    total: u64,
    /// Where the walk goes on, or `None` at its end.
    next: Option<Cursor<A>>,
}

impl<R: Rows<A> + Drop, A: Allocator + Copy> StoredPart<R, A> {
    /// Returns what is counted among the rows that a visit may look at, one after the other. Fails if an allocation
    /// fails.
    fn count_looking(&self, look: &Look<'_, A>) -> Result<Counted<A>, AllocError>
        requires { IsTrue (is_placed self.now.settings (scope_of look.now.scope)) }
        ensures { IfOk result (λ counted. (w : Shown) → R.shows self.now.settings self.now.rows w
            → AreSound self.now.settings w
            → IsCounted Counts self.now.settings self.now.base look.now.code.now (scope_of look.now.scope)
            look.now.wanted w.rows counted.total (option_map cursor_of counted.next)) }
    {
        let rows = self.look(&look.scope)?;
        let stops = self.stops(&look.scope);
        let (total, reach) = count(&self.alloc, look.code, rows.as_slice(), stops, look.wanted)?;
        let next = self.next_of(&look.scope, rows.as_slice(), reach)?;
        Ok(Counted { total, next })
    }

    /// Returns what is counted at the places of the rows of a visit that doesn't stop before its end. It collects no
    /// rows. Fails if an allocation fails.
    fn count_places(&self, look: &Look<'_, A>, places: &[Place]) -> Result<Counted<A>, AllocError>
        requires placed { IsTrue (is_placed self.now.settings (scope_of look.now.scope)) }
        requires whole { IsFalse (stops self.now.settings (scope_of look.now.scope)) }
        ensures { IfOk result (λ counted. (w : Shown)
            → filter_map (R.row_of self.now.rows) places.now
            ≡ looked_at self.now.settings self.now.base (scope_of look.now.scope) w.rows
            → IsCounted Counts self.now.settings self.now.base look.now.code.now (scope_of look.now.scope)
            look.now.wanted w.rows counted.total (option_map cursor_of counted.next)) }
    {
        let total = total_listed(&self.alloc, look.code, &self.rows, places)?;
        let next = self.next_class(&look.scope);
        Ok(Counted { total, next })
    }

    /// Returns what a visit counts. If the rows are listed by their places, it doesn't collect them first. Fails if an
    /// allocation fails.
    fn count(&self, look: &Look<'_, A>) -> Result<Counted<A>, AllocError>
        requires { IsTrue (is_placed self.now.settings (scope_of look.now.scope)) }
        ensures { IfOk result (λ counted. (w : Shown) → R.shows self.now.settings self.now.rows w
            → AreSound self.now.settings w
            → IsCounted Counts self.now.settings self.now.base look.now.code.now (scope_of look.now.scope)
            look.now.wanted w.rows counted.total (option_map cursor_of counted.next)) }
    {
        if self.stops(&look.scope) {
            return self.count_looking(look);
        }
        match self.rows.listed(self.settings, self.base, &look.scope) {
            Some(places) => self.count_places(look, places),
            None => self.count_looking(look),
        }
    }

    /// Returns the number of objects for which the query returns `true`, at most 2^64 - 1. Fails if the cursor isn't
    /// the part's or an allocation fails.
    pub(crate) fn visit_count(&self, look: &Look<'_, A>) -> Result<Reply<A>, Fault>
        ensures { (n : ℕ) → Leads R.shows self.now n
            (Visit Counts look.now.code.now (scope_of look.now.scope) look.now.wanted) (answer_in result) self.now }
    {
        if !self.is_inside(&look.scope) {
            return Err(Fault::CursorOutside);
        }
        let Counted { total, next } = self.count(look)?;
        Ok(Reply::Counted(total, next))
    }
}
