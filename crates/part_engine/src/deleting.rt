//! Visits that delete.
ghost use Rattle.std.specs.Prelude.{ℕ, ◌≡◌, ◌≤◌, ◌-◌, ◌++◌, [], ◌∷◌, IsTrue, IfOk, All, not, filter, length, min, sum_by, take};
ghost use Rattle.std.specs.Option.{option_map};
ghost use Rattle.part_core.specs.Acts.Act.{Visit};
ghost use Rattle.part_core.specs.Acts.Purpose.{Deletes};
ghost use Rattle.part_core.specs.Ops.{answer_in, cursor_of, scope_of};
ghost use Rattle.part_core.specs.Replies.{most_counted};
ghost use Rattle.part_core.specs.Rows.{is_fixed};
ghost use Rattle.part_core.specs.States.{IsRow};
ghost use Rattle.part_core.specs.Visits.{answers_of, is_true, yield_of_rows};
ghost use Rattle.part_engine.specs.Deletions.{rows_left, shown_swept, IsChosen};
ghost use Rattle.part_rows.specs.Dead.{Keeps};
ghost use Rattle.part_rows.specs.Looks.{is_placed};
ghost use Rattle.part_engine.specs.Looks.{rows_until};
ghost use Rattle.part_rows.specs.Shown.{Shown, AreSound, shown_exchanged};
ghost use Rattle.part_engine.specs.Stored.{Leads};

use crate::looking::{Reach, is_over};
use crate::stored::StoredPart;
use machine::Machine;
use part_core::{Cursor, Fault, Held, Look, Reply, Settings, is_fixed};
use part_rows::{Rows, SeenRow, exchange_counted, holds};
use std::alloc::{AllocError, Allocator};
use std::marker::Model;
use term_core::Term;
use verifier::Verified;

/// The remaining objects of a key.
#[derive(Drop)]
struct Left<A: Allocator> {
    key: Term<A>,
    held: Held<A>,
}

impl<A: Allocator> Model for Left<A> {
    ghost use Rattle.std.specs.Prelude.{List};
    ghost use Rattle.std.specs.Coded.{codes};
    ghost use Rattle.term_core.specs.Datum.{Datum};
    ghost use Rattle.term_core.specs.DatumCode.{datum_code};

    ghost Value = { Datum × List Datum };

    ghost coded = { Prim.hlevel (codes, datum_code) };

    ghost view = { λ left. (left.key, left.held) };
}

/// What a visit that deletes has found.
#[derive(Drop)]
struct Chosen<A: Allocator> {
    /// The keys from which objects are deleted, each with its remaining objects.
    left: Vec<Left<A>, A>,
    /// How many objects are deleted.
    total: u64,
    /// Where the walk goes on, or `None` at its end.
    next: Option<Cursor<A>>,
}

impl<A: Allocator> Left<A> {
    ghost use Rattle.part_core.specs.declared.settings.Settings.{Settings as AnySettings};

    /// Replaces the objects of the key by the remaining ones. If none remain, the row is removed, unless `keeps`.
    fn write<R: Rows<A>>(self, settings: Settings, rows: &mut R, dead: &mut usize, keeps: bool)
        ensures { (w : Shown) → Keeps R.shows settings rows.old dead.old w → AreSound settings w
            → Keeps R.shows settings rows.new dead.new (shown_exchanged self.0 self.1 keeps w) }
    {
        let mut held = self.held;
        exchange_counted(rows, dead, settings, &self.key, &mut held, keeps);
    }
}

/// If the query returns `true` for the only object of a row, appends the key without objects to `left`, and returns 1.
/// Otherwise returns 0. Fails if an allocation fails.
fn sort_one<'r, A: Allocator + Copy>(
    machine: &mut Machine<'r, '_, A>,
    key: &Term<A>,
    object: &'r Term<A>,
    left: &mut Vec<Left<A>, A>,
) -> Result<u64, AllocError>
    ensures code { machine.new.code ≡ machine.old.code }
    ensures left { IfOk result (λ count. left.new.items
        ≡ left.old.items ++ rows_left machine.old.code ((key.now, object.now ∷ []) ∷ [])) }
    ensures count { IfOk result (λ count. count ≡ length (filter (is_true machine.old.code) (object.now ∷ []))) }
{
    if !holds(machine, object)? {
        return Ok(0);
    }
    let key = key.copy()?;
    left.push(Left {
        key,
        held: Held::none(),
    })?;
    Ok(1)
}

/// Appends to `kept` copies of the objects for which the query does not return `true`. Fails if an allocation fails.
fn keep_others<'r, A: Allocator + Copy>(
    machine: &mut Machine<'r, '_, A>,
    objects: &'r [Term<A>],
    kept: &mut Vec<Term<A>, A>,
) -> Result<(), AllocError>
    ensures code { machine.new.code ≡ machine.old.code }
    ensures kept { IfOk result (λ _. kept.new.items
        ≡ kept.old.items ++ filter (λ t. not (is_true machine.old.code t)) objects.now) }
{
    for object in objects {
        if !holds(machine, object)? {
            kept.push(object.copy()?)?;
        }
    }
    Ok(())
}

/// Returns how many of the row's objects the query selects for deletion. If there are any, appends to `left` the key
/// with copies of the objects that remain (maybe none). The row itself is not changed. Fails if an allocation fails.
fn sort_many<'r, A: Allocator + Copy>(
    machine: &mut Machine<'r, '_, A>,
    key: &Term<A>,
    objects: &'r [Term<A>],
    left: &mut Vec<Left<A>, A>,
) -> Result<u64, AllocError>
    ensures code { machine.new.code ≡ machine.old.code }
    ensures left { IfOk result (λ count. left.new.items
        ≡ left.old.items ++ rows_left machine.old.code ((key.now, objects.now) ∷ [])) }
    ensures count { IfOk result (λ count. count ≡ length (filter (is_true machine.old.code) objects.now)) }
{
    let alloc = *left.allocator();
    let mut kept = Vec::new(alloc);
    keep_others(machine, objects, &mut kept)?;
    let count = objects.len() - kept.len();
    if count == 0 {
        return Ok(0);
    }
    let held = Held::from_list(alloc, kept)?;
    let key = key.copy()?;
    left.push(Left { key, held })?;
    Ok(count as u64)
}

/// Returns how many of the row's objects the query selects for deletion. If there are any, appends to `left` the key
/// with copies of the objects that remain. For a single object no list is created. Fails if an allocation fails.
fn sort_out<'r, A: Allocator + Copy>(
    machine: &mut Machine<'r, '_, A>,
    row: &SeenRow<'r, A>,
    left: &mut Vec<Left<A>, A>,
) -> Result<u64, AllocError>
    ensures code { machine.new.code ≡ machine.old.code }
    ensures left { IfOk result (λ count. left.new.items ≡ left.old.items ++ rows_left machine.old.code (row.now ∷ [])) }
    ensures count { IfOk result (λ count. count ≡ length (filter (is_true machine.old.code) row.now.1)) }
{
    match row.held().as_slice() {
        [] => Ok(0),
        [object] => sort_one(machine, row.key(), object, left),
        objects => sort_many(machine, row.key(), objects, left),
    }
}

/// Selects the objects of rows to delete: appends what remains to `left`, and adds their number to `total`, until there
/// are `wanted` if `stops`. Returns how far the visit went. Fails if an allocation fails.
fn sort_until<'r, A: Allocator + Copy>(
    machine: &mut Machine<'r, '_, A>,
    rows: &[SeenRow<'r, A>],
    stops: bool,
    wanted: u64,
    left: &mut Vec<Left<A>, A>,
    total: &mut u64,
) -> Result<Reach, AllocError>
    requires left { left.old.items ≡ [] }
    requires total { total.old ≡ 0 }
    ensures inside { IfOk result (λ reach. reach.rows ≤ length rows.now) }
    ensures rows { IfOk result (λ reach. take reach.rows rows.now
        ≡ rows_until stops (answers_of Deletes machine.old.code) wanted rows.now) }
    ensures left { IfOk result (λ reach. reach.left
        ≡ wanted - sum_by (answers_of Deletes machine.old.code) (take reach.rows rows.now)) }
    ensures sorted { IfOk result (λ reach. left.new.items ≡ rows_left machine.old.code (take reach.rows rows.now)) }
    ensures total { IfOk result (λ reach. total.new
        ≡ min (length (yield_of_rows Deletes machine.old.code (take reach.rows rows.now))) most_counted) }
{
    let mut wanting = wanted;
    for place in 0..rows.len() {
        let count = sort_out(machine, &rows[place], left)?;
        wanting = wanting.saturating_sub(count);
        *total = total.saturating_add(count);
        if is_over(stops, wanting) {
            return Ok(Reach {
                rows: place + 1,
                left: wanting,
            });
        }
    }
    Ok(Reach {
        rows: rows.len(),
        left: wanting,
    })
}

/// Selects the objects of rows to delete, with one machine: appends what remains to `left`. Returns their number, and
/// how far the visit went. Fails if an allocation fails.
fn sort<'r, A: Allocator + Copy>(
    heap: &A,
    code: &'r Verified<A>,
    rows: &[SeenRow<'r, A>],
    stops: bool,
    wanted: u64,
    left: &mut Vec<Left<A>, A>,
) -> Result<(u64, Reach), AllocError>
    requires { left.old.items ≡ [] }
    ensures inside { IfOk result (λ r. r.1.rows ≤ length rows.now) }
    ensures rows { IfOk result (λ r. take r.1.rows rows.now
        ≡ rows_until stops (answers_of Deletes code.now) wanted rows.now) }
    ensures left { IfOk result (λ r. r.1.left
        ≡ wanted - sum_by (answers_of Deletes code.now) (take r.1.rows rows.now)) }
    ensures sorted { IfOk result (λ r. left.new.items ≡ rows_left code.now (take r.1.rows rows.now)) }
    ensures total { IfOk result (λ r. r.0
        ≡ min (length (yield_of_rows Deletes code.now (take r.1.rows rows.now))) most_counted) }
{
    let mut machine = Machine::new(heap, code)?;
    let mut total = 0;
    let reach = sort_until(&mut machine, rows, stops, wanted, left, &mut total);
    machine.finish();
    Ok((total, reach?))
}

impl<R: Rows<A> + Drop, A: Allocator + Copy> StoredPart<R, A> {
    /// Returns what a visit deletes, and where the walk goes on. All objects are evaluated before the first is deleted.
    /// Fails if an allocation fails.
    fn choose(&self, look: &Look<'_, A>) -> Result<Chosen<A>, AllocError>
        requires { IsTrue (is_placed self.now.settings (scope_of look.now.scope)) }
        ensures { IfOk result (λ chosen. (w : Shown) → R.shows self.now.settings self.now.rows w
            → AreSound self.now.settings w
            → IsChosen self.now.settings self.now.base look.now.code.now (scope_of look.now.scope)
            look.now.wanted w.rows chosen.left.items chosen.total (option_map cursor_of chosen.next)) }
    {
        let rows = self.look(&look.scope)?;
        let stops = self.stops(&look.scope);
        let mut left = Vec::new(self.alloc);
        let (total, reach) = sort(
            &self.alloc,
            look.code,
            rows.as_slice(),
            stops,
            look.wanted,
            &mut left,
        )?;
        let next = self.next_of(&look.scope, rows.as_slice(), reach)?;
        Ok(Chosen { left, total, next })
    }

    /// Writes the remaining objects of keys. A row without objects is removed, unless some session fixes the part.
    fn sweep(&mut self, left: Vec<Left<A>, A>)
        ensures settings { self.new.settings ≡ self.old.settings }
        ensures fixes { self.new.fixes.items ≡ self.old.fixes.items }
        ensures base { self.new.base ≡ self.old.base }
        ensures rows { (w : Shown) → Keeps R.shows self.old.settings self.old.rows self.old.dead w
            → AreSound self.old.settings w → All (IsRow self.old.settings) left.items
            → Keeps R.shows self.old.settings self.new.rows self.new.dead
            (shown_swept (is_fixed self.old.fixes.items) left.items w) }
    {
        let keeps = is_fixed(self.fixes.as_slice());
        for row in left {
            row.write(self.settings, &mut self.rows, &mut self.dead, keeps);
        }
    }

    /// Deletes the objects for which the query returns `true`, and returns their number, at most 2^64 - 1. Fails if the
    /// cursor isn't the part's or an allocation fails; then nothing is deleted.
    pub(crate) fn visit_delete(&mut self, look: &Look<'_, A>) -> Result<Reply<A>, Fault>
        ensures settings { self.new.settings ≡ self.old.settings }
        ensures leads { (n : ℕ) → Leads R.shows self.old n
            (Visit Deletes look.now.code.now (scope_of look.now.scope) look.now.wanted) (answer_in result) self.new }
    {
        if !self.is_inside(&look.scope) {
            return Err(Fault::CursorOutside);
        }
        let Chosen { left, total, next } = self.choose(look)?;
        self.sweep(left);
        Ok(Reply::Counted(total, next))
    }
}
