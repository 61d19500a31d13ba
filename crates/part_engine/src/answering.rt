//! Visits that return answers.
ghost use Rattle.std.specs.Prelude.{ℕ, ◌≡◌, ◌≤◌, ◌-◌, ◌++◌, IsTrue, IsFalse, IfOk, filter_map, length, sum_by, take};
ghost use Rattle.std.specs.Option.{option_map};
ghost use Rattle.part_core.specs.Acts.Act.{Visit};
ghost use Rattle.part_core.specs.Acts.Purpose.{Answers};
ghost use Rattle.part_core.specs.Ops.{answer_in, cursor_of, scope_of};
ghost use Rattle.part_core.specs.Visits.{answers_of, yield_of_rows};
ghost use Rattle.part_rows.specs.Looks.{is_placed, looked_at};
ghost use Rattle.part_rows.specs.Shown.{Shown, AreSound};
ghost use Rattle.part_engine.specs.Looks.{rows_until, stops, IsFound};
ghost use Rattle.part_engine.specs.Stored.{Leads};

use crate::looking::{Reach, is_over};
use crate::stored::StoredPart;
use machine::Machine;
use part_core::{Cursor, Fault, Look, Reply};
use part_rows::{Place, Rows, SeenRow, gather, gather_listed};
use std::alloc::{AllocError, Allocator};
use term_core::Term;
use verifier::Verified;

/// Appends the answers for rows to `found`, until there are `wanted` if `stops`. Returns how far the visit went. Fails
/// if an allocation fails.
fn gather_until<'r, A: Allocator + Copy>(
    machine: &mut Machine<'r, '_, A>,
    rows: &[SeenRow<'r, A>],
    stops: bool,
    wanted: u64,
    found: &mut Vec<Term<A>, A>,
) -> Result<Reach, AllocError>
    ensures inside { IfOk result (λ reach. reach.rows ≤ length rows.now) }
    ensures rows { IfOk result (λ reach. take reach.rows rows.now
        ≡ rows_until stops (answers_of Answers machine.old.code) wanted rows.now) }
    ensures left { IfOk result (λ reach. reach.left
        ≡ wanted - sum_by (answers_of Answers machine.old.code) (take reach.rows rows.now)) }
    ensures found { IfOk result (λ reach. found.new.items
        ≡ found.old.items ++ yield_of_rows Answers machine.old.code (take reach.rows rows.now)) }
{
    let mut left = wanted;
    for place in 0..rows.len() {
        let count = gather(machine, rows[place].held(), found)?;
        left = left.saturating_sub(count);
        if is_over(stops, left) {
            return Ok(Reach {
                rows: place + 1,
                left,
            });
        }
    }
    Ok(Reach {
        rows: rows.len(),
        left,
    })
}

/// Appends the answers of code for rows to `found`, with one machine, until there are `wanted` if `stops`. Returns how
/// far the visit went. Fails if an allocation fails.
fn answers<'r, A: Allocator + Copy>(
    heap: &A,
    code: &'r Verified<A>,
    rows: &[SeenRow<'r, A>],
    stops: bool,
    wanted: u64,
    found: &mut Vec<Term<A>, A>,
) -> Result<Reach, AllocError>
    ensures inside { IfOk result (λ reach. reach.rows ≤ length rows.now) }
    ensures rows { IfOk result (λ reach. take reach.rows rows.now
        ≡ rows_until stops (answers_of Answers code.now) wanted rows.now) }
    ensures left { IfOk result (λ reach. reach.left
        ≡ wanted - sum_by (answers_of Answers code.now) (take reach.rows rows.now)) }
    ensures found { IfOk result (λ reach. found.new.items
        ≡ found.old.items ++ yield_of_rows Answers code.now (take reach.rows rows.now)) }
{
    let mut machine = Machine::new(heap, code)?;
    let reach = gather_until(&mut machine, rows, stops, wanted, found);
    machine.finish();
    reach
}

/// Appends the answers of code for the rows at `places` to `found`, with one machine. Fails if an allocation fails.
fn answers_listed<'r, R: Rows<A>, A: Allocator + Copy>(
    heap: &A,
    code: &'r Verified<A>,
    rows: &'r R,
    places: &[Place],
    found: &mut Vec<Term<A>, A>,
) -> Result<(), AllocError>
    ensures { IfOk result (λ _. found.new.items
        ≡ found.old.items ++ yield_of_rows Answers code.now (filter_map (R.row_of rows.now) places.now)) }
{
    let mut machine = Machine::new(heap, code)?;
    let done = gather_listed(&mut machine, rows, places, found);
    machine.finish();
    done
}

/// What a visit that returns answers has found.
#[derive(Drop)]
struct Found<A: Allocator> {
    answers: Vec<Term<A>, A>,
    /// Where the walk goes on, or `None` at its end.
    next: Option<Cursor<A>>,
}

impl<R: Rows<A> + Drop, A: Allocator + Copy> StoredPart<R, A> {
    /// Returns what is found among the rows that a visit may look at, one after the other. Fails if an allocation
    /// fails.
    fn find_looking(&self, look: &Look<'_, A>) -> Result<Found<A>, AllocError>
        requires { IsTrue (is_placed self.now.settings (scope_of look.now.scope)) }
        ensures { IfOk result (λ found. (w : Shown) → R.shows self.now.settings self.now.rows w
            → AreSound self.now.settings w
            → IsFound Answers self.now.settings self.now.base look.now.code.now (scope_of look.now.scope)
            look.now.wanted w.rows found.answers.items (option_map cursor_of found.next)) }
    {
        let rows = self.look(&look.scope)?;
        let stops = self.stops(&look.scope);
        let mut found = Vec::new(self.alloc);
        let reach = answers(
            &self.alloc,
            look.code,
            rows.as_slice(),
            stops,
            look.wanted,
            &mut found,
        )?;
        let next = self.next_of(&look.scope, rows.as_slice(), reach)?;
        Ok(Found {
            answers: found,
            next,
        })
    }

    /// Returns what is found at the places of the rows of a visit that doesn't stop before its end. It collects no
    /// rows. Fails if an allocation fails.
    fn find_listed(&self, look: &Look<'_, A>, places: &[Place]) -> Result<Found<A>, AllocError>
        requires placed { IsTrue (is_placed self.now.settings (scope_of look.now.scope)) }
        requires whole { IsFalse (stops self.now.settings (scope_of look.now.scope)) }
        ensures { IfOk result (λ found. (w : Shown)
            → filter_map (R.row_of self.now.rows) places.now
            ≡ looked_at self.now.settings self.now.base (scope_of look.now.scope) w.rows
            → IsFound Answers self.now.settings self.now.base look.now.code.now (scope_of look.now.scope)
            look.now.wanted w.rows found.answers.items (option_map cursor_of found.next)) }
    {
        let mut found = Vec::new(self.alloc);
        answers_listed(&self.alloc, look.code, &self.rows, places, &mut found)?;
        let next = self.next_class(&look.scope);
        Ok(Found {
            answers: found,
            next,
        })
    }

    /// Returns what a visit finds. If the rows are listed by their places, it doesn't collect them first. Fails if an
    /// allocation fails.
    fn find(&self, look: &Look<'_, A>) -> Result<Found<A>, AllocError>
        requires { IsTrue (is_placed self.now.settings (scope_of look.now.scope)) }
        ensures { IfOk result (λ found. (w : Shown) → R.shows self.now.settings self.now.rows w
            → AreSound self.now.settings w
            → IsFound Answers self.now.settings self.now.base look.now.code.now (scope_of look.now.scope)
            look.now.wanted w.rows found.answers.items (option_map cursor_of found.next)) }
    {
        if self.stops(&look.scope) {
            return self.find_looking(look);
        }
        match self.rows.listed(self.settings, self.base, &look.scope) {
            Some(places) => self.find_listed(look, places),
            None => self.find_looking(look),
        }
    }

    /// Returns the query's answers. Fails if the cursor isn't the part's or an allocation fails.
    pub(crate) fn visit(&self, look: &Look<'_, A>) -> Result<Reply<A>, Fault>
        ensures { (n : ℕ) → Leads R.shows self.now n
            (Visit Answers look.now.code.now (scope_of look.now.scope) look.now.wanted) (answer_in result) self.now }
    {
        if !self.is_inside(&look.scope) {
            return Err(Fault::CursorOutside);
        }
        let Found { answers, next } = self.find(look)?;
        Ok(Reply::Found(answers, next))
    }
}
