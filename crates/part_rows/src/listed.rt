//! Answers of code for the objects of rows that are listed by their places.
ghost use Rattle.std.specs.Prelude.{◌≡◌, ◌++◌, [], ◌∷◌, true, IfOk, IsOk, filter_map, length, min};
ghost use Rattle.part_core.specs.Acts.Purpose.{Answers, Counts};
ghost use Rattle.part_core.specs.Replies.{most_counted};
ghost use Rattle.part_core.specs.Visits.{yield_of_rows};

use crate::objects::{count_true, gather};
use crate::place::Place;
use crate::rows::Rows;
use crate::seen::SeenRow;
use machine::Machine;
use std::alloc::{AllocError, Allocator};
use term_core::Term;

/// How many places a visit reads ahead.
const AHEAD: usize = 64;

/// Returns whether the first element of the first object of a row has a depth, which is true of each term.
fn is_deep<A: Allocator>(row: &SeenRow<'_, A>) -> bool
    ensures { result ≡ true }
{
    match row.held().as_slice().first() {
        Some(object) => match object.element_at(1) {
            Some(element) => 0 < element.depth(),
            None => true,
        },
        None => true,
    }
}

/// Reads the rows at the first 64 places, and an object of each, before a visit reaches them. Here no read waits for
/// what code does with the row before, so several are in progress at once, and the visit finds all in the cache. It
/// never fails: that each term has a depth is unknown to the compiler, which therefore keeps the loop.
#[inline(never)]
fn read_ahead<R: Rows<A>, A: Allocator>(rows: &R, places: &[Place]) -> Result<(), AllocError>
    ensures { IsOk result }
{
    for place in places.iter().take(AHEAD) {
        if let Some(row) = rows.row_at(*place) {
            if !is_deep(&row) {
                return Err(AllocError);
            }
        }
    }
    Ok(())
}

/// Appends the answers for the row at a place to `found`, if a row is there. Fails if an allocation fails.
fn gather_place<'r, R: Rows<A>, A: Allocator + Copy>(
    machine: &mut Machine<'r, '_, A>,
    rows: &'r R,
    place: &Place,
    found: &mut Vec<Term<A>, A>,
) -> Result<(), AllocError>
    ensures code { machine.new.code ≡ machine.old.code }
    ensures found { IfOk result (λ _. found.new.items ≡ found.old.items
        ++ yield_of_rows Answers machine.old.code (filter_map (R.row_of rows.now) (place.now ∷ []))) }
{
    match rows.row_at(*place) {
        Some(row) => {
            gather(machine, row.held(), found)?;
            Ok(())
        }
        None => Ok(()),
    }
}

/// Appends the answers for the rows at `places` to `found`. Fails if an allocation fails.
pub fn gather_listed<'r, R: Rows<A>, A: Allocator + Copy>(
    machine: &mut Machine<'r, '_, A>,
    rows: &'r R,
    places: &[Place],
    found: &mut Vec<Term<A>, A>,
) -> Result<(), AllocError>
    ensures code { machine.new.code ≡ machine.old.code }
    ensures found { IfOk result (λ _. found.new.items ≡ found.old.items
        ++ yield_of_rows Answers machine.old.code (filter_map (R.row_of rows.now) places.now)) }
{
    for (number, place) in places.iter().enumerate() {
        if number % AHEAD == 0 {
            read_ahead(rows, &places[number..])?;
        }
        gather_place(machine, rows, place, found)?;
    }
    Ok(())
}

/// Returns the number of objects of the row at a place for which the query returns `true`, 0 if no row is there. Fails
/// if an allocation fails.
fn count_place<'r, R: Rows<A>, A: Allocator + Copy>(
    machine: &mut Machine<'r, '_, A>,
    rows: &'r R,
    place: &Place,
) -> Result<u64, AllocError>
    ensures code { machine.new.code ≡ machine.old.code }
    ensures count { IfOk result (λ count.
        count ≡ length (yield_of_rows Counts machine.old.code (filter_map (R.row_of rows.now) (place.now ∷ [])))) }
{
    match rows.row_at(*place) {
        Some(row) => count_true(machine, row.held()),
        None => Ok(0),
    }
}

/// Returns the number of objects of the rows at `places` for which the query returns `true`, at most 2^64 - 1. Fails if
/// an allocation fails.
pub fn count_listed<'r, R: Rows<A>, A: Allocator + Copy>(
    machine: &mut Machine<'r, '_, A>,
    rows: &'r R,
    places: &[Place],
) -> Result<u64, AllocError>
    ensures code { machine.new.code ≡ machine.old.code }
    ensures count { IfOk result (λ count. count
        ≡ min (length (yield_of_rows Counts machine.old.code (filter_map (R.row_of rows.now) places.now)))
        most_counted) }
{
    let mut total: u64 = 0;
    for (number, place) in places.iter().enumerate() {
        if number % AHEAD == 0 {
            read_ahead(rows, &places[number..])?;
        }
        let count = count_place(machine, rows, place)?;
        total = total.saturating_add(count);
    }
    Ok(total)
}
