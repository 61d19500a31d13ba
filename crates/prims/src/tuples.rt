//! Functions of tuples.
ghost use Rattle.std.specs.Prelude.{◌≡◌, ◌≤◌, pos};
ghost use Rattle.std.specs.Option.{option_copied};
ghost use Rattle.std.specs.Str.{chars};
ghost use Rattle.term_core.specs.Datum.{item_count, items_of};
ghost use Rattle.term_core.specs.Datum.Items.{no_items, item};
ghost use Rattle.term_operand.specs.Operand.{operand_datum};
ghost use Rattle.prims.specs.Tuples.{element_of, index_of, begins_with, is_named, is_record_of};

use std::alloc::Allocator;
use term_core::{MAX_TUPLE, Term, View};
use term_operand::Operand;

/// Returns the number of elements of a tuple.
pub(crate) fn element_count<A: Allocator>(elements: &[Term<A>]) -> i64
    requires { item_count (items_of elements.now) ≤ MAX_TUPLE }
    ensures { result ≡ pos (item_count (items_of elements.now)) }
{
    elements.len() as i64
}

/// Returns the index, counted from 0, for a place counted from 1, or `None` if there can be no such element.
fn index(place: i64) -> Option<usize>
    ensures { result ≡ index_of place }
{
    usize::try_from(place.checked_sub(1)?).ok()
}

/// `element`: returns the element at a place counted from 1. Returns `None` if there is none or an operand is of the
/// wrong kind.
pub(crate) fn element<'a, A: Allocator>(
    place: Operand<'a, A>,
    tuple: Operand<'a, A>,
) -> Option<&'a Term<A>>
    ensures { option_copied result ≡ element_of (operand_datum place.entry)
        (operand_datum tuple.entry) }
{
    match (place.view(), tuple.view()) {
        (View::Integer(place), View::Tuple(elements)) => elements.get(index(place)?),
        _ => None,
    }
}

/// Returns whether the term is the atom of this name.
#[tactic(auto, using(term_core::proofs::TextEq::text_eq))]
fn is_atom<A: Allocator>(term: &Term<A>, name: &str) -> bool
    ensures { result ≡ begins_with (item term.now no_items) (chars name.now) }
{
    match Operand::Term(term).view() {
        View::Atom(text) => text == name,
        _ => false,
    }
}

/// Returns whether the operand is a tuple of this size whose first element is the atom of this name.
fn is_named<A: Allocator>(operand: Operand<'_, A>, name: &str, size: i64) -> bool
    ensures { result ≡ is_named (operand_datum operand.entry) (chars name.now) size }
{
    match operand.view() {
        View::Tuple(elements) => match elements {
            [first, ..] => element_count(elements) == size && is_atom(first, name),
            [] => false,
        },
        _ => false,
    }
}

/// `is_record`: returns whether the operand is a tuple of this size and name. Returns `None` if the name is not an atom
/// or the size not an integer.
pub(crate) fn is_record<A: Allocator>(
    operand: Operand<'_, A>,
    name: Operand<'_, A>,
    size: Operand<'_, A>,
) -> Option<bool>
    ensures { result ≡ is_record_of (operand_datum operand.entry) (operand_datum name.entry)
        (operand_datum size.entry) }
{
    match (name.view(), size.view()) {
        (View::Atom(name), View::Integer(size)) => Some(is_named(operand, name, size)),
        _ => None,
    }
}
