//! Comparing operands in the order of terms.
ghost use Rattle.std.specs.Prelude.{◌≡◌};
ghost use Rattle.term_core.specs.Order.{datum_cmp};
ghost use Rattle.term_core.specs.View.{shown, IsSplit};
ghost use Rattle.term_operand.specs.Operand.{operand_datum};
ghost use Rattle.term_operand.specs.Order.{AreDecided, AreEnds};

use crate::operand::Operand;
use std::alloc::Allocator;
use std::cmp::Ordering;
use term_core::View;

/// Compares two terms of different kinds, or of one kind whose own values decide.
fn compare_views<A: Allocator>(left: View<'_, A>, right: View<'_, A>) -> Ordering
    requires left { IsSplit left }
    requires right { IsSplit right }
    requires decided { AreDecided (shown left) (shown right) }
    ensures { result ≡ datum_cmp (shown left.entry) (shown right.entry) }
{
    match (left, right) {
        (View::Integer(left), View::Integer(right)) => left.cmp(&right),
        (View::Atom(left), View::Atom(right)) => left.cmp(right),
        _ => left.rank().cmp(&right.rank()),
    }
}

/// Compares two terms of which at least one is not a list with elements.
fn compare_ends<A: Allocator>(left: Operand<'_, A>, right: Operand<'_, A>) -> Ordering
    requires { AreEnds (operand_datum left) (operand_datum right) }
    ensures { result ≡ datum_cmp (operand_datum left.entry) (operand_datum right.entry) }
{
    match (left.term(), right.term()) {
        (Some(left), Some(right)) => left.cmp(right),
        _ => compare_views(left.view(), right.view()),
    }
}

/// Compares two terms of which at least one may be the rest of a list.
fn compare_cells<A: Allocator>(left: Operand<'_, A>, right: Operand<'_, A>) -> Ordering
    ensures { result ≡ datum_cmp (operand_datum left.entry) (operand_datum right.entry) }
{
    let mut left = left;
    let mut right = right;
    'cells: loop {
        let Some((left_head, left_tail)) = left.split() else {
            return compare_ends(left, right);
        };
        let Some((right_head, right_tail)) = right.split() else {
            return compare_ends(left, right);
        };
        match left_head.cmp(right_head) {
            Ordering::Equal => {
                left = left_tail;
                right = right_tail;
            }
            order => return order,
        }
    }
}

/// Compares the operands in the order of terms.
#[inline(always)]
pub fn compare<A: Allocator>(left: Operand<'_, A>, right: Operand<'_, A>) -> Ordering
    ensures { result ≡ datum_cmp (operand_datum left.entry) (operand_datum right.entry) }
{
    match (left, right) {
        (Operand::Term(left), Operand::Term(right)) => left.cmp(right),
        _ => compare_cells(left, right),
    }
}
