//! Comparisons by the order of terms.
ghost use Rattle.std.specs.Prelude.{◌≡◌};
ghost use Rattle.term_operand.specs.Operand.{operand_datum};
ghost use Rattle.prims.specs.Order as spec;

use prims_table::{Comparison, Extreme};
use std::alloc::Allocator;
use std::cmp::Ordering;
use term_operand::{Operand, compare};

/// Returns whether two terms that compare like this satisfy the comparison.
#[inline(always)]
fn allows(comparison: Comparison, order: Ordering) -> bool
    ensures { result ≡ spec.allows comparison order }
{
    match comparison {
        Comparison::Greater => order.is_gt(),
        Comparison::GreaterOrEqual => order.is_ge(),
        Comparison::Less => order.is_lt(),
        Comparison::LessOrEqual => order.is_le(),
        Comparison::ExactlyEqual | Comparison::Equal => order.is_eq(),
        Comparison::ExactlyUnequal | Comparison::Unequal => order.is_ne(),
    }
}

/// Returns whether the operands satisfy the comparison.
#[inline(always)]
pub fn meets<A: Allocator>(
    comparison: Comparison,
    left: Operand<'_, A>,
    right: Operand<'_, A>,
) -> bool
    ensures { result ≡ spec.comparison_of comparison (operand_datum left.entry)
        (operand_datum right.entry) }
{
    allows(comparison, compare(left, right))
}

/// Returns the greater or the smaller of the operands. Of equal operands it returns the left one.
pub(crate) fn extreme<'a, A: Allocator>(
    extreme: Extreme,
    left: Operand<'a, A>,
    right: Operand<'a, A>,
) -> Operand<'a, A>
    ensures { operand_datum result ≡ spec.extreme_of extreme (operand_datum left.entry)
        (operand_datum right.entry) }
{
    let order = compare(left, right);
    let is_right = match extreme {
        Extreme::Max => order.is_lt(),
        Extreme::Min => order.is_gt(),
    };
    if is_right { right } else { left }
}
