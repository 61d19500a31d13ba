//! Functions of lists.
ghost use Rattle.std.specs.Prelude.{◌≡◌};
ghost use Rattle.std.specs.Option.{option_copied, option_map};
ghost use Rattle.term_operand.specs.Operand.{operand_datum};
ghost use Rattle.prims.specs.Lists.{head_of, tail_behind, length_of};

use std::alloc::Allocator;
use term_core::{Term, View};
use term_operand::Operand;

/// `hd`: returns the first element, or `None` if the operand is not a list with elements.
pub(crate) fn head<'a, A: Allocator>(list: Operand<'a, A>) -> Option<&'a Term<A>>
    ensures { option_copied result ≡ head_of (operand_datum list.entry) }
{
    match list.view() {
        View::List([head, ..], _tail) => Some(head),
        _ => None,
    }
}

/// `tl`: returns what follows the first element, or `None` if the operand is not a list with elements.
pub(crate) fn tail<'a, A: Allocator>(list: Operand<'a, A>) -> Option<Operand<'a, A>>
    ensures { option_map operand_datum result ≡ tail_behind (operand_datum list.entry) }
{
    match list.split() {
        Some((_, rest)) => Some(rest),
        None => None,
    }
}

/// `length`: returns the number of elements, or `None` if the operand is not a proper list.
pub(crate) fn length<A: Allocator>(list: Operand<'_, A>) -> Option<i64>
    ensures { result ≡ length_of (operand_datum list.entry) }
{
    match list.view() {
        View::Nil => Some(0),
        View::List(elements, None) => i64::try_from(elements.len()).ok(),
        View::List(_elements, Some(_tail)) => None,
        _ => None,
    }
}
