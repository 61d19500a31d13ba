//! The sizes of terms.
ghost use Rattle.std.specs.Prelude.{◌≡◌, ◌≤◌, length, pos};
ghost use Rattle.term_core.specs.Datum.{item_count, items_of};
ghost use Rattle.term_core.specs.Datum.Datum.{tuple, binary};
ghost use Rattle.term_operand.specs.Operand.{operand_datum};
ghost use Rattle.prims.specs.Sizes.{size_of};

use crate::tuples::element_count;
use prims_table::SizeFunction;
use std::alloc::Allocator;
use term_core::{MAX_BINARY, MAX_TUPLE, Term, View};
use term_operand::Operand;

/// Returns the number of bytes of a binary.
fn byte_count(bytes: &[u8]) -> i64
    requires { length bytes.now ≤ MAX_BINARY }
    ensures { result ≡ pos (length bytes.now) }
{
    bytes.len() as i64
}

/// Returns what the function measures of a tuple, or `None` if it doesn't measure tuples.
fn of_tuple<A: Allocator>(function: SizeFunction, elements: &[Term<A>]) -> Option<i64>
    requires { item_count (items_of elements.now) ≤ MAX_TUPLE }
    ensures { result ≡ size_of function (tuple (items_of elements.now)) }
{
    match function {
        SizeFunction::Size | SizeFunction::TupleSize => Some(element_count(elements)),
        SizeFunction::ByteSize | SizeFunction::BitSize => None,
    }
}

/// Returns what the function measures of a binary, or `None` if it doesn't measure binaries.
fn of_binary(function: SizeFunction, bytes: &[u8]) -> Option<i64>
    requires { length bytes.now ≤ MAX_BINARY }
    ensures { result ≡ size_of function (binary bytes.now) }
{
    match function {
        SizeFunction::Size | SizeFunction::ByteSize => Some(byte_count(bytes)),
        SizeFunction::BitSize => Some(8 * byte_count(bytes)),
        SizeFunction::TupleSize => None,
    }
}

/// Returns the size of a term that the function measures, or `None` if it doesn't measure terms of this kind.
pub(crate) fn size<A: Allocator>(function: SizeFunction, operand: Operand<'_, A>) -> Option<i64>
    ensures { result ≡ size_of function (operand_datum operand.entry) }
{
    match operand.view() {
        View::Tuple(elements) => of_tuple(function, elements),
        View::Binary(bytes) => of_binary(function, bytes),
        _ => None,
    }
}
