//! Tests of a term for its kind.
ghost use Rattle.std.specs.Prelude.{◌≡◌};
ghost use Rattle.term_operand.specs.Operand.{operand_datum};
ghost use Rattle.prims.specs.Kinds.{test_of};

use prims_table::Test;
use std::alloc::Allocator;
use term_core::View;
use term_operand::Operand;

/// Returns whether the operand is of the kind that the test names.
pub(crate) fn is_of_kind<A: Allocator>(test: Test, operand: Operand<'_, A>) -> bool
    ensures { result ≡ test_of test (operand_datum operand.entry) }
{
    let view = operand.view();
    match test {
        Test::IsAtom => matches!(view, View::Atom(_)),
        Test::IsInteger | Test::IsNumber => matches!(view, View::Integer(_)),
        Test::IsList => matches!(view, View::Nil | View::List(..)),
        Test::IsTuple => matches!(view, View::Tuple(_)),
        Test::IsMap => matches!(view, View::Map(_)),
        Test::IsBinary | Test::IsBitstring => matches!(view, View::Binary(_)),
        Test::IsBoolean => operand.boolean().is_some(),
        Test::IsFloat | Test::IsPid | Test::IsPort | Test::IsReference | Test::IsFunction => false,
    }
}
