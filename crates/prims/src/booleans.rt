//! Functions of the atoms `true` and `false`.
ghost use Rattle.std.specs.Prelude.{◌≡◌, map};
ghost use Rattle.term_operand.specs.Operand.{operand_datum};
ghost use Rattle.prims.specs.Booleans.{all_of, any_of, boolean_function_of};

use prims_table::BooleanFunction;
use std::alloc::Allocator;
use term_operand::Operand;

/// Returns whether all operands are `true`, or `None` if one of them is not a boolean.
fn all<A: Allocator>(operands: &[Operand<'_, A>]) -> Option<bool>
    ensures { result ≡ all_of (map operand_datum operands.now) }
{
    let mut all = true;
    for operand in operands {
        let value = operand.boolean()?;
        all = all && value;
    }
    Some(all)
}

/// Returns whether at least one operand is `true`, or `None` if one of them is not a boolean.
fn any<A: Allocator>(operands: &[Operand<'_, A>]) -> Option<bool>
    ensures { result ≡ any_of (map operand_datum operands.now) }
{
    let mut any = false;
    for operand in operands {
        let value = operand.boolean()?;
        any = any || value;
    }
    Some(any)
}

/// Calls the function. Returns `None` if an operand is not a boolean, or the function doesn't take this number of
/// operands.
pub(crate) fn call<A: Allocator>(
    function: BooleanFunction,
    operands: &[Operand<'_, A>],
) -> Option<bool>
    ensures { result ≡ boolean_function_of function (map operand_datum operands.now) }
{
    match (function, operands) {
        (BooleanFunction::Not, [operand]) => Some(!operand.boolean()?),
        (BooleanFunction::And, [_, ..]) => all(operands),
        (BooleanFunction::Or, [_, ..]) => any(operands),
        (BooleanFunction::Xor, [left, right]) => Some(left.boolean()? != right.boolean()?),
        _ => None,
    }
}
