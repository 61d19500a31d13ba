//! The value of an expression that fails.
ghost use Rattle.std.specs.Prelude.{◌≡◌, IfOk};
ghost use Rattle.std.specs.Option.{option_map};
ghost use Rattle.term_operand.specs.Value.{value_datum};
ghost use Rattle.mspec_match.specs.Failure.{failed};

use mspec_syntax::{Mode, exit_term};
use std::alloc::{AllocError, Allocator};
use term_operand::Value;

/// Returns the value of an expression that fails: `None` in a condition, `'EXIT'` in a body. Fails if an allocation
/// fails.
pub fn failure<'a, A: Allocator + Copy>(
    alloc: A,
    mode: Mode,
) -> Result<Option<Value<'a, A>>, AllocError>
    ensures { IfOk result (λ value. option_map value_datum value ≡ failed mode) }
{
    match mode {
        Mode::Condition => Ok(None),
        Mode::Body => Ok(Some(Value::Made(exit_term(alloc)?))),
    }
}
