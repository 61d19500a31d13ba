//! Of which kind a value is.
ghost use Rattle.std.specs.Prelude.{◌≡◌};
ghost use Rattle.term_operand.specs.Value.{value_datum};
ghost use Rattle.mcode.specs.Kind.{holds as holds_for};

use mcode::Kind;
use std::alloc::Allocator;
use term_core::View;
use term_operand::Value;

/// Whether a value is of a kind.
#[inline(always)]
pub fn holds<A: Allocator>(kind: Kind, value: &Value<'_, A>) -> bool
    ensures { result ≡ holds_for kind (value_datum value.now) }
{
    match kind {
        Kind::Any => true,
        Kind::Int => value.integer().is_some(),
        Kind::Bool => value.boolean().is_some(),
        Kind::Cons => matches!(value.view(), View::List(..)),
        Kind::Map => value.operand().is_map(),
        Kind::Tuple(size) => value.operand().is_tuple(size),
    }
}
