//! Keys of objects.
ghost use Rattle.std.specs.Prelude.{◌≡◌, Some, None, MatchOption};
ghost use Rattle.mcode.specs.Machine.{field_of};

use std::alloc::Allocator;
use term_core::Term;

/// Returns the key of an object: the element at `keypos`, which is counted from 1. Returns `None` if the term is not an
/// object, i.e. no tuple, or one with fewer elements.
pub fn key_in<A: Allocator>(keypos: u16, object: &Term<A>) -> Option<&Term<A>>
    ensures { MatchOption result (field_of keypos object.now ≡ None)
        (λ key. field_of keypos object.now ≡ Some key.now) }
{
    object.element_at(keypos)
}
