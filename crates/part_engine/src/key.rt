//! The key of an object.
ghost use Rattle.std.specs.Prelude.{◌≡◌, IsTrue, IsFalse, IfSome, IfNone, unwrap_or};
ghost use Rattle.term_core.specs.Datum.Datum.{nil};
ghost use Rattle.part_core.specs.Settings.{is_object, key_of};

use part_core::{Settings, key_in};
use std::alloc::Allocator;
use term_core::Term;

/// Returns the key of the object in the option, or `None` if there is none or the term is no object.
pub fn key_of<A: Allocator>(settings: Settings, object: &Option<Term<A>>) -> Option<&Term<A>>
    ensures object { IfSome result (λ _. IsTrue (is_object settings (unwrap_or object.now nil))) }
    ensures key { IfSome result (λ key. key.now ≡ key_of settings (unwrap_or object.now nil)) }
    ensures none { IfNone result (IsFalse (is_object settings (unwrap_or object.now nil))) }
{
    match object {
        Some(object) => key_in(settings.keypos, object),
        None => None,
    }
}
