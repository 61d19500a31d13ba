//! Fixes that a call makes at its beginning, and releases at its end.
ghost use Rattle.std.specs.Prelude.{ℕ, ◌≡◌, false, replicate};
ghost use Rattle.tables.specs.Turns.{Views, Follows};
ghost use Rattle.walks.specs.Own.{AreHeld, FixesFirst, Releases};

use std::alloc::Allocator;
use tables::{Turns, fix_at, unfix_at};

/// For each part, by its number, whether a call fixed it.
pub(crate) type OwnFixes = [bool; 256];

/// Returns the fixes of a call that has fixed no part.
fn none_own() -> OwnFixes
    ensures { result ≡ replicate 256 false }
{
    [false; 256]
}

/// Fixes each part of a set or bag that the session doesn't fix, and returns which. Fixes no part of an ordered set.
pub(crate) fn fix_own<A: Allocator, T: Turns<A>>(turns: &mut T) -> OwnFixes
    requires { T.is_ready turns.old }
    ensures ready { T.is_ready turns.new }
    ensures same { T.home turns.new ≡ T.home turns.old }
    ensures done { Follows (T.sees turns.old) (T.sees turns.new) (FixesFirst (T.home turns.old) result) }
{
    let mut own = none_own();
    let options = turns.options();
    if options.kind.is_ordered() {
        return own;
    }
    for part in 0..options.parts {
        if turns.fixes(part) == 0 {
            fix_at(turns, part);
            own[usize::from(part)] = true;
        }
    }
    own
}

/// Releases a fix of each of the parts in `own`.
pub(crate) fn release_own<A: Allocator, T: Turns<A>>(turns: &mut T, own: &OwnFixes)
    requires ready { T.is_ready turns.old }
    requires held { ∥ ((v : Views) × T.sees turns.old v × AreHeld (T.home turns.old) own.now v) ∥₁ }
    ensures ready { T.is_ready turns.new }
    ensures same { T.home turns.new ≡ T.home turns.old }
    ensures done { Follows (T.sees turns.old) (T.sees turns.new) (Releases (T.home turns.old) own.now) }
{
    for part in 0..turns.options().parts {
        if own[usize::from(part)] {
            unfix_at(turns, part);
        }
    }
}
