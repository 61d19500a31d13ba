//! The position of a walk.
ghost use Rattle.std.specs.Prelude.{ℕ, ◌≡◌, ◌<◌, ◌+◌, option_map};
ghost use Rattle.part_core.specs.Ops.{cursor_of, scope_of};
ghost use Rattle.walk_core.specs.Positions.{IsThere, position_of};
ghost use Rattle.walk_core.specs.Walk.{at_key, at_part, position_in, scope_from};

use part_core::{Cursor, Scope};
use std::alloc::{Allocator, Global};

/// The position of a walk.
pub enum Position<A: Allocator = Global> {
    /// In a part, at a cursor, or at the part's beginning.
    InPart(u8, Option<Cursor<A>>),
    /// At a named key, after that many others are done.
    AtNamed(usize),
    /// At the end.
    Over,
}

/// By hand: a function that drops one has one call in its proof, and not a case for each way in which its parts are dropped.
impl<A: Allocator> Drop for Position<A> {
    fn drop(self) {
        match self {
            Position::InPart(_part, cursor) => drop(cursor),
            Position::AtNamed(_done) => {}
            Position::Over => {}
        }
    }
}

impl<A: Allocator> Position<A> {
    ghost use Rattle.std.specs.Prelude.{◌≡◌, ◌≢◌, MatchBool};
    ghost use Rattle.walk_core.specs.Walk.Position.{Over};
    ghost use Rattle.walk_core.specs.Positions.{IsThere, position_of};

    /// Returns whether the walk is at its end.
    pub fn is_over(&self) -> bool
        ensures { MatchBool result (position_of self.now ≡ Over) (position_of self.now ≢ Over) }
    {
        match self {
            Position::Over => true,
            Position::InPart(..) => false,
            Position::AtNamed(_) => false,
        }
    }

    /// Returns whether the position is one in a walk through `parts` parts and `count` named keys: its part or its
    /// named key, if it has one, is below the number of these.
    pub fn is_there(&self, parts: u8, count: usize) -> bool
        ensures { MatchBool result (IsThere parts count (position_of self.now))
            (¬ (IsThere parts count (position_of self.now))) }
    {
        match self {
            Position::InPart(part, _) => *part < parts,
            Position::AtNamed(number) => *number < count,
            Position::Over => true,
        }
    }
}

/// Returns the position at a named key, or at the end if there are not that many keys.
pub fn at_key<A: Allocator>(number: usize, count: usize) -> Position<A>
    ensures at { position_of result ≡ at_key number count }
    ensures there { (parts : ℕ) → IsThere parts count (position_of result) }
{
    if number < count {
        Position::AtNamed(number)
    } else {
        Position::Over
    }
}

/// Returns the position at the beginning of a part, or at the end if there are not that many parts.
pub fn at_part<A: Allocator>(part: u8, parts: u8) -> Position<A>
    ensures at { position_of result ≡ at_part part parts }
    ensures there { (count : ℕ) → IsThere parts count (position_of result) }
{
    if part < parts {
        Position::InPart(part, None)
    } else {
        Position::Over
    }
}

/// Returns the position after a visit of a part, in a walk through `parts` parts; `next` is the cursor that the visit
/// returned.
pub fn behind<A: Allocator>(part: u8, next: Option<Cursor<A>>, parts: u8) -> Position<A>
    requires { part < parts }
    ensures at { position_of result ≡ position_in parts part (option_map cursor_of next) }
    ensures there { (count : ℕ) → IsThere parts count (position_of result) }
{
    match next {
        Some(cursor) => Position::InPart(part, Some(cursor)),
        None => at_part(part + 1, parts),
    }
}

/// Returns the position after the visit of a named key, of `count`.
pub fn after_key<A: Allocator>(number: usize, count: usize) -> Position<A>
    requires { number < count }
    ensures at { position_of result ≡ at_key (number + 1) count }
    ensures there { (parts : ℕ) → IsThere parts count (position_of result) }
{
    at_key(number + 1, count)
}

/// Returns what a visit looks at that goes on from a cursor, or, without one, begins.
pub fn scope_from<A: Allocator>(cursor: &Option<Cursor<A>>) -> Scope<'_, A>
    ensures { scope_of result ≡ scope_from (option_map cursor_of cursor.now) }
{
    match cursor {
        Some(cursor) => Scope::After(cursor),
        None => Scope::Begin,
    }
}
