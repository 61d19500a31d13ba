//! Counts of fixes, one for each session.
ghost use Rattle.std.specs.Prelude.{◌≡◌, ◌<◌, IfOk, get_or, length, replicate};
ghost use Rattle.part_core.specs.Rows.{is_fixed};

use std::alloc::{AllocError, Allocator};

/// Returns the counts of `sessions` sessions without fixes. Fails if an allocation fails.
pub fn no_fixes<A: Allocator>(alloc: A, sessions: u8) -> Result<Vec<u16, A>, AllocError>
    ensures { IfOk result (λ fixes. fixes.items ≡ replicate sessions 0) }
{
    vec![in alloc; 0; usize::from(sessions)]
}

/// Returns whether some session fixes the part.
pub fn is_fixed(fixes: &[u16]) -> bool
    ensures { result ≡ is_fixed fixes.now }
{
    fixes.iter().any(|count| *count > 0)
}

/// Returns how many times a session fixes the part.
pub fn fixes_at(fixes: &[u16], session: u8) -> u16
    requires { session < length fixes.now }
    ensures { result ≡ get_or fixes.now session 0 }
{
    fixes[usize::from(session)]
}
