//! Copies of rows of terms, and of tails.
ghost use Rattle.std.specs.Prelude.{◌≡◌, IfOk};
ghost use Rattle.std.specs.Option.{option_copied};

use std::alloc::{AllocError, Allocator};
use term_core::Term;

/// Returns copies of these terms, in their order. Fails if an allocation or a copy fails.
pub fn copy_all<A: Allocator>(alloc: A, terms: &[Term<A>]) -> Result<Vec<Term<A>, A>, AllocError>
    ensures { IfOk result (λ v. v.items ≡ terms.now) }
{
    let mut copies = Vec::with_capacity(alloc, terms.len())?;
    for term in terms {
        copies.push(term.copy()?)?;
    }
    Ok(copies)
}

/// Returns a copy of a list's tail, or `None` if there is none. Fails if the copy fails.
pub fn copy_tail<A: Allocator>(tail: Option<&Term<A>>) -> Result<Option<Term<A>>, AllocError>
    ensures { IfOk result (λ t. t ≡ option_copied tail.entry) }
{
    match tail {
        None => Ok(None),
        Some(tail) => Ok(Some(tail.copy()?)),
    }
}
