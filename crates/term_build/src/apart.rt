//! Whether terms differ from each other.
ghost use Rattle.std.specs.Prelude.{◌≡◌, map as map_list, IfOk};
ghost use Rattle.term_core.specs.MapPairs.{are_apart as all_differ};

use std::alloc::{AllocError, Allocator};
use term_core::{Term, neighbours_differ};

/// Returns references to these terms, in their order.
fn references<'a, A: Allocator>(
    alloc: A,
    terms: &'a [Term<A>],
) -> Result<Vec<&'a Term<A>, A>, AllocError>
    ensures { IfOk result (λ references. map_list (λ term. term.now) references.items ≡ terms.now) }
{
    let mut references = Vec::with_capacity(alloc, terms.len())?;
    for term in terms {
        references.push(term)?;
    }
    Ok(references)
}

/// Returns whether no two of these terms are equal. Allocates a row of references to them, which it sorts.
pub fn are_apart<A: Allocator + Copy>(alloc: A, terms: &[Term<A>]) -> Result<bool, AllocError>
    ensures { IfOk result (λ apart. apart ≡ all_differ terms.now) }
{
    let mut references = references(alloc, terms)?;
    references.sort_unstable();
    Ok(neighbours_differ(references.as_slice()))
}
