//! Constants that are lists of keys.
ghost use Rattle.std.specs.Prelude.{◌≡◌, map, IfOk};
ghost use Rattle.mcode.specs.Machine.{map_keys};
ghost use Rattle.mcode.specs.Program.{Program};
ghost use Rattle.verifier_types.specs.Effect.{key_count};
ghost use Rattle.verifier_types.specs.Needed.{keys_counted, AreCounts};

use mcode::Body;
use std::alloc::{AllocError, Allocator};
use term_build::are_apart;
use term_core::Term;

/// Returns the number of keys of a term that is a proper list of terms that all differ, or `None` for any other term.
/// Fails if an allocation fails.
fn counted<A: Allocator + Copy>(alloc: A, term: &Term<A>) -> Result<Option<usize>, AllocError>
    ensures { IfOk result (λ count. count ≡ keys_counted term.now) }
{
    let Some(elements) = term.proper_elements() else {
        return Ok(None);
    };
    if are_apart(alloc, elements)? {
        Ok(Some(elements.len()))
    } else {
        Ok(None)
    }
}

/// Returns for each of the constants the number of its keys if it is a proper list of terms that all differ, otherwise
/// `None`. Fails if an allocation fails.
pub fn key_counts<A: Allocator + Copy>(
    alloc: A,
    constants: &[Term<A>],
) -> Result<Vec<Option<usize>, A>, AllocError>
    ensures { IfOk result (λ counts. counts.items ≡ map keys_counted constants.now) }
{
    let mut counts = Vec::with_capacity(alloc, constants.len())?;
    for constant in constants {
        counts.push(counted(alloc, constant)?)?;
    }
    Ok(counts)
}

/// Returns the number of keys of the constant with this number, or `None` if it doesn't exist or is not a list of keys.
pub(crate) fn key_count<A: Allocator>(
    body: &Body<'_, A>,
    counts: &[Option<usize>],
    constant: u16,
) -> Option<usize>
    requires { AreCounts body.now counts.now }
    ensures { result ≡ key_count body.now constant }
{
    match counts.get(usize::from(constant)) {
        Some(count) => *count,
        None => None,
    }
}
