//! Atoms of text and maps of pairs, as functions.
ghost use Rattle.std.specs.Prelude.{◌≡◌, IfOk, IfErr};
ghost use Rattle.std.specs.Str.{chars};
ghost use Rattle.term_core.specs.Datum.{Datum};
ghost use Rattle.term_core.specs.Datum.Datum.{atom};
ghost use Rattle.term_core.specs.Fault.{IsFault};
ghost use Rattle.term_core.specs.MapPairs.{HasTwice, IsMapOf, IsMapFault};

use std::alloc::Allocator;
use term_core::{Fault, Refused, Term};

/// Makes the atom of this text's characters. Fails if there are more than `MAX_CHARACTERS`, or if an allocation fails.
pub fn atom_of_text<A: Allocator + Copy>(alloc: A, text: &str) -> Result<Term<A>, Fault>
    ensures ok { IfOk result (λ t. t ≡ atom (chars text.now)) }
    ensures refused { IfErr result (λ fault. IsFault fault (atom (chars text.now))) }
{
    Term::atom(alloc, text)
}

/// Makes the map of these pairs, in any order. Fails if it would be deeper than `MAX_DEPTH`, if there are more than
/// `MAX_MAP` pairs, if a key occurs twice, or if an allocation fails. On failure, hands the pairs back in their order.
pub fn map_of_pairs<A: Allocator + Copy>(
    alloc: A,
    pairs: Vec<(Term<A>, Term<A>), A>,
) -> Result<Term<A>, Refused<Vec<(Term<A>, Term<A>), A>>>
    ensures ok { IfOk result (λ t. IsMapOf pairs.items t) }
    ensures only { IfOk result (λ t. (d : Datum) → IsMapOf pairs.items d → d ≡ t) }
    ensures apart { IfOk result (λ t. ¬ HasTwice pairs.items) }
    ensures refused { IfErr result (λ r. (r.value.items ≡ pairs.items)
        × IsMapFault r.fault pairs.items) }
{
    Term::map(alloc, pairs)
}
