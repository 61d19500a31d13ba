//! The pairs of a map, in ascending key order.
ghost use Rattle.std.specs.Prelude.{◌≡◌, true, IfOk, MatchOption, Ok};
ghost use Rattle.std.specs.List.{AllByRecursion};
ghost use Rattle.std.specs.List.Sorted.{IsStrictlySortedBy};
ghost use Rattle.std.specs.Map.{keys_of};
ghost use Rattle.term_core.specs.Datum.{entries_of};
ghost use Rattle.term_core.specs.Datum.Datum.{map};
ghost use Rattle.term_core.specs.Limits.{entries_depth};
ghost use Rattle.term_core.specs.MapPairs.{AreRising, IsPairSound};
ghost use Rattle.term_core.specs.Order.{datum_cmp};
ghost use Rattle.term_text.specs.TokenReading.{Gives};
ghost use Rattle.term_text.specs.Reading.{IsWithin, IsPlace, has_key};

use crate::stop::Stop;
use std::alloc::{AllocError, Allocator};
use std::cmp::Ordering;
use std::collections::BTreeMap;
use term_core::Term;

/// Pairs in ascending key order.
pub type Pairs<A> = Vec<(Term<A>, Term<A>), A>;
/// Many pairs in ascending key order.
pub type Tree<A> = BTreeMap<Term<A>, Term<A>, A>;

/// Returns the place among these pairs where a key belongs, or `None` if it is there already. Compares with the last
/// pair first.
#[inline(always)]
pub fn place_of<A: Allocator>(pairs: &[(Term<A>, Term<A>)], key: &Term<A>) -> Option<usize>
    requires { AreRising (entries_of pairs.now) }
    ensures { MatchOption result (has_key key.now pairs.now ≡ true) (λ place. IsPlace place key.now pairs.now) }
{
    for i in (0..pairs.len()).rev() {
        match key.cmp(&pairs[i].0) {
            Ordering::Greater => return Some(i + 1),
            Ordering::Equal => return None,
            Ordering::Less => {}
        }
    }
    Some(0)
}

/// Returns these pairs as a tree.
#[inline(never)]
pub fn in_tree<A: Allocator + Copy>(alloc: A, pairs: Pairs<A>) -> Result<Tree<A>, AllocError>
    requires { AreRising (entries_of pairs.items) }
    ensures { IfOk result (λ tree. tree.entries ≡ pairs.items) }
{
    let mut tree = BTreeMap::new(alloc);
    for pair in pairs {
        let (key, value) = pair;
        tree.insert(key, value)?;
    }
    Ok(tree)
}

/// Returns the pairs of a tree.
#[tactic(auto, using(crate::proofs::Keys::sorted_rises))]
#[inline(never)]
pub fn in_order<A: Allocator>(alloc: A, pairs: Tree<A>) -> Result<Pairs<A>, AllocError>
    ensures items { IfOk result (λ v. v.items ≡ pairs.entries) }
    ensures rising { IfOk result (λ v. AreRising (entries_of v.items)) }
{
    pairs.into_iter().collect(alloc)
}

/// Returns the greatest depth of the keys and values of these pairs, 0 if there are none.
#[inline(always)]
fn deepest_pair<A: Allocator>(pairs: &[(Term<A>, Term<A>)]) -> u8
    ensures value { result ≡ entries_depth (entries_of pairs.now) }
    ensures sound { AllByRecursion IsPairSound pairs.now }
{
    let mut deepest = 0;
    for pair in pairs {
        deepest = deepest.max(pair.0.depth()).max(pair.1.depth());
    }
    deepest
}

/// Makes the map of these pairs, which are within the limits.
#[inline(always)]
pub fn map_of<A: Allocator + Copy>(alloc: A, pairs: Pairs<A>) -> Result<Term<A>, Stop>
    requires within { IsWithin (map (entries_of pairs.items)) }
    requires rising { AreRising (entries_of pairs.items) }
    ensures { Gives (λ t. t) result (Ok (map (entries_of pairs.items))) }
{
    let depth = deepest_pair(pairs.as_slice()) + 1;
    match Term::from_rising(alloc, depth, pairs) {
        Ok(map) => Ok(map),
        Err(_) => Err(Stop::Memory),
    }
}
