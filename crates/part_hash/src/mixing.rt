//! Mixed hashes of keys.
ghost use Rattle.std.specs.Prelude.{◌≡◌};
ghost use Rattle.part_hash.specs.Mixed.{mixed};

use std::alloc::Allocator;
use std::hash::{DefaultHasher, Hash, Hasher};
use term_core::Term;

/// The seed of a store that is made.
pub(crate) const FIRST_SEED: u64 = 0;

/// The mixed hash of a key, by a seed. Where a seed's hashes are alike, those of another are not.
#[tactic(auto, unfolding(crate::specs::Mixed::mixed))]
pub(crate) fn mixed<A: Allocator>(seed: u64, key: &Term<A>) -> u32
    ensures { result ≡ mixed seed key.now }
{
    let mut hasher = DefaultHasher::new();
    hasher.write_u64(seed);
    key.hash(&mut hasher);
    (hasher.finish() % (1 << 32)) as u32
}
