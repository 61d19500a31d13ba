//! Plain and hashed parts whose allocations a test makes fail can be sent to other threads.
//!
//! A part is `Send` if its allocator is a borrowed `Failing` one. This is proved here once (`proofs/SentLemmas.antt`),
//! for tests of calls by several threads with each allocation failing in turn. A caller proves what such a call
//! requires by `search (sendable, refused_part_send)`, for hashed parts by `refused_hash_part_send`.
use kit_alloc::Failing;
use part_hash::HashPart;
use part_plain::PlainPart;
use std::alloc::Global;

/// Requires that a value can be sent to another thread.
fn may_be_sent<T: Send>(_value: &T) {}

/// States that a plain part with a failing allocator can be sent to another thread.
pub fn plain_parts_may_be_sent(part: &PlainPart<&Failing<Global>>) {
    may_be_sent(part);
}

/// States that a hashed part with a failing allocator can be sent to another thread.
pub fn hashed_parts_may_be_sent(part: &HashPart<&Failing<Global>>) {
    may_be_sent(part);
}
