//! That parts may be sent to other threads.
use crate::HashPart;
use std::alloc::Global;

/// A value may be sent.
fn may_be_sent<T: Send>(_value: &T) {}

/// A hashed part may.
pub fn hash_parts_may_be_sent(part: &HashPart<Global>) {
    may_be_sent(part);
}
