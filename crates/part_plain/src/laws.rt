//! That parts may be sent to other threads.
use crate::PlainPart;
use std::alloc::Global;

/// Compiles only for a value that may be sent to another thread.
fn may_be_sent<T: Send>(_value: &T) {}

/// States that a plain part that uses the global allocator may be sent to another thread.
pub fn plain_parts_may_be_sent(part: &PlainPart<Global>) {
    may_be_sent(part);
}
