//! That parts may be sent to other threads.
use crate::OrderPart;
use std::alloc::Global;

/// Compiles only for a value that may be sent to another thread.
fn may_be_sent<T: Send>(_value: &T) {}

/// States that the part of an ordered set that uses the global allocator may be sent to another thread.
pub fn order_parts_may_be_sent(part: &OrderPart<Global>) {
    may_be_sent(part);
}
