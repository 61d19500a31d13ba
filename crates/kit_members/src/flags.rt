//! Flags that tests raise on one thread and look for on another.
use std::sync::atomic::{AtomicBool, Ordering};
use std::thread::yield_now;

/// How many times a flag is checked. Between two checks other threads run, so that all of them take some seconds.
pub const LOOKS: u32 = 10_000_000;

/// Returns whether a flag is set within 10,000,000 checks. The contract says only that each check ends; tests show
/// whether a flag was seen.
pub fn is_raised(flag: &AtomicBool) -> bool {
    for _look in 0..LOOKS {
        if flag.load(Ordering::SeqCst) {
            return true;
        }
        yield_now();
    }
    false
}
