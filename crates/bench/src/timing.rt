//! The clock, and medians.
use std::time::{Clock, Instant};

/// How many rounds are timed.
pub(crate) const ROUNDS: usize = 5;

/// Returns the nanoseconds since then.
pub(crate) fn since<R: Clock>(rt: &R, began: Instant) -> Option<u64> {
    u64::try_from(began.elapsed(rt).ok()?.as_nanos()).ok()
}

/// Returns the median of the rounds.
pub(crate) fn median(mut rounds: [u64; ROUNDS]) -> u64 {
    rounds.sort_unstable();
    rounds[ROUNDS / 2]
}
