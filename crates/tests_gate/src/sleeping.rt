//! Threads that sleep, as the system reports it.
use kit_members::LOOKS;
use std::alloc::Alloc;
use std::fs::{self, Files};
use std::sync::atomic::{AtomicU64, Ordering};
use std::thread::yield_now;

/// Detects whether a thread sleeps that has reported which one it is.
// A trait of one's own is used since what is sent to a thread may depend on it, and not on a bound `Files`.
pub(crate) trait SleepWatch {
    /// Records the calling thread as the one to watch.
    fn tell(&self);

    /// Returns whether that thread sleeps within a limited number of checks.
    fn falls_asleep(&self) -> bool;
}

/// A watch that gets the thread's number and state from the system.
#[derive(Drop)]
pub(crate) struct SystemWatch<'a, R> {
    files: &'a R,
    number: AtomicU64,
}

impl<'a, R> SystemWatch<'a, R> {
    /// Returns a watch over a thread that has not reported which one it is.
    pub(crate) fn new(files: &'a R) -> Self {
        SystemWatch {
            files,
            number: AtomicU64::new(0),
        }
    }
}

/// Returns the system's number of the calling thread, or `None` if the system does not report it.
fn own_number<R: Files + Alloc>(rt: &R) -> Option<u64> {
    let line = fs::read_to_string(rt, "/proc/thread-self/stat").ok()?;
    match line.split_once(' ') {
        Some((number, _)) => number.parse().ok(),
        None => None,
    }
}

/// Returns whether the thread with this number sleeps until it is woken.
fn sleeps<R: Files + Alloc>(rt: &R, number: u64) -> bool {
    let Ok(path) = format!(in rt.alloc(); "/proc/self/task/{number}/stat") else {
        return false;
    };
    match fs::read_to_string(rt, path.as_str()) {
        Ok(line) => line.contains(") S "),
        Err(_) => false,
    }
}

impl<'a, R: Files + Alloc> SleepWatch for SystemWatch<'a, R> {
    fn tell(&self) {
        let number = own_number(self.files).unwrap_or(0);
        self.number.store(number, Ordering::SeqCst);
    }

    fn falls_asleep(&self) -> bool {
        for _look in 0..LOOKS {
            let number = self.number.load(Ordering::SeqCst);
            if number != 0 && sleeps(self.files, number) {
                return true;
            }
            yield_now();
        }
        false
    }
}
