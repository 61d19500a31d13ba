//! The part over rows.
ghost use Rattle.std.specs.Prelude.{◌≡◌, ◌<◌, length};

use part_core::Settings;
use std::alloc::{Allocator, Global};

/// A part over rows of some sort.
pub struct StoredPart<R: Drop, A: Allocator = Global> {
    pub(crate) alloc: A,
    pub(crate) settings: Settings,
    pub(crate) rows: R,
    /// How many rows are dead.
    pub(crate) dead: usize,
    /// How many times each session fixes the part.
    pub(crate) fixes: Vec<u16, A>,
    /// The number of classes into which a walk that begins divides the part.
    pub(crate) base: u32,
    ghost parts: { 0 < settings.parts },
    ghost sessions: { length fixes.items ≡ settings.sessions },
    ghost classes: { 0 < base },
}

/// By hand: a function that drops one has one call in its proof, and not a case for each way in which its parts are dropped.
impl<R: Drop, A: Allocator> Drop for StoredPart<R, A> {
    fn drop(self) {
        let StoredPart {
            alloc,
            settings: _settings,
            rows,
            dead: _dead,
            fixes,
            base: _base,
        } = self;
        drop(alloc);
        drop(rows);
        drop(fixes);
    }
}
