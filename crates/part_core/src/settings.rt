//! The settings of a part, given when it is made.
ghost use Rattle.std.specs.Prelude.{◌↔◌, IsTrue};
ghost use Rattle.part_core.specs.Served.{AreInRange};

use crate::kind::TableKind;

/// The greatest position of a key in an object.
pub const MAX_KEYPOS: u16 = 65_535;
/// The greatest number of parts of a table.
pub const MAX_PARTS: u8 = 64;
/// The greatest number of sessions of a table.
pub const MAX_SESSIONS: u8 = 16;

/// The settings that all parts of a table share.
#[derive(Clone, Copy, Debug, PartialEq, Eq)]
pub struct Settings {
    /// What the table holds at a key, and its walk order.
    pub kind: TableKind,
    /// The position of the key in an object, counted from 1.
    pub keypos: u16,
    /// How many parts the table has.
    pub parts: u8,
    /// How many sessions use it, numbered from 0.
    pub sessions: u8,
}

impl Settings {
    /// Returns whether each number is in its range: keypos from 1 to 65,535, 1 to 64 parts, 1 to 16 sessions.
    pub fn are_in_range(&self) -> bool
        ensures { IsTrue result ↔ AreInRange self.now }
    {
        0 < self.keypos
            && 0 < self.parts
            && self.parts <= MAX_PARTS
            && 0 < self.sessions
            && self.sessions <= MAX_SESSIONS
    }
}
