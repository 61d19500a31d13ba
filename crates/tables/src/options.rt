//! The options of a table.
ghost use Rattle.std.specs.Prelude.{◌≡◌};
ghost use Rattle.tables.specs.Options.{settings_of};

use part_core::{Settings, TableKind};

/// The options of a table (STDLIB Reference Manual, ets:new/2).
#[derive(Clone, Copy, Debug, PartialEq, Eq)]
pub struct Options {
    /// The table's name; tables that are open at the same time have different ones.
    pub name: u64,
    /// What the table holds at a key, and its walk order.
    pub kind: TableKind,
    /// The position of the key in an object, counted from 1: 1 to 65,535.
    pub keypos: u16,
    /// The number of parts over which the keys are spread: 1 to 64, for an ordered set 1.
    pub parts: u8,
    /// The number of sessions that use the table, numbered from 0: 1 to 16.
    pub sessions: u8,
}

impl Options {
    /// Returns the settings that all parts of the table share.
    pub fn settings(&self) -> Settings
        ensures { result ≡ settings_of self.now }
    {
        Settings {
            kind: self.kind,
            keypos: self.keypos,
            parts: self.parts,
            sessions: self.sessions,
        }
    }
}
