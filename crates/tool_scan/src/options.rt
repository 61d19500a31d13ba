//! The options of a scan.
ghost use Rattle.std.specs.Prelude.{◌≡◌};
ghost use Rattle.tool_scan.specs.Options.{kind_of, table_of, IsKindText};

use part_core::TableKind;
use std::str::FromStr;
use tables::Options;

/// The kind of the table into which objects are inserted: any but an ordered set.
#[derive(Clone, Copy, Debug, PartialEq, Eq)]
pub enum ScanKind {
    /// One object for each key, the last inserted.
    Set,
    /// Different objects may have the same key.
    Bag,
    /// All objects of a key, also equal ones.
    DuplicateBag,
}

impl ScanKind {
    fn table_kind(self) -> TableKind
        ensures { result ≡ kind_of self }
    {
        match self {
            ScanKind::Set => TableKind::Set,
            ScanKind::Bag => TableKind::Bag,
            ScanKind::DuplicateBag => TableKind::DuplicateBag,
        }
    }
}

/// The text does not name a kind of table that `scan` supports.
#[derive(Clone, Copy, Debug, PartialEq, Eq)]
pub struct UnknownKind;

/// Reads `set`, `bag` or `duplicate_bag`. Fails with `UnknownKind` for any other text.
impl FromStr for ScanKind {
    type Err = UnknownKind;

    ghost from_str_gives = { λ text result. IsKindText text result };

    fn from_str(text: &str) -> Result<ScanKind, UnknownKind> {
        match text {
            "set" => Ok(ScanKind::Set),
            "bag" => Ok(ScanKind::Bag),
            "duplicate_bag" => Ok(ScanKind::DuplicateBag),
            _ => Err(UnknownKind),
        }
    }
}

/// The options of a scan.
#[derive(Clone, Copy, Debug, PartialEq, Eq)]
pub struct ScanOptions {
    /// The kind of the table.
    pub kind: ScanKind,
    /// The position of the key in an object, counted from 1: 1 to 65,535.
    pub keypos: u16,
    /// How many parts the keys are spread over: 1 to 64.
    pub parts: u8,
    /// The number of sessions, each with a thread of its own: 1 to 16.
    pub workers: u8,
}

/// Returns the options with which the table is opened.
pub(crate) fn table_options(options: ScanOptions) -> Options
    ensures { result ≡ table_of options }
{
    Options {
        name: 0,
        kind: options.kind.table_kind(),
        keypos: options.keypos,
        parts: options.parts,
        sessions: options.workers,
    }
}
