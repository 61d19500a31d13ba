//! Why a code file can't be read.

use thiserror::Error;

/// Why a code file can't be read. Places are bytes of the file, counted from 0.
#[derive(Clone, Copy, Debug, PartialEq, Eq, Error)]
pub enum FileFault {
    /// An allocation failed.
    #[error("out of memory")]
    Memory,
    /// The file does not begin with the magic of code files.
    #[error("no code file")]
    BadMagic,
    /// The file is of another version of the format.
    #[error("a code file of another version")]
    BadVersion,
    /// The file ends too early. The byte is its length.
    #[error("at byte {0}: the code file ends too early")]
    Truncated(usize),
    /// A byte is not the number of a tag, opcode, function or kind.
    #[error("at byte {0}: the byte names nothing")]
    BadOpcode(usize),
    /// A key, frame, place or slot is not above the one before it, or a list has no elements or a list as its tail. Or
    /// an atom is not UTF-8, or code of the version with routines has none. The byte is the item's first.
    #[error("at byte {0}: not as code files are written")]
    NotCanonical(usize),
    /// Bytes follow the code; this is the first of them.
    #[error("at byte {0}: the code file goes on behind its end")]
    Trailing(usize),
    /// There are too many slots, bodies or arguments, or a term exceeds a limit of terms.
    #[error("past a limit")]
    Limit,
}

impl FileFault {
    ghost use Rattle.std.specs.Prelude.{◌≡◌};
    ghost use Rattle.code_file.specs.FaultNumbers.{number_of, place_of};

    /// Returns the number, 1 or 30 to 36, that programs print for the fault.
    pub const fn number(self) -> u8
        ensures { result ≡ number_of self }
    {
        match self {
            FileFault::Memory => 1,
            FileFault::BadMagic => 30,
            FileFault::BadVersion => 31,
            FileFault::Truncated(_) => 32,
            FileFault::BadOpcode(_) => 33,
            FileFault::NotCanonical(_) => 34,
            FileFault::Trailing(_) => 35,
            FileFault::Limit => 36,
        }
    }

    /// Returns the byte of the file where the fault is, counted from 0, or `None` if the fault names none.
    pub const fn at(self) -> Option<usize>
        ensures { result ≡ place_of self }
    {
        match self {
            FileFault::Memory | FileFault::BadMagic | FileFault::BadVersion | FileFault::Limit =>
                None,
            FileFault::Truncated(at)
            | FileFault::BadOpcode(at)
            | FileFault::NotCanonical(at)
            | FileFault::Trailing(at) => Some(at),
        }
    }
}
