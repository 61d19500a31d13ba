//! Why a reader stops.
ghost use Rattle.std.specs.Prelude.{◌≡◌};
ghost use Rattle.code_file.specs.declared.stop.FileStop.TheVariants.{Memory};

use std::alloc::{AllocError, AllocFailed};

/// What is wrong at a place of a file.
#[derive(Clone, Copy, PartialEq, Eq)]
pub enum FileCause {
    /// The file ends too early.
    Truncated,
    /// A byte is not the number of a tag, opcode, function or kind.
    BadOpcode,
    /// What is there is not written as in code files.
    NotCanonical,
    /// There are too many slots, bodies or arguments, or a term exceeds a limit of terms.
    Limit,
}

/// Why reading stops: memory ran out, or there is a fault. A fault's place is the number of bytes from there to the
/// end.
#[derive(Clone, Copy)]
pub enum FileStop {
    /// An allocation failed.
    Memory,
    /// Something is wrong at the place where this number of bytes is left.
    At(FileCause, usize),
}

impl From<AllocError> for FileStop {
    ghost from_gives = { λ _ e. e ≡ Memory };

    fn from(_refused: AllocError) -> FileStop {
        FileStop::Memory
    }
}

impl<T: Drop> From<AllocFailed<T>> for FileStop {
    ghost from_gives = { λ _ e. e ≡ Memory };

    fn from(_refused: AllocFailed<T>) -> FileStop {
        FileStop::Memory
    }
}
