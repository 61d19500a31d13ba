//! Where reading stops, and why.
ghost use Rattle.std.specs.Prelude.{◌≡◌};
ghost use Rattle.term_text.specs.declared.stop.Stop.TheVariants.{Memory};

use std::alloc::{AllocError, AllocFailed};

/// What is wrong at a place of a text.
#[derive(Clone, Copy, PartialEq, Eq)]
pub enum Cause {
    TooDeep,
    TooLong,
    DuplicateKey,
    Syntax,
    IntegerRange,
    UnsupportedEscape,
}

/// Why reading stops: memory ran out, or there is a fault. A fault's place is the number of characters from there to
/// the end.
#[derive(Clone, Copy)]
pub enum Stop {
    Memory,
    At(Cause, usize),
}

impl From<AllocError> for Stop {
    ghost from_gives = { λ _ e. e ≡ Memory };

    fn from(_refused: AllocError) -> Stop {
        Stop::Memory
    }
}

impl<T: Drop> From<AllocFailed<T>> for Stop {
    ghost from_gives = { λ _ e. e ≡ Memory };

    fn from(_refused: AllocFailed<T>) -> Stop {
        Stop::Memory
    }
}
