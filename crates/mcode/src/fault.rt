//! Why code can't be built.
use std::alloc::AllocError;
use thiserror::Error;

/// Why a part can't be added to code.
#[derive(Clone, Copy, Debug, PartialEq, Eq, Error)]
pub enum Fault {
    /// An allocation failed.
    #[error("out of memory")]
    Memory,
    /// A count would exceed `MAX_COUNT`, `MAX_SLOTS`, `MAX_ROUTINES` or `MAX_ARGUMENTS`.
    #[error("the code has too many parts of a kind")]
    Limit,
    /// A frame, a place in it or a slot in it is not above the one before, or a place is listed with `Kind::Any`.
    #[error("the frame is out of order")]
    FrameOrder,
}

impl Fault {
    ghost use Rattle.std.specs.Prelude.{◌≡◌};
    ghost use Rattle.mcode.specs.FaultNumbers.{number_of};
    ghost use Rattle.mcode.specs.declared.fault.Fault.TheVariants.{Memory};

    /// Returns the number, 1, 36 or 37, that programs print for the fault.
    pub const fn number(self) -> u8
        ensures { result ≡ number_of self }
    {
        match self {
            Fault::Memory => 1,
            Fault::Limit => 36,
            Fault::FrameOrder => 37,
        }
    }

    /// Converts `Fault::Memory` into the library's `AllocError`. Requires that the fault is `Fault::Memory`.
    pub fn alloc_error(self) -> AllocError
        requires { self ≡ Memory }
    {
        match self {
            Fault::Memory => AllocError,
            Fault::Limit | Fault::FrameOrder => unreachable!(),
        }
    }
}
