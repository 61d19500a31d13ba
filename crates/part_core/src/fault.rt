//! Why a part rejects an operation.
use std::alloc::AllocError;
use thiserror::Error;

/// Why an operation is rejected.
#[derive(Clone, Copy, Debug, PartialEq, Eq, Error)]
pub enum Fault {
    /// An allocation failed.
    #[error("out of memory")]
    Memory,
    /// The object is not a tuple with an element at the key's position.
    #[error("the object is too small")]
    TooSmall,
    /// The session already fixes the part 65,535 times, the limit.
    #[error("the part is fixed too often")]
    FixLimit,
    /// The session has no fix of the part to release.
    #[error("the part isn't fixed by the session")]
    NotFixed,
    /// The key has no row.
    #[error("the key has no row")]
    BadKey,
    /// The cursor is of the other kind, its base is none that the part has had, or its class is not below the base.
    #[error("the cursor isn't the part's")]
    CursorOutside,
}

/// Why a part can't be made.
#[derive(Clone, Copy, Debug, PartialEq, Eq, Error)]
pub enum OpenFault {
    /// An allocation failed.
    #[error("out of memory")]
    Memory,
    /// A number is outside its range, or the part does not serve the kind.
    #[error("the options don't fit")]
    BadOptions,
}

impl From<AllocError> for Fault {
    ghost use Rattle.std.specs.Prelude.{◌≡◌};
    ghost use Rattle.part_core.specs.declared.fault.Fault.TheVariants.{Memory};

    ghost from_gives = { λ _ fault. fault ≡ Memory };

    fn from(_: AllocError) -> Self {
        Fault::Memory
    }
}

impl From<AllocError> for OpenFault {
    ghost use Rattle.std.specs.Prelude.{◌≡◌};
    ghost use Rattle.part_core.specs.declared.fault.OpenFault.TheVariants.{Memory};

    ghost from_gives = { λ _ fault. fault ≡ Memory };

    fn from(_: AllocError) -> Self {
        OpenFault::Memory
    }
}

impl Fault {
    ghost use Rattle.std.specs.Prelude.{◌≡◌};
    ghost use Rattle.part_core.specs.FaultNumbers.{fault_number};

    /// Returns the error code that programs print: 1 for out of memory, otherwise from 50 to 54.
    pub const fn number(self) -> u8
        ensures { result ≡ fault_number self }
    {
        match self {
            Fault::Memory => 1,
            Fault::TooSmall => 50,
            Fault::FixLimit => 51,
            Fault::NotFixed => 52,
            Fault::BadKey => 53,
            Fault::CursorOutside => 54,
        }
    }
}

impl OpenFault {
    ghost use Rattle.std.specs.Prelude.{◌≡◌};
    ghost use Rattle.part_core.specs.FaultNumbers.{open_fault_number};
    ghost use Rattle.part_core.specs.declared.fault.OpenFault.TheVariants.{Memory};

    /// Returns the error code that programs print: 1 for out of memory, 60 for bad options.
    pub const fn number(self) -> u8
        ensures { result ≡ open_fault_number self }
    {
        match self {
            OpenFault::Memory => 1,
            OpenFault::BadOptions => 60,
        }
    }

    /// Converts the fault to the library's out-of-memory error. It must be `OpenFault::Memory`.
    pub fn alloc_error(self) -> AllocError
        requires { self ≡ Memory }
    {
        match self {
            OpenFault::Memory => AllocError,
            OpenFault::BadOptions => unreachable!(),
        }
    }
}
