//! Why a selection by several workers is rejected.
use std::alloc::AllocError;
use thiserror::Error;

/// Why a selection by several workers is rejected.
#[derive(Clone, Copy, Debug, PartialEq, Eq, Error)]
pub enum SelectFault {
    /// An allocation failed.
    #[error("out of memory")]
    Memory,
    /// There are no members, or more than 16.
    #[error("the members aren't 1 to 16")]
    BadOptions,
}

impl From<AllocError> for SelectFault {
    ghost use Rattle.std.specs.Prelude.{◌≡◌};
    ghost use Rattle.parallel_select.specs.declared.fault.SelectFault.TheVariants.{Memory};

    ghost from_gives = { λ _ fault. fault ≡ Memory };

    fn from(_: AllocError) -> Self {
        SelectFault::Memory
    }
}

impl SelectFault {
    ghost use Rattle.std.specs.Prelude.{◌≡◌};
    ghost use Rattle.parallel_select.specs.Faults.{select_fault_number};

    /// Returns the error code that programs print: 1 for out of memory, 60 for bad options.
    pub const fn number(self) -> u8
        ensures { result ≡ select_fault_number self }
    {
        match self {
            SelectFault::Memory => 1,
            SelectFault::BadOptions => 60,
        }
    }
}
