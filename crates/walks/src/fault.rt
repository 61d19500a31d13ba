//! Why a walk is rejected.
use std::alloc::AllocError;
use thiserror::Error;

/// Why a walk in pieces is rejected.
#[derive(Clone, Copy, Debug, PartialEq, Eq, Error)]
pub enum WalkFault {
    /// An allocation failed.
    #[error("out of memory")]
    Memory,
    /// The walk was begun at another table, or by another session.
    #[error("the walk is another's")]
    StrangerContinuation,
    /// The limit is 0.
    #[error("the limit is 0")]
    BadLimit,
}

impl From<AllocError> for WalkFault {
    ghost use Rattle.std.specs.Prelude.{◌≡◌};
    ghost use Rattle.walks.specs.declared.fault.WalkFault.TheVariants.{Memory};

    ghost from_gives = { λ _ fault. fault ≡ Memory };

    fn from(_: AllocError) -> Self {
        WalkFault::Memory
    }
}

impl WalkFault {
    ghost use Rattle.std.specs.Prelude.{◌≡◌};
    ghost use Rattle.walks.specs.Query.{walk_fault_number};

    /// Returns the error code that programs print: 1 for out of memory, 62 or 63.
    pub const fn number(self) -> u8
        ensures { result ≡ walk_fault_number self }
    {
        match self {
            WalkFault::Memory => 1,
            WalkFault::StrangerContinuation => 62,
            WalkFault::BadLimit => 63,
        }
    }
}
