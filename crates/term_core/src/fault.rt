//! Why a term can't be made.
use std::alloc::AllocError;
use thiserror::Error;

/// Why a term can't be made.
#[derive(Clone, Copy, Debug, PartialEq, Eq, Error)]
pub enum Fault {
    /// An allocation failed.
    #[error("out of memory")]
    Memory,
    /// The term would be deeper than `MAX_DEPTH`.
    #[error("the term is too deep")]
    TooDeep,
    /// An atom, a tuple, a map, a list or a binary would be longer than its limit.
    #[error("the term is too long")]
    TooLong,
    /// A key occurs twice in a map.
    #[error("a key stands twice in a map")]
    DuplicateKey,
}

impl Fault {
    ghost use Rattle.std.specs.Prelude.{◌≡◌};
    ghost use Rattle.term_core.specs.FaultNumbers.{number_of};
    ghost use Rattle.term_core.specs.declared.fault.Fault.TheVariants.{Memory};

    /// Returns the number, from 1 to 4, that programs print for the fault.
    pub const fn number(self) -> u8
        ensures { result ≡ number_of self }
    {
        match self {
            Fault::Memory => 1,
            Fault::TooDeep => 2,
            Fault::TooLong => 3,
            Fault::DuplicateKey => 4,
        }
    }

    /// Converts `Fault::Memory` into the library's `AllocError`. Requires that the fault is `Fault::Memory`.
    pub fn alloc_error(self) -> AllocError
        requires { self ≡ Memory }
    {
        match self {
            Fault::Memory => AllocError,
            Fault::TooDeep | Fault::TooLong | Fault::DuplicateKey => unreachable!(),
        }
    }
}

/// A value that was moved into a call that failed, handed back with the reason.
#[derive(Debug, Drop)]
pub struct Refused<T, F = Fault> {
    /// What the call was given.
    pub value: T,
    /// Why it was refused.
    pub fault: F,
}
