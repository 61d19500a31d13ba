//! The error, and what becomes one.
use code_file::FileFault;
use mspec_syntax::SpecFault;
use parallel_select::SelectFault;
use part_core::OpenFault;
use std::alloc::{AllocError, AllocFailed};
use term_core::Refused;
use term_text::TextFault;
use thiserror::Error as ThisError;
use verifier::BodyFault;
use walks::WalkFault;

/// Why a call did not do what it is for. Each refusal but out of memory is kept as its crate has it: its text says what
/// is wrong and, where there is one, at which byte, clause or instruction.
#[derive(Clone, Copy, Debug, PartialEq, Eq, ThisError)]
pub enum Error {
    /// An allocation failed. What was there before is as it was, unless the call says otherwise.
    #[error("out of memory")]
    Memory,
    /// A term can't be made.
    #[error("{0}")]
    Term(term_core::Fault),
    /// A text does not spell terms.
    #[error("{0}")]
    Text(TextFault),
    /// A term is no match specification.
    #[error("{0}")]
    Spec(SpecFault),
    /// Bytes are no code file.
    #[error("{0}")]
    File(FileFault),
    /// The verifier rejects code.
    #[error("{0}")]
    Code(BodyFault),
    /// A table can't be opened with these options.
    #[error("{0}")]
    Open(OpenFault),
    /// A table rejects an operation.
    #[error("{0}")]
    Table(part_core::Fault),
    /// A table rejects a walk.
    #[error("{0}")]
    Walk(WalkFault),
    /// A selection by several workers is rejected.
    #[error("{0}")]
    Select(SelectFault),
}

impl Error {
    ghost use Rattle.std.specs.Prelude.{◌≡◌};
    ghost use Rattle.ets_error.specs.Numbers.{number_of};

    /// Returns the number of the refusal, from 1 to 63, as `docs/REFUSALS.md` lists them; 1 is out of memory.
    pub fn number(self) -> u8
        ensures { result ≡ number_of self }
    {
        match self {
            Error::Memory => 1,
            Error::Term(fault) => fault.number(),
            Error::Text(fault) => fault.number(),
            Error::Spec(fault) => fault.number(),
            Error::File(fault) => fault.number(),
            Error::Code(fault) => fault.fault.number(),
            Error::Open(fault) => fault.number(),
            Error::Table(fault) => fault.number(),
            Error::Walk(fault) => fault.number(),
            Error::Select(fault) => fault.number(),
        }
    }
}

impl From<AllocError> for Error {
    ghost use Rattle.std.specs.Prelude.{◌≡◌};
    ghost use Rattle.ets_error.specs.declared.error.Error.TheVariants.{Memory};

    ghost from_gives = { λ _ error. error ≡ Memory };

    fn from(_: AllocError) -> Self {
        Error::Memory
    }
}

impl<T: Drop> From<AllocFailed<T>> for Error {
    ghost use Rattle.std.specs.Prelude.{◌≡◌};
    ghost use Rattle.ets_error.specs.declared.error.Error.TheVariants.{Memory};

    ghost from_gives = { λ _ error. error ≡ Memory };

    /// Drops the value that did not fit.
    fn from(_: AllocFailed<T>) -> Self {
        Error::Memory
    }
}

impl From<term_core::Fault> for Error {
    ghost use Rattle.std.specs.Prelude.{◌≡◌};
    ghost use Rattle.ets_error.specs.Kept.{of_term};

    ghost from_gives = { λ fault error. error ≡ of_term fault };

    fn from(fault: term_core::Fault) -> Self {
        match fault {
            term_core::Fault::Memory => Error::Memory,
            fault => Error::Term(fault),
        }
    }
}

impl From<TextFault> for Error {
    ghost use Rattle.std.specs.Prelude.{◌≡◌};
    ghost use Rattle.ets_error.specs.Kept.{of_text};

    ghost from_gives = { λ fault error. error ≡ of_text fault };

    fn from(fault: TextFault) -> Self {
        match fault {
            TextFault::Memory => Error::Memory,
            fault => Error::Text(fault),
        }
    }
}

impl From<SpecFault> for Error {
    ghost use Rattle.std.specs.Prelude.{◌≡◌};
    ghost use Rattle.ets_error.specs.Kept.{of_specification};

    ghost from_gives = { λ fault error. error ≡ of_specification fault };

    fn from(fault: SpecFault) -> Self {
        match fault {
            SpecFault::Memory => Error::Memory,
            fault => Error::Spec(fault),
        }
    }
}

impl From<FileFault> for Error {
    ghost use Rattle.std.specs.Prelude.{◌≡◌};
    ghost use Rattle.ets_error.specs.Kept.{of_file};

    ghost from_gives = { λ fault error. error ≡ of_file fault };

    fn from(fault: FileFault) -> Self {
        match fault {
            FileFault::Memory => Error::Memory,
            fault => Error::File(fault),
        }
    }
}

impl From<BodyFault> for Error {
    ghost use Rattle.std.specs.Prelude.{◌≡◌};
    ghost use Rattle.ets_error.specs.Kept.{of_code};

    ghost from_gives = { λ fault error. error ≡ of_code fault };

    fn from(fault: BodyFault) -> Self {
        match fault.fault {
            verifier::Fault::Memory => Error::Memory,
            _ => Error::Code(fault),
        }
    }
}

impl From<OpenFault> for Error {
    ghost use Rattle.std.specs.Prelude.{◌≡◌};
    ghost use Rattle.ets_error.specs.Kept.{of_opening};

    ghost from_gives = { λ fault error. error ≡ of_opening fault };

    fn from(fault: OpenFault) -> Self {
        match fault {
            OpenFault::Memory => Error::Memory,
            fault => Error::Open(fault),
        }
    }
}

impl From<part_core::Fault> for Error {
    ghost use Rattle.std.specs.Prelude.{◌≡◌};
    ghost use Rattle.ets_error.specs.Kept.{of_table};

    ghost from_gives = { λ fault error. error ≡ of_table fault };

    fn from(fault: part_core::Fault) -> Self {
        match fault {
            part_core::Fault::Memory => Error::Memory,
            fault => Error::Table(fault),
        }
    }
}

impl From<WalkFault> for Error {
    ghost use Rattle.std.specs.Prelude.{◌≡◌};
    ghost use Rattle.ets_error.specs.Kept.{of_walk};

    ghost from_gives = { λ fault error. error ≡ of_walk fault };

    fn from(fault: WalkFault) -> Self {
        match fault {
            WalkFault::Memory => Error::Memory,
            fault => Error::Walk(fault),
        }
    }
}

impl From<SelectFault> for Error {
    ghost use Rattle.std.specs.Prelude.{◌≡◌};
    ghost use Rattle.ets_error.specs.Kept.{of_selection};

    ghost from_gives = { λ fault error. error ≡ of_selection fault };

    fn from(fault: SelectFault) -> Self {
        match fault {
            SelectFault::Memory => Error::Memory,
            fault => Error::Select(fault),
        }
    }
}

impl<T: Drop> From<Refused<T, AllocError>> for Error {
    ghost use Rattle.std.specs.Prelude.{◌≡◌};
    ghost use Rattle.ets_error.specs.declared.error.Error.TheVariants.{Memory};

    ghost from_gives = { λ _ error. error ≡ Memory };

    /// Drops the value that the call handed back.
    fn from(_: Refused<T, AllocError>) -> Self {
        Error::Memory
    }
}

impl<T: Drop> From<Refused<T, term_core::Fault>> for Error {
    ghost use Rattle.std.specs.Prelude.{◌≡◌};
    ghost use Rattle.ets_error.specs.Kept.{of_term};

    ghost from_gives = { λ refused error. error ≡ of_term refused.fault };

    /// Drops the value that the call handed back.
    fn from(refused: Refused<T, term_core::Fault>) -> Self {
        Error::from(refused.fault)
    }
}

impl<T: Drop> From<Refused<T, BodyFault>> for Error {
    ghost use Rattle.std.specs.Prelude.{◌≡◌};
    ghost use Rattle.ets_error.specs.Kept.{of_code};

    ghost from_gives = { λ refused error. error ≡ of_code refused.fault };

    /// Drops the value that the call handed back.
    fn from(refused: Refused<T, BodyFault>) -> Self {
        Error::from(refused.fault)
    }
}

impl<T: Drop> From<Refused<T, part_core::Fault>> for Error {
    ghost use Rattle.std.specs.Prelude.{◌≡◌};
    ghost use Rattle.ets_error.specs.Kept.{of_table};

    ghost from_gives = { λ refused error. error ≡ of_table refused.fault };

    /// Drops the value that the call handed back.
    fn from(refused: Refused<T, part_core::Fault>) -> Self {
        Error::from(refused.fault)
    }
}

impl<T: Drop> From<Refused<T, WalkFault>> for Error {
    ghost use Rattle.std.specs.Prelude.{◌≡◌};
    ghost use Rattle.ets_error.specs.Kept.{of_walk};

    ghost from_gives = { λ refused error. error ≡ of_walk refused.fault };

    /// Drops the value that the call handed back.
    fn from(refused: Refused<T, WalkFault>) -> Self {
        Error::from(refused.fault)
    }
}
