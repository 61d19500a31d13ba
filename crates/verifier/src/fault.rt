//! Why code is rejected, and in which body.
use std::alloc::AllocError;
use thiserror::Error;
use verifier_types::Fault;

/// Why code is rejected, and the body in which the fault was found.
#[derive(Clone, Copy, Debug, PartialEq, Eq, Error)]
#[error("body {body}: {fault}")]
pub struct BodyFault {
    /// The fault.
    pub fault: Fault,
    /// The number of the body: 0 for the main body, and also if memory ran out outside any body.
    pub body: u16,
}

impl From<AllocError> for BodyFault {
    ghost use Rattle.std.specs.Prelude.{◌≡◌};
    ghost use Rattle.verifier_types.specs.declared.fault.Fault.TheVariants.{Memory};

    ghost from_gives = { λ _ told. told.fault ≡ Memory };

    fn from(_: AllocError) -> Self {
        BodyFault {
            fault: Fault::Memory,
            body: 0,
        }
    }
}
