//! Why code is rejected.
use std::alloc::AllocError;
use thiserror::Error;

/// Why code is rejected. Each fault but `Memory` and `Budget` has the number of an instruction.
#[derive(Clone, Copy, Debug, PartialEq, Eq, Error)]
pub enum Fault {
    /// An allocation failed.
    #[error("out of memory")]
    Memory,
    /// There are fewer operands than the instruction needs.
    #[error("instruction {0} finds too few operands")]
    Underflow(u16),
    /// An operand has another kind than the instruction or its routine needs, the tuple doesn't have the place, or the
    /// function takes another number of arguments.
    #[error("instruction {0} finds an operand of the wrong kind")]
    Kind(u16),
    /// The code doesn't have the slot, or the slot is read and isn't bound.
    #[error("instruction {0} names a slot that isn't bound")]
    Unbound(u16),
    /// The target of a jump is outside the body.
    #[error("instruction {0} jumps out of the code")]
    JumpOutside(u16),
    /// The target of a jump isn't after it.
    #[error("instruction {0} jumps back")]
    JumpBack(u16),
    /// A frame isn't fit, a jump or an instruction needs a frame and has none, or a state isn't at or below the frame
    /// where it leads.
    #[error("the frame at or of instruction {0} doesn't hold")]
    Frame(u16),
    /// The last instruction goes on, or there is none.
    #[error("the code ends after instruction {0}, which goes on")]
    FallsOff(u16),
    /// The constant doesn't exist, or isn't a list of keys although one is needed.
    #[error("instruction {0} names a constant that isn't what it needs")]
    Constant(u16),
    /// The operand stack would be deeper than `MAX_DEPTH`, counting that of an invoked routine.
    #[error("instruction {0} leaves a stack that is too deep")]
    Depth(u16),
    /// The routine doesn't exist or hasn't a higher number than the body that invokes it, or the instruction isn't
    /// allowed in its body.
    #[error("instruction {0} invokes no later routine, or may not stand in its body")]
    Routine(u16),
    /// A run of the body may take more instructions than `budget::MAX_BUDGET`.
    #[error("the body may take too many instructions")]
    Budget,
}

impl From<AllocError> for Fault {
    ghost use Rattle.std.specs.Prelude.{◌≡◌};
    ghost use Rattle.verifier_types.specs.declared.fault.Fault.TheVariants.{Memory};

    ghost from_gives = { λ _ e. e ≡ Memory };

    fn from(_: AllocError) -> Self {
        Fault::Memory
    }
}

impl Fault {
    ghost use Rattle.std.specs.Prelude.{◌≡◌};
    ghost use Rattle.verifier_types.specs.FaultNumbers.{number_of, pc_of};

    /// Returns the number, 1 or 39 to 49, that programs print for the fault.
    pub const fn number(self) -> u8
        ensures { result ≡ number_of self }
    {
        match self {
            Fault::Memory => 1,
            Fault::Underflow(_) => 40,
            Fault::Kind(_) => 41,
            Fault::Unbound(_) => 42,
            Fault::JumpOutside(_) => 43,
            Fault::JumpBack(_) => 44,
            Fault::Frame(_) => 45,
            Fault::FallsOff(_) => 46,
            Fault::Constant(_) => 47,
            Fault::Depth(_) => 48,
            Fault::Routine(_) => 49,
            Fault::Budget => 39,
        }
    }

    /// Returns the number of the instruction that the fault names, or `None` if it names none.
    pub const fn pc(self) -> Option<u16>
        ensures { result ≡ pc_of self }
    {
        match self {
            Fault::Memory | Fault::Budget => None,
            Fault::Underflow(pc)
            | Fault::Kind(pc)
            | Fault::Unbound(pc)
            | Fault::JumpOutside(pc)
            | Fault::JumpBack(pc)
            | Fault::Frame(pc)
            | Fault::FallsOff(pc)
            | Fault::Constant(pc)
            | Fault::Depth(pc)
            | Fault::Routine(pc) => Some(pc),
        }
    }
}
