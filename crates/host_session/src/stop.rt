//! Why a call of a session is not done.
ghost use Rattle.std.specs.Prelude.{◌≡◌};
ghost use Rattle.host_session.specs.Stops.{once_of, part_of, visit_of, walk_of};

use part_core::Fault;
use tables::Halt;
use walks::WalkFault;

/// Why a call of a session is not done, or not done yet.
#[derive(Clone, Copy, Debug, PartialEq, Eq)]
pub enum Stop {
    /// An allocation failed.
    Memory,
    /// Another session had the part at each look.
    Busy,
    /// The call made as many turns as it may.
    Bound,
    /// Another call of many turns is under way; or none is that could go on.
    UnderWay,
    /// The object is not a tuple with an element at the key's position.
    TooSmall,
    /// The session already fixes a part 65,535 times, the limit.
    FixLimit,
    /// The session has no fix of a part to release.
    NotFixed,
    /// The key has no row.
    BadKey,
    /// The walk is not at a position of this table.
    Stranger,
    /// The limit is 0.
    BadLimit,
}

/// Returns why a call of one turn is not done, by the fault and by whether the turn was made.
pub(crate) fn stop_once(fault: Fault, halt: Halt) -> Stop
    ensures { result ≡ once_of fault halt }
{
    match fault {
        Fault::Memory => match halt {
            Halt::Nothing => Stop::Memory,
            Halt::Busy | Halt::Bound => Stop::Busy,
        },
        fault => stop_at_part(fault, halt),
    }
}

/// Returns why a walk that counts or deletes is stopped: any fault but `Memory` means that it is not at a position of this
/// table.
pub(crate) fn stop_of_visit(fault: Fault, halt: Halt) -> Stop
    ensures { result ≡ visit_of fault halt }
{
    match fault {
        Fault::Memory => stop_of_halt(halt),
        Fault::TooSmall
        | Fault::FixLimit
        | Fault::NotFixed
        | Fault::BadKey
        | Fault::CursorOutside => Stop::Stranger,
    }
}

/// Returns why a turn at a part is not made, by the fault and by why it was put off, if it was.
pub(crate) fn stop_at_part(fault: Fault, halt: Halt) -> Stop
    ensures { result ≡ part_of fault halt }
{
    match fault {
        Fault::Memory => stop_of_halt(halt),
        Fault::TooSmall => Stop::TooSmall,
        Fault::FixLimit => Stop::FixLimit,
        Fault::NotFixed => Stop::NotFixed,
        Fault::BadKey => Stop::BadKey,
        Fault::CursorOutside => Stop::Stranger,
    }
}

/// Returns why memory was reported to lack: an allocation failed, or the turn was put off.
pub(crate) fn stop_of_halt(halt: Halt) -> Stop
    ensures { result ≡ part_of Fault.Memory halt }
{
    match halt {
        Halt::Nothing => Stop::Memory,
        Halt::Busy => Stop::Busy,
        Halt::Bound => Stop::Bound,
    }
}

/// Returns why a walk does not go on, by its fault and by why its last turn was put off, if it was.
pub(crate) fn stop_of_walk(fault: WalkFault, halt: Halt) -> Stop
    ensures { result ≡ walk_of fault halt }
{
    match fault {
        WalkFault::Memory => stop_of_halt(halt),
        WalkFault::StrangerContinuation => Stop::Stranger,
        WalkFault::BadLimit => Stop::BadLimit,
    }
}
