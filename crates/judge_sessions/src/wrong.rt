//! What can be wrong with the answers to sessions.
use crate::keys::Object;

/// An answer that no history of turns allows.
#[derive(Clone, Copy, Debug)]
pub(crate) enum Wrong {
    /// An object that no session inserted there, or that this session had not inserted yet.
    NeverPut(Object),
    /// An object that was replaced or deleted before, as far as the session could know.
    CameBack(Object),
    /// At a key of the session's own there is something else than a replay of its calls leaves there.
    NotItsOwn(u32),
    /// A walk met a key twice.
    MetTwice(u32),
    /// A walk met a key of the session's own that had no object, or missed one that had.
    Missed(u32),
    /// A key outside the range of keys.
    NoKey(u32),
    /// A count or deletion of the session's own objects reported this number, which is not theirs.
    Miscounted(u64),
    /// A release of a fix was accepted or rejected contrary to the session's count.
    Fixes(u32),
    /// An object was taken twice.
    TakenTwice(Object),
    /// What is left at a key is not the result of some session's last write there.
    NotLast(u32),
    /// At a key more objects are left than were inserted and not taken; or fewer, and no query deleted them.
    Unbalanced(u32),
    /// Queries reported this many objects as deleted that are not missing.
    NeverDeleted(i64),
    /// An object is left in a part that is not its key's part.
    Misplaced(u32),
    /// A record has an event that does not belong to a table of this kind.
    NotOfAKind,
    /// Memory ran out while judging.
    NoMemory,
}

/// Returns `wrong` as an error if the condition is false.
pub(crate) fn check(holds: bool, wrong: Wrong) -> Result<(), Wrong> {
    if holds { Ok(()) } else { Err(wrong) }
}

/// Why a run is not right, or did not complete.
#[derive(Clone, Copy, Debug)]
pub(crate) enum Failure {
    /// What is wrong with the answers to the session of this number.
    Answered(u8, Wrong),
    /// What is wrong with what is left, or with all answers together.
    Left(Wrong),
    /// The table can't be opened, what is left is no object, or memory ran out.
    Refused,
    /// A part was never returned.
    Lost,
}

impl Failure {
    /// Returns whether the answers or what is left are wrong, so that they could be judged.
    pub(crate) fn is_of_answers(&self) -> bool {
        match self {
            Failure::Answered(_, _) | Failure::Left(_) => true,
            Failure::Refused | Failure::Lost => false,
        }
    }
}

impl From<Wrong> for Failure {
    fn from(wrong: Wrong) -> Failure {
        Failure::Left(wrong)
    }
}
