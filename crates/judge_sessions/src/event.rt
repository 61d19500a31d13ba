//! What a session did and what it was answered.
use crate::keys::Object;

/// A call and its answer, as a session records them.
#[derive(Clone, Copy)]
pub(crate) enum Event {
    /// An object was inserted.
    Put(Object),
    /// An object that was inserted before was inserted again.
    PutAgain(Object),
    /// An object was to be inserted by `insert_new`, and whether it was.
    PutNew(Object, bool),
    /// The object that was found at a key, if any.
    Found(u32, Option<Object>),
    /// Whether a key has an object.
    Asked(u32, bool),
    /// The object of a key was deleted.
    Deleted(u32),
    /// This object was deleted, if it was there.
    DeletedObject(Object),
    /// The object that was taken at a key, if any.
    Taken(u32, Option<Object>),
    /// An object of a list that was found, which `Listed` ends.
    Item(Object),
    /// An object of a list that was taken, which `TakenAll` ends.
    ItemTaken(Object),
    /// The objects of the list before this were found at a key.
    Listed(u32),
    /// The objects of the list before this were taken at a key.
    TakenAll(u32),
    /// The session fixed the table once more.
    Fixed,
    /// The session released a fix, and whether it had one.
    Unfixed(bool),
    /// A walk began.
    Begun,
    /// An object that a walk gave in a piece.
    Walked(Object),
    /// A key that a walk met.
    Met(u32),
    /// A walk ended.
    Ended,
    /// How many objects the session has at its own keys.
    Counted(u64),
    /// The session's objects of even (0) or odd (1) sequence numbers were deleted, and how many there were.
    Removed(u32, u64),
    /// How many objects the table has.
    CountedAll(u64),
    /// All objects at the keys whose objects are counted were deleted, and how many there were.
    Cleared(u64),
}
