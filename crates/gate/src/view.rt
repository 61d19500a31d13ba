//! What a seat at the gate knows.
use part_core::{Entry, Settings};
use std::collections::LinkedList;

/// The role of the seat that has a view.
pub enum Role {
    /// The opener, which makes the passes: of the sessions from this number on, none has one yet.
    Opener(u8),
    /// A session, by its number.
    Session(u8),
    /// A session that has taken the part out.
    Holder(u8),
    /// No session: a note of what a session has seen.
    Note,
}

/// What a seat at the gate knows, in terms of the gate's rule. No value of this type is ever created.
pub struct View {
    /// The settings of the part.
    pub settings: Settings,
    /// The role of the seat.
    pub role: Role,
    /// The part's history as far as this seat has seen it.
    pub seen: LinkedList<Entry>,
    /// The part's history as far as another session has seen it, taken from a note of that session.
    pub told: LinkedList<Entry>,
}
