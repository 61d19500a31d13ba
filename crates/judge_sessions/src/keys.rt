//! Keys, and the objects that sessions insert at them.
use kit_rows::{fields, number};
use std::alloc::Global;
use term_core::Term;

/// The maximal number of sessions of a table.
pub(crate) const SESSIONS: u32 = 16;
/// The number of keys of each session at which it alone writes.
pub(crate) const OWN: u32 = 16;
/// The first key at which all sessions write in every way; the keys below it belong to one session each.
pub(crate) const OPEN: u32 = SESSIONS * OWN;
/// The first key at which all sessions write, only by `insert_new` and `take`; the objects at these keys are counted.
pub(crate) const COUNTED: u32 = OPEN + 32;
/// One past the last key.
pub(crate) const KEYS: u32 = COUNTED + 16;

/// An object `{Key,Session,Sequence}`. A session does not insert two objects with the same sequence number.
#[derive(Clone, Copy, Debug, PartialEq, Eq)]
pub(crate) struct Object {
    pub(crate) key: u32,
    pub(crate) session: u8,
    pub(crate) sequence: u32,
}

/// Returns a key as a term.
pub(crate) fn key_term(key: u32) -> Term {
    Term::int(i64::from(key))
}

/// Returns the value of an integer from 0 to 255, or `None` for any other term.
pub(crate) fn byte(term: &Term) -> Option<u8> {
    match number(term) {
        Some(number) => u8::try_from(number).ok(),
        None => None,
    }
}

impl Object {
    /// Returns the object as a term, or `None` if memory runs out.
    pub(crate) fn term(self, alloc: Global) -> Option<Term> {
        let elements = Vec::from_array(
            alloc,
            [
                key_term(self.key),
                Term::int(i64::from(self.session)),
                Term::int(i64::from(self.sequence)),
            ],
        )
        .ok()?;
        Term::tuple(alloc, elements).ok()
    }

    /// Returns the object that a term is, or `None`.
    pub(crate) fn of_term(term: &Term) -> Option<Object> {
        let Some([key, session, sequence]) = fields(term) else {
            return None;
        };
        match (number(key), byte(session), number(sequence)) {
            (Some(key), Some(session), Some(sequence)) => Some(Object {
                key,
                session,
                sequence,
            }),
            _ => None,
        }
    }

    /// Returns whether its sequence number has this parity; any has if the parity is `None`.
    pub(crate) fn is_of(self, parity: Option<u32>) -> bool {
        match parity {
            Some(parity) => self.sequence % 2 == parity,
            None => true,
        }
    }
}

/// Returns the object of a key, of which there is at most one. Returns `None` if there are more terms or the term is no
/// object.
pub(crate) fn object_of(terms: &[Term]) -> Option<Option<Object>> {
    match terms {
        [] => Some(None),
        [term] => Some(Some(Object::of_term(term)?)),
        _ => None,
    }
}

/// Returns the first object of a key among these, if there is one.
pub(crate) fn first_at(objects: &[Object], key: u32) -> Option<Object> {
    for object in objects {
        if object.key == key {
            return Some(*object);
        }
    }
    None
}

/// Returns the session that alone writes at a key, or `None` if all write there.
pub(crate) fn owner(key: u32) -> Option<u8> {
    if key < OPEN {
        u8::try_from(key / OWN).ok()
    } else {
        None
    }
}
