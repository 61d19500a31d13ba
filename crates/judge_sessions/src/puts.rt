//! What sessions inserted, and the session whose record is replayed.
use crate::event::Event;
use crate::keys::{OWN, Object, owner};
use crate::wrong::Wrong;
use std::alloc::Global;
use std::ops::Range;

/// The key at which each object was inserted.
#[derive(Drop)]
pub(crate) struct Puts {
    /// In the order of the sessions, and for each session of the sequence numbers.
    pub(crate) keys: Vec<Option<u32>>,
    /// The index at which the objects of each session begin.
    pub(crate) starts: Vec<usize>,
}

impl Puts {
    /// Returns a collection of no session.
    pub(crate) fn new(alloc: Global) -> Puts {
        Puts {
            keys: Vec::new(alloc),
            starts: Vec::new(alloc),
        }
    }

    /// Adds the objects of one more session, by its events. Returns `None` if memory runs out.
    pub(crate) fn add(&mut self, events: &[Event]) -> Option<()> {
        self.starts.push(self.keys.len()).ok()?;
        for event in events {
            let made = match *event {
                Event::Put(object) => Some((object, true)),
                Event::PutNew(object, fresh) => Some((object, fresh)),
                _ => None,
            };
            if let Some((object, is_put)) = made {
                let key = if is_put { Some(object.key) } else { None };
                self.keys.push(key).ok()?;
            }
        }
        Some(())
    }

    /// Returns the index of an object, if its session has that many.
    pub(crate) fn place(&self, object: Object) -> Option<usize> {
        let session = usize::from(object.session);
        let start = *self.starts.get(session)?;
        let end = match self.starts.get(session.saturating_add(1)) {
            Some(end) => *end,
            None => self.keys.len(),
        };
        let place = start.saturating_add(object.sequence as usize);
        if place < end { Some(place) } else { None }
    }

    /// Returns whether an object was inserted at its key.
    fn has(&self, object: Object) -> bool {
        match self.place(object) {
            Some(place) => self.keys.get(place).copied() == Some(Some(object.key)),
            None => false,
        }
    }
}

/// The session whose record is replayed.
#[derive(Drop)]
pub(crate) struct Caller<'a> {
    pub(crate) number: u8,
    pub(crate) puts: &'a Puts,
    /// The sequence number of the session's next object.
    pub(crate) next: u32,
    fixes: u32,
}

impl<'a> Caller<'a> {
    /// Returns a session that has made no call.
    pub(crate) fn new(number: u8, puts: &'a Puts) -> Caller<'a> {
        Caller {
            number,
            puts,
            next: 0,
            fixes: 0,
        }
    }

    /// Returns the session's own keys.
    pub(crate) fn keys(&self) -> Range<u32> {
        let first = u32::from(self.number).saturating_mul(OWN);
        first..first.saturating_add(OWN)
    }

    /// Returns whether the session alone writes at a key.
    pub(crate) fn owns(&self, key: u32) -> bool {
        owner(key) == Some(self.number)
    }

    /// Records that the session makes an object, which sets the next sequence number.
    pub(crate) fn makes(&mut self, object: Object) {
        self.next = object.sequence.saturating_add(1);
    }

    /// Returns whether an object can be met: it was inserted at its key and, if it is the session's own, before now.
    pub(crate) fn may_meet(&self, object: Object) -> bool {
        self.puts.has(object) && (object.session != self.number || object.sequence < self.next)
    }

    /// Handles a fix, or a release of a fix that was accepted or rejected. Any other event does not belong to such a
    /// table.
    pub(crate) fn goes_on(&mut self, event: Event) -> Result<(), Wrong> {
        match event {
            Event::Fixed => {
                self.fixes = self.fixes.saturating_add(1);
                Ok(())
            }
            Event::Unfixed(done) => self.unfixes(done),
            _ => Err(Wrong::NotOfAKind),
        }
    }

    /// Handles a release of a fix, which is accepted exactly if the session has a fix.
    fn unfixes(&mut self, done: bool) -> Result<(), Wrong> {
        if (0 < self.fixes) != done {
            return Err(Wrong::Fixes(self.fixes));
        }
        self.fixes = self.fixes.saturating_sub(1);
        Ok(())
    }
}
