//! Compares the answers to a session of a set with a replay of its own calls and with what it could know of the others'
//! calls.
use crate::event::Event;
use crate::keys::{COUNTED, KEYS, OWN, Object, first_at};
use crate::puts::{Caller, Puts};
use crate::wrong::{Wrong, check};
use std::alloc::Global;
use std::mem;

/// A session's last write at a key.
#[derive(Clone, Copy, PartialEq)]
pub(crate) enum LastWrite {
    Nothing,
    Put(u32),
    Removal,
}

/// What a session knows of a key.
#[derive(Clone, Copy)]
struct Known {
    /// The object that was there when the session last looked or wrote.
    last: Option<Object>,
    /// The session's own last write there.
    write: LastWrite,
    /// The current walk has met the key.
    is_met: bool,
}

/// The least sequence number of an object of one session that can still be met at a key.
#[derive(Clone, Copy)]
struct Least {
    now: u32,
    /// The value when the current walk began: an answer of a later piece may have been found before an earlier one was
    /// given out.
    begun: u32,
}

/// A replay of the events of a session of a set.
#[derive(Drop)]
pub(crate) struct Replay<'a> {
    session: Caller<'a>,
    /// What is known of each key, in the order of the keys.
    known: Vec<Known>,
    /// The least sequence numbers, in the order of the sessions and, for each, of the keys.
    least: Vec<Least>,
}

impl<'a> Replay<'a> {
    /// Returns a replay without events, of a session among those that made the objects, or `None` if memory runs out.
    pub(crate) fn new(alloc: Global, number: u8, puts: &'a Puts) -> Option<Replay<'a>> {
        let keys = KEYS as usize;
        let unknown = Known {
            last: None,
            write: LastWrite::Nothing,
            is_met: false,
        };
        let any = Least { now: 0, begun: 0 };
        let Ok(known) = Vec::from_elem(alloc, unknown, keys) else {
            return None;
        };
        let Ok(least) = Vec::from_elem(alloc, any, puts.starts.len().saturating_mul(keys)) else {
            drop(known);
            return None;
        };
        Some(Replay {
            session: Caller::new(number, puts),
            known,
            least,
        })
    }

    /// Returns the object that was at a key when the session last looked or wrote.
    fn last(&self, key: u32) -> Option<Object> {
        match self.known.get(key as usize) {
            Some(known) => known.last,
            None => None,
        }
    }

    /// Returns the session's last write at a key.
    pub(crate) fn last_write(&self, key: u32) -> LastWrite {
        match self.known.get(key as usize) {
            Some(known) => known.write,
            None => LastWrite::Nothing,
        }
    }

    /// Records a write of the session at a key.
    fn writes(&mut self, key: u32, write: LastWrite) {
        if let Some(known) = self.known.get_mut(key as usize) {
            known.write = write;
        }
    }

    /// Returns the least sequence numbers of objects of a session at a key.
    fn least(&self, session: u8, key: u32) -> Least {
        match self.least.get(place(session, key)) {
            Some(least) => *least,
            None => Least { now: 0, begun: 0 },
        }
    }

    /// Records that no object of a session with a lower sequence number can be met at a key.
    fn raise(&mut self, session: u8, key: u32, sequence: u32) {
        if let Some(least) = self.least.get_mut(place(session, key)) {
            least.now = sequence.max(least.now);
        }
    }

    /// Records the object that is at a key now. Another one that was there, and the session's own older ones, can't
    /// come back.
    fn is_there(&mut self, key: u32, now: Option<Object>) -> Result<(), Wrong> {
        let number = self.session.number;
        let next = self.session.next;
        let Some(known) = self.known.get_mut(key as usize) else {
            return Err(Wrong::NoKey(key));
        };
        let last = mem::replace(&mut known.last, now);
        if let Some(was) = last {
            if now != last {
                self.raise(was.session, key, was.sequence.saturating_add(1));
            }
        }
        match now {
            Some(object) if object.session == number => self.raise(number, key, object.sequence),
            Some(object) => {
                self.raise(number, key, next);
                self.raise(object.session, key, object.sequence);
            }
            None => self.raise(number, key, next),
        }
        Ok(())
    }

    /// Handles that the session looks at a key, and finds an object or none.
    fn looks(&mut self, key: u32, now: Option<Object>) -> Result<(), Wrong> {
        if self.session.owns(key) && self.last(key) != now {
            return Err(Wrong::NotItsOwn(key));
        }
        if let Some(object) = now {
            if object.key != key || !self.session.may_meet(object) {
                return Err(Wrong::NeverPut(object));
            }
            if object.sequence < self.least(object.session, key).now {
                return Err(Wrong::CameBack(object));
            }
        }
        self.is_there(key, now)
    }

    /// Handles that the session inserts an object.
    fn puts(&mut self, object: Object) -> Result<(), Wrong> {
        self.session.makes(object);
        self.writes(object.key, LastWrite::Put(object.sequence));
        self.is_there(object.key, Some(object))
    }

    /// Handles that the session leaves a key without objects.
    fn removes(&mut self, key: u32) -> Result<(), Wrong> {
        self.writes(key, LastWrite::Removal);
        self.is_there(key, None)
    }

    /// Handles that the session deletes an object of its own, if it is there.
    fn removes_object(&mut self, object: Object) -> Result<(), Wrong> {
        let key = object.key;
        if !self.session.may_meet(object) {
            return Ok(());
        }
        if self.last_write(key) == LastWrite::Put(object.sequence) {
            self.writes(key, LastWrite::Removal);
        }
        if self.last(key) == Some(object) {
            return self.is_there(key, None);
        }
        self.raise(object.session, key, object.sequence.saturating_add(1));
        Ok(())
    }

    /// Handles the answer whether a key has an object.
    fn is_told(&mut self, key: u32, there: bool) -> Result<(), Wrong> {
        if self.session.owns(key) && self.last(key).is_some() != there {
            return Err(Wrong::NotItsOwn(key));
        }
        if there {
            return Ok(());
        }
        self.is_there(key, None)
    }

    /// Handles `insert_new` of an object, given whether it was inserted.
    fn puts_new(&mut self, object: Object, fresh: bool) -> Result<(), Wrong> {
        let key = object.key;
        if self.session.owns(key) && self.last(key).is_none() != fresh {
            return Err(Wrong::NotItsOwn(key));
        }
        if fresh {
            return self.puts(object);
        }
        self.session.makes(object);
        Ok(())
    }

    /// Handles a key that a walk meets, which it must not have met before.
    fn meets(&mut self, key: u32) -> Result<(), Wrong> {
        let Some(known) = self.known.get_mut(key as usize) else {
            return Err(Wrong::NoKey(key));
        };
        if known.is_met {
            return Err(Wrong::MetTwice(key));
        }
        known.is_met = true;
        Ok(())
    }

    /// Begins a walk, which has met no key.
    fn begins(&mut self) {
        for known in self.known.iter_mut() {
            known.is_met = false;
        }
        for least in self.least.iter_mut() {
            least.begun = least.now;
        }
    }

    /// Handles an object that a walk gave with its key. It was there at some moment since the walk began.
    fn walks_by(&mut self, object: Object) -> Result<(), Wrong> {
        let key = object.key;
        self.meets(key)?;
        if self.session.owns(key) {
            return self.looks(key, Some(object));
        }
        if !self.session.may_meet(object) {
            return Err(Wrong::NeverPut(object));
        }
        if object.sequence < self.least(object.session, key).begun {
            return Err(Wrong::CameBack(object));
        }
        self.raise(object.session, key, object.sequence);
        Ok(())
    }

    /// Handles the end of a walk. It has met exactly those of the session's own keys that have objects.
    fn ends(&self) -> Result<(), Wrong> {
        for key in self.session.keys() {
            match self.known.get(key as usize) {
                Some(known) if known.is_met == known.last.is_some() => {}
                _ => return Err(Wrong::Missed(key)),
            }
        }
        Ok(())
    }

    /// Returns how many of the session's own keys have an object that passes a test of parity, or any object for
    /// `None`.
    fn counts(&self, parity: Option<u32>) -> u64 {
        let mut count: u64 = 0;
        for key in self.session.keys() {
            if let Some(object) = self.last(key) {
                count = count.saturating_add(u64::from(object.is_of(parity)));
            }
        }
        count
    }

    /// Returns whether the table may have this many objects: at the session's own keys as many as it left, at each
    /// other key at most one.
    fn may_be_all(&self, count: u64) -> bool {
        let own = self.counts(None);
        let others = u64::from(KEYS - OWN);
        own <= count && count <= own.saturating_add(others)
    }

    /// Deletes the session's own objects of a parity. `count` was reported as their number.
    fn removes_all(&mut self, parity: u32, count: u64) -> Result<(), Wrong> {
        if self.counts(Some(parity)) != count {
            return Err(Wrong::Miscounted(count));
        }
        for key in self.session.keys() {
            if let Some(object) = self.last(key) {
                if object.is_of(Some(parity)) {
                    self.removes(key)?;
                }
            }
        }
        Ok(())
    }

    /// Handles that the session deleted `count` objects at the keys whose objects are counted, at most one at each.
    fn clears(&mut self, count: u64) -> Result<(), Wrong> {
        if u64::from(KEYS - COUNTED) < count {
            return Err(Wrong::Miscounted(count));
        }
        for key in COUNTED..KEYS {
            self.removes(key)?;
        }
        Ok(())
    }

    /// Handles an event of a walk or of a query.
    fn walks_on(&mut self, event: Event) -> Result<(), Wrong> {
        match event {
            Event::Begun => {
                self.begins();
                Ok(())
            }
            Event::Walked(object) => self.walks_by(object),
            Event::Met(key) => self.meets(key),
            Event::Ended => self.ends(),
            Event::Counted(count) => check(self.counts(None) == count, Wrong::Miscounted(count)),
            Event::Removed(parity, count) => self.removes_all(parity, count),
            Event::CountedAll(count) => check(self.may_be_all(count), Wrong::Miscounted(count)),
            Event::Cleared(count) => self.clears(count),
            _ => self.session.goes_on(event),
        }
    }

    /// Handles an event.
    fn goes_on(&mut self, event: Event) -> Result<(), Wrong> {
        match event {
            Event::Put(object) => self.puts(object),
            Event::PutNew(object, fresh) => self.puts_new(object, fresh),
            Event::Found(key, object) => self.looks(key, object),
            Event::Asked(key, there) => self.is_told(key, there),
            Event::Deleted(key) => self.removes(key),
            Event::DeletedObject(object) => self.removes_object(object),
            Event::Taken(key, object) => {
                self.looks(key, object)?;
                self.removes(key)
            }
            _ => self.walks_on(event),
        }
    }

    /// Handles all events of the session, and then what is left at each key.
    pub(crate) fn goes_through(&mut self, events: &[Event], left: &[Object]) -> Result<(), Wrong> {
        for event in events {
            self.goes_on(*event)?;
        }
        for key in 0..KEYS {
            self.looks(key, first_at(left, key))?;
        }
        Ok(())
    }
}

/// Returns the index of what is known of a session's objects at a key.
fn place(session: u8, key: u32) -> usize {
    usize::from(session)
        .saturating_mul(KEYS as usize)
        .saturating_add(key as usize)
}
