//! Compares the answers to a session of a bag with a replay of its own calls and with what it could know of the others'
//! calls. At its own keys each list is known. At other keys an object that was deleted never comes back, since none is
//! inserted twice.
use crate::event::Event;
use crate::keys::{COUNTED, KEYS, Object, owner};
use crate::puts::{Caller, Puts};
use crate::wrong::{Wrong, check};
use part_core::TableKind;
use std::alloc::Global;
use std::mem;

/// A replay of the events of a session of a bag.
#[derive(Drop)]
pub(crate) struct BagReplay<'a> {
    session: Caller<'a>,
    kind: TableKind,
    /// The objects that are there at the session's own keys, and at other keys those that it saw or inserted and that
    /// may still be there. Those of a key are in their order.
    there: Vec<Object>,
    /// The objects of other keys, while those of one key are replaced.
    kept: Vec<Object>,
    /// At which event each object was deleted, if it was.
    gone: Vec<Option<u32>>,
    /// The objects of a list that is being read.
    items: Vec<Object>,
    /// The objects, and below the keys, that the current walk has met.
    walked: Vec<Object>,
    toured: Vec<u32>,
    /// The number of events so far, and below the number when the current walk began.
    time: u32,
    begun: u32,
}

/// Returns how many times an object is in a list.
fn times(objects: &[Object], object: Object) -> usize {
    let mut count: usize = 0;
    for present in objects {
        count = count.saturating_add(usize::from(*present == object));
    }
    count
}

/// Returns how many objects of a key are in a list.
fn count_at(objects: &[Object], key: u32) -> usize {
    let mut count: usize = 0;
    for present in objects {
        count = count.saturating_add(usize::from(present.key == key));
    }
    count
}

/// Returns whether the objects of a key in a list are these, in their order.
fn are_at(objects: &[Object], key: u32, items: &[Object]) -> bool {
    let mut count: usize = 0;
    for present in objects {
        if present.key == key {
            if items.get(count) != Some(present) {
                return false;
            }
            count = count.saturating_add(1);
        }
    }
    count == items.len()
}

/// Checks that objects at a key at which one session alone writes are objects of that session.
fn are_of_owner(key: u32, objects: &[Object]) -> Result<(), Wrong> {
    for object in objects {
        if object.key != key || owner(key) != Some(object.session) {
            return Err(Wrong::NeverPut(*object));
        }
    }
    Ok(())
}

/// Records that an object was deleted at this event, if it was not deleted before.
fn goes(gone: &mut [Option<u32>], puts: &Puts, object: Object, time: u32) {
    if let Some(place) = puts.place(object) {
        if let Some(at) = gone.get_mut(place) {
            if at.is_none() {
                *at = Some(time);
            }
        }
    }
}

/// Appends an object. Fails with `NoMemory`.
fn push(objects: &mut Vec<Object>, object: Object) -> Result<(), Wrong> {
    check(objects.push(object).is_ok(), Wrong::NoMemory)
}

impl<'a> BagReplay<'a> {
    /// Returns a replay without events, of a session among those that made the objects, or `None` if memory runs out.
    pub(crate) fn new(
        alloc: Global,
        number: u8,
        kind: TableKind,
        puts: &'a Puts,
    ) -> Option<BagReplay<'a>> {
        let Ok(gone) = Vec::from_elem(alloc, None, puts.keys.len()) else {
            return None;
        };
        Some(BagReplay {
            session: Caller::new(number, puts),
            kind,
            there: Vec::new(alloc),
            kept: Vec::new(alloc),
            gone,
            items: Vec::new(alloc),
            walked: Vec::new(alloc),
            toured: Vec::new(alloc),
            time: 0,
            begun: 0,
        })
    }

    /// Returns whether a key has no objects.
    fn is_empty(&self, key: u32) -> bool {
        count_at(self.there.as_slice(), key) == 0
    }

    /// Returns whether another session alone writes at a key. Objects may be inserted there again, and nothing is known
    /// of them here.
    fn is_of_another(&self, key: u32) -> bool {
        match owner(key) {
            Some(number) => number != self.session.number,
            None => false,
        }
    }

    /// Makes the objects that were read last (none if none were) those at a key now. An object that was there before
    /// and is not among them is deleted.
    fn replaces(&mut self, key: u32) -> Result<(), Wrong> {
        if KEYS <= key {
            return Err(Wrong::NoKey(key));
        }
        let is_shared = !self.session.owns(key);
        for object in self.there.as_slice() {
            if object.key != key {
                push(&mut self.kept, *object)?;
            } else if is_shared && times(self.items.as_slice(), *object) == 0 {
                goes(
                    self.gone.as_mut_slice(),
                    self.session.puts,
                    *object,
                    self.time,
                );
            }
        }
        mem::swap(&mut self.there, &mut self.kept);
        self.kept.clear();
        let come = self.there.extend_from_slice(self.items.as_slice()).is_ok();
        self.items.clear();
        check(come, Wrong::NoMemory)
    }

    /// Checks that an object that others may write, too, was there at some moment after the event `since`, or may be
    /// there now.
    fn may_be_there(&self, object: Object, since: u32) -> Result<(), Wrong> {
        let Some(place) = self.session.puts.place(object) else {
            return Err(Wrong::NeverPut(object));
        };
        if !self.session.may_meet(object) {
            return Err(Wrong::NeverPut(object));
        }
        match self.gone.get(place) {
            Some(Some(at)) if *at <= since => Err(Wrong::CameBack(object)),
            _ => Ok(()),
        }
    }

    /// Checks that the objects that were read may be those at a key at which others write, too.
    fn may_list(&self, key: u32) -> Result<(), Wrong> {
        for object in self.items.as_slice() {
            if object.key != key || times(self.items.as_slice(), *object) != 1 {
                return Err(Wrong::NeverPut(*object));
            }
            self.may_be_there(*object, self.time)?;
        }
        Ok(())
    }

    /// Handles the event that the objects that were read last are those at a key.
    fn lists(&mut self, key: u32) -> Result<(), Wrong> {
        if self.is_of_another(key) {
            let listed = are_of_owner(key, self.items.as_slice());
            self.items.clear();
            return listed;
        }
        if !self.session.owns(key) {
            self.may_list(key)?;
        } else if !are_at(self.there.as_slice(), key, self.items.as_slice()) {
            return Err(Wrong::NotItsOwn(key));
        }
        self.replaces(key)
    }

    /// Inserts an object after those of its key. In a bag this changes nothing if an equal object is there.
    fn puts(&mut self, object: Object) -> Result<(), Wrong> {
        if KEYS <= object.key {
            return Err(Wrong::NoKey(object.key));
        }
        if self.kind == TableKind::Bag && times(self.there.as_slice(), object) != 0 {
            return Ok(());
        }
        push(&mut self.there, object)
    }

    /// Handles `insert_new` of an object, given whether it was inserted.
    fn puts_new(&mut self, object: Object, fresh: bool) -> Result<(), Wrong> {
        let key = object.key;
        self.session.makes(object);
        if self.session.owns(key) && self.is_empty(key) != fresh {
            return Err(Wrong::NotItsOwn(key));
        }
        if !fresh {
            return Ok(());
        }
        self.replaces(key)?;
        push(&mut self.there, object)
    }

    /// Handles the answer whether a key has an object.
    fn is_told(&mut self, key: u32, there: bool) -> Result<(), Wrong> {
        if self.session.owns(key) && self.is_empty(key) == there {
            return Err(Wrong::NotItsOwn(key));
        }
        if there {
            return Ok(());
        }
        self.replaces(key)
    }

    /// Deletes an object of the session's own and all that are equal to it, if it is there.
    fn removes_object(&mut self, object: Object) -> Result<(), Wrong> {
        if !self.session.owns(object.key) && self.session.may_meet(object) {
            goes(
                self.gone.as_mut_slice(),
                self.session.puts,
                object,
                self.time,
            );
        }
        for present in self.there.as_slice() {
            if present.key == object.key && *present != object {
                push(&mut self.items, *present)?;
            }
        }
        self.replaces(object.key)
    }

    /// Begins a walk.
    fn begins(&mut self) {
        self.begun = self.time;
        self.walked.clear();
        self.toured.clear();
    }

    /// Handles an object that a walk gave. It was there at some moment since the walk began, and is given at most as
    /// many times as it is there.
    fn walks_by(&mut self, object: Object) -> Result<(), Wrong> {
        let key = object.key;
        if self.is_of_another(key) {
            return are_of_owner(key, &[object]);
        }
        let mut most: usize = 1;
        if self.session.owns(key) {
            most = times(self.there.as_slice(), object);
        } else {
            self.may_be_there(object, self.begun)?;
        }
        if most == 0 {
            return Err(Wrong::NotItsOwn(key));
        }
        if most <= times(self.walked.as_slice(), object) {
            return Err(Wrong::MetTwice(key));
        }
        push(&mut self.walked, object)
    }

    /// Returns whether the tour met a key.
    fn is_toured(&self, key: u32) -> bool {
        for met in self.toured.as_slice() {
            if *met == key {
                return true;
            }
        }
        false
    }

    /// Handles a key that a tour meets, which it must not have met before.
    fn meets(&mut self, key: u32) -> Result<(), Wrong> {
        if self.is_toured(key) {
            return Err(Wrong::MetTwice(key));
        }
        check(self.toured.push(key).is_ok(), Wrong::NoMemory)
    }

    /// Handles the end of a walk. It has met all objects of the session's own keys or, if it was a tour, each of these
    /// keys that has objects.
    fn ends(&self) -> Result<(), Wrong> {
        for key in self.session.keys() {
            let there = count_at(self.there.as_slice(), key);
            let is_met = if self.toured.is_empty() {
                count_at(self.walked.as_slice(), key) == there
            } else {
                self.is_toured(key) != (there == 0)
            };
            if !is_met {
                return Err(Wrong::Missed(key));
            }
        }
        Ok(())
    }

    /// Returns how many of the session's own objects pass a test of parity, or all of them for `None`.
    fn counts(&self, parity: Option<u32>) -> u64 {
        let mut count: u64 = 0;
        for object in self.there.as_slice() {
            if self.session.owns(object.key) {
                count = count.saturating_add(u64::from(object.is_of(parity)));
            }
        }
        count
    }

    /// Deletes the session's own objects of a parity at a key, and keeps the others.
    fn removes_at(&mut self, key: u32, parity: u32) -> Result<(), Wrong> {
        for present in self.there.as_slice() {
            if present.key == key && !present.is_of(Some(parity)) {
                push(&mut self.items, *present)?;
            }
        }
        self.replaces(key)
    }

    /// Deletes the session's own objects of a parity at each of its keys. `count` was reported as their number.
    fn removes_all(&mut self, parity: u32, count: u64) -> Result<(), Wrong> {
        if self.counts(Some(parity)) != count {
            return Err(Wrong::Miscounted(count));
        }
        for key in self.session.keys() {
            self.removes_at(key, parity)?;
        }
        Ok(())
    }

    /// Handles that the session deleted `count` objects at the keys whose objects are counted, at most one at each.
    fn clears(&mut self, count: u64) -> Result<(), Wrong> {
        if u64::from(KEYS - COUNTED) < count {
            return Err(Wrong::Miscounted(count));
        }
        for key in COUNTED..KEYS {
            self.replaces(key)?;
        }
        Ok(())
    }

    /// Handles an event of a walk or of a query.
    fn walks_on(&mut self, event: Event) -> Result<(), Wrong> {
        match event {
            Event::Begun => {
                self.begins();
                Ok(())
            }
            Event::Walked(object) => self.walks_by(object),
            Event::Met(key) => self.meets(key),
            Event::Ended => self.ends(),
            Event::Counted(count) => check(self.counts(None) == count, Wrong::Miscounted(count)),
            Event::Removed(parity, count) => self.removes_all(parity, count),
            Event::CountedAll(count) => check(self.counts(None) <= count, Wrong::Miscounted(count)),
            Event::Cleared(count) => self.clears(count),
            _ => self.session.goes_on(event),
        }
    }

    /// Handles an event.
    fn goes_on(&mut self, event: Event) -> Result<(), Wrong> {
        self.time = self.time.saturating_add(1);
        match event {
            Event::Put(object) => {
                self.session.makes(object);
                self.puts(object)
            }
            Event::PutAgain(object) => self.puts(object),
            Event::PutNew(object, fresh) => self.puts_new(object, fresh),
            Event::Item(object) | Event::ItemTaken(object) => push(&mut self.items, object),
            Event::Listed(key) => self.lists(key),
            Event::TakenAll(key) => {
                self.lists(key)?;
                self.replaces(key)
            }
            Event::Asked(key, there) => self.is_told(key, there),
            Event::Deleted(key) => self.replaces(key),
            Event::DeletedObject(object) => self.removes_object(object),
            _ => self.walks_on(event),
        }
    }

    /// Handles all events of the session, and then what is left at each key.
    pub(crate) fn goes_through(&mut self, events: &[Event], left: &[Object]) -> Result<(), Wrong> {
        for event in events {
            self.goes_on(*event)?;
        }
        for key in 0..KEYS {
            self.looks_at(key, left)?;
        }
        Ok(())
    }

    /// Handles what is left at a key.
    fn looks_at(&mut self, key: u32, left: &[Object]) -> Result<(), Wrong> {
        for object in left {
            if object.key == key {
                self.goes_on(Event::Item(*object))?;
            }
        }
        self.goes_on(Event::Listed(key))
    }
}
