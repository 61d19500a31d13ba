//! A session that makes random calls and records the answers.
ghost use Rattle.std.specs.Prelude.{◌≡◌};
ghost use Rattle.kit_members.specs.Members.{AreMembers};

use crate::event::Event;
use crate::keys::{COUNTED, KEYS, OPEN, OWN, Object, key_term, object_of};
use crate::walking::walk;
use kit_rows::was_ok;
use rand::RngExt;
use rand_pcg::Pcg32;
use std::alloc::Global;
use std::sync::Wait;
use std::thread::Threads;
use tables::{Turns, delete, delete_object, insert, insert_new, lookup, member, take};
use term_core::Term;

/// On average one of this many calls is a walk.
const CALLS_OF_A_WALK: u32 = 64;

/// A call at one key.
#[derive(Clone, Copy)]
enum Call {
    Put,
    /// An object is inserted that was inserted before, at the same key or at another.
    PutAgain,
    PutNew,
    Find,
    Ask,
    Delete,
    DeleteObject,
    Take,
}

/// The calls at keys at which sessions write in every way, each as many times as its share.
const CALLS: [Call; 16] = [
    Call::Put,
    Call::Put,
    Call::Put,
    Call::Put,
    Call::Put,
    Call::PutNew,
    Call::PutNew,
    Call::Find,
    Call::Find,
    Call::Find,
    Call::Find,
    Call::Ask,
    Call::Delete,
    Call::DeleteObject,
    Call::DeleteObject,
    Call::Take,
];

/// What a session needs for its calls, and its record.
#[derive(Drop)]
pub(crate) struct Worker {
    pub(crate) number: u8,
    random: Pcg32,
    /// The sequence number of the next object.
    sequence: u32,
    /// Whether the table holds several objects of a key.
    pub(crate) holds_many: bool,
    /// Whether all calls were answered and recorded.
    pub(crate) is_whole: bool,
    pub(crate) events: Vec<Event>,
}

impl Worker {
    /// Returns a session that has made no call. Its calls depend only on the seed, its number and the answers.
    pub(crate) fn new(alloc: Global, seed: u64, number: u8, holds_many: bool) -> Worker {
        Worker {
            number,
            random: Pcg32::new(seed, u64::from(number)),
            sequence: 0,
            holds_many,
            is_whole: true,
            events: Vec::new(alloc),
        }
    }

    /// Returns a random number below `bound`, or 0 if `bound` is 0.
    pub(crate) fn below(&mut self, bound: u32) -> u32 {
        self.random.random_range(0..bound.max(1))
    }

    /// Records an event.
    pub(crate) fn record(&mut self, event: Event) -> Option<()> {
        self.events.push(event).ok()
    }

    /// Records the objects of a list that was found or taken.
    fn record_items(&mut self, objects: &[Term], are_taken: bool) -> Option<()> {
        for object in objects {
            let object = Object::of_term(object)?;
            self.record(if are_taken {
                Event::ItemTaken(object)
            } else {
                Event::Item(object)
            })?;
        }
        Some(())
    }

    /// Records what was found at a key.
    pub(crate) fn record_found(&mut self, key: u32, found: &[Term]) -> Option<()> {
        if self.holds_many {
            self.record_items(found, false)?;
            return self.record(Event::Listed(key));
        }
        let object = object_of(found)?;
        self.record(Event::Found(key, object))
    }

    /// Records what was taken at a key.
    pub(crate) fn record_taken(&mut self, key: u32, taken: &[Term]) -> Option<()> {
        if self.holds_many {
            self.record_items(taken, true)?;
            return self.record(Event::TakenAll(key));
        }
        let object = object_of(taken)?;
        self.record(Event::Taken(key, object))
    }

    /// Returns how many of `calls` calls the session makes. One of four sessions without members leaves early, after at
    /// least half of them.
    fn share(&mut self, calls: u32, is_alone: bool) -> u32 {
        if is_alone && self.below(4) == 0 {
            self.below(calls).max(calls / 2)
        } else {
            calls
        }
    }

    /// Returns a new object at a key.
    fn object(&mut self, key: u32) -> Object {
        let sequence = self.sequence;
        self.sequence = sequence.saturating_add(1);
        Object {
            key,
            session: self.number,
            sequence,
        }
    }

    /// Returns an object of the session's own at a key that may have been inserted: one of its last 200 sequence
    /// numbers.
    fn earlier(&mut self, key: u32) -> Object {
        let back = self.below(200);
        Object {
            key,
            session: self.number,
            sequence: self.sequence.saturating_sub(back),
        }
    }

    /// Returns one of the session's own keys.
    pub(crate) fn own_key(&mut self) -> u32 {
        let place = self.below(OWN);
        u32::from(self.number)
            .saturating_mul(OWN)
            .saturating_add(place)
    }

    /// Returns a call for keys at which sessions write in every way.
    fn any_call(&mut self) -> Call {
        let choice = self.below(16) as usize;
        match CALLS.get(choice) {
            Some(call) => *call,
            None => Call::Find,
        }
    }

    /// Returns a call and a key at which other sessions write, too.
    fn shared_call(&mut self) -> (Call, u32) {
        match self.below(8) {
            0 => (
                Call::PutNew,
                COUNTED.saturating_add(self.below(KEYS - COUNTED)),
            ),
            1 => (
                Call::Take,
                COUNTED.saturating_add(self.below(KEYS - COUNTED)),
            ),
            2 => (Call::Find, self.below(KEYS)),
            _ => {
                let call = self.any_call();
                (call, OPEN.saturating_add(self.below(COUNTED - OPEN)))
            }
        }
    }

    /// Returns a call and a key, of the session's own or of all.
    fn any_key_call(&mut self) -> (Call, u32) {
        if self.below(2) != 0 {
            return self.shared_call();
        }
        let key = self.own_key();
        if self.holds_many && self.below(4) == 0 {
            (Call::PutAgain, key)
        } else {
            (self.any_call(), key)
        }
    }

    /// Makes a call at a key, and records it.
    fn call<T: Turns<Global>>(
        &mut self,
        alloc: Global,
        turns: &mut T,
        call: Call,
        key: u32,
    ) -> Option<()>
        requires { T.is_ready turns.old }
        ensures ready { T.is_ready turns.new }
        ensures same { T.home turns.new ≡ T.home turns.old }
    {
        match call {
            Call::Put => {
                let object = self.object(key);
                self.put(alloc, turns, object, Event::Put(object))
            }
            Call::PutAgain => {
                let object = self.earlier(key);
                self.put(alloc, turns, object, Event::PutAgain(object))
            }
            Call::PutNew => self.put_new(alloc, turns, key),
            Call::DeleteObject => self.delete_object(alloc, turns, key),
            Call::Find | Call::Ask | Call::Delete | Call::Take => self.call_by_key(
                turns, call, key,
            ),
        }
    }

    /// Inserts an object, and records this event.
    fn put<T: Turns<Global>>(
        &mut self,
        alloc: Global,
        turns: &mut T,
        object: Object,
        event: Event,
    ) -> Option<()>
        requires { T.is_ready turns.old }
        ensures ready { T.is_ready turns.new }
        ensures same { T.home turns.new ≡ T.home turns.old }
    {
        let term = object.term(alloc)?;
        if was_ok(insert(turns, term)) {
            self.record(event)
        } else {
            None
        }
    }

    fn put_new<T: Turns<Global>>(&mut self, alloc: Global, turns: &mut T, key: u32) -> Option<()>
        requires { T.is_ready turns.old }
        ensures ready { T.is_ready turns.new }
        ensures same { T.home turns.new ≡ T.home turns.old }
    {
        let object = self.object(key);
        let term = object.term(alloc)?;
        let fresh = insert_new(turns, term).ok()?;
        self.record(Event::PutNew(object, fresh))
    }

    fn delete_object<T: Turns<Global>>(
        &mut self,
        alloc: Global,
        turns: &mut T,
        key: u32,
    ) -> Option<()>
        requires { T.is_ready turns.old }
        ensures ready { T.is_ready turns.new }
        ensures same { T.home turns.new ≡ T.home turns.old }
    {
        let object = self.earlier(key);
        let term = object.term(alloc)?;
        let is_done = delete_object(turns, &term).is_ok();
        drop(term);
        if is_done {
            self.record(Event::DeletedObject(object))
        } else {
            None
        }
    }

    /// Makes a call that names a key alone, and records the answer.
    fn call_by_key<T: Turns<Global>>(&mut self, turns: &mut T, call: Call, key: u32) -> Option<()>
        requires { T.is_ready turns.old }
        ensures ready { T.is_ready turns.new }
        ensures same { T.home turns.new ≡ T.home turns.old }
    {
        let term = key_term(key);
        let recorded = self.call_by_term(turns, call, key, &term);
        drop(term);
        recorded
    }

    /// Makes a call that names a key alone, given as this term, and records the answer.
    fn call_by_term<T: Turns<Global>>(
        &mut self,
        turns: &mut T,
        call: Call,
        key: u32,
        term: &Term,
    ) -> Option<()>
        requires { T.is_ready turns.old }
        ensures ready { T.is_ready turns.new }
        ensures same { T.home turns.new ≡ T.home turns.old }
    {
        match call {
            Call::Ask => {
                let there = member(turns, term);
                self.record(Event::Asked(key, there))
            }
            Call::Delete => {
                delete(turns, term);
                self.record(Event::Deleted(key))
            }
            Call::Take => {
                let taken = take(turns, term).ok()?;
                let recorded = self.record_taken(key, taken.as_slice());
                drop(taken);
                recorded
            }
            _ => {
                let found = lookup(turns, term).ok()?;
                let recorded = self.record_found(key, found.as_slice());
                drop(found);
                recorded
            }
        }
    }

    /// Makes a call at a key at which other sessions write, too.
    pub(crate) fn call_at_shared_key<T: Turns<Global>>(
        &mut self,
        alloc: Global,
        turns: &mut T,
    ) -> Option<()>
        requires { T.is_ready turns.old }
        ensures ready { T.is_ready turns.new }
        ensures same { T.home turns.new ≡ T.home turns.old }
    {
        let (call, key) = self.shared_call();
        self.call(alloc, turns, call, key)
    }

    /// Makes `calls` random calls; without members it may leave early. Walks are made by members if there are any.
    pub(crate) fn run<R: Threads + Wait + Sync, T: Turns<Global>, M: Turns<Global> + Send>(
        &mut self,
        rt: &R,
        alloc: Global,
        turns: &mut T,
        members: &mut [M],
        calls: u32,
    ) -> Option<()>
        requires ready { T.is_ready turns.old }
        requires members { AreMembers M.is_ready M.home members.old }
        ensures ready { T.is_ready turns.new }
        ensures same { T.home turns.new ≡ T.home turns.old }
    {
        let calls = self.share(calls, members.is_empty());
        for _call in 0..calls {
            if self.below(CALLS_OF_A_WALK) == 0 {
                walk(rt, alloc, turns, members, self)?;
            } else {
                let (call, key) = self.any_key_call();
                self.call(alloc, turns, call, key)?;
            }
        }
        Some(())
    }
}
