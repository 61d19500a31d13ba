//! Calls of one turn.
ghost use Rattle.std.specs.Prelude.{◌≡◌, ◌≢◌, Some, IfOk, IfErr};
ghost use Rattle.part_core.specs.Acts.Act.{Insert, InsertNew, Lookup, Member, Delete, DeleteObject, Take};
ghost use Rattle.part_core.specs.Acts.Answer.{Replied};
ghost use Rattle.part_core.specs.Acts.Said.{Nothing, Flag, Objects};
ghost use Rattle.tables.specs.Calls.{TurnedByObject};
ghost use Rattle.tables.specs.Turns.{TurnedByKey};
ghost use Rattle.table_sessions.specs.Own.{Does};
ghost use Rattle.host_session.specs.Host.{IsSame, Stays};
ghost use Rattle.host_session.specs.Once.{StopsByKey, StopsByObject};

use crate::session::HostSession;
use crate::stop::{Stop, stop_once};
use part_core::{Fault, Part};
use std::alloc::Allocator;
use tables::{insert, insert_new, lookup, take, try_delete, try_delete_object, try_member};
use term_core::Term;

impl<P: Part<A> + Drop, A: Allocator> HostSession<P, A> {
    /// Inserts an object; in a set it replaces the one with its key (ets:insert/2). Stops with `TooSmall` if the term is
    /// not a tuple with an element at the key's position, with `Memory`, or with `Busy`; then nothing was done.
    pub fn insert(&mut self, object: Term<A>) -> Result<(), Stop>
        ensures stays { Stays self.old self.new }
        ensures done { IfOk result (λ _. Does self.old.own self.new.own (λ h. TurnedByObject h object (Insert object) (Some (Replied Nothing)))) }
        ensures stopped { IfErr result (λ stop. Does self.old.own self.new.own (λ h. StopsByObject h object (Insert object) stop)) }
    {
        let mut turns = self.own.brief(self.bounds.looks, 1);
        match insert(&mut turns, object) {
            Ok(()) => Ok(()),
            Err(refused) => {
                let fault = refused.fault;
                drop(refused);
                Err(stop_once(fault, turns.halt))
            }
        }
    }

    /// Inserts an object if its key has none, and returns whether it did (ets:insert_new/2). Stops as `insert` does.
    pub fn insert_new(&mut self, object: Term<A>) -> Result<bool, Stop>
        ensures stays { Stays self.old self.new }
        ensures done { IfOk result (λ fresh. Does self.old.own self.new.own (λ h. TurnedByObject h object (InsertNew object) (Some (Replied (Flag fresh))))) }
        ensures stopped { IfErr result (λ stop. Does self.old.own self.new.own (λ h. StopsByObject h object (InsertNew object) stop)) }
    {
        let mut turns = self.own.brief(self.bounds.looks, 1);
        match insert_new(&mut turns, object) {
            Ok(fresh) => Ok(fresh),
            Err(refused) => {
                let fault = refused.fault;
                drop(refused);
                Err(stop_once(fault, turns.halt))
            }
        }
    }

    /// Finds the objects of a key, in the order of insertion; they are the session's answers (ets:lookup/2). Stops with
    /// `Memory` or `Busy`; then nothing was done, and the answers stay.
    pub fn lookup(&mut self, key: &Term<A>) -> Result<(), Stop>
        ensures same { (IsSame self.old self.new) × (self.new.under ≡ self.old.under) }
        ensures done { IfOk result (λ _. Does self.old.own self.new.own (λ h. TurnedByKey h key.now (Lookup key.now) (Some (Replied (Objects self.new.answers.items))))) }
        ensures stopped { IfErr result (λ stop. (self.new.answers ≡ self.old.answers)
            × Does self.old.own self.new.own (λ h. StopsByKey h key.now (Lookup key.now) stop)) }
    {
        let mut turns = self.own.brief(self.bounds.looks, 1);
        match lookup(&mut turns, key) {
            Ok(found) => {
                self.answers = found;
                Ok(())
            }
            Err(_) => Err(stop_once(Fault::Memory, turns.halt)),
        }
    }

    /// Deletes the objects of a key, which are the session's answers, in the order of insertion (ets:take/2). Stops as
    /// `lookup` does.
    pub fn take(&mut self, key: &Term<A>) -> Result<(), Stop>
        ensures same { (IsSame self.old self.new) × (self.new.under ≡ self.old.under) }
        ensures done { IfOk result (λ _. Does self.old.own self.new.own (λ h. TurnedByKey h key.now (Take key.now) (Some (Replied (Objects self.new.answers.items))))) }
        ensures stopped { IfErr result (λ stop. (self.new.answers ≡ self.old.answers)
            × Does self.old.own self.new.own (λ h. StopsByKey h key.now (Take key.now) stop)) }
    {
        let mut turns = self.own.brief(self.bounds.looks, 1);
        match take(&mut turns, key) {
            Ok(found) => {
                self.answers = found;
                Ok(())
            }
            Err(_) => Err(stop_once(Fault::Memory, turns.halt)),
        }
    }

    /// Returns whether a key has an object (ets:member/2). Stops with `Busy`; then nothing was done.
    pub fn member(&mut self, key: &Term<A>) -> Result<bool, Stop>
        ensures stays { Stays self.old self.new }
        ensures done { IfOk result (λ found. Does self.old.own self.new.own (λ h. TurnedByKey h key.now (Member key.now) (Some (Replied (Flag found))))) }
        ensures stopped { IfErr result (λ stop. (stop ≡ Stop.Busy) × Does self.old.own self.new.own (λ h. StopsByKey h key.now (Member key.now) stop)) }
    {
        let mut turns = self.own.brief(self.bounds.looks, 1);
        match try_member(&mut turns, key) {
            Ok(found) => Ok(found),
            Err(_) => Err(Stop::Busy),
        }
    }

    /// Deletes the objects of a key (ets:delete/2). Stops with `Busy`; then nothing was done.
    pub fn delete(&mut self, key: &Term<A>) -> Result<(), Stop>
        ensures stays { Stays self.old self.new }
        ensures done { IfOk result (λ _. Does self.old.own self.new.own (λ h. TurnedByKey h key.now (Delete key.now) (Some (Replied Nothing)))) }
        ensures stopped { IfErr result (λ stop. (stop ≡ Stop.Busy) × Does self.old.own self.new.own (λ h. StopsByKey h key.now (Delete key.now) stop)) }
    {
        let mut turns = self.own.brief(self.bounds.looks, 1);
        match try_delete(&mut turns, key) {
            Ok(()) => Ok(()),
            Err(_) => Err(Stop::Busy),
        }
    }

    /// Deletes the objects that are equal to the given one (ets:delete_object/2). Stops with `TooSmall` if the term is not
    /// a tuple with an element at the key's position, or with `Busy`; then nothing was done.
    pub fn delete_object(&mut self, object: &Term<A>) -> Result<(), Stop>
        ensures stays { Stays self.old self.new }
        ensures done { IfOk result (λ _. Does self.old.own self.new.own (λ h. TurnedByObject h object.now (DeleteObject object.now) (Some (Replied Nothing)))) }
        ensures stopped { IfErr result (λ stop. (stop ≢ Stop.Memory) × Does self.old.own self.new.own (λ h. StopsByObject h object.now (DeleteObject object.now) stop)) }
    {
        let mut turns = self.own.brief(self.bounds.looks, 1);
        match try_delete_object(&mut turns, object) {
            Ok(()) => Ok(()),
            Err(fault) => Err(stop_once(fault, turns.halt)),
        }
    }
}
