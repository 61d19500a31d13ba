//! Operations that write at one key.
ghost use Rattle.std.specs.Prelude.{ℕ, ◌≡◌, ◌<◌, Some, None, IfErr, OnOk, OnErr, unwrap_or, if◌then◌else◌};
ghost use Rattle.term_core.specs.Datum.Datum.{nil};
ghost use Rattle.part_core.specs.Acts.Act.{Insert, InsertNew, Delete, DeleteObject, Take};
ghost use Rattle.part_core.specs.Acts.Answer.{Replied};
ghost use Rattle.part_core.specs.Ops.{answer_in, said_of};
ghost use Rattle.part_core.specs.Rows.{is_fixed};
ghost use Rattle.part_rows.specs.Shown.{Shown};
ghost use Rattle.part_engine.specs.Stored.{Leads};

use crate::stored::StoredPart;
use part_core::{Fault, Held, Reply, is_fixed, key_in};
use part_rows::{Rows, exchange_counted, put_counted};
use std::alloc::Allocator;
use term_core::Term;

impl<R: Rows<A> + Drop, A: Allocator> StoredPart<R, A> {
    /// Returns the base of walks that begin: the number of slots, or the base that the part has while some session
    /// fixes it.
    fn base_now(&self) -> u32
        ensures base { (w : Shown) → R.shows self.now.settings self.now.rows w
            → result ≡ (if is_fixed self.now.fixes.items then self.now.base else w.slots) }
        ensures some { 0 < result }
    {
        if is_fixed(self.fixes.as_slice()) {
            self.base
        } else {
            self.rows.slots()
        }
    }

    /// Inserts an object: in a set it replaces the one with its key, in a bag it is added to those. Fails, with nothing
    /// changed, if the term is no object or an allocation fails.
    pub(crate) fn insert(&mut self, object: &mut Option<Term<A>>) -> Result<Reply<A>, Fault>
        ensures settings { self.new.settings ≡ self.old.settings }
        ensures leads { (n : ℕ)
            → Leads R.shows self.old n (Insert (unwrap_or object.old nil)) (answer_in result) self.new }
        ensures spent { OnOk result (object.new ≡ None) }
        ensures back { OnErr result (object.new ≡ object.old) }
    {
        put_counted(&mut self.rows, &mut self.dead, self.settings, object, true)?;
        self.base = self.base_now();
        Ok(Reply::Done)
    }

    /// Inserts an object if its key has none, and returns whether it did. Fails, with nothing changed, if the term is
    /// no object or an allocation fails.
    pub(crate) fn insert_new(&mut self, object: &mut Option<Term<A>>) -> Result<Reply<A>, Fault>
        ensures settings { self.new.settings ≡ self.old.settings }
        ensures leads { (n : ℕ)
            → Leads R.shows self.old n (InsertNew (unwrap_or object.old nil)) (answer_in result) self.new }
        ensures spent { OnOk result (object.new ≡ None) }
        ensures back { OnErr result (object.new ≡ object.old) }
    {
        let fresh = put_counted(&mut self.rows, &mut self.dead, self.settings, object, false)?;
        self.base = self.base_now();
        Ok(Reply::Flag(fresh))
    }

    /// Deletes the objects of a key.
    pub(crate) fn delete(&mut self, key: &Term<A>) -> Reply<A>
        ensures settings { self.new.settings ≡ self.old.settings }
        ensures leads { (n : ℕ) → Leads R.shows self.old n (Delete key.now) (Some (Replied (said_of result))) self.new }
    {
        let keeps = is_fixed(self.fixes.as_slice());
        let mut held = Held::none();
        exchange_counted(
            &mut self.rows,
            &mut self.dead,
            self.settings,
            key,
            &mut held,
            keeps,
        );
        drop(held);
        Reply::Done
    }

    /// Deletes the objects that are equal to the given one. Fails if the term is no object.
    pub(crate) fn delete_object(&mut self, object: &Term<A>) -> Result<Reply<A>, Fault>
        ensures settings { self.new.settings ≡ self.old.settings }
        ensures leads { (n : ℕ) → Leads R.shows self.old n (DeleteObject object.now) (answer_in result) self.new }
        ensures refused { IfErr result (λ fault. fault ≡ Fault.TooSmall) }
    {
        let Some(key) = key_in(self.settings.keypos, object) else {
            return Err(Fault::TooSmall);
        };
        let keeps = is_fixed(self.fixes.as_slice());
        let mut held = Held::none();
        let is_there = exchange_counted(
            &mut self.rows,
            &mut self.dead,
            self.settings,
            key,
            &mut held,
            true,
        );
        if !is_there {
            drop(held);
            return Ok(Reply::Done);
        }
        held.remove(object);
        exchange_counted(
            &mut self.rows,
            &mut self.dead,
            self.settings,
            key,
            &mut held,
            keeps,
        );
        drop(held);
        Ok(Reply::Done)
    }
}

impl<R: Rows<A> + Drop, A: Allocator + Copy> StoredPart<R, A> {
    /// Deletes the objects of a key and returns them. Fails, with nothing changed, if an allocation fails.
    pub(crate) fn take(&mut self, key: &Term<A>) -> Result<Reply<A>, Fault>
        ensures settings { self.new.settings ≡ self.old.settings }
        ensures leads { (n : ℕ) → Leads R.shows self.old n (Take key.now) (answer_in result) self.new }
    {
        let objects = self.objects_of(key)?;
        let keeps = is_fixed(self.fixes.as_slice());
        let mut held = Held::none();
        exchange_counted(
            &mut self.rows,
            &mut self.dead,
            self.settings,
            key,
            &mut held,
            keeps,
        );
        drop(held);
        Ok(Reply::Objects(objects))
    }
}
