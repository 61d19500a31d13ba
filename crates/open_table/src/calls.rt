//! Calls with objects and keys.
use crate::table::OpenTable;
use part_core::{Fault, Part};
use std::alloc::{AllocError, Allocator};
use tables::{
    delete, delete_object, fix, insert, insert_new, lookup, member, release, take, unfix,
};
use term_core::{Refused, Term};
use walks::{first, next};

impl<S: Part<A> + Drop, O: Part<A> + Drop, A: Allocator + Copy> OpenTable<S, O, A> {
    ghost use Rattle.std.specs.Prelude.{◌≡◌, IfOk, IfErr};
    ghost use Rattle.part_core.specs.Acts.Act.{Insert, InsertNew, Lookup, Member, Delete, DeleteObject, Take};
    ghost use Rattle.part_core.specs.Acts.Said.{Nothing, Flag, Objects, AtKey};
    ghost use Rattle.walks.specs.OneThread.{first_key};
    ghost use Rattle.open_table.specs.Calls.{at_key, at_object, fixing, following, refused_by, releasing, replied, unfixing};
    ghost use Rattle.open_table.specs.Shows.{Does, IsSame, Reads, Stays};

    /// Inserts an object (ets:insert/2). In a set or an ordered set it replaces the object of its key. Fails with
    /// `TooSmall` if the term is not a tuple with an element at the key's position, or with `Memory`. The error hands the
    /// object back, with the table as it was.
    pub fn insert(&mut self, object: Term<A>) -> Result<(), Refused<Term<A>, Fault>>
        ensures same { IsSame self.old self.new }
        ensures done { IfOk result (λ _. Does self.old self.new
            (at_object self.old.session object (Insert object)) (replied Nothing)) }
        ensures refused { IfErr result (λ r. Does self.old self.new
            (at_object self.old.session object (Insert object)) (refused_by r.fault)) }
        ensures back { IfErr result (λ r. r.value ≡ object) }
    {
        insert(self, object)
    }

    /// Inserts an object if its key has none, and returns whether it did (ets:insert_new/2). Fails as `insert` does.
    pub fn insert_new(&mut self, object: Term<A>) -> Result<bool, Refused<Term<A>, Fault>>
        ensures same { IsSame self.old self.new }
        ensures done { IfOk result (λ fresh. Does self.old self.new
            (at_object self.old.session object (InsertNew object)) (replied (Flag fresh))) }
        ensures refused { IfErr result (λ r. Does self.old self.new
            (at_object self.old.session object (InsertNew object)) (refused_by r.fault)) }
        ensures back { IfErr result (λ r. r.value ≡ object) }
    {
        insert_new(self, object)
    }

    /// Returns the objects of a key in the order of insertion (ets:lookup/2). Fails if an allocation fails.
    pub fn lookup(&mut self, key: &Term<A>) -> Result<Vec<Term<A>, A>, AllocError>
        ensures same { IsSame self.old self.new }
        ensures done { IfOk result (λ found. Does self.old self.new
            (at_key self.old.session key.now (Lookup key.now)) (replied (Objects found.items))) }
        ensures refused { IfErr result (λ _. Stays self.old self.new) }
    {
        lookup(self, key)
    }

    /// Returns whether a key has an object (ets:member/2).
    pub fn member(&mut self, key: &Term<A>) -> bool
        ensures same { IsSame self.old self.new }
        ensures done { Does self.old self.new
            (at_key self.old.session key.now (Member key.now)) (replied (Flag result)) }
    {
        member(self, key)
    }

    /// Deletes the objects of a key (ets:delete/2).
    pub fn delete(&mut self, key: &Term<A>)
        ensures same { IsSame self.old self.new }
        ensures done { Does self.old self.new
            (at_key self.old.session key.now (Delete key.now)) (replied Nothing) }
    {
        delete(self, key);
    }

    /// Deletes the objects that are equal to the given one (ets:delete_object/2). Fails with `TooSmall` if the term is not
    /// a tuple with an element at the key's position.
    pub fn delete_object(&mut self, object: &Term<A>) -> Result<(), Fault>
        ensures same { IsSame self.old self.new }
        ensures done { IfOk result (λ _. Does self.old self.new
            (at_object self.old.session object.now (DeleteObject object.now)) (replied Nothing)) }
        ensures refused { IfErr result (λ fault. (fault ≡ Fault.TooSmall) × Does self.old self.new
            (at_object self.old.session object.now (DeleteObject object.now)) (refused_by fault)) }
    {
        delete_object(self, object)
    }

    /// Deletes the objects of a key, and returns them in the order of insertion (ets:take/2). Fails, with nothing deleted,
    /// if an allocation fails.
    pub fn take(&mut self, key: &Term<A>) -> Result<Vec<Term<A>, A>, AllocError>
        ensures same { IsSame self.old self.new }
        ensures done { IfOk result (λ found. Does self.old self.new
            (at_key self.old.session key.now (Take key.now)) (replied (Objects found.items))) }
        ensures refused { IfErr result (λ _. Stays self.old self.new) }
    {
        take(self, key)
    }

    /// Fixes the table once more (ets:safe_fixtable/2), so that a walk by `first` and `next` meets each key that stays.
    /// Fails with `FixLimit` if the session fixes it 65,535 times already.
    pub fn fix(&mut self) -> Result<(), Fault>
        ensures same { IsSame self.old self.new }
        ensures done { IfOk result (λ _. Does self.old self.new (fixing self.old.session) (replied Nothing)) }
        ensures refused { IfErr result (λ fault. (fault ≡ Fault.FixLimit) × Does self.old self.new
            (fixing self.old.session) (refused_by fault)) }
    {
        fix(self)
    }

    /// Releases one fix of the session (ets:safe_fixtable/2). Fails with `NotFixed` if it has none.
    pub fn unfix(&mut self) -> Result<(), Fault>
        ensures same { IsSame self.old self.new }
        ensures done { IfOk result (λ _. Does self.old self.new (unfixing self.old.session) (replied Nothing)) }
        ensures refused { IfErr result (λ fault. (fault ≡ Fault.NotFixed) × Does self.old self.new
            (unfixing self.old.session) (refused_by fault)) }
    {
        unfix(self)
    }

    /// Releases all fixes of the session.
    pub fn release(&mut self)
        ensures same { IsSame self.old self.new }
        ensures done { Does self.old self.new (releasing self.old.session) (replied Nothing) }
    {
        release(self);
    }

    /// Returns the first key in walk order, or `None` for a table without objects (ets:first/1). Fails if an allocation
    /// fails.
    pub fn first(&mut self) -> Result<Option<Term<A>>, AllocError>
        ensures same { IsSame self.old self.new }
        ensures done { IfOk result (λ key. Reads self.old self.new (λ t. key ≡ first_key t)) }
        ensures refused { IfErr result (λ _. Stays self.old self.new) }
    {
        first(self)
    }

    /// Returns the key after another in walk order that has objects, or `None` at the end (ets:next/2). In a set or a bag
    /// the other key must have a row, which it keeps while the table is fixed; otherwise fails with `BadKey`. Also fails if
    /// an allocation fails.
    pub fn next(&mut self, key: &Term<A>) -> Result<Option<Term<A>>, Fault>
        ensures same { IsSame self.old self.new }
        ensures done { IfOk result (λ next. Does self.old self.new
            (following self.old.session key.now) (replied (AtKey next))) }
        ensures refused { IfErr result (λ fault. Does self.old self.new
            (following self.old.session key.now) (refused_by fault)) }
    {
        next(self, key)
    }
}
