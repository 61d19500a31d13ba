//! A row of a table that isn't walked in key order, which stores the hash of its key.
ghost use Rattle.std.specs.Prelude.{◌≡◌, ◌<◌, ◌/◌, ◌%◌};

use part_core::{Held, Settings, TableKind};
use part_rows::SeenRow;
use std::alloc::{AllocError, Allocator};
use std::marker::Model;
use std::mem;
use term_core::Term;

/// A key, its hash, and the objects held at it.
#[derive(Drop)]
pub struct HashedRow<A: Allocator> {
    key: Term<A>,
    hash: u64,
    held: Held<A>,
}

impl<A: Allocator> Model for HashedRow<A> {
    ghost use Rattle.std.specs.Prelude.{◌≡◌, List};
    ghost use Rattle.std.specs.Coded.{codes};
    ghost use Rattle.term_core.specs.Datum.{Datum};
    ghost use Rattle.term_core.specs.DatumCode.{datum_code};
    ghost use Rattle.term_core.specs.KeyHash.{key_hash};

    ghost Value = { Datum × List Datum };

    ghost coded = { Prim.hlevel (codes, datum_code) };

    ghost view = { λ r. (r.key, r.held) };

    ghost invariant = { λ r. r.hash ≡ key_hash r.key };
}

/// Returns the class of a key by a base, given the key's hash.
pub fn class_of(settings: Settings, base: u64, hash: u64) -> u64
    requires parts { 0 < settings.parts }
    requires base { 0 < base }
    ensures value { result ≡ (hash / settings.parts) % base }
    ensures within { result < base }
{
    (hash / u64::from(settings.parts)) % base
}

impl<A: Allocator> HashedRow<A> {
    ghost use Rattle.std.specs.Prelude.{◌≡◌, ◌<◌, ◌==◌, []};
    ghost use Rattle.term_core.specs.KeyHash.{key_hash};
    ghost use Rattle.term_operand.specs.Order.{is_same};
    ghost use Rattle.part_core.specs.Settings.{class_at};
    ghost use Rattle.part_core.specs.Rows.{is_live};

    /// Returns a dead row of a key, given the key's hash.
    pub fn new(key: Term<A>, hash: u64) -> Self
        requires { hash ≡ key_hash key }
        ensures { result ≡ (key, []) }
    {
        HashedRow {
            key,
            hash,
            held: Held::none(),
        }
    }

    /// Returns the key.
    pub fn key(&self) -> &Term<A>
        ensures { result.now ≡ self.now.0 }
    {
        &self.key
    }

    /// Returns the objects held at the key.
    pub fn held(&self) -> &Held<A>
        ensures { result.now ≡ self.now.1 }
    {
        &self.held
    }

    /// Returns the row, as a visit sees it.
    pub fn seen(&self) -> SeenRow<'_, A>
        ensures { result ≡ self.now }
    {
        SeenRow::new(&self.key, &self.held)
    }

    /// Returns the hash of the key.
    pub fn hash(&self) -> u64
        ensures { result ≡ key_hash self.now.0 }
    {
        self.hash
    }

    /// Returns whether this is the row of a key, given the key's hash.
    pub fn is_of(&self, key: &Term<A>, hash: u64) -> bool
        requires { hash ≡ key_hash key.now }
        ensures { result ≡ is_same key.now self.now.0 }
    {
        self.hash == hash && key == &self.key
    }

    /// Returns whether the key has an object.
    pub fn is_live(&self) -> bool
        ensures { result ≡ is_live self.now }
    {
        !self.held.is_empty()
    }

    /// Returns whether the key is in a class, by a base.
    pub fn is_in(&self, settings: Settings, base: u64, class: u64) -> bool
        requires parts { 0 < settings.parts }
        requires base { 0 < base }
        ensures { result ≡ (class_at settings base self.now.0 == class) }
    {
        class_of(settings, base, self.hash) == class
    }

    /// Exchanges the objects held at the key with `held`.
    pub fn exchange(&mut self, held: &mut Held<A>)
        ensures row { self.new ≡ (self.old.0, held.old) }
        ensures held { held.new ≡ self.old.1 }
    {
        mem::swap(&mut self.held, held);
    }
}

impl<A: Allocator + Copy> HashedRow<A> {
    ghost use Rattle.std.specs.Prelude.{◌≡◌, true, None, IsSome, OnOk, OnErr, unwrap_or};
    ghost use Rattle.term_core.specs.Datum.Datum.{nil};
    ghost use Rattle.part_core.specs.Rows.{is_live, objects_with};

    /// Inserts an object among those held at the key, as the kind of table requires. It can only run out of memory if
    /// there is an object already; then nothing is changed.
    pub fn put(
        &mut self,
        alloc: A,
        kind: TableKind,
        object: &mut Option<Term<A>>,
    ) -> Result<(), AllocError>
        requires { IsSome object.old }
        ensures done { OnOk result (self.new ≡ (self.old.0, objects_with kind self.old.1 (unwrap_or object.old nil))) }
        ensures spent { OnOk result (object.new ≡ None) }
        ensures back { OnErr result (object.new ≡ object.old) }
        ensures refused { OnErr result (self.new ≡ self.old) }
        ensures live { OnErr result (is_live self.old ≡ true) }
    {
        self.held.put(alloc, kind, object)
    }
}
