//! A row that remembers how many were made before it.
use part_core::{Held, TableKind};
use part_rows::SeenRow;
use std::alloc::{AllocError, Allocator};
use std::marker::Model;
use std::mem;
use term_core::Term;

/// A key, what is held of it, and how many rows were made before it.
#[derive(Drop)]
pub struct Row<A: Allocator> {
    key: Term<A>,
    held: Held<A>,
    made: u64,
}

impl<A: Allocator> Model for Row<A> {
    ghost use Rattle.std.specs.Prelude.{ℕ, List};
    ghost use Rattle.std.specs.Coded.{codes};
    ghost use Rattle.term_core.specs.Datum.{Datum};
    ghost use Rattle.term_core.specs.DatumCode.{datum_code};

    ghost Value = { (Datum × List Datum) × ℕ };

    ghost coded = { Prim.hlevel (codes, datum_code) };

    ghost view = { λ r. ((r.key, r.held), r.made) };
}

impl<A: Allocator> Row<A> {
    ghost use Rattle.std.specs.Prelude.{◌≡◌, [], ◌∷◌};
    ghost use Rattle.part_core.specs.Rows.{is_live};

    /// Returns a row of a key with one object, before which `made` rows were created.
    pub fn new(key: Term<A>, object: Term<A>, made: u64) -> Self
        ensures { result ≡ ((key, object ∷ []), made) }
    {
        Row {
            key,
            held: Held::one(object),
            made,
        }
    }

    /// The key.
    pub fn key(&self) -> &Term<A>
        ensures { result.now ≡ self.now.0.0 }
    {
        &self.key
    }

    /// What is held of it.
    pub fn held(&self) -> &Held<A>
        ensures { result.now ≡ self.now.0.1 }
    {
        &self.held
    }

    /// How many were made before it.
    pub fn made(&self) -> u64
        ensures { result ≡ self.now.1 }
    {
        self.made
    }

    /// The row, as a visit sees it.
    pub fn seen(&self) -> SeenRow<'_, A>
        ensures { result ≡ self.now.0 }
    {
        SeenRow::new(&self.key, &self.held)
    }

    /// Whether the key has an object.
    pub fn is_live(&self) -> bool
        ensures { result ≡ is_live self.now.0 }
    {
        !self.held.is_empty()
    }

    /// What is held of the key and `held` change places.
    pub fn exchange(&mut self, held: &mut Held<A>)
        ensures row { self.new ≡ ((self.old.0.0, held.old), self.old.1) }
        ensures held { held.new ≡ self.old.0.1 }
    {
        mem::swap(&mut self.held, held);
    }
}

impl<A: Allocator + Copy> Row<A> {
    ghost use Rattle.std.specs.Prelude.{◌≡◌, true, None, IsSome, OnOk, OnErr, unwrap_or};
    ghost use Rattle.term_core.specs.Datum.Datum.{nil};
    ghost use Rattle.part_core.specs.Rows.{is_live, objects_with};

    /// Puts an object in among those that are held of the key, as the kind of table has it. Memory is wanted only
    /// where there is one.
    pub fn put(
        &mut self,
        alloc: A,
        kind: TableKind,
        object: &mut Option<Term<A>>,
    ) -> Result<(), AllocError>
        requires { IsSome object.old }
        ensures done { OnOk result (self.new
            ≡ ((self.old.0.0, objects_with kind self.old.0.1 (unwrap_or object.old nil)), self.old.1)) }
        ensures spent { OnOk result (object.new ≡ None) }
        ensures back { OnErr result (object.new ≡ object.old) }
        ensures refused { OnErr result (self.new ≡ self.old) }
        ensures live { OnErr result (is_live self.old.0 ≡ true) }
    {
        self.held.put(alloc, kind, object)
    }
}
