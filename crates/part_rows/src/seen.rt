//! A row, as a visit sees it.
use part_core::Held;
use std::alloc::{Allocator, Global};
use std::marker::Model;
use term_core::Term;

/// A key and the objects held at it.
#[derive(Drop)]
pub struct SeenRow<'r, A: Allocator = Global> {
    key: &'r Term<A>,
    held: &'r Held<A>,
}

impl<'r, A: Allocator> Model for SeenRow<'r, A> {
    ghost use Rattle.std.specs.Prelude.{List};
    ghost use Rattle.std.specs.Coded.{codes};
    ghost use Rattle.term_core.specs.Datum.{Datum};
    ghost use Rattle.term_core.specs.DatumCode.{datum_code};

    ghost Value = { Datum × List Datum };

    ghost coded = { Prim.hlevel (codes, datum_code) };

    ghost view = { λ r. (r.key.now, r.held.now) };
}

impl<'r, A: Allocator> SeenRow<'r, A> {
    ghost use Rattle.std.specs.Prelude.{◌≡◌};

    /// Returns the row of a key with the objects held at it.
    pub fn new(key: &'r Term<A>, held: &'r Held<A>) -> Self
        ensures { result ≡ (key.now, held.now) }
    {
        SeenRow { key, held }
    }

    /// Returns the key.
    pub fn key(&self) -> &'r Term<A>
        ensures { result.now ≡ self.now.0 }
    {
        self.key
    }

    /// Returns the objects held at the key.
    pub fn held(&self) -> &'r Held<A>
        ensures { result.now ≡ self.now.1 }
    {
        self.held
    }
}
