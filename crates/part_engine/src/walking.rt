//! Operations in walk order.
ghost use Rattle.std.specs.Prelude.{ℕ, ◌≡◌, ◌||◌, IfOk};
ghost use Rattle.std.specs.Option.{option_copied};
ghost use Rattle.part_core.specs.Acts.Act.{First, Next};
ghost use Rattle.part_core.specs.Ops.{answer_in};
ghost use Rattle.part_core.specs.Rows.{has_row};
ghost use Rattle.part_core.specs.Settings.{is_ordered};
ghost use Rattle.part_rows.specs.Shown.{Shown, AreSound};
ghost use Rattle.part_engine.specs.Stored.{Leads};

use crate::stored::StoredPart;
use part_core::{Fault, Reply};
use part_rows::Rows;
use std::alloc::{AllocError, Allocator};
use term_core::Term;

/// Returns a copy of a key, or `None` if there is none. Fails if an allocation fails.
fn copied<A: Allocator + Copy>(key: Option<&Term<A>>) -> Result<Option<Term<A>>, AllocError>
    ensures { IfOk result (λ copy. copy ≡ option_copied key.entry) }
{
    match key {
        Some(key) => Ok(Some(key.copy()?)),
        None => Ok(None),
    }
}

impl<R: Rows<A> + Drop, A: Allocator> StoredPart<R, A> {
    /// Returns whether a key has a place in walk order: in an ordered set always, in a set if it has a row.
    fn has_place(&self, key: &Term<A>) -> bool
        ensures { (w : Shown) → R.shows self.now.settings self.now.rows w → AreSound self.now.settings w
            → result ≡ (is_ordered self.now.settings.kind || has_row w.rows key.now) }
    {
        if self.settings.kind.is_ordered() {
            return true;
        }
        self.rows.held(self.settings, key).is_some()
    }
}

impl<R: Rows<A> + Drop, A: Allocator + Copy> StoredPart<R, A> {
    /// Returns the first key in walk order that has objects. Fails if an allocation fails.
    pub(crate) fn first(&self) -> Result<Reply<A>, Fault>
        ensures { (n : ℕ) → Leads R.shows self.now n First (answer_in result) self.now }
    {
        let key = copied(self.rows.first_key(self.settings, self.base))?;
        Ok(Reply::AtKey(key))
    }

    /// Returns the key after another in walk order that has objects. In a set the other key must have a row, dead or
    /// live; otherwise fails with `BadKey`. Also fails if an allocation fails.
    pub(crate) fn next(&self, key: &Term<A>) -> Result<Reply<A>, Fault>
        ensures { (n : ℕ) → Leads R.shows self.now n (Next key.now) (answer_in result) self.now }
    {
        if !self.has_place(key) {
            return Err(Fault::BadKey);
        }
        let next = copied(self.rows.following_key(self.settings, self.base, key))?;
        Ok(Reply::AtKey(next))
    }
}
