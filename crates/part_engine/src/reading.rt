//! Operations that read one key.
ghost use Rattle.std.specs.Prelude.{ℕ, ◌≡◌, IfOk, IfErr};
ghost use Rattle.part_core.specs.Acts.Act.{Lookup, Member};
ghost use Rattle.part_core.specs.Acts.Answer.{Replied};
ghost use Rattle.part_core.specs.Ops.{answer_in, said_of};
ghost use Rattle.part_core.specs.Rows.{is_live, objects_at};
ghost use Rattle.part_rows.specs.Shown.{Shown, AreSound};
ghost use Rattle.part_engine.specs.Stored.{Leads};

use crate::stored::StoredPart;
use part_core::{Fault, Reply};
use part_rows::Rows;
use std::alloc::{AllocError, Allocator};
use term_core::Term;

impl<R: Rows<A> + Drop, A: Allocator> StoredPart<R, A> {
    ghost use Rattle.std.specs.Prelude.{Some};

    /// Returns whether a key has an object.
    fn has_objects(&self, key: &Term<A>) -> bool
        ensures { (w : Shown) → R.shows self.now.settings self.now.rows w → AreSound self.now.settings w
            → result ≡ is_live (key.now, objects_at w.rows key.now) }
    {
        match self.rows.held(self.settings, key) {
            Some(held) => !held.is_empty(),
            None => false,
        }
    }

    /// Returns, as a reply, whether a key has an object.
    pub(crate) fn member(&self, key: &Term<A>) -> Reply<A>
        ensures { (n : ℕ) → Leads R.shows self.now n (Member key.now) (Some (Replied (said_of result))) self.now }
    {
        Reply::Flag(self.has_objects(key))
    }
}

impl<R: Rows<A> + Drop, A: Allocator + Copy> StoredPart<R, A> {
    /// Returns copies of the objects of a key. Fails if an allocation fails.
    pub(crate) fn objects_of(&self, key: &Term<A>) -> Result<Vec<Term<A>, A>, AllocError>
        ensures { IfOk result (λ objects. (w : Shown) → R.shows self.now.settings self.now.rows w
            → AreSound self.now.settings w → objects.items ≡ objects_at w.rows key.now) }
    {
        match self.rows.held(self.settings, key) {
            Some(held) => held.objects(self.alloc),
            None => Ok(Vec::new(self.alloc)),
        }
    }

    /// Returns, as a reply, copies of the objects of a key. Fails if an allocation fails.
    pub(crate) fn lookup(&self, key: &Term<A>) -> Result<Reply<A>, Fault>
        ensures { (n : ℕ) → Leads R.shows self.now n (Lookup key.now) (answer_in result) self.now }
    {
        let objects = self.objects_of(key)?;
        Ok(Reply::Objects(objects))
    }
}
