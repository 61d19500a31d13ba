//! Operations on the counts of fixes.
ghost use Rattle.std.specs.Prelude.{ℕ, ◌≡◌, ◌<◌, Some, IfErr, if◌then◌else◌};
ghost use Rattle.part_core.specs.Acts.Act.{Fix, Unfix, Release};
ghost use Rattle.part_core.specs.Acts.Answer.{Replied};
ghost use Rattle.part_core.specs.Ops.{answer_in, said_of};
ghost use Rattle.part_core.specs.Rows.{is_fixed};
ghost use Rattle.part_rows.specs.Dead.{Keeps, shown_settled};
ghost use Rattle.part_rows.specs.Shown.{Shown};
ghost use Rattle.part_engine.specs.Stored.{Leads};

use crate::stored::StoredPart;
use part_core::{Fault, Reply, fixes_at};
use part_rows::{Rows, settle};
use std::alloc::Allocator;

impl<R: Rows<A> + Drop, A: Allocator> StoredPart<R, A> {
    /// Unless some session fixes the part, removes dead rows, and sets the base to the number of slots.
    fn settle(&mut self)
        ensures settings { self.new.settings ≡ self.old.settings }
        ensures fixes { self.new.fixes.items ≡ self.old.fixes.items }
        ensures settled { (w : Shown) → Keeps R.shows self.old.settings self.old.rows self.old.dead w
            → Keeps R.shows self.old.settings self.new.rows self.new.dead (shown_settled self.old.fixes.items w)
            × (self.new.base ≡ (if is_fixed self.old.fixes.items then self.old.base else w.slots)) }
    {
        let fixes = self.fixes.as_slice();
        self.base = settle(&mut self.rows, &mut self.dead, fixes, self.base);
    }

    /// Adds a fix of the session. Fails with `FixLimit` if it has 65,535 already.
    pub(crate) fn fix(&mut self, session: u8) -> Result<Reply<A>, Fault>
        requires { session < self.old.settings.sessions }
        ensures settings { self.new.settings ≡ self.old.settings }
        ensures leads { Leads R.shows self.old session Fix (answer_in result) self.new }
        ensures refused { IfErr result (λ fault. fault ≡ Fault.FixLimit) }
    {
        let Some(count) = fixes_at(self.fixes.as_slice(), session).checked_add(1) else {
            return Err(Fault::FixLimit);
        };
        self.fixes[usize::from(session)] = count;
        Ok(Reply::Done)
    }

    /// Releases one fix of the session. Fails with `NotFixed` if it has none.
    pub(crate) fn unfix(&mut self, session: u8) -> Result<Reply<A>, Fault>
        requires { session < self.old.settings.sessions }
        ensures settings { self.new.settings ≡ self.old.settings }
        ensures leads { Leads R.shows self.old session Unfix (answer_in result) self.new }
        ensures refused { IfErr result (λ fault. fault ≡ Fault.NotFixed) }
    {
        let Some(count) = fixes_at(self.fixes.as_slice(), session).checked_sub(1) else {
            return Err(Fault::NotFixed);
        };
        self.fixes[usize::from(session)] = count;
        self.settle();
        Ok(Reply::Done)
    }

    /// Releases all fixes of the session.
    pub(crate) fn release(&mut self, session: u8) -> Reply<A>
        requires { session < self.old.settings.sessions }
        ensures settings { self.new.settings ≡ self.old.settings }
        ensures leads { Leads R.shows self.old session Release (Some (Replied (said_of result))) self.new }
    {
        self.fixes[usize::from(session)] = 0;
        self.settle();
        Reply::Done
    }
}
