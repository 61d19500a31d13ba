//! The part implements the contract of parts.
ghost use Rattle.std.specs.Prelude.{◌≡◌, ◌≢◌, ◌<◌, ◌↔◌, None, IsTrue, IfErr, OnOk, OnErr, length};
ghost use Rattle.part_core.specs.Acts.{IsAsked};
ghost use Rattle.part_core.specs.Ops.{act_of, answer_in, object_in, takes_no_memory};
ghost use Rattle.part_core.specs.Served.{IsServed};
ghost use Rattle.part_engine.specs.Stored.{Leads};

use crate::stored::StoredPart;
use part_core::{
    FIRST_SLOTS, Fault, OpenFault, Part, PartOp, Reply, Settings, TableKind, fixes_are_counted,
    fixes_at, legal_goes_on, no_fixes, states_are_kept,
};
use part_rows::Rows;
use std::alloc::{AllocError, Allocator};
use term_core::Term;

/// Returns whether parts over such rows can be made with these settings.
fn is_served<R: Rows<A>, A: Allocator>(settings: Settings) -> bool
    ensures { IsTrue result ↔ IsServed R.serves settings }
{
    R::is_served(settings.kind) && settings.are_in_range()
}

impl<R: Rows<A> + Drop, A: Allocator + Copy> StoredPart<R, A> {
    /// Performs an operation, with the result that `apply` returns.
    fn answer<'a>(&mut self, session: u8, op: &mut PartOp<'a, A>) -> Result<Reply<A>, Fault>
        requires session { session < self.old.settings.sessions }
        requires asked { IsAsked (act_of op.old) }
        ensures settings { self.new.settings ≡ self.old.settings }
        ensures leads { Leads R.shows self.old session (act_of op.old) (answer_in result) self.new }
        ensures back { OnErr result (op.new ≡ op.old) }
        ensures spent { OnOk result (object_in op.new ≡ None) }
        ensures sure { IsTrue (takes_no_memory (act_of op.old))
            → IfErr result (λ fault. fault ≢ Fault.Memory) }
    {
        match op {
            PartOp::Insert(object) => return self.insert(object),
            PartOp::InsertNew(object) => return self.insert_new(object),
            PartOp::Lookup(key) => return self.lookup(key),
            PartOp::Member(key) => return Ok(self.member(key)),
            PartOp::Delete(key) => return Ok(self.delete(key)),
            PartOp::DeleteObject(object) => return self.delete_object(object),
            PartOp::Take(key) => return self.take(key),
            PartOp::Fix => return self.fix(session),
            PartOp::Unfix => return self.unfix(session),
            PartOp::Release => return Ok(self.release(session)),
            PartOp::Visit(look) => return self.visit(look),
            PartOp::VisitCount(look) => return self.visit_count(look),
            PartOp::VisitDelete(look) => return self.visit_delete(look),
            PartOp::First => return self.first(),
            PartOp::Next(key) => return self.next(key),
        }
    }
}

impl<R: Rows<A> + Drop, A: Allocator + Copy> Part<A> for StoredPart<R, A> {
    ghost use Rattle.std.specs.Prelude.{◌≡◌, ◌≢◌, ◌<◌, ◌++◌, None, IsTrue, IfOk, IfErr, OnOk, IsErrOf, List, []};
    ghost use Rattle.part_core.specs.Acts.{Entry as PastEntry, IsAsked};
    ghost use Rattle.part_core.specs.Legal.{fix_count, state_after};
    ghost use Rattle.part_core.specs.Ops.{act_of, entries_made, object_in, takes_no_memory};
    ghost use Rattle.part_core.specs.Served.{settings_with, IsServed};
    ghost use Rattle.part_core.specs.Visits.{walked_objects};
    ghost use Rattle.part_engine.specs.Stored.{IsAfter};

    ghost serves = { R.serves };

    ghost settings = { λ p. p.settings };

    ghost is_after = { λ p log. IsAfter R.shows p log };

    ghost legal = { λ p log now. now.legal };

    fn make(
        alloc: A,
        kind: TableKind,
        keypos: u16,
        parts: u8,
        sessions: u8,
    ) -> Result<Self, OpenFault>
        ensures made { IfOk result (λ p. IsServed R.serves
            (settings_with kind keypos parts sessions)
            × (p.settings ≡ settings_with kind keypos parts sessions) × IsAfter R.shows p []) }
        ensures refused { IsErrOf result OpenFault.BadOptions
            → ¬ (IsServed R.serves (settings_with kind keypos parts sessions)) }
        ensures scarce { IsErrOf result OpenFault.Memory
            → IsServed R.serves (settings_with kind keypos parts sessions) }
    {
        let settings = Settings {
            kind,
            keypos,
            parts,
            sessions,
        };
        if !is_served::<R, A>(settings) {
            return Err(OpenFault::BadOptions);
        }
        let fixes = no_fixes(alloc, sessions)?;
        let rows = R::new(alloc, settings)?;
        Ok(StoredPart {
            alloc,
            settings,
            rows,
            dead: 0,
            fixes,
            base: FIRST_SLOTS,
        })
    }

    fn apply<'a>(&mut self, session: u8, op: &mut PartOp<'a, A>) -> Result<Reply<A>, Fault>
        requires session { session < self.old.settings.sessions }
        requires asked { IsAsked (act_of op.old) }
        ensures settings { self.new.settings ≡ self.old.settings }
        ensures entry { (log : List PastEntry) → IsAfter R.shows self.old log
            → IsAfter R.shows self.new (log ++ entries_made session (act_of op.old) result) }
        ensures back { IfErr result (λ fault. op.new ≡ op.old) }
        ensures spent { OnOk result (object_in op.new ≡ None) }
        ensures sure { IsTrue (takes_no_memory (act_of op.old))
            → IfErr result (λ fault. fault ≢ Fault.Memory) }
    {
        states_are_kept();
        legal_goes_on();
        self.answer(session, op)
    }

    fn fixes(&self, session: u8) -> u16
        requires { session < self.now.settings.sessions }
        ensures { (log : List PastEntry) → IsAfter R.shows self.now log → result ≡ fix_count session log }
    {
        fixes_are_counted();
        fixes_at(self.fixes.as_slice(), session)
    }

    fn objects(&self, alloc: A) -> Result<Vec<Term<A>, A>, AllocError>
        ensures { IfOk result (λ objects. (log : List PastEntry) → IsAfter R.shows self.now log
            → objects.items ≡ walked_objects self.now.settings (state_after self.now.settings log)) }
    {
        states_are_kept();
        let mut objects = Vec::new(alloc);
        self.rows.gather(self.settings, self.base, &mut objects)?;
        Ok(objects)
    }
}
