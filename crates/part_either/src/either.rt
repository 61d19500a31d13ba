//! Parts of either of two sorts.
ghost use Rattle.std.specs.Prelude.{ℕ, ◌≡◌, ◌≢◌, ◌<◌, ◌++◌, IsTrue, None, IfOk, IfErr, OnOk, IsErrOf, List, []};
ghost use Rattle.part_core.specs.Acts.{Entry as PastEntry, IsAsked};
ghost use Rattle.part_core.specs.Legal.{fix_count, state_after};
ghost use Rattle.part_core.specs.Ops.{act_of, entries_made, object_in, takes_no_memory};
ghost use Rattle.part_core.specs.Served.{settings_with, IsServed};
ghost use Rattle.part_core.specs.Visits.{walked_objects};
ghost use Rattle.part_either.specs.Either.{served_by, settings_by, IsAfterBy};

use part_core::{Fault, OpenFault, Part, PartOp, Reply, TableKind};
use std::alloc::{AllocError, Allocator};
use term_core::Term;

/// A part of a set or a bag, or of an ordered set.
#[derive(Drop)]
pub enum EitherPart<S: Drop, O: Drop> {
    /// Of a set, a bag or a duplicate bag.
    Unordered(S),
    /// Of an ordered set.
    Ordered(O),
}

impl<A: Allocator, S: Part<A> + Drop, O: Part<A> + Drop> Part<A> for EitherPart<S, O> {
    ghost use Rattle.part_either.specs.EitherFacts.{legal_by};

    ghost serves = { served_by S.serves O.serves };

    ghost settings = { settings_by S.settings O.settings };

    ghost is_after = { IsAfterBy S.is_after O.is_after };

    ghost legal = { legal_by S.settings O.settings S.is_after O.is_after S.legal O.legal };

    fn make(
        alloc: A,
        kind: TableKind,
        keypos: u16,
        parts: u8,
        sessions: u8,
    ) -> Result<Self, OpenFault>
        ensures made { IfOk result (λ p. IsServed (served_by S.serves O.serves) (settings_with kind keypos parts sessions)
            × (settings_by S.settings O.settings p ≡ settings_with kind keypos parts sessions)
            × IsAfterBy S.is_after O.is_after p []) }
        ensures refused { IsErrOf result OpenFault.BadOptions
            → ¬ (IsServed (served_by S.serves O.serves) (settings_with kind keypos parts sessions)) }
        ensures scarce { IsErrOf result OpenFault.Memory
            → IsServed (served_by S.serves O.serves) (settings_with kind keypos parts sessions) }
    {
        match kind {
            TableKind::OrderedSet => match O::make(alloc, kind, keypos, parts, sessions) {
                Ok(part) => Ok(EitherPart::Ordered(part)),
                Err(fault) => Err(fault),
            },
            TableKind::Set | TableKind::Bag | TableKind::DuplicateBag => {
                match S::make(alloc, kind, keypos, parts, sessions) {
                    Ok(part) => Ok(EitherPart::Unordered(part)),
                    Err(fault) => Err(fault),
                }
            }
        }
    }

    fn apply<'a>(&mut self, session: u8, op: &mut PartOp<'a, A>) -> Result<Reply<A>, Fault>
        requires session { session < (settings_by S.settings O.settings self.old).sessions }
        requires asked { IsAsked (act_of op.old) }
        ensures settings { settings_by S.settings O.settings self.new ≡ settings_by S.settings O.settings self.old }
        ensures entry { (log : List PastEntry) → IsAfterBy S.is_after O.is_after self.old log
            → IsAfterBy S.is_after O.is_after self.new (log ++ entries_made session (act_of op.old) result) }
        ensures back { IfErr result (λ fault. op.new ≡ op.old) }
        ensures spent { OnOk result (object_in op.new ≡ None) }
        ensures sure { IsTrue (takes_no_memory (act_of op.old))
            → IfErr result (λ fault. fault ≢ Fault.Memory) }
    {
        match self {
            EitherPart::Unordered(part) => part.apply(session, op),
            EitherPart::Ordered(part) => part.apply(session, op),
        }
    }

    fn fixes(&self, session: u8) -> u16
        requires { session < (settings_by S.settings O.settings self.now).sessions }
        ensures { (log : List PastEntry) → IsAfterBy S.is_after O.is_after self.now log → result ≡ fix_count session log }
    {
        match self {
            EitherPart::Unordered(part) => part.fixes(session),
            EitherPart::Ordered(part) => part.fixes(session),
        }
    }

    fn objects(&self, alloc: A) -> Result<Vec<Term<A>, A>, AllocError>
        ensures { IfOk result (λ objects. (log : List PastEntry) → IsAfterBy S.is_after O.is_after self.now log
            → objects.items ≡ walked_objects (settings_by S.settings O.settings self.now)
            (state_after (settings_by S.settings O.settings self.now) log)) }
    {
        match self {
            EitherPart::Unordered(part) => part.objects(alloc),
            EitherPart::Ordered(part) => part.objects(alloc),
        }
    }
}
