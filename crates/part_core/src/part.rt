//! The contract that every part of a table satisfies.
ghost use Rattle.std.specs.Prelude.{ℕ, ◌≡◌, ◌≢◌, ◌<◌, ◌++◌, Bool, IsTrue, None, IfOk, IfErr, OnOk, IsErrOf, List, []};
ghost use Rattle.part_core.specs.Acts.{Entry as PastEntry, IsAsked};
ghost use Rattle.part_core.specs.Legal.{IsLegal, fix_count, state_after};
ghost use Rattle.part_core.specs.Ops.{act_of, entries_made, object_in, takes_no_memory};
ghost use Rattle.part_core.specs.declared.kind.TableKind.{TableKind};
ghost use Rattle.part_core.specs.declared.settings.Settings.{Settings};
ghost use Rattle.part_core.specs.Served.{settings_with, IsServed};
ghost use Rattle.part_core.specs.Visits.{walked_objects};

use crate::fault::{Fault, OpenFault};
use crate::kind::TableKind;
use crate::op::PartOp;
use crate::reply::Reply;
use crate::settings::Settings;
use std::alloc::{AllocError, Allocator};
use term_core::Term;

/// One part of a table. Each operation adds its entry to the part's history, which is legal: the answer is that of the
/// state before it.
pub trait Part<A: Allocator>: Sized {
    /// The kinds of table that the part can be made for.
    ghost serves: { TableKind → Bool };
    /// The settings that the part was made with.
    ghost settings: { Self → Settings };
    /// The part is in the state after this history.
    ghost is_after: { Self → List PastEntry → Type 0 };

    /// Makes a part without rows. Fails with `BadOptions` if the part does not serve the kind or a number is outside
    /// its range: `keypos` from 1 to 65,535, 1 to 64 parts, 1 to 16 sessions. Fails with `Memory` if an allocation
    /// fails.
    fn make(
        alloc: A,
        kind: TableKind,
        keypos: u16,
        parts: u8,
        sessions: u8,
    ) -> Result<Self, OpenFault>
        ensures made { IfOk result (λ p. IsServed serves (settings_with kind keypos parts sessions)
            × (settings p ≡ settings_with kind keypos parts sessions) × is_after p []) }
        ensures refused { IsErrOf result OpenFault.BadOptions
            → ¬ (IsServed serves (settings_with kind keypos parts sessions)) }
        ensures scarce { IsErrOf result OpenFault.Memory
            → IsServed serves (settings_with kind keypos parts sessions) };

    /// Performs an operation for a session, which is below the number of sessions. If it succeeds, no object is left in
    /// `op`. If it fails, `op` and the part are as they were. Running out of memory leaves no entry in the history.
    fn apply<'a>(&mut self, session: u8, op: &mut PartOp<'a, A>) -> Result<Reply<A>, Fault>
        requires session { session < (settings self.old).sessions }
        requires asked { IsAsked (act_of op.old) }
        ensures settings { settings self.new ≡ settings self.old }
        ensures entry { (log : List PastEntry) → is_after self.old log
            → is_after self.new (log ++ entries_made session (act_of op.old) result) }
        ensures back { IfErr result (λ fault. op.new ≡ op.old) }
        ensures spent { OnOk result (object_in op.new ≡ None) }
        ensures sure { IsTrue (takes_no_memory (act_of op.old))
            → IfErr result (λ fault. fault ≢ Fault.Memory) };

    /// Returns how many times a session fixes the part.
    fn fixes(&self, session: u8) -> u16
        requires { session < (settings self.now).sessions }
        ensures { (log : List PastEntry) → is_after self.now log → result ≡ fix_count session log };

    /// Returns copies of the objects, in walk order. Fails if an allocation fails.
    fn objects(&self, alloc: A) -> Result<Vec<Term<A>, A>, AllocError>
        ensures { IfOk result (λ objects. (log : List PastEntry) → is_after self.now log
            → objects.items ≡ walked_objects (settings self.now) (state_after (settings self.now) log)) };

    /// Each history that a part is after is legal.
    ghost legal: { (p : Self) (log : List PastEntry) → is_after p log → IsLegal (settings p) log };
}
