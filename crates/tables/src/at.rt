//! A session at a table whose parts have gates.
ghost use Rattle.std.specs.Prelude.{ℕ, ◌≡◌, ◌≢◌, ◌<◌, None, true, IsTrue, IfErr, OnOk};
ghost use Rattle.part_core.specs.Acts.{IsAsked};
ghost use Rattle.part_core.specs.Legal.{fix_count};
ghost use Rattle.part_core.specs.Ops.{act_of, answer_in, object_in, takes_no_memory};
ghost use Rattle.tables.specs.Sessions.{IsOpened, Sees, session_home};
ghost use Rattle.tables.specs.Turns.{Views, Turned};

use crate::options::Options;
use crate::table::Table;
use crate::turns::{TryTurns, Turns};
use gate::Session;
use part_core::{Fault, Part, PartOp, Reply};
use std::alloc::Allocator;
use std::sync::Wait;

/// A session at a table, which may wait there while other sessions make their turns.
#[derive(Drop)]
pub struct At<'t, P: Part<A> + Drop, A: Allocator, R> {
    /// The table.
    pub table: &'t Table<P, A>,
    /// The session.
    pub session: &'t mut Session<P, A>,
    /// The runtime by which it waits.
    pub rt: &'t R,
}

impl<'t, A: Allocator, P: Part<A> + Drop, R: Wait> TryTurns<A> for At<'t, P, A, R> {
    ghost use Rattle.tables.specs.SessionFacts.{session_seen, session_legal};

    ghost home = { λ s. session_home s.table.now.options s.table.now.gates.items s.session.now.number s.session.ghost_name };

    ghost is_ready = { λ s. IsOpened s.table.now.options s.table.now.gates.items s.session.now.number s.session.now.passes.items };

    ghost sees = { λ s. Sees s.session.now.passes.items };

    ghost is_made = { λ s. true };

    ghost fits = { λ s ready. (ready.some, ready.session) };

    ghost seen = { λ s ready. ∣ session_seen s.session.now.passes.items ∣₁ };

    ghost legal = { λ s v part ready sees inside. session_legal s.table.now.options s.table.now.gates.items s.session.now.number s.session.now.passes.items ready s.session.now.legal v sees part inside };

    fn options(&self) -> Options
        ensures { result ≡ self.now.table.now.options }
    {
        self.table.options
    }

    fn number(&self) -> u8
        ensures { result ≡ self.now.session.now.number }
    {
        self.session.number
    }

    fn fixes(&self, part: u8) -> u16
        requires ready { IsOpened self.now.table.now.options self.now.table.now.gates.items self.now.session.now.number self.now.session.now.passes.items }
        requires part { part < self.now.table.now.options.parts }
        ensures { (v : Views) → Sees self.now.session.now.passes.items v
            → result ≡ fix_count self.now.session.now.number (v part) }
    {
        self.session.passes[usize::from(part)].fixes()
    }

    fn turn<'a>(&mut self, part: u8, op: &mut PartOp<'a, A>) -> Result<Reply<A>, Fault>
        requires ready { IsOpened self.old.table.now.options self.old.table.now.gates.items self.old.session.now.number self.old.session.now.passes.items }
        requires part { part < self.old.table.now.options.parts }
        requires asked { IsAsked (act_of op.old) }
        ensures ready { IsOpened self.new.table.now.options self.new.table.now.gates.items self.new.session.now.number self.new.session.now.passes.items }
        ensures same { session_home self.new.table.now.options self.new.table.now.gates.items self.new.session.now.number self.new.session.ghost_name
            ≡ session_home self.old.table.now.options self.old.table.now.gates.items self.old.session.now.number self.old.session.ghost_name }
        ensures entry { (v : Views) → Sees self.old.session.now.passes.items v
            → (w : Views) × Sees self.new.session.now.passes.items w
            × Turned (session_home self.old.table.now.options self.old.table.now.gates.items self.old.session.now.number self.old.session.ghost_name) part
            (act_of op.old) (answer_in result) v w }
        ensures back { IfErr result (λ fault. op.new ≡ op.old) }
        ensures spent { OnOk result (object_in op.new ≡ None) }
        ensures sure { IsTrue true → IsTrue (takes_no_memory (act_of op.old))
            → IfErr result (λ fault. fault ≢ Fault.Memory) }
    {
        self.session
            .turn(self.rt, &self.table.gates[usize::from(part)], part, op)
    }
}

impl<'t, A: Allocator, P: Part<A> + Drop, R: Wait> Turns<A> for At<'t, P, A, R> {
    ghost use Rattle.std.specs.Prelude.{refl};

    ghost sure = { λ s. refl };
}
