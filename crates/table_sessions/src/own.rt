//! A session that owns a share of its table.
ghost use Rattle.std.specs.Prelude.{◌≡◌};
ghost use Rattle.tables.specs.Sessions.{IsOpened};
ghost use Rattle.table_sessions.specs.OpenedFact.{opened_prop};

use gate::Session;
use part_core::{Fault, Part, PartOp, Reply};
use std::alloc::{Allocator, Global};
use std::sync::Arc;
use tables::{Halt, Options, Table, TryTurns};

/// A session of a table that many threads use. It owns a share of the table, which is dropped with the last of its
/// sessions. One thread at a time uses it.
#[derive(Drop)]
pub struct OwnSession<P: Part<A> + Drop, A: Allocator = Global> {
    /// The table.
    pub table: Arc<Table<P, A>, A>,
    /// The session's number, and its passes through the gates of the parts.
    pub seat: Session<P, A>,
    ghost opened: { IsOpened table.value.options table.value.gates.items seat.number seat.passes.items } by { Prim.hlevel opened_prop },
}

impl<P: Part<A> + Drop, A: Allocator> OwnSession<P, A> {
    ghost use Rattle.std.specs.Prelude.{ℕ, ◌≡◌, ◌≢◌, ◌<◌, None, IsTrue, IsFalse, IfErr, OnOk};
    ghost use Rattle.part_core.specs.Acts.{IsAsked};
    ghost use Rattle.part_core.specs.Legal.{fix_count};
    ghost use Rattle.part_core.specs.Ops.{act_of, answer_in, object_in, takes_no_memory};
    ghost use Rattle.tables.specs.Brief.{was_made};
    ghost use Rattle.tables.specs.Sessions.{Sees, session_home};
    ghost use Rattle.tables.specs.Turns.{Views, Turned};

    /// Returns the options that the table was opened with.
    pub fn options(&self) -> Options
        ensures { result ≡ self.now.table.value.options }
    {
        self.table.options
    }

    /// Returns the session's number.
    pub fn number(&self) -> u8
        ensures { result ≡ self.now.seat.number }
    {
        self.seat.number
    }

    /// Returns how many times the session fixes a part.
    pub fn fixes(&self, part: u8) -> u16
        requires { part < self.now.table.value.options.parts }
        ensures { (v : Views) → Sees self.now.seat.passes.items v
            → result ≡ fix_count self.now.seat.number (v part) }
    {
        self.seat.passes[usize::from(part)].fixes()
    }

    /// Performs an operation at a part, if one of `looks` looks finds it there, at least one. Returns its reply, and
    /// whether the turn was made (`Halt::Nothing`) or another session had the part at each look (`Halt::Busy`). If the
    /// operation fails, `op` and the part are as they were.
    pub(crate) fn turn<'a>(
        &mut self,
        part: u8,
        op: &mut PartOp<'a, A>,
        looks: u64,
    ) -> (Result<Reply<A>, Fault>, Halt)
        requires part { part < self.old.table.value.options.parts }
        requires asked { IsAsked (act_of op.old) }
        ensures table { self.new.table ≡ self.old.table }
        ensures number { self.new.seat.number ≡ self.old.seat.number }
        ensures entry { (name : ℕ) (v : Views) → Sees self.old.seat.passes.items v
            → (w : Views) × Sees self.new.seat.passes.items w
            × Turned (session_home self.old.table.value.options self.old.table.value.gates.items self.old.seat.number name) part
            (act_of op.old) (answer_in result.0) v w }
        ensures back { IfErr result.0 (λ fault. op.new ≡ op.old) }
        ensures spent { OnOk result.0 (object_in op.new ≡ None) }
        ensures sure { IsTrue (was_made result.1) → IsTrue (takes_no_memory (act_of op.old))
            → IfErr result.0 (λ fault. fault ≢ Fault.Memory) }
        ensures put_off { IsFalse (was_made result.1) → self.new.seat.passes.items ≡ self.old.seat.passes.items }
        ensures within { result.1 ≢ Halt.Bound }
    {
        let mut brief = self.table.brief_at(&mut self.seat, looks, 1);
        let answer = brief.turn(part, op);
        (answer, brief.halt)
    }
}
