//! A session that makes turns, with bounds on looks and on turns.
ghost use Rattle.std.specs.Prelude.{ℕ, ◌≡◌, ◌≢◌, ◌<◌, ◌+◌, ◌⊎◌, None, IsTrue, IsFalse, IfErr, OnOk};
ghost use Rattle.part_core.specs.Acts.{IsAsked};
ghost use Rattle.part_core.specs.Legal.{fix_count};
ghost use Rattle.part_core.specs.Ops.{act_of, answer_in, object_in, takes_no_memory};
ghost use Rattle.tables.specs.Brief.{was_made};
ghost use Rattle.tables.specs.Turns.{Views, Turned};
ghost use Rattle.table_sessions.specs.Own.{SeenBy, home_by};

use crate::own::OwnSession;
use part_core::{Fault, Part, PartOp, Reply};
use std::alloc::{Allocator, Global};
use tables::{Halt, Options, TryTurns};

/// A session that waits for no part: a turn is put off if another session has the part at each look, or if the session
/// has made as many turns as it may.
#[derive(Drop)]
pub struct Brief<'t, P: Part<A> + Drop, A: Allocator = Global> {
    /// The session.
    pub session: &'t mut OwnSession<P, A>,
    /// How often it looks for a part in a turn; 0 counts as 1.
    pub looks: u64,
    /// How many more turns it may make.
    pub left: u64,
    /// Why the last turn was put off, if it was.
    pub halt: Halt,
}

impl<P: Part<A> + Drop, A: Allocator> OwnSession<P, A> {
    /// Returns the session as one that looks for a part `looks` times in a turn, at least once, and makes at most `turns`
    /// turns.
    pub fn brief(&mut self, looks: u64, turns: u64) -> Brief<'_, P, A>
        ensures same_reference { result.session.ghost_name ≡ self.entry.ghost_name }
        ensures session { result.session.now ≡ self.old }
        ensures bounds { (result.looks ≡ looks) × (result.left ≡ turns) }
        ensures made { result.halt ≡ Halt.Nothing }
    {
        Brief {
            session: self,
            looks,
            left: turns,
            halt: Halt::Nothing,
        }
    }
}

impl<'t, A: Allocator, P: Part<A> + Drop> TryTurns<A> for Brief<'t, P, A> {
    ghost use Rattle.tables.specs.SessionFacts.{session_seen, session_legal};

    ghost home = { λ s. home_by s.session.now s.session.ghost_name };

    ghost is_ready = { λ s. Unit {0} };

    ghost sees = { λ s. SeenBy s.session.now };

    ghost is_made = { λ s. was_made s.halt };

    ghost fits = { λ s ready. (s.session.now.opened.some, s.session.now.opened.session) };

    ghost seen = { λ s ready. ∣ session_seen s.session.now.seat.passes.items ∣₁ };

    ghost legal = { λ s v part ready sees inside. session_legal s.session.now.table.value.options s.session.now.table.value.gates.items s.session.now.seat.number s.session.now.seat.passes.items s.session.now.opened s.session.now.seat.legal v sees part inside };

    fn options(&self) -> Options
        ensures { result ≡ self.now.session.now.table.value.options }
    {
        self.session.options()
    }

    fn number(&self) -> u8
        ensures { result ≡ self.now.session.now.seat.number }
    {
        self.session.number()
    }

    fn fixes(&self, part: u8) -> u16
        requires part { part < self.now.session.now.table.value.options.parts }
        ensures { (v : Views) → SeenBy self.now.session.now v
            → result ≡ fix_count self.now.session.now.seat.number (v part) }
    {
        self.session.fixes(part)
    }

    fn turn<'a>(&mut self, part: u8, op: &mut PartOp<'a, A>) -> Result<Reply<A>, Fault>
        requires part { part < self.old.session.now.table.value.options.parts }
        requires asked { IsAsked (act_of op.old) }
        ensures same { home_by self.new.session.now self.new.session.ghost_name
            ≡ home_by self.old.session.now self.old.session.ghost_name }
        ensures entry { (v : Views) → SeenBy self.old.session.now v
            → (w : Views) × SeenBy self.new.session.now w
            × Turned (home_by self.old.session.now self.old.session.ghost_name) part (act_of op.old) (answer_in result) v w }
        ensures back { IfErr result (λ fault. op.new ≡ op.old) }
        ensures spent { OnOk result (object_in op.new ≡ None) }
        ensures sure { IsTrue (was_made self.new.halt) → IsTrue (takes_no_memory (act_of op.old))
            → IfErr result (λ fault. fault ≢ Fault.Memory) }
        ensures looks { self.new.looks ≡ self.old.looks }
        ensures bound { (self.new.halt ≡ Halt.Bound × self.old.left ≡ 0 × self.new.left ≡ 0)
            ⊎ (self.new.halt ≢ Halt.Bound × self.old.left ≡ self.new.left + 1) }
    {
        if self.left == 0 {
            self.halt = Halt::Bound;
            return Err(Fault::Memory);
        }
        self.left -= 1;
        let (answer, halt) = self.session.turn(part, op, self.looks);
        self.halt = halt;
        answer
    }
}
