//! The table as a session, which is alone with it.
ghost use Rattle.std.specs.Prelude.{ℕ, ◌≡◌, ◌≢◌, ◌<◌, None, true, IsTrue, IfErr, OnOk};
ghost use Rattle.part_core.specs.Acts.{IsAsked};
ghost use Rattle.part_core.specs.Legal.{fix_count};
ghost use Rattle.part_core.specs.Ops.{act_of, answer_in, object_in, takes_no_memory};
ghost use Rattle.tables.specs.Local.{local_home};
ghost use Rattle.tables.specs.Turns.{Views, Turned};
ghost use Rattle.open_table.specs.Parts.{Sees, options_in};

use crate::table::OpenTable;
use part_core::{Fault, Part, PartOp, Reply};
use std::alloc::Allocator;
use tables::{Options, TryTurns, Turns};

impl<S: Part<A> + Drop, O: Part<A> + Drop, A: Allocator> TryTurns<A> for OpenTable<S, O, A> {
    ghost use Rattle.open_table.specs.Facts.{are_legal, some_part, some_views};

    ghost home = { λ s. local_home (options_in s.parts) s.session 0 };

    ghost is_ready = { λ s. Unit {0} };

    ghost sees = { λ s. Sees s.parts };

    ghost is_made = { λ s. true };

    ghost fits = { λ s ready. (some_part s.parts, s.inside) };

    ghost seen = { λ s ready. some_views s.parts };

    ghost legal = { λ s v part ready sees inside. are_legal S.legal O.legal s.parts v sees part inside };

    fn options(&self) -> Options
        ensures { result ≡ options_in self.now.parts }
    {
        self.parts.options()
    }

    fn number(&self) -> u8
        ensures { result ≡ self.now.session }
    {
        self.session
    }

    fn fixes(&self, part: u8) -> u16
        requires part { part < (options_in self.now.parts).parts }
        ensures { (v : Views) → Sees self.now.parts v → result ≡ fix_count self.now.session (v part) }
    {
        self.parts.fixes(self.session, part)
    }

    fn turn<'a>(&mut self, part: u8, op: &mut PartOp<'a, A>) -> Result<Reply<A>, Fault>
        requires part { part < (options_in self.old.parts).parts }
        requires asked { IsAsked (act_of op.old) }
        ensures same { local_home (options_in self.new.parts) self.new.session 0
            ≡ local_home (options_in self.old.parts) self.old.session 0 }
        ensures entry { (v : Views) → Sees self.old.parts v → (w : Views) × Sees self.new.parts w
            × Turned (local_home (options_in self.old.parts) self.old.session 0) part
            (act_of op.old) (answer_in result) v w }
        ensures back { IfErr result (λ fault. op.new ≡ op.old) }
        ensures spent { OnOk result (object_in op.new ≡ None) }
        ensures sure { IsTrue true → IsTrue (takes_no_memory (act_of op.old))
            → IfErr result (λ fault. fault ≢ Fault.Memory) }
    {
        self.parts.turn(self.session, part, op)
    }
}

impl<S: Part<A> + Drop, O: Part<A> + Drop, A: Allocator> Turns<A> for OpenTable<S, O, A> {
    ghost use Rattle.std.specs.Prelude.{refl};

    ghost sure = { λ s. refl };
}
