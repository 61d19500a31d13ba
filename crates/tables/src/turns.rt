//! The turns of a session at the parts of a table.
ghost use Rattle.std.specs.Prelude.{ℕ, ◌≡◌, ◌≢◌, ◌<◌, None, Bool, IsTrue, IfErr, OnOk};
ghost use Rattle.part_core.specs.Acts.{IsAsked};
ghost use Rattle.part_core.specs.Legal.{IsLegal, fix_count};
ghost use Rattle.part_core.specs.Ops.{act_of, answer_in, object_in, takes_no_memory};
ghost use Rattle.tables.specs.Options.{settings_of};
ghost use Rattle.tables.specs.Turns.{Home, Views, Turned, Follows};

use crate::options::Options;
use part_core::{Fault, PartOp, Reply};
use std::alloc::Allocator;

/// A session at a table. It sees a history of each part, and each turn at a part adds its entry there, after those of
/// other sessions. A turn may be put off: it is not made, and reports that it ran out of memory, which leaves no entry
/// either.
pub trait TryTurns<A: Allocator> {
    /// The home of the session: its table's options, its number, and whether it is alone.
    ghost home: { Self → Home };
    /// The session can make turns.
    ghost is_ready: { Self → Type 0 };
    /// The parts are in the states after these histories.
    ghost sees: { Self → Views → Type 0 };
    /// The last turn was made, not put off.
    ghost is_made: { Self → Bool };

    /// Returns the options that the table was opened with.
    fn options(&self) -> Options
        ensures { result ≡ (home self.now).options };

    /// Returns the session's number.
    fn number(&self) -> u8
        ensures { result ≡ (home self.now).number };

    /// Returns how many times the session fixes a part.
    fn fixes(&self, part: u8) -> u16
        requires ready { is_ready self.now }
        requires part { part < (home self.now).options.parts }
        ensures { (v : Views) → sees self.now v → result ≡ fix_count (home self.now).number (v part) };

    /// Performs an operation at a part, or puts it off. If it succeeds, no object is left in `op`. If it fails, `op` and
    /// the part are as they were. Running out of memory leaves no entry in the part's history, and a turn that is put
    /// off reports that.
    fn turn<'a>(&mut self, part: u8, op: &mut PartOp<'a, A>) -> Result<Reply<A>, Fault>
        requires ready { is_ready self.old }
        requires part { part < (home self.old).options.parts }
        requires asked { IsAsked (act_of op.old) }
        ensures ready { is_ready self.new }
        ensures same { home self.new ≡ home self.old }
        ensures entry { (v : Views) → sees self.old v → (w : Views) × sees self.new w
            × Turned (home self.old) part (act_of op.old) (answer_in result) v w }
        ensures back { IfErr result (λ fault. op.new ≡ op.old) }
        ensures spent { OnOk result (object_in op.new ≡ None) }
        ensures sure { IsTrue (is_made self.new) → IsTrue (takes_no_memory (act_of op.old))
            → IfErr result (λ fault. fault ≢ Fault.Memory) };

    /// There is a part, and the session is one of the table's.
    ghost fits: { (s : Self) → is_ready s
        → (0 < (home s).options.parts) × ((home s).number < (home s).options.sessions) };
    /// The parts are in the states after some histories.
    ghost seen: { (s : Self) → is_ready s → ∥ ((v : Views) × sees s v) ∥₁ };
    /// The histories that the session sees are legal.
    ghost legal: { (s : Self) (v : Views) (part : ℕ) → is_ready s → sees s v
        → part < (home s).options.parts → IsLegal (settings_of (home s).options) (v part) };
}

/// A session at a table whose turns are all made: none is put off.
pub trait Turns<A: Allocator>: TryTurns<A> {
    /// Its last turn was made.
    ghost sure: { (s : Self) → IsTrue (Self.is_made s) };
}

/// Performs an operation at a part, and drops the operation, also if it fails.
pub fn turn_at<'a, A: Allocator, T: TryTurns<A>>(
    turns: &mut T,
    part: u8,
    op: PartOp<'a, A>,
) -> Result<Reply<A>, Fault>
    requires ready { T.is_ready turns.old }
    requires part { part < (T.home turns.old).options.parts }
    requires asked { IsAsked (act_of op) }
    ensures ready { T.is_ready turns.new }
    ensures same { T.home turns.new ≡ T.home turns.old }
    ensures entry { Follows (T.sees turns.old) (T.sees turns.new)
        (Turned (T.home turns.old) part (act_of op.entry) (answer_in result)) }
    ensures sure { IsTrue (T.is_made turns.new) → IsTrue (takes_no_memory (act_of op.entry))
        → IfErr result (λ fault. fault ≢ Fault.Memory) }
{
    let mut op = op;
    let answered = turns.turn(part, &mut op);
    drop(op);
    answered
}
