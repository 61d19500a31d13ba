//! A session: its passes through the gates of a table.
ghost use Rattle.std.specs.Prelude.{ℕ, ◌≡◌, ◌≢◌, ◌<◌, ◌⊎◌, ◌++◌, None, Some, IsTrue, IfNone, IfSome, IfErr, IfOk, OnOk, [], ◌∷◌, slice_get};
ghost use Rattle.part_core.specs.Acts.{IsAsked};
ghost use Rattle.part_core.specs.Legal.{fix_count};
ghost use Rattle.part_core.specs.Ops.{act_of, answer_in, object_in, takes_no_memory};
ghost use Rattle.gate.specs.Views.{Ticket, GoesOn};
ghost use Rattle.gate.specs.SessionFacts.{all_legal_prop};
ghost use Rattle.gate.specs.Sessions.{AllLegal, IsTurnAt};

use crate::gate::Gate;
use crate::pass::Pass;
use part_core::{Fault, Part, PartOp, Reply};
use std::alloc::{AllocError, Allocator, Global};
use std::sync::Wait;

/// A session of a table, for one thread.
#[derive(Drop)]
pub struct Session<P, A: Allocator = Global> {
    /// The session's number, from 0.
    pub number: u8,
    /// The session's passes, by the numbers of the parts.
    pub passes: Vec<Pass<P>, A>,
    ghost legal: { AllLegal passes.items } by { Prim.hlevel all_legal_prop },
}

impl<P: Part<A> + Drop, A: Allocator> Session<P, A> {
    /// Performs an operation at a part: takes it out through its gate, and puts it back. Waits while another session
    /// has it. If the operation fails, `op` and the part are as they were; running out of memory leaves no entry in the
    /// history.
    pub fn turn<'a, R: Wait>(
        &mut self,
        rt: &R,
        gate: &Gate<P, A>,
        part: u8,
        op: &mut PartOp<'a, A>,
    ) -> Result<Reply<A>, Fault>
        requires made { (pass : Ticket) × (slice_get self.old.passes.items part ≡ Some pass) × (pass.gate ≡ gate.now) }
        requires asked { IsAsked (act_of op.old) }
        ensures number { self.new.number ≡ self.old.number }
        ensures entry { IsTurnAt self.old.passes.items part (act_of op.old) (answer_in result) self.new.passes.items }
        ensures back { IfErr result (λ fault. op.new ≡ op.old) }
        ensures spent { OnOk result (object_in op.new ≡ None) }
        ensures sure { IsTrue (takes_no_memory (act_of op.old))
            → IfErr result (λ fault. fault ≢ Fault.Memory) }
    {
        gate.turn(rt, &mut self.passes[usize::from(part)], op)
    }

    /// Performs an operation at a part, if one of `looks` looks at its gate, at least one, finds the part there. Returns
    /// `None` if each look finds that another session has it; then nothing was done. It waits for nobody and wakes
    /// nobody (`Gate::ask`). If the operation fails, `op` and the part are as they were; running out of memory leaves no
    /// entry in the history.
    pub fn ask<'a>(
        &mut self,
        gate: &Gate<P, A>,
        part: u8,
        op: &mut PartOp<'a, A>,
        looks: u64,
    ) -> Option<Result<Reply<A>, Fault>>
        requires made { (pass : Ticket) × (slice_get self.old.passes.items part ≡ Some pass) × (pass.gate ≡ gate.now) }
        requires asked { IsAsked (act_of op.old) }
        ensures number { self.new.number ≡ self.old.number }
        ensures busy { IfNone result ((self.new.passes.items ≡ self.old.passes.items) × (op.new ≡ op.old)) }
        ensures entry { IfSome result (λ answer.
            IsTurnAt self.old.passes.items part (act_of op.old) (answer_in answer) self.new.passes.items) }
        ensures back { IfSome result (λ answer. IfErr answer (λ fault. op.new ≡ op.old)) }
        ensures spent { IfSome result (λ answer. OnOk answer (object_in op.new ≡ None)) }
        ensures sure { IfSome result (λ answer. IsTrue (takes_no_memory (act_of op.old))
            → IfErr answer (λ fault. fault ≢ Fault.Memory)) }
    {
        gate.ask(&mut self.passes[usize::from(part)], op, looks)
    }

    /// Compares what this session and another have seen of a part: one of the two histories begins with the other.
    pub fn meet_at(&mut self, other: &mut Session<P, A>, gate: &Gate<P, A>, part: u8)
        requires made { (pass : Ticket) × (slice_get self.old.passes.items part ≡ Some pass) × (pass.gate ≡ gate.now) }
        requires other_made { (pass : Ticket) × (slice_get other.old.passes.items part ≡ Some pass) × (pass.gate ≡ gate.now) }
        ensures same { (self.new.number ≡ self.old.number) × (self.new.passes.items ≡ self.old.passes.items) }
        ensures other_same { (other.new.number ≡ other.old.number) × (other.new.passes.items ≡ other.old.passes.items) }
        ensures met { (one two : Ticket) → slice_get self.old.passes.items part ≡ Some one
            → slice_get other.old.passes.items part ≡ Some two → GoesOn one.log two.log ⊎ GoesOn two.log one.log }
    {
        gate.meet(
            &mut self.passes[usize::from(part)],
            &mut other.passes[usize::from(part)],
        );
    }

    /// Adds the session's pass for the next part, which has seen nothing. Fails if an allocation fails.
    pub fn give(&mut self, pass: Pass<P>) -> Result<(), AllocError>
        requires { pass.log ≡ [] }
        ensures number { self.new.number ≡ self.old.number }
        ensures given { IfOk result (λ _. self.new.passes.items ≡ self.old.passes.items ++ pass ∷ []) }
    {
        match self.passes.push(pass) {
            Ok(()) => Ok(()),
            Err(_) => Err(AllocError),
        }
    }
}
