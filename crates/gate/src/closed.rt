//! Gates that were closed together.
ghost use Rattle.std.specs.Prelude.{◌≡◌, ◌++◌, IfOk, MatchOption, [], ◌∷◌, map};
ghost use Rattle.gate.specs.Views.{Ticket, IsLeft};

use crate::gate::Gate;
use crate::lost::Lost;
use crate::pass::Pass;
use part_core::Part;
use std::alloc::{Allocator, Global};

/// Gates that were closed together, each with one pass.
#[derive(Drop)]
pub struct Closed<P: Part<A> + Drop, A: Allocator = Global> {
    /// The gates of the parts that have not been handed out yet.
    pub gates: Vec<Gate<P, A>, A>,
    /// A pass for each of these gates.
    pub passes: Vec<Pass<P>, A>,
    ghost made: { ∥ (map (λ t. t.gate) passes.items ≡ gates.items) ∥₁ },
}

impl<P: Part<A> + Drop, A: Allocator> Closed<P, A> {
    /// Returns the part of the last gate that is not closed yet, or `None` when all are. The part is lost if a session
    /// has taken it out and never put it back; the next call then continues with the part before it.
    pub fn next_part(&mut self) -> Option<Result<P, Lost>>
        ensures { MatchOption result ((self.old.gates.items ≡ []) × (self.old.passes.items ≡ []))
            (λ given. (ticket : Ticket) × (self.old.gates.items ≡ self.new.gates.items ++ ticket.gate ∷ [])
            × (self.old.passes.items ≡ self.new.passes.items ++ ticket ∷ [])
            × IfOk given (λ part. (P.settings part ≡ ticket.settings) × IsLeft P.is_after ticket.number ticket.log part)) }
    {
        let Some(gate) = self.gates.pop() else {
            return None;
        };
        let Some(pass) = self.passes.pop() else {
            unreachable!()
        };
        Some(gate.close(pass))
    }
}
