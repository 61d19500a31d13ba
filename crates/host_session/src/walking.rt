//! Walks in pieces.
ghost use Rattle.std.specs.Prelude.{◌≡◌, MatchResult};
ghost use Rattle.host_session.specs.Begun.{BeginsWalk, RefusesWalk};
ghost use Rattle.host_session.specs.Going.{TakesStep, WalksOn};
ghost use Rattle.host_session.specs.Host.{IsSame};

use crate::session::HostSession;
use crate::stop::{Stop, stop_of_walk};
use crate::under::{Progress, Under};
use part_core::Part;
use std::alloc::Allocator;
use term_core::Refused;
use walks::{Continuation, Query, Step, select_more, walk_begun};

impl<P: Part<A> + Drop, A: Allocator + Copy> HostSession<P, A> {
    /// Begins a walk in pieces of at most `limit` answers each (ets:select/3); `more` returns them. Refuses it with
    /// `BadLimit` if the limit is 0, or with `UnderWay`; the error hands the query back, and nothing was done.
    pub fn begin_walk(&mut self, query: Query<A>, limit: u64) -> Result<(), Refused<Query<A>, Stop>>
        ensures { MatchResult result (λ _. BeginsWalk query limit self.old self.new)
            (RefusesWalk query limit self.old self.new) }
    {
        if !self.is_free() {
            return Err(Refused {
                value: query,
                fault: Stop::UnderWay,
            });
        }
        if limit == 0 {
            return Err(Refused {
                value: query,
                fault: Stop::BadLimit,
            });
        }
        let alloc = *self.answers.allocator();
        let bounds = self.bounds;
        let turns = self.own.brief(bounds.looks, bounds.turns);
        let walk = walk_begun(alloc, &turns, query, limit);
        self.under = Under::Walk(walk);
        Ok(())
    }

    /// Keeps what a step of a walk returned, and returns what the call did.
    fn take_step(&mut self, alloc: A, step: Step<A>) -> Progress
        ensures same { (self.new.own ≡ self.old.own) × (self.new.bounds ≡ self.old.bounds) }
        ensures took { TakesStep step self.new result }
    {
        match step {
            Step::Piece(answers, walk) => {
                self.answers = answers;
                self.under = Under::Walk(walk);
                Progress::More
            }
            Step::End(query) => {
                self.answers = Vec::new(alloc);
                self.under = Under::Ended(query);
                Progress::Last
            }
        }
    }

    /// Goes on with a walk, to its next piece or its end.
    pub(crate) fn walk_on(&mut self, walk: Continuation<A>) -> Result<Progress, Stop>
        ensures same { IsSame self.old self.new }
        ensures went { WalksOn self.old.own self.new.own walk self.old.answers.items self.new result }
    {
        let alloc = *self.answers.allocator();
        let bounds = self.bounds;
        let mut turns = self.own.brief(bounds.looks, bounds.turns);
        match select_more(alloc, &mut turns, walk) {
            Ok(step) => Ok(self.take_step(alloc, step)),
            Err(refused) => {
                let stop = stop_of_walk(refused.fault, turns.halt);
                self.under = Under::Walk(refused.value);
                Err(stop)
            }
        }
    }
}
