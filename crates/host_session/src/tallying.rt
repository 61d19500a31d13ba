//! Walks that count or delete.
ghost use Rattle.std.specs.Prelude.{◌≡◌, MatchResult, MatchBool, min, ◌+◌};
ghost use Rattle.part_core.specs.Replies.{most_counted};
ghost use Rattle.walks.specs.Query.{IsWithin};
ghost use Rattle.host_session.specs.Begun.{BeginsTally, RefusesCall};
ghost use Rattle.host_session.specs.Going.{TalliesOn};
ghost use Rattle.host_session.specs.Host.{IsSame};

use crate::session::HostSession;
use crate::stop::{Stop, stop_of_visit};
use crate::under::{Progress, Tally, Under};
use part_core::Part;
use std::alloc::Allocator;
use tables::TryTurns;
use term_core::Refused;
use walks::{Counting, Position, Query, count_on, named_count, start};

/// Returns whether a walk with a query can be at a position of the session's table.
fn is_within<A: Allocator, T: TryTurns<A>>(turns: &T, query: &Query<A>, at: &Position<A>) -> bool
    ensures { MatchBool result (IsWithin (T.home turns.now).options query.now at.now)
        (¬ (IsWithin (T.home turns.now).options query.now at.now)) }
{
    at.is_there(turns.options().parts, named_count(turns, query))
}

/// Returns the sum of two numbers, at most 2^64 - 1.
fn capped_sum(total: u64, more: u64) -> u64
    ensures { result ≡ min (total + more) most_counted }
{
    total.saturating_add(more)
}

impl<P: Part<A> + Drop, A: Allocator> HostSession<P, A> {
    /// Begins a walk that counts the objects for which a query returns `true` (ets:select_count/2), or also deletes them
    /// (ets:select_delete/2); `more` returns their number. Refuses it with `UnderWay`; the error hands the query back, and
    /// nothing was done.
    pub fn begin_tally(
        &mut self,
        query: Query<A>,
        counting: Counting,
    ) -> Result<(), Refused<Query<A>, Stop>>
        ensures { MatchResult result (λ _. BeginsTally query counting self.old self.new)
            (λ refused. (refused.value ≡ query) × RefusesCall self.old self.new refused.fault) }
    {
        if !self.is_free() {
            return Err(Refused {
                value: query,
                fault: Stop::UnderWay,
            });
        }
        let bounds = self.bounds;
        let turns = self.own.brief(bounds.looks, bounds.turns);
        let at = start(&turns, &query);
        self.under = Under::Tally(Tally {
            query,
            counting,
            at,
            total: 0,
        });
        Ok(())
    }

    /// Goes on with a walk that counts or deletes.
    pub(crate) fn tally_on(&mut self, tally: Tally<A>) -> Result<Progress, Stop>
        ensures same { IsSame self.old self.new }
        ensures answers { self.new.answers ≡ self.old.answers }
        ensures went { TalliesOn self.old.own self.new.own tally self.new result }
    {
        let Tally {
            query,
            counting,
            mut at,
            total,
        } = tally;
        let bounds = self.bounds;
        let mut turns = self.own.brief(bounds.looks, bounds.turns);
        if !is_within(&turns, &query, &at) {
            self.under = Under::Ended(query);
            return Err(Stop::Stranger);
        }
        let mut more = 0;
        let counted = count_on(&mut turns, &query, counting, &mut at, &mut more);
        let halt = turns.halt;
        let total = capped_sum(total, more);
        match counted {
            Ok(()) => {
                self.under = Under::Ended(query);
                Ok(Progress::Counted(total))
            }
            Err(fault) => {
                self.under = Under::Tally(Tally {
                    query,
                    counting,
                    at,
                    total,
                });
                Err(stop_of_visit(fault, halt))
            }
        }
    }
}
