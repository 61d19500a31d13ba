//! How calls of many turns go on, and how they end.
ghost use Rattle.std.specs.Prelude.{◌≡◌, MatchBool};
ghost use Rattle.host_session.specs.Begun.{IsFree};
ghost use Rattle.host_session.specs.Going.{GoesOn, GivesUp};
ghost use Rattle.host_session.specs.Host.{IsSame};

use crate::session::HostSession;
use crate::stop::Stop;
use crate::under::{Progress, Under};
use part_core::Part;
use std::alloc::Allocator;
use std::mem;
use walks::Query;

impl<P: Part<A> + Drop, A: Allocator> HostSession<P, A> {
    /// Returns whether no call of many turns is under way.
    pub fn is_free(&self) -> bool
        ensures { MatchBool result (IsFree self.now.under) (¬ (IsFree self.now.under)) }
    {
        match &self.under {
            Under::Nothing | Under::Ended(_) => true,
            Under::Walk(_)
            | Under::Tally(_)
            | Under::After(_)
            | Under::From(_)
            | Under::Change(..) => false,
        }
    }

    /// Gives up the walk that is under way, and returns its query; that of a walk that is at its end too. Returns `None` if
    /// there is none, and gives up a search for a key. Stops with `UnderWay` if a change of fixes is under way, which can't
    /// be given up.
    pub fn stop(&mut self) -> Result<Option<Query<A>>, Stop>
        ensures stays { (IsSame self.old self.new) × (self.new.own ≡ self.old.own) × (self.new.answers ≡ self.old.answers) }
        ensures ended { GivesUp self.old.under self.new.under result }
    {
        match mem::replace(&mut self.under, Under::Nothing) {
            Under::Nothing | Under::After(_) | Under::From(_) => Ok(None),
            Under::Ended(query) => Ok(Some(query)),
            Under::Walk(walk) => Ok(Some(walk.query)),
            Under::Tally(tally) => Ok(Some(tally.query)),
            Under::Change(change, part) => {
                self.under = Under::Change(change, part);
                Err(Stop::UnderWay)
            }
        }
    }
}

impl<P: Part<A> + Drop, A: Allocator + Copy> HostSession<P, A> {
    /// Goes on with the call of many turns that is under way, until it is done or has answers, or is stopped. Stops with
    /// `UnderWay` if there is none.
    pub fn more(&mut self) -> Result<Progress, Stop>
        ensures same { IsSame self.old self.new }
        ensures went { GoesOn self.old self.new result }
    {
        match mem::replace(&mut self.under, Under::Nothing) {
            Under::Nothing => Err(Stop::UnderWay),
            Under::Ended(query) => {
                self.under = Under::Ended(query);
                Err(Stop::UnderWay)
            }
            Under::Walk(walk) => self.walk_on(walk),
            Under::Tally(tally) => self.tally_on(tally),
            Under::After(key) => self.search_after(key),
            Under::From(part) => {
                let turns = self.bounds.turns;
                self.search_from(part, turns)
            }
            Under::Change(change, part) => self.change_on(change, part),
        }
    }
}
