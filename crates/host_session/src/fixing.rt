//! Changes of fixes.
ghost use Rattle.std.specs.Prelude.{◌≡◌, ◌≤◌, MatchBool, MatchResult};
ghost use Rattle.tables.specs.Fixing.{IsGrantedFrom};
ghost use Rattle.tables.specs.Turns.{Views};
ghost use Rattle.host_session.specs.Begun.{BeginsChange, BeginsRelease, RefusesCall};
ghost use Rattle.host_session.specs.Going.{ChangesOn, refusal_of};
ghost use Rattle.host_session.specs.Host.{IsSame};

use crate::session::HostSession;
use crate::stop::{Stop, stop_of_halt};
use crate::under::{Progress, Under};
use part_core::Part;
use std::alloc::Allocator;
use tables::{Change, TryTurns, change_from};

/// Returns whether the session's count of fixes allows a change at each part from one on.
fn is_granted_from<A: Allocator, T: TryTurns<A>>(turns: &T, change: Change, from: u8) -> bool
    requires { T.is_ready turns.now }
    ensures { (v : Views) → T.sees turns.now v → MatchBool result
        (IsGrantedFrom (T.home turns.now) from change v) (¬ (IsGrantedFrom (T.home turns.now) from change v)) }
{
    for part in from..turns.options().parts {
        if !change.is_granted(turns.fixes(part)) {
            return false;
        }
    }
    true
}

/// Returns why a change is not allowed.
fn refusal_of(change: Change) -> Stop
    ensures { result ≡ refusal_of change }
{
    match change {
        Change::Fix => Stop::FixLimit,
        Change::Unfix | Change::Release => Stop::NotFixed,
    }
}

impl<P: Part<A> + Drop, A: Allocator> HostSession<P, A> {
    /// Begins a change of the session's fixes of all parts: one more (ets:safe_fixtable/2), one less, or none left; `more`
    /// makes it. Refuses it with `UnderWay`; then nothing was done.
    pub fn begin_change(&mut self, change: Change) -> Result<(), Stop>
        ensures { MatchResult result (λ _. BeginsChange change self.old self.new) (RefusesCall self.old self.new) }
    {
        if !self.is_free() {
            return Err(Stop::UnderWay);
        }
        self.under = Under::Change(change, 0);
        Ok(())
    }

    /// Begins to release all fixes of the session, or goes on with that. Whatever else is under way is given up.
    pub fn begin_release(&mut self)
        ensures { BeginsRelease self.old self.new }
    {
        match &self.under {
            Under::Change(Change::Release, _) => {}
            _ => self.under = Under::Change(Change::Release, 0),
        }
    }

    /// Goes on with a change of fixes at the parts from one on. If the session's count at one of them doesn't allow it, it is
    /// ended there.
    pub(crate) fn change_on(&mut self, change: Change, from: u8) -> Result<Progress, Stop>
        ensures same { IsSame self.old self.new }
        ensures answers { self.new.answers ≡ self.old.answers }
        ensures went { ChangesOn self.old.own self.new.own change from self.new result }
    {
        self.under = Under::Nothing;
        let bounds = self.bounds;
        let mut turns = self.own.brief(bounds.looks, bounds.turns);
        if !is_granted_from(&turns, change, from) {
            return Err(refusal_of(change));
        }
        if turns.options().parts < from {
            return Ok(Progress::Done);
        }
        match change_from(&mut turns, change, from) {
            None => Ok(Progress::Done),
            Some(part) => {
                self.under = Under::Change(change, part);
                Err(stop_of_halt(turns.halt))
            }
        }
    }
}
