//! Searches for the first key, and for the key after another.
ghost use Rattle.std.specs.Prelude.{◌≡◌, ◌≤◌, ◌<◌, [], IfErr, IfOk, MatchResult, vec_capacity, vec_len};
ghost use Rattle.tables.specs.Turns.{Follows};
ghost use Rattle.walks.specs.Keys.{FoundFirst};
ghost use Rattle.host_session.specs.Begun.{BeginsAfter, BeginsFrom, RefusesCall};
ghost use Rattle.host_session.specs.Going.{IsFound, SearchedNext, SearchesAfter, SearchesFrom, StopsFirst, left_after};
ghost use Rattle.host_session.specs.Host.{IsSame};

use crate::session::HostSession;
use crate::stop::{Stop, stop_at_part, stop_of_halt};
use crate::under::{Progress, Searched, Under};
use part_core::Part;
use std::alloc::Allocator;
use tables::{TryTurns, part_of_key};
use term_core::Term;
use walks::{first_at, next_at};

/// Returns the first key of the parts from one on that has objects, or `None`. If a turn is not made, the error is the
/// number of its part, at which the search goes on.
fn first_on<A: Allocator, T: TryTurns<A>>(turns: &mut T, from: u8) -> Result<Option<Term<A>>, u8>
    requires ready { T.is_ready turns.old }
    requires from { from ≤ (T.home turns.old).options.parts }
    ensures ready { T.is_ready turns.new }
    ensures same { T.home turns.new ≡ T.home turns.old }
    ensures done { IfOk result (λ key. Follows (T.sees turns.old) (T.sees turns.new) (FoundFirst (T.home turns.old) from key)) }
    ensures stopped { IfErr result (λ part. Follows (T.sees turns.old) (T.sees turns.new) (StopsFirst (T.home turns.old) from part)) }
{
    for part in from..turns.options().parts {
        match first_at(turns, part) {
            Ok(Some(key)) => return Ok(Some(key)),
            Ok(None) => {}
            Err(_) => return Err(part),
        }
    }
    Ok(None)
}

/// Searches for the key after another, at that one's part, and at the parts after it if there is none.
fn next_on<A: Allocator, T: TryTurns<A>>(turns: &mut T, key: &Term<A>) -> Searched<A>
    requires ready { T.is_ready turns.old }
    ensures ready { T.is_ready turns.new }
    ensures same { T.home turns.new ≡ T.home turns.old }
    ensures went { Follows (T.sees turns.old) (T.sees turns.new) (SearchedNext (T.home turns.old) key.now result) }
{
    let part = part_of_key(key, turns.options().parts);
    match next_at(turns, part, key) {
        Ok(Some(next)) => Searched::Found(Some(next)),
        Ok(None) => match first_on(turns, part + 1) {
            Ok(next) => Searched::Found(next),
            Err(from) => Searched::From(from),
        },
        Err(fault) => Searched::Refused(fault),
    }
}

/// Returns what is under way after a search for the key after another is stopped at that one's part: the same search, unless
/// the key has no row.
fn left_after<A: Allocator>(key: Term<A>, stop: Stop) -> Under<A>
    ensures { result ≡ left_after key stop }
{
    if stop == Stop::BadKey {
        drop(key);
        return Under::Nothing;
    }
    Under::After(key)
}

/// Appends a key, if there is one, to a list that has none, and room for it.
fn with_key<A: Allocator>(mut found: Vec<Term<A>, A>, key: Option<Term<A>>) -> Vec<Term<A>, A>
    requires room { vec_len found < vec_capacity found }
    requires none { found.items ≡ [] }
    ensures { IsFound key result.items }
{
    if let Some(key) = key {
        found.push_reserved(key);
    }
    found
}

impl<P: Part<A> + Drop, A: Allocator + Copy> HostSession<P, A> {
    /// Begins a search for the first key in walk order (ets:first/1); `more` makes it the session's one answer, or there is
    /// none. Refuses it with `UnderWay`; then nothing was done.
    pub fn begin_first(&mut self) -> Result<(), Stop>
        ensures { MatchResult result (λ _. BeginsFrom 0 self.old self.new) (RefusesCall self.old self.new) }
    {
        if !self.is_free() {
            return Err(Stop::UnderWay);
        }
        self.under = Under::From(0);
        Ok(())
    }

    /// Begins a search for the key after another in walk order (ets:next/2); `more` makes it the session's one answer, or
    /// there is none. Refuses it with `UnderWay`; then nothing was done.
    pub fn begin_next(&mut self, key: Term<A>) -> Result<(), Stop>
        ensures { MatchResult result (λ _. BeginsAfter key self.old self.new) (RefusesCall self.old self.new) }
    {
        if !self.is_free() {
            return Err(Stop::UnderWay);
        }
        self.under = Under::After(key);
        Ok(())
    }

    /// Goes on with a search at the parts from one on, with at most `turns` turns.
    pub(crate) fn search_from(&mut self, from: u8, turns: u64) -> Result<Progress, Stop>
        ensures same { IsSame self.old self.new }
        ensures went { SearchesFrom self.old.own self.new.own from self.old.answers.items self.new result }
    {
        let alloc = *self.answers.allocator();
        let Ok(found) = Vec::with_capacity(alloc, 1) else {
            self.under = Under::From(from);
            return Err(Stop::Memory);
        };
        if self.own.options().parts < from {
            self.answers = found;
            self.under = Under::Nothing;
            return Ok(Progress::Last);
        }
        let looks = self.bounds.looks;
        let mut turns = self.own.brief(looks, turns);
        match first_on(&mut turns, from) {
            Ok(key) => {
                self.answers = with_key(found, key);
                self.under = Under::Nothing;
                Ok(Progress::Last)
            }
            Err(part) => {
                let stop = stop_of_halt(turns.halt);
                self.under = Under::From(part);
                Err(stop)
            }
        }
    }

    /// Goes on with a search for the key after another, at that one's part, and at the parts after it if there is none.
    pub(crate) fn search_after(&mut self, key: Term<A>) -> Result<Progress, Stop>
        ensures same { IsSame self.old self.new }
        ensures went { SearchesAfter self.old.own self.new.own key self.old.answers.items self.new result }
    {
        let alloc = *self.answers.allocator();
        let Ok(found) = Vec::with_capacity(alloc, 1) else {
            self.under = Under::After(key);
            return Err(Stop::Memory);
        };
        let bounds = self.bounds;
        let mut turns = self.own.brief(bounds.looks, bounds.turns);
        match next_on(&mut turns, &key) {
            Searched::Found(next) => {
                drop(key);
                self.answers = with_key(found, next);
                self.under = Under::Nothing;
                Ok(Progress::Last)
            }
            Searched::From(part) => {
                let stop = stop_of_halt(turns.halt);
                drop(key);
                self.under = Under::From(part);
                Err(stop)
            }
            Searched::Refused(fault) => {
                let stop = stop_at_part(fault, turns.halt);
                self.under = left_after(key, stop);
                Err(stop)
            }
        }
    }
}
