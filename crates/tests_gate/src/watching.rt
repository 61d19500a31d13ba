//! Parts that wait for each other: two sessions make turns at two parts at the same time.
ghost use Rattle.std.specs.Prelude.{◌≡◌, All, []};
ghost use Rattle.part_core.specs.Acts.{Entry as PastEntry, IsAsked};
ghost use Rattle.part_core.specs.Legal.{fix_count, state_after};
ghost use Rattle.tables.specs.Options.{settings_of};
ghost use Rattle.tables.specs.Sessions.{IsOpened};

use crate::acts::{Act, both_acted};
use crate::pairs::last_two;
use gate::Closed;
use kit_members::is_raised;
use part_core::{Fault, OpenFault, Part, PartOp, Reply, TableKind};
use part_plain::PlainPart;
use std::alloc::{AllocError, Global};
use std::process::Abort;
use std::sync::atomic::{AtomicBool, Ordering};
use std::sync::{Arc, Wait};
use std::thread::Threads;
use tables::{Options, Session, Table};
use term_core::Term;

/// A part that sets a flag at each operation, and checks whether another part's flag is set.
#[derive(Drop)]
pub(crate) struct Watching<P> {
    part: P,
    mine: Arc<AtomicBool>,
    others: Arc<AtomicBool>,
    // Whether the flag was set at each operation, if there was one.
    has_met: Option<bool>,
}

impl<P: Part<Global> + Drop> Part<Global> for Watching<P> {
    ghost use Rattle.std.specs.Prelude.{false};

    ghost serves = { λ kind. false };

    ghost settings = { λ w. P.settings w.part };

    ghost is_after = { λ w. P.is_after w.part };

    ghost legal = { λ w. P.legal w.part };

    fn make(
        _alloc: Global,
        _kind: TableKind,
        _keypos: u16,
        _parts: u8,
        _sessions: u8,
    ) -> Result<Self, OpenFault> {
        Err(OpenFault::BadOptions)
    }

    fn apply<'a>(
        &mut self,
        session: u8,
        op: &mut PartOp<'a, Global>,
    ) -> Result<Reply<Global>, Fault> {
        self.mine.store(true, Ordering::SeqCst);
        let is_up = is_raised(&self.others);
        self.has_met = Some(is_up && self.has_met != Some(false));
        self.part.apply(session, op)
    }

    fn fixes(&self, session: u8) -> u16 {
        self.part.fixes(session)
    }

    fn objects(&self, alloc: Global) -> Result<Vec<Term>, AllocError> {
        self.part.objects(alloc)
    }
}

/// Returns a flag that is not set.
pub(crate) fn flag<R: Abort>(rt: &R, alloc: Global) -> Arc<AtomicBool> {
    Arc::new(alloc, AtomicBool::new(false)).expect(rt, "a flag")
}

/// Returns a part in its opening state, with its own flag and the one that it checks.
pub(crate) fn part_that_watches<R: Abort, P: Part<Global> + Drop>(
    rt: &R,
    alloc: Global,
    options: Options,
    mine: &Arc<AtomicBool>,
    others: &Arc<AtomicBool>,
) -> Watching<P>
    ensures { (P.settings result.part ≡ settings_of options) × P.is_after result.part [] }
{
    let Ok(part) = P::make(
        alloc,
        options.kind,
        options.keypos,
        options.parts,
        options.sessions,
    ) else {
        rt.panic("no part")
    };
    Watching {
        part,
        mine: mine.clone().expect(rt, "its flag"),
        others: others.clone().expect(rt, "the other's flag"),
        has_met: None,
    }
}

/// Returns two parts that check each other's flag.
fn watching_parts<R: Abort, P: Part<Global> + Drop>(
    rt: &R,
    alloc: Global,
    options: Options,
) -> Vec<Watching<P>>
    ensures { All (λ w. (P.settings w.part ≡ settings_of options) × P.is_after w.part []) result.items }
{
    let one = flag(rt, alloc);
    let other = flag(rt, alloc);
    let mut parts = Vec::new(alloc);
    let first = part_that_watches(rt, alloc, options, &one, &other);
    parts.push(first).ok().expect(rt, "room for a part");
    let second = part_that_watches(rt, alloc, options, &other, &one);
    parts.push(second).ok().expect(rt, "room for another");
    drop(other);
    drop(one);
    parts
}

/// Opens a table over such parts, and returns it with its last two sessions.
pub(crate) fn opened_over<R: Abort, P: Part<Global> + Drop>(
    rt: &R,
    alloc: Global,
    options: Options,
    parts: Vec<Watching<P>>,
) -> (
    Table<Watching<P>>,
    Session<Watching<P>>,
    Session<Watching<P>>,
)
    requires { All (λ w. (P.settings w.part ≡ settings_of options) × P.is_after w.part []) parts.items }
    ensures first { IsOpened result.0.options result.0.gates.items result.1.number result.1.passes.items }
    ensures second { IsOpened result.0.options result.0.gates.items result.2.number result.2.passes.items }
{
    let Ok((table, sessions)) = Table::over(alloc, options, parts) else {
        rt.panic("no table")
    };
    let Some((first, second)) = last_two(&table, sessions) else {
        rt.panic("no two sessions")
    };
    (table, first, second)
}

/// Takes the next part out of a closed table, and returns whether it saw the other's flag at each operation, if there
/// was one.
pub(crate) fn next_met<R: Abort, P: Part<Global> + Drop>(
    rt: &R,
    closed: &mut Closed<Watching<P>>,
) -> Option<bool> {
    let part = closed.next_part().expect(rt, "a part");
    let part = part.expect(rt, "a part that is home");
    let has_met = part.has_met;
    drop(part);
    has_met
}

/// Makes a session again from its fields.
fn made_anew<P: Part<Global> + Drop>(session: Session<P>) -> Session<P>
    ensures number { result.number ≡ session.number }
    ensures passes { result.passes.items ≡ session.passes.items }
{
    let Session { number, passes } = session;
    Session { number, passes }
}

/// Has two sessions make turns at two parts at the same time. Returns for each part whether it saw the other's flag.
fn have_met<R: Threads + Wait + Abort + Sync, P: Part<Global> + Drop + Send>(
    rt: &R,
    alloc: Global,
) -> [Option<bool>; 2] {
    let options = Options {
        name: 1,
        kind: TableKind::Set,
        keypos: 1,
        parts: 2,
        sessions: 2,
    };
    let parts = watching_parts::<R, P>(rt, alloc, options);
    let (table, first, second) = opened_over(rt, alloc, options, parts);
    let Table { options, gates } = table;
    let table = Table { options, gates };
    let first = made_anew(first);
    let second = made_anew(second);
    let (first, second) = both_acted(
        rt,
        alloc,
        &table,
        first,
        Act::Member(1),
        second,
        Act::Member(2),
    );
    drop(first);
    let mut closed = table.close(second);
    let last_met = next_met(rt, &mut closed);
    let first_met = next_met(rt, &mut closed);
    drop(closed);
    [last_met, first_met]
}

#[test]
fn two_parts_are_turned_at_the_same_time(rt: HostRuntime) {
    assert!(rt; have_met::<_, PlainPart<Global>>(&rt, rt.alloc()) == [Some(true), Some(true)]);
}
