//! Deletions with each allocation failing in turn, alone and together with all later ones. The number of a deletion
//! that fails is that of the objects of its completed visits, which are deleted. It leaves the fixes of its session
//! unchanged, and a second deletion deletes the rest.
ghost use Rattle.std.specs.Prelude.{◌≡◌};

use crate::plays::{Play, fixes_below, query_of};
use crate::trials::{Act, Trial, first_wrong};
use crate::watch::Watch;
use kit_alloc::Failing;
use kit_rows::{digits, fields};
use part_core::TableKind;
use std::alloc::{Allocator, Global};
use tables::{Turns, member};
use term_core::Term;
use walks::{Query, select_delete};

/// The objects of two parts: four in one class, and one in each of two.
const OBJECTS: &str = "{0,a}. {16,b}. {32,c}. {48,d}. {1,e}. {3,f}.";
/// The answer on each object is true, by comparing a tuple that is made of its key.
const ALL: &str = "[{{'$1','_'},[{'=<',{{0}},{{'$1'}}}],[true]}].";
/// The answer is true on the objects of three keys that are named; one more named key has no object.
const NAMED: &str = "[{{32,'$1'},[{'=<',{{0}},{{'$1'}}}],[true]},{{5,'_'},[],[true]},
    {{1,'$1'},[{'=<',{{0}},{{'$1'}}}],[true]},{{0,'$1'},[{'=<',{{0}},{{'$1'}}}],[true]}].";

/// The answer on each object is true, by comparing a tuple that is made of its only element.
const EACH: &str = "[{{'$1'},[{'=<',{{0}},{{'$1'}}}],[true]}].";

/// Trials in which the session fixes one of two parts, or none.
const TRIALS: [Trial; 6] = [
    Trial {
        play: Play {
            kind: TableKind::Set,
            parts: 2,
            objects: OBJECTS,
            specification: ALL,
            fixed: 1,
        },
        act: Act::Delete("0++++++ 4----++ 5-----+ "),
        wanted: "6------ ",
    },
    Trial {
        play: Play {
            kind: TableKind::Set,
            parts: 2,
            objects: OBJECTS,
            specification: NAMED,
            fixed: 0,
        },
        act: Act::Delete("0++++++ 1++-+++ 2++-+-+ "),
        wanted: "3-+-+-+ ",
    },
    Trial {
        play: Play {
            kind: TableKind::OrderedSet,
            parts: 1,
            objects: OBJECTS,
            specification: ALL,
            fixed: 0,
        },
        act: Act::Delete("0++++++ "),
        wanted: "6------ ",
    },
    Trial {
        play: Play {
            kind: TableKind::Set,
            parts: 1,
            objects: "{1}. {2}. {3}. {4}. {5}.",
            specification: EACH,
            fixed: 1,
        },
        act: Act::Delete("0+++++ 1-++++ 2--+++ 3---++ 4----+ "),
        wanted: "5----- ",
    },
    Trial {
        play: Play {
            kind: TableKind::Bag,
            parts: 1,
            objects: "{1}. {9}. {17}.",
            specification: EACH,
            fixed: 0,
        },
        act: Act::Delete("0+++ "),
        wanted: "3--- ",
    },
    Trial {
        play: Play {
            kind: TableKind::Set,
            parts: 2,
            objects: "{1}. {2}. {3}. {4}.",
            specification: EACH,
            fixed: 2,
        },
        act: Act::Delete("0++++ 1+-++ 2+-+- 3--+- "),
        wanted: "4---- ",
    },
];

/// Returns whether there is an object with the key of this one.
fn is_left<A: Allocator, T: Turns<A>>(session: &mut T, object: &Term<A>) -> Option<bool>
    requires { T.is_ready session.old }
    ensures ready { T.is_ready session.new }
    ensures same { T.home session.new ≡ T.home session.old }
{
    Some(member(session, fields(object)?.first()?))
}

/// Appends a mark for each of these objects: `+` if its key has an object, `-` if it is deleted. It does not allocate
/// from the table's allocator.
pub(crate) fn put_marks<A: Allocator, T: Turns<A>>(
    session: &mut T,
    objects: &[Term<A>],
    marks: &mut Vec<u8>,
) -> Option<()>
    requires { T.is_ready session.old }
    ensures ready { T.is_ready session.new }
    ensures same { T.home session.new ≡ T.home session.old }
{
    for object in objects {
        let mark = if is_left(session, object)? {
            b'+'
        } else {
            b'-'
        };
        marks.push(mark).ok()?;
    }
    Some(())
}

/// Returns how many of these marks say that an object is deleted.
pub(crate) fn gone_of(marks: &[u8]) -> u64 {
    let mut gone: u64 = 0;
    for mark in marks {
        if *mark == b'-' {
            gone = gone.saturating_add(1);
        }
    }
    gone
}

/// Returns the stage after a deletion with this number: the number, and the marks of these objects. Records whether the
/// session has the fixes that it had.
fn stage<A: Allocator, T: Turns<A>>(
    alloc: Global,
    watch: &mut Watch<'_>,
    session: &mut T,
    objects: &[Term<A>],
    fixed: u8,
    count: u64,
) -> Option<Vec<u8>>
    requires { T.is_ready session.old }
    ensures ready { T.is_ready session.new }
    ensures same { T.home session.new ≡ T.home session.old }
{
    watch.sees(fixes_below(session, fixed));
    let mut stage = digits(alloc, count)?;
    let are_put = put_marks(session, objects, &mut stage).is_some();
    if are_put && stage.push(b' ').is_ok() {
        Some(stage)
    } else {
        drop(stage);
        None
    }
}

/// Makes a deletion. Returns how many objects it deleted, and whether it failed.
fn deleted<A: Allocator, T: Turns<A>>(
    watch: &mut Watch<'_>,
    session: &mut T,
    query: &Query<A>,
) -> (u64, bool)
    requires { T.is_ready session.old }
    ensures ready { T.is_ready session.new }
    ensures same { T.home session.new ≡ T.home session.old }
{
    let (count, is_refused) = match select_delete(session, query) {
        Ok(count) => (count, false),
        Err(refused) => (refused.value, true),
    };
    watch.ended(is_refused);
    (count, is_refused)
}

/// Appends a stage, unless the last one is equal to it.
fn put_stage(stage: &[u8], stages: &mut Vec<u8>) -> Option<()> {
    if stages.as_slice().ends_with(stage) {
        return Some(());
    }
    stages.extend_from_slice(stage).ok()
}

/// Returns whether a deletion that failed at this stage, with this number, is right when it is made again, and appends
/// the stage. If it fails again, it must have deleted nothing more.
fn is_deleted_again<A: Allocator, T: Turns<A>>(
    alloc: Global,
    watch: &mut Watch<'_>,
    session: &mut T,
    query: &Query<A>,
    objects: &[Term<A>],
    trial: Trial,
    count: u64,
    first: &[u8],
    stages: &mut Vec<u8>,
) -> Option<bool>
    requires { T.is_ready session.old }
{
    put_stage(first, stages)?;
    let (more, is_refused) = deleted(watch, session, query);
    let second = stage(
        alloc,
        watch,
        session,
        objects,
        trial.play.fixed,
        count.saturating_add(more),
    )?;
    let is_right = if is_refused {
        watch.stops() && second.as_slice() == first
    } else {
        watch.is_right() && second.as_slice() == trial.wanted.as_bytes()
    };
    drop(second);
    Some(is_right)
}

/// Returns whether a deletion is right at these objects; it is made again if it fails.
fn is_deleted<A: Allocator, T: Turns<A>>(
    alloc: Global,
    watch: &mut Watch<'_>,
    session: &mut T,
    query: &Query<A>,
    objects: &[Term<A>],
    trial: Trial,
    stages: &mut Vec<u8>,
) -> Option<bool>
    requires { T.is_ready session.old }
{
    let (count, is_refused) = deleted(watch, session, query);
    let first = stage(alloc, watch, session, objects, trial.play.fixed, count)?;
    let is_right = if is_refused {
        let first = first.as_slice();
        is_deleted_again(
            alloc, watch, session, query, objects, trial, count, first, stages,
        )
    } else {
        Some(watch.is_right() && first.as_slice() == trial.wanted.as_bytes())
    };
    drop(first);
    is_right
}

/// Makes the trial's query, and returns whether a deletion by it is right, or `None` if memory runs out for the query.
pub(crate) fn is_deleted_by<A: Allocator + Copy, T: Turns<A>>(
    alloc: Global,
    heap: A,
    counts: &Failing<Global>,
    session: &mut T,
    objects: &[Term<A>],
    trial: Trial,
    stages: &mut Vec<u8>,
) -> Option<bool>
    requires { T.is_ready session.old }
{
    let query = query_of(heap, trial.play.specification)?;
    let mut watch = Watch::new(counts);
    let is_right = is_deleted(alloc, &mut watch, session, &query, objects, trial, stages);
    drop(query);
    is_right
}

/// Returns the index of the first of the trials that is not right.
fn wrong_trial(alloc: Global) -> Option<usize> {
    first_wrong(alloc, &TRIALS)
}

#[test]
fn refused_deletions_say_what_is_gone(rt: HostRuntime) {
    let wrong = wrong_trial(rt.alloc());
    assert!(rt; wrong == None, "{wrong:?}");
}
