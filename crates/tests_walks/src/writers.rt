//! Walks in pieces, between whose pieces another session writes, with each allocation failing in turn, alone and
//! together with all later ones. Calls that are made again with the values that they returned give the pieces of a walk
//! that does not fail.
ghost use Rattle.std.specs.Prelude.{◌≡◌};

use crate::plays::{Numbered, Play, fixes_below, query_of};
use crate::trials::{Act, Trial, first_wrong};
use crate::watch::Watch;
use kit_alloc::Failing;
use kit_rows::{fields, listed};
use part_core::{Fault, TableKind};
use std::alloc::{Allocator, Global};
use tables::{Turns, delete, insert};
use term_core::{Refused, Term};
use term_text::read_terms;
use walks::{Continuation, Query, Step, WalkFault, select_limit, select_more};

/// The maximal number of pieces of a walk.
const MOST_PIECES: usize = 100;

/// The answer on each object is its key.
const KEY: &str = "[{{'$1'},[],['$1']}].";
/// The answer on each object is its key, in a tuple.
const MADE: &str = "[{{'$1'},[],[{{'$1'}}]}].";
/// The answer on each object is its second element.
const SECOND: &str = "[{{'_','$1'},[],['$1']}].";
/// Six keys of two parts: four of one class, and one of each of two more.
const PAIRS: &str = "{0,a}. {1,b}. {16,c}. {32,d}. {3,e}. {48,f}.";
/// Keys that are named, one of them twice, and one that has no object.
const NAMED: &str =
    "[{{32,'$1'},[],['$1']},{{5,'$1'},[],['$1']},{{0,'$1'},[],['$1']},{{32,'_'},[],[again]}].";
/// Four keys in each of eight slots; one more key doubles the slots.
const FULL: &str =
    "{0}. {1}. {2}. {3}. {4}. {5}. {6}. {7}. {8}. {9}. {10}. {11}. {12}. {13}. {14}. {15}.
    {16}. {17}. {18}. {19}. {20}. {21}. {22}. {23}. {24}. {25}. {26}. {27}. {28}. {29}. {30}. {31}.";

/// Walks of session 0, and what session 1 writes after each piece. The parts are fixed in the first four walks, and not
/// in the others.
const TRIALS: [Trial; 9] = [
    // An object that the walk has not reached is deleted, and one is inserted on each side of its position.
    Trial {
        play: Play {
            kind: TableKind::Set,
            parts: 1,
            objects: "{1}. {2}. {3}. {4}. {5}.",
            specification: KEY,
            fixed: 1,
        },
        act: Act::Walk(2, "3. {9}. {6}."),
        wanted: "[1,2]\n[4,5]\n[6]\n",
    },
    // An answer that was found with others of its class is given, although its object is deleted meanwhile.
    Trial {
        play: Play {
            kind: TableKind::Set,
            parts: 1,
            objects: "{1}. {9}. {17}.",
            specification: KEY,
            fixed: 1,
        },
        act: Act::Walk(2, "17."),
        wanted: "[1,9]\n[17]\n",
    },
    // The slots double between two pieces.
    Trial {
        play: Play {
            kind: TableKind::Set,
            parts: 1,
            objects: FULL,
            specification: KEY,
            fixed: 1,
        },
        act: Act::Walk(4, "{32}."),
        wanted: "[0,8,16,24]\n[1,9,17,25]\n[2,10,18,26]\n[3,11,19,27]\n[4,12,20,28]\n[5,13,21,29]\n[6,14,22,30]\n[7,15,23,31]\n",
    },
    // The slots double, and a key that the walk has yet to reach is deleted and inserted again at its place.
    Trial {
        play: Play {
            kind: TableKind::Bag,
            parts: 1,
            objects: FULL,
            specification: MADE,
            fixed: 1,
        },
        act: Act::Walk(2, "15. {32}. {40}. {48}. {15}. {7}."),
        wanted: "[{0},{8}]\n[{16},{24}]\n[{1},{9}]\n[{17},{25}]\n[{2},{10}]\n[{18},{26}]\n[{3},{11}]\n[{19},{27}]\n[{4},{12}]\n[{20},{28}]\n[{5},{13}]\n[{21},{29}]\n[{6},{14}]\n[{22},{30}]\n[{7},{15}]\n[{23},{31}]\n",
    },
    Trial {
        play: Play {
            kind: TableKind::Set,
            parts: 2,
            objects: PAIRS,
            specification: SECOND,
            fixed: 0,
        },
        act: Act::Walk(2, ""),
        wanted: "[a,c]\n[d,f]\n[b,e]\n",
    },
    Trial {
        play: Play {
            kind: TableKind::Set,
            parts: 2,
            objects: PAIRS,
            specification: NAMED,
            fixed: 0,
        },
        act: Act::Walk(1, ""),
        wanted: "[d]\n[a]\n",
    },
    Trial {
        play: Play {
            kind: TableKind::OrderedSet,
            parts: 1,
            objects: PAIRS,
            specification: SECOND,
            fixed: 0,
        },
        act: Act::Walk(4, ""),
        wanted: "[a,b,e,c]\n[d,f]\n",
    },
    Trial {
        play: Play {
            kind: TableKind::OrderedSet,
            parts: 1,
            objects: PAIRS,
            specification: NAMED,
            fixed: 0,
        },
        act: Act::Walk(1, "48. {48,f}."),
        wanted: "[a]\n[d]\n",
    },
    // Keys on both sides of the walk's position are deleted, and one is inserted between them.
    Trial {
        play: Play {
            kind: TableKind::OrderedSet,
            parts: 1,
            objects: "{10}. {20}. {30}.",
            specification: KEY,
            fixed: 0,
        },
        act: Act::Walk(1, "10. 20. {25}."),
        wanted: "[10]\n[25]\n[30]\n",
    },
];

/// Returns the result of a call that is made again, or `None` if it fails again, which must be because memory ran out.
fn again<A: Allocator, V: Drop>(
    watch: &mut Watch<'_>,
    came: Result<Step<A>, Refused<V, WalkFault>>,
) -> Option<Step<A>> {
    watch.ended(came.is_err());
    if let Err(refused) = &came {
        watch.sees(refused.fault == WalkFault::Memory);
    }
    came.ok()
}

/// Begins a walk; if memory runs out, tries again with the query that was returned. Returns `None` if it fails again.
fn begun<A: Allocator + Copy, T: Turns<A>>(
    heap: A,
    watch: &mut Watch<'_>,
    session: &mut T,
    query: Query<A>,
    limit: u64,
    fixed: u8,
) -> Option<Step<A>>
    requires { T.is_ready session.old }
    ensures { T.is_ready session.new }
{
    let came = select_limit(heap, session, query, limit);
    watch.ended(came.is_err());
    match came {
        Ok(step) => Some(step),
        Err(refused) => {
            watch.sees(refused.fault == WalkFault::Memory && fixes_below(session, fixed));
            again(watch, select_limit(heap, session, refused.value, limit))
        }
    }
}

/// Goes on with a walk; if memory runs out, tries again with the walk that was returned. Returns `None` if it fails
/// again.
fn gone_on<A: Allocator + Copy, T: Turns<A>>(
    heap: A,
    watch: &mut Watch<'_>,
    session: &mut T,
    walk: Continuation<A>,
    fixed: u8,
) -> Option<Step<A>>
    requires { T.is_ready session.old }
    ensures { T.is_ready session.new }
{
    watch.sees(fixes_below(session, fixed));
    let came = select_more(heap, session, walk);
    watch.ended(came.is_err());
    match came {
        Ok(step) => Some(step),
        Err(refused) => {
            watch.sees(refused.fault == WalkFault::Memory && fixes_below(session, fixed));
            again(watch, select_more(heap, session, refused.value))
        }
    }
}

/// Inserts an object; if memory runs out, tries again with the object that was returned.
fn put<A: Allocator + Copy, T: Turns<A>>(
    watch: &mut Watch<'_>,
    session: &mut T,
    object: &Term<A>,
) -> Option<()>
    requires { T.is_ready session.old }
    ensures ready { T.is_ready session.new }
    ensures same { T.home session.new ≡ T.home session.old }
{
    let came = insert(session, object.copy().ok()?);
    watch.ended(came.is_err());
    match came {
        Ok(()) => Some(()),
        Err(refused) => {
            watch.sees(refused.fault == Fault::Memory);
            let again = insert(session, refused.value);
            watch.ended(again.is_err());
            again.ok()
        }
    }
}

/// Has a session write what comes after a piece: it inserts tuples, and deletes other terms as keys.
fn written<A: Allocator + Copy, T: Turns<A>>(
    watch: &mut Watch<'_>,
    session: &mut T,
    writes: &[Term<A>],
) -> Option<()>
    requires { T.is_ready session.old }
    ensures ready { T.is_ready session.new }
    ensures same { T.home session.new ≡ T.home session.old }
{
    for write in writes {
        if fields(write).is_some() {
            put(watch, session, write)?;
        } else {
            delete(session, write);
        }
    }
    Some(())
}

/// Has session 1 write, goes on as session 0, and returns whether all was inserted.
fn is_written<A: Allocator + Copy, T: Numbered<A>>(
    watch: &mut Watch<'_>,
    session: &mut T,
    writes: &[Term<A>],
) -> bool
    requires { T.is_ready session.old }
    ensures { T.is_ready session.new }
{
    let is_other = session.goes_on_as(1);
    let is_written = written(watch, session, writes).is_some();
    let is_first = session.goes_on_as(0);
    is_other && is_written && is_first
}

/// Appends the line of a piece; returns `false` if memory runs out.
fn put_piece<A: Allocator>(alloc: Global, piece: &[Term<A>], lines: &mut Vec<u8>) -> bool {
    let Some(line) = listed(alloc, piece) else {
        return false;
    };
    let is_put = lines.extend_from_slice(line.as_slice()).is_ok();
    drop(line);
    is_put && lines.push(b'\n').is_ok()
}

/// Appends the line of a piece, writes what comes after it, and goes on with the walk. Returns `None` if a call fails
/// again.
fn next_following<A: Allocator + Copy, T: Numbered<A>>(
    alloc: Global,
    heap: A,
    watch: &mut Watch<'_>,
    session: &mut T,
    piece: &[Term<A>],
    walk: Continuation<A>,
    writes: &[Term<A>],
    fixed: u8,
    lines: &mut Vec<u8>,
) -> Option<Step<A>>
    requires { T.is_ready session.old }
    ensures { T.is_ready session.new }
{
    let is_put = put_piece(alloc, piece, lines);
    let is_written = is_written(watch, session, writes);
    if is_put && is_written {
        gone_on(heap, watch, session, walk, fixed)
    } else {
        drop(walk);
        None
    }
}

/// Returns the step after a step. A walk that is at its end stays there.
fn next<A: Allocator + Copy, T: Numbered<A>>(
    alloc: Global,
    heap: A,
    watch: &mut Watch<'_>,
    session: &mut T,
    step: Option<Step<A>>,
    writes: &[Term<A>],
    fixed: u8,
    lines: &mut Vec<u8>,
) -> Option<Step<A>>
    requires { T.is_ready session.old }
    ensures { T.is_ready session.new }
{
    match step {
        Some(Step::Piece(piece, walk)) => {
            let objects = piece.as_slice();
            let step = next_following(
                alloc, heap, watch, session, objects, walk, writes, fixed, lines,
            );
            drop(piece);
            step
        }
        Some(Step::End(query)) => Some(Step::End(query)),
        None => None,
    }
}

/// Appends a line for each piece of a walk, and writes between the pieces. Returns whether the walk comes to its end;
/// if it does not, a call has failed again.
fn is_walked<A: Allocator + Copy, T: Numbered<A>>(
    alloc: Global,
    heap: A,
    watch: &mut Watch<'_>,
    session: &mut T,
    first: Option<Step<A>>,
    writes: &[Term<A>],
    fixed: u8,
    lines: &mut Vec<u8>,
) -> bool
    requires { T.is_ready session.old }
{
    let mut step = first;
    for _piece in 0..MOST_PIECES {
        step = next(alloc, heap, watch, session, step, writes, fixed, lines);
    }
    let is_over = matches!(&step, Some(Step::End(_)));
    drop(step);
    is_over
}

/// Returns whether the pieces of a walk are right.
fn are_pieces<A: Allocator + Copy, T: Numbered<A>>(
    alloc: Global,
    heap: A,
    watch: &mut Watch<'_>,
    session: &mut T,
    query: Query<A>,
    trial: Trial,
    limit: u64,
    writes: &[Term<A>],
) -> bool
    requires { T.is_ready session.old }
{
    let fixed = trial.play.fixed;
    let first = begun(heap, watch, session, query, limit, fixed);
    let mut lines = Vec::new(alloc);
    let is_over = is_walked(
        alloc, heap, watch, session, first, writes, fixed, &mut lines,
    );
    let wanted = trial.wanted.as_bytes();
    let is_right = if is_over {
        watch.is_right() && lines.as_slice() == wanted
    } else {
        watch.stops() && wanted.starts_with(lines.as_slice())
    };
    drop(lines);
    is_right
}

/// Makes the trial's query, and returns whether the pieces of a walk by it are right. Returns `None` if memory runs out
/// for the query and for what is written.
pub(crate) fn is_walked_by<A: Allocator + Copy, T: Numbered<A>>(
    alloc: Global,
    heap: A,
    counts: &Failing<Global>,
    session: &mut T,
    trial: Trial,
    limit: u64,
    writes: &str,
) -> Option<bool>
    requires { T.is_ready session.old }
{
    let Ok(writes) = read_terms(heap, writes.as_bytes()) else {
        return None;
    };
    let is_right = match query_of(heap, trial.play.specification) {
        Some(query) => {
            let mut watch = Watch::new(counts);
            let writes = writes.as_slice();
            Some(are_pieces(
                alloc, heap, &mut watch, session, query, trial, limit, writes,
            ))
        }
        None => None,
    };
    drop(writes);
    is_right
}

/// Returns the index of the first of the trials that is not right.
fn wrong_trial(alloc: Global) -> Option<usize> {
    first_wrong(alloc, &TRIALS)
}

#[test]
fn pieces_are_the_same_between_writers(rt: HostRuntime) {
    let wrong = wrong_trial(rt.alloc());
    assert!(rt; wrong == None, "{wrong:?}");
}
