//! Whole walks that select or count, with each allocation failing in turn, alone and together with all later ones. The
//! fixes of the session stay as they were, and a second walk has the result of one that does not fail.
ghost use Rattle.std.specs.Prelude.{◌≡◌};

use crate::plays::{Play, fixes_below, query_of};
use crate::trials::{Act, Trial, first_wrong};
use crate::watch::Watch;
use kit_alloc::Failing;
use kit_rows::{digits, listed};
use part_core::TableKind;
use std::alloc::{Allocator, Global};
use tables::Turns;
use walks::{Query, select, select_count};

/// A whole walk.
#[derive(Clone, Copy)]
pub(crate) enum Call {
    /// All answers.
    Select,
    /// The number of objects for which the answer is true.
    Count,
}

/// Six keys of two parts: four of one class, and one of each of two more.
const KEYS: &str = "{0,a}. {1,b}. {16,c}. {32,d}. {3,e}. {48,f}.";
/// The answer on each object is its second element.
const SECOND: &str = "[{{'_','$1'},[],['$1']}].";
/// The answer on objects with a key of at least 16 is true, by comparing a tuple that is made of each key.
const LARGE: &str = "[{{'$1','_'},[{'=<',{{16}},{{'$1'}}}],[true]}].";
/// Keys that are named, one of them twice, and one that has no object.
const NAMED: &str =
    "[{{32,'$1'},[],['$1']},{{5,'$1'},[],['$1']},{{0,'$1'},[],['$1']},{{32,'_'},[],[again]}].";

/// The answer on each object is its key.
const KEY: &str = "[{{'$1'},[],['$1']}].";
/// The answer on each object is true.
const TRUE: &str = "[{'_',[],[true]}].";
/// Keys of five classes.
const FIVE: &str = "{1}. {2}. {3}. {4}. {5}.";
/// Keys of one class.
const ALIKE: &str = "{1}. {9}. {17}.";
/// Keys of two parts.
const FOUR: &str = "{1}. {2}. {3}. {4}.";
/// Four keys in each of eight slots.
const FULL: &str =
    "{0}. {1}. {2}. {3}. {4}. {5}. {6}. {7}. {8}. {9}. {10}. {11}. {12}. {13}. {14}. {15}.
    {16}. {17}. {18}. {19}. {20}. {21}. {22}. {23}. {24}. {25}. {26}. {27}. {28}. {29}. {30}. {31}.";

/// Trials in which the session fixes one of two parts, both, or that of an ordered set, or none.
const TRIALS: [Trial; 13] = [
    Trial {
        play: Play {
            kind: TableKind::Set,
            parts: 2,
            objects: KEYS,
            specification: SECOND,
            fixed: 1,
        },
        act: Act::Ask(Call::Select),
        wanted: "[a,c,d,f,b,e]",
    },
    Trial {
        play: Play {
            kind: TableKind::Set,
            parts: 2,
            objects: KEYS,
            specification: LARGE,
            fixed: 1,
        },
        act: Act::Ask(Call::Count),
        wanted: "3",
    },
    Trial {
        play: Play {
            kind: TableKind::Set,
            parts: 2,
            objects: KEYS,
            specification: NAMED,
            fixed: 2,
        },
        act: Act::Ask(Call::Select),
        wanted: "[d,a]",
    },
    Trial {
        play: Play {
            kind: TableKind::OrderedSet,
            parts: 1,
            objects: KEYS,
            specification: SECOND,
            fixed: 0,
        },
        act: Act::Ask(Call::Select),
        wanted: "[a,b,e,c,d,f]",
    },
    Trial {
        play: Play {
            kind: TableKind::OrderedSet,
            parts: 1,
            objects: KEYS,
            specification: LARGE,
            fixed: 1,
        },
        act: Act::Ask(Call::Count),
        wanted: "3",
    },
    Trial {
        play: Play {
            kind: TableKind::Set,
            parts: 1,
            objects: FIVE,
            specification: KEY,
            fixed: 1,
        },
        act: Act::Ask(Call::Select),
        wanted: "[1,2,3,4,5]",
    },
    Trial {
        play: Play {
            kind: TableKind::Set,
            parts: 1,
            objects: FIVE,
            specification: TRUE,
            fixed: 1,
        },
        act: Act::Ask(Call::Count),
        wanted: "5",
    },
    Trial {
        play: Play {
            kind: TableKind::Set,
            parts: 1,
            objects: ALIKE,
            specification: KEY,
            fixed: 1,
        },
        act: Act::Ask(Call::Select),
        wanted: "[1,9,17]",
    },
    Trial {
        play: Play {
            kind: TableKind::OrderedSet,
            parts: 1,
            objects: "{10}. {20}. {30}.",
            specification: KEY,
            fixed: 0,
        },
        act: Act::Ask(Call::Select),
        wanted: "[10,20,30]",
    },
    Trial {
        play: Play {
            kind: TableKind::OrderedSet,
            parts: 1,
            objects: "{10}. {20}. {30}.",
            specification: TRUE,
            fixed: 0,
        },
        act: Act::Ask(Call::Count),
        wanted: "3",
    },
    Trial {
        play: Play {
            kind: TableKind::Set,
            parts: 2,
            objects: FOUR,
            specification: KEY,
            fixed: 0,
        },
        act: Act::Ask(Call::Select),
        wanted: "[2,4,1,3]",
    },
    Trial {
        play: Play {
            kind: TableKind::Set,
            parts: 1,
            objects: FULL,
            specification: KEY,
            fixed: 1,
        },
        act: Act::Ask(Call::Select),
        wanted: "[0,8,16,24,1,9,17,25,2,10,18,26,3,11,19,27,4,12,20,28,5,13,21,29,6,14,22,30,7,15,23,31]",
    },
    Trial {
        play: Play {
            kind: TableKind::DuplicateBag,
            parts: 1,
            objects: FULL,
            specification: TRUE,
            fixed: 0,
        },
        act: Act::Ask(Call::Count),
        wanted: "32",
    },
];

/// Returns the answers or the number of a walk, or `None` if it runs out of memory.
fn asked<A: Allocator + Copy, T: Turns<A>>(
    alloc: Global,
    heap: A,
    watch: &mut Watch<'_>,
    session: &mut T,
    query: &Query<A>,
    call: Call,
) -> Option<Vec<u8>>
    requires { T.is_ready session.old }
    ensures ready { T.is_ready session.new }
    ensures same { T.home session.new ≡ T.home session.old }
{
    match call {
        Call::Select => match select(heap, session, query) {
            Ok(answers) => {
                watch.ended(false);
                let text = listed(alloc, answers.as_slice());
                drop(answers);
                text
            }
            Err(_) => {
                watch.ended(true);
                None
            }
        },
        Call::Count => match select_count(session, query) {
            Ok(count) => {
                watch.ended(false);
                digits(alloc, count)
            }
            Err(_) => {
                watch.ended(true);
                None
            }
        },
    }
}

/// Returns whether a call has the wanted result, or `None` if it runs out of memory. Records whether the session has
/// the fixes that it had.
fn comes_to<A: Allocator + Copy, T: Turns<A>>(
    alloc: Global,
    heap: A,
    watch: &mut Watch<'_>,
    session: &mut T,
    query: &Query<A>,
    trial: Trial,
    call: Call,
) -> Option<bool>
    requires { T.is_ready session.old }
    ensures ready { T.is_ready session.new }
    ensures same { T.home session.new ≡ T.home session.old }
{
    let came = asked(alloc, heap, watch, session, query, call);
    watch.sees(fixes_below(session, trial.play.fixed));
    match came {
        Some(text) => {
            let is_wanted = text.as_slice() == trial.wanted.as_bytes();
            drop(text);
            Some(is_wanted)
        }
        None => None,
    }
}

/// Returns whether the result of a call is right; it is made again if memory runs out.
fn is_asked<A: Allocator + Copy, T: Turns<A>>(
    alloc: Global,
    heap: A,
    watch: &mut Watch<'_>,
    session: &mut T,
    query: &Query<A>,
    trial: Trial,
    call: Call,
) -> bool
    requires { T.is_ready session.old }
{
    let first = comes_to(alloc, heap, watch, session, query, trial, call);
    let second = match first {
        Some(_) => first,
        None => comes_to(alloc, heap, watch, session, query, trial, call),
    };
    match second {
        Some(is_wanted) => is_wanted && watch.is_right(),
        None => watch.stops(),
    }
}

/// Makes the trial's query, and returns whether the result of a call by it is right, or `None` if memory runs out for
/// the query.
pub(crate) fn is_asked_by<A: Allocator + Copy, T: Turns<A>>(
    alloc: Global,
    heap: A,
    counts: &Failing<Global>,
    session: &mut T,
    trial: Trial,
    call: Call,
) -> Option<bool>
    requires { T.is_ready session.old }
{
    let query = query_of(heap, trial.play.specification)?;
    let mut watch = Watch::new(counts);
    let is_right = is_asked(alloc, heap, &mut watch, session, &query, trial, call);
    drop(query);
    Some(is_right)
}

/// Returns the index of the first of the trials that is not right.
fn wrong_trial(alloc: Global) -> Option<usize> {
    first_wrong(alloc, &TRIALS)
}

#[test]
fn walks_asked_again_answer_as_undisturbed(rt: HostRuntime) {
    let wrong = wrong_trial(rt.alloc());
    assert!(rt; wrong == None, "{wrong:?}");
}
