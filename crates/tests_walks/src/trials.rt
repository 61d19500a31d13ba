//! What is tried at tables on one thread, with each allocation failing in turn, alone and together with all later ones.
ghost use Rattle.std.specs.Prelude.{◌≡◌};

use crate::deletions::is_deleted_by;
use crate::plays::{Numbered, Play, fix_below, opened};
use crate::refusals::{Call, is_asked_by};
use crate::writers::is_walked_by;
use kit_alloc::{Failing, sweep, sweep_onward};
use kit_members::put_all;
use part_core::Part;
use part_hash::HashPart;
use part_order::OrderPart;
use std::alloc::{Allocator, Global};
use term_core::Term;
use term_text::read_terms;

/// The maximal number of allocations of a trial and its table.
const MOST_REQUESTS: u64 = 20_000;

/// What a session does.
#[derive(Clone, Copy)]
pub(crate) enum Act {
    /// It selects or counts by a whole walk.
    Ask(Call),
    /// It deletes the objects for which the answer is true. The text is the stages that failed deletions leave: how
    /// many objects they say are deleted, and for each object `+` if it is left or `-` if it is deleted.
    Delete(&'static str),
    /// It walks in pieces of at most this many answers. After each piece another session inserts these objects, and
    /// deletes the keys among them, which are no tuples.
    Walk(u64, &'static str),
}

/// What a session does at the table of a play, and its result.
#[derive(Clone, Copy)]
pub(crate) struct Trial {
    pub(crate) play: Play,
    pub(crate) act: Act,
    pub(crate) wanted: &'static str,
}

impl Trial {
    /// Returns the stages that failed deletions leave.
    fn stages(self) -> &'static str {
        match self.act {
            Act::Delete(stages) => stages,
            Act::Ask(_) | Act::Walk(_, _) => "",
        }
    }
}

/// Has the session insert these objects, and returns whether the result of a trial is right. Returns `None` if memory
/// runs out for them and the query. Appends the stages that failed deletions leave to `stages`.
fn is_right_over<A: Allocator + Copy, T: Numbered<A>>(
    alloc: Global,
    heap: A,
    counts: &Failing<Global>,
    session: &mut T,
    objects: &[Term<A>],
    trial: Trial,
    stages: &mut Vec<u8>,
) -> Option<bool>
    requires { T.is_ready session.old }
{
    put_all(session, objects)?;
    fix_below(session, trial.play.fixed);
    match trial.act {
        Act::Ask(call) => is_asked_by(alloc, heap, counts, session, trial, call),
        Act::Delete(_) => is_deleted_by(alloc, heap, counts, session, objects, trial, stages),
        Act::Walk(limit, writes) => {
            is_walked_by(alloc, heap, counts, session, trial, limit, writes)
        }
    }
}

/// Has the session insert the objects of the trial, and returns whether its result is right. Returns `None` if memory
/// runs out for them and the query.
fn is_right_by<A: Allocator + Copy, T: Numbered<A>>(
    alloc: Global,
    heap: A,
    counts: &Failing<Global>,
    session: &mut T,
    trial: Trial,
    stages: &mut Vec<u8>,
) -> Option<bool>
    requires { T.is_ready session.old }
{
    let Ok(terms) = read_terms(heap, trial.play.objects.as_bytes()) else {
        return None;
    };
    let objects = terms.as_slice();
    let is_right = is_right_over(alloc, heap, counts, session, objects, trial, stages);
    drop(terms);
    is_right
}

/// Opens a table and inserts the objects of the trial, and returns whether its result is right. Returns `None` if
/// memory runs out for the table, the objects and the query.
fn is_right_at<P: Part<A> + Drop, A: Allocator + Copy>(
    alloc: Global,
    heap: A,
    counts: &Failing<Global>,
    trial: Trial,
    stages: &mut Vec<u8>,
) -> Option<bool> {
    let mut table = opened::<P, A>(heap, trial.play)?;
    let mut session = table.at(0);
    let is_right = is_right_by(alloc, heap, counts, &mut session, trial, stages);
    drop(table);
    is_right
}

/// Returns whether the result of a trial is right over an allocator that may fail, and no block is left allocated.
fn is_right(alloc: Global, heap: &Failing<Global>, trial: Trial, stages: &mut Vec<u8>) -> bool {
    let is_right = if trial.play.kind.is_ordered() {
        is_right_at::<OrderPart<&Failing<Global>>, &Failing<Global>>(
            alloc, heap, heap, trial, stages,
        )
    } else {
        is_right_at::<HashPart<&Failing<Global>>, &Failing<Global>>(
            alloc, heap, heap, trial, stages,
        )
    };
    match is_right {
        Some(is_right) => is_right && heap.blocks() == 0,
        None => heap.was_refused() && heap.blocks() == 0,
    }
}

/// Returns whether `is_right` is true with each allocation failing in turn, alone and together with all later ones, and
/// failed deletions leave the stages that they have to.
fn holds(alloc: Global, trial: Trial) -> bool {
    let mut stages = Vec::new(alloc);
    let alone = sweep(alloc, MOST_REQUESTS, |heap: &Failing<Global>| {
        is_right(alloc, heap, trial, &mut stages)
    });
    let mut stages_onward = Vec::new(alloc);
    let onward = sweep_onward(alloc, MOST_REQUESTS, |heap: &Failing<Global>| {
        is_right(alloc, heap, trial, &mut stages_onward)
    });
    let wanted = trial.stages().as_bytes();
    let are_wanted = stages.as_slice() == wanted && stages_onward.as_slice() == wanted;
    drop(stages);
    drop(stages_onward);
    alone.is_complete() && onward.is_complete() && are_wanted
}

/// Returns the index of the first of these trials that is not right.
pub(crate) fn first_wrong(alloc: Global, trials: &[Trial]) -> Option<usize> {
    for (place, trial) in trials.iter().enumerate() {
        if !holds(alloc, *trial) {
            return Some(place);
        }
    }
    None
}
