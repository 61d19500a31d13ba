//! Inserts and lookups of sessions on threads of their own.
//!
//! Standard input is objects with their keys at the first position. Each session inserts its share of them into one set
//! and then looks it up. With 0 sessions, one session does this at a table that one thread uses.
//!
//! - `times`: the time of the slowest session in nanoseconds, divided by the number of all objects; the median of five
//!   rounds.
//! - `found`: the number of objects that were found.
use crate::phases::Times;
use crate::rounds::{round, round_alone};
use crate::timing::{ROUNDS, median};
use part_core::TableKind;
use part_hash::HashPart;
use std::alloc::Global;
use std::sync::Wait;
use std::thread::Threads;
use std::time::Clock;
use tables::Options;
use term_core::Term;

/// What is done: whether times are written, or only how many objects are found; at which table; whether by sessions on
/// threads.
#[derive(Clone, Copy)]
pub(crate) struct Task {
    is_timed: bool,
    options: Options,
    on_threads: bool,
}

/// The task of the results of two sessions at a set of four parts.
pub(crate) const FOUND: Task = Task {
    is_timed: false,
    options: Options {
        name: 0,
        kind: TableKind::Set,
        keypos: 1,
        parts: 4,
        sessions: 2,
    },
    on_threads: true,
};

/// Returns the task that these words request, or `None`.
pub(crate) fn task_of(words: &[String]) -> Option<Task> {
    let [word, parts, sessions] = words else {
        return None;
    };
    let is_timed = match word.as_str() {
        "times" => true,
        "found" => false,
        _ => return None,
    };
    let sessions: u8 = sessions.as_str().parse().ok()?;
    let options = Options {
        name: 0,
        kind: TableKind::Set,
        keypos: 1,
        parts: parts.as_str().parse().ok()?,
        sessions: sessions.max(1),
    };
    Some(Task {
        is_timed,
        options,
        on_threads: sessions != 0,
    })
}

/// Returns the times of a round.
fn timed<R: Threads + Wait + Clock + Sync>(
    rt: &R,
    alloc: Global,
    task: Task,
    objects: &[Term],
) -> Option<Times> {
    if task.on_threads {
        round::<R, HashPart<Global>>(rt, alloc, task.options, objects)
    } else {
        round_alone::<R, HashPart<Global>>(rt, alloc, task.options, objects)
    }
}

/// Writes the nanoseconds of an insert and of a lookup.
fn write_times<R: Threads + Wait + Clock + Sync>(
    rt: &R,
    alloc: Global,
    task: Task,
    objects: &[Term],
    lines: &mut String,
) -> Option<()> {
    let mut inserts = [0; ROUNDS];
    let mut lookups = [0; ROUNDS];
    for number in 0..ROUNDS {
        let times = timed(rt, alloc, task, objects)?;
        inserts[number] = times.insert;
        lookups[number] = times.lookup;
    }
    let count = u64::try_from(objects.len()).ok()?;
    let insert = median(inserts).checked_div(count)?;
    let lookup = median(lookups).checked_div(count)?;
    writeln!(lines, "insert {insert} ns").ok()?;
    writeln!(lines, "lookup {lookup} ns").ok()
}

/// Writes how many objects are found.
fn write_found<R: Threads + Wait + Clock + Sync>(
    rt: &R,
    alloc: Global,
    task: Task,
    objects: &[Term],
    lines: &mut String,
) -> Option<()> {
    let times = timed(rt, alloc, task, objects)?;
    writeln!(lines, "{} found", times.found).ok()
}

/// Writes the lines of a task with these objects.
pub(crate) fn write<R: Threads + Wait + Clock + Sync>(
    rt: &R,
    alloc: Global,
    task: Task,
    objects: &[Term],
    lines: &mut String,
) -> Option<()> {
    if task.is_timed {
        write_times(rt, alloc, task, objects, lines)
    } else {
        write_found(rt, alloc, task, objects, lines)
    }
}
