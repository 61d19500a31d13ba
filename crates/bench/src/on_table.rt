//! The calls of a session at a table that one thread uses.
//!
//! Standard input is objects with their keys at the first position. They are inserted into a table of a kind and a
//! number of parts, inserted again, looked up, and tested for membership. Then they are counted by a query, selected by
//! a query with two conditions, at once and in pieces of 100, and deleted. The code of that query also runs on each
//! object, to show what a selection takes apart from its runs.
//!
//! - `times`: the nanoseconds of a call of each kind, the median of five rounds; those of a walk are divided by the
//!   number of objects.
//! - `longest`: the nanoseconds of the longest insert.
//! - `hold`: nothing; the objects are inserted into as many tables as the last argument says, which all exist until the
//!   end.
//! - `found`: the result of each kind of call.
use crate::calls::Load;
use crate::reading::{query, specification};
use crate::times;
use part_core::{Part, TableKind};
use part_hash::HashPart;
use part_order::OrderPart;
use std::alloc::Global;
use tables::Options;
use term_core::Term;

/// A specification whose answer is true on all objects.
const ALL: &[u8] = b"[{'_',[],[true]}].";
/// A specification with two conditions.
const SOME: &[u8] = b"[{{'$1','$2','_'},[{'>=','$1',1},{'<','$2',900000}],['$2']}].";

/// What is done, at which table, and at how many.
#[derive(Clone, Copy)]
pub(crate) struct Task<'a> {
    word: &'a str,
    options: Options,
    tables: u8,
}

/// The task of the results at one set of one part.
pub(crate) const FOUND: Task<'static> = Task {
    word: "found",
    options: Options {
        name: 0,
        kind: TableKind::Set,
        keypos: 1,
        parts: 1,
        sessions: 1,
    },
    tables: 1,
};

/// Returns the kind with this name, or `None`.
fn kind_of(name: &str) -> Option<TableKind> {
    match name {
        "set" => Some(TableKind::Set),
        "ordered_set" => Some(TableKind::OrderedSet),
        "bag" => Some(TableKind::Bag),
        "duplicate_bag" => Some(TableKind::DuplicateBag),
        _ => None,
    }
}

/// Returns the options of a table with one session, and keys at the first position.
fn options_of(kind: &str, parts: &str) -> Option<Options> {
    Some(Options {
        name: 0,
        kind: kind_of(kind)?,
        keypos: 1,
        parts: parts.parse().ok()?,
        sessions: 1,
    })
}

/// Returns the task that these words request, or `None`.
pub(crate) fn task_of(words: &[String]) -> Option<Task<'_>> {
    let [word, kind, parts, tables] = words else {
        return None;
    };
    Some(Task {
        word: word.as_str(),
        options: options_of(kind.as_str(), parts.as_str())?,
        tables: tables.as_str().parse().ok()?,
    })
}

/// Writes the lines of a task at tables of this type of part. Returns `None` if there is no such task or it can't be
/// done.
fn write_at<P: Part<Global> + Drop>(
    rt: &HostRuntime,
    task: Task<'_>,
    load: Load<'_>,
    lines: &mut String,
) -> Option<()> {
    match task.word {
        "times" => times::write::<P>(rt, task.options, load, lines),
        "hold" => times::hold::<P>(rt, task.options, task.tables, load),
        "longest" => times::write_longest::<P>(rt, task.options, load, lines),
        "found" => times::write_found::<P>(rt, task.options, load, lines),
        _ => None,
    }
}

/// Writes the lines of a task with these objects.
pub(crate) fn write(
    rt: &HostRuntime,
    task: Task<'_>,
    objects: &[Term],
    lines: &mut String,
) -> Option<()> {
    let all = query(rt.alloc(), &specification(rt.alloc(), ALL)?)?;
    let specification = specification(rt.alloc(), SOME)?;
    let some = query(rt.alloc(), &specification)?;
    let load = Load {
        objects,
        all: &all,
        some: &some,
        specification: &specification,
    };
    if task.options.kind.is_ordered() {
        write_at::<OrderPart<Global>>(rt, task, load, lines)
    } else {
        write_at::<HashPart<Global>>(rt, task, load, lines)
    }
}
