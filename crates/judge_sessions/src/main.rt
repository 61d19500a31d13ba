//! Sessions on threads of their own make random calls at one table, and the answers are judged.
//!
//! Standard input has a row for each run, `{Seed,Kind,Parts,Sessions,Members,Calls}.`, and for each history that is
//! judged instead of that of a run, `{history,Said,Name,Kind,Sessions,Parts}.`. For each a line is printed. A session
//! writes at keys of its own, at keys at which all write, and at keys at which all write only by `insert_new` and
//! `take`. The answers at its own keys, including walks in pieces, counts and deletions by queries, must be those of a
//! replay of its own calls. At the other keys it must not meet an object that was not inserted there, or one that was
//! deleted before. No object may be taken twice. What is left at the end must be some session's last write, as many
//! objects as were inserted and not taken, and each in its key's part.
//!
//! - `keys`: keys and objects; `event`: what is recorded; `worker`, `walking`: the calls of a session.
//! - `runs`: a table and its sessions on threads; `history`: the record of sessions that a row gives.
//! - `replay`: judges one session's record, `bags`: that of a session of a bag, where keys have lists of objects;
//!   `puts`: what both look up; `judge`: judges all sessions; `wrong`: what can be wrong.
#![tactic(auto)]

mod bags;
mod event;
mod history;
mod judge;
mod keys;
mod puts;
mod replay;
mod runs;
mod walking;
mod worker;
mod wrong;

use history::judged_history;
use keys::byte;
use kit_rows::{elements, fields, is_atom, name, number};
use part_core::TableKind;
use part_hash::HashPart;
use part_order::OrderPart;
use runs::{Run, judged};
use std::alloc::Global;
use std::io::{Read, Write};
use std::process::ExitCode;
use std::sync::Wait;
use std::thread::Threads;
use tables::Options;
use term_core::Term;
use term_text::read_terms;
use wrong::Failure;

/// Returns the kind of table that a term names, or `None`.
fn kind_of(term: &Term) -> Option<TableKind> {
    if is_atom(term, "set") {
        Some(TableKind::Set)
    } else if is_atom(term, "ordered_set") {
        Some(TableKind::OrderedSet)
    } else if is_atom(term, "bag") {
        Some(TableKind::Bag)
    } else if is_atom(term, "duplicate_bag") {
        Some(TableKind::DuplicateBag)
    } else {
        None
    }
}

/// Returns the options of the table of a run, or `None`.
fn options_of(kind: &Term, parts: &Term, sessions: &Term) -> Option<Options> {
    match (kind_of(kind), byte(parts), byte(sessions)) {
        (Some(kind), Some(parts), Some(sessions)) => Some(Options {
            name: 0,
            kind,
            keypos: 1,
            parts,
            sessions,
        }),
        _ => None,
    }
}

/// Returns the run that a row gives, or `None` if the row gives none.
fn run_of(row: &Term) -> Option<Run> {
    let Some([seed, kind, parts, sessions, members, calls]) = fields(row) else {
        return None;
    };
    let options = options_of(kind, parts, sessions)?;
    match (byte(members), number(seed), number(calls)) {
        (Some(members), Some(seed), Some(calls)) => Some(Run {
            options,
            members,
            seed: u64::from(seed),
            calls,
        }),
        _ => None,
    }
}

/// Writes what is wrong, or that each answer is one that turns allow.
fn write_judged(judged: &Result<(), Failure>, lines: &mut String) {
    match judged {
        Ok(()) => writeln!(lines, "each answer is one that turns allow").ok(),
        Err(failure) => writeln!(lines, "{failure:?}").ok(),
    };
}

/// Returns whether the judgement of a history is what a word says: `right`, or `wrong` because of the answers.
fn is_as_said(judged: &Result<(), Failure>, said: &Term) -> bool {
    match judged {
        Ok(()) => is_atom(said, "right"),
        Err(failure) => failure.is_of_answers() && is_atom(said, "wrong"),
    }
}

/// Judges a history, and writes the result. Returns whether it is what its row says, or `None` if the row gives no
/// history.
fn write_history(alloc: Global, row: &Term, lines: &mut String) -> Option<bool> {
    let [word, said, title, kind, sessions, parts] = fields(row)? else {
        return None;
    };
    if !is_atom(word, "history") {
        return None;
    }
    let kind = kind_of(kind)?;
    let judged = judged_history(alloc, kind, elements(sessions)?, elements(parts)?)?;
    let title = name(alloc, title)?;
    write!(lines, "history of {kind:?}, {title}: ").ok();
    drop(title);
    write_judged(&judged, lines);
    Some(is_as_said(&judged, said))
}

/// Makes a run, judges it and writes the result. Returns whether it is right.
fn write_run<R: Threads + Wait + Sync>(
    rt: &R,
    alloc: Global,
    run: Run,
    lines: &mut String,
) -> bool {
    let judged = if run.options.kind.is_ordered() {
        judged::<_, OrderPart<Global>>(rt, alloc, run)
    } else {
        judged::<_, HashPart<Global>>(rt, alloc, run)
    };
    let Options {
        kind,
        parts,
        sessions,
        ..
    } = run.options;
    write!(
        lines,
        "seed {}: {sessions} sessions, {} of them members, {} calls each at most, {kind:?} of {parts} parts: ",
        run.seed, run.members, run.calls,
    )
    .ok();
    write_judged(&judged, lines);
    judged.is_ok()
}

/// Makes the run or judges the history of a row, and writes the result. Returns whether it is right.
fn write_row<R: Threads + Wait + Sync>(
    rt: &R,
    alloc: Global,
    row: &Term,
    lines: &mut String,
) -> bool {
    match run_of(row) {
        Some(run) => write_run(rt, alloc, run, lines),
        None => write_history(alloc, row, lines).unwrap_or(false),
    }
}

/// Handles all rows of standard input. Returns whether all are right.
fn write_all_rows<R: Threads + Wait + Sync>(
    rt: &R,
    alloc: Global,
    rows: &[Term],
    lines: &mut String,
) -> bool {
    let mut are_right = true;
    for row in rows {
        are_right = write_row(rt, alloc, row, lines) && are_right;
    }
    are_right
}

fn main(rt: HostRuntime) -> ExitCode {
    let alloc = rt.alloc();
    let mut text = Vec::new(alloc);
    let mut lines = String::new(alloc);
    rt.stdin().read_to_end(&mut text).ok();
    let rows = read_terms(alloc, text.as_slice());
    drop(text);
    let are_right = match &rows {
        Ok(rows) => write_all_rows(&rt, alloc, rows.as_slice(), &mut lines),
        Err(_) => false,
    };
    drop(rows);
    rt.stdout().write_all(lines.as_bytes()).ok();
    drop(lines);
    if are_right {
        ExitCode::SUCCESS
    } else {
        ExitCode::FAILURE
    }
}
