//! Measures the engine from outside: the scripts of `bench/` run this program. The first argument says what is
//! measured:
//!
//! - `files`: a code file decoded, encoded and verified (`files`), or the largest code verified (`largest`).
//! - `machine`: a specification compiled, run and evaluated on objects (`runs`), or its code as a list (`listing`).
//! - `tables`: the calls of a session at a table that one thread uses (`on_table`, with `calls` and `times`).
//! - `parallel`: selections by several threads, over a list (`lists`) and over a table (`parts`).
//! - `threads`: inserts and lookups of sessions on threads of their own (`on_threads`, with `phases` and `rounds`).
//! - `each`: not timed. The largest code with a frame at every third instruction; the code of a specification; and what
//!   `tables` finds at a set, `parallel` with 5,000 objects, and `threads` with two sessions and four parts.
//!
//! `reading` reads standard input, and specifications and queries of a text; `timing` has the clock and medians.
#![tactic(auto)]

mod calls;
mod files;
mod largest;
mod listing;
mod lists;
mod on_table;
mod on_threads;
mod parts;
mod phases;
mod reading;
mod rounds;
mod runs;
mod times;
mod timing;

use reading::{bytes, input};
use std::io::Write;
use std::process::ExitCode;
use std::sync::Wait;
use std::thread::Threads;
use std::time::Clock;
use term_core::Term;

/// The number of objects with which `each` runs `parallel`.
const OBJECTS: u32 = 5_000;

/// Writes the line with a budget.
fn write_budget(budget: u64, lines: &mut String) -> Option<()> {
    writeln!(lines, "{budget}").ok()
}

/// Writes the line with the budget of the largest code with a frame at every third instruction.
fn write_third(rt: &HostRuntime, lines: &mut String) -> Option<()> {
    write_budget(largest::budget_framed_at_each_third(rt.alloc())?, lines)
}

/// Writes the lines about code that a word requests.
fn write_files(rt: &HostRuntime, words: &[String], lines: &mut String) -> Option<()> {
    let [word] = words else {
        return None;
    };
    match word.as_str() {
        "file" => files::write(rt, bytes(rt)?.as_slice(), lines),
        "third" => write_third(rt, lines),
        "each" => write_budget(largest::budget_framed_at_each(rt.alloc())?, lines),
        _ => None,
    }
}

/// Writes the lines about a specification that a word requests.
fn write_machine(rt: &HostRuntime, words: &[String], lines: &mut String) -> Option<()> {
    let [word] = words else {
        return None;
    };
    let terms = input(rt)?;
    match word.as_str() {
        "objects" => runs::write(rt, terms.as_slice(), lines),
        "code" => listing::write(rt.alloc(), terms.first()?, lines),
        _ => None,
    }
}

/// Writes how many of `count` objects have an answer, in a list and in a table.
fn write_found<H: Threads + Wait + Sync>(
    rt: &HostRuntime,
    handle: &H,
    count: u32,
    lines: &mut String,
) -> Option<()> {
    lists::write_found(rt, handle, count, lines)?;
    parts::write_found(rt, handle, count, lines)
}

/// Writes the lines about selections by several threads that these words request.
fn write_parallel<H: Threads + Wait + Sync>(
    rt: &HostRuntime,
    handle: &H,
    words: &[String],
    lines: &mut String,
) -> Option<()> {
    let [word, count] = words else {
        return None;
    };
    let count = count.as_str().parse().ok()?;
    match word.as_str() {
        "times" => lists::write_times(rt, handle, count, lines),
        "parts" => parts::write_times(rt, handle, count, lines),
        "found" => write_found(rt, handle, count, lines),
        _ => None,
    }
}

/// Writes what each measurement finds with a specification and objects.
fn write_all_of<H: Threads + Wait + Clock + Sync>(
    rt: &HostRuntime,
    handle: &H,
    specification: &Term,
    objects: &[Term],
    lines: &mut String,
) -> Option<()> {
    write_third(rt, lines)?;
    listing::write(rt.alloc(), specification, lines)?;
    on_table::write(rt, on_table::FOUND, objects, lines)?;
    write_found(rt, handle, OBJECTS, lines)?;
    on_threads::write(handle, rt.alloc(), on_threads::FOUND, objects, lines)
}

/// Writes what each measurement finds with standard input, a specification and objects.
fn write_each<H: Threads + Wait + Clock + Sync>(
    rt: &HostRuntime,
    handle: &H,
    lines: &mut String,
) -> Option<()> {
    let terms = input(rt)?;
    let (specification, objects) = terms.as_slice().split_first()?;
    write_all_of(rt, handle, specification, objects, lines)
}

/// Writes the lines that the arguments request. Returns `None` if they request nothing, or it can't be done.
fn write_lines<H: Threads + Wait + Clock + Sync>(
    rt: &HostRuntime,
    handle: &H,
    arguments: &[String],
    lines: &mut String,
) -> Option<()> {
    let (bench, words) = arguments.get(1..)?.split_first()?;
    match bench.as_str() {
        "files" => write_files(rt, words, lines),
        "machine" => write_machine(rt, words, lines),
        "tables" => {
            let task = on_table::task_of(words)?;
            on_table::write(rt, task, input(rt)?.as_slice(), lines)
        }
        "parallel" => write_parallel(rt, handle, words, lines),
        "threads" => {
            let task = on_threads::task_of(words)?;
            on_threads::write(handle, rt.alloc(), task, input(rt)?.as_slice(), lines)
        }
        "each" => write_each(rt, handle, lines),
        _ => None,
    }
}

/// How to call the program.
const USAGE: &str = "usage: bench files file < CODE_FILE
       bench files third|each
       bench machine objects|code < TERMS, of which the first is a specification
       bench tables times|longest|hold|found set|ordered_set PARTS TABLES < OBJECTS
       bench parallel times|parts|found OBJECTS
       bench threads times|found PARTS SESSIONS < OBJECTS
       bench each < TERMS, a specification and objects
";

fn main(rt: HostRuntime) -> anyhow::Result<ExitCode> {
    let arguments: Vec<String> = std::env::args(&rt)?.collect(rt.alloc())?;
    let mut lines = String::new(rt.alloc());
    match write_lines(&rt, &rt, arguments.as_slice(), &mut lines) {
        Some(()) => {
            rt.stdout().write_all(lines.as_bytes())?;
            Ok(ExitCode::SUCCESS)
        }
        None => {
            rt.stderr().write_all(USAGE.as_bytes())?;
            Ok(ExitCode::FAILURE)
        }
    }
}
