//! Rows of terms, of functions, of code and of code files, read from standard input and tried on the public calls of
//! the crates. The result of each is compared with the expected one. Each row that fails is printed, with the number of
//! rows of each kind.
//!
//! `stdin` has the rows, those of terms first. Before each of the four groups it says how its kinds are written. The
//! judge is proved once; to run further rows costs no proof.
//!
//! - `texts`: terms read, written, ordered and hashed; `constructors`: terms made and rejected.
//! - `calls`, `operands`, `values`: functions, their arguments and their results.
//! - `codes`: code that is built and verified, and the code of specifications.
//! - `specifications`: terms that are read as specifications, and the answers of these and of their code.
//! - `sweeps`: calls on code and specifications, and runs, with each allocation failing in turn, also by one machine
//!   that is called again, and calls that do not allocate.
//! - `files`: files that are read and verified, and code that is encoded as one.
//! - `hostile`: all beginnings of a file, and the file with each of its bytes changed to each other value.
//! - `file_sweeps`: files with each allocation failing in turn.
//!
//! The answers of code and specifications are in `kit_code`.
#![tactic(auto)]

mod calls;
mod codes;
mod constructors;
mod file_sweeps;
mod files;
mod hostile;
mod operands;
mod specifications;
mod sweeps;
mod texts;
mod values;

use codes::GivenCode;
use file_sweeps::FileCalls;
use kit_rows::{Kinds, judge_streams, swept_row};
use std::alloc::Global;
use std::io;
use std::process::ExitCode;
use term_core::Term;

/// The kinds of rows of this judge.
struct LanguageKinds;

/// Returns the result of a row of texts and of terms, or `None` if there is no such row.
fn of_terms(alloc: Global, kind: &str, parts: &[Term]) -> Option<Vec<u8>> {
    if let Some(out) = texts::came(alloc, kind, parts) {
        return Some(out);
    }
    constructors::came(alloc, kind, parts)
}

/// Returns the result of a row of functions, or `None` if there is no such row.
fn of_functions(alloc: Global, kind: &str, parts: &[Term], forms: usize) -> Option<Vec<u8>> {
    if let Some(out) = calls::came(alloc, kind, parts, forms) {
        return Some(out);
    }
    if let Some(out) = operands::came(alloc, kind, parts, forms) {
        return Some(out);
    }
    values::came(alloc, kind, parts, forms)
}

/// Returns the result of a row of code and of specifications, or `None` if there is no such row.
fn of_code(alloc: Global, kind: &str, parts: &[Term]) -> Option<Vec<u8>> {
    if let Some(out) = codes::came(alloc, kind, parts) {
        return Some(out);
    }
    if let Some(out) = specifications::came(alloc, kind, parts) {
        return Some(out);
    }
    if let Some(out) = kit_code::came::<GivenCode>(alloc, kind, parts) {
        return Some(out);
    }
    sweeps::came(alloc, kind, parts)
}

/// Returns the result of a row of code files, or `None` if there is no such row.
fn of_files(alloc: Global, kind: &str, parts: &[Term]) -> Option<Vec<u8>> {
    if let Some(out) = files::came(alloc, kind, parts) {
        return Some(out);
    }
    if let Some(out) = hostile::came(alloc, kind, parts) {
        return Some(out);
    }
    swept_row::<FileCalls>(alloc, kind, parts)
}

impl Kinds for LanguageKinds {
    fn came(&self, alloc: Global, kind: &str, parts: &[Term], forms: usize) -> Option<Vec<u8>> {
        if let Some(out) = of_code(alloc, kind, parts) {
            return Some(out);
        }
        if let Some(out) = of_files(alloc, kind, parts) {
            return Some(out);
        }
        if let Some(out) = of_functions(alloc, kind, parts, forms) {
            return Some(out);
        }
        of_terms(alloc, kind, parts)
    }

    fn forms(kind: &str) -> usize {
        match kind {
            "call" | "borrowed_call" | "made_call" => calls::FORMS,
            "comparison" => calls::FORMS_OF_TWO,
            "holding" | "values" | "operand" | "borrowed_copy" | "made_copy" => calls::FORMS_OF_ONE,
            _ => 1,
        }
    }

    fn wants_text(kind: &str) -> bool {
        matches!(kind, "text" | "canonical" | "readable" | "hash")
    }
}

fn main(rt: HostRuntime) -> io::Result<ExitCode> {
    judge_streams(
        &LanguageKinds,
        rt.alloc(),
        &mut rt.stdin(),
        &mut rt.stdout(),
    )
}
