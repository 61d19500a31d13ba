//! Rows of the operations of a part and rows of scripts of `ets_tool`, read from standard input. Each is tried on each
//! part that supports its kind, and the result is compared with the expected one. Each row that fails is printed, with
//! the number of rows of each kind.
//!
//! `stdin` has the rows, those of parts first. Before each of the two groups it says how its kinds are written. The
//! judge is proved once; to run further rows costs no proof.
//!
//! - `plays`: rows of parts, with memory and with each allocation failing in turn: `PartCalls` says which part runs a
//!   row.
//! - `scripts`: rows of scripts.
//!
//! The steps of a row of parts, turns, operations and replies are in `kit_parts`.
#![tactic(auto)]

mod plays;
mod scripts;

use kit_rows::{Kinds, judge_streams};
use std::alloc::Global;
use std::io;
use std::process::ExitCode;
use term_core::Term;

/// The kinds of rows of parts and of scripts.
#[derive(Drop)]
struct TableKinds;

impl Kinds for TableKinds {
    fn came(&self, alloc: Global, kind: &str, parts: &[Term], forms: usize) -> Option<Vec<u8>> {
        match kind {
            "script" => scripts::came(alloc, parts, forms),
            _ => plays::came(alloc, kind, parts, forms),
        }
    }

    fn forms(kind: &str) -> usize {
        match kind {
            "script" => scripts::FORMS,
            _ => plays::forms(kind),
        }
    }
}

fn main(rt: HostRuntime) -> io::Result<ExitCode> {
    judge_streams(&TableKinds, rt.alloc(), &mut rt.stdin(), &mut rt.stdout())
}
