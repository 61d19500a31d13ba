//! `ets_tool`: match specifications of ets over terms, from standard input to standard output.
//!
//! It calls `run_program` of `tool_cli` with the words and the three streams of the process.
#![tactic(auto)]

use std::io;
use std::process::ExitCode;
use tool_cli::{Told, run_program};

fn main(rt: HostRuntime) -> ExitCode {
    let mut reader = rt.stdin();
    let mut out = io::writer(&rt);
    let mut err = Told::new(rt.stderr());
    ExitCode::from(run_program(&rt, &mut reader, &mut out, &mut err))
}
