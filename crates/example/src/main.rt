//! The library in use: tables and a filter on one thread (`local`), and a table whose sessions run on threads of their own
//! (`threads`).
#![tactic(auto)]

use std::io::Write;
use std::process::ExitCode;

mod local;
mod threads;

fn main(rt: HostRuntime) -> ExitCode {
    let Some(of_one_thread) = local::lines(rt.alloc()) else {
        return ExitCode::FAILURE;
    };
    let Some(of_threads) = threads::lines(&rt, rt.alloc()) else {
        return ExitCode::FAILURE;
    };
    for lines in [of_one_thread.as_slice(), of_threads.as_bytes()] {
        if rt.stdout().write_all(lines).is_err() {
            return ExitCode::FAILURE;
        }
    }
    ExitCode::SUCCESS
}
