//! Tests of what is rejected: terms, their texts, operands, values and commands with each allocation failing in turn,
//! and calls that do not allocate; commands with readers and writers that fail, give a byte at a time or hold bytes
//! back; and the texts of faults. Inputs with the expected output are rows that the built program is tried on, in
//! `crates/ets_tool/rows`. Code and specifications are tried with failing allocations in rows of `judge_language`.
//!
//! It has no code of its own. What a test here calls is proved in its own crate once, and not again with its tests.
//!
//! - `failing`: which requests for blocks a plan refuses, what the allocator counts, and how a sweep ends.
//! - `calls`: calls with each allocation failing in turn, of `terms` and `text`, terms made, copied, read and written,
//!   and of `functions`, operands and values.
//! - `requests`: commands of the program, with the error line and the exit status; `sweeps`: how many lines each of
//!   them writes if memory runs out; `exact`: which lines those are. `scans`: scans by several sessions, and their own
//!   faults.
//! - `opening`: options of tables that can't be opened, with memory and without.
//! - `readers`: what is read of readers that fail, give one byte at a time or are interrupted; `writers`: what is
//!   written to writers that fail, or hold all bytes back until they are flushed; `streams`: each command over each of
//!   them.
//! - `fault_texts`: the text of each fault, enum by enum.
#![tactic(auto)]

#[cfg(test)]
mod calls;
#[cfg(test)]
mod exact;
#[cfg(test)]
mod failing;
#[cfg(test)]
mod fault_texts;
#[cfg(test)]
mod functions;
#[cfg(test)]
mod opening;
#[cfg(test)]
mod readers;
#[cfg(test)]
mod requests;
#[cfg(test)]
mod scans;
#[cfg(test)]
mod streams;
#[cfg(test)]
mod sweeps;
#[cfg(test)]
mod terms;
#[cfg(test)]
mod text;
#[cfg(test)]
mod writers;
