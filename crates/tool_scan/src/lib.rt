//! The command `scan` of `ets_tool`: objects are inserted into a table whose parts have gates, and sessions on threads
//! of their own query it by a specification.
//!
//! The contract is that of `tool_scan`: if the input is rejected, nothing is written, and the fault names the reason.
//! Otherwise the lines of the answers are written. Each session inserted the objects of its parts, in their order, and
//! then walked through these parts (`specs/Scan.antt`).
//!
//! - `options`: the options of a scan, `specs/Options.antt`.
//! - `objects`: which terms are objects. `members`: what the sessions do, `specs/Members.antt`. `asking`: the table and
//!   its sessions.
//! - `answers`: the lines of answers. `scan`: the command.
#![tactic(auto)]

mod answers;
mod asking;
mod members;
mod objects;
mod options;
mod scan;

pub use options::{ScanKind, ScanOptions, UnknownKind};
pub use scan::tool_scan;
