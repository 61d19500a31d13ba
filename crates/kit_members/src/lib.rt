//! Sessions of a table as members of a selection, for tests and for programs that measure or compare, and what tests of
//! several threads share.
//!
//! The contracts: `members_of` returns turns of sessions that were opened with one table, in their order, as
//! `parallel_select` requires of members (`AreMembers` of `specs/Members.antt`). Every other call at sessions leaves
//! them able to make turns again. A part whose allocations a test makes fail can be sent to other threads.
//!
//! - `members`: the turns of sessions; `objects`: objects that a session inserts, and tables that are opened with them.
//! - `selecting`: queries by members, or by one session.
//! - `flags`: flags that are set in one thread and checked in another; `sending`: parts that can be sent.
#![tactic(auto)]

mod flags;
mod members;
mod objects;
mod selecting;
mod sending;

pub use flags::{LOOKS, is_raised};
pub use members::members_of;
pub use objects::{filled, opened, put_all};
pub use selecting::{counted, deleted, selected};
pub use sending::{hashed_parts_may_be_sent, plain_parts_may_be_sent};
