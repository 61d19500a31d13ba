//! Tables: parts together, and what a session's methods do to what it sees of them.
//!
//! The one contract: each call of a session is a turn at the part of its key, or one at each part, or none if its input
//! is rejected (`specs/Calls.antt`). A turn adds its entry to the part's history, after entries of other sessions, and
//! the history stays legal (`specs/Turns.antt`).
//!
//! - `options`: the options of a table; `turns`: the traits `TryTurns`, a session at a table, and `Turns`, a session
//!   that puts no turn off.
//! - `local`: `LocalTable`, whose parts are used by one thread, and `LocalAt`, a session at it; `specs/OneThread.antt`
//!   says how the methods change the states of its parts.
//! - `table`: `Table`, whose parts have gates, for sessions on threads of their own; `gate::Session`: a session with
//!   its passes (`specs/Sessions.antt`); `at`: `At`, a session at such a table, which waits for parts; `brief`:
//!   `BriefAt`, which doesn't. `opening`: how tables are opened (`specs/Opened.antt`).
//! - `calls`: insert, lookup and the others at the part of a key; `fixing`: those at each part.
//! - `replies`: reading the answer of a turn. `laws`: that a session finds what it has inserted, and that
//!   changes of fixes that go on are whole (`specs/Laws.antt`). `put_off`: why a call was not made.
#![tactic(auto)]

mod at;
mod brief;
mod calls;
mod fixing;
mod laws;
mod local;
mod opening;
mod options;
mod put_off;
mod replies;
mod table;
mod turns;

pub use at::At;
pub use brief::{BriefAt, Halt};
pub use calls::{
    delete, delete_object, insert, insert_new, lookup, member, part_of_key, take, try_delete,
    try_delete_object, try_member,
};
pub use fixing::{Change, change_from, fix, fix_at, release, unfix, unfix_at};
pub use gate::Session;
pub use laws::{changes_go_on, changes_reach_all, inserts_are_seen};
pub use local::{LocalAt, LocalParts, LocalTable};
pub use options::Options;
pub use put_off::PutOff;
pub use table::Table;
pub use turns::{TryTurns, Turns, turn_at};
