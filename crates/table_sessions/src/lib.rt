//! Sessions at a table that many threads use, each of which owns a share of the table.
//!
//! The one contract: a session is one that was opened with its table (the invariant `opened` of `OwnSession`). So its
//! calls have no conditions about that, and a table has no handle of its own: it is dropped with its last session.
//!
//! - `own`: the session, and one turn of it; `opening`: how the sessions of a table are made.
//! - `brief`: a session as one that makes turns (`TryTurns` of `tables`), with bounds on looks and on turns.
//! - `specs/Own.antt`: the home of a session, and what it sees.
#![tactic(auto)]

mod brief;
mod opening;
mod own;

pub use brief::Brief;
pub use opening::open;
pub use own::OwnSession;
