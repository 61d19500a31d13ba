//! Sessions of a host program with many threads: calls that never wait. A call that would have to wait is stopped, and
//! says why.
//!
//! The one contract: a call of one turn does what the call of `tables` does, or it is stopped and has left no entry
//! (`specs/Once.antt`). A call of many turns keeps in the session what it did when it is stopped, and `more` goes on with
//! it, so that all its steps together are the one call of `walks` or `tables` (`specs/Going.antt`). Meanwhile calls of one
//! turn can be made, and no other call of many turns.
//!
//! - `session`: the session; `stop`: why a call is stopped; `under`: what is under way.
//! - `once`: calls of one turn. `walking`, `tallying`, `searching`, `fixing`: calls of many turns; `more`: how they go on.
#![tactic(auto)]

mod fixing;
mod more;
mod once;
mod searching;
mod session;
mod stop;
mod tallying;
mod under;
mod walking;

pub use session::{Bounds, HostSession};
pub use stop::Stop;
pub use under::{Progress, Tally, Under};
