//! Laws of walks: of tours of tables by keys, and of walks of sessions on threads.
//!
//! - `laws`: what tours are, and that each key that stays is met once (`specs/Laws.antt`).
//! - `selecting`: what a `select` at a table whose parts have gates returns, whatever other sessions do: for each key
//!   once, what the query means for the key's objects at one moment of the walk, in what the session has seen
//!   (`specs/Answered.antt`). It calls `select` of `walks` with `At` of `tables`.
#![tactic(auto)]

mod laws;
mod selecting;

pub use laws::{
    tours_go_on, tours_meet_once, tours_meet_who_is_there, tours_meet_who_stayed, tours_rise,
};
pub use selecting::select_at;
