//! Walks through tables, for any session.
//!
//! The one contract: a call makes visits, one after the other, and in every interleaving its answers are those of
//! `walk_core`: for each key once, what the query answers for the key's objects at one moment of the walk
//! (`specs/Pieces.antt`, `specs/Whole.antt`). `first` and `next` make turns at the parts in their order until one has a
//! key (`specs/Keys.antt`). A walk makes at most 2^64 - 1 visits, since other sessions may extend one through an
//! ordered set while it runs. After that many visits it fails as if out of memory; no run gets there.
//!
//! - `walk_query::Query`: the query, with its named keys; `walk_core::Position`, `position`: the position of a walk,
//!   and where it goes on; `kept`, `continuation`: what it keeps.
//! - `visit`: visits up to a limit; `counting`: visits that count or delete, also in pieces (`count_on`).
//! - `pieces`: `select_limit` and `select_more`, and for callers that have checked the input `select_first` and
//!   `select_next`; `walk_begun`, for sessions whose turns may be put off; `whole`: `select`, `select_count` and
//!   `select_delete`; `own`: the fixes that these make.
//! - `keys`: `first` and `next`, and their turns at one part, `first_at` and `next_at`.
//! - `laws`: what walks return if a session is alone (`specs/Alone.antt`), in terms of what walks visit on one thread
//!   (`specs/Sights.antt`), and that counts in pieces add up.
#![tactic(auto)]

mod continuation;
mod counting;
mod fault;
mod kept;
mod keys;
mod laws;
mod own;
mod pieces;
mod position;
mod visit;
mod whole;

pub use continuation::{Continuation, Step};
pub use counting::count_on;
pub use fault::WalkFault;
pub use kept::Kept;
pub use keys::{first, first_at, next, next_at};
pub use laws::{
    counts_begin, counts_end, counts_go_on, counts_outlast_others, counts_stop, steps_are_pieces,
    whole_walks_count, whole_walks_go_in_order, whole_walks_remove, whole_walks_select,
};
pub use pieces::{select_first, select_limit, select_more, select_next, walk_begun};
pub use position::{named_count, start};
pub use walk_core::{Counting, Position};
pub use walk_query::Query;
pub use whole::{select, select_count, select_delete};
