//! A table of one thread, whose kind is chosen when it is opened: the one to use where no other thread needs the table.
//!
//! The contract: a table is in a state (`Shows` of `specs/Shows.antt`), and each call returns what the definitions say of
//! that state, and leaves the state that they say. `specs/Calls.antt` has the calls with objects and keys, `specs/Queries.antt`
//! those with queries, and `specs/Walks.antt` walks in pieces. No call has a condition that a caller must meet. If memory runs
//! out, the state stays, except in `select_delete`.
//!
//! - `parts`: the parts of a table of either sort; `table`: the table, and how it is opened.
//! - `turns`: the table as a session (`TryTurns` and `Turns` of `tables`), so that it can do what any session can.
//! - `calls`: calls with objects and keys; `queries`: calls with queries, and walks in pieces.
#![tactic(auto)]

mod calls;
mod parts;
mod queries;
mod table;
mod turns;

pub use table::OpenTable;
