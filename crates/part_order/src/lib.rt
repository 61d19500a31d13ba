//! The rows of a part of an ordered set, in a tree in key order.
//!
//! The one contract: `OrderRows` implements the trait `Rows` of `part_rows`, for ordered sets only. What it shows is
//! the entries of its tree, i.e. the rows in ascending key order, and 8 slots (`IsShown` of `specs/Served.antt`).
//!
//! - `rows`: the type. It hands each operation to a function over the tree.
//! - `tree`: what is done with the row of a key in the tree.
//! - `looking`: what a visit looks at, and walk order.
//! - `laws`: parts may be sent to other threads (`proofs/SendLemmas.antt`).
#![tactic(auto)]

mod laws;
mod looking;
mod rows;
mod tree;

pub use laws::order_parts_may_be_sent;
use part_engine::StoredPart;
pub use rows::OrderRows;

/// A part of an ordered set, whose rows are in a tree in key order.
pub type OrderPart<A> = StoredPart<OrderRows<A>, A>;
