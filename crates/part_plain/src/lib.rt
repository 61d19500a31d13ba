//! The rows of sets and bags in one list.
//!
//! The one contract: `PlainRows` implements the trait `Rows` of `part_rows`, for all tables except ordered sets. What
//! the rows show is their list and the stored number of slots (`IsShown` of `specs/Served.antt`). That no key has two
//! rows is not an invariant of the type: it is a premise of `Rows`.
//!
//! - `rows`: the type. It hands each operation to a function whose contract is one over lists.
//! - `places`: finding rows by their keys (`specs/Places.antt`); `putting`, `exchanging`: what is written.
//! - `walking`, `gathering`: walk order, class by class; `looking`: what visits look at.
//! - `laws`: parts may be sent to other threads (`proofs/SendLemmas.antt`).
#![tactic(auto)]

mod exchanging;
mod gathering;
mod laws;
mod looking;
mod places;
mod putting;
mod rows;
mod walking;

pub use laws::plain_parts_may_be_sent;
use part_engine::StoredPart;
pub use rows::PlainRows;

/// A part of a set or bag whose rows are in one list, in the order of their creation: each operation searches the list
/// for its key, comparing hashes first.
pub type PlainPart<A> = StoredPart<PlainRows<A>, A>;
