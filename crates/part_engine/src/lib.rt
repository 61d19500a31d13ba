//! A part over rows: one implementation of `part_core::Part` for every sort of rows.
//!
//! The one contract: `StoredPart` is a `Part` for any rows that implement the trait `Rows` of `part_rows`. Rows show a
//! list, each row a key with its objects, and a number of slots. Their contracts say how each operation changes that.
//! They know nothing of sessions, fixes, histories, refusals and queries, which are all here.
//!
//! - `stored`, `part`: the part, which counts its dead rows, and its implementation of `Part`. `specs/Stored.antt` says
//!   when it is in a state, and what an operation leads to.
//! - `reading`, `writing`, `fixing`, `walking`: its operations at one key, on its counts of fixes, and in walk order.
//! - `hashed`: a row that stores its key's hash, for tables that aren't walked in key order; `specs/Sets.antt` has what
//!   these have in common.
//! - `key`: the key of an object that is inserted.
//! - `looking`, `answering`, `counting`, `deleting`: visits. `specs/Looks.antt` says how far a visit goes and what it
//!   has found.
#![tactic(auto)]

mod answering;
mod counting;
mod deleting;
mod fixing;
mod hashed;
mod key;
mod looking;
mod part;
mod reading;
mod stored;
mod walking;
mod writing;

pub use hashed::{HashedRow, class_of};
pub use key::key_of;
pub use stored::StoredPart;
