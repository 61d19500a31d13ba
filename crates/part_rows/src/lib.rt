//! What every sort of rows of a part guarantees.
//!
//! The one contract: rows show a list, each row a key with its objects, and a number of slots (`specs/Shown.antt`). The
//! trait `Rows` says how each of a dozen operations changes what they show. Rows know nothing of sessions, fixes,
//! histories, refusals and queries, nor do they count which of them are dead: all this is in the part over them
//! (`part_engine`).
//!
//! - `rows`: the trait; `specs/Looks.antt` says which rows a visit may look at. `put`: what becomes of a row into which
//!   an object is inserted, and why none is inserted. `seen`: a row, as a visit sees it; `place`: where a row is.
//! - `objects`: the answers of code for the objects of a key, in the order of insertion; `listed`: for those of rows
//!   that are listed by their places.
//! - `dead`, `settling`: writing together with a count of the dead rows (`specs/Dead.antt`), which are removed once no
//!   session fixes the part.
#![tactic(auto)]

mod dead;
mod listed;
mod objects;
mod place;
mod put;
mod rows;
mod seen;
mod settling;

pub use dead::{exchange_counted, put_counted};
pub use listed::{count_listed, gather_listed};
pub use objects::{count_true, gather, holds};
pub use place::Place;
pub use put::{Put, PutFault};
pub use rows::Rows;
pub use seen::SeenRow;
pub use settling::settle;
