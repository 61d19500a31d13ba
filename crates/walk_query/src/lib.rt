//! The keys that a match specification names, if each of its heads names one, and queries that visit only these.
//!
//! The contract: `named_keys` returns the keys that `named_by` of `specs/Named.antt` says. The laws: they are distinct,
//! and for an object with another key the specification has no answer (`specs/Laws.antt`). So the code that
//! `compile_named` returns has no answer there (`specs/Plan.antt`).
//!
//! - The key of each head, and the keys of all: `keys.rt`. The laws: `laws.rt`.
//! - The keys in both orders in which walks visit them, with the code: `plan.rt`; both in a query: `query.rt`.
#![tactic(auto)]

mod keys;
mod laws;
mod plan;
mod query;

pub use keys::named_keys;
pub use laws::{named_keys_differ, plans_are_one, unnamed_keys_mean_nothing};
pub use plan::{NamedKeys, compile_named};
pub use query::Query;
