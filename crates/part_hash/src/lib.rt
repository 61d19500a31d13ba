//! The rows of sets and bags, found by their keys in the same time however many there are.
//!
//! The one contract: `HashRows` keeps the trait `Rows` of `part_rows`, for all tables but ordered sets. Its rows lie in
//! a slab; an index (`hash_index`) finds the key of the slab at a row's key by the key's mixed hash, and each slot
//! lists the places of its rows in the order in which they were made. `Stands` of `specs/Standing.antt` says what these
//! have to do with the list of rows that is shown.
//!
//! - `rows`: the type. It hands each operation to a function over its store.
//! - `row`: a row that remembers how many were made before it; `places`: places, and the slots that list them
//!   (`specs/Slots.antt`); `mixing`: mixed hashes, by a seed; `store`: these together; `finding`: the row of a key, and
//!   what is held of it.
//! - `adding`: appending a row, with the doubling of the slots and another seed if searches have become long;
//!   `putting`: objects put in; `removing`: what is exchanged, and rows that go.
//! - `walking`: the next live row of a class, by any base, with no memory (`specs/Classes.antt`); `looking`,
//!   `gathering`: the rows of a class, which by another base than the number of slots are sorted from several slots.
//! - `laws`: parts may be sent to other threads (`proofs/SendLemmas.antt`).
//!
//! What somebody who chooses the keys can do: fill one class, since the hash that spreads keys over parts and slots is
//! known, so that a walk's visit, which takes a class at once, takes as long as there are rows in it. Every other call
//! takes about the same time for such keys. Seeds are known as well, one after the other: keys whose mixed hashes are
//! alike under several of them can be looked for, though not written down.
#![tactic(auto)]

mod adding;
mod finding;
mod gathering;
mod laws;
mod looking;
mod mixing;
mod places;
mod putting;
mod removing;
mod row;
mod rows;
mod store;
mod walking;

pub use laws::hash_parts_may_be_sent;
use part_engine::StoredPart;
pub use rows::HashRows;

/// A part of a set or a bag whose rows lie in a slab: each operation finds its key in the same time however many rows
/// there are.
pub type HashPart<A> = StoredPart<HashRows<A>, A>;
