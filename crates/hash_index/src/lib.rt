//! A hash index: finds row numbers by mixed hashes, in about the same time however many rows there are.
//!
//! The one contract: a `HashIndex` has the numbers of rows, each under one mixed hash (`Has` of `specs/Index.antt`).
//! `find` returns a row under a mixed hash that a closure accepts, or `None` if it accepts none; the contracts of
//! `put`, `take` and `mix` say which rows are there afterwards, and under which mixed hashes. `put` and `take` do not
//! allocate. A search examines no more cells than the longest one for a row that is there: an index keeps a bound of
//! that number.
//!
//! - `index`: the type, whose methods call functions over the cells.
//! - `cell`: a cell, and the path of a search through the cells (`specs/Cells.antt`); `search`: searching for a row and
//!   inserting one; `close`: removing a row, which moves rows after it forward or leaves a tombstone; `anew`:
//!   rebuilding, with all rows in new cells.
//! - `specs/Kept.antt`: what holds of the cells, and what holds while rows are moved.
#![tactic(auto)]

mod anew;
mod cell;
mod close;
mod index;
mod search;

pub use index::HashIndex;
