//! Tests of walks: of one session with failing allocations, and of selection by several threads, which run at the same
//! time.
//!
//! It has no code of its own. What a test here calls is proved in its own crate once, and not again with its tests.
//! Values with terms are dropped by `drop`, which costs less of a proof than the end of a scope.
//!
//! - `watch`: what is checked of calls with failing allocations; `plays`: a table, its objects, and what is requested
//!   of it.
//! - With each allocation failing in turn (`trials`): `refusals`, whole walks; `deletions`, the numbers of deletions
//!   that fail; `writers`, walks in pieces, between which another session writes.
//! - `lists`: lists of objects.
//! - `seats`: members of a selection that wait for each other. `members`: results of calls by members, over tables of
//!   both sorts; `selections`: the tests of that; `refused_members`: calls by members with each allocation failing in
//!   turn.
#![tactic(auto)]

#[cfg(test)]
mod deletions;
#[cfg(test)]
mod lists;
#[cfg(test)]
mod members;
#[cfg(test)]
mod plays;
#[cfg(test)]
mod refusals;
#[cfg(test)]
mod refused_members;
#[cfg(test)]
mod seats;
#[cfg(test)]
mod selections;
#[cfg(test)]
mod trials;
#[cfg(test)]
mod watch;
#[cfg(test)]
mod writers;
