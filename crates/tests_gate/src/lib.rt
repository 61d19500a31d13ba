//! Tests of tables whose sessions run on threads of their own.
//!
//! It has no code of its own. What a test here calls is proved in its own crate once, and not again with its tests.
//! `judge_sessions` makes random calls on threads.
//!
//! - `objects`: the objects that are inserted, their keys, and queries. `pairs`: two sessions of a table.
//! - `closing`: a single gate.
//! - `acts`: what a session does when memory is available; `steps`: sessions that do so, on one thread after the other
//!   and at the same time.
//! - `watching`: parts that wait for each other, so that their turns must be made at the same time. `waiting`: a
//!   session that sleeps until a part is put back; `sleeping`: which thread sleeps, as the system reports it.
//! - `walking`: a walk whose table another session empties meanwhile, and a visit with a cursor outside its range.
//! - `asking`: sessions that wait for no part, while another one has it.
//! - `leaving`: dead rows while sessions fix, and when the last of them leaves.
//! - With each allocation failing in turn: `trials`, what a session does at a table that is opened for it, and what
//!   becomes of the table; `refusals`, openings, an insert, and calls that never allocate; `putting`, objects inserted
//!   one after the other; `leaks`, values that are dropped in the middle of their use; `selecting`, a whole walk.
#![tactic(auto)]

#[cfg(test)]
mod acts;
#[cfg(test)]
mod asking;
#[cfg(test)]
mod closing;
#[cfg(test)]
mod leaks;
#[cfg(test)]
mod leaving;
#[cfg(test)]
mod objects;
#[cfg(test)]
mod pairs;
#[cfg(test)]
mod putting;
#[cfg(test)]
mod refusals;
#[cfg(test)]
mod selecting;
#[cfg(test)]
mod sleeping;
#[cfg(test)]
mod steps;
#[cfg(test)]
mod trials;
#[cfg(test)]
mod waiting;
#[cfg(test)]
mod walking;
#[cfg(test)]
mod watching;
