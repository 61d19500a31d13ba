//! What a part returns.
ghost use Rattle.std.specs.Prelude.{◌≤◌};
ghost use Rattle.part_core.specs.Replies.{most_counted};

use crate::op::Cursor;
use std::alloc::{Allocator, Global};
use term_core::Term;

/// The result of an operation that is not rejected.
#[derive(Drop)]
pub enum Reply<A: Allocator = Global> {
    /// The operation was done.
    Done,
    /// Yes or no.
    Flag(bool),
    /// The objects of a key in the order of insertion.
    Objects(Vec<Term<A>, A>),
    /// A key, or `None` at the end.
    AtKey(Option<Term<A>>),
    /// What a visit found, and where the walk goes on, `None` at its end.
    Found(Vec<Term<A>, A>, Option<Cursor<A>>),
    /// How many objects a visit counted or deleted, at most 2^64 - 1, and where the walk goes on, `None` at its end.
    Counted(u64, Option<Cursor<A>>),
}

/// States that a count is at most 2^64 - 1, as every `u64` is, so that it is returned as it is.
pub fn is_counted(_count: u64)
    ensures { _count ≤ most_counted }
{}
