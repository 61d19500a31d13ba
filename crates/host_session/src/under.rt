//! What a session has under way.
use part_core::Fault;
use std::alloc::{Allocator, Global};
use tables::Change;
use term_core::Term;
use walks::{Continuation, Counting, Position, Query};

/// A walk that counts or deletes, so far.
#[derive(Drop)]
pub struct Tally<A: Allocator = Global> {
    /// The query.
    pub query: Query<A>,
    /// Whether it counts or deletes.
    pub counting: Counting,
    /// Where it goes on.
    pub at: Position<A>,
    /// What was counted so far, at most 2^64 - 1.
    pub total: u64,
}

/// The call of many turns that a session has under way, if any.
#[derive(Drop)]
pub enum Under<A: Allocator = Global> {
    /// None.
    Nothing,
    /// None, and the query of the last walk wants to be handed back.
    Ended(Query<A>),
    /// A walk in pieces.
    Walk(Continuation<A>),
    /// A walk that counts or deletes.
    Tally(Tally<A>),
    /// A search for the key after one, which has not been looked for in that one's part yet.
    After(Term<A>),
    /// A search for the first key of the parts from one on.
    From(u8),
    /// A change of fixes, which is made at the parts before one.
    Change(Change, u8),
}

/// What a call of many turns did.
#[derive(Clone, Copy, Debug, PartialEq, Eq)]
pub enum Progress {
    /// It is done, and has no answers.
    Done,
    /// There are answers, and the walk has more.
    More,
    /// There are answers, or none, and it is done.
    Last,
    /// It is done, and this is its number.
    Counted(u64),
}

/// What a search for the key after another came to.
#[derive(Drop)]
pub(crate) enum Searched<A: Allocator = Global> {
    /// To a key, or to none.
    Found(Option<Term<A>>),
    /// To a part at which no turn was made, after parts without a key.
    From(u8),
    /// To nothing: there is no turn at the part of the other key, or that has no row there.
    Refused(Fault),
}
