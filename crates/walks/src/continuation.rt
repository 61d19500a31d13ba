//! Walks in pieces that are in progress.
ghost use Rattle.std.specs.Prelude.{◌<◌};

use crate::kept::Kept;
use std::alloc::{Allocator, Global};
use term_core::Term;
use walk_core::Position;
use walk_query::Query;

/// A walk in pieces in progress.
#[derive(Drop)]
pub struct Continuation<A: Allocator = Global> {
    /// The query.
    pub query: Query<A>,
    /// The name of the table.
    pub table: u64,
    /// The number of the session.
    pub session: u8,
    /// The greatest number of answers in a piece, above 0.
    pub limit: u64,
    /// The position of the walk.
    pub at: Position<A>,
    /// Answers that were found and not returned yet.
    pub kept: Kept<A>,
    ghost some: { 0 < limit },
}

/// The result of one call of a walk in pieces.
#[derive(Drop)]
pub enum Step<A: Allocator = Global> {
    /// At least one answer, and the walk to continue with.
    Piece(Vec<Term<A>, A>, Continuation<A>),
    /// There are no more answers; the query is handed back.
    End(Query<A>),
}
