//! A session of a host program.
use crate::under::Under;
use part_core::Part;
use std::alloc::{Allocator, Global};
use table_sessions::OwnSession;
use term_core::Term;

/// How much a call does before it is stopped.
#[derive(Clone, Copy, Debug, PartialEq, Eq)]
pub struct Bounds {
    /// How often it looks for a part that another session has; 0 counts as 1.
    pub looks: u64,
    /// How many turns it makes; 0 counts as 1.
    pub turns: u64,
}

/// A session of a host program: a session of a table, with the answers of its last call, and the call of many turns that
/// it has under way.
#[derive(Drop)]
pub struct HostSession<P: Part<A> + Drop, A: Allocator = Global> {
    /// The session of the table.
    pub own: OwnSession<P, A>,
    /// How much a call does.
    pub bounds: Bounds,
    /// The answers of the last call that had any.
    pub answers: Vec<Term<A>, A>,
    /// What is under way.
    pub under: Under<A>,
}

impl<P: Part<A> + Drop, A: Allocator + Copy> HostSession<P, A> {
    ghost use Rattle.std.specs.Prelude.{◌≡◌, []};
    ghost use Rattle.host_session.specs.declared.under.Under.TheVariants as under;

    /// Returns a session that has made no call.
    pub fn new(alloc: A, own: OwnSession<P, A>, bounds: Bounds) -> Self
        ensures own { result.own ≡ own }
        ensures bounds { result.bounds ≡ bounds }
        ensures fresh { (result.answers.items ≡ []) × (result.under ≡ under.Nothing) }
    {
        HostSession {
            own,
            bounds,
            answers: Vec::new(alloc),
            under: Under::Nothing,
        }
    }
}
