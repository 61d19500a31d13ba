//! The operations of a part.
use std::alloc::{Allocator, Global};
use term_core::Term;
use verifier::Verified;

/// The greatest number of rows that a visit of an ordered set looks at.
pub const MOST_ROWS: usize = 64;

/// Where a walk goes on.
#[derive(Drop)]
pub enum Cursor<A: Allocator = Global> {
    /// At a class of a set.
    Class {
        /// The number of classes that the walk goes over: 8, 16, 32 and so on up to 65,536.
        base: u32,
        /// The class, from 0.
        class: u32,
    },
    /// After a key of an ordered set.
    Behind(Term<A>),
}

/// What a visit looks at.
#[derive(Clone, Copy)]
pub enum Scope<'a, A: Allocator = Global> {
    /// The beginning of a walk.
    Begin,
    /// The place where a walk goes on.
    After(&'a Cursor<A>),
    /// One key.
    Named(&'a Term<A>),
}

/// What a visit has to do.
#[derive(Clone, Copy)]
pub struct Look<'a, A: Allocator = Global> {
    /// The query's code.
    pub code: &'a Verified<A>,
    /// Where to look.
    pub scope: Scope<'a, A>,
    /// The target: the number of answers after which the visit may stop, at least 1.
    pub wanted: u64,
}

/// An operation at a part. An insertion takes its object out of the operation. An insertion without an object is
/// rejected like a term that is no object.
#[derive(Drop)]
pub enum PartOp<'a, A: Allocator = Global> {
    /// Inserts an object; in a set it replaces the one with its key.
    Insert(Option<Term<A>>),
    /// Inserts an object if its key has none.
    InsertNew(Option<Term<A>>),
    /// Returns the objects of a key.
    Lookup(&'a Term<A>),
    /// Returns whether a key has an object.
    Member(&'a Term<A>),
    /// Deletes the objects of a key.
    Delete(&'a Term<A>),
    /// Deletes the objects that are equal to the given one.
    DeleteObject(&'a Term<A>),
    /// Deletes the objects of a key and returns them.
    Take(&'a Term<A>),
    /// Adds a fix of the session to the part.
    Fix,
    /// Releases one fix of the session.
    Unfix,
    /// Releases all fixes of the session.
    Release,
    /// Returns the query's answers.
    Visit(Look<'a, A>),
    /// Returns the number of objects for which the query returns `true`.
    VisitCount(Look<'a, A>),
    /// Deletes the objects for which the query returns `true`, and returns their number.
    VisitDelete(Look<'a, A>),
    /// Returns the first key in walk order that has objects, or none.
    First,
    /// Returns the key after the given one in walk order that has objects, or none.
    Next(&'a Term<A>),
}

impl<'a, A: Allocator> PartOp<'a, A> {
    ghost use Rattle.std.specs.Prelude.{◌≡◌};
    ghost use Rattle.part_core.specs.Ops.{object_in};

    /// Returns the object that is still in the operation, or `None` if there is none.
    pub fn into_object(self) -> Option<Term<A>>
        ensures { result ≡ object_in self.entry }
    {
        match self {
            PartOp::Insert(object) => object,
            PartOp::InsertNew(object) => object,
            PartOp::Lookup(_)
            | PartOp::Member(_)
            | PartOp::Delete(_)
            | PartOp::DeleteObject(_)
            | PartOp::Take(_)
            | PartOp::Fix
            | PartOp::Unfix
            | PartOp::Release
            | PartOp::Visit(_)
            | PartOp::VisitCount(_)
            | PartOp::VisitDelete(_)
            | PartOp::First
            | PartOp::Next(_) => None,
        }
    }
}
