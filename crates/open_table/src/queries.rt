//! Calls with queries, and walks in pieces.
use crate::table::OpenTable;
use part_core::Part;
use std::alloc::{AllocError, Allocator};
use term_core::{Refused, Term};
use walks::{
    Continuation, Query, Step, WalkFault, select, select_count, select_delete, select_limit,
    select_more,
};

impl<S: Part<A> + Drop, O: Part<A> + Drop, A: Allocator + Copy> OpenTable<S, O, A> {
    ghost use Rattle.std.specs.Prelude.{ℕ, ◌≡◌, ◌≢◌, ◌<◌, [], IfOk, IfErr, IsErrAnd};
    ghost use Rattle.tables.specs.OneThread.{TableState};
    ghost use Rattle.walk_core.specs.Positions.{position_of};
    ghost use Rattle.walks.specs.Query.{kept_of};
    ghost use Rattle.open_table.specs.Queries.{answers_by, count_by, start_in, without};
    ghost use Rattle.open_table.specs.Shows.{IsSame, Reads, Shows, Stays, home_of};
    ghost use Rattle.open_table.specs.Walks.{GoesOn, IsHere, IsStep, left_of};
    ghost use Rattle.walks.specs.Pieces.{IsOwn};

    /// Returns the answers of a query for the objects, in walk order (ets:select/2). Fails if an allocation fails.
    pub fn select(&mut self, query: &Query<A>) -> Result<Vec<Term<A>, A>, AllocError>
        ensures same { IsSame self.old self.new }
        ensures done { IfOk result (λ answers. Reads self.old self.new (λ t. answers.items ≡ answers_by query.now t)) }
        ensures refused { IfErr result (λ _. Stays self.old self.new) }
    {
        let alloc = self.parts.allocator();
        select(alloc, self, query)
    }

    /// Returns the number of objects for which a query returns `true`, at most 2^64 - 1 (ets:select_count/2). Fails if an
    /// allocation fails.
    pub fn select_count(&mut self, query: &Query<A>) -> Result<u64, AllocError>
        ensures same { IsSame self.old self.new }
        ensures done { IfOk result (λ count. Reads self.old self.new (λ t. count ≡ count_by query.now t)) }
        ensures refused { IfErr result (λ _. Stays self.old self.new) }
    {
        select_count(self, query)
    }

    /// Deletes the objects for which a query returns `true`, and returns their number, at most 2^64 - 1
    /// (ets:select_delete/2). If an allocation fails, the error has the number deleted up to then, and these deletions
    /// stay.
    pub fn select_delete(&mut self, query: &Query<A>) -> Result<u64, Refused<u64, AllocError>>
        ensures same { IsSame self.old self.new }
        ensures done { IfOk result (λ count. (t : TableState) → Shows self.old t
            → (count ≡ count_by query.now t) × Shows self.new (without query.now t)) }
    {
        select_delete(self, query)
    }

    /// Begins a walk in pieces of at most `limit` answers each, and returns the first piece (ets:select/3). Fails with
    /// `BadLimit` if the limit is 0, or with `Memory`. The error hands the query back, with the table as it was.
    pub fn select_limit(
        &mut self,
        query: Query<A>,
        limit: u64,
    ) -> Result<Step<A>, Refused<Query<A>, WalkFault>>
        ensures same { IsSame self.old self.new }
        ensures done { IfOk result (λ step. (t : TableState) → Shows self.old t
            → IsStep (home_of self.new) query limit (start_in query t) [] step t × Shows self.new t) }
        ensures limited { (limit ≡ 0) → IsErrAnd result (λ r. r.fault ≡ WalkFault.BadLimit) }
        ensures refused { IfErr result (λ r. (0 < limit) → r.fault ≡ WalkFault.Memory) }
        ensures back { IfErr result (λ r. (r.value ≡ query) × Stays self.old self.new) }
    {
        let alloc = self.parts.allocator();
        select_limit(alloc, self, query, limit)
    }

    /// Continues a walk in pieces, and returns the next piece (ets:select/1). A walk of another table or session is
    /// refused with `StrangerContinuation`, and handed back. Also fails if an allocation fails: the error hands the walk
    /// back, which goes on from there.
    pub fn select_more(
        &mut self,
        walk: Continuation<A>,
    ) -> Result<Step<A>, Refused<Continuation<A>, WalkFault>>
        ensures same { IsSame self.old self.new }
        ensures done { IfOk result (λ step. IsHere (home_of self.old) walk → Reads self.old self.new
            (IsStep (home_of self.new) walk.query walk.limit (position_of walk.at) (kept_of walk.kept) step)) }
        ensures stranger { ¬ (IsOwn (home_of self.old) walk) → IsErrAnd result (λ r.
            (r.fault ≡ WalkFault.StrangerContinuation) × (r.value ≡ walk)) × Stays self.old self.new }
        ensures kept { IfErr result (λ r. (r.fault ≡ WalkFault.Memory) → IsHere (home_of self.old) walk
            → (t : TableState) → Shows self.old t
            → GoesOn (home_of self.new) walk.query walk.limit (left_of walk t) t r.value × Shows self.new t) }
    {
        let alloc = self.parts.allocator();
        select_more(alloc, self, walk)
    }
}
