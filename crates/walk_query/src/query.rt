//! Queries.
ghost use Rattle.walk_query.specs.Plan.{IsPlanFor};
ghost use Rattle.walk_query.specs.PlanFacts.{plan_prop};

use crate::plan::{NamedKeys, compile_named};
use mspec_syntax::Spec;
use std::alloc::{AllocError, Allocator, Global};
use term_core::Term;
use verifier::Verified;

/// What a walk evaluates for each object: code, which answers a term or nothing.
pub struct Query<A: Allocator = Global> {
    /// The code.
    pub code: Verified<A>,
    /// The keys whose objects alone are evaluated, if any are named; the code has no answer for an object with another
    /// key.
    pub named: Option<NamedKeys<A>>,
    ghost kept: { IsPlanFor code named } by { plan_prop code named },
}

/// By hand: a function that drops one has one call in its proof, and not a case for each way in which its parts are dropped.
impl<A: Allocator> Drop for Query<A> {
    fn drop(self) {
        let Query { code, named } = self;
        drop(code);
        drop(named);
    }
}

impl<A: Allocator> Query<A> {
    ghost use Rattle.std.specs.Prelude.{ℕ, ◌≡◌, ◌≢◌, Bool, None, IfOk, option_map};
    ghost use Rattle.term_core.specs.Datum.{Datum};
    ghost use Rattle.mcode.specs.Answer.{answer_of};
    ghost use Rattle.mspec_meaning.specs.Meaning.{Means};
    ghost use Rattle.walk_query.specs.Plan.{IsPlanOf, plan_at};

    /// Returns a query that is evaluated for all objects of a table.
    pub fn new(code: Verified<A>) -> Self
        ensures code { result.code ≡ code }
        ensures unnamed { result.named ≡ None }
    {
        Query { code, named: None }
    }

    /// Returns a query with the meaning of a specification. In a table with this `keypos` it is evaluated only for the
    /// keys that the specification names there, if each of its heads names one. Fails if an allocation fails.
    pub fn from_spec(alloc: A, specification: &Spec<A>, keypos: u16) -> Result<Self, AllocError>
    where
        A: Copy,
        ensures means { IfOk result (λ query. (object : Datum)
            → Means specification.now object (answer_of query.code object)) }
        ensures planned { IfOk result (λ query. (ordered : Bool)
            → IsPlanOf keypos ordered specification.now (plan_at query.named keypos ordered)) }
        ensures elsewhere { IfOk result (λ query. (other : ℕ) (ordered : Bool) → other ≢ keypos
            → plan_at query.named other ordered ≡ None) }
    {
        let (code, named) = compile_named(alloc, specification, keypos)?;
        Ok(Query { code, named })
    }

    /// Returns the keys that a walk visits, one after the other, in a table with this `keypos`: in ascending order if
    /// the table is `ordered`, else in the order in which they are first named. Returns `None` if all objects are
    /// visited.
    pub fn keys_at(&self, keypos: u16, ordered: bool) -> Option<&[Term<A>]>
        ensures { option_map (λ ks. ks.now) result ≡ plan_at self.now.named keypos ordered }
    {
        match &self.named {
            Some(named) => named.keys_at(keypos, ordered),
            None => None,
        }
    }
}
