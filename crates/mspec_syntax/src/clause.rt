//! Clauses and specifications.
use crate::expression::Expression;
use crate::pattern::Pattern;
use crate::variables::Variables;
use std::alloc::{Allocator, Global};
use std::marker::Model;

/// A clause: a head, conditions and a body.
#[derive(Drop)]
pub struct Clause<A: Allocator = Global> {
    head: Pattern<A>,
    variables: Variables<A>,
    conditions: Vec<Expression<A>, A>,
    body: Vec<Expression<A>, A>,
}

impl<A: Allocator> Model for Clause<A> {
    ghost use Rattle.std.specs.Prelude.{◌≡◌};
    ghost use Rattle.mspec_syntax.specs.Specification.{Clause};
    ghost use Rattle.mspec_syntax.specs.SpecificationCode.{clause_code};
    ghost use Rattle.mspec_syntax.specs.Rising.{rising};
    ghost use Rattle.mspec_syntax.specs.Pattern.{pattern_variables};

    ghost Value = { Clause };

    ghost coded = { clause_code };

    ghost view = { λ c. record {
      head = c.head;
      conditions = c.conditions.items;
      body = c.body.items;
    } };

    ghost invariant = { λ c. c.variables ≡ rising (pattern_variables c.head) };
}

impl<A: Allocator> Clause<A> {
    ghost use Rattle.std.specs.Prelude.{◌≡◌};
    ghost use Rattle.mspec_syntax.specs.Specification.{clause_variables};
    ghost use Rattle.mspec_syntax.specs.Rising.{rising};
    ghost use Rattle.mspec_syntax.specs.Pattern.{pattern_variables};

    /// Makes a clause of these parts. The variables are those of the head.
    pub fn new(
        head: Pattern<A>,
        variables: Variables<A>,
        conditions: Vec<Expression<A>, A>,
        body: Vec<Expression<A>, A>,
    ) -> Self
        requires { variables ≡ rising (pattern_variables head) }
        ensures head { result.head ≡ head }
        ensures conditions { result.conditions ≡ conditions.items }
        ensures body { result.body ≡ body.items }
    {
        Clause {
            head,
            variables,
            conditions,
            body,
        }
    }

    /// Returns the pattern that an object has to match.
    pub fn head(&self) -> &Pattern<A>
        ensures { result.now ≡ self.now.head }
    {
        &self.head
    }

    /// Returns the variables of the head.
    pub fn variables(&self) -> &Variables<A>
        ensures { result.now ≡ clause_variables self.now }
    {
        &self.variables
    }

    /// Returns the conditions that have to hold for an object that matches the head.
    pub fn conditions(&self) -> &[Expression<A>]
        ensures { result.now ≡ self.now.conditions }
    {
        self.conditions.as_slice()
    }

    /// Returns the expressions of the body, of which the last one gives the answer.
    pub fn body(&self) -> &[Expression<A>]
        ensures { result.now ≡ self.now.body }
    {
        self.body.as_slice()
    }
}

/// A specification that was read from a term, with at most 8,000 nodes and 256 variables (`IsWithinLimits`).
#[derive(Drop)]
pub struct Spec<A: Allocator = Global> {
    clauses: Vec<Clause<A>, A>,
    variables: Variables<A>,
}

impl<A: Allocator> Model for Spec<A> {
    ghost use Rattle.std.specs.Prelude.{◌≡◌};
    ghost use Rattle.mspec_syntax.specs.Specification.{Specification, IsWithinLimits, specification_variables};
    ghost use Rattle.mspec_syntax.specs.SpecificationCode.{specification_code};

    ghost Value = { Specification };

    ghost coded = { specification_code };

    ghost use Rattle.mspec_syntax.specs.Faults.{IsReadable};

    ghost view = { λ s. s.clauses.items };

    ghost invariant = { λ s.
        IsReadable s.clauses.items
        × IsWithinLimits s.clauses.items
        × (s.variables ≡ specification_variables s.clauses.items) };
}

impl<A: Allocator> Spec<A> {
    ghost use Rattle.std.specs.Prelude.{◌≡◌};
    ghost use Rattle.std.specs.List.{All};
    ghost use Rattle.mspec_syntax.specs.Specification.{IsWithinLimits, specification_variables};
    ghost use Rattle.mspec_syntax.specs.Faults.{IsReadable};
    ghost use Rattle.mspec_syntax.specs.Sound.{IsSoundClause};

    /// Makes a specification of these clauses. The variables are those of all heads.
    pub fn new(clauses: Vec<Clause<A>, A>, variables: Variables<A>) -> Self
        requires readable { IsReadable clauses.items }
        requires limits { IsWithinLimits clauses.items }
        requires variables { variables ≡ specification_variables clauses.items }
        ensures { result ≡ clauses.items }
    {
        Spec { clauses, variables }
    }

    /// Returns the clauses, in the order in which they are tried.
    pub fn clauses(&self) -> &[Clause<A>]
        ensures value { result.now ≡ self.now }
        ensures readable { IsReadable self.now }
        ensures sound { All IsSoundClause self.now }
        ensures limits { IsWithinLimits self.now }
    {
        self.clauses.as_slice()
    }

    /// Returns the variables of all heads together.
    pub fn variables(&self) -> &Variables<A>
        ensures { result.now ≡ specification_variables self.now }
    {
        &self.variables
    }
}
