//! Specifications read from terms.
ghost use Rattle.std.specs.Prelude.{◌≡◌, IfOk, IfErr, IfSome, IfNone, MatchResult};
ghost use Rattle.term_core.specs.Limits.{IsTerm};
ghost use Rattle.mspec_syntax.specs.Specification.{Specification, IsWithinLimits};
ghost use Rattle.mspec_syntax.specs.Grammar.{triple, IsNoTriple, IsClause, AreClauses, IsSpecification};
ghost use Rattle.mspec_syntax.specs.Faults.{clause_faults, clauses_faults, specification_faults, Refuses, IsRefusal, IsReadable, IsSizeRefusal};

use crate::body::{read_body, read_conditions};
use crate::head::read_head;
use crate::size::after_clauses;
use crate::{MAX_NODES, MAX_VARIABLES};
use mspec_syntax::{Clause, Spec, SpecFault, Variables};
use std::alloc::Allocator;
use term_core::{Term, View};

/// Returns the elements of a tuple of three, or `None` for any other term.
fn clause_parts<A: Allocator>(term: &Term<A>) -> Option<(&Term<A>, &Term<A>, &Term<A>)>
    ensures found { IfSome result (λ parts. triple parts.0.now parts.1.now parts.2.now ≡ term.now) }
    ensures missing { IfNone result (IsNoTriple term.now) }
{
    match term.view() {
        View::Tuple(elements) => {
            if elements.len() != 3 {
                return None;
            }
            Some((&elements[0], &elements[1], &elements[2]))
        }
        View::Integer(_) | View::Atom(_) | View::Nil | View::Map(_) | View::Binary(_) => None,
        View::List(_, _) => None,
    }
}

/// Reads the clause with this number from a term. Fails with the clause's first fault.
fn read_clause<A: Allocator + Copy>(
    alloc: A,
    number: usize,
    term: &Term<A>,
) -> Result<Clause<A>, SpecFault>
    ensures ok { IfOk result (λ c. IsClause term.now c) }
    ensures refused { IfErr result (λ f. Refuses f (clause_faults number term.now)) }
{
    let Some((head, conditions, body)) = clause_parts(term) else {
        return Err(SpecFault::NotAClause(number));
    };
    let head = read_head(alloc, number, head)?;
    let variables = Variables::of_pattern(alloc, &head)?;
    let conditions = read_conditions(alloc, number, &variables, conditions)?;
    let body = read_body(alloc, number, &variables, body)?;
    Ok(Clause::new(head, variables, conditions, body))
}

/// Reads the clauses from these terms, numbered from 0. Fails with the first fault.
fn read_clauses<A: Allocator + Copy>(
    alloc: A,
    terms: &[Term<A>],
) -> Result<Vec<Clause<A>, A>, SpecFault>
    ensures ok { IfOk result (λ cs. AreClauses terms.now cs.items) }
    ensures refused { IfErr result (λ f. Refuses f (clauses_faults 0 terms.now)) }
{
    let mut clauses = Vec::new(alloc);
    for (number, term) in terms.iter().enumerate() {
        let clause = read_clause(alloc, number, term)?;
        clauses.push(clause)?;
    }
    Ok(clauses)
}

/// Reads the clauses of a specification of any size. Fails with the first fault.
fn read_list<A: Allocator + Copy>(alloc: A, term: &Term<A>) -> Result<Vec<Clause<A>, A>, SpecFault>
    ensures ok { IfOk result (λ cs. IsSpecification term.now cs.items) }
    ensures within { IsTerm term.now }
    ensures refused { IfErr result (λ f. Refuses f (specification_faults term.now)) }
{
    match term.proper_elements() {
        Some(terms) => read_clauses(alloc, terms),
        None => Err(SpecFault::NotAList),
    }
}

/// Makes a specification of these clauses. Fails if it has more than `MAX_NODES` nodes or `MAX_VARIABLES` variables.
fn within_limits<A: Allocator + Copy>(
    alloc: A,
    clauses: Vec<Clause<A>, A>,
) -> Result<Spec<A>, SpecFault>
    requires { IsReadable clauses.items }
    ensures ok { IfOk result (λ s. (s ≡ clauses.items) × IsWithinLimits s) }
    ensures refused { IfErr result (λ f. IsSizeRefusal f clauses.items) }
{
    let Some(_) = after_clauses(MAX_NODES, clauses.as_slice()) else {
        return Err(SpecFault::TooLarge);
    };
    let variables = Variables::of_clauses(alloc, clauses.as_slice())?;
    if variables.len() > MAX_VARIABLES {
        return Err(SpecFault::TooLarge);
    }
    Ok(Spec::new(clauses, variables))
}

/// Reads the specification from a term. (ERTS User's Guide, "Match Specifications in Erlang", "Grammar".)
///
/// Fails with the first fault in reading order: an outer term's fault comes before those inside it. These are in order
/// from the left, and those of a map's pairs in ascending key order. Only if there is no other fault, it fails with
/// `TooLarge` for more than `MAX_NODES` nodes or `MAX_VARIABLES` distinct variables. Also fails if an allocation fails.
pub fn read_spec<A: Allocator + Copy>(alloc: A, term: &Term<A>) -> Result<Spec<A>, SpecFault>
    ensures ok { IfOk result (λ s. IsSpecification term.now s × IsWithinLimits s) }
    ensures refused { IfErr result (λ f. IsRefusal f term.now) }
    // What the grammar allows within the limits is read, and as nothing else.
    ensures only { (s : Specification) → IsSpecification term.now s → IsWithinLimits s
        → MatchResult result (λ r. r ≡ s) (λ f. f ≡ SpecFault.Memory) }
{
    let clauses = read_list(alloc, term)?;
    within_limits(alloc, clauses)
}
