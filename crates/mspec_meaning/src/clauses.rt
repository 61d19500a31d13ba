//! The meaning of a specification on an object.
ghost use Rattle.std.specs.Prelude.{◌≡◌, IfOk, MatchBool};
ghost use Rattle.mspec_meaning.specs.Meaning.{AllHold, IsApplicable, Applies, Means, body_value};
ghost use Rattle.mspec_meaning.specs.Applied.{AnswersBy};
ghost use Rattle.mspec_syntax.specs.declared.mode.Mode.TheVariants.{Condition, Body};

use crate::environment::Environment;
use crate::made::into_term;
use crate::value::value;
use mspec_match::matched;
use mspec_syntax::{Clause, Expression, Mode, Spec};
use std::alloc::{AllocError, Allocator};
use term_core::Term;

/// The result of a clause on an object.
#[derive(Drop)]
enum Applied<A: Allocator> {
    /// The clause doesn't apply.
    Not,
    /// The clause applies, and this is the value of its body.
    Answers(Option<Term<A>>),
}

/// Returns whether all conditions have the value `true`. Evaluates them up to the first that doesn't.
fn all_hold<'a, A: Allocator + Copy>(
    environment: &Environment<'_, 'a, A>,
    conditions: &'a [Expression<A>],
) -> Result<bool, AllocError>
    requires { environment.now.mode ≡ Condition }
    ensures { IfOk result (λ holds. MatchBool holds
        (AllHold conditions.now environment.now.substitution environment.now.object)
        (AllHold conditions.now environment.now.substitution environment.now.object → ⊥)) }
{
    for condition in conditions {
        match value(environment, condition)? {
            Some(answer) => {
                if !answer.is_true() {
                    return Ok(false);
                }
            }
            None => return Ok(false),
        }
    }
    Ok(true)
}

/// Returns the value of the last expression of a body, or `None` if there is none.
fn body_answer<'a, A: Allocator + Copy>(
    environment: &Environment<'_, 'a, A>,
    body: &'a [Expression<A>],
) -> Result<Option<Term<A>>, AllocError>
    requires { environment.now.mode ≡ Body }
    ensures { IfOk result (λ answer. answer ≡ body_value body.now environment.now.substitution
        environment.now.object) }
{
    let Some(last) = body.last() else {
        return Ok(None);
    };
    let value = value(environment, last)?;
    into_term(environment.alloc(), value)
}

/// Returns the result of a clause on an object: the value of its body if it applies.
fn clause_answer<A: Allocator + Copy>(
    alloc: A,
    clause: &Clause<A>,
    object: &Term<A>,
) -> Result<Applied<A>, AllocError>
    ensures { IfOk result (λ applied. AnswersBy applied clause.now object.now) }
{
    let Some(slots) = matched(alloc, clause, object)? else {
        return Ok(Applied::Not);
    };
    let slots = slots.as_slice();
    let variables = clause.variables();
    let heap = &alloc;
    let conditions = Environment::new(heap, Mode::Condition, variables, slots, object);
    if !all_hold(&conditions, clause.conditions())? {
        return Ok(Applied::Not);
    }
    let body = Environment::new(heap, Mode::Body, variables, slots, object);
    Ok(Applied::Answers(body_answer(&body, clause.body())?))
}

/// Evaluates a specification on an object. Returns the value of the body of the first clause whose head matches the
/// object and whose conditions all have the value `true`. Returns `None` if there is no such clause. Fails if an
/// allocation fails. (ERTS User's Guide, "Match Specifications in Erlang", "Semantics".)
pub fn evaluate<A: Allocator + Copy>(
    alloc: A,
    spec: &Spec<A>,
    object: &Term<A>,
) -> Result<Option<Term<A>>, AllocError>
    ensures { IfOk result (λ answer. Means spec.now object.now answer) }
{
    for clause in spec.clauses() {
        match clause_answer(alloc, clause, object)? {
            Applied::Not => {}
            Applied::Answers(answer) => return Ok(answer),
        }
    }
    Ok(None)
}
