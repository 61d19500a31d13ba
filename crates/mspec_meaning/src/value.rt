//! Values of expressions.
ghost use Rattle.std.specs.Prelude.{◌≡◌, map, IfOk};
ghost use Rattle.std.specs.Option.{option_map};
ghost use Rattle.mspec_syntax.specs.Expression.{expressions_of, assignments_of};
ghost use Rattle.mspec_syntax.specs.ExpressionView.{tail_expression};
ghost use Rattle.mspec_meaning.specs.Made.{joined_to, made_of};
ghost use Rattle.mspec_meaning.specs.Meaning.{value_of, argument_values, entry_values};
ghost use Rattle.mspec_meaning.specs.Value.{decided};
ghost use Rattle.term_operand.specs.Value.{value_datum};
ghost use Rattle.term_core.specs.Datum.{entries_of};

use crate::decided::Verdict;
use crate::environment::Environment;
use crate::made::{into_term, push_element, push_entry};
use mspec_syntax::{Expression, ExpressionKind};
use std::alloc::{AllocError, Allocator};
use term_core::Term;
use term_operand::Value;

/// Returns the value of an expression, or `None` if it fails in a condition.
#[cycle(value)]
pub(crate) fn value<'s, 'a, A: Allocator + Copy>(
    environment: &Environment<'s, 'a, A>,
    expression: &'a Expression<A>,
) -> Result<Option<Value<'a, A>>, AllocError>
    ensures { IfOk result (λ value. option_map value_datum value
        ≡ value_of environment.now.mode expression.now environment.now.substitution environment.now.object) }
{
    match expression.kind() {
        ExpressionKind::Variable(number) => Ok(environment.bound(*number)),
        ExpressionKind::Object => Ok(Some(environment.object())),
        ExpressionKind::Bindings => environment.bindings(),
        ExpressionKind::Constant(term) => Ok(Some(Value::Term(term))),
        ExpressionKind::Quoted(term) => Ok(Some(Value::Term(term))),
        ExpressionKind::Call(function, arguments) => {
            let values = values(environment, arguments.as_slice())?;
            environment.called(*function, values)
        }
        ExpressionKind::AndAlso(arguments) => decide(environment, arguments.as_slice(), false),
        ExpressionKind::OrElse(arguments) => decide(environment, arguments.as_slice(), true),
        ExpressionKind::Tuple(elements) => {
            let elements = terms(environment, elements.as_slice())?;
            environment.tuple(elements)
        }
        ExpressionKind::List(elements, tail) => list(environment, elements.as_slice(), tail),
        ExpressionKind::Map(assignments) => {
            let pairs = pairs(environment, assignments.as_slice())?;
            environment.map(pairs)
        }
    }
}

/// Returns the values of a call's arguments, or `None` if one has no value.
#[cycle(value)]
fn values<'s, 'a, A: Allocator + Copy>(
    environment: &Environment<'s, 'a, A>,
    arguments: &'a [Expression<A>],
) -> Result<Option<Vec<Value<'a, A>, A>>, AllocError>
    ensures { IfOk result (λ found. option_map (λ values. map value_datum values.items) found
        ≡ argument_values environment.now.mode (expressions_of arguments.now) environment.now.substitution
        environment.now.object) }
{
    let mut values = Vec::with_capacity(environment.alloc(), arguments.len())?;
    for argument in arguments {
        let Some(value) = value(environment, argument)? else {
            return Ok(None);
        };
        values.push(value)?;
    }
    Ok(Some(values))
}

/// Returns the values of a tuple's or a list's elements as terms, or `None` if one has no value.
#[cycle(value)]
fn terms<'s, 'a, A: Allocator + Copy>(
    environment: &Environment<'s, 'a, A>,
    elements: &'a [Expression<A>],
) -> Result<Option<Vec<Term<A>, A>>, AllocError>
    ensures { IfOk result (λ found. option_map (λ terms. terms.items) found
        ≡ argument_values environment.now.mode (expressions_of elements.now) environment.now.substitution
        environment.now.object) }
{
    let mut terms = Vec::with_capacity(environment.alloc(), elements.len())?;
    for element in elements {
        let Some(value) = value(environment, element)? else {
            return Ok(None);
        };
        push_element(environment.alloc(), &mut terms, value)?;
    }
    Ok(Some(terms))
}

/// Returns the keys of a map with the values of their expressions, or `None` if one has no value.
#[cycle(value)]
fn pairs<'s, 'a, A: Allocator + Copy>(
    environment: &Environment<'s, 'a, A>,
    assignments: &'a [(Term<A>, Expression<A>)],
) -> Result<Option<Vec<(Term<A>, Term<A>), A>>, AllocError>
    ensures { IfOk result (λ found. option_map (λ pairs. entries_of pairs.items) found
        ≡ entry_values environment.now.mode (assignments_of assignments.now) environment.now.substitution
        environment.now.object) }
{
    let mut pairs = Vec::with_capacity(environment.alloc(), assignments.len())?;
    for (key, expression) in assignments {
        let Some(value) = value(environment, expression)? else {
            return Ok(None);
        };
        push_entry(environment.alloc(), &mut pairs, key, value)?;
    }
    Ok(Some(pairs))
}

/// Returns the value of a list of elements and a tail, or `None` if one of them has no value.
#[cycle(value)]
fn list<'s, 'a, A: Allocator + Copy>(
    environment: &Environment<'s, 'a, A>,
    elements: &'a [Expression<A>],
    tail: &'a Option<Box<Expression<A>, A>>,
) -> Result<Option<Value<'a, A>>, AllocError>
    ensures { IfOk result (λ value. option_map value_datum value ≡ made_of environment.now.mode
        (joined_to (argument_values environment.now.mode (expressions_of elements.now)
        environment.now.substitution environment.now.object) (value_of environment.now.mode
        (tail_expression tail.now) environment.now.substitution environment.now.object))) }
{
    let Some(elements) = terms(environment, elements)? else {
        return Ok(None);
    };
    let tail = tail_term(environment, tail)?;
    environment.list(elements, tail)
}

/// Returns the value of a list's tail, `[]` without a tail, or `None` if the tail has no value.
#[cycle(value)]
fn tail_term<'s, 'a, A: Allocator + Copy>(
    environment: &Environment<'s, 'a, A>,
    tail: &'a Option<Box<Expression<A>, A>>,
) -> Result<Option<Term<A>>, AllocError>
    ensures { IfOk result (λ value. value ≡ value_of environment.now.mode (tail_expression tail.now)
        environment.now.substitution environment.now.object) }
{
    let Some(tail) = tail else {
        return Ok(Some(Term::nil()));
    };
    let value = value(environment, tail)?;
    into_term(environment.alloc(), value)
}

/// Returns the value of `andalso` of these arguments if `decides` is false, of `orelse` if it is true. Evaluates them
/// up to the first that decides.
#[cycle(value)]
fn decide<'s, 'a, A: Allocator + Copy>(
    environment: &Environment<'s, 'a, A>,
    arguments: &'a [Expression<A>],
    decides: bool,
) -> Result<Option<Value<'a, A>>, AllocError>
    ensures { IfOk result (λ value. option_map value_datum value ≡ decided decides environment.now.mode
        (expressions_of arguments.now) environment.now.substitution environment.now.object) }
{
    for argument in arguments {
        let value = value(environment, argument)?;
        match environment.verdict(value, decides)? {
            Verdict::Open => {}
            Verdict::Ends(value) => return Ok(value),
        }
    }
    Ok(Some(Value::Bool(!decides)))
}
