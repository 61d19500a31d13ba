//! The sizes of specifications, counted in nodes.
ghost use Rattle.mspec_syntax.specs.Pattern.{pattern_nodes, patterns_nodes, fields_nodes, patterns_of, fields_of};
ghost use Rattle.mspec_syntax.specs.Expression.{expression_nodes, expressions_nodes, assignments_nodes, expressions_of, assignments_of};
ghost use Rattle.mspec_syntax.specs.Specification.{clause_nodes, specification_nodes, Leaves};
ghost use Rattle.std.specs.Prelude.{sum_by};

use mspec_syntax::{Clause, Expression, ExpressionKind, Pattern, PatternKind};
use std::alloc::Allocator;
use term_core::Term;

/// Returns the room left after a pattern's nodes, or `None` if it has more nodes than room.
#[cycle(size)]
fn after_pattern<A: Allocator>(room: usize, pattern: &Pattern<A>) -> Option<usize>
    ensures { Leaves result room (pattern_nodes pattern.now) }
{
    let room = room.checked_sub(1)?;
    match pattern.kind() {
        PatternKind::Anything | PatternKind::Variable(_) | PatternKind::Literal(_) => Some(room),
        PatternKind::Tuple(elements) => after_patterns(room, elements.as_slice()),
        PatternKind::List(elements, tail) => {
            let room = after_patterns(room, elements.as_slice())?;
            match tail {
                None => Some(room),
                Some(tail) => after_pattern(room, tail),
            }
        }
        PatternKind::Map(fields) => after_fields(room, fields.as_slice()),
    }
}

/// Returns the room left after the nodes of these patterns, or `None` if they have more.
#[cycle(size)]
fn after_patterns<A: Allocator>(room: usize, patterns: &[Pattern<A>]) -> Option<usize>
    ensures { Leaves result room (patterns_nodes (patterns_of patterns.now)) }
{
    let mut left = room;
    for pattern in patterns {
        left = after_pattern(left, pattern)?;
    }
    Some(left)
}

/// Returns the room left after the nodes of these keys and patterns, or `None` if they have more.
#[cycle(size)]
fn after_fields<A: Allocator>(room: usize, fields: &[(Term<A>, Pattern<A>)]) -> Option<usize>
    ensures { Leaves result room (fields_nodes (fields_of fields.now)) }
{
    let mut left = room;
    for (_, pattern) in fields {
        let rest = left.checked_sub(1)?;
        left = after_pattern(rest, pattern)?;
    }
    Some(left)
}

/// Returns the room left after an expression's nodes, or `None` if it has more. `variables` is the number of its head's
/// variables.
#[cycle(expression)]
fn after_expression<A: Allocator>(
    room: usize,
    variables: usize,
    expression: &Expression<A>,
) -> Option<usize>
    ensures { Leaves result room (expression_nodes variables expression.now) }
{
    let room = room.checked_sub(1)?;
    match expression.kind() {
        ExpressionKind::Variable(_)
        | ExpressionKind::Object
        | ExpressionKind::Constant(_)
        | ExpressionKind::Quoted(_) => Some(room),
        ExpressionKind::Bindings => room.checked_sub(variables),
        ExpressionKind::Call(_, arguments) => after_parts(room, variables, arguments.as_slice()),
        ExpressionKind::AndAlso(arguments) => after_parts(room, variables, arguments.as_slice()),
        ExpressionKind::OrElse(arguments) => after_parts(room, variables, arguments.as_slice()),
        ExpressionKind::Tuple(elements) => after_parts(room, variables, elements.as_slice()),
        ExpressionKind::List(elements, tail) => {
            let room = after_parts(room, variables, elements.as_slice())?;
            match tail {
                None => Some(room),
                Some(tail) => after_expression(room, variables, tail),
            }
        }
        ExpressionKind::Map(assignments) => {
            after_assignments(room, variables, assignments.as_slice())
        }
    }
}

/// Returns the room left after the nodes of these arguments or elements, or `None` if they have more.
#[cycle(expression)]
fn after_parts<A: Allocator>(
    room: usize,
    variables: usize,
    parts: &[Expression<A>],
) -> Option<usize>
    ensures { Leaves result room (expressions_nodes variables (expressions_of parts.now)) }
{
    let mut left = room;
    for part in parts {
        left = after_expression(left, variables, part)?;
    }
    Some(left)
}

/// Returns the room left after the nodes of these keys and expressions, or `None` if they have more.
#[cycle(expression)]
fn after_assignments<A: Allocator>(
    room: usize,
    variables: usize,
    assignments: &[(Term<A>, Expression<A>)],
) -> Option<usize>
    ensures { Leaves result room (assignments_nodes variables (assignments_of assignments.now)) }
{
    let mut left = room;
    for (_, expression) in assignments {
        let after_key = left.checked_sub(1)?;
        left = after_expression(after_key, variables, expression)?;
    }
    Some(left)
}

/// Returns the room left after the nodes of the expressions of a clause, or `None` if they have more.
fn after_expressions<A: Allocator>(
    room: usize,
    variables: usize,
    expressions: &[Expression<A>],
) -> Option<usize>
    ensures { Leaves result room (sum_by (expression_nodes variables) expressions.now) }
{
    let mut left = room;
    for expression in expressions {
        left = after_expression(left, variables, expression)?;
    }
    Some(left)
}

/// Returns the room left after a clause's nodes, or `None` if it has more.
fn after_clause<A: Allocator>(room: usize, clause: &Clause<A>) -> Option<usize>
    ensures { Leaves result room (clause_nodes clause.now) }
{
    let variables = clause.variables().len();
    let room = room.checked_sub(1)?;
    let room = after_pattern(room, clause.head())?;
    let room = after_expressions(room, variables, clause.conditions())?;
    after_expressions(room, variables, clause.body())
}

/// Returns the room left after the nodes of these clauses, or `None` if they have more.
pub(crate) fn after_clauses<A: Allocator>(room: usize, clauses: &[Clause<A>]) -> Option<usize>
    ensures { Leaves result room (specification_nodes clauses.now) }
{
    let mut left = room;
    for clause in clauses {
        left = after_clause(left, clause)?;
    }
    Some(left)
}
