//! Conditions and bodies read from terms.
ghost use Rattle.std.specs.Prelude.{◌≡◌, IfOk, IfErr, Option};
ghost use Rattle.std.specs.Str.{chars};
ghost use Rattle.std.specs.Prelude.{length};
ghost use Rattle.term_core.specs.Datum.{items_of, entries_of, proper_elements};
ghost use Rattle.term_core.specs.Datum.Datum.{atom, tuple};
ghost use Rattle.term_core.specs.Datum.Items.{item};
ghost use Rattle.term_core.specs.Limits.{IsTerm};
ghost use Rattle.mspec_syntax.specs.Word.{word_of};
ghost use Rattle.mspec_syntax.specs.Expression.{expressions_of, assignments_of};
ghost use Rattle.mspec_syntax.specs.Expression.Expression.{constant};
ghost use Rattle.mspec_syntax.specs.Grammar.{IsAtomExpression, IsExpression, IsTupleExpression, IsCall, AreParts, AreAssignments, AreExpressions, AreConditions, AreBodyExpressions};
ghost use Rattle.mspec_syntax.specs.Faults.{word_faults, expression_faults, tuple_faults, call_faults, parts_faults, values_faults, expressions_faults, conditions_faults, body_faults, Refuses};

use mspec_syntax::{Callee, Expression, ExpressionKind, SpecFault, Variables, Word};
use std::alloc::Allocator;
use term_core::{Term, View};

/// Returns the expression for the atom of this text in a condition or the body of the clause. Fails if it is an
/// unbound variable or a wrong variable name.
fn read_atom<A: Allocator + Copy>(
    alloc: A,
    clause: usize,
    variables: &Variables<A>,
    term: &Term<A>,
    text: &str,
) -> Result<Expression<A>, SpecFault>
    requires { atom (chars text.now) ≡ term.now }
    ensures ok { IfOk result (λ e.
        IsAtomExpression variables.now (chars text.now) (word_of (chars text.now)) e) }
    ensures refused { IfErr result (λ f.
        Refuses f (word_faults clause variables.now (word_of (chars text.now)))) }
{
    match Word::new(text) {
        Word::Variable(number) => {
            if !variables.contains(number) {
                return Err(SpecFault::Unbound(clause, number));
            }
            Ok(Expression::new(ExpressionKind::Variable(number)))
        }
        Word::Misnumbered => Err(SpecFault::BadVariableName(clause)),
        Word::Object => Ok(Expression::new(ExpressionKind::Object)),
        Word::Bindings => Ok(Expression::new(ExpressionKind::Bindings)),
        Word::Underscore | Word::Plain => read_constant(term),
    }
}

/// Returns the expression of a term that means itself.
fn read_constant<A: Allocator + Copy>(term: &Term<A>) -> Result<Expression<A>, SpecFault>
    ensures ok { IfOk result (λ e. e ≡ constant term.now) }
    ensures refused { IfErr result (λ f. f ≡ SpecFault.Memory) }
{
    Ok(Expression::new(ExpressionKind::Constant(term.copy()?)))
}

/// Returns the expression for a term in a condition or the body of the clause. Fails with its first fault.
#[cycle(expression)]
fn read_expression<A: Allocator + Copy>(
    alloc: A,
    clause: usize,
    variables: &Variables<A>,
    term: &Term<A>,
) -> Result<Expression<A>, SpecFault>
    ensures ok { IfOk result (λ e. IsExpression variables.now term.now e) }
    ensures refused { IfErr result (λ f.
        Refuses f (expression_faults clause variables.now term.now)) }
{
    match term.view() {
        View::Integer(_) | View::Nil | View::Binary(_) => read_constant(term),
        View::Atom(text) => read_atom(alloc, clause, variables, term, text),
        View::Tuple(elements) => read_tuple(alloc, clause, variables, elements),
        View::List(elements, None) => {
            let elements = read_parts(alloc, clause, variables, elements)?;
            Ok(Expression::new(ExpressionKind::List(elements, None)))
        }
        View::List(elements, Some(tail)) => {
            let elements = read_parts(alloc, clause, variables, elements)?;
            let tail = read_expression(alloc, clause, variables, tail)?;
            let tail = Box::new(alloc, tail)?;
            Ok(Expression::new(ExpressionKind::List(elements, Some(tail))))
        }
        View::Map(pairs) => {
            let assignments = read_assignments(alloc, clause, variables, pairs)?;
            Ok(Expression::new(ExpressionKind::Map(assignments)))
        }
    }
}

/// Returns the expression for a tuple of these elements: a call, or a tuple that is made. Fails with its first fault.
#[cycle(expression)]
fn read_tuple<A: Allocator + Copy>(
    alloc: A,
    clause: usize,
    variables: &Variables<A>,
    elements: &[Term<A>],
) -> Result<Expression<A>, SpecFault>
    ensures ok { IfOk result (λ e. IsTupleExpression variables.now (items_of elements.now) e) }
    ensures refused { IfErr result (λ f.
        Refuses f (tuple_faults clause variables.now (items_of elements.now))) }
{
    let Some((first, rest)) = elements.split_first() else {
        return Err(SpecFault::BadExpression(clause));
    };
    match first.view() {
        View::Atom(name) => {
            let callee = Callee::new(name, rest.len());
            read_call(alloc, clause, variables, callee, rest)
        }
        View::Tuple(parts) => read_construction(alloc, clause, variables, parts, rest),
        View::Integer(_) => Err(SpecFault::BadExpression(clause)),
        View::Nil => Err(SpecFault::BadExpression(clause)),
        View::List(_, _) => Err(SpecFault::BadExpression(clause)),
        View::Map(_) => Err(SpecFault::BadExpression(clause)),
        View::Binary(_) => Err(SpecFault::BadExpression(clause)),
    }
}

/// Returns the expression for a tuple whose first element is a tuple of these parts. Fails if that is not the only
/// element.
#[cycle(expression)]
fn read_construction<A: Allocator + Copy>(
    alloc: A,
    clause: usize,
    variables: &Variables<A>,
    parts: &[Term<A>],
    rest: &[Term<A>],
) -> Result<Expression<A>, SpecFault>
    ensures ok { IfOk result (λ e.
        IsTupleExpression variables.now (item (tuple (items_of parts.now)) (items_of rest.now)) e) }
    ensures refused { IfErr result (λ f.
        Refuses f (tuple_faults clause variables.now
        (item (tuple (items_of parts.now)) (items_of rest.now)))) }
{
    if !rest.is_empty() {
        return Err(SpecFault::BadExpression(clause));
    }
    let parts = read_parts(alloc, clause, variables, parts)?;
    Ok(Expression::new(ExpressionKind::Tuple(parts)))
}

/// Returns the expression for a call with these arguments. Fails if there is no such function, or with the arguments'
/// first fault.
#[cycle(expression)]
fn read_call<A: Allocator + Copy>(
    alloc: A,
    clause: usize,
    variables: &Variables<A>,
    callee: Callee,
    arguments: &[Term<A>],
) -> Result<Expression<A>, SpecFault>
    requires { callee ≡ Callee.Quote → length arguments.now ≡ 1 }
    ensures ok { IfOk result (λ e.
        IsCall callee (AreParts variables.now (items_of arguments.now))
        (items_of arguments.now) e) }
    ensures refused { IfErr result (λ f.
        Refuses f (call_faults clause callee
        (parts_faults clause variables.now (items_of arguments.now)))) }
{
    match callee {
        Callee::Quote => {
            let quoted = arguments[0].copy()?;
            Ok(Expression::new(ExpressionKind::Quoted(quoted)))
        }
        Callee::AndAlso => {
            let parts = read_parts(alloc, clause, variables, arguments)?;
            Ok(Expression::new(ExpressionKind::AndAlso(parts)))
        }
        Callee::OrElse => {
            let parts = read_parts(alloc, clause, variables, arguments)?;
            Ok(Expression::new(ExpressionKind::OrElse(parts)))
        }
        Callee::Function(prim) => {
            let parts = read_parts(alloc, clause, variables, arguments)?;
            Ok(Expression::new(ExpressionKind::Call(prim, parts)))
        }
        Callee::Unknown => Err(SpecFault::UnknownCall(clause)),
    }
}

/// Returns the expressions for arguments or elements. Fails with their first fault.
#[cycle(expression)]
fn read_parts<A: Allocator + Copy>(
    alloc: A,
    clause: usize,
    variables: &Variables<A>,
    terms: &[Term<A>],
) -> Result<Vec<Expression<A>, A>, SpecFault>
    ensures ok { IfOk result (λ es.
        AreParts variables.now (items_of terms.now) (expressions_of es.items)) }
    ensures refused { IfErr result (λ f.
        Refuses f (parts_faults clause variables.now (items_of terms.now))) }
{
    let mut parts = Vec::new(alloc);
    for term in terms {
        let part = read_expression(alloc, clause, variables, term)?;
        parts.push(part)?;
    }
    Ok(parts)
}

/// Returns the keys of a map, which mean themselves, with the expressions for its values. Fails with their first fault.
#[cycle(expression)]
fn read_assignments<A: Allocator + Copy>(
    alloc: A,
    clause: usize,
    variables: &Variables<A>,
    pairs: &[(Term<A>, Term<A>)],
) -> Result<Vec<(Term<A>, Expression<A>), A>, SpecFault>
    ensures ok { IfOk result (λ ms.
        AreAssignments variables.now (entries_of pairs.now) (assignments_of ms.items)) }
    ensures refused { IfErr result (λ f.
        Refuses f (values_faults clause variables.now (entries_of pairs.now))) }
{
    let mut assignments = Vec::new(alloc);
    for (key, value) in pairs {
        let expression = read_expression(alloc, clause, variables, value)?;
        let key = key.copy()?;
        assignments.push((key, expression))?;
    }
    Ok(assignments)
}

/// Returns the expressions for these terms. Fails with their first fault.
fn read_expressions<A: Allocator + Copy>(
    alloc: A,
    clause: usize,
    variables: &Variables<A>,
    terms: &[Term<A>],
) -> Result<Vec<Expression<A>, A>, SpecFault>
    ensures ok { IfOk result (λ es. AreExpressions variables.now terms.now es.items) }
    ensures refused { IfErr result (λ f.
        Refuses f (expressions_faults clause variables.now terms.now)) }
{
    let mut expressions = Vec::new(alloc);
    for term in terms {
        let expression = read_expression(alloc, clause, variables, term)?;
        expressions.push(expression)?;
    }
    Ok(expressions)
}

/// Returns the conditions of a clause. Fails if the term is not a proper list, or with its elements' first fault.
pub(crate) fn read_conditions<A: Allocator + Copy>(
    alloc: A,
    clause: usize,
    variables: &Variables<A>,
    term: &Term<A>,
) -> Result<Vec<Expression<A>, A>, SpecFault>
    ensures ok { IfOk result (λ es.
        AreConditions variables.now (proper_elements term.now) es.items) }
    ensures refused { IfErr result (λ f.
        Refuses f (conditions_faults clause variables.now (proper_elements term.now))) }
{
    match term.proper_elements() {
        Some(terms) => read_expressions(alloc, clause, variables, terms),
        None => Err(SpecFault::BadConditions(clause)),
    }
}

/// Returns the expressions of a clause's body. Fails if the term is not a proper list with at least one element, or
/// with its elements' first fault.
pub(crate) fn read_body<A: Allocator + Copy>(
    alloc: A,
    clause: usize,
    variables: &Variables<A>,
    term: &Term<A>,
) -> Result<Vec<Expression<A>, A>, SpecFault>
    ensures ok { IfOk result (λ es.
        AreBodyExpressions variables.now (proper_elements term.now) es.items) }
    ensures refused { IfErr result (λ f.
        Refuses f (body_faults clause variables.now (proper_elements term.now))) }
{
    match term.proper_elements() {
        Some(terms) if !terms.is_empty() => read_expressions(alloc, clause, variables, terms),
        _ => Err(SpecFault::BadBody(clause)),
    }
}
