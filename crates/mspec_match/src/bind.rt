//! Matching patterns with parts of an object.
ghost use Rattle.std.specs.Prelude.{◌≡◌, length, MatchBool, MatchOption};
ghost use Rattle.term_core.specs.Datum.{items_of, entries_of};
ghost use Rattle.term_core.specs.Datum.Datum.{nil};
ghost use Rattle.term_core.specs.Limits.{ArePairsSound};
ghost use Rattle.term_operand.specs.Operand.{operand_datum};
ghost use Rattle.mspec_syntax.specs.Pattern.{patterns_of, fields_of};
ghost use Rattle.mspec_match.specs.Match.{Fits, AllFit, FieldsFit};
ghost use Rattle.mspec_match.specs.Slots.{seen, Answers, BindsFront, NeverFitsFront};

use mspec_syntax::{Pattern, PatternKind, Variables};
use prims::find_value;
use std::alloc::Allocator;
use term_core::{Term, View};
use term_operand::{Operand, compare};

/// The slot of a variable: the part of an object to which it is bound, or `None` while it is free. Slots are in
/// ascending order of the variables' numbers.
pub type Slot<'a, A> = Option<Operand<'a, A>>;

/// Returns whether two operands are equal.
fn are_same<A: Allocator>(left: Operand<'_, A>, right: Operand<'_, A>) -> bool
    ensures { MatchBool result (operand_datum left.entry ≡ operand_datum right.entry)
        (operand_datum left.entry ≡ operand_datum right.entry → ⊥) }
{
    compare(left, right).is_eq()
}

/// Returns whether an operand is `[]`.
fn is_nil<A: Allocator>(operand: Operand<'_, A>) -> bool
    ensures { MatchBool result (operand_datum operand.entry ≡ nil)
        (operand_datum operand.entry ≡ nil → ⊥) }
{
    matches!(operand.view(), View::Nil)
}

/// Binds a free variable to a part. If the variable is bound already, returns whether it is bound to an equal term.
fn bind_variable<'a, A: Allocator + Copy>(
    variables: &Variables<A>,
    slots: &mut [Slot<'a, A>],
    number: u32,
    part: Operand<'a, A>,
) -> bool
    requires { length slots.old ≡ length variables.now }
    ensures { Answers result variables.now (seen slots.old) (seen slots.new)
        (λ s. s number ≡ Some (operand_datum part.entry)) }
{
    let Some(rank) = variables.rank(number) else {
        return false;
    };
    match slots[rank] {
        None => {
            slots[rank] = Some(part);
            true
        }
        Some(bound) => are_same(bound, part),
    }
}

/// Binds the variables of a pattern, from the left, so that a part of an object fits it. Returns whether it fits; if
/// not, some variables may have been bound.
#[cycle(bind)]
pub(crate) fn bind<'a, A: Allocator + Copy>(
    variables: &Variables<A>,
    slots: &mut [Slot<'a, A>],
    pattern: &Pattern<A>,
    part: Operand<'a, A>,
) -> bool
    requires { length slots.old ≡ length variables.now }
    ensures { Answers result variables.now (seen slots.old) (seen slots.new)
        (λ s. Fits pattern.now s (operand_datum part.entry)) }
{
    match pattern.kind() {
        PatternKind::Anything => true,
        PatternKind::Variable(number) => bind_variable(variables, slots, *number, part),
        PatternKind::Literal(term) => are_same(part, Operand::Term(term)),
        PatternKind::Tuple(patterns) => match part.elements() {
            Some(elements) => bind_all(variables, slots, patterns.as_slice(), elements),
            None => false,
        },
        PatternKind::List(patterns, tail) => {
            let Some(rest) = bind_front(variables, slots, patterns.as_slice(), part) else {
                return false;
            };
            match tail {
                None => is_nil(rest),
                Some(tail) => bind(variables, slots, tail, rest),
            }
        }
        PatternKind::Map(fields) => match part.pairs() {
            Some(pairs) => bind_fields(variables, slots, fields.as_slice(), pairs),
            None => false,
        },
    }
}

/// Binds the variables of these patterns so that each term fits its pattern. Returns whether they fit.
#[cycle(bind)]
fn bind_all<'a, A: Allocator + Copy>(
    variables: &Variables<A>,
    slots: &mut [Slot<'a, A>],
    patterns: &[Pattern<A>],
    terms: &'a [Term<A>],
) -> bool
    requires { length slots.old ≡ length variables.now }
    ensures { Answers result variables.now (seen slots.old) (seen slots.new)
        (λ s. AllFit (patterns_of patterns.now) s (items_of terms.entry.now)) }
{
    if patterns.len() != terms.len() {
        return false;
    }
    for i in 0..patterns.len() {
        if !bind(variables, slots, &patterns[i], Operand::Term(&terms[i])) {
            return false;
        }
    }
    true
}

/// Binds the variables of the patterns of a list's first elements, from the left. Returns what follows these elements,
/// or `None` if one doesn't fit or there are fewer elements.
#[cycle(bind)]
fn bind_front<'a, A: Allocator + Copy>(
    variables: &Variables<A>,
    slots: &mut [Slot<'a, A>],
    patterns: &[Pattern<A>],
    list: Operand<'a, A>,
) -> Option<Operand<'a, A>>
    requires { length slots.old ≡ length variables.now }
    ensures { MatchOption result
        (NeverFitsFront variables.now (seen slots.old) patterns.now (operand_datum list.entry))
        (λ rest. BindsFront variables.now (seen slots.old) (seen slots.new) patterns.now
        (operand_datum list.entry) (operand_datum rest)) }
{
    let mut rest = list;
    for pattern in patterns {
        let Some((head, behind)) = rest.split() else {
            return None;
        };
        if !bind(variables, slots, pattern, Operand::Term(head)) {
            return None;
        }
        rest = behind;
    }
    Some(rest)
}

/// Binds the variables of the patterns of these fields so that the values of their keys fit. Returns whether they do.
#[cycle(bind)]
fn bind_fields<'a, A: Allocator + Copy>(
    variables: &Variables<A>,
    slots: &mut [Slot<'a, A>],
    fields: &[(Term<A>, Pattern<A>)],
    pairs: &'a [(Term<A>, Term<A>)],
) -> bool
    requires slots { length slots.old ≡ length variables.now }
    requires sound { ArePairsSound (entries_of pairs.now) }
    ensures { Answers result variables.now (seen slots.old) (seen slots.new)
        (λ s. FieldsFit (fields_of fields.now) s (entries_of pairs.entry.now)) }
{
    for (key, pattern) in fields {
        let Some(value) = find_value(pairs, Operand::Term(key)) else {
            return false;
        };
        if !bind(variables, slots, pattern, Operand::Term(value)) {
            return false;
        }
    }
    true
}
