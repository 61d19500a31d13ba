//! Patterns that spell a term, i.e. contain no variable, `'_'` or map, and the term that they spell.
ghost use Rattle.std.specs.Prelude.{◌≡◌, ℕ, ◌<◌, ◌≤◌, false, true, Some, length, map, drop, IfOk, MatchOption};
ghost use Rattle.mspec_syntax.specs.Pattern.{own_term, patterns_of, cells_of};
ghost use Rattle.mspec_syntax.specs.Pattern.Pattern.{tuple_of};
ghost use Rattle.mspec_syntax.specs.PatternView.{tail_pattern};
ghost use Rattle.mspec_syntax.specs.Sound.{IsSoundPattern, AreSoundPatterns};
ghost use Rattle.compiler_patterns.specs.Spelled.{spells, all_spell};

use mspec_syntax::{Pattern, PatternKind};
use std::alloc::{AllocError, Allocator};
use term_build::{make_list, make_tuple};
use term_core::Term;

/// Returns whether the pattern spells a term.
#[cycle(spells)]
fn spells<A: Allocator>(pattern: &Pattern<A>) -> bool
    ensures { result ≡ spells pattern.now }
{
    match pattern.kind() {
        PatternKind::Anything => false,
        PatternKind::Variable(_) => false,
        PatternKind::Literal(_) => true,
        PatternKind::Tuple(elements) => all_spell(elements.as_slice()),
        PatternKind::List(elements, tail) => all_spell(elements.as_slice()) && tail_spells(tail),
        PatternKind::Map(_) => false,
    }
}

/// Returns whether each of these patterns spells a term.
#[cycle(spells)]
pub(crate) fn all_spell<A: Allocator>(patterns: &[Pattern<A>]) -> bool
    ensures { result ≡ all_spell patterns.now }
{
    for pattern in patterns {
        if !spells(pattern) {
            return false;
        }
    }
    true
}

/// Returns whether the tail of a list spells a term; without a tail it does.
#[cycle(spells)]
fn tail_spells<A: Allocator>(tail: &Option<Box<Pattern<A>, A>>) -> bool
    ensures { result ≡ spells (tail_pattern tail.now) }
{
    match tail {
        None => true,
        Some(tail) => spells(tail),
    }
}

/// Returns the number of elements before the longest rest of a list that spells a term: all if its tail spells none.
pub(crate) fn open_elements<A: Allocator>(
    elements: &[Pattern<A>],
    tail: &Option<Box<Pattern<A>, A>>,
) -> usize
    ensures count { result ≤ length elements.now }
    ensures before { (i : ℕ) → i < result
        → spells (cells_of (drop i elements.now) (tail_pattern tail.now)) ≡ false }
    ensures behind { result < length elements.now
        → spells (cells_of (drop result elements.now) (tail_pattern tail.now)) ≡ true }
{
    if !tail_spells(tail) {
        return elements.len();
    }
    for place in (0..elements.len()).rev() {
        if !spells(&elements[place]) {
            return place + 1;
        }
    }
    0
}

/// Returns the term that a pattern spells, or `None` if it spells none. Fails if an allocation fails.
#[cycle(spelled)]
pub fn spelled<A: Allocator + Copy>(
    alloc: A,
    pattern: &Pattern<A>,
) -> Result<Option<Term<A>>, AllocError>
    requires { IsSoundPattern pattern.now }
    ensures { IfOk result (λ found. found ≡ own_term pattern.now) }
{
    match pattern.kind() {
        PatternKind::Anything => Ok(None),
        PatternKind::Variable(_) => Ok(None),
        PatternKind::Literal(term) => Ok(Some(term.copy()?)),
        PatternKind::Tuple(elements) => spelled_tuple(alloc, elements.as_slice()),
        PatternKind::List(elements, tail) => spelled_list(alloc, elements.as_slice(), tail),
        PatternKind::Map(_) => Ok(None),
    }
}

/// Returns the terms that patterns spell, or `None` if one of them spells none. Fails if an allocation fails.
#[cycle(spelled)]
fn spelled_all<A: Allocator + Copy>(
    alloc: A,
    patterns: &[Pattern<A>],
) -> Result<Option<Vec<Term<A>, A>>, AllocError>
    requires { AreSoundPatterns (patterns_of patterns.now) }
    ensures { IfOk result (λ found. MatchOption found (all_spell patterns.now ≡ false)
        (λ terms. map own_term patterns.now ≡ map Some terms.items)) }
{
    let mut terms = Vec::with_capacity(alloc, patterns.len())?;
    for pattern in patterns {
        let Some(term) = spelled(alloc, pattern)? else {
            return Ok(None);
        };
        terms.push(term)?;
    }
    Ok(Some(terms))
}

/// Returns the tuple that a pattern of these elements spells, or `None` if it spells none. Fails if an allocation
/// fails.
#[cycle(spelled)]
fn spelled_tuple<A: Allocator + Copy>(
    alloc: A,
    elements: &[Pattern<A>],
) -> Result<Option<Term<A>>, AllocError>
    requires { IsSoundPattern (tuple_of (patterns_of elements.now)) }
    ensures { IfOk result (λ found. found ≡ own_term (tuple_of (patterns_of elements.now))) }
{
    let Some(terms) = spelled_all(alloc, elements)? else {
        return Ok(None);
    };
    make_tuple(alloc, terms)
}

/// Returns the list that a pattern of these elements and this tail spells, or `None` if it spells none. Fails if an
/// allocation fails.
#[cycle(spelled)]
fn spelled_list<A: Allocator + Copy>(
    alloc: A,
    elements: &[Pattern<A>],
    tail: &Option<Box<Pattern<A>, A>>,
) -> Result<Option<Term<A>>, AllocError>
    requires elements { 0 < length elements.now }
    requires sound { IsSoundPattern (cells_of elements.now (tail_pattern tail.now)) }
    ensures { IfOk result (λ found. found
        ≡ own_term (cells_of elements.now (tail_pattern tail.now))) }
{
    let Some(terms) = spelled_all(alloc, elements)? else {
        return Ok(None);
    };
    let Some(end) = spelled_tail(alloc, tail)? else {
        return Ok(None);
    };
    make_list(alloc, terms, end)
}

/// Returns the term that the tail of a list spells, or `None` if it spells none; without a tail it is `[]`. Fails if an
/// allocation fails.
#[cycle(spelled)]
fn spelled_tail<A: Allocator + Copy>(
    alloc: A,
    tail: &Option<Box<Pattern<A>, A>>,
) -> Result<Option<Term<A>>, AllocError>
    requires { IsSoundPattern (tail_pattern tail.now) }
    ensures { IfOk result (λ found. found ≡ own_term (tail_pattern tail.now)) }
{
    match tail {
        None => Ok(Some(Term::nil())),
        Some(tail) => spelled(alloc, tail),
    }
}

/// Returns the tuple that a pattern of these elements spells; each of them must spell a term. Fails if an allocation
/// fails.
pub(crate) fn own_tuple<A: Allocator + Copy>(
    alloc: A,
    elements: &[Pattern<A>],
) -> Result<Term<A>, AllocError>
    requires sound { IsSoundPattern (tuple_of (patterns_of elements.now)) }
    requires spells { all_spell elements.now ≡ true }
    ensures { IfOk result (λ term. own_term (tuple_of (patterns_of elements.now)) ≡ Some term) }
{
    match spelled_tuple(alloc, elements)? {
        Some(tuple) => Ok(tuple),
        None => unreachable!(),
    }
}

/// Returns the list that a pattern of these elements and this tail spells; all of them must spell terms. Fails if an
/// allocation fails.
pub(crate) fn own_list<A: Allocator + Copy>(
    alloc: A,
    elements: &[Pattern<A>],
    tail: &Option<Box<Pattern<A>, A>>,
) -> Result<Term<A>, AllocError>
    requires elements { 0 < length elements.now }
    requires sound { IsSoundPattern (cells_of elements.now (tail_pattern tail.now)) }
    requires spells { spells (cells_of elements.now (tail_pattern tail.now)) ≡ true }
    ensures { IfOk result (λ term. own_term (cells_of elements.now (tail_pattern tail.now))
        ≡ Some term) }
{
    match spelled_list(alloc, elements, tail)? {
        Some(list) => Ok(list),
        None => unreachable!(),
    }
}
