//! Heads read from terms.
ghost use Rattle.std.specs.Prelude.{◌≡◌, IfOk, IfErr, OnOk};
ghost use Rattle.term_core.specs.Datum.{items_of, entries_of};
ghost use Rattle.mspec_syntax.specs.Pattern.{patterns_of, fields_of};
ghost use Rattle.mspec_syntax.specs.Sought.{is_sought};
ghost use Rattle.mspec_syntax.specs.Grammar.{mentions, items_mention, entries_mention, IsKey, IsPattern, ArePatterns, AreFields, IsHeadForm};
ghost use Rattle.mspec_syntax.specs.Faults.{pattern_faults, items_faults, entries_faults, key_faults, head_faults, IsFirst, Refuses};

use mspec_syntax::{Pattern, PatternKind, Sought, SpecFault, Word};
use std::alloc::Allocator;
use term_core::{Term, View};

/// Returns whether an atom of this kind occurs in the term.
#[cycle(mention)]
fn mentions<A: Allocator>(term: &Term<A>, sought: Sought) -> bool
    ensures { result ≡ mentions (is_sought sought) term.now }
{
    match term.view() {
        View::Integer(_) | View::Nil | View::Binary(_) => false,
        View::Atom(text) => Word::new(text).is(sought),
        View::Tuple(elements) => any_mentions(elements, sought),
        View::List(elements, None) => any_mentions(elements, sought),
        View::List(elements, Some(tail)) => any_mentions(elements, sought)
            || mentions(tail, sought),
        View::Map(pairs) => any_pair_mentions(pairs, sought),
    }
}

/// Returns whether an atom of this kind occurs in one of these terms.
#[cycle(mention)]
fn any_mentions<A: Allocator>(terms: &[Term<A>], sought: Sought) -> bool
    ensures { result ≡ items_mention (is_sought sought) (items_of terms.now) }
{
    for term in terms {
        if mentions(term, sought) {
            return true;
        }
    }
    false
}

/// Returns whether an atom of this kind occurs in one of these pairs.
#[cycle(mention)]
fn any_pair_mentions<A: Allocator>(pairs: &[(Term<A>, Term<A>)], sought: Sought) -> bool
    ensures { result ≡ entries_mention (is_sought sought) (entries_of pairs.now) }
{
    for (key, value) in pairs {
        if mentions(key, sought) || mentions(value, sought) {
            return true;
        }
    }
    false
}

/// Tests that a key of a map means itself. Fails if a variable, `'_'` or a wrong variable name occurs in it.
fn test_key<A: Allocator>(clause: usize, key: &Term<A>) -> Result<(), SpecFault>
    ensures ok { OnOk result (IsKey key.now) }
    ensures refused { IfErr result (λ f. IsFirst f (key_faults clause key.now)) }
{
    if mentions(key, Sought::Hole) {
        return Err(SpecFault::VariableInMapKey(clause));
    }
    if mentions(key, Sought::Misnumbered) {
        return Err(SpecFault::BadVariableName(clause));
    }
    Ok(())
}

/// Returns the pattern for a term inside the head of a clause. Fails with its first fault.
#[cycle(pattern)]
fn read_pattern<A: Allocator + Copy>(
    alloc: A,
    clause: usize,
    term: &Term<A>,
) -> Result<Pattern<A>, SpecFault>
    ensures ok { IfOk result (λ p. IsPattern term.now p) }
    ensures refused { IfErr result (λ f. Refuses f (pattern_faults clause term.now)) }
{
    match term.view() {
        View::Integer(_) | View::Nil | View::Binary(_) => {
            Ok(Pattern::new(PatternKind::Literal(term.copy()?)))
        }
        View::Atom(text) => match Word::new(text) {
            Word::Variable(number) => Ok(Pattern::new(PatternKind::Variable(number))),
            Word::Underscore => Ok(Pattern::new(PatternKind::Anything)),
            Word::Misnumbered => Err(SpecFault::BadVariableName(clause)),
            _ => Ok(Pattern::new(PatternKind::Literal(term.copy()?))),
        },
        View::Tuple(elements) => {
            let elements = read_patterns(alloc, clause, elements)?;
            Ok(Pattern::new(PatternKind::Tuple(elements)))
        }
        View::List(elements, None) => {
            let elements = read_patterns(alloc, clause, elements)?;
            Ok(Pattern::new(PatternKind::List(elements, None)))
        }
        View::List(elements, Some(tail)) => {
            let elements = read_patterns(alloc, clause, elements)?;
            let tail = read_pattern(alloc, clause, tail)?;
            let tail = Box::new(alloc, tail)?;
            Ok(Pattern::new(PatternKind::List(elements, Some(tail))))
        }
        View::Map(pairs) => {
            let fields = read_fields(alloc, clause, pairs)?;
            Ok(Pattern::new(PatternKind::Map(fields)))
        }
    }
}

/// Returns the patterns for these terms. Fails with their first fault.
#[cycle(pattern)]
fn read_patterns<A: Allocator + Copy>(
    alloc: A,
    clause: usize,
    terms: &[Term<A>],
) -> Result<Vec<Pattern<A>, A>, SpecFault>
    ensures ok { IfOk result (λ ps. ArePatterns (items_of terms.now) (patterns_of ps.items)) }
    ensures refused { IfErr result (λ f. Refuses f (items_faults clause (items_of terms.now))) }
{
    let mut patterns = Vec::new(alloc);
    for term in terms {
        let pattern = read_pattern(alloc, clause, term)?;
        patterns.push(pattern)?;
    }
    Ok(patterns)
}

/// Returns the keys of a map with the patterns for its values. Fails with their first fault.
#[cycle(pattern)]
fn read_fields<A: Allocator + Copy>(
    alloc: A,
    clause: usize,
    pairs: &[(Term<A>, Term<A>)],
) -> Result<Vec<(Term<A>, Pattern<A>), A>, SpecFault>
    ensures ok { IfOk result (λ fs. AreFields (entries_of pairs.now) (fields_of fs.items)) }
    ensures refused { IfErr result (λ f. Refuses f (entries_faults clause (entries_of pairs.now))) }
{
    let mut fields = Vec::new(alloc);
    for (key, value) in pairs {
        test_key(clause, key)?;
        let pattern = read_pattern(alloc, clause, value)?;
        let key = key.copy()?;
        fields.push((key, pattern))?;
    }
    Ok(fields)
}

/// Returns the pattern for the whole head of a clause: a variable, `'_'` or a tuple. Fails with its first fault.
pub fn read_head<A: Allocator + Copy>(
    alloc: A,
    clause: usize,
    term: &Term<A>,
) -> Result<Pattern<A>, SpecFault>
    ensures ok { IfOk result (λ p. IsPattern term.now p × IsHeadForm p) }
    ensures refused { IfErr result (λ f. Refuses f (head_faults clause term.now)) }
{
    match term.view() {
        View::Atom(text) => match Word::new(text) {
            Word::Variable(number) => Ok(Pattern::new(PatternKind::Variable(number))),
            Word::Underscore => Ok(Pattern::new(PatternKind::Anything)),
            _ => Err(SpecFault::BadHead(clause)),
        },
        View::Tuple(elements) => {
            let elements = read_patterns(alloc, clause, elements)?;
            Ok(Pattern::new(PatternKind::Tuple(elements)))
        }
        View::Integer(_) | View::Nil | View::Map(_) | View::Binary(_) => {
            Err(SpecFault::BadHead(clause))
        }
        View::List(_, _) => Err(SpecFault::BadHead(clause)),
    }
}
