//! The variables of heads.
ghost use Rattle.std.specs.Prelude.{◌≡◌, ◌++◌, OnOk};
ghost use Rattle.mspec_syntax.specs.Pattern.{pattern_variables, patterns_variables, fields_variables, patterns_of, fields_of};

use crate::clause::Clause;
use crate::pattern::{Pattern, PatternKind};
use std::alloc::{AllocError, Allocator, Global};
use std::marker::Model;
use term_core::Term;

/// The numbers of variables in ascending order, each once.
#[derive(Drop)]
pub struct Variables<A: Allocator = Global> {
    numbers: Vec<u32, A>,
}

impl<A: Allocator> Model for Variables<A> {
    ghost use Rattle.std.specs.Prelude.{◌≡◌, List, ℕ};
    ghost use Rattle.mspec_syntax.specs.Rising.{rising};

    ghost Value = { List ℕ };

    ghost view = { λ v. v.numbers.items };

    ghost invariant = { λ v. v.numbers.items ≡ rising v.numbers.items };
}

impl<A: Allocator> Variables<A> {
    ghost use Rattle.std.specs.Prelude.{◌≡◌, ◌==◌, length, false, IfOk, IfSome, IfNone, slice_get, Some};
    ghost use Rattle.mspec_syntax.specs.Rising.{rising, rank_of};
    ghost use Rattle.mspec_syntax.specs.Grammar.{is_among};
    ghost use Rattle.mspec_syntax.specs.Pattern.{pattern_variables};
    ghost use Rattle.mspec_syntax.specs.Specification.{specification_variables};

    /// Sorts these numbers in ascending order, and keeps each once.
    pub(crate) fn new(mut numbers: Vec<u32, A>) -> Self
        ensures { result ≡ rising numbers.items }
    {
        numbers.sort_unstable();
        numbers.dedup();
        Variables { numbers }
    }

    /// Returns the variables of a pattern. Fails if an allocation fails.
    pub fn of_pattern(alloc: A, pattern: &Pattern<A>) -> Result<Self, AllocError>
        ensures { IfOk result (λ v. v ≡ rising (pattern_variables pattern.now)) }
    {
        let mut numbers = Vec::new(alloc);
        collect(pattern, &mut numbers)?;
        Ok(Variables::new(numbers))
    }

    /// Returns the variables of all heads of these clauses together. Fails if an allocation fails.
    pub fn of_clauses(alloc: A, clauses: &[Clause<A>]) -> Result<Self, AllocError>
        ensures { IfOk result (λ v. v ≡ specification_variables clauses.now) }
    {
        let mut numbers = Vec::new(alloc);
        for clause in clauses {
            collect(clause.head(), &mut numbers)?;
        }
        Ok(Variables::new(numbers))
    }

    /// Returns the numbers in ascending order.
    pub fn numbers(&self) -> &[u32]
        ensures { result.now ≡ self.now }
    {
        self.numbers.as_slice()
    }

    /// Returns the number of variables.
    pub fn len(&self) -> usize
        ensures { result ≡ length self.now }
    {
        self.numbers.len()
    }

    /// Returns whether there are no variables.
    pub fn is_empty(&self) -> bool
        ensures { result ≡ (length self.now == 0) }
    {
        self.numbers.is_empty()
    }

    /// Returns whether the variable is one of these.
    pub fn contains(&self, number: u32) -> bool
        ensures { result ≡ is_among self.now number }
    {
        self.rank(number).is_some()
    }

    /// Returns the place of a variable's number, counted from 0, or `None` if it is not one of these.
    pub fn rank(&self, number: u32) -> Option<usize>
        ensures found { IfSome result (λ rank. slice_get self.now rank ≡ Some number) }
        ensures missing { IfNone result (is_among self.now number ≡ false) }
        ensures in_order { self.now ≡ rising self.now }
    {
        match self.numbers.as_slice().binary_search(&number) {
            Ok(rank) => Some(rank),
            Err(_) => None,
        }
    }

    /// Returns the number of variables before this one, or of all variables if it is not one of these.
    pub fn count_before(&self, number: u32) -> usize
        ensures { result ≡ rank_of self.now number }
    {
        match self.rank(number) {
            Some(rank) => rank,
            None => self.len(),
        }
    }
}

/// Appends the variables of a pattern to `numbers`, from the left, as often as they occur.
#[cycle(variables)]
pub(crate) fn collect<A: Allocator>(
    pattern: &Pattern<A>,
    numbers: &mut Vec<u32, A>,
) -> Result<(), AllocError>
    ensures { OnOk result (numbers.new.items ≡ numbers.old.items ++ pattern_variables pattern.now) }
{
    match pattern.kind() {
        PatternKind::Anything | PatternKind::Literal(_) => Ok(()),
        PatternKind::Variable(number) => {
            numbers.push(*number)?;
            Ok(())
        }
        PatternKind::Tuple(elements) => collect_all(elements.as_slice(), numbers),
        PatternKind::List(elements, tail) => {
            collect_all(elements.as_slice(), numbers)?;
            match tail {
                None => Ok(()),
                Some(tail) => collect(tail, numbers),
            }
        }
        PatternKind::Map(fields) => collect_fields(fields.as_slice(), numbers),
    }
}

/// Appends the variables of these patterns to `numbers`.
#[cycle(variables)]
fn collect_all<A: Allocator>(
    patterns: &[Pattern<A>],
    numbers: &mut Vec<u32, A>,
) -> Result<(), AllocError>
    ensures { OnOk result (numbers.new.items ≡ numbers.old.items
        ++ patterns_variables (patterns_of patterns.now)) }
{
    for pattern in patterns {
        collect(pattern, numbers)?;
    }
    Ok(())
}

/// Appends the variables of the patterns of these fields' values to `numbers`.
#[cycle(variables)]
fn collect_fields<A: Allocator>(
    fields: &[(Term<A>, Pattern<A>)],
    numbers: &mut Vec<u32, A>,
) -> Result<(), AllocError>
    ensures { OnOk result (numbers.new.items ≡ numbers.old.items
        ++ fields_variables (fields_of fields.now)) }
{
    for (_, pattern) in fields {
        collect(pattern, numbers)?;
    }
    Ok(())
}
