//! Operands: the term that each is, its values, a list taken apart, the limits of a rest.
use crate::calls::operand;
use kit_rows::{Outcome, canonical, elements, put, put_copy, refused, size_of, text, word};
use prims::call;
use prims_table::{Comparison, Function, Primitive};
use std::alloc::Global;
use term_build::copy_tail;
use term_core::Term;
use term_operand::Operand;
use term_text::read_terms;

/// Returns whether an operand is exactly equal to a term.
fn is_equal(term: &Term, operand: Operand<'_>) -> bool {
    let same = Primitive::Function(Function::Comparison(Comparison::ExactlyEqual));
    matches!(
        call(same, &[Operand::Term(term), operand]),
        Some(Operand::Bool(true))
    )
}

/// Appends the list of those terms to which an operand is exactly equal.
fn with_equals(out: Outcome, operand: Operand<'_>, terms: &[Term]) -> Outcome {
    let mut out = out.open_list();
    for term in terms {
        if is_equal(term, operand) {
            out = out.term(term);
        }
    }
    out.close_list()
}

/// Appends the term that an operand is, and the lists of those terms to which it and its copy are exactly equal.
fn with_operand(
    alloc: Global,
    out: Outcome,
    operand: Operand<'_>,
    terms: &Term,
) -> Option<Vec<u8>> {
    let terms = elements(terms)?;
    let Ok(copy) = operand.to_term(alloc) else {
        return None;
    };
    let out = with_equals(out.term(&copy), operand, terms);
    let text = with_equals(out, Operand::Term(&copy), terms).end();
    drop(copy);
    text
}

/// Returns a copy of the only element of a list, which is the tail, or no tail for an empty list. Returns `None` if
/// memory runs out.
fn tail(alloc: Global, tails: &Term) -> Option<Option<Term>> {
    copy_tail(elements(tails)?.first()).ok()
}

/// Returns the list of one more element, of these elements and of the tail.
fn list(alloc: Global, listed: &Term, tails: &Term) -> Option<Term> {
    let listed = elements(listed)?;
    let mut terms = Vec::new(alloc);
    let mut is_whole = put(&mut terms, Term::int(0));
    for element in listed {
        is_whole = put_copy(&mut terms, element) && is_whole;
    }
    let terms = is_whole.then_some(terms);
    match terms.zip(tail(alloc, tails)) {
        Some((terms, tail)) => Term::list(alloc, terms, tail).ok(),
        None => None,
    }
}

/// Returns the text of the term that the rest of these elements and of the tail is, and of the terms that are equal to
/// it.
fn rest(alloc: Global, listed: &Term, tails: &Term, terms: &Term) -> Option<Vec<u8>> {
    let list = list(alloc, listed, tails)?;
    let text = with_operand(alloc, Outcome::tuple(alloc), Operand::Rest(&list, 1), terms);
    drop(list);
    text
}

/// Returns the text of the first element of a list, of what follows it, and of the terms that are equal to that.
fn split(alloc: Global, list: &Term, terms: &Term) -> Option<Vec<u8>> {
    let Some((first, follows)) = Operand::Term(list).split() else {
        return word(alloc, "none");
    };
    with_operand(alloc, Outcome::tuple(alloc).term(first), follows, terms)
}

/// Appends a truth value, or `none`.
fn with_truth(out: Outcome, truth: Option<bool>) -> Outcome {
    match truth {
        Some(value) => out.truth(value),
        None => out.word("none"),
    }
}

/// Appends an integer.
fn with_integer(out: Outcome, value: i64) -> Outcome {
    let term: Term = Term::int(value);
    let out = out.term(&term);
    drop(term);
    out
}

/// Appends a number, or `none`.
fn with_number(out: Outcome, number: Option<i64>) -> Outcome {
    match number {
        Some(value) => with_integer(out, value),
        None => out.word("none"),
    }
}

/// Appends a truth value and a number, or `none` for each.
pub(crate) fn with_values(out: Outcome, truth: Option<bool>, number: Option<i64>) -> Outcome {
    with_number(with_truth(out, truth), number)
}

/// Returns the text of the truth value and of the number that an operand is.
fn values(alloc: Global, operand: Operand<'_>) -> Option<Vec<u8>> {
    let out = Outcome::tuple(alloc);
    with_values(out, operand.boolean(), operand.integer()).end()
}

/// Returns the text of the size of what follows the first element of a list.
fn size_after_first(alloc: Global, list: &Term) -> Option<Vec<u8>> {
    let Ok(rest) = Operand::Rest(list, 1).to_term(alloc) else {
        return None;
    };
    let text = size_of(alloc, &rest);
    drop(rest);
    text
}

/// Makes the list of a text's terms and of the tail. Returns the text of the size of what follows its first element, or
/// of the fault of that list.
fn rest_size(alloc: Global, listed: &Term, tails: &Term) -> Option<Vec<u8>> {
    let listed = text(alloc, listed)?;
    let terms = read_terms(alloc, listed.as_slice()).ok();
    let (terms, tail) = terms.zip(tail(alloc, tails))?;
    let made = Term::list(alloc, terms, tail);
    let text = match &made {
        Ok(list) => size_after_first(alloc, list),
        Err(refusal) => refused(alloc, refusal.fault),
    };
    drop(made);
    text
}

/// Returns the text of the term that an operand is.
fn term(alloc: Global, operand: Operand<'_>) -> Option<Vec<u8>> {
    let Ok(term) = operand.to_term(alloc) else {
        return None;
    };
    let text = canonical(alloc, &term);
    drop(term);
    text
}

/// Returns the result of a row of operands, or `None` if there is no such row.
pub(crate) fn came(alloc: Global, kind: &str, parts: &[Term], forms: usize) -> Option<Vec<u8>> {
    match (kind, parts) {
        ("rest", [listed, tails, terms, _]) => rest(alloc, listed, tails, terms),
        ("split", [list, terms, _]) => split(alloc, list, terms),
        ("values", [given, _]) => values(alloc, operand(given, forms)),
        ("operand", [given]) => term(alloc, operand(given, forms)),
        ("rest_size", [listed, tails, _]) => rest_size(alloc, listed, tails),
        _ => None,
    }
}
