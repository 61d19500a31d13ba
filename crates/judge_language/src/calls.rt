//! The results of calls of functions, with operands in each form.
//!
//! An operand is tried as the term itself; as a plain integer or truth value, if it is one; and as the rest of a list
//! that is all of it, if it is a list. A number encodes the forms of up to three operands, in base 3.
use kit_rows::{Outcome, canonical, elements, fields, is_atom, number, primitive, tagged, word};
use prims::call;
use prims_table::{Function, Gives, Primitive};
use std::alloc::Global;
use std::cmp::Ordering;
use term_core::{Term, View};
use term_operand::Operand;

/// The number of forms in which three operands are tried.
pub(crate) const FORMS: usize = 27;

/// The number of forms in which two operands are tried.
pub(crate) const FORMS_OF_TWO: usize = 9;

/// The number of forms in which one operand is tried.
pub(crate) const FORMS_OF_ONE: usize = 3;

/// Returns an integer or a truth value as a plain operand, and any other term as a term.
fn plain_operand(term: &Term) -> Operand<'_> {
    let whole = Operand::Term(term);
    match (whole.integer(), whole.boolean()) {
        (Some(value), _) => Operand::Int(value),
        (None, Some(value)) => Operand::Bool(value),
        (None, None) => whole,
    }
}

/// Returns a term as an operand in the form with this number.
pub(crate) fn operand(term: &Term, form: usize) -> Operand<'_> {
    match (form % 3, term.view()) {
        (1, _) => plain_operand(term),
        (2, View::List(_, _)) => Operand::Rest(term, 0),
        _ => Operand::Term(term),
    }
}

/// Returns these terms as operands in the forms with this number.
pub(crate) fn operands(alloc: Global, terms: &[Term], forms: usize) -> Option<Vec<Operand<'_>>> {
    let mut operands = Vec::new(alloc);
    let mut left = forms;
    for term in terms {
        operands.push(operand(term, left)).ok()?;
        left /= 3;
    }
    Some(operands)
}

/// Returns whether an operand is a plain value, and no part of a term.
fn is_plain(operand: Operand<'_>) -> bool {
    matches!(operand, Operand::Int(_) | Operand::Bool(_))
}

/// Returns whether the result of a function is one of its operands.
fn is_extreme(function: Primitive) -> bool {
    matches!(function, Primitive::Function(Function::Extreme(_)))
}

/// Returns whether an operand has the form of a result of this function: plain if it was computed, and not plain if it
/// was taken from a term.
pub(crate) fn is_in_form(function: Primitive, operand: Operand<'_>) -> bool {
    match function.gives() {
        Gives::Boolean => matches!(operand, Operand::Bool(_)),
        Gives::Integer => matches!(operand, Operand::Int(_)),
        Gives::Any => is_extreme(function) || !is_plain(operand),
    }
}

/// Returns the function with this name, which is `Name` with this number of arguments, or `{Name,Arguments}`.
fn function(named: &Term, arguments: usize) -> Option<Primitive> {
    match fields(named) {
        Some([name, count]) => primitive(name, number(count)? as usize),
        _ => primitive(named, arguments),
    }
}

/// Returns the text of a pair of a word and the term that an operand is, or `None` if memory runs out.
pub(crate) fn tagged_operand(alloc: Global, tag: &str, operand: Operand<'_>) -> Option<Vec<u8>> {
    let Ok(term) = operand.to_term(alloc) else {
        return None;
    };
    let text = tagged(alloc, tag, &term);
    drop(term);
    text
}

/// Returns the text of the result of a call: `{gives,Term}` or `fails`; `{gives_in_another_form,Term}` if the form is
/// wrong.
fn given(alloc: Global, function: Primitive, operands: &[Operand<'_>]) -> Option<Vec<u8>> {
    let Some(operand) = call(function, operands) else {
        return word(alloc, "fails");
    };
    let tag = if is_in_form(function, operand) {
        "gives"
    } else {
        "gives_in_another_form"
    };
    tagged_operand(alloc, tag, operand)
}

/// Returns the text of the result of the call of this name with a list of terms; `unknown` if there is no such
/// function.
fn called(alloc: Global, named: &Term, list: &Term, forms: usize) -> Option<Vec<u8>> {
    let terms = elements(list)?;
    match function(named, terms.len()) {
        Some(function) => {
            let operands = operands(alloc, terms, forms)?;
            given(alloc, function, operands.as_slice())
        }
        None => word(alloc, "unknown"),
    }
}

/// Returns the truth value that is the result of a call, or `None`.
fn truth(function: Primitive, operands: &[Operand<'_>]) -> Option<bool> {
    match call(function, operands) {
        Some(Operand::Bool(value)) => Some(value),
        _ => None,
    }
}

/// Returns the text of the list of those terms of a list for which the test of this name is true.
fn holding(alloc: Global, name: &Term, list: &Term, form: usize) -> Option<Vec<u8>> {
    let test = primitive(name, 1)?;
    let terms = elements(list)?;
    let mut out = Outcome::list(alloc);
    for term in terms {
        if truth(test, &[operand(term, form)])? {
            out = out.term(term);
        }
    }
    out.end()
}

const fn order_name(order: Ordering) -> &'static str {
    match order {
        Ordering::Less => "less",
        Ordering::Equal => "equal",
        Ordering::Greater => "greater",
    }
}

/// Returns whether an order is among these.
fn is_among(order: Ordering, orders: &[Term]) -> bool {
    orders
        .iter()
        .any(|wanted| is_atom(wanted, order_name(order)))
}

/// Returns whether the comparison of the term at a place with each of the ascending terms is true exactly for these
/// orders of the two.
fn compares_at(
    comparison: Primitive,
    rising: &[Term],
    place: usize,
    orders: &[Term],
    forms: usize,
) -> Option<bool> {
    let left = operand(rising.get(place)?, forms);
    for other in 0..rising.len() {
        let right = operand(&rising[other], forms / 3);
        if truth(comparison, &[left, right])? != is_among(place.cmp(&other), orders) {
            return Some(false);
        }
    }
    Some(true)
}

/// Returns the first place among ascending terms for which a comparison with one of them is not true exactly for these
/// orders; `Some(None)` if there is no such place.
fn first_compared_otherwise(
    comparison: Primitive,
    rising: &[Term],
    orders: &[Term],
    forms: usize,
) -> Option<Option<usize>> {
    for place in 0..rising.len() {
        if !compares_at(comparison, rising, place, orders, forms)? {
            return Some(Some(place));
        }
    }
    Some(None)
}

/// Returns the text of `wanted` if the comparison of this name is true exactly for these orders of ascending terms.
/// Otherwise names the first term for which it is not.
fn compared(
    alloc: Global,
    name: &Term,
    rising: &Term,
    wanted: &Term,
    forms: usize,
) -> Option<Vec<u8>> {
    let comparison = primitive(name, 2)?;
    let rising = elements(rising)?;
    match first_compared_otherwise(comparison, rising, elements(wanted)?, forms)? {
        Some(place) => tagged(alloc, "other_orders_of", rising.get(place)?),
        None => canonical(alloc, wanted),
    }
}

const fn gives_name(gives: Gives) -> &'static str {
    match gives {
        Gives::Boolean => "boolean",
        Gives::Integer => "integer",
        Gives::Any => "any",
    }
}

/// Returns the text of the kind of term that the function with this name and number of arguments gives.
fn kind_given(alloc: Global, name: &Term, arguments: usize) -> Option<Vec<u8>> {
    let Some(function) = primitive(name, arguments) else {
        return word(alloc, "unknown");
    };
    if is_atom(name, function.name()) && function.takes(arguments) {
        word(alloc, gives_name(function.gives()))
    } else {
        word(alloc, "another_function")
    }
}

/// Returns the result of a row of calls, or `None` if there is no such row.
pub(crate) fn came(alloc: Global, kind: &str, parts: &[Term], forms: usize) -> Option<Vec<u8>> {
    let [name, given, wanted] = parts else {
        return None;
    };
    match kind {
        "call" => called(alloc, name, given, forms),
        "holding" => holding(alloc, name, given, forms),
        "comparison" => compared(alloc, name, given, wanted, forms),
        "gives" => kind_given(alloc, name, number(given)? as usize),
        _ => None,
    }
}
