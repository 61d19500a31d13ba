//! Values: the results of calls over them, borrowed or made, and what is read of their copies.
use crate::calls::{is_in_form, operand, operands, tagged_operand};
use crate::operands::with_values;
use kit_rows::{Outcome, elements, primitive, word};
use prims::call_values;
use prims_table::Primitive;
use std::alloc::Global;
use term_core::Term;
use term_operand::{Operand, Value};

const fn is_borrowed(value: &Value<'_>) -> bool {
    !matches!(value, Value::Made(_))
}

/// Returns an operand as a borrowed value, or as a copy that was made.
fn value<'a>(alloc: Global, operand: Operand<'a>, is_made: bool) -> Option<Value<'a>> {
    if is_made {
        Some(Value::Made(operand.to_term(alloc).ok()?))
    } else {
        Some(Value::new(operand))
    }
}

/// Returns these operands as values, of which the last may be made.
fn values<'a>(alloc: Global, operands: &[Operand<'a>], is_made: bool) -> Option<Vec<Value<'a>>> {
    let (last, before) = operands.split_last()?;
    let mut values = Vec::new(alloc);
    for operand in before {
        values.push(Value::new(*operand)).ok()?;
    }
    values.push(value(alloc, *last, is_made)?).ok()?;
    Some(values)
}

/// Returns the text of a value that is the result of a call, and of whether it is borrowed.
fn value_text(alloc: Global, function: Primitive, value: &Value<'_>) -> Option<Vec<u8>> {
    let tag = match (is_in_form(function, value.operand()), is_borrowed(value)) {
        (true, true) => "borrowed",
        (true, false) => "made",
        (false, _) => "in_another_form",
    };
    tagged_operand(alloc, tag, value.operand())
}

/// Returns the text of the result of a call over values.
fn given(alloc: Global, function: Primitive, values: &[Value<'_>]) -> Option<Vec<u8>> {
    let Ok(given) = call_values(&alloc, function, values) else {
        return None;
    };
    let text = match &given {
        Some(value) => value_text(alloc, function, value),
        None => word(alloc, "fails"),
    };
    drop(given);
    text
}

/// Returns the text of the result of the call of this name with a list of terms, of which the last may be made.
fn called(alloc: Global, name: &Term, list: &Term, forms: usize, is_made: bool) -> Option<Vec<u8>> {
    let terms = elements(list)?;
    let function = primitive(name, terms.len())?;
    let operands = operands(alloc, terms, forms)?;
    let values = values(alloc, operands.as_slice(), is_made)?;
    given(alloc, function, values.as_slice())
}

/// Returns whether a copy of a value is borrowed exactly if the value is.
fn is_copied_in_form(value: &Value<'_>) -> Option<bool> {
    let Ok(copy) = value.copy() else {
        return None;
    };
    let is_so = is_borrowed(&copy) == is_borrowed(value);
    drop(copy);
    Some(is_so)
}

/// Returns the truth value and the number that a copy of a value is.
fn copied_values(value: &Value<'_>) -> Option<(Option<bool>, Option<i64>)> {
    let Ok(copy) = value.copy() else {
        return None;
    };
    let values = (copy.boolean(), copy.integer());
    drop(copy);
    Some(values)
}

/// Returns the term that a copy of a value becomes.
fn copied_term(alloc: Global, value: &Value<'_>) -> Option<Term> {
    let Ok(copy) = value.copy() else {
        return None;
    };
    copy.into_term(alloc).ok()
}

/// Returns the text of the term, the truth value and the number that copies of a value are; `in_another_form` if a copy
/// is not borrowed exactly if the value is.
fn copies(alloc: Global, value: &Value<'_>) -> Option<Vec<u8>> {
    if !is_copied_in_form(value)? {
        return word(alloc, "in_another_form");
    }
    let (truth, number) = copied_values(value)?;
    let term = copied_term(alloc, value)?;
    let text = with_values(Outcome::tuple(alloc).term(&term), truth, number).end();
    drop(term);
    text
}

/// Returns the text of what copies are of the value that an operand is, which may be made.
fn copied(alloc: Global, operand: Operand<'_>, is_made: bool) -> Option<Vec<u8>> {
    let value = value(alloc, operand, is_made)?;
    let text = copies(alloc, &value);
    drop(value);
    text
}

/// Returns the result of a row of values, or `None` if there is no such row.
pub(crate) fn came(alloc: Global, kind: &str, parts: &[Term], forms: usize) -> Option<Vec<u8>> {
    match (kind, parts) {
        ("borrowed_call", [name, terms, _]) => called(alloc, name, terms, forms, false),
        ("made_call", [name, terms, _]) => called(alloc, name, terms, forms, true),
        ("borrowed_copy", [given, _]) => copied(alloc, operand(given, forms), false),
        ("made_copy", [given, _]) => copied(alloc, operand(given, forms), true),
        _ => None,
    }
}
