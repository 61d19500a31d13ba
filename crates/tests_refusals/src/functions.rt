//! Functions: operands and values that are copied, and calls that do not allocate.
use kit_alloc::Failing;
use kit_rows::{is_atom, term_of, was_ok, was_some};
use prims::{call, call_values};
use prims_table::{BooleanFunction, Comparison, Extreme, Function, Primitive, TupleFunction};
use std::alloc::{Allocator, Global};
use term_core::Term;
use term_operand::{Operand, Value};

/// Returns whether the maximum of a term and the integer operand 1 is the term itself.
fn is_first_given(number: Term) -> bool {
    let max = Primitive::Function(Function::Extreme(Extreme::Max));
    let is_first = match call(max, &[Operand::Term(&number), Operand::Int(1)]) {
        Some(operand) => matches!(operand, Operand::Term(_)),
        None => false,
    };
    drop(number);
    is_first
}

#[test]
fn of_equal_operands_the_first_is_given(rt: HostRuntime) {
    assert!(rt; is_first_given(Term::int(1)));
}

/// Returns whether an operand is exactly equal to a term.
fn is_equal<A: Allocator>(term: &Term<A>, operand: Operand<'_, A>) -> bool {
    let same = Primitive::Function(Function::Comparison(Comparison::ExactlyEqual));
    match call(same, &[Operand::Term(term), operand]) {
        Some(Operand::Bool(value)) => value,
        _ => false,
    }
}

/// The forms of an operand made from a list.
#[derive(Clone, Copy)]
enum Form {
    /// What follows its first element.
    Rest,
    /// The list.
    Term,
    /// A truth value.
    Truth,
    /// An integer.
    Number,
}

/// Returns an operand of this form, made from this list.
fn formed<A: Allocator>(list: &Term<A>, form: Form) -> Operand<'_, A> {
    match form {
        Form::Rest => Operand::Rest(list, 1),
        Form::Term => Operand::Term(list),
        Form::Truth => Operand::Bool(true),
        Form::Number => Operand::Int(-1),
    }
}

/// Returns whether the copy of an operand of this form is right, or `None` if memory runs out.
fn is_copied<A: Allocator + Copy>(heap: A, list: &Term<A>, form: Form) -> Option<bool> {
    let operand = formed(list, form);
    let Ok(copy) = operand.to_term(heap) else {
        return None;
    };
    let is_right = is_equal(&copy, operand);
    drop(copy);
    Some(is_right)
}

/// Returns whether the copies of operands made from a list are right, or `None` if memory runs out.
fn are_copied_of<A: Allocator + Copy>(heap: A, list: &Term<A>) -> Option<bool> {
    for form in [Form::Rest, Form::Term, Form::Truth, Form::Number] {
        if !is_copied(heap, list, form)? {
            return Some(false);
        }
    }
    Some(true)
}

/// Returns whether the copies of operands made from `[a,true,1|b]` are right, or `None` if memory runs out.
pub(super) fn are_copied<A: Allocator + Copy>(heap: A) -> Option<bool> {
    let list = term_of(heap, b"[a,true,1|b].")?;
    let are_copied = are_copied_of(heap, &list);
    drop(list);
    are_copied
}

/// Appends a value; returns `false` if memory runs out.
fn put<'a, A: Allocator>(values: &mut Vec<Value<'a, A>, A>, value: Value<'a, A>) -> bool {
    was_ok(values.push(value))
}

/// Returns the number 1 and, as a value that was made, the term of a text, or `None` if memory runs out.
fn one_and_made<'a, A: Allocator + Copy>(alloc: A, text: &[u8]) -> Option<Vec<Value<'a, A>, A>> {
    let made = term_of(alloc, text)?;
    let mut values = Vec::new(alloc);
    let is_one = put(&mut values, Value::Int(1));
    let is_made = put(&mut values, Value::Made(made));
    if is_one && is_made {
        Some(values)
    } else {
        None
    }
}

/// Returns the term that a copy of a value becomes, or `None` if memory runs out.
fn copied_term<A: Allocator + Copy>(alloc: A, value: &Value<'_, A>) -> Option<Term<A>> {
    let Ok(copy) = value.copy() else {
        return None;
    };
    copy.into_term(alloc).ok()
}

/// Returns whether a copy of a value is the atom `a`, or `None` if memory runs out.
fn is_copied_a<A: Allocator + Copy>(alloc: A, value: &Value<'_, A>) -> Option<bool> {
    let term = copied_term(alloc, value)?;
    let is_right = is_atom(&term, "a");
    drop(term);
    Some(is_right)
}

/// Returns whether a copy of the first element of a tuple that was made is right, or `None` if memory runs out.
pub(super) fn is_element_copied<A: Allocator + Copy>(heap: A) -> Option<bool> {
    let values = one_and_made(heap, b"{a}.")?;
    let element = Primitive::Function(Function::Tuple(TupleFunction::Element));
    let called = call_values(&heap, element, values.as_slice());
    let is_copied = match &called {
        Ok(Some(value)) => is_copied_a(heap, value),
        Ok(None) => Some(false),
        Err(_) => None,
    };
    drop(called);
    drop(values);
    is_copied
}

/// Returns the borrowed value `true`, `count` times, or `None` if memory runs out.
fn trues<'a, A: Allocator + Copy>(alloc: A, count: usize) -> Option<Vec<Value<'a, A>, A>> {
    let mut values = Vec::new(alloc);
    let mut is_whole = true;
    for _ in 0..count {
        is_whole = put(&mut values, Value::Bool(true)) && is_whole;
    }
    if is_whole { Some(values) } else { None }
}

/// Returns the number of allocations that making `count` such values takes.
fn requests(heap: Global, count: usize) -> Option<u64> {
    let counting = Failing::counting(heap);
    if was_some(trues(&counting, count)) {
        Some(counting.requests())
    } else {
        None
    }
}

/// Returns the result of `and` of `count` times `true`: the truth value, `Some(None)` if the call runs out of memory,
/// or `None` if it gives no value or the values could not be made.
fn and_of<A: Allocator + Copy>(heap: A, count: usize) -> Option<Option<bool>> {
    let values = trues(heap, count)?;
    let and = Primitive::Function(Function::Boolean(BooleanFunction::And));
    let called = call_values(&heap, and, values.as_slice());
    let given = match &called {
        Ok(Some(value)) => Some(value.boolean()),
        Ok(None) => None,
        Err(_) => Some(None),
    };
    drop(called);
    drop(values);
    given
}

/// Returns the result of `and` of `count` times `true` with each allocation of the call failing; `Some(None)` if the
/// call runs out of memory.
fn and_without_memory(heap: Global, count: usize) -> Option<Option<bool>> {
    let requests = requests(heap, count)?.saturating_add(1);
    and_of(&Failing::refusing_from(heap, requests), count)
}

#[test]
fn sixteen_borrowed_values_take_no_memory(rt: HostRuntime) {
    assert!(rt; and_without_memory(rt.alloc(), 1) == Some(Some(true)));
    assert!(rt; and_without_memory(rt.alloc(), 16) == Some(Some(true)));
    assert!(rt; and_without_memory(rt.alloc(), 17) == Some(None));
}
