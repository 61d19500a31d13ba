//! The answers of a specification, and whether its code gives them too.
use compiler::compile;
use kit_rows::{listed, put, word};
use machine::Machine;
use mspec_meaning::evaluate;
use mspec_reader::read_spec;
use mspec_syntax::Spec;
use std::alloc::{Allocator, Global};
use term_core::Term;
use term_text::read_terms;
use verifier::Verified;

/// Returns whether two answers are equal.
fn same<A: Allocator>(left: Option<&Term<A>>, right: Option<&Term<A>>) -> bool {
    match (left, right) {
        (Some(left), Some(right)) => left == right,
        (None, None) => true,
        _ => false,
    }
}

/// Returns whether the answer of a run is that of its specification on an object, or `None` if memory runs out.
fn is_meant<A: Allocator + Copy>(
    heap: A,
    ran: Option<&Term<A>>,
    specification: &Spec<A>,
    object: &Term<A>,
) -> Option<bool> {
    let Ok(meant) = evaluate(heap, specification, object) else {
        return None;
    };
    let is_meant = same(ran, meant.as_ref());
    drop(meant);
    Some(is_meant)
}

/// Returns whether the answer of a machine on an object is that of its specification, or `None` if memory runs out.
fn agrees_on<'a, A: Allocator + Copy>(
    heap: A,
    machine: &mut Machine<'a, '_, A>,
    specification: &Spec<A>,
    object: &'a Term<A>,
) -> Option<bool> {
    let Ok((ran, _executed)) = machine.run(object) else {
        return None;
    };
    let agrees = is_meant(heap, ran.as_ref(), specification, object);
    drop(ran);
    agrees
}

/// Returns whether the answers of a machine on these objects are those of its specification, or `None` if memory runs
/// out.
fn all_agree_on<'a, A: Allocator + Copy>(
    heap: A,
    machine: &mut Machine<'a, '_, A>,
    specification: &Spec<A>,
    objects: &'a [Term<A>],
) -> Option<bool> {
    for object in objects {
        if !agrees_on(heap, machine, specification, object)? {
            return Some(false);
        }
    }
    Some(true)
}

/// Returns whether the answers of code on these objects are those of its specification, or `None` if memory runs out.
fn code_agrees<A: Allocator + Copy>(
    heap: A,
    code: &Verified<A>,
    specification: &Spec<A>,
    objects: &[Term<A>],
) -> Option<bool> {
    let mut machine = Machine::new(&heap, code).ok()?;
    let agree = all_agree_on(heap, &mut machine, specification, objects);
    machine.finish();
    agree
}

/// Returns whether the answers of a specification's code on these objects are those of the specification, or `None` if
/// memory runs out.
pub fn agrees<A: Allocator + Copy>(
    heap: A,
    specification: &Spec<A>,
    objects: &[Term<A>],
) -> Option<bool> {
    let Ok(code) = compile(heap, specification) else {
        return None;
    };
    let agree = code_agrees(heap, &code, specification, objects);
    drop(code);
    agree
}

/// Appends the answer of a specification on an object, if there is one; returns `false` if memory runs out.
fn put_meant<A: Allocator + Copy>(
    heap: A,
    spec: &Spec<A>,
    object: &Term<A>,
    answers: &mut Vec<Term<A>, A>,
) -> bool {
    let Ok(meant) = evaluate(heap, spec, object) else {
        return false;
    };
    match meant {
        Some(answer) => put(answers, answer),
        None => true,
    }
}

/// Returns the text of the answers of a specification on objects, with memory from `heap`, or `None` if memory runs
/// out.
fn answers<A: Allocator + Copy>(
    alloc: Global,
    heap: A,
    spec: &Spec<A>,
    objects: &[Term<A>],
) -> Option<Vec<u8>> {
    let mut answers = Vec::new(heap);
    let mut is_whole = true;
    for object in objects {
        is_whole = put_meant(heap, spec, object, &mut answers) && is_whole;
    }
    let text = if is_whole {
        listed(alloc, answers.as_slice())
    } else {
        None
    };
    drop(answers);
    text
}

/// Returns the text of the answers of the specification that a term is read as; `code_differs` if its code gives other
/// answers. Returns `None` if the term is no specification or memory runs out.
pub fn answers_of<A: Allocator + Copy>(
    alloc: Global,
    heap: A,
    term: &Term<A>,
    objects: &[Term<A>],
) -> Option<Vec<u8>> {
    let Ok(specification) = read_spec(heap, term) else {
        return None;
    };
    let text = match agrees(heap, &specification, objects) {
        Some(true) => answers(alloc, heap, &specification, objects),
        Some(false) => word(alloc, "code_differs"),
        None => None,
    };
    drop(specification);
    text
}

/// Returns the text of the answers of the first of these terms, a specification, on the others.
fn answers_of_terms<A: Allocator + Copy>(
    alloc: Global,
    heap: A,
    terms: &[Term<A>],
) -> Option<Vec<u8>> {
    let (specification, objects) = terms.split_first()?;
    answers_of(alloc, heap, specification, objects)
}

/// Returns the text of the answers of the first term of a text, a specification, on its other terms.
pub fn answers_of_text<A: Allocator + Copy>(
    alloc: Global,
    heap: A,
    given: &[u8],
) -> Option<Vec<u8>> {
    let Ok(terms) = read_terms(heap, given) else {
        return None;
    };
    let text = answers_of_terms(alloc, heap, terms.as_slice());
    drop(terms);
    text
}
