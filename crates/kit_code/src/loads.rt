//! The code of a text, and the objects that follow it.
use crate::codes::CodeTerms;
use kit_rows::{Outcome, canonical, truth_name, was_some, word};
use machine::{Machine, run, run_true};
use std::alloc::{Allocator, Global};
use term_core::Term;
use term_text::read_terms;
use verifier::Verified;

/// Returns the code that the first of these terms describes.
fn first_code<C: CodeTerms, A: Allocator + Copy>(
    heap: A,
    terms: &[Term<A>],
) -> Option<Verified<A>> {
    C::verified_of(heap, terms.first()?)
}

/// Reads the terms of a text and the code that the first describes, and returns whether that succeeded.
pub fn is_loaded<C: CodeTerms, A: Allocator + Copy>(heap: A, given: &[u8]) -> bool {
    let Ok(terms) = read_terms(heap, given) else {
        return false;
    };
    let is_loaded = was_some(first_code::<C, A>(heap, terms.as_slice()));
    drop(terms);
    is_loaded
}

/// Returns the text of an answer, or `none` if there is none.
fn answer_text<A: Allocator>(alloc: Global, answer: Option<&Term<A>>) -> Option<Vec<u8>> {
    match answer {
        Some(answer) => canonical(alloc, answer),
        None => word(alloc, "none"),
    }
}

/// Returns the text of the answer of code on an object, or `None` if memory runs out.
fn ran<A: Allocator + Copy>(
    alloc: Global,
    heap: A,
    code: &Verified<A>,
    object: &Term<A>,
) -> Option<Vec<u8>> {
    let Ok((answer, _executed)) = run(heap, code, object) else {
        return None;
    };
    let text = answer_text(alloc, answer.as_ref());
    drop(answer);
    text
}

/// Returns the text of a pair: whether the answer of code on an object is `true`, and how many instructions were
/// executed. Returns `None` if memory runs out.
fn tested<A: Allocator + Copy>(
    alloc: Global,
    heap: A,
    code: &Verified<A>,
    object: &Term<A>,
) -> Option<Vec<u8>> {
    let (holds, executed) = run_true(heap, code, object).ok()?;
    let out = Outcome::tuple(alloc).truth(holds);
    out.number(executed as usize).end()
}

/// Returns the result of the call of this name, which runs code on an object.
fn outcome_on<A: Allocator + Copy>(
    alloc: Global,
    heap: A,
    call: &str,
    code: &Verified<A>,
    object: &Term<A>,
) -> Option<Vec<u8>> {
    match call {
        "swept_run" | "run_without" => ran(alloc, heap, code, object),
        "swept_run_true" | "run_true_without" => tested(alloc, heap, code, object),
        _ => None,
    }
}

/// Returns the result of the call of this name, which runs the code that the first of these terms describes on the last
/// term.
fn outcome_of<C: CodeTerms, A: Allocator + Copy>(
    alloc: Global,
    heap: A,
    call: &str,
    terms: &[Term<A>],
) -> Option<Vec<u8>> {
    let object = terms.last()?;
    let code = first_code::<C, A>(heap, terms)?;
    let out = outcome_on(alloc, heap, call, &code, object);
    drop(code);
    out
}

/// Returns the result of the call of this name, which runs the code of a text on its last term, with memory from
/// `heap`. Returns `None` if memory runs out.
pub fn run_outcome<C: CodeTerms, A: Allocator + Copy>(
    alloc: Global,
    heap: A,
    call: &str,
    given: &[u8],
) -> Option<Vec<u8>> {
    let Ok(terms) = read_terms(heap, given) else {
        return None;
    };
    let out = outcome_of::<C, A>(alloc, heap, call, terms.as_slice());
    drop(terms);
    out
}

/// Returns the text of the answer of a machine on an object, or `None` if memory runs out.
fn ran_by<'a, A: Allocator + Copy>(
    alloc: Global,
    machine: &mut Machine<'a, '_, A>,
    object: &'a Term<A>,
) -> Option<Vec<u8>> {
    let Ok((answer, _executed)) = machine.run(object) else {
        return None;
    };
    let text = answer_text(alloc, answer.as_ref());
    drop(answer);
    text
}

/// Returns the text of whether the answer of a machine on an object is `true`, or `None` if memory runs out.
fn tested_by<'a, A: Allocator + Copy>(
    alloc: Global,
    machine: &mut Machine<'a, '_, A>,
    object: &'a Term<A>,
) -> Option<Vec<u8>> {
    let (holds, _executed) = machine.run_true(object).ok()?;
    word(alloc, truth_name(holds))
}

/// Returns the result of the call of this name on a machine, or `None` if memory runs out.
fn asked<'a, A: Allocator + Copy>(
    alloc: Global,
    call: &str,
    machine: &mut Machine<'a, '_, A>,
    object: &'a Term<A>,
) -> Option<Vec<u8>> {
    match call {
        "again_run" => ran_by(alloc, machine, object),
        "again_run_true" => tested_by(alloc, machine, object),
        _ => None,
    }
}

/// Returns the result of the call of this name on a machine, which is made again if memory runs out; `wanting` if it
/// runs out again.
fn asked_again<'a, A: Allocator + Copy>(
    alloc: Global,
    call: &str,
    machine: &mut Machine<'a, '_, A>,
    object: &'a Term<A>,
) -> Option<Vec<u8>> {
    if let Some(text) = asked(alloc, call, machine, object) {
        return Some(text);
    }
    if let Some(text) = asked(alloc, call, machine, object) {
        return Some(text);
    }
    word(alloc, "wanting")
}

/// Returns the results of the call of this name on one machine, for each of these objects. A call that runs out of
/// memory is made again.
fn asked_on_each<A: Allocator + Copy>(
    alloc: Global,
    heap: A,
    call: &str,
    code: &Verified<A>,
    objects: &[Term<A>],
) -> Option<Vec<u8>> {
    let mut machine = Machine::new(&heap, code).ok()?;
    let mut out = Outcome::list(alloc);
    for object in objects {
        out = out.part(asked_again(alloc, call, &mut machine, object));
    }
    machine.finish();
    out.end()
}

/// Returns the results of the call of this name on one machine of the code that the first of these terms describes, for
/// each of the terms after it.
fn again_on_terms<C: CodeTerms, A: Allocator + Copy>(
    alloc: Global,
    heap: A,
    call: &str,
    terms: &[Term<A>],
) -> Option<Vec<u8>> {
    let (first, objects) = terms.split_first()?;
    let code = C::verified_of(heap, first)?;
    let out = asked_on_each(alloc, heap, call, &code, objects);
    drop(code);
    out
}

/// Returns the results of the call of this name on one machine of the code of a text, for each object that follows it.
/// A call that runs out of memory is made again on the same object. Returns `None` if memory runs out while the text is
/// read.
pub fn again_outcome<C: CodeTerms, A: Allocator + Copy>(
    alloc: Global,
    heap: A,
    call: &str,
    given: &[u8],
) -> Option<Vec<u8>> {
    let Ok(terms) = read_terms(heap, given) else {
        return None;
    };
    let out = again_on_terms::<C, A>(alloc, heap, call, terms.as_slice());
    drop(terms);
    out
}
