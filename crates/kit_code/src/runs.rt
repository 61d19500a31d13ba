//! The answers of code on objects.
use crate::codes::CodeTerms;
use kit_rows::{Outcome, elements, is_atom, text, word};
use machine::{Machine, run, run_true};
use std::alloc::Global;
use term_core::Term;
use term_text::read_terms;
use verifier::Verified;

/// Returns the text of an answer and of the number of instructions that were executed.
fn answer_text(alloc: Global, answer: Option<&Term>, executed: u32) -> Option<Vec<u8>> {
    let out = Outcome::tuple(alloc);
    let out = match answer {
        Some(answer) => out.word("answer").term(answer),
        None => out.word("none"),
    };
    out.number(executed as usize).end()
}

/// Returns whether an answer is the atom `true`.
pub fn is_true(answer: Option<&Term>) -> bool {
    match answer {
        Some(answer) => is_atom(answer, "true"),
        None => false,
    }
}

/// Returns the text of the result of `run`, or `run_true_differs` if the result of `run_true` does not agree with it.
fn outcome(
    alloc: Global,
    answer: Option<&Term>,
    executed: u32,
    tested: (bool, u32),
) -> Option<Vec<u8>> {
    if tested == (is_true(answer), executed) {
        answer_text(alloc, answer, executed)
    } else {
        word(alloc, "run_true_differs")
    }
}

/// Returns the text of the answer of verified code on an object, or `None` if memory runs out.
fn ran(alloc: Global, code: &Verified, object: &Term) -> Option<Vec<u8>> {
    let tested = run_true(alloc, code, object).ok()?;
    let Ok((answer, executed)) = run(alloc, code, object) else {
        return None;
    };
    let text = outcome(alloc, answer.as_ref(), executed, tested);
    drop(answer);
    text
}

/// Returns the text of the answer of a machine on an object, or `None` if memory runs out.
fn ran_by<'a>(alloc: Global, machine: &mut Machine<'a, '_>, object: &'a Term) -> Option<Vec<u8>> {
    let tested = machine.run_true(object).ok()?;
    let Ok((answer, executed)) = machine.run(object) else {
        return None;
    };
    let text = outcome(alloc, answer.as_ref(), executed, tested);
    drop(answer);
    text
}

/// Appends the text of the answer of a machine on an object.
fn with_ran_by<'a>(
    alloc: Global,
    out: Outcome,
    machine: &mut Machine<'a, '_>,
    object: &'a Term,
) -> Outcome {
    match ran_by(alloc, machine, object) {
        Some(answer) => out.text(answer.as_slice()),
        None => out.word("out_of_memory"),
    }
}

/// Returns the texts of the answers of one machine on these objects, one after the other.
pub fn ran_each(alloc: Global, code: &Verified, objects: &[Term]) -> Option<Vec<u8>> {
    let mut machine = Machine::new(&alloc, code).ok()?;
    let mut out = Outcome::list(alloc);
    for object in objects {
        out = with_ran_by(alloc, out, &mut machine, object);
    }
    machine.finish();
    out.end()
}

/// Returns the text of the answer on an object of the code that a term describes.
fn ran_code<C: CodeTerms>(alloc: Global, code: &Term, object: &Term) -> Option<Vec<u8>> {
    let code = C::verified_of(alloc, code)?;
    let text = ran(alloc, &code, object);
    drop(code);
    text
}

/// Returns the texts of the answers of one machine, of the code that a term describes, on each of a list of objects.
fn ran_code_on_each<C: CodeTerms>(alloc: Global, code: &Term, objects: &Term) -> Option<Vec<u8>> {
    let objects = elements(objects)?;
    let code = C::verified_of(alloc, code)?;
    let text = ran_each(alloc, &code, objects);
    drop(code);
    text
}

/// Returns the text of the answer, on the first term of a text, of the code that a term describes.
fn ran_on_text<C: CodeTerms>(alloc: Global, code: &Term, given: &Term) -> Option<Vec<u8>> {
    let given = text(alloc, given)?;
    let Ok(objects) = read_terms(alloc, given.as_slice()) else {
        return None;
    };
    let text = match objects.first() {
        Some(object) => ran_code::<C>(alloc, code, object),
        None => None,
    };
    drop(objects);
    text
}

/// Returns the result of a row of runs, or `None` if there is no such row.
pub fn came<C: CodeTerms>(alloc: Global, kind: &str, parts: &[Term]) -> Option<Vec<u8>> {
    match (kind, parts) {
        ("run", [code, object, _]) => ran_code::<C>(alloc, code, object),
        ("run_text", [code, given, _]) => ran_on_text::<C>(alloc, code, given),
        ("run_each", [code, objects, _]) => ran_code_on_each::<C>(alloc, code, objects),
        _ => None,
    }
}
