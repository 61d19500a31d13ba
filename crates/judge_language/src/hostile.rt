//! The beginnings of a file, and the file with each of its bytes changed to each other value.
use crate::files::{Refusal, load};
use code_file::{FileFault, decode};
use kit_code::is_true;
use kit_rows::{Outcome, elements, numbered, text, word};
use machine::Machine;
use std::alloc::Global;
use term_core::Term;
use verifier::{Fault, Verified};

/// Returns the text of whether each beginning of a file is rejected as truncated at its end; otherwise of the length of
/// the first one that is not.
fn fronts(alloc: Global, file: &[u8]) -> Option<Vec<u8>> {
    for length in 0..file.len() {
        if decode(alloc, file.get(..length)?).err() != Some(FileFault::Truncated(length)) {
            return numbered(alloc, "other", length);
        }
    }
    word(alloc, "truncated")
}

/// Returns whether a run of a machine on an object ends within a budget, and `run_true` executes as many instructions
/// and agrees on whether the answer is `true`. Returns `None` if memory runs out.
fn is_within<'a>(machine: &mut Machine<'a, '_>, object: &'a Term, budget: u32) -> Option<bool> {
    let (holds, tested) = machine.run_true(object).ok()?;
    let Ok((answer, executed)) = machine.run(object) else {
        return None;
    };
    let is_right = executed <= budget && tested == executed && holds == is_true(answer.as_ref());
    drop(answer);
    Some(is_right)
}

/// Returns whether `is_within` is true of a machine on each of these objects, or `None` if memory runs out.
fn are_within<'a>(machine: &mut Machine<'a, '_>, objects: &'a [Term], budget: u32) -> Option<bool> {
    let mut within = true;
    for object in objects {
        within = is_within(machine, object, budget)? && within;
    }
    Some(within)
}

/// Returns whether `is_within` is true of runs of code on each of these objects, with the code's budget, or `None` if
/// memory runs out.
fn runs_within(alloc: Global, code: &Verified, objects: &[Term]) -> Option<bool> {
    let heap = &alloc;
    let mut machine = Machine::new(heap, code).ok()?;
    let within = are_within(&mut machine, objects, code.budget());
    machine.finish();
    within
}

/// Returns whether a file is rejected with a fault, or its code runs within its budget on these objects and `run_true`
/// agrees with `run`. Returns `None` if memory runs out.
fn holds(alloc: Global, file: &[u8], objects: &[Term]) -> Option<bool> {
    match load(alloc, file) {
        Ok(code) => {
            let within = runs_within(alloc, &code, objects);
            drop(code);
            within
        }
        Err(Refusal::Unread(FileFault::Memory)) => None,
        Err(Refusal::Untyped(told)) if told.fault == Fault::Memory => None,
        Err(Refusal::Unread(_)) | Err(Refusal::Untyped(_)) => Some(true),
    }
}

/// Returns whether `holds` is true of a file with each value of the byte at one of its places.
fn values_hold(alloc: Global, file: &mut [u8], place: usize, objects: &[Term]) -> Option<bool> {
    for value in 0..=u8::MAX {
        *file.get_mut(place)? = value;
        if !holds(alloc, file, objects)? {
            return Some(false);
        }
    }
    Some(true)
}

/// Returns the text of whether `holds` is true of a file with each value of the byte at each of its places; otherwise
/// of the first place where it is not.
fn changed(alloc: Global, file: &[u8], objects: &[Term]) -> Option<Vec<u8>> {
    let mut other = Vec::from_slice(alloc, file).ok()?;
    for (place, byte) in file.iter().enumerate() {
        if !values_hold(alloc, other.as_mut_slice(), place, objects)? {
            return Outcome::tuple(alloc).word("other").number(place).end();
        }
        *other.get_mut(place)? = *byte;
    }
    word(alloc, "held")
}

/// Returns the result of a row of a file from which others are made, or `None` if there is no such row.
pub(crate) fn came(alloc: Global, kind: &str, parts: &[Term]) -> Option<Vec<u8>> {
    match (kind, parts) {
        ("fronts", [file, _]) => fronts(alloc, text(alloc, file)?.as_slice()),
        ("changed", [file, objects, _]) => {
            changed(alloc, text(alloc, file)?.as_slice(), elements(objects)?)
        }
        _ => None,
    }
}
