//! Calls with each allocation failing in turn, and calls in which each allocation fails from the first one on that they
//! make.
use crate::codes::{self, GivenCode};
use kit_code::{
    Built, Parts, accepted, again_outcome, answers_of_text, build, code_of, is_code, is_loaded,
    parts_of, run_outcome,
};
use kit_rows::{Calls, Loads, swept, swept_row, term_of, text, without_row, word};
use mcode::Code;
use mspec_reader::read_spec;
use mspec_syntax::SpecFault;
use std::alloc::{Allocator, Global};
use term_core::{Refused, Term};
use verifier::{BodyFault, Fault, verify};

/// Returns the text of whether code that was built has these parts: `built` or `other_code`.
fn whole<A: Allocator>(alloc: Global, code: &Code<A>, parts: &Parts<A>) -> Option<Vec<u8>> {
    if is_code(code, parts) {
        word(alloc, "built")
    } else {
        word(alloc, "other_code")
    }
}

/// Returns the text of whether code is built of these parts, or `None` if memory runs out; what was given is then
/// returned, and the rest kept.
fn built_of<A: Allocator + Copy>(
    alloc: Global,
    heap: A,
    parts: Parts<A>,
    wanted: &Parts<A>,
) -> Option<Vec<u8>> {
    let built = build(heap, parts, wanted);
    let text = match &built {
        Built::Whole(code) => whole(alloc, code, wanted),
        Built::Refused(_, 1, _) => None,
        Built::Refused(_, _, _) | Built::NoSlots(_) | Built::Wrong => word(alloc, "wrong"),
    };
    drop(built);
    text
}

/// Returns the text of whether code is built of the parts that a term describes, or `None` if memory runs out.
fn built<A: Allocator + Copy>(alloc: Global, heap: A, term: &Term<A>) -> Option<Vec<u8>> {
    let (parts, wanted) = parts_of(heap, term).zip(parts_of(heap, term))?;
    let text = built_of(alloc, heap, parts, &wanted);
    drop(wanted);
    text
}

/// Returns the text of the result of the verifier for code that it returned: why it is rejected, or the result of a
/// second attempt if memory ran out.
fn once_more<A: Allocator + Copy>(
    alloc: Global,
    heap: A,
    refused: Refused<Code<A>, BodyFault>,
    parts: &Parts<A>,
) -> Option<Vec<u8>> {
    let Refused { value: code, fault } = refused;
    if !is_code(&code, parts) {
        drop(code);
        return word(alloc, "other_code");
    }
    if fault.fault != Fault::Memory {
        drop(code);
        return codes::refused(alloc, fault);
    }
    let verified = verify(heap, code);
    let text = match &verified {
        Ok(verified) => accepted(alloc, verified),
        Err(again) => codes::refused(alloc, again.fault),
    };
    drop(verified);
    text
}

/// Returns the text of the result of the verifier for code. If memory runs out, the code is returned and verified
/// again.
fn verdict_of<A: Allocator + Copy>(
    alloc: Global,
    heap: A,
    code: Code<A>,
    parts: &Parts<A>,
) -> Option<Vec<u8>> {
    match verify(heap, code) {
        Ok(verified) => {
            let text = accepted(alloc, &verified);
            drop(verified);
            text
        }
        Err(refused) => once_more(alloc, heap, refused, parts),
    }
}

/// Returns the text of the result of the verifier for the code that a term describes.
fn verdict<A: Allocator + Copy>(alloc: Global, heap: A, term: &Term<A>) -> Option<Vec<u8>> {
    let (code, parts) = code_of(heap, term).zip(parts_of(heap, term))?;
    let text = verdict_of(alloc, heap, code, &parts);
    drop(parts);
    text
}

/// Returns the text of whether a term is read as a specification: `ok` or `refused`. Returns `None` if memory runs out.
fn read<A: Allocator + Copy>(alloc: Global, heap: A, term: &Term<A>) -> Option<Vec<u8>> {
    let specification = read_spec(heap, term);
    let text = match &specification {
        Ok(_) => word(alloc, "ok"),
        Err(SpecFault::Memory) => None,
        Err(_) => word(alloc, "refused"),
    };
    drop(specification);
    text
}

/// Returns the result of the call of this name on a term, or `None` if memory runs out.
fn outcome_of<A: Allocator + Copy>(
    alloc: Global,
    heap: A,
    call: &str,
    term: &Term<A>,
) -> Option<Vec<u8>> {
    match call {
        "swept_built" => built(alloc, heap, term),
        "swept_budget" => codes::budget_of(alloc, heap, term),
        "swept_verify" => verdict(alloc, heap, term),
        "swept_spec" => read(alloc, heap, term),
        _ => None,
    }
}

/// Returns the result of the call of this name on the term that a text spells, or `None` if memory runs out.
fn outcome<A: Allocator + Copy>(
    alloc: Global,
    heap: A,
    call: &str,
    given: &[u8],
) -> Option<Vec<u8>> {
    let term = term_of(heap, given)?;
    let text = outcome_of(alloc, heap, call, &term);
    drop(term);
    text
}

/// The calls of rows with failing allocations.
struct CodeCalls;

impl Calls for CodeCalls {
    const MOST_REQUESTS: u64 = 2_000;

    fn outcome<A: Allocator + Copy>(
        alloc: Global,
        heap: A,
        call: &str,
        given: &[u8],
    ) -> Option<Vec<u8>> {
        match call {
            "swept_answers" => answers_of_text(alloc, heap, given),
            "swept_run" | "swept_run_true" | "run_without" | "run_true_without" => {
                run_outcome::<GivenCode, A>(alloc, heap, call, given)
            }
            "again_run" | "again_run_true" => {
                again_outcome::<GivenCode, A>(alloc, heap, call, given)
            }
            _ => outcome(alloc, heap, call, given),
        }
    }

    // Atoms are collected from characters, for which room is allocated first; if that fails, the call goes on without
    // it.
    fn asks_again(call: &str) -> bool {
        matches!(
            call,
            "swept_verify"
                | "swept_spec"
                | "swept_answers"
                | "swept_run"
                | "again_run"
                | "again_run_true"
        )
    }
}

impl Loads for CodeCalls {
    fn is_loaded<A: Allocator + Copy>(heap: A, given: &[u8]) -> bool {
        is_loaded::<GivenCode, A>(heap, given)
    }
}

/// Returns the result of a row of a text and the expected text, in which each allocation fails alone.
fn again(alloc: Global, kind: &str, parts: &[Term]) -> Option<Vec<u8>> {
    let [given, _] = parts else {
        return None;
    };
    swept::<CodeCalls>(alloc, kind, text(alloc, given)?.as_slice())
}

/// Returns the result of a row with failing allocations, or `None` if there is no such row.
pub(crate) fn came(alloc: Global, kind: &str, parts: &[Term]) -> Option<Vec<u8>> {
    match kind {
        "run_without" | "run_true_without" => without_row::<CodeCalls>(alloc, kind, parts),
        "again_run" | "again_run_true" => again(alloc, kind, parts),
        _ => swept_row::<CodeCalls>(alloc, kind, parts),
    }
}
