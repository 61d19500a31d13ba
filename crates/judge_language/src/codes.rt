//! Code that is given by its parts or by its specification: what is built, its budget, and the result of the verifier.
use budget::{all_forward, longest};
use compiler::compile;
use kit_code::{
    BodyParts, Built, CodeTerms, Part, Parts, accepted, build, code_of, instruction, is_code,
    parts_of,
};
use kit_rows::{Outcome, digits, fields, function, is_atom, primitive, short, truth_name, word};
use mcode::{Body, Code, Frame};
use mspec_reader::read_spec;
use prims_table::Primitive;
use std::alloc::{Allocator, Global};
use term_core::Term;
use verifier::{BodyFault, Fault, Seen, Verified, verify};

const fn part_name(part: Part) -> &'static str {
    match part {
        Part::Slots => "slots",
        Part::Constant => "constant",
        Part::Routine => "routine",
        Part::Instruction => "instruction",
        Part::Frame => "frame",
    }
}

/// Returns the text of the number of routines of code, and of the numbers of instructions and frames of the last one.
fn routine_counts(alloc: Global, code: &Code) -> Option<Vec<u8>> {
    let count = code.routines().len();
    let last = Body::of(code, u16::try_from(count).ok()?);
    let out = Outcome::tuple(alloc).number(count);
    out.number(last.instructions().len())
        .number(last.frames().len())
        .end()
}

/// Returns the text of the numbers of constants, instructions and frames of code, and of its last routine if it has
/// one.
fn counts(alloc: Global, code: &Code) -> Option<Vec<u8>> {
    let out = Outcome::tuple(alloc).number(code.constants().len());
    let out = out
        .number(code.instructions().len())
        .number(code.frames().len());
    if code.routines().is_empty() {
        out.end()
    } else {
        out.part(routine_counts(alloc, code)).end()
    }
}

/// Returns the beginning of the text of a part that was rejected with this error code.
fn refused_part(alloc: Global, part: Part, number: u8) -> Outcome {
    let out = Outcome::tuple(alloc).word("refused");
    out.word(part_name(part)).number(usize::from(number))
}

/// Returns the text of the result of a builder.
fn built_text(alloc: Global, built: &Built<Global>) -> Option<Vec<u8>> {
    match built {
        Built::Whole(code) => {
            let out = Outcome::tuple(alloc).word("built");
            out.part(counts(alloc, code)).end()
        }
        Built::NoSlots(number) => refused_part(alloc, Part::Slots, *number).end(),
        Built::Refused(part, number, code) => {
            let out = refused_part(alloc, *part, *number);
            out.part(counts(alloc, code)).end()
        }
        Built::Wrong => word(alloc, "wrong"),
    }
}

/// Returns the text of the result of a builder for these parts.
fn built_of(alloc: Global, parts: Parts<Global>, wanted: &Parts<Global>) -> Option<Vec<u8>> {
    let built = build(alloc, parts, wanted);
    let text = built_text(alloc, &built);
    drop(built);
    text
}

/// Returns the text of the result of a builder for the parts of code that a term describes.
fn built(alloc: Global, term: &Term) -> Option<Vec<u8>> {
    let (parts, wanted) = parts_of(alloc, term).zip(parts_of(alloc, term))?;
    let text = built_of(alloc, parts, &wanted);
    drop(wanted);
    text
}

/// Returns the text of the depth of the frame of code at an instruction, or `none`.
fn frame_at(alloc: Global, term: &Term, pc: u16) -> Option<Vec<u8>> {
    let code = code_of(alloc, term)?;
    let text = match code.frame_at(pc) {
        Some(frame) => digits(alloc, u64::from(frame.depth)),
        None => word(alloc, "none"),
    };
    drop(code);
    text
}

/// Returns whether the function that a `call` instruction calls by this name is the one with this name and number of
/// arguments: `same` or `other`.
fn called(alloc: Global, name: &Term, arguments: u16) -> Option<Vec<u8>> {
    let wanted = primitive(name, usize::from(arguments))?;
    if Primitive::Function(function(name)?) == wanted {
        word(alloc, "same")
    } else {
        word(alloc, "other")
    }
}

/// Returns the text of where an instruction may jump, and whether it may go on to the next instruction.
fn leads(alloc: Global, term: &Term) -> Option<Vec<u8>> {
    let instr = instruction(alloc, 0, term)?;
    let out = Outcome::tuple(alloc);
    let out = match instr.target() {
        Some(target) => out.number(usize::from(target)),
        None => out.word("none"),
    };
    out.truth(instr.goes_on()).end()
}

/// Returns the text of the budget of code, allocated from `heap`; `over` if it is too large, `not_forward` if a jump
/// goes backward. Returns `None` if memory runs out.
fn budget<A: Allocator + Copy>(alloc: Global, heap: A, code: &Code<A>) -> Option<Vec<u8>> {
    if all_forward(code) {
        match longest(heap, code).ok()? {
            Some(budget) => digits(alloc, u64::from(budget)),
            None => word(alloc, "over"),
        }
    } else {
        word(alloc, "not_forward")
    }
}

/// Returns the text of the budget of the code that a term describes, or `None` if memory runs out.
pub(crate) fn budget_of<A: Allocator + Copy>(
    alloc: Global,
    heap: A,
    term: &Term<A>,
) -> Option<Vec<u8>> {
    let code = code_of(heap, term)?;
    let text = budget(alloc, heap, &code);
    drop(code);
    text
}

/// Returns the text of whether all jumps of the code that a term describes go forward.
fn forward(alloc: Global, term: &Term) -> Option<Vec<u8>> {
    let code = code_of(alloc, term)?;
    let is_forward = all_forward(&code);
    drop(code);
    word(alloc, truth_name(is_forward))
}

/// Returns whether the verifier's depths of a body are those of these frames.
fn has_depths(seen: &Seen<'_>, frames: &[Frame]) -> bool {
    for frame in frames {
        if seen.code().frame_at(frame.pc).is_none() {
            return false;
        }
        if seen.frame_depth(frame.pc) != frame.depth {
            return false;
        }
    }
    true
}

/// Returns whether the verifier's depths of the routine at a place are those of its frames.
fn routine_has_depths(verified: &Verified, place: usize, parts: &BodyParts<Global>) -> bool {
    if place >= verified.code().routines().len() {
        return false;
    }
    match u16::try_from(place.saturating_add(1)) {
        Ok(number) => has_depths(&verified.routine(number), parts.frames.as_slice()),
        Err(_) => false,
    }
}

/// Returns whether the verifier's depths of all bodies are those of their frames.
fn are_depths(verified: &Verified, parts: &Parts<Global>) -> bool {
    for (place, routine) in parts.routines.iter().enumerate() {
        if !routine_has_depths(verified, place, &routine.body) {
            return false;
        }
    }
    has_depths(&verified.main(), parts.main.frames.as_slice())
}

/// Returns the specification of a term `{compile,Specification}`, or `None` for any other term.
fn to_compile<A: Allocator>(term: &Term<A>) -> Option<&Term<A>> {
    match fields(term)? {
        [word, specification] if is_atom(word, "compile") => Some(specification),
        _ => None,
    }
}

/// Returns the code of the specification that a term is read as, or `None`.
fn compiled_code<A: Allocator + Copy>(heap: A, specification: &Term<A>) -> Option<Verified<A>> {
    let Ok(specification) = read_spec(heap, specification) else {
        return None;
    };
    let code = compile(heap, &specification).ok();
    drop(specification);
    code
}

/// Terms that are accepted as code: code by its parts, or `{compile,Specification}`.
pub(crate) struct GivenCode;

impl CodeTerms for GivenCode {
    fn verified_of<A: Allocator + Copy>(heap: A, term: &Term<A>) -> Option<Verified<A>> {
        match to_compile(term) {
            Some(specification) => compiled_code(heap, specification),
            None => verify(heap, code_of(heap, term)?).ok(),
        }
    }
}

/// Returns the text of a fault of code: its error code, the instruction that it names, and its body unless that is the
/// main one; the body alone if it is at fault as a whole. Returns `None` if memory ran out.
pub(crate) fn refused(alloc: Global, told: BodyFault) -> Option<Vec<u8>> {
    if told.fault == Fault::Memory {
        return None;
    }
    let out = Outcome::tuple(alloc).word("refused");
    let out = out.number(usize::from(told.fault.number()));
    let body = usize::from(told.body);
    match told.fault.pc() {
        None => out.number(body).end(),
        Some(pc) if body == 0 => out.number(usize::from(pc)).end(),
        Some(pc) => out.number(usize::from(pc)).number(body).end(),
    }
}

/// Returns the text of the result of the verifier for code; `other_code` if the code that it returns does not have
/// these parts or depths.
fn verdict(alloc: Global, code: Code, parts: &Parts<Global>) -> Option<Vec<u8>> {
    let verified = verify(alloc, code);
    let text = match &verified {
        Ok(verified) if is_code(verified.code(), parts) && are_depths(verified, parts) => {
            accepted(alloc, verified)
        }
        Err(handed_back) if is_code(&handed_back.value, parts) => {
            refused(alloc, handed_back.fault)
        }
        _ => word(alloc, "other_code"),
    };
    drop(verified);
    text
}

/// Returns the text of the result of the verifier for the code that a term describes.
fn verified(alloc: Global, term: &Term) -> Option<Vec<u8>> {
    let (code, parts) = code_of(alloc, term).zip(parts_of(alloc, term))?;
    let text = verdict(alloc, code, &parts);
    drop(parts);
    text
}

/// Returns the text of the result of the verifier for the code of a specification; `other_code` if that does not have
/// the parts that `code` describes.
fn compiled(alloc: Global, specification: &Term, code: &Term) -> Option<Vec<u8>> {
    let verified = compiled_code(alloc, specification);
    let (verified, parts) = verified.zip(parts_of(alloc, code))?;
    let text = if is_code(verified.code(), &parts) {
        accepted(alloc, &verified)
    } else {
        word(alloc, "other_code")
    };
    drop(verified);
    drop(parts);
    text
}

/// Returns the result of a row of one term and the expected result.
fn came_of_one(alloc: Global, kind: &str, given: &Term) -> Option<Vec<u8>> {
    match kind {
        "built" => built(alloc, given),
        "leads" => leads(alloc, given),
        "forward" => forward(alloc, given),
        "budget" => budget_of(alloc, alloc, given),
        "verify" => verified(alloc, given),
        _ => None,
    }
}

/// Returns the result of a row of two terms and the expected result.
fn came_of_two(alloc: Global, kind: &str, first: &Term, second: &Term) -> Option<Vec<u8>> {
    match kind {
        "frame_at" => frame_at(alloc, first, short(second)?),
        "function" => called(alloc, first, short(second)?),
        "compiled" => compiled(alloc, first, second),
        _ => None,
    }
}

/// Returns the result of a row of code, or `None` if there is no such row.
pub(crate) fn came(alloc: Global, kind: &str, parts: &[Term]) -> Option<Vec<u8>> {
    match parts {
        [given, _] => came_of_one(alloc, kind, given),
        [first, second, _] => came_of_two(alloc, kind, first, second),
        _ => None,
    }
}
