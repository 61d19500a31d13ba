//! Code that is built of its parts with a `Builder`: the constants first, then the main body and each routine in turn.
//! The instructions of a body come before its frames.
use crate::frame::same_frame;
use crate::parts::{BodyParts, Parts, RoutineParts, parts_of};
use mcode::{Body, Builder, Code, Fault, Frame, Instr};
use std::alloc::Allocator;
use term_core::Term;

/// What is given to a builder.
#[derive(Clone, Copy, Debug, PartialEq, Eq)]
pub enum Part {
    /// The number of slots.
    Slots,
    /// A constant.
    Constant,
    /// A routine, of which only its signature and its number of slots are given.
    Routine,
    /// An instruction.
    Instruction,
    /// A frame.
    Frame,
}

/// The result of giving parts to a builder.
#[derive(Drop)]
pub enum Built<A: Allocator> {
    /// All parts were accepted.
    Whole(Code<A>),
    /// The number of slots was rejected with this error code.
    NoSlots(u8),
    /// A part was rejected with this error code and, unless it is a routine, returned. This is the code of the parts
    /// before it.
    Refused(Part, u8, Code<A>),
    /// The builder gave a wrong number, returned another part, or had other parts in the end.
    Wrong,
}

/// Why not all parts were accepted.
#[derive(Drop)]
enum Stop {
    Refused(Part, u8),
    Wrong,
}

/// Returns why a part was not accepted: rejected with an error code if it was returned unchanged (`is_whole`), else
/// wrong.
fn stop_at(part: Part, fault: Fault, is_whole: bool) -> Stop {
    if is_whole {
        Stop::Refused(part, fault.number())
    } else {
        Stop::Wrong
    }
}

/// Returns whether the term at a place is this one.
fn is_at<A: Allocator>(terms: &[Term<A>], place: usize, term: &Term<A>) -> bool {
    match terms.get(place) {
        Some(wanted) => *wanted == *term,
        None => false,
    }
}

/// Checks that a part that was accepted has the number of its place.
fn check_number(number: u16, place: usize) -> Result<(), Stop> {
    if usize::from(number) == place {
        Ok(())
    } else {
        Err(Stop::Wrong)
    }
}

fn add_constant<A: Allocator>(
    builder: &mut Builder<A>,
    place: usize,
    constant: Term<A>,
    wanted: &[Term<A>],
) -> Result<(), Stop> {
    let added = builder.constant(constant);
    let came = match &added {
        Ok(number) => check_number(*number, place),
        Err(refused) => {
            let is_whole = is_at(wanted, place, &refused.value);
            Err(stop_at(Part::Constant, refused.fault, is_whole))
        }
    };
    drop(added);
    came
}

fn add_constants<A: Allocator>(
    builder: &mut Builder<A>,
    given: Vec<Term<A>, A>,
    wanted: &[Term<A>],
) -> Result<(), Stop> {
    for (place, constant) in given.into_iter().enumerate() {
        add_constant(builder, place, constant, wanted)?;
    }
    Ok(())
}

fn add_instructions<A: Allocator>(builder: &mut Builder<A>, given: &[Instr]) -> Result<(), Stop> {
    for (place, instr) in given.iter().enumerate() {
        match builder.instr(*instr) {
            Ok(number) => check_number(number, place)?,
            Err(fault) => return Err(stop_at(Part::Instruction, fault, true)),
        }
    }
    Ok(())
}

/// Returns whether the frame at a place is this one.
fn is_frame_at<A: Allocator>(frames: &[Frame<A>], place: usize, frame: &Frame<A>) -> bool {
    match frames.get(place) {
        Some(wanted) => same_frame(wanted, frame),
        None => false,
    }
}

fn add_frame<A: Allocator>(
    builder: &mut Builder<A>,
    place: usize,
    frame: Frame<A>,
    wanted: &[Frame<A>],
) -> Result<(), Stop> {
    let added = builder.frame(frame);
    let came = match &added {
        Ok(()) => Ok(()),
        Err(refused) => {
            let is_whole = is_frame_at(wanted, place, &refused.value);
            Err(stop_at(Part::Frame, refused.fault, is_whole))
        }
    };
    drop(added);
    came
}

fn add_frames<A: Allocator>(
    builder: &mut Builder<A>,
    given: Vec<Frame<A>, A>,
    wanted: &[Frame<A>],
) -> Result<(), Stop> {
    for (place, frame) in given.into_iter().enumerate() {
        add_frame(builder, place, frame, wanted)?;
    }
    Ok(())
}

/// Gives a builder the instructions and the frames of the newest body.
fn add_body<A: Allocator>(
    builder: &mut Builder<A>,
    given: BodyParts<A>,
    wanted: &BodyParts<A>,
) -> Result<(), Stop> {
    let BodyParts {
        slots: _,
        instructions,
        frames,
    } = given;
    match add_instructions(builder, instructions.as_slice()) {
        Ok(()) => add_frames(builder, frames, wanted.frames.as_slice()),
        Err(stop) => {
            drop(frames);
            Err(stop)
        }
    }
}

/// Gives a builder a routine. Its number is its place plus 1, since the main body has number 0.
fn add_routine<A: Allocator + Copy>(
    builder: &mut Builder<A>,
    place: usize,
    given: RoutineParts<A>,
    wanted: &[RoutineParts<A>],
) -> Result<(), Stop> {
    let Some(wanted) = wanted.get(place) else {
        drop(given);
        return Err(Stop::Wrong);
    };
    let RoutineParts {
        arguments,
        gives,
        body,
    } = given;
    let added = match builder.routine(arguments, gives, body.slots) {
        Ok(number) => check_number(number, place.saturating_add(1)),
        Err(fault) => Err(stop_at(Part::Routine, fault, true)),
    };
    match added {
        Ok(()) => add_body(builder, body, &wanted.body),
        Err(stop) => {
            drop(body);
            Err(stop)
        }
    }
}

fn add_routines<A: Allocator + Copy>(
    builder: &mut Builder<A>,
    given: Vec<RoutineParts<A>, A>,
    wanted: &[RoutineParts<A>],
) -> Result<(), Stop> {
    for (place, routine) in given.into_iter().enumerate() {
        add_routine(builder, place, routine, wanted)?;
    }
    Ok(())
}

/// Returns whether these constants are the first of the wanted ones.
fn are_first_constants<A: Allocator>(constants: &[Term<A>], wanted: &[Term<A>]) -> bool {
    for place in 0..constants.len() {
        if !is_at(wanted, place, &constants[place]) {
            return false;
        }
    }
    true
}

/// Returns whether these frames are the first of the wanted ones.
fn are_first_frames<A: Allocator>(frames: &[Frame<A>], wanted: &[Frame<A>]) -> bool {
    for place in 0..frames.len() {
        if !is_frame_at(wanted, place, &frames[place]) {
            return false;
        }
    }
    true
}

/// Returns whether a body has the wanted number of slots, and the first of the wanted instructions and frames.
fn is_body_front<A: Allocator>(body: &Body<'_, A>, parts: &BodyParts<A>) -> bool {
    body.slots() == parts.slots
        && parts
            .instructions
            .as_slice()
            .starts_with(body.instructions())
        && are_first_frames(body.frames(), parts.frames.as_slice())
}

/// Returns whether a body has as many instructions and frames as wanted.
fn is_body_whole<A: Allocator>(body: &Body<'_, A>, parts: &BodyParts<A>) -> bool {
    body.instructions().len() == parts.instructions.len()
        && body.frames().len() == parts.frames.len()
}

/// Returns whether a body is a routine with this signature.
fn is_of<A: Allocator>(body: &Body<'_, A>, parts: &RoutineParts<A>) -> bool {
    match body.own_routine() {
        Some(routine) => {
            routine.gives() == parts.gives && routine.arguments() == parts.arguments.as_slice()
        }
        None => false,
    }
}

/// Returns the body of code with this number, if there is one; the main body has number 0.
pub(crate) fn body_at<A: Allocator>(code: &Code<A>, place: usize) -> Option<Body<'_, A>> {
    if place > code.routines().len() {
        return None;
    }
    Some(Body::of(code, u16::try_from(place).ok()?))
}

/// Returns whether the routine at a place of code has the wanted signature, and the first of the wanted parts, or all
/// of them if `is_whole`.
fn has_routine<A: Allocator>(
    code: &Code<A>,
    place: usize,
    wanted: &[RoutineParts<A>],
    is_whole: bool,
) -> bool {
    let (Some(parts), Some(body)) = (wanted.get(place), body_at(code, place.saturating_add(1)))
    else {
        return false;
    };
    is_of(&body, parts)
        && is_body_front(&body, &parts.body)
        && (!is_whole || is_body_whole(&body, &parts.body))
}

/// Returns whether code has the first of the wanted routines. The last of them may have only the first of its parts.
fn are_first_routines<A: Allocator>(code: &Code<A>, wanted: &[RoutineParts<A>]) -> bool {
    let count = code.routines().len();
    for place in 0..count {
        if !has_routine(code, place, wanted, place.saturating_add(1) < count) {
            return false;
        }
    }
    true
}

/// Returns whether code has the first of the wanted parts, where those of the main body come before those of routines.
fn is_front<A: Allocator>(code: &Code<A>, parts: &Parts<A>) -> bool {
    let main = Body::of(code, 0);
    are_first_constants(code.constants(), parts.constants.as_slice())
        && is_body_front(&main, &parts.main)
        && (code.routines().is_empty() || is_body_whole(&main, &parts.main))
        && are_first_routines(code, parts.routines.as_slice())
}

/// Returns whether the last body of code has as many parts as wanted.
fn is_last_whole<A: Allocator>(code: &Code<A>, parts: &Parts<A>) -> bool {
    match (parts.routines.last(), body_at(code, parts.routines.len())) {
        (Some(last), Some(body)) => is_body_whole(&body, &last.body),
        (None, Some(body)) => is_body_whole(&body, &parts.main),
        _ => false,
    }
}

/// Returns whether code has exactly these parts.
pub fn is_code<A: Allocator>(code: &Code<A>, parts: &Parts<A>) -> bool {
    is_front(code, parts)
        && code.constants().len() == parts.constants.len()
        && code.routines().len() == parts.routines.len()
        && is_last_whole(code, parts)
}

/// Gives a builder the main body and the routines.
fn add_bodies<A: Allocator + Copy>(
    builder: &mut Builder<A>,
    main: BodyParts<A>,
    routines: Vec<RoutineParts<A>, A>,
    wanted: &Parts<A>,
) -> Result<(), Stop> {
    match add_body(builder, main, &wanted.main) {
        Ok(()) => add_routines(builder, routines, wanted.routines.as_slice()),
        Err(stop) => {
            drop(routines);
            Err(stop)
        }
    }
}

fn add_all<A: Allocator + Copy>(
    builder: &mut Builder<A>,
    given: Parts<A>,
    wanted: &Parts<A>,
) -> Result<(), Stop> {
    let Parts {
        constants,
        main,
        routines,
    } = given;
    match add_constants(builder, constants, wanted.constants.as_slice()) {
        Ok(()) => add_bodies(builder, main, routines, wanted),
        Err(stop) => {
            drop(main);
            drop(routines);
            Err(stop)
        }
    }
}

/// Returns the result for the code of the parts that were accepted so far.
fn finished<A: Allocator>(code: Code<A>, added: Result<(), Stop>, wanted: &Parts<A>) -> Built<A> {
    if !is_front(&code, wanted) {
        drop(code);
        return Built::Wrong;
    }
    match added {
        Ok(()) => Built::Whole(code),
        Err(Stop::Refused(part, number)) => Built::Refused(part, number, code),
        Err(Stop::Wrong) => {
            drop(code);
            Built::Wrong
        }
    }
}

/// Gives parts to a builder, and returns the result. `wanted` are the same parts again, with which the code is
/// compared.
pub fn build<A: Allocator + Copy>(heap: A, given: Parts<A>, wanted: &Parts<A>) -> Built<A> {
    let mut builder = match Builder::new(heap, given.main.slots) {
        Ok(builder) => builder,
        Err(fault) => {
            drop(given);
            return Built::NoSlots(fault.number());
        }
    };
    let added = add_all(&mut builder, given, wanted);
    finished(builder.finish(), added, wanted)
}

/// Returns the code if it was built of all parts, else `None`.
fn whole<A: Allocator>(built: Built<A>) -> Option<Code<A>> {
    match built {
        Built::Whole(code) => Some(code),
        Built::Refused(_part, _number, code) => {
            drop(code);
            None
        }
        Built::NoSlots(_) | Built::Wrong => None,
    }
}

/// Returns the code that a term describes, whose parts are `wanted`, or `None` if it can't be built.
fn code_of_parts<A: Allocator + Copy>(
    heap: A,
    term: &Term<A>,
    wanted: &Parts<A>,
) -> Option<Code<A>> {
    whole(build(heap, parts_of(heap, term)?, wanted))
}

/// Returns the code that a term describes, or `None` if it can't be built.
pub fn code_of<A: Allocator + Copy>(heap: A, term: &Term<A>) -> Option<Code<A>> {
    let wanted = parts_of(heap, term)?;
    let code = code_of_parts(heap, term, &wanted);
    drop(wanted);
    code
}
