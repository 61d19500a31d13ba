//! The time of a specification: to be compiled, and to be evaluated over the objects that follow it, by its code and by
//! the evaluator.
use crate::timing::{ROUNDS, median, since};
use compiler::compile;
use kit_rows::put;
use machine::Machine;
use mspec_meaning::evaluate;
use mspec_reader::read_spec;
use mspec_syntax::Spec;
use std::alloc::Global;
use std::time::Instant;
use term_core::Term;
use verifier::Verified;

/// How many times the specification is compiled in one round.
const COMPILATIONS: usize = 100;

/// Work that is timed.
#[derive(Clone, Copy)]
enum Work {
    /// Compiling and verifying.
    Compile,
    /// Running the code, and dropping the answers.
    Run,
    /// Running the code, with the answers dropped after the clock has stopped.
    RunKept,
    /// Running the code for whether the answers are `true`.
    RunTrue,
    /// Evaluating the specification.
    Evaluate,
}

/// A specification, its code, and objects.
#[derive(Clone, Copy)]
struct Query<'a> {
    specification: &'a Spec,
    code: &'a Verified,
    objects: &'a [Term],
}

/// Appends an answer, if there is one; returns `false` if memory runs out.
fn put_answer(answers: &mut Vec<Term>, answer: Option<Term>) -> bool {
    match answer {
        Some(answer) => put(answers, answer),
        None => true,
    }
}

/// Appends the answer of code on an object, if there is one; returns `false` if memory runs out.
fn put_run<'a>(machine: &mut Machine<'a, '_>, object: &'a Term, answers: &mut Vec<Term>) -> bool {
    match machine.run(object) {
        Ok((answer, _executed)) => put_answer(answers, answer),
        Err(_) => false,
    }
}

/// Appends the answers of a machine on objects.
fn answer<'a>(
    machine: &mut Machine<'a, '_>,
    objects: &'a [Term],
    answers: &mut Vec<Term>,
) -> Option<()> {
    let mut is_whole = true;
    for object in objects {
        is_whole = put_run(machine, object, answers) && is_whole;
    }
    if is_whole { Some(()) } else { None }
}

/// Appends the answers of code on objects, and returns how many there are in all.
fn answered(
    alloc: Global,
    code: &Verified,
    objects: &[Term],
    answers: &mut Vec<Term>,
) -> Option<usize> {
    let mut machine = Machine::new(&alloc, code).ok()?;
    let all = answer(&mut machine, objects, answers);
    machine.finish();
    all.map(|()| answers.len())
}

/// Returns on how many objects code has an answer. The answers are dropped after the last of them.
fn let_go(alloc: Global, code: &Verified, objects: &[Term]) -> Option<usize> {
    let mut answers = Vec::new(alloc);
    answered(alloc, code, objects, &mut answers)
}

/// Returns on how many objects the answer of a machine is `true`.
fn count_true<'a>(machine: &mut Machine<'a, '_>, objects: &'a [Term]) -> Option<usize> {
    let mut count: usize = 0;
    for object in objects {
        let (holds, _executed) = machine.run_true(object).ok()?;
        if holds {
            count = count.saturating_add(1);
        }
    }
    Some(count)
}

/// Returns on how many objects the answer of code is `true`.
fn true_on(alloc: Global, code: &Verified, objects: &[Term]) -> Option<usize> {
    let mut machine = Machine::new(&alloc, code).ok()?;
    let count = count_true(&mut machine, objects);
    machine.finish();
    count
}

/// Appends the evaluator's answer on an object, if there is one; returns `false` if memory runs out.
fn put_evaluated(
    alloc: Global,
    specification: &Spec,
    object: &Term,
    answers: &mut Vec<Term>,
) -> bool {
    match evaluate(alloc, specification, object) {
        Ok(answer) => put_answer(answers, answer),
        Err(_) => false,
    }
}

/// Returns on how many objects the evaluator has an answer. The answers are dropped after the last of them.
fn evaluated(alloc: Global, specification: &Spec, objects: &[Term]) -> Option<usize> {
    let mut answers = Vec::new(alloc);
    let mut is_whole = true;
    for object in objects {
        is_whole = put_evaluated(alloc, specification, object, &mut answers) && is_whole;
    }
    if is_whole { Some(answers.len()) } else { None }
}

/// Returns the number of instructions of a specification's code.
fn instructions(alloc: Global, specification: &Spec) -> Option<usize> {
    let code = compile(alloc, specification).ok()?;
    Some(code.code().instructions().len())
}

/// Compiles a specification 100 times, and returns the number of instructions of its code.
fn compiled(alloc: Global, specification: &Spec) -> Option<usize> {
    let mut count = 0;
    for _compilation in 0..COMPILATIONS {
        count = instructions(alloc, specification)?;
    }
    Some(count)
}

/// Does the work, and returns what it finds: the number of instructions, or of objects that have an answer. Answers
/// that are to be kept are appended to `answers`.
fn found(alloc: Global, work: Work, query: Query, answers: &mut Vec<Term>) -> Option<usize> {
    match work {
        Work::Compile => compiled(alloc, query.specification),
        Work::Run => let_go(alloc, query.code, query.objects),
        Work::RunKept => answered(alloc, query.code, query.objects, answers),
        Work::RunTrue => true_on(alloc, query.code, query.objects),
        Work::Evaluate => evaluated(alloc, query.specification, query.objects),
    }
}

/// Returns the nanoseconds that the work takes once, and what it finds.
fn once(rt: &HostRuntime, work: Work, query: Query) -> Option<(u64, usize)> {
    let mut answers = Vec::new(rt.alloc());
    let began = Instant::now(rt).ok()?;
    let found = found(rt.alloc(), work, query, &mut answers)?;
    Some((since(rt, began)?, found))
}

/// Returns the median of the nanoseconds that the work takes, and what it finds.
fn timed(rt: &HostRuntime, work: Work, query: Query) -> Option<(u64, usize)> {
    let mut rounds = [0; ROUNDS];
    let mut count = 0;
    for round in &mut rounds {
        let (took, found) = once(rt, work, query)?;
        *round = took;
        count = found;
    }
    Some((median(rounds), count))
}

/// Writes the line with the time of compiling.
fn write_compilation(rt: &HostRuntime, query: Query, lines: &mut String) -> Option<()> {
    let (nanoseconds, instructions) = timed(rt, Work::Compile, query)?;
    let each = nanoseconds / COMPILATIONS as u64;
    writeln!(lines, "compile {each} ns, {instructions} instructions").ok()
}

/// Writes the line with the time of the work for an object.
fn write_work(
    rt: &HostRuntime,
    name: &str,
    work: Work,
    query: Query,
    lines: &mut String,
) -> Option<()> {
    let (nanoseconds, found) = timed(rt, work, query)?;
    let count = u64::try_from(query.objects.len()).ok()?.max(1);
    let each = nanoseconds / count;
    writeln!(
        lines,
        "{name} {each} ns an object, {found} of {count} answered"
    )
    .ok()
}

/// Writes the lines of all that is timed.
fn write_times(rt: &HostRuntime, query: Query, lines: &mut String) -> Option<()> {
    write_compilation(rt, query, lines)?;
    write_work(rt, "run", Work::Run, query, lines)?;
    write_work(rt, "run_kept", Work::RunKept, query, lines)?;
    write_work(rt, "run_true", Work::RunTrue, query, lines)?;
    write_work(rt, "evaluate", Work::Evaluate, query, lines)
}

/// Compiles a specification, and writes its lines over the objects.
fn write_query(
    rt: &HostRuntime,
    specification: &Spec,
    objects: &[Term],
    lines: &mut String,
) -> Option<()> {
    let code = &compile(rt.alloc(), specification).ok()?;
    let query = Query {
        specification,
        code,
        objects,
    };
    write_times(rt, query, lines)
}

/// Reads a specification, and writes its lines over the objects.
fn write_specification(
    rt: &HostRuntime,
    specification: &Term,
    objects: &[Term],
    lines: &mut String,
) -> Option<()> {
    let specification = read_spec(rt.alloc(), specification).ok()?;
    write_query(rt, &specification, objects, lines)
}

/// Writes the nanoseconds that the first of these terms takes to be compiled, as a specification, and the number of
/// instructions of its code. Then writes the nanoseconds for an object of `run`, of `run` with the answers dropped
/// after the clock has stopped, of `run_true` and of `evaluate`. Each line has the number of objects that have an
/// answer (for `run_true`, the answer `true`). Each time is the median of five.
pub(crate) fn write(rt: &HostRuntime, terms: &[Term], lines: &mut String) -> Option<()> {
    let (specification, objects) = terms.split_first()?;
    write_specification(rt, specification, objects, lines)
}
