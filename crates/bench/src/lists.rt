//! The time of an object in a list that several threads answer, and by one machine alone.
use crate::reading::specification;
use crate::timing::{ROUNDS, median, since};
use compiler::compile;
use kit_rows::{put, put_copy};
use machine::Machine;
use parallel_select::run_list;
use std::alloc::Global;
use std::thread::Threads;
use std::time::Instant;
use term_build::make_tuple;
use term_core::Term;
use term_text::read_terms;
use verifier::Verified;

/// The specification that is evaluated on each object.
pub(crate) const SOME: &[u8] = b"[{{'$1','$2','_'},[{'>=','$1',1},{'<','$2',5}],['$2']}].";

/// How a list is answered.
#[derive(Clone, Copy)]
enum Work {
    /// By several threads.
    List,
    /// By one machine.
    Plain,
}

/// Returns the code of `SOME`.
fn code(alloc: Global) -> Option<Verified> {
    compile(alloc, &specification(alloc, SOME)?).ok()
}

/// Returns the atom that each object has.
fn atom(alloc: Global) -> Option<Term> {
    read_terms(alloc, b"a.").ok()?.pop()
}

/// Returns the object with this number.
fn object(alloc: Global, number: i64, atom: &Term) -> Option<Term> {
    let mut elements = Vec::new(alloc);
    let is_whole = put(&mut elements, Term::int(number))
        && put(&mut elements, Term::int(number % 7))
        && put_copy(&mut elements, atom);
    if is_whole {
        make_tuple(alloc, elements).ok()?
    } else {
        None
    }
}

/// Appends the object with this number; returns `false` if memory runs out.
fn put_object(alloc: Global, number: i64, atom: &Term, objects: &mut Vec<Term>) -> bool {
    match object(alloc, number, atom) {
        Some(object) => put(objects, object),
        None => false,
    }
}

/// Returns `count` objects with this atom.
fn objects_with(alloc: Global, count: u32, atom: &Term) -> Option<Vec<Term>> {
    let mut objects = Vec::new(alloc);
    let mut is_whole = true;
    for place in 0..count {
        let number = i64::from(place).saturating_add(1);
        is_whole = put_object(alloc, number, atom, &mut objects) && is_whole;
    }
    if is_whole { Some(objects) } else { None }
}

/// Returns `count` objects.
pub(crate) fn objects(alloc: Global, count: u32) -> Option<Vec<Term>> {
    objects_with(alloc, count, &atom(alloc)?)
}

/// Returns how many of these are answers.
fn count(answers: &[Option<Term>]) -> usize {
    let mut count: usize = 0;
    for answer in answers {
        if answer.is_some() {
            count = count.saturating_add(1);
        }
    }
    count
}

/// Appends the answers of a machine.
fn answer<'a>(
    machine: &mut Machine<'a, '_>,
    objects: &'a [Term],
    answers: &mut Vec<Option<Term>>,
) -> Option<()> {
    for object in objects {
        let (answer, _executed) = machine.run(object).ok()?;
        answers.push(answer).ok()?;
    }
    Some(())
}

/// Returns the answers of one machine.
fn plain(alloc: Global, code: &Verified, objects: &[Term]) -> Option<Vec<Option<Term>>> {
    let mut machine = Machine::new(&alloc, code).ok()?;
    let mut answers = Vec::with_capacity(alloc, objects.len()).ok()?;
    let all = answer(&mut machine, objects, &mut answers);
    machine.finish();
    all?;
    Some(answers)
}

/// Returns the answers on objects, by several threads or by one machine.
fn answered<H: Threads + Sync>(
    rt: &HostRuntime,
    handle: &H,
    work: Work,
    code: &Verified,
    objects: &[Term],
) -> Option<Vec<Option<Term>>> {
    match work {
        Work::List => run_list(handle, rt.alloc(), code, objects).ok(),
        Work::Plain => plain(rt.alloc(), code, objects),
    }
}

/// Returns on how many objects there is an answer.
fn found<H: Threads + Sync>(
    rt: &HostRuntime,
    handle: &H,
    work: Work,
    code: &Verified,
    objects: &[Term],
) -> Option<usize> {
    let answers = answered(rt, handle, work, code, objects)?;
    Some(count(answers.as_slice()))
}

/// Returns the nanoseconds that the work takes once, without the time to drop the answers.
fn once<H: Threads + Sync>(
    rt: &HostRuntime,
    handle: &H,
    work: Work,
    code: &Verified,
    objects: &[Term],
) -> Option<u64> {
    let began = Instant::now(rt).ok()?;
    let answers = answered(rt, handle, work, code, objects)?;
    let took = since(rt, began)?;
    if answers.len() == objects.len() {
        Some(took)
    } else {
        None
    }
}

/// Returns the median of the nanoseconds that the work takes.
fn timed<H: Threads + Sync>(
    rt: &HostRuntime,
    handle: &H,
    work: Work,
    code: &Verified,
    objects: &[Term],
) -> Option<u64> {
    let mut rounds = [0; ROUNDS];
    for round in &mut rounds {
        *round = once(rt, handle, work, code, objects)?;
    }
    Some(median(rounds))
}

/// Writes the line with the nanoseconds for an object, in a list and by one machine.
pub(crate) fn write_times<H: Threads + Sync>(
    rt: &HostRuntime,
    handle: &H,
    count: u32,
    lines: &mut String,
) -> Option<()> {
    let code = code(rt.alloc())?;
    let objects = objects(rt.alloc(), count)?;
    let list = timed(rt, handle, Work::List, &code, objects.as_slice())?;
    let plain = timed(rt, handle, Work::Plain, &code, objects.as_slice())?;
    writeln!(lines, "list {list} ns, one machine {plain} ns").ok()
}

/// Writes the line with the number of objects that have an answer.
pub(crate) fn write_found<H: Threads + Sync>(
    rt: &HostRuntime,
    handle: &H,
    count: u32,
    lines: &mut String,
) -> Option<()> {
    let code = code(rt.alloc())?;
    let objects = objects(rt.alloc(), count)?;
    let list = found(rt, handle, Work::List, &code, objects.as_slice())?;
    let plain = found(rt, handle, Work::Plain, &code, objects.as_slice())?;
    writeln!(
        lines,
        "{list} of {count} answered in a list, {plain} of {count} by one machine"
    )
    .ok()
}
