//! What tables are built on, each in its smallest use: the order of terms, functions, what a specification means, and
//! code that a program makes itself, which is verified, run, and run over a list by several threads.
#![tactic(auto)]

use ets::code::{Code, Verified, all_forward, longest, run_list, run_true, verify};
use ets::spec::{evaluate, read_spec};
use ets::term::{Term, compare, key_hash};
use ets::text::{read_terms, write_term};
use mcode::{Builder, Frame, Instr, Places, Slots};
use prims::call;
use prims_table::{Arithmetic, Primitive};
use std::alloc::Global;
use std::cmp::Ordering;
use std::io::Write;
use std::process::ExitCode;
use std::thread::Threads;
use term_operand::Operand;

/// Two terms that are compared; the first is also hashed.
const TERMS: &[u8] = b"{1,ada}. [1,2|3].";

/// A specification, followed by an object.
const SPECIFICATION: &[u8] = b"[{{'$1','$2'},[],[{{'$2','$1'}}]}]. {1,ada}.";

/// The objects of a list.
const OBJECTS: &[u8] = b"{1,2}. {1}. a. {3,4}.";

/// Writes how the first of the two terms compares with the second, and in which of 8 slots a table has the first one as
/// a key.
fn order(alloc: Global, lines: &mut String) -> Option<()> {
    let terms = read_terms(alloc, TERMS).ok()?;
    let [first, second, ..] = terms.as_slice() else {
        return None;
    };
    let word = match compare(first, second) {
        Ordering::Less => "below",
        Ordering::Equal => "equal",
        Ordering::Greater => "above",
    };
    let slot = key_hash(first) % 8;
    writeln!(lines, "order: {word}, slot {slot}").ok()
}

/// Writes the result of a function, 7 divided by a number, or that it fails.
fn quotient(number: i64, lines: &mut String) -> Option<()> {
    let operands = [Operand::Int(7), Operand::<Global>::Int(number)];
    match call(Primitive::Arithmetic(Arithmetic::Div), &operands) {
        Some(Operand::Int(value)) => writeln!(lines, "7 div {number}: {value}").ok(),
        _ => writeln!(lines, "7 div {number}: fails").ok(),
    }
}

/// Writes a line with a term's text.
fn put_term(alloc: Global, name: &str, term: &Term, lines: &mut String) -> Option<()> {
    let mut text = Vec::new(alloc);
    write_term(term, &mut text).ok()?;
    let text = String::from_utf8(text).ok()?;
    writeln!(lines, "{name}: {text}").ok()
}

/// Writes what a specification means on an object, without any code.
fn meaning(alloc: Global, lines: &mut String) -> Option<()> {
    let terms = read_terms(alloc, SPECIFICATION).ok()?;
    let [specification, object, ..] = terms.as_slice() else {
        return None;
    };
    let specification = read_spec(alloc, specification).ok()?;
    let answer = evaluate(alloc, &specification, object).ok()??;
    put_term(alloc, "meaning", &answer, lines)
}

/// Returns code whose answer is `true` if the object is a pair: a load, a test of the size, and `true` or no answer.
fn pairs(alloc: Global) -> Option<Code> {
    let mut builder = Builder::new(alloc, 0).ok()?;
    let answer = builder.constant(Term::atom(alloc, "true").ok()?).ok()?;
    builder.instr(Instr::Load).ok()?;
    builder
        .instr(Instr::Tuple {
            size: 2,
            otherwise: 4,
        })
        .ok()?;
    builder.instr(Instr::Const { constant: answer }).ok()?;
    builder.instr(Instr::Answer).ok()?;
    builder.instr(Instr::NoAnswer).ok()?;
    let frame = Frame {
        pc: 4,
        depth: 1,
        places: Places::new(Vec::new(alloc)),
        slots: Slots::new(Vec::new(alloc)),
    };
    builder.frame(frame).ok()?;
    Some(builder.finish())
}

/// Returns how many instructions code executes at most, if each jump goes forward.
fn budget(alloc: Global, code: &Code) -> Option<u32> {
    if all_forward(code) {
        longest(alloc, code).ok()?
    } else {
        None
    }
}

/// Verifies the code and writes a line with its bounds. Code can be run only once it is verified.
fn checked(alloc: Global, lines: &mut String) -> Option<Verified> {
    let code = pairs(alloc)?;
    let budget = budget(alloc, &code)?;
    let code = verify(alloc, code).ok()?;
    let depth = code.depth();
    writeln!(lines, "pairs: budget {budget}, depth {depth}").ok()?;
    Some(code)
}

/// Writes how many of the objects have an answer, by several threads, and whether the answer on the first is `true`,
/// with the number of instructions executed.
fn answered<R: Threads + Sync>(rt: &R, alloc: Global, lines: &mut String) -> Option<()> {
    let code = checked(alloc, lines)?;
    let objects = read_terms(alloc, OBJECTS).ok()?;
    let answers = run_list(rt, alloc, &code, objects.as_slice()).ok()?;
    let count = answers.iter().filter(|answer| answer.is_some()).count();
    let (holds, executed) = run_true(alloc, &code, objects.first()?).ok()?;
    writeln!(
        lines,
        "pairs: {count} answered, the first {holds} in {executed}"
    )
    .ok()
}

/// Returns all lines.
fn lines<R: Threads + Sync>(rt: &R, alloc: Global) -> Option<String> {
    let mut lines = String::new(alloc);
    order(alloc, &mut lines)?;
    quotient(2, &mut lines)?;
    quotient(0, &mut lines)?;
    meaning(alloc, &mut lines)?;
    answered(rt, alloc, &mut lines)?;
    Some(lines)
}

fn main(rt: HostRuntime) -> ExitCode {
    let Some(lines) = lines(&rt, rt.alloc()) else {
        return ExitCode::FAILURE;
    };
    if rt.stdout().write_all(lines.as_bytes()).is_err() {
        return ExitCode::FAILURE;
    }
    ExitCode::SUCCESS
}
