//! The lines of answers on objects, each of which is dropped once it has been answered.
ghost use Rattle.std.specs.Prelude.{◌≡◌, ◌++◌, List, OnOk, OnErr, IfOk, IfErr, Option, option_map};
ghost use Rattle.std.specs.Option.{option_copied};
ghost use Rattle.std.specs.Str.{chars};
ghost use Rattle.term_core.specs.Datum.{Datum};
ghost use Rattle.term_text.specs.Text.{Front};
ghost use Rattle.mcode.specs.Answer.{answer_of};
ghost use Rattle.mspec_meaning.specs.Meaning.{Means};
ghost use Rattle.tool_io.specs.Lines.{line_in};
ghost use Rattle.tool_io.specs.Terms.{IsUnspelled};
ghost use Rattle.tool_query.specs.Answers.{answer_line, outcome_of, Puts, AreReported};
ghost use Rattle.tool_query.specs.Answers.Report.{answers, outcomes};

use machine::run;
use mspec_meaning::evaluate;
use mspec_syntax::Spec;
use std::alloc::{AllocError, Allocator, Global};
use term_core::Term;
use term_text::{Form, Scratch};
use tool_io::{ToolFault, next_of, put_line_in};
use verifier::Verified;

/// The lines on the terms of a text, up to its end or to a term for which memory ran out.
pub(crate) struct Reported<'t, A: Allocator = Global> {
    /// The lines on the terms before.
    pub(crate) lines: Vec<u8, A>,
    /// What is left after the term for which memory ran out, if it did.
    pub(crate) left: Option<&'t str>,
}

/// Returns the lines of the answers of code on the terms of `rest`, what is left of `text`, up to a term for which
/// memory runs out. Fails with the first fault of the text, or with `Memory` if memory runs out while it is read.
pub(crate) fn run_lines<'t, A: Allocator + Copy>(
    alloc: A,
    form: Form,
    code: &Verified<A>,
    text: &str,
    rest: &'t str,
) -> Result<Reported<'t, A>, ToolFault>
    ensures ok { IfOk result (λ reported. AreReported (answers form) (λ object answer.
        answer ≡ answer_of code.now object) (chars rest.now) reported.lines.items (option_map (λ s. chars s.now) reported.left)) }
    ensures refused { (ds : List Datum) → Front (chars text.now) ds (chars rest.now)
        → IfErr result (IsUnspelled text.now) }
{
    let mut lines = Vec::new(alloc);
    let mut scratch = Scratch::new(alloc);
    let mut left = rest;
    loop {
        let Some((object, after)) = next_of(alloc, &mut scratch, text, left)? else {
            return Ok(Reported { lines, left: None });
        };
        match put_run(alloc, form, code, object, &mut lines) {
            Ok(()) => {}
            Err(AllocError) => {
                return Ok(Reported {
                    lines,
                    left: Some(after),
                });
            }
        }
        left = after;
    }
}

/// Appends the line of the answer of code on an object, or nothing if there is no answer. If an allocation fails, `lines`
/// is unchanged.
fn put_run<A: Allocator + Copy>(
    alloc: A,
    form: Form,
    code: &Verified<A>,
    object: Term<A>,
    lines: &mut Vec<u8, A>,
) -> Result<(), AllocError>
    ensures ok { OnOk result (Puts (answers form) (λ object answer.
        answer ≡ answer_of code.now object) object lines.old.items lines.new.items) }
    ensures err { OnErr result (lines.new.items ≡ lines.old.items) }
{
    let (answer, _) = run(alloc, code, &object)?;
    put_answer(form, answer.as_ref(), lines)
}

/// Returns the lines of the outcomes of the terms of `rest`, what is left of `text`, up to a term for which memory runs
/// out. Fails with the first fault of the text, or with `Memory` if memory runs out while it is read.
pub(crate) fn outcome_lines<'t, A: Allocator + Copy>(
    alloc: A,
    form: Form,
    specification: &Spec<A>,
    text: &str,
    rest: &'t str,
) -> Result<Reported<'t, A>, ToolFault>
    ensures ok { IfOk result (λ reported. AreReported (outcomes form) (Means specification.now)
        (chars rest.now) reported.lines.items (option_map (λ s. chars s.now) reported.left)) }
    ensures refused { (ds : List Datum) → Front (chars text.now) ds (chars rest.now)
        → IfErr result (IsUnspelled text.now) }
{
    let mut lines = Vec::new(alloc);
    let mut scratch = Scratch::new(alloc);
    let mut left = rest;
    loop {
        let Some((object, after)) = next_of(alloc, &mut scratch, text, left)? else {
            return Ok(Reported { lines, left: None });
        };
        match put_evaluated(alloc, form, specification, object, &mut lines) {
            Ok(()) => {}
            Err(AllocError) => {
                return Ok(Reported {
                    lines,
                    left: Some(after),
                });
            }
        }
        left = after;
    }
}

/// Appends the line of the outcome of an object: `{ok,A}.` or `false.`. If an allocation fails, `lines` is unchanged.
fn put_evaluated<A: Allocator + Copy>(
    alloc: A,
    form: Form,
    specification: &Spec<A>,
    object: Term<A>,
    lines: &mut Vec<u8, A>,
) -> Result<(), AllocError>
    ensures ok { OnOk result (Puts (outcomes form) (Means specification.now) object
        lines.old.items lines.new.items) }
    ensures err { OnErr result (lines.new.items ≡ lines.old.items) }
{
    let answer = evaluate(alloc, specification, &object)?;
    put_outcome(form, answer.as_ref(), lines)
}

/// Appends the line of an answer, or nothing if it is `None`. If an allocation fails, `lines` is unchanged.
fn put_answer<A: Allocator + Copy>(
    form: Form,
    answer: Option<&Term<A>>,
    lines: &mut Vec<u8, A>,
) -> Result<(), AllocError>
    ensures ok { OnOk result
        (lines.new.items ≡ lines.old.items ++ answer_line form (option_copied answer.entry)) }
    ensures err { OnErr result (lines.new.items ≡ lines.old.items) }
{
    match answer {
        Some(answer) => put_line_in(form, b"", answer, b".\n", lines),
        None => Ok(()),
    }
}

/// Appends the line of an outcome: `{ok,A}.` for an answer `A`, `false.` for `None`. If an allocation fails, `lines` is
/// unchanged.
#[tactic(auto, using(crate::proofs::TextLemmas::outcome_line, crate::proofs::TextLemmas::false_line))]
fn put_outcome<A: Allocator + Copy>(
    form: Form,
    answer: Option<&Term<A>>,
    lines: &mut Vec<u8, A>,
) -> Result<(), AllocError>
    ensures ok { OnOk result
        (lines.new.items ≡ lines.old.items ++ line_in form (outcome_of (option_copied answer.entry))) }
    ensures err { OnErr result (lines.new.items ≡ lines.old.items) }
{
    match answer {
        Some(answer) => put_line_in(form, b"{ok,", answer, b"}.\n", lines),
        None => lines.extend_from_slice(b"false.\n"),
    }
}
