//! The steps of a row, one after the other.
ghost use Rattle.std.specs.Prelude.{◌≡◌, ◌<◌};
ghost use Rattle.part_core.specs.Acts.{IsAsked};
ghost use Rattle.part_core.specs.Ops.{act_of};

use crate::operations::{
    bare, byte, code_of, cursor_of, keyed, name_of, scope_of, visit, wanted_of,
};
use crate::replies::{all_objects, answer_text};
use crate::turns::{Turn, Wants, answer, ends};
use crate::watching::watched;
use kit_rows::{Outcome, canonical, fields, is_atom, number};
use part_core::{Part, PartOp, Scope};
use std::alloc::{Allocator, Global};
use term_core::Term;
use verifier::Verified;

/// Returns the text of the result of an operation, or `None` if it runs out of memory each time.
fn came_of<'w, 'a, A: Allocator + Copy, P: Part<A>>(
    alloc: Global,
    heap: A,
    part: &mut P,
    turn: Turn<'w, A>,
    mut op: PartOp<'a, A>,
) -> Option<Vec<u8>>
    requires session { turn.session < (P.settings part.old).sessions }
    requires asked { IsAsked (act_of op) }
    ensures { P.settings part.new ≡ P.settings part.old }
{
    match turn.watch {
        Some(code) => {
            let text = watched(alloc, heap, part, turn, code, &mut op);
            drop(op);
            text
        }
        None => {
            let answer = answer(part, turn, &mut op);
            let text = if ends(turn, &op, &answer) {
                None
            } else {
                answer_text(alloc, &answer)
            };
            drop(op);
            drop(answer);
            text
        }
    }
}

/// Returns the text of the result of the visit with this name by code, in a scope.
fn visited_in<'w, 'a, A: Allocator + Copy, P: Part<A>>(
    alloc: Global,
    heap: A,
    part: &mut P,
    turn: Turn<'w, A>,
    name: &str,
    code: &'a Verified<A>,
    scope: Scope<'a, A>,
    wanted: u64,
) -> Option<Vec<u8>>
    requires session { turn.session < (P.settings part.old).sessions }
    requires wanted { 0 < wanted }
    ensures { P.settings part.new ≡ P.settings part.old }
{
    came_of(alloc, heap, part, turn, visit(name, code, scope, wanted)?)
}

/// Returns the text of the result of the visit with this name by the code of a specification, in a scope.
fn visited_by<A: Allocator + Copy, P: Part<A>>(
    alloc: Global,
    heap: A,
    part: &mut P,
    turn: Turn<'_, A>,
    name: &str,
    specification: &Term<A>,
    scope: Scope<'_, A>,
    wanted: u64,
) -> Option<Vec<u8>>
    requires session { turn.session < (P.settings part.old).sessions }
    requires wanted { 0 < wanted }
    ensures { P.settings part.new ≡ P.settings part.old }
{
    let code = code_of(heap, specification)?;
    let came = visited_in(alloc, heap, part, turn, name, &code, scope, wanted);
    drop(code);
    came
}

/// Returns the text of the result of the visit that a term describes: its name, a specification, a place and the number
/// of answers requested.
fn visited<A: Allocator + Copy, P: Part<A>>(
    alloc: Global,
    heap: A,
    part: &mut P,
    turn: Turn<'_, A>,
    op: &[Term<A>],
) -> Option<Vec<u8>>
    requires { turn.session < (P.settings part.old).sessions }
    ensures { P.settings part.new ≡ P.settings part.old }
{
    let [tag, specification, place, wanted] = op else {
        return None;
    };
    let name = name_of(tag)?;
    let wanted = wanted_of(wanted)?;
    let cursor = cursor_of(place);
    let came = match scope_of(place, cursor.as_ref()) {
        Some(scope) => visited_by(alloc, heap, part, turn, name, specification, scope, wanted),
        None => None,
    };
    drop(cursor);
    came
}

/// Returns the text of the result of the operation with this name, if it is one that needs nothing else.
fn came_of_bare<A: Allocator + Copy, P: Part<A>>(
    alloc: Global,
    heap: A,
    part: &mut P,
    turn: Turn<'_, A>,
    name: &str,
) -> Option<Vec<u8>>
    requires { turn.session < (P.settings part.old).sessions }
    ensures { P.settings part.new ≡ P.settings part.old }
{
    match bare(name) {
        Some(op) => came_of(alloc, heap, part, turn, op),
        None => None,
    }
}

/// Returns the text of the result of the operation with this name on an object or a key.
fn came_of_keyed<A: Allocator + Copy, P: Part<A>>(
    alloc: Global,
    heap: A,
    part: &mut P,
    turn: Turn<'_, A>,
    name: &str,
    operand: &Term<A>,
) -> Option<Vec<u8>>
    requires { turn.session < (P.settings part.old).sessions }
    ensures { P.settings part.new ≡ P.settings part.old }
{
    match keyed(name, operand) {
        Some(op) => came_of(alloc, heap, part, turn, op),
        None => None,
    }
}

/// Returns the text of the result of the operation that a term describes.
fn came<A: Allocator + Copy, P: Part<A>>(
    alloc: Global,
    heap: A,
    part: &mut P,
    turn: Turn<'_, A>,
    op: &Term<A>,
) -> Option<Vec<u8>>
    requires { turn.session < (P.settings part.old).sessions }
    ensures { P.settings part.new ≡ P.settings part.old }
{
    if is_atom(op, "objects") {
        return all_objects(alloc, heap, part, turn);
    }
    match fields(op) {
        None => came_of_bare(alloc, heap, part, turn, name_of(op)?),
        Some([tag, operand]) => came_of_keyed(alloc, heap, part, turn, name_of(tag)?, operand),
        Some(op) => visited(alloc, heap, part, turn, op),
    }
}

/// The conditions for a row: the number of sessions, what counts the calls that run out of memory, and whether the part
/// is compared.
#[derive(Drop)]
pub struct Setting<'w, A: Allocator + Copy> {
    /// The number of sessions that use the part, numbered from 0.
    pub sessions: u8,
    /// Whether allocations may fail, and how many calls ran out of memory.
    pub wants: &'w Wants,
    /// The code with which the part is visited to compare it, if operations that are rejected must leave it unchanged.
    pub watch: Option<&'w Verified<A>>,
}

/// Returns the text of a step with the reply that came, or `None` if it is no step.
fn step_once<A: Allocator + Copy, P: Part<A>>(
    alloc: Global,
    heap: A,
    part: &mut P,
    setting: &Setting<'_, A>,
    step: &Term<A>,
) -> Option<Vec<u8>>
    requires { (P.settings part.old).sessions ≡ setting.now.sessions }
    ensures { P.settings part.new ≡ P.settings part.old }
{
    let [session, op, _reply] = fields(step)? else {
        return None;
    };
    let session = byte(session)?;
    if setting.sessions <= session {
        return None;
    }
    let turn = Turn {
        session,
        wants: setting.wants,
        watch: setting.watch,
    };
    let reply = came(alloc, heap, part, turn, op);
    let out = Outcome::tuple(alloc).number(usize::from(session)).term(op);
    out.part(reply).end()
}

/// Makes a step `count` times, up to the first time that its reply is not the expected one. Returns the text of a pair:
/// how many times the reply was the expected one, and the step with the reply that came.
fn step_often<A: Allocator + Copy, P: Part<A>>(
    alloc: Global,
    heap: A,
    part: &mut P,
    setting: &Setting<'_, A>,
    count: u32,
    step: &Term<A>,
) -> Option<Vec<u8>>
    requires { (P.settings part.old).sessions ≡ setting.now.sessions }
    ensures { P.settings part.new ≡ P.settings part.old }
{
    let wanted = canonical(alloc, step)?;
    for done in 0..count {
        let came = step_once(alloc, heap, part, setting, step)?;
        if came.as_slice() != wanted.as_slice() {
            let out = Outcome::tuple(alloc).number(done as usize);
            return out.text(came.as_slice()).end();
        }
    }
    let out = Outcome::tuple(alloc).number(count as usize);
    out.text(wanted.as_slice()).end()
}

/// Makes a step, or `{Count,Step}` that many times, and returns the text of it with the reply that came.
fn step_text<A: Allocator + Copy, P: Part<A>>(
    alloc: Global,
    heap: A,
    part: &mut P,
    setting: &Setting<'_, A>,
    step: &Term<A>,
) -> Option<Vec<u8>>
    requires { (P.settings part.old).sessions ≡ setting.now.sessions }
    ensures { P.settings part.new ≡ P.settings part.old }
{
    match fields(step)? {
        [count, step] => step_often(alloc, heap, part, setting, number(count)?, step),
        _ => step_once(alloc, heap, part, setting, step),
    }
}

/// Makes the steps of a row, and returns the text of them, each with the reply that came.
pub fn steps_text<A: Allocator + Copy, P: Part<A>>(
    alloc: Global,
    heap: A,
    part: &mut P,
    setting: &Setting<'_, A>,
    steps: &[Term<A>],
) -> Option<Vec<u8>>
    requires { (P.settings part.old).sessions ≡ setting.now.sessions }
{
    let mut out = Outcome::list(alloc);
    for step in steps {
        out = out.text(step_text(alloc, heap, part, setting, step)?.as_slice());
    }
    out.end()
}
