//! Operations at a part that is compared before them and after they are rejected: all that can be seen of it has to be
//! unchanged.
ghost use Rattle.std.specs.Prelude.{◌≡◌, ◌<◌};
ghost use Rattle.part_core.specs.Acts.{IsAsked};
ghost use Rattle.part_core.specs.Ops.{act_of};

use crate::operations::code_of;
use crate::replies::{all_objects, answer_text, reply_text};
use crate::turns::{Turn, answer, ends, wants_memory};
use kit_rows::{Outcome, term_of, word};
use part_core::{Cursor, Fault, Look, Part, PartOp, Reply, Scope};
use std::alloc::{Allocator, Global};
use std::mem;
use verifier::Verified;

/// The maximal number of visits of a walk through a part.
const MOST_VISITS: u32 = 10_000;

/// Returns the code of a specification whose answer on each object is the object.
pub fn watching_code<A: Allocator + Copy>(heap: A) -> Option<Verified<A>> {
    let specification = term_of(heap, b"[{'_',[],['$_']}].")?;
    let code = code_of(heap, &specification);
    drop(specification);
    code
}

/// Returns the result of a visit of all that follows a cursor, or of the part from its beginning.
fn visited_from<A: Allocator + Copy, P: Part<A>>(
    part: &mut P,
    turn: Turn<'_, A>,
    code: &Verified<A>,
    place: Option<&Cursor<A>>,
) -> Result<Reply<A>, Fault>
    requires { turn.session < (P.settings part.old).sessions }
    ensures { P.settings part.new ≡ P.settings part.old }
{
    let scope = match place {
        Some(cursor) => Scope::After(cursor),
        None => Scope::Begin,
    };
    let look = Look {
        code,
        scope,
        wanted: 1,
    };
    let mut op = PartOp::Visit(look);
    let answer = answer(part, turn, &mut op);
    drop(op);
    answer
}

/// Returns the text of what a visit found, or `None` if it was rejected.
fn visit_text<A: Allocator>(alloc: Global, answer: &Result<Reply<A>, Fault>) -> Option<Vec<u8>> {
    match answer {
        Ok(reply) => reply_text(alloc, reply),
        Err(_) => None,
    }
}

/// Returns where a walk goes on after a visit.
fn behind<A: Allocator>(answer: Result<Reply<A>, Fault>) -> Option<Cursor<A>> {
    let mut answer = answer;
    let next = match &mut answer {
        Ok(Reply::Found(_answers, next)) => next.take(),
        _ => None,
    };
    drop(answer);
    next
}

/// Returns the text of what a walk through a part finds, visit by visit.
fn walk_text<A: Allocator + Copy, P: Part<A>>(
    alloc: Global,
    part: &mut P,
    turn: Turn<'_, A>,
    code: &Verified<A>,
) -> Option<Vec<u8>>
    requires { turn.session < (P.settings part.old).sessions }
    ensures { P.settings part.new ≡ P.settings part.old }
{
    let mut out = Outcome::list(alloc);
    let mut place = None;
    for _visit in 0..MOST_VISITS {
        let answer = visited_from(part, turn, code, place.as_ref());
        out = out.part(visit_text(alloc, &answer));
        drop(mem::replace(&mut place, behind(answer)));
        if place.is_none() {
            drop(place);
            return out.end();
        }
    }
    drop(place);
    None
}

/// Returns the text of all that can be seen of a part: its objects, what a walk through it finds, and how many fixes
/// the session has.
fn look<A: Allocator + Copy, P: Part<A>>(
    alloc: Global,
    heap: A,
    part: &mut P,
    turn: Turn<'_, A>,
    code: &Verified<A>,
) -> Option<Vec<u8>>
    requires { turn.session < (P.settings part.old).sessions }
    ensures { P.settings part.new ≡ P.settings part.old }
{
    let objects = all_objects(alloc, heap, part, turn);
    let walk = walk_text(alloc, part, turn, code);
    let fixes = part.fixes(turn.session);
    let out = Outcome::tuple(alloc).part(objects).part(walk);
    out.number(usize::from(fixes)).end()
}

/// Returns the text of the result of an operation that was rejected, and is tried again if it may be. Returns `None` if
/// it runs out of memory each time.
fn again<'a, A: Allocator + Copy, P: Part<A>>(
    alloc: Global,
    part: &mut P,
    turn: Turn<'_, A>,
    fault: Fault,
    op: &mut PartOp<'a, A>,
) -> Option<Vec<u8>>
    requires session { turn.session < (P.settings part.old).sessions }
    requires asked { IsAsked (act_of op.old) }
    ensures { P.settings part.new ≡ P.settings part.old }
{
    let answer = if fault != Fault::Memory || wants_memory(turn, op, fault) {
        answer(part, turn, op)
    } else {
        Err(fault)
    };
    let text = if ends(turn, op, &answer) {
        None
    } else {
        answer_text(alloc, &answer)
    };
    drop(answer);
    text
}

/// Returns the text of the result of an operation; `changed` if it is rejected and the part is not as it was before.
pub(crate) fn watched<'a, A: Allocator + Copy, P: Part<A>>(
    alloc: Global,
    heap: A,
    part: &mut P,
    turn: Turn<'_, A>,
    code: &Verified<A>,
    op: &mut PartOp<'a, A>,
) -> Option<Vec<u8>>
    requires session { turn.session < (P.settings part.old).sessions }
    requires asked { IsAsked (act_of op.old) }
    ensures { P.settings part.new ≡ P.settings part.old }
{
    let before = look(alloc, heap, part, turn, code)?;
    match part.apply(turn.session, op) {
        Ok(reply) => {
            let text = reply_text(alloc, &reply);
            drop(reply);
            text
        }
        Err(fault) => {
            let behind = look(alloc, heap, part, turn, code)?;
            if behind.as_slice() == before.as_slice() {
                again(alloc, part, turn, fault, op)
            } else {
                word(alloc, "changed")
            }
        }
    }
}
