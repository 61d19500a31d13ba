//! What a part returns, as a text.
use crate::turns::{Turn, Wants, objects};
use kit_rows::{Outcome, listed, numbered, tagged, truth_name, word};
use part_core::{Cursor, Fault, OpenFault, Part, Reply};
use std::alloc::{Allocator, Global};
use term_core::Term;

/// The text of the end of a walk or of the keys.
const END: &str = "'end'";

/// Returns the text of a cursor: `{class,Base,Class}` or `{behind,Key}`.
fn cursor_text<A: Allocator>(alloc: Global, cursor: &Cursor<A>) -> Option<Vec<u8>> {
    match cursor {
        Cursor::Class { base, class } => {
            let out = Outcome::tuple(alloc).word("class");
            out.number(*base as usize).number(*class as usize).end()
        }
        Cursor::Behind(key) => tagged(alloc, "behind", key),
    }
}

/// Returns the text of where a walk goes on: a cursor or the end.
fn next_text<A: Allocator>(alloc: Global, next: Option<&Cursor<A>>) -> Option<Vec<u8>> {
    match next {
        Some(cursor) => cursor_text(alloc, cursor),
        None => word(alloc, END),
    }
}

/// Returns the text of `{objects,[Object]}`.
fn objects_text<A: Allocator>(alloc: Global, objects: &[Term<A>]) -> Option<Vec<u8>> {
    let out = Outcome::tuple(alloc).word("objects");
    out.part(listed(alloc, objects)).end()
}

/// Returns the text of all objects of a part, or `None` if memory runs out.
pub(crate) fn all_objects<A: Allocator + Copy, P: Part<A>>(
    alloc: Global,
    heap: A,
    part: &P,
    turn: Turn<'_, A>,
) -> Option<Vec<u8>> {
    let objects = objects(heap, part, turn)?;
    let text = objects_text(alloc, objects.as_slice());
    drop(objects);
    text
}

/// Returns the text of the answers that a visit found, and of where the walk goes on.
fn found_text<A: Allocator>(
    alloc: Global,
    answers: &[Term<A>],
    next: Option<&Cursor<A>>,
) -> Option<Vec<u8>> {
    let out = Outcome::tuple(alloc).word("found");
    let out = out.part(listed(alloc, answers));
    out.part(next_text(alloc, next)).end()
}

/// Returns the text of how many objects a visit counted or deleted, and of where the walk goes on.
fn counted_text<A: Allocator>(
    alloc: Global,
    count: u64,
    next: Option<&Cursor<A>>,
) -> Option<Vec<u8>> {
    let out = Outcome::tuple(alloc).word("counted");
    let out = out.number(count as usize);
    out.part(next_text(alloc, next)).end()
}

/// Returns the text of a key, or of the end.
fn key_text<A: Allocator>(alloc: Global, key: Option<&Term<A>>) -> Option<Vec<u8>> {
    match key {
        Some(key) => tagged(alloc, "at", key),
        None => word(alloc, END),
    }
}

/// Returns the text of a reply.
pub(crate) fn reply_text<A: Allocator>(alloc: Global, reply: &Reply<A>) -> Option<Vec<u8>> {
    match reply {
        Reply::Done => word(alloc, "done"),
        Reply::Flag(value) => word(alloc, truth_name(*value)),
        Reply::Objects(objects) => objects_text(alloc, objects.as_slice()),
        Reply::AtKey(key) => key_text(alloc, key.as_ref()),
        Reply::Found(answers, next) => found_text(alloc, answers.as_slice(), next.as_ref()),
        Reply::Counted(count, next) => counted_text(alloc, *count, next.as_ref()),
    }
}

/// Returns the text of the result of an operation: a reply or an error code.
pub(crate) fn answer_text<A: Allocator>(
    alloc: Global,
    answer: &Result<Reply<A>, Fault>,
) -> Option<Vec<u8>> {
    match answer {
        Ok(reply) => reply_text(alloc, reply),
        Err(fault) => numbered(alloc, "error", usize::from(fault.number())),
    }
}

/// Returns the text of why a part was not made. Returns `None` if memory ran out and allocations may fail, which is
/// then counted.
pub fn open_fault_text(alloc: Global, fault: OpenFault, wants: &Wants) -> Option<Vec<u8>> {
    if fault == OpenFault::Memory && wants.note() {
        return None;
    }
    numbered(alloc, "error", usize::from(fault.number()))
}
