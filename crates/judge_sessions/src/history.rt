//! Histories that rows give: what sessions recorded and what is left, as terms, instead of those of a run.
use crate::event::Event;
use crate::judge::judge;
use crate::keys::Object;
use crate::runs::put_all_left;
use crate::walking::{record_piece, record_whole};
use crate::worker::Worker;
use crate::wrong::Failure;
use kit_rows::{elements, fields, is_atom, name, number, was_ok};
use part_core::TableKind;
use std::alloc::Global;
use term_core::Term;

/// Returns the truth value that a term is, or `None`.
fn truth(term: &Term) -> Option<bool> {
    if is_atom(term, "true") {
        Some(true)
    } else if is_atom(term, "false") {
        Some(false)
    } else {
        None
    }
}

/// Records an entry that is a word.
fn record_word(worker: &mut Worker, word: &str) -> Option<()> {
    let event = match word {
        "fix" => Event::Fixed,
        "walk_begins" => Event::Begun,
        "walk_ends" => Event::Ended,
        _ => return None,
    };
    worker.record(event)
}

/// Returns the event of a call with an object, or `None`.
fn event_of(call: &str, object: Object) -> Option<Event> {
    match call {
        "insert" => Some(Event::Put(object)),
        "insert_again" => Some(Event::PutAgain(object)),
        "delete_object" => Some(Event::DeletedObject(object)),
        _ => None,
    }
}

/// Returns the event of a call with a number, or `None`.
fn event_at(call: &str, number: u32) -> Option<Event> {
    match call {
        "delete" => Some(Event::Deleted(number)),
        "next" => Some(Event::Met(number)),
        "count_own" => Some(Event::Counted(u64::from(number))),
        "count_all" => Some(Event::CountedAll(u64::from(number))),
        "delete_counted" => Some(Event::Cleared(u64::from(number))),
        _ => None,
    }
}

/// Returns the event of a call with a truth value, or `None`.
fn event_so(call: &str, done: bool) -> Option<Event> {
    match call {
        "unfix" => Some(Event::Unfixed(done)),
        _ => None,
    }
}

/// Records a piece of a walk, or a whole walk that was made at once.
fn record_objects(worker: &mut Worker, call: &str, objects: &[Term]) -> Option<()> {
    match call {
        "piece" => record_piece(worker, objects),
        "select" => record_whole(worker, objects),
        _ => None,
    }
}

/// Records a call with its operand or its answer.
fn record_call(worker: &mut Worker, call: &str, of: &Term) -> Option<()> {
    if let Some(objects) = elements(of) {
        return record_objects(worker, call, objects);
    }
    let event = if let Some(number) = number(of) {
        event_at(call, number)
    } else if let Some(object) = Object::of_term(of) {
        event_of(call, object)
    } else if let Some(done) = truth(of) {
        event_so(call, done)
    } else {
        None
    };
    worker.record(event?)
}

/// Records what was found at a key, or taken there.
fn record_list(worker: &mut Worker, call: &str, key: u32, objects: &[Term]) -> Option<()> {
    match call {
        "lookup" => worker.record_found(key, objects),
        "take" => worker.record_taken(key, objects),
        _ => None,
    }
}

/// Records a call with an operand that is a number, and its answer.
fn record_answer_at(worker: &mut Worker, call: &str, of: u32, answer: &Term) -> Option<()> {
    if let Some(objects) = elements(answer) {
        return record_list(worker, call, of, objects);
    }
    let event = match (call, number(answer), truth(answer)) {
        ("delete_own", Some(count), _) => Some(Event::Removed(of, u64::from(count))),
        ("member", _, Some(there)) => Some(Event::Asked(of, there)),
        _ => None,
    };
    worker.record(event?)
}

/// Records a call with its operand and its answer.
fn record_answer(worker: &mut Worker, call: &str, of: &Term, answer: &Term) -> Option<()> {
    if let Some(number) = number(of) {
        return record_answer_at(worker, call, number, answer);
    }
    match (call, Object::of_term(of), truth(answer)) {
        ("insert_new", Some(object), Some(fresh)) => worker.record(Event::PutNew(object, fresh)),
        _ => None,
    }
}

/// Records an entry. Returns `None` if it is none or memory runs out.
fn record_entry(alloc: Global, worker: &mut Worker, entry: &Term) -> Option<()> {
    let parts = fields(entry);
    let word = match parts {
        Some(parts) => name(alloc, parts.first()?)?,
        None => name(alloc, entry)?,
    };
    let recorded = match parts {
        Some([_, of]) => record_call(worker, word.as_str(), of),
        Some([_, of, answer]) => record_answer(worker, word.as_str(), of, answer),
        Some(_) => None,
        None => record_word(worker, word.as_str()),
    };
    drop(word);
    recorded
}

/// Records these entries.
fn record_entries(alloc: Global, worker: &mut Worker, entries: &[Term]) -> Option<()> {
    for entry in entries {
        record_entry(alloc, worker, entry)?;
    }
    Some(())
}

/// Appends a session that recorded a list of entries.
fn put_session(
    alloc: Global,
    holds_many: bool,
    entries: &Term,
    workers: &mut Vec<Worker>,
) -> Option<()> {
    let number = u8::try_from(workers.len()).ok()?;
    let entries = elements(entries)?;
    let mut worker = Worker::new(alloc, 0, number, holds_many);
    let recorded = record_entries(alloc, &mut worker, entries);
    if was_ok(workers.push(worker)) {
        recorded
    } else {
        None
    }
}

/// Appends the sessions that recorded these lists of entries.
fn put_sessions(
    alloc: Global,
    holds_many: bool,
    sessions: &[Term],
    workers: &mut Vec<Worker>,
) -> Option<()> {
    for entries in sessions {
        put_session(alloc, holds_many, entries, workers)?;
    }
    Some(())
}

/// Appends the objects that are left in these parts.
fn put_left_of(parts: &[Term], left: &mut Vec<Object>) -> Result<(), Failure> {
    let count = u8::try_from(parts.len()).unwrap_or(u8::MAX);
    let mut number: u8 = 0;
    for part in parts {
        let Some(objects) = elements(part) else {
            return Err(Failure::Refused);
        };
        put_all_left(objects, number, count, left)?;
        number = number.saturating_add(1);
    }
    Ok(())
}

/// Judges what sessions recorded and what is left in parts.
fn judged_left(
    alloc: Global,
    kind: TableKind,
    workers: &[Worker],
    parts: &[Term],
) -> Result<(), Failure> {
    let mut left = Vec::new(alloc);
    let judged = match put_left_of(parts, &mut left) {
        Ok(()) => judge(alloc, kind, workers, left.as_slice()),
        Err(failure) => Err(failure),
    };
    drop(left);
    judged
}

/// Judges a history in the way that a run is judged. Returns `None` if its sessions can't be read.
pub(crate) fn judged_history(
    alloc: Global,
    kind: TableKind,
    sessions: &[Term],
    parts: &[Term],
) -> Option<Result<(), Failure>> {
    let mut workers = Vec::new(alloc);
    let judged = match put_sessions(alloc, !kind.is_set(), sessions, &mut workers) {
        Some(()) => Some(judged_left(alloc, kind, workers.as_slice(), parts)),
        None => None,
    };
    drop(workers);
    judged
}
