//! Rows that are run once with memory and again with each allocation failing in turn, alone and together with all later
//! ones.
use kit_alloc::Failing;
use kit_parts::{
    Options, Setting, Wants, byte, kind_of, made, open_fault_text, steps_text, watching_code,
};
use kit_rows::{elements, short, was_ok, word, written};
use part_core::{OpenFault, Part, TableKind};
use part_hash::HashPart;
use part_order::OrderPart;
use part_plain::PlainPart;
use std::alloc::{Allocator, Global};
use term_core::Term;
use term_text::read_terms;
use verifier::Verified;

/// With memory, and with each allocation failing in turn.
const FORMS: usize = 2;

/// Returns the number of forms in which a row is run: those of sets and bags at a plain part, and then at a hashed one.
pub(crate) fn forms(kind: &str) -> usize {
    if at_hashed(kind) == kind {
        FORMS
    } else {
        2 * FORMS
    }
}

/// Returns the name of a row's kind for a hashed part.
fn at_hashed(kind: &str) -> &str {
    match kind {
        "set" => "hashed_set",
        "bag" => "hashed_bag",
        "duplicate_bag" => "hashed_duplicate_bag",
        "watched_set" => "watched_hashed_set",
        "watched_bag" => "watched_hashed_bag",
        "watched_duplicate_bag" => "watched_hashed_duplicate_bag",
        "make_set" => "make_hashed_set",
        _ => kind,
    }
}

/// How a row is run.
#[derive(Clone, Copy)]
struct Form<'w> {
    /// Whether allocations may fail, and how many calls ran out of memory.
    wants: &'w Wants,
    /// The part is compared before each operation and after those that are rejected.
    is_watched: bool,
}

/// Makes a part and the steps of a row. Returns the text of the steps with the replies that came, or of the fault if
/// the part can't be made.
fn played_with<'w, A: Allocator + Copy, P: Part<A> + Drop>(
    alloc: Global,
    heap: A,
    options: Options,
    wants: &'w Wants,
    watch: Option<&'w Verified<A>>,
    steps: &[Term<A>],
) -> Option<Vec<u8>> {
    let setting = Setting {
        sessions: options.sessions,
        wants,
        watch,
    };
    match made::<A, P>(heap, options, wants) {
        Ok(mut part) => {
            let steps = steps_text(alloc, heap, &mut part, &setting, steps);
            drop(part);
            steps
        }
        Err(fault) => open_fault_text(alloc, fault, wants),
    }
}

/// Makes a part and the steps of a row, with the code for comparing the part if that is needed. Returns the text of the
/// steps with the replies that came, or of the fault if the part can't be made.
fn played<A: Allocator + Copy, P: Part<A> + Drop>(
    alloc: Global,
    heap: A,
    options: Options,
    form: Form<'_>,
    steps: &[Term<A>],
) -> Option<Vec<u8>> {
    if form.is_watched {
        let code = watching_code(heap)?;
        let text = played_with::<A, P>(alloc, heap, options, form.wants, Some(&code), steps);
        drop(code);
        text
    } else {
        played_with::<A, P>(alloc, heap, options, form.wants, None, steps)
    }
}

/// Returns the text of the result of making a part.
fn made_text<A: Allocator + Copy, P: Part<A> + Drop>(
    alloc: Global,
    heap: A,
    options: Options,
    wants: &Wants,
) -> Option<Vec<u8>> {
    match made::<A, P>(heap, options, wants) {
        Ok(part) => {
            drop(part);
            word(alloc, "done")
        }
        Err(fault) => open_fault_text(alloc, fault, wants),
    }
}

/// Returns the result of a row of steps at a part that supports a kind.
fn steps_row<A: Allocator + Copy, P: Part<A> + Drop>(
    alloc: Global,
    heap: A,
    kind: TableKind,
    row: &[Term<A>],
    form: Form<'_>,
) -> Option<Vec<u8>> {
    let [keypos, parts, sessions, steps] = row else {
        return None;
    };
    let options = Options {
        kind,
        keypos: short(keypos)?,
        parts: byte(parts)?,
        sessions: byte(sessions)?,
    };
    played::<A, P>(alloc, heap, options, form, elements(steps)?)
}

/// Returns the result of a row of options for a part.
fn options_row<A: Allocator + Copy, P: Part<A> + Drop>(
    alloc: Global,
    heap: A,
    row: &[Term<A>],
    wants: &Wants,
) -> Option<Vec<u8>> {
    let [kind, keypos, parts, sessions, _wanted] = row else {
        return None;
    };
    let options = Options {
        kind: kind_of(kind)?,
        keypos: short(keypos)?,
        parts: byte(parts)?,
        sessions: byte(sessions)?,
    };
    made_text::<A, P>(alloc, heap, options, wants)
}

/// The part that runs a row of steps.
#[derive(Clone, Copy)]
enum Place {
    /// A plain part of a kind.
    Plain(TableKind),
    /// A hashed part of a kind.
    Hashed(TableKind),
    /// A part of an ordered set.
    Ordered,
}

/// Returns the part that the call of a row of steps names.
fn place_of(call: &str) -> Option<Place> {
    match call {
        "set" => Some(Place::Plain(TableKind::Set)),
        "bag" => Some(Place::Plain(TableKind::Bag)),
        "duplicate_bag" => Some(Place::Plain(TableKind::DuplicateBag)),
        "hashed_set" => Some(Place::Hashed(TableKind::Set)),
        "hashed_bag" => Some(Place::Hashed(TableKind::Bag)),
        "hashed_duplicate_bag" => Some(Place::Hashed(TableKind::DuplicateBag)),
        "ordered_set" => Some(Place::Ordered),
        _ => None,
    }
}

/// Returns the part that the call of a row of steps names, and whether the part is compared.
fn play_of(call: &str) -> Option<(Place, bool)> {
    match call.strip_prefix("watched_") {
        Some(kind) => Some((place_of(kind)?, true)),
        None => Some((place_of(call)?, false)),
    }
}

/// Returns the result of a row of steps at a part.
fn played_at<A: Allocator + Copy>(
    alloc: Global,
    heap: A,
    place: Place,
    row: &[Term<A>],
    form: Form<'_>,
) -> Option<Vec<u8>> {
    match place {
        Place::Plain(kind) => steps_row::<A, PlainPart<A>>(alloc, heap, kind, row, form),
        Place::Hashed(kind) => steps_row::<A, HashPart<A>>(alloc, heap, kind, row, form),
        Place::Ordered => {
            steps_row::<A, OrderPart<A>>(alloc, heap, TableKind::OrderedSet, row, form)
        }
    }
}

/// Returns the result of a row, given its call, which names the part that runs it.
fn outcome_of_row<A: Allocator + Copy>(
    alloc: Global,
    heap: A,
    call: &str,
    row: &[Term<A>],
    wants: &Wants,
) -> Option<Vec<u8>> {
    match call {
        "make_set" => options_row::<A, PlainPart<A>>(alloc, heap, row, wants),
        "make_hashed_set" => options_row::<A, HashPart<A>>(alloc, heap, row, wants),
        "make_ordered_set" => options_row::<A, OrderPart<A>>(alloc, heap, row, wants),
        _ => {
            let (place, is_watched) = play_of(call)?;
            let form = Form { wants, is_watched };
            played_at(alloc, heap, place, row, form)
        }
    }
}

/// Returns the result of the row that a text spells, or `None` if memory runs out while it is read.
fn outcome_of<A: Allocator + Copy>(
    alloc: Global,
    heap: A,
    call: &str,
    given: &[u8],
    wants: &Wants,
) -> Option<Vec<u8>> {
    let Ok(row) = read_terms(heap, given) else {
        return None;
    };
    let out = outcome_of_row(alloc, heap, call, row.as_slice(), wants);
    drop(row);
    out
}

/// The maximal number of allocations of one row after its text has been read.
const MOST_REQUESTS: u64 = 20_000;

/// Returns the number of allocations that reading a row's text takes.
fn requests_to_read(alloc: Global, given: &[u8]) -> Option<u64> {
    let heap = Failing::counting(alloc);
    if was_ok(read_terms(&heap, given)) {
        Some(heap.requests())
    } else {
        None
    }
}

/// The number of bytes from which on a row counts as long.
const LONG: usize = 4_000;

/// Which allocations fail in a run of a row.
#[derive(Clone, Copy)]
enum Refusals {
    /// One allocation alone.
    Alone,
    /// One allocation and all later ones.
    Onward,
}

impl Refusals {
    /// Returns an allocator of which the allocation with this number fails, as the first.
    fn heap(self, alloc: Global, request: u64) -> Failing<Global> {
        match self {
            Refusals::Alone => Failing::refusing_nth(alloc, request),
            Refusals::Onward => Failing::refusing_from(alloc, request),
        }
    }

    /// Returns the distance between the first failing allocations of two runs of a row: 3 for long rows with all later
    /// ones failing, to save time, else 1.
    fn stride(self, given: &[u8]) -> u64 {
        match self {
            Refusals::Alone => 1,
            Refusals::Onward => { if given.len() > LONG { 3 } else { 1 } }
        }
    }

    /// Returns how many calls may run out of memory in a row that runs to its end: 1 if one allocation fails alone,
    /// since an operation is then tried again.
    fn most_wants(self) -> u64 {
        match self {
            Refusals::Alone => 1,
            Refusals::Onward => 0,
        }
    }

    /// Returns how many calls may run out of memory in a row that ends early: none if one allocation fails alone, since
    /// the row then ends only if an operation can't be read.
    fn most_wants_at_end(self) -> u64 {
        match self {
            Refusals::Alone => 0,
            Refusals::Onward => u64::MAX,
        }
    }
}

/// Returns whether a row over a failing allocator has the wanted result, or ran out of memory after an allocation
/// failed. In each case no block may be left allocated.
fn is_right(
    alloc: Global,
    refusals: Refusals,
    heap: &Failing<Global>,
    call: &str,
    given: &[u8],
    wanted: &[u8],
) -> bool {
    let wants = Wants::new(true);
    let is_right = match outcome_of(alloc, heap, call, given, &wants) {
        Some(out) => out.as_slice() == wanted && wants.count() <= refusals.most_wants(),
        None => heap.was_refused() && wants.count() <= refusals.most_wants_at_end(),
    };
    is_right && heap.blocks() == 0
}

/// Returns whether `is_right` is true with each allocation failing in turn after the first ones, with the distance of
/// the stride.
fn is_swept(
    alloc: Global,
    refusals: Refusals,
    call: &str,
    given: &[u8],
    first: u64,
    wanted: &[u8],
) -> bool {
    let stride = refusals.stride(given);
    for run in 1..MOST_REQUESTS {
        let request = first.saturating_add(stride.saturating_mul(run));
        let heap = refusals.heap(alloc, request);
        if !is_right(alloc, refusals, &heap, call, given, wanted) {
            return false;
        }
        if !heap.was_refused() {
            return true;
        }
    }
    false
}

/// Returns the result of a row, with memory and with each allocation failing in turn after those that read it, alone
/// and together with all later ones; `another_without_memory` if the results differ.
fn swept(alloc: Global, call: &str, given: &[u8]) -> Option<Vec<u8>> {
    let out = outcome_of(alloc, alloc, call, given, &Wants::new(false))?;
    let first = requests_to_read(alloc, given)?;
    if is_swept(alloc, Refusals::Alone, call, given, first, out.as_slice())
        && is_swept(alloc, Refusals::Onward, call, given, first, out.as_slice())
    {
        Some(out)
    } else {
        word(alloc, "another_without_memory")
    }
}

/// Returns the result of a row in one of the forms.
pub(crate) fn came(alloc: Global, kind: &str, parts: &[Term], forms: usize) -> Option<Vec<u8>> {
    let given = written(alloc, parts)?;
    let call = if forms < FORMS { kind } else { at_hashed(kind) };
    if forms % FORMS == 0 {
        outcome_of(alloc, alloc, call, given.as_slice(), &Wants::new(false))
    } else {
        swept(alloc, call, given.as_slice())
    }
}
