//! Objects inserted with each allocation failing in turn, at tables on one thread and at tables with gates. They are
//! inserted one after the other until the slots of a part have doubled and beyond. An object that is rejected is
//! returned unchanged, and the table is unchanged, which is checked before the insertion is tried again.
ghost use Rattle.std.specs.Prelude.{◌≡◌, ◌<◌, length};

use crate::trials::{Act, Home, Sort, Trial, is_swept};
use kit_alloc::{Failing, Plan};
use kit_rows::{canonical, elements, fields, number, term_of};
use part_core::{Fault, TableKind};
use std::alloc::{Allocator, Global};
use std::sync::Wait;
use tables::{Turns, delete_object, insert, insert_new, lookup, member};
use term_core::{Refused, Term};

/// The number of keys: the 8 slots of a part double when a row is added to 32.
const KEYS: u32 = 36;

/// The objects `{{Key},Mark}`, whose keys need memory: one of each key, and then three more of each of two keys, of
/// which the last equals the first.
const OBJECTS: &[u8] =
    b"[{{0},0},{{1},0},{{2},0},{{3},0},{{4},0},{{5},0},{{6},0},{{7},0},{{8},0},{{9},0},{{10},0},
    {{11},0},{{12},0},{{13},0},{{14},0},{{15},0},{{16},0},{{17},0},{{18},0},{{19},0},{{20},0},
    {{21},0},{{22},0},{{23},0},{{24},0},{{25},0},{{26},0},{{27},0},{{28},0},{{29},0},{{30},0},
    {{31},0},{{32},0},{{33},0},{{34},0},{{35},0},{{0},1},{{0},2},{{0},1},{{1},1},{{1},2},{{1},1}].";

/// The call by which objects are inserted.
#[derive(Clone, Copy)]
pub(crate) enum Call {
    Insert,
    InsertNew,
}

/// The result of inserting an object.
#[derive(Clone, Copy)]
enum Came {
    /// The result is right; if the object was rejected, that of the second attempt.
    Right,
    /// The object was rejected, all later allocations fail, and the table is unchanged.
    Kept,
    Wrong,
}

/// What a table of a kind has to contain once `count` of the objects were inserted by a call.
#[derive(Clone, Copy)]
struct Held {
    kind: TableKind,
    call: Call,
    count: u32,
}

impl Held {
    /// Returns how many objects of a key were inserted.
    fn puts(self, key: u32) -> u32 {
        if self.count <= key {
            return 0;
        }
        let first = KEYS.saturating_add(key.saturating_mul(3));
        let more = self.count.saturating_sub(first);
        if more < 3 { more + 1 } else { 4 }
    }

    /// Returns whether a key has an object.
    fn has(self, key: u32) -> bool {
        self.puts(key) != 0
    }

    /// Returns the marks of a key's objects, in the order of insertion.
    fn marks(self, key: u32) -> &'static str {
        let puts = match self.call {
            Call::Insert => self.puts(key),
            Call::InsertNew => u32::from(self.has(key)),
        };
        marks_of(self.kind, puts)
    }

    /// Returns what the call has to return for one more object of a key: whether it is inserted.
    fn answer(self, key: u32) -> bool {
        match self.call {
            Call::Insert => true,
            Call::InsertNew => !self.has(key),
        }
    }
}

/// Returns the marks of the objects that a table of a kind has after `puts` insertions of a key: the last of a set, and
/// of a bag those that equal none before.
fn marks_of(kind: TableKind, puts: u32) -> &'static str {
    match kind {
        TableKind::Set | TableKind::OrderedSet => match puts {
            0 => "",
            1 => "0",
            3 => "2",
            _ => "1",
        },
        TableKind::Bag => match puts {
            0 => "",
            1 => "0",
            2 => "01",
            _ => "012",
        },
        TableKind::DuplicateBag => match puts {
            0 => "",
            1 => "0",
            2 => "01",
            3 => "012",
            _ => "0121",
        },
    }
}

/// Returns the number in a key.
fn number_of<A: Allocator>(key: &Term<A>) -> Option<u32> {
    match fields(key)? {
        [only] => number(only),
        _ => None,
    }
}

/// Returns the number in the key of an object, and the mark.
fn numbers_of<A: Allocator>(object: &Term<A>) -> Option<(u32, u32)> {
    match fields(object)? {
        [key, mark] => Some((number_of(key)?, number(mark)?)),
        _ => None,
    }
}

/// Returns whether these are the objects of a key with these marks.
fn are_marked<A: Allocator>(objects: &[Term<A>], key: u32, marks: &[u8]) -> bool {
    for (object, mark) in objects.iter().zip(marks) {
        let mark = u32::from(*mark).saturating_sub(u32::from(b'0'));
        if numbers_of(object) != Some((key, mark)) {
            return false;
        }
    }
    objects.len() == marks.len()
}

/// Returns whether a look-up gives what the table has to contain of a key, or `None` if memory runs out.
fn is_found<A: Allocator, T: Turns<A>>(turns: &mut T, key: &Term<A>, held: Held) -> Option<bool>
    requires { T.is_ready turns.old }
    ensures ready { T.is_ready turns.new }
    ensures same { T.home turns.new ≡ T.home turns.old }
{
    let number = number_of(key)?;
    let Ok(found) = lookup(turns, key) else {
        return None;
    };
    let are_marked = are_marked(found.as_slice(), number, held.marks(number).as_bytes());
    drop(found);
    Some(are_marked)
}

/// Returns whether look-ups of the keys of all objects give what the table has to contain, or `None` if memory runs
/// out.
fn are_found<A: Allocator, T: Turns<A>>(
    turns: &mut T,
    objects: &[Term<A>],
    held: Held,
) -> Option<bool>
    requires { T.is_ready turns.old }
    ensures ready { T.is_ready turns.new }
    ensures same { T.home turns.new ≡ T.home turns.old }
{
    for object in objects {
        if !is_found(turns, object.element_at(1)?, held)? {
            return Some(false);
        }
    }
    Some(true)
}

/// Returns whether exactly those keys of all objects are members that have to be. Does not allocate.
fn are_members<A: Allocator, T: Turns<A>>(
    turns: &mut T,
    objects: &[Term<A>],
    held: Held,
) -> Option<bool>
    requires { T.is_ready turns.old }
    ensures ready { T.is_ready turns.new }
    ensures same { T.home turns.new ≡ T.home turns.old }
{
    for object in objects {
        let key = object.element_at(1)?;
        if member(turns, key) != held.has(number_of(key)?) {
            return Some(false);
        }
    }
    Some(true)
}

/// Deletes these objects from the table.
fn delete_objects<A: Allocator, T: Turns<A>>(turns: &mut T, objects: &[Term<A>]) -> Option<()>
    requires { T.is_ready turns.old }
    ensures ready { T.is_ready turns.new }
    ensures same { T.home turns.new ≡ T.home turns.old }
{
    for object in objects {
        delete_object(turns, object).ok()?;
    }
    Some(())
}

/// Returns whether exactly the keys that have to be are members, and no member is left once the objects that were
/// inserted are deleted. Does not allocate.
fn are_all<A: Allocator, T: Turns<A>>(
    turns: &mut T,
    objects: &[Term<A>],
    before: &[Term<A>],
    held: Held,
) -> Option<bool>
    requires { T.is_ready turns.old }
    ensures ready { T.is_ready turns.new }
    ensures same { T.home turns.new ≡ T.home turns.old }
{
    let are_there = are_members(turns, objects, held)?;
    delete_objects(turns, before)?;
    let are_gone = are_members(turns, objects, Held { count: 0, ..held })?;
    Some(are_there && are_gone)
}

/// Inserts an object by a call, and returns whether it was inserted or, for `insert_new`, its key had an object.
fn put_in<A: Allocator, T: Turns<A>>(
    turns: &mut T,
    call: Call,
    object: Term<A>,
) -> Result<bool, Refused<Term<A>, Fault>>
    requires { T.is_ready turns.old }
    ensures ready { T.is_ready turns.new }
    ensures same { T.home turns.new ≡ T.home turns.old }
{
    match call {
        Call::Insert => match insert(turns, object) {
            Ok(()) => Ok(true),
            Err(refused) => Err(refused),
        },
        Call::InsertNew => insert_new(turns, object),
    }
}

/// Returns whether the table contains what it has to, where all of that is among the objects `before`. If a look-up
/// runs out of memory, it is tried again; if all later allocations fail too, calls that do not allocate are used
/// instead.
fn is_as_held<A: Allocator + Copy, T: Turns<A>>(
    counts: &Failing<Global>,
    turns: &mut T,
    objects: &[Term<A>],
    before: &[Term<A>],
    held: Held,
) -> bool
    requires { T.is_ready turns.old }
    ensures ready { T.is_ready turns.new }
    ensures same { T.home turns.new ≡ T.home turns.old }
{
    if let Some(is_right) = are_found(turns, objects, held) {
        return is_right;
    }
    let is_right = match counts.plan() {
        Plan::Once(_) => are_found(turns, objects, held),
        Plan::From(_) => are_all(turns, objects, before, held),
        Plan::Never => None,
    };
    counts.was_refused() && is_right == Some(true)
}

/// Returns whether an object was rejected because memory ran out, and is returned unchanged.
fn is_back<A: Allocator>(refused: &Refused<Term<A>, Fault>, object: &Term<A>) -> bool {
    refused.fault == Fault::Memory && refused.value == *object
}

/// Returns whether `insert_new` does not insert a copy of the object, whose key is 1, if that key has an object. The
/// copy is dropped, or returned since memory ran out.
fn is_kept_out<A: Allocator, T: Turns<A>>(turns: &mut T, object: &Term<A>, held: Held) -> bool
    requires { T.is_ready turns.old }
    ensures ready { T.is_ready turns.new }
    ensures same { T.home turns.new ≡ T.home turns.old }
{
    if !held.has(1) {
        return true;
    }
    let Ok(copy) = object.copy() else {
        return false;
    };
    let answered = insert_new(turns, copy);
    let is_kept_out = match &answered {
        Ok(is_put) => !*is_put,
        Err(refused) => is_back(refused, object),
    };
    drop(answered);
    is_kept_out
}

/// Returns whether the table is unchanged after an object was rejected, and does not accept one more object of a key
/// that has one.
fn is_same<A: Allocator + Copy, T: Turns<A>>(
    counts: &Failing<Global>,
    turns: &mut T,
    objects: &[Term<A>],
    before: &[Term<A>],
    held: Held,
) -> bool
    requires { T.is_ready turns.old }
    ensures ready { T.is_ready turns.new }
    ensures same { T.home turns.new ≡ T.home turns.old }
{
    let Some(last) = objects.last() else {
        return false;
    };
    let is_out = is_kept_out(turns, last, held);
    let is_as_held = is_as_held(counts, turns, objects, before, held);
    is_out && is_as_held
}

/// Returns the result for an object, given what the call returned and what it has to return.
fn came_of(answered: Option<bool>, answer: bool) -> Came {
    if answered == Some(answer) {
        Came::Right
    } else {
        Came::Wrong
    }
}

/// Returns whether an object has the text `{{Key},Mark}` with these numbers.
fn is_written<A: Allocator>(alloc: Global, object: &Term<A>, key: u32, mark: u32) -> bool {
    let written = canonical(alloc, object);
    let text = format!(in alloc; "{{{{{key}}},{mark}}}");
    let is_written = match &written {
        Some(written) => match &text {
            Ok(text) => written.as_slice() == text.as_bytes(),
            Err(_) => false,
        },
        None => false,
    };
    drop(text);
    drop(written);
    is_written
}

/// Returns the result for an object that was rejected, given whether all was right so far and what the second attempt
/// returned. The latter does not count if all later allocations fail.
fn came_again(
    counts: &Failing<Global>,
    answered: Option<bool>,
    answer: bool,
    is_right: bool,
) -> Came {
    if !is_right {
        return Came::Wrong;
    }
    match counts.plan() {
        Plan::From(_) => Came::Kept,
        Plan::Once(_) | Plan::Never => came_of(answered, answer),
    }
}

/// Returns whether the object at a place is rejected as it has to be: it is returned unchanged, and the table is
/// unchanged.
fn is_refused<A: Allocator + Copy, T: Turns<A>>(
    alloc: Global,
    counts: &Failing<Global>,
    turns: &mut T,
    objects: &[Term<A>],
    place: usize,
    held: Held,
    refused: &Refused<Term<A>, Fault>,
    key: u32,
    mark: u32,
) -> bool
    requires ready { T.is_ready turns.old }
    requires place { place < length objects.now }
    ensures ready { T.is_ready turns.new }
    ensures same { T.home turns.new ≡ T.home turns.old }
{
    let is_back = is_back(refused, &objects[place]);
    let is_written = is_written(alloc, &refused.value, key, mark);
    let is_same = is_same(counts, turns, objects, &objects[..place], held);
    is_back && is_written && is_same
}

/// Inserts the object at a place, after those before it.
fn put_at<A: Allocator + Copy, T: Turns<A>>(
    alloc: Global,
    counts: &Failing<Global>,
    turns: &mut T,
    objects: &[Term<A>],
    place: usize,
    held: Held,
) -> Came
    requires ready { T.is_ready turns.old }
    requires place { place < length objects.now }
    ensures ready { T.is_ready turns.new }
    ensures same { T.home turns.new ≡ T.home turns.old }
{
    let Some((key, mark)) = numbers_of(&objects[place]) else {
        return Came::Wrong;
    };
    let Ok(copy) = objects[place].copy() else {
        return Came::Wrong;
    };
    let was_refused = counts.was_refused();
    match put_in(turns, held.call, copy) {
        Ok(answered) => came_of(Some(answered), held.answer(key)),
        Err(refused) => {
            let is_due = !was_refused && counts.was_refused();
            let is_refused = is_refused(
                alloc, counts, turns, objects, place, held, &refused, key, mark,
            );
            let answered = put_in(turns, held.call, refused.value).ok();
            came_again(counts, answered, held.answer(key), is_due && is_refused)
        }
    }
}

/// Inserts all objects, up to one that can't be tried again. Returns whether the result of each is right, and whether
/// all are there in the end.
fn are_all_put<A: Allocator + Copy, T: Turns<A>>(
    alloc: Global,
    counts: &Failing<Global>,
    turns: &mut T,
    list: &Term<A>,
    kind: TableKind,
    call: Call,
) -> bool
    requires { T.is_ready turns.old }
    ensures ready { T.is_ready turns.new }
    ensures same { T.home turns.new ≡ T.home turns.old }
{
    let Some(objects) = elements(list) else {
        return false;
    };
    let mut held = Held {
        kind,
        call,
        count: 0,
    };
    for place in 0..objects.len() {
        match put_at(alloc, counts, turns, objects, place, held) {
            Came::Right => {}
            Came::Kept => return true,
            Came::Wrong => return false,
        }
        held.count = held.count.saturating_add(1);
    }
    is_as_held(counts, turns, objects, objects, held)
}

/// Reads the objects and inserts all of them, up to one that can't be tried again. Returns whether all was right, or
/// `None` if memory runs out for the objects.
pub(crate) fn are_put<A: Allocator + Copy, T: Turns<A>>(
    alloc: Global,
    heap: A,
    counts: &Failing<Global>,
    turns: &mut T,
    kind: TableKind,
    call: Call,
) -> Option<bool>
    requires { T.is_ready turns.old }
    ensures ready { T.is_ready turns.new }
    ensures same { T.home turns.new ≡ T.home turns.old }
{
    let list = term_of(heap, OBJECTS)?;
    let are_put = are_all_put(alloc, counts, turns, &list, kind, call);
    drop(list);
    Some(are_put)
}

/// Returns whether the trials of both calls are right at a table.
fn are_right<R: Wait>(rt: &R, alloc: Global, sort: Sort, kind: TableKind, home: Home) -> bool {
    let insert = Trial {
        sort,
        kind,
        parts: 1,
        home,
        act: Act::Put(Call::Insert),
    };
    let insert_new = Trial {
        act: Act::Put(Call::InsertNew),
        ..insert
    };
    is_swept(rt, alloc, insert) && is_swept(rt, alloc, insert_new)
}

/// Returns whether the trials of both calls are right at a table on one thread and at one with gates.
fn holds<R: Wait>(rt: &R, alloc: Global, sort: Sort, kind: TableKind) -> bool {
    are_right(rt, alloc, sort, kind, Home::Alone) && are_right(rt, alloc, sort, kind, Home::Gates)
}

#[test]
fn each_request_of_puts_into_plain_parts_may_be_refused(rt: HostRuntime) {
    assert!(rt; holds(&rt, rt.alloc(), Sort::Plain, TableKind::Set));
    assert!(rt; holds(&rt, rt.alloc(), Sort::Plain, TableKind::Bag));
    assert!(rt; holds(&rt, rt.alloc(), Sort::Plain, TableKind::DuplicateBag));
}

#[test]
fn each_request_of_puts_into_hashed_parts_may_be_refused(rt: HostRuntime) {
    assert!(rt; holds(&rt, rt.alloc(), Sort::Hashed, TableKind::Set));
    assert!(rt; holds(&rt, rt.alloc(), Sort::Hashed, TableKind::Bag));
    assert!(rt; holds(&rt, rt.alloc(), Sort::Hashed, TableKind::DuplicateBag));
}

#[test]
fn each_request_of_puts_into_ordered_parts_may_be_refused(rt: HostRuntime) {
    assert!(rt; holds(&rt, rt.alloc(), Sort::Ordered, TableKind::OrderedSet));
}
