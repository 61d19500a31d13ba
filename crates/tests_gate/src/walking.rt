//! A walk whose table another session empties meanwhile, on a thread of its own, and which no other session can go on
//! with; and a visit with a cursor outside its range.
ghost use Rattle.std.specs.Prelude.{◌≡◌, ◌<◌};
ghost use Rattle.tables.specs.Sessions.{IsOpened};

use crate::acts::{Act, Keys, acted};
use crate::objects::query_of;
use crate::pairs::opened;
use kit_rows::number;
use part_core::{Cursor, Fault, Look, Part, PartOp, Scope, TableKind};
use part_hash::HashPart;
use std::alloc::Global;
use std::process::Abort;
use std::sync::Wait;
use std::thread::{Threads, join};
use tables::{Options, Session, Table, Turns};
use term_core::Term;
use walks::{Continuation, Query, Step, WalkFault, select_limit, select_more};

/// Keys at such distances that all are in one slot, whatever the number of slots.
const KEYS: Keys = Keys {
    first: 0,
    apart: 65_536,
    count: 1_000,
};

/// The options of a set of one part.
const OPTIONS: Options = Options {
    name: 1,
    kind: TableKind::Set,
    keypos: 1,
    parts: 1,
    sessions: 2,
};

/// Has a session delete all keys and leave, on a thread of its own, which is joined.
fn deleted_on_a_thread<R: Threads + Wait + Abort + Sync, P: Part<Global> + Drop + Send>(
    rt: &R,
    alloc: Global,
    table: &Table<P>,
    session: Session<P>,
)
    requires { IsOpened table.now.options table.now.gates.items session.number session.passes.items }
{
    join(
        rt,
        ||
            requires { IsOpened table.now.options table.now.gates.items session.number session.passes.items }
        {
            let session = acted(rt, alloc, table, session, Act::Delete(KEYS), 0);
            table.leave(rt, session);
        },
        || {},
    );
}

/// Returns the query whose answer on each object is its key.
fn keys_query<R: Abort>(rt: &R, alloc: Global) -> Query {
    query_of(alloc, b"[{{'$1'},[],['$1']}].").expect(rt, "a query")
}

/// Returns whether a piece is one key, the one at this place.
fn is_piece(piece: &[Term], place: u32) -> bool {
    match piece {
        [answer] => number(answer) == Some(KEYS.at(place)),
        _ => false,
    }
}

/// Returns the walk after a piece, which has to be the key at this place, or `None` if the walk has ended.
fn walk_after<R: Abort>(rt: &R, step: Step, place: u32) -> Option<Continuation> {
    match step {
        Step::Piece(piece, walk) => {
            assert!(rt; is_piece(piece.as_slice(), place));
            drop(piece);
            Some(walk)
        }
        Step::End(query) => {
            drop(query);
            None
        }
    }
}

/// Begins a walk, and returns it after its first piece.
fn begun<R: Abort, T: Turns<Global>>(rt: &R, alloc: Global, turns: &mut T) -> Continuation
    requires { T.is_ready turns.old }
    ensures ready { T.is_ready turns.new }
    ensures same { T.home turns.new ≡ T.home turns.old }
{
    let query = keys_query(rt, alloc);
    let step = select_limit(alloc, turns, query, 1).ok();
    walk_after(rt, step.expect(rt, "a step"), 0).expect(rt, "a piece")
}

/// Makes the next piece of a walk, and returns the walk after it.
fn next_walk<R: Abort, T: Turns<Global>>(
    rt: &R,
    alloc: Global,
    turns: &mut T,
    walk: Continuation,
    place: u32,
) -> Option<Continuation>
    requires { T.is_ready turns.old }
    ensures ready { T.is_ready turns.new }
    ensures same { T.home turns.new ≡ T.home turns.old }
{
    let step = select_more(alloc, turns, walk).ok();
    walk_after(rt, step.expect(rt, "a step"), place)
}

/// Goes on with a walk of another session or table, which has to be rejected. Returns the walk.
fn refused_as_anothers<R: Abort, T: Turns<Global>>(
    rt: &R,
    alloc: Global,
    turns: &mut T,
    walk: Continuation,
) -> Continuation
    requires { T.is_ready turns.old }
    ensures ready { T.is_ready turns.new }
    ensures same { T.home turns.new ≡ T.home turns.old }
{
    let refused = select_more(alloc, turns, walk).err();
    let refused = refused.expect(rt, "a refusal");
    assert!(rt; refused.fault == WalkFault::StrangerContinuation);
    refused.value
}

/// Goes on with a walk at a session of another number or of another table, which has to be rejected. Returns the walk.
fn refused_at<R: Wait + Abort, P: Part<Global> + Drop>(
    rt: &R,
    alloc: Global,
    table: &Table<P>,
    session: &mut Session<P>,
    walk: Continuation,
) -> Continuation
    requires { IsOpened table.now.options table.now.gates.items session.old.number session.old.passes.items }
    ensures { IsOpened table.now.options table.now.gates.items session.new.number session.new.passes.items }
{
    let mut at = table.at(rt, session);
    refused_as_anothers(rt, alloc, &mut at, walk)
}

/// Goes on with a walk to its end, checks that each piece is the key that follows, and returns the number of pieces.
/// Returns `None` if the walk does not end.
fn gone_on<R: Abort, T: Turns<Global>>(
    rt: &R,
    alloc: Global,
    turns: &mut T,
    walk: Continuation,
) -> Option<u32>
    requires { T.is_ready turns.old }
    ensures ready { T.is_ready turns.new }
    ensures same { T.home turns.new ≡ T.home turns.old }
{
    let mut walk = walk;
    for place in 1..KEYS.count + 1 {
        match next_walk(rt, alloc, turns, walk, place) {
            Some(next) => walk = next,
            None => return Some(place - 1),
        }
    }
    drop(walk);
    None
}

/// Returns the walk once a session of a table with another name was not allowed to go on with it.
fn refused_elsewhere<R: Wait + Abort, P: Part<Global> + Drop>(
    rt: &R,
    alloc: Global,
    walk: Continuation,
) -> Continuation {
    let options = Options { name: 2, ..OPTIONS };
    let Some((table, mut first, second)) = opened::<Global, P>(alloc, options) else {
        rt.panic("no table")
    };
    let walk = refused_at(rt, alloc, &table, &mut first, walk);
    drop(second);
    drop(first);
    drop(table);
    walk
}

/// Returns how many pieces follow the first if another session, which is not allowed to go on with the walk, deletes
/// all keys meanwhile.
fn outlasted<R: Threads + Wait + Abort + Sync, P: Part<Global> + Drop + Send>(
    rt: &R,
    alloc: Global,
    table: &Table<P>,
    walker: Session<P>,
    writer: Session<P>,
) -> Option<u32>
    requires walker { IsOpened table.now.options table.now.gates.items walker.number walker.passes.items }
    requires writer { IsOpened table.now.options table.now.gates.items writer.number writer.passes.items }
{
    let mut walker = walker;
    let mut writer = writer;
    let mut at = table.at(rt, &mut walker);
    let walk = begun(rt, alloc, &mut at);
    let walk = refused_at(rt, alloc, table, &mut writer, walk);
    let walk = refused_elsewhere::<R, P>(rt, alloc, walk);
    deleted_on_a_thread(rt, alloc, table, writer);
    let pieces = gone_on(rt, alloc, &mut at, walk);
    drop(walker);
    pieces
}

/// Opens a table with the keys, which the walking session fixes. Returns how many pieces follow the first if the other
/// session deletes all keys meanwhile.
fn outlasting<R: Threads + Wait + Abort + Sync, P: Part<Global> + Drop + Send>(
    rt: &R,
    alloc: Global,
) -> Option<u32> {
    let Some((table, walker, writer)) = opened::<Global, P>(alloc, OPTIONS) else {
        rt.panic("no table")
    };
    let walker = acted(rt, alloc, &table, walker, Act::Put(KEYS), 0);
    let walker = acted(rt, alloc, &table, walker, Act::Fix, 0);
    let pieces = outlasted(rt, alloc, &table, walker, writer);
    drop(table);
    pieces
}

/// Returns whether a visit is rejected since its cursor is outside its range, and is returned.
fn is_refused<'q, T: Turns<Global>>(turns: &mut T, query: &'q Query, scope: Scope<'q>) -> bool
    requires ready { T.is_ready turns.old }
    requires parts { 0 < (T.home turns.old).options.parts }
{
    let look = Look {
        code: &query.code,
        scope,
        wanted: 1,
    };
    let mut op = PartOp::Visit(look);
    let answer = turns.turn(0, &mut op);
    let is_back = matches!(&op, PartOp::Visit(_));
    drop(op);
    let is_outside = matches!(&answer, Err(Fault::CursorOutside));
    drop(answer);
    is_outside && is_back
}

/// Returns whether a visit from class 8 of 8 is rejected, and is returned.
fn is_class_refused<R: Abort, T: Turns<Global>>(rt: &R, alloc: Global, turns: &mut T) -> bool
    requires ready { T.is_ready turns.old }
    requires parts { 0 < (T.home turns.old).options.parts }
{
    let query = keys_query(rt, alloc);
    let cursor = Cursor::Class { base: 8, class: 8 };
    let is_refused = is_refused(turns, &query, Scope::After(&cursor));
    drop(cursor);
    drop(query);
    is_refused
}

/// Opens a table, and returns whether a visit from class 8 of 8 is rejected by a session of it, and is returned.
fn is_refused_at<R: Wait + Abort, P: Part<Global> + Drop>(rt: &R, alloc: Global) -> bool {
    let Some((table, mut session, other)) = opened::<Global, P>(alloc, OPTIONS) else {
        rt.panic("no table")
    };
    let mut at = table.at(rt, &mut session);
    let is_refused = is_class_refused(rt, alloc, &mut at);
    drop(other);
    drop(session);
    drop(table);
    is_refused
}

#[test]
fn a_walk_outlasts_a_writer_on_a_thread_of_its_own(rt: HostRuntime) {
    assert!(rt; outlasting::<_, HashPart<Global>>(&rt, rt.alloc()) == Some(999));
}

#[test]
fn a_visit_of_a_class_that_is_not_there_is_refused(rt: HostRuntime) {
    assert!(rt; is_refused_at::<_, HashPart<Global>>(&rt, rt.alloc()));
}
