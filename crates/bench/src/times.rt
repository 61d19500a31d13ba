//! The time of work at a table, and its results.
ghost use Rattle.std.specs.Prelude.{◌≡◌, ◌<◌, IfSome};

use crate::calls::{Call, Load, Work, done};
use crate::timing::{ROUNDS, median, since};
use part_core::Part;
use std::alloc::Global;
use std::slice;
use std::time::Instant;
use tables::{LocalTable, Options};

/// The number of pieces of work in a round.
const WORKS: usize = 10;
/// The work of a round, in its order. The second insert replaces each object by an equal one, and the last lookup finds
/// what is left.
const ROUND: [Work; WORKS] = [
    Work::Each(Call::Insert),
    Work::Each(Call::Insert),
    Work::Each(Call::Lookup),
    Work::Each(Call::Member),
    Work::Count,
    Work::Select,
    Work::Pieces,
    Work::Run,
    Work::Each(Call::Delete),
    Work::Each(Call::Lookup),
];
/// The names of the work of which times are written: all but the last.
const NAMES: [&str; WORKS - 1] = [
    "insert", "replace", "lookup", "member", "count", "select", "pieces", "run", "delete",
];

/// The result of work.
#[derive(Clone, Copy)]
struct Outcome {
    nanoseconds: u64,
    /// The number of objects that were inserted, found, counted or answered.
    objects: u64,
}

/// Returns an empty table with at least one session.
pub(crate) fn opened<P: Part<Global> + Drop>(
    alloc: Global,
    options: Options,
) -> Option<LocalTable<P>>
    ensures { IfSome result (λ table. 0 < table.options.sessions) }
{
    LocalTable::open(alloc, options).ok()
}

/// Does the work in a session at a table, and times it.
fn timed<P: Part<Global> + Drop>(
    rt: &HostRuntime,
    table: &mut LocalTable<P>,
    work: Work,
    load: Load<'_>,
) -> Option<Outcome>
    requires { 0 < table.old.options.sessions }
    ensures { table.new.options ≡ table.old.options }
{
    let mut session = table.at(0);
    let began = Instant::now(rt).ok()?;
    let objects = done(rt.alloc(), &mut session, work, load)?;
    Some(Outcome {
        nanoseconds: since(rt, began)?,
        objects,
    })
}

/// Returns the results of a round at an empty table.
fn round<P: Part<Global> + Drop>(
    rt: &HostRuntime,
    options: Options,
    load: Load<'_>,
) -> Option<[Outcome; WORKS]> {
    let mut table = opened::<P>(rt.alloc(), options)?;
    let mut outcomes = [Outcome {
        nanoseconds: 0,
        objects: 0,
    }; WORKS];
    for work in 0..WORKS {
        outcomes[work] = timed(rt, &mut table, ROUND[work], load)?;
    }
    Some(outcomes)
}

/// Returns the nanoseconds of each work in each round.
fn rounds<P: Part<Global> + Drop>(
    rt: &HostRuntime,
    options: Options,
    load: Load<'_>,
) -> Option<[[u64; ROUNDS]; WORKS]> {
    let mut times = [[0; ROUNDS]; WORKS];
    for number in 0..ROUNDS {
        let outcomes = round::<P>(rt, options, load)?;
        for work in 0..WORKS {
            times[work][number] = outcomes[work].nanoseconds;
        }
    }
    Some(times)
}

/// Writes the nanoseconds of a call of each kind, the median of the rounds.
pub(crate) fn write<P: Part<Global> + Drop>(
    rt: &HostRuntime,
    options: Options,
    load: Load<'_>,
    lines: &mut String,
) -> Option<()> {
    let times = rounds::<P>(rt, options, load)?;
    let count = u64::try_from(load.objects.len()).ok()?.max(1);
    for work in 0..NAMES.len() {
        let name = NAMES[work];
        let each = median(times[work]).checked_div(count)?;
        writeln!(lines, "{name} {each} ns").ok()?;
    }
    Some(())
}

/// Returns the nanoseconds of the longest insert.
fn longest_insert<P: Part<Global> + Drop>(
    rt: &HostRuntime,
    table: &mut LocalTable<P>,
    load: Load<'_>,
) -> Option<u64>
    requires { 0 < table.old.options.sessions }
{
    let mut longest: u64 = 0;
    for object in load.objects {
        let one = Load {
            objects: slice::from_ref(object),
            ..load
        };
        let outcome = timed(rt, table, Work::Each(Call::Insert), one)?;
        longest = outcome.nanoseconds.max(longest);
    }
    Some(longest)
}

/// Writes the time of the longest insert, which is the one that doubles the most slots.
pub(crate) fn write_longest<P: Part<Global> + Drop>(
    rt: &HostRuntime,
    options: Options,
    load: Load<'_>,
    lines: &mut String,
) -> Option<()> {
    let mut table = opened::<P>(rt.alloc(), options)?;
    let longest = longest_insert(rt, &mut table, load)?;
    writeln!(lines, "longest insert {longest} ns").ok()
}

/// Writes how many objects each work of a round finds.
pub(crate) fn write_found<P: Part<Global> + Drop>(
    rt: &HostRuntime,
    options: Options,
    load: Load<'_>,
    lines: &mut String,
) -> Option<()> {
    let [
        insert,
        replace,
        lookup,
        member,
        count,
        select,
        pieces,
        run,
        _delete,
        last,
    ] = round::<P>(rt, options, load)?;
    writeln!(
        lines,
        "{} inserted, {} once more, {} found, {} there",
        insert.objects, replace.objects, lookup.objects, member.objects
    )
    .ok()?;
    writeln!(
        lines,
        "{} counted, {} selected, {} in pieces, {} by runs, {} left",
        count.objects, select.objects, pieces.objects, run.objects, last.objects
    )
    .ok()
}

/// Returns a table with the objects.
fn filled<P: Part<Global> + Drop>(
    rt: &HostRuntime,
    options: Options,
    load: Load<'_>,
) -> Option<LocalTable<P>> {
    let mut table = opened::<P>(rt.alloc(), options)?;
    let _outcome = timed(rt, &mut table, Work::Each(Call::Insert), load)?;
    Some(table)
}

/// Inserts the objects into each of `tables` tables, and holds all tables until the end.
pub(crate) fn hold<P: Part<Global> + Drop>(
    rt: &HostRuntime,
    options: Options,
    tables: u8,
    load: Load<'_>,
) -> Option<()> {
    let mut held: Vec<LocalTable<P>> = Vec::new(rt.alloc());
    for _table in 0..tables {
        held.push(filled::<P>(rt, options, load)?).ok()?;
    }
    Some(())
}
