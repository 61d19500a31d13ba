//! The table of a scan, and its sessions.
ghost use Rattle.std.specs.Prelude.{ℕ, ◌≡◌, ◌<◌, [], ◌∷◌, All, List, IfOk, OnOk, flat_map, length};
ghost use Rattle.term_core.specs.Datum.{Datum};
ghost use Rattle.part_core.specs.Served.{ServesUnordered};
ghost use Rattle.tables.specs.Opened.{AreOpened};
ghost use Rattle.tables.specs.Sessions.{IsOpened};
ghost use Rattle.walks.specs.Query.{plan_of};
ghost use Rattle.tool_scan.specs.Asking.{AreAnswers, AreSeated, IsScanned};
ghost use Rattle.tool_scan.specs.Options.{table_of, AreAllowed, IsFit};

use crate::members::scan_members;
use crate::options::{ScanOptions, table_options};
use mspec_syntax::Spec;
use part_core::{OpenFault, Part};
use std::alloc::{AllocError, Allocator};
use std::sync::Wait;
use std::thread::Threads;
use tables::{At, Session, Table};
use term_core::Term;
use walks::Query;

/// Appends a member: the session with its table.
fn seat_one<'t, R: Wait, P: Part<A> + Drop, A: Allocator>(
    rt: &'t R,
    table: &'t Table<P, A>,
    session: &'t mut Session<P, A>,
    members: &mut Vec<At<'t, P, A, R>, A>,
) -> Result<(), AllocError>
    requires { IsOpened table.now.options table.now.gates.items session.old.number session.old.passes.items }
    ensures { OnOk result (AreSeated (λ m s. (m.table.now ≡ table.now) × (m.session.now ≡ s))
        (session.old ∷ []) members.old.items members.new.items) }
{
    match members.push(table.at(rt, session)) {
        Ok(()) => Ok(()),
        Err(_) => Err(AllocError),
    }
}

/// Appends a member for each session: the session with its table.
fn seat_all<'t, R: Wait, P: Part<A> + Drop, A: Allocator>(
    rt: &'t R,
    table: &'t Table<P, A>,
    sessions: &'t mut [Session<P, A>],
    members: &mut Vec<At<'t, P, A, R>, A>,
) -> Result<(), AllocError>
    requires { All (λ s. IsOpened table.now.options table.now.gates.items s.number s.passes.items) sessions.old }
    ensures { OnOk result (AreSeated (λ m s. (m.table.now ≡ table.now) × (m.session.now ≡ s))
        sessions.old members.old.items members.new.items) }
{
    match sessions.split_first_mut() {
        Some((first, rest)) => {
            seat_one(rt, table, first, members)?;
            seat_all(rt, table, rest, members)
        }
        None => Ok(()),
    }
}

/// Has the sessions of a table insert the objects and walk the table. Returns the answers.
fn ask<R: Threads + Wait + Sync, P: Part<A> + Drop + Send, A: Allocator + Copy + Send + Sync>(
    rt: &R,
    alloc: A,
    options: ScanOptions,
    table: &Table<P, A>,
    sessions: &mut [Session<P, A>],
    objects: &[Term<A>],
    query: &Query<A>,
) -> Result<Vec<Term<A>, A>, AllocError>
    requires table { table.now.options ≡ table_of options }
    requires opened { AreOpened (table_of options) table.now.gates.items sessions.old }
    requires allowed { AreAllowed options }
    requires fit { All (IsFit options) objects.now }
    ensures { IfOk result (λ answers. (lists : List (List Datum)) × (length lists ≡ options.parts)
        × (answers.items ≡ flat_map (λ list. list) lists)
        × ((worker : ℕ) → worker < options.workers
        → IsScanned options query.now.code (plan_of query.now (table_of options)) objects.now lists worker)) }
{
    let mut members = Vec::new(alloc);
    seat_all(rt, table, sessions, &mut members)?;
    scan_members(rt, alloc, options, members.as_mut_slice(), objects, query)
}

/// Opens a new table for a scan, with its sessions.
fn opened<P: Part<A> + Drop, A: Allocator + Copy>(
    alloc: A,
    options: ScanOptions,
) -> Result<(Table<P, A>, Vec<Session<P, A>, A>), AllocError>
    requires serves { ServesUnordered P.serves }
    requires allowed { AreAllowed options }
    ensures { IfOk result (λ made. (made.0.options ≡ table_of options)
        × AreOpened (table_of options) made.0.gates.items made.1.items) }
{
    match Table::open(alloc, table_options(options)) {
        Ok(made) => Ok(made),
        Err(OpenFault::Memory) => Err(AllocError),
        Err(OpenFault::BadOptions) => unreachable!(),
    }
}

/// Opens a new table, inserts the objects, and returns the answers of a specification on them.
pub(crate) fn answers_on<
    R: Threads + Wait + Sync,
    P: Part<A> + Drop + Send,
    A: Allocator + Copy + Send + Sync,
>(
    rt: &R,
    alloc: A,
    options: ScanOptions,
    specification: &Spec<A>,
    objects: &[Term<A>],
) -> Result<Vec<Term<A>, A>, AllocError>
    requires serves { ServesUnordered P.serves }
    requires allowed { AreAllowed options }
    requires fit { All (IsFit options) objects.now }
    ensures { IfOk result (λ answers. AreAnswers options specification.now objects.now answers.items) }
{
    let query = Query::from_spec(alloc, specification, options.keypos)?;
    let (table, mut sessions) = opened::<P, A>(alloc, options)?;
    ask(
        rt,
        alloc,
        options,
        &table,
        sessions.as_mut_slice(),
        objects,
        &query,
    )
}
