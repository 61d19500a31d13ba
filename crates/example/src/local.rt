//! Tables and a filter as libraries, on one thread: each call of a table, what it leaves and when it fails.
ghost use Rattle.std.specs.Prelude.{ℕ, ◌≡◌, IfOk, List};
ghost use Rattle.ets.specs.Acts.Act.{Delete, Insert};
ghost use Rattle.ets.specs.Calls.{at_key, at_object};
ghost use Rattle.ets.specs.Datum.{Datum};
ghost use Rattle.ets.specs.OneThread.{TableState};
ghost use Rattle.ets.specs.Queries.{answers_by};
ghost use Rattle.ets.specs.Shows.{Reads, Shows, home_of};
ghost use Rattle.ets.specs.Walks.{Leaves};

use ets::Error;
use ets::code::{Verified, compile, decode, encode, run, verify};
use ets::spec::{Spec, read_spec};
use ets::table::{Options, Table, TableKind};
use ets::term::Term;
use ets::text::{read_terms, write_term};
use ets::walk::{Query, Step};
use std::alloc::Global;

/// Objects `{Number,Name,Year}`.
const OBJECTS: &[u8] = b"{1,ada,1815}. {2,alan,1912}. {3,alonzo,1903}. {4,grace,1906}.";

/// A specification whose answer is the name, for a year above 1904.
const SPECIFICATION: &[u8] = b"[{{'_','$1','$2'},[{'>','$2',1904}],['$1']}].";

/// A specification whose answer is `true`, for a year above 1904.
const LATE: &[u8] = b"[{{'_','_','$1'},[{'>','$1',1904}],[true]}].";

/// The position of the key in an object.
const KEYPOS: u16 = 1;

/// Opens a table with one part and one session. Tables that are open at the same time have different names.
fn open(alloc: Global, name: u64, kind: TableKind) -> Result<Table, Error> {
    let options = Options {
        name,
        kind,
        keypos: KEYPOS,
        parts: 1,
        sessions: 1,
    };
    Ok(Table::open(alloc, options)?)
}

/// Returns the specification of a text.
fn specification(alloc: Global, text: &[u8]) -> Option<Spec> {
    let terms = read_terms(alloc, text).ok()?;
    read_spec(alloc, terms.first()?).ok()
}

/// Inserts objects.
fn put_all(table: &mut Table, objects: &[Term]) -> Result<(), Error> {
    for object in objects {
        table.insert(object.copy()?)?;
    }
    Ok(())
}

/// Replaces what is stored under a key by an object.
fn replace(table: &mut Table, key: &Term, object: Term) -> Result<(), Error>
    ensures { IfOk result (λ _. (t : TableState) → Shows table.old t → Shows table.new
        (at_object table.old.session object (Insert object) (at_key table.old.session key.now (Delete key.now) t).1).1) }
{
    table.delete(key);
    Ok(table.insert(object)?)
}

/// Moves the objects of a key to another table, where they must not exist yet. Returns how many were moved.
fn move_key(from: &mut Table, to: &mut Table, key: &Term) -> Result<usize, Error> {
    let mut count: usize = 0;
    if !from.member(key) {
        return Ok(count);
    }
    for object in from.take(key)? {
        if to.insert_new(object)? {
            count = count.saturating_add(1);
        }
    }
    Ok(count)
}

/// Returns the keys, in walk order. The table is fixed meanwhile, so that `next` finds the row of each key.
fn keys(alloc: Global, table: &mut Table) -> Result<Vec<Term>, Error> {
    let mut keys = Vec::new(alloc);
    table.fix()?;
    let mut next = table.first()?;
    for _key in 0..u64::MAX {
        let Some(key) = next else {
            table.unfix()?;
            return Ok(keys);
        };
        next = table.next(&key)?;
        keys.push(key)?;
    }
    Err(Error::Memory)
}

/// Returns the answers of a walk from a step on.
fn answers_after(alloc: Global, table: &mut Table, mut step: Step) -> Result<Vec<Term>, Error>
    ensures { IfOk result (λ answers. (q : _) (limit : ℕ) (due : List Datum) (t : TableState) → Shows table.old t
        → Leaves (home_of table.old) q limit due t step → (answers.items ≡ due) × Shows table.new t) }
{
    let mut answers = Vec::new(alloc);
    for _piece in 0..u64::MAX {
        match step {
            Step::Piece(mut piece, walk) => {
                answers.append(&mut piece)?;
                step = table.select_more(walk)?;
            }
            Step::End(_query) => return Ok(answers),
        }
    }
    Err(Error::Memory)
}

/// Returns the answers of a query, requested in pieces of at most `limit`: those that `select` returns.
fn in_pieces(alloc: Global, table: &mut Table, query: Query, limit: u64) -> Result<Vec<Term>, Error>
    ensures { IfOk result (λ answers. Reads table.old table.new (λ t. answers.items ≡ answers_by query t)) }
{
    let step = table.select_limit(query, limit)?;
    answers_after(alloc, table, step)
}

/// Returns the code file of a specification, as it might be sent.
fn sent(alloc: Global, specification: &Spec) -> Option<Vec<u8>> {
    let code = compile(alloc, specification).ok()?;
    encode(alloc, code.code()).ok()
}

/// Returns the code of a file; only code that passes the verifier can be run.
fn received(alloc: Global, file: &[u8]) -> Option<Verified> {
    verify(alloc, decode(alloc, file).ok()?).ok()
}

/// Returns the answers of code on objects, which are in no table.
fn filtered(alloc: Global, code: &Verified, objects: &[Term]) -> Option<Vec<Term>> {
    let mut answers = Vec::new(alloc);
    for object in objects {
        let (answer, _instructions) = run(alloc, code, object).ok()?;
        if let Some(answer) = answer {
            answers.push(answer).ok()?;
        }
    }
    Some(answers)
}

/// Appends a line for each answer.
fn put_lines(name: &[u8], answers: &[Term], lines: &mut Vec<u8>) -> Option<()> {
    for answer in answers {
        lines.extend_from_slice(name).ok()?;
        write_term(answer, lines).ok()?;
        lines.push(b'\n').ok()?;
    }
    Some(())
}

/// Returns the answers of a specification for the objects of a table of this kind.
fn selected(
    alloc: Global,
    kind: TableKind,
    specification: &Spec,
    objects: &[Term],
) -> Result<Vec<Term>, Error> {
    let query = Query::from_spec(alloc, specification, KEYPOS)?;
    let mut table = open(alloc, 1, kind)?;
    put_all(&mut table, objects)?;
    Ok(table.select(&query)?)
}

/// Counts the objects for which a query returns `true`, and deletes them. Returns their number.
fn delete_those(table: &mut Table, query: &Query) -> Result<u64, Error> {
    let count = table.select_count(query)?;
    let deleted = table.select_delete(query)?;
    Ok(count.min(deleted))
}

/// Returns the error code of a walk with a limit of 0: 63.
fn without_limit(table: &mut Table, query: Query) -> Option<u8> {
    let refused = table.select_limit(query, 0).err()?;
    Some(Error::from(refused).number())
}

/// Returns the error code of a walk that is continued at another table: 62.
fn at_another(table: &mut Table, other: &mut Table, query: Query) -> Option<u8> {
    let Ok(Step::Piece(_answers, walk)) = table.select_limit(query, 1) else {
        return None;
    };
    let refused = other.select_more(walk).err()?;
    Some(Error::from(refused).number())
}

/// Appends the lines of the calls of a set: by its keys, in pieces, and after deletions.
fn put_set(alloc: Global, objects: &[Term], lines: &mut Vec<u8>) -> Option<()> {
    let mut table = open(alloc, 1, TableKind::Set).ok()?;
    put_all(&mut table, objects).ok()?;
    let key = Term::int(1);
    replace(&mut table, &key, objects.first()?.copy().ok()?).ok()?;
    put_lines(b"at key 1: ", table.lookup(&key).ok()?.as_slice(), lines)?;
    put_lines(b"a key: ", keys(alloc, &mut table).ok()?.as_slice(), lines)?;
    let names = Query::from_spec(alloc, &specification(alloc, SPECIFICATION)?, KEYPOS).ok()?;
    let answers = in_pieces(alloc, &mut table, names, 1).ok()?;
    put_lines(b"in pieces: ", answers.as_slice(), lines)?;
    let late = Query::from_spec(alloc, &specification(alloc, LATE)?, KEYPOS).ok()?;
    delete_those(&mut table, &late).ok()?;
    table.delete_object(objects.first()?).ok()?;
    put_lines(b"left: ", table.objects().ok()?.as_slice(), lines)
}

/// Appends the lines of calls that are rejected.
fn put_rejected(alloc: Global, objects: &[Term], lines: &mut Vec<u8>) -> Option<()> {
    let mut table = open(alloc, 1, TableKind::Set).ok()?;
    let mut other = open(alloc, 2, TableKind::OrderedSet).ok()?;
    put_all(&mut table, objects).ok()?;
    move_key(&mut table, &mut other, &Term::int(2)).ok()?;
    let specification = specification(alloc, SPECIFICATION)?;
    let names = Query::from_spec(alloc, &specification, KEYPOS).ok()?;
    let limit = without_limit(&mut table, names)?;
    let names = Query::from_spec(alloc, &specification, KEYPOS).ok()?;
    let walk = at_another(&mut table, &mut other, names)?;
    let codes = [Term::int(i64::from(limit)), Term::int(i64::from(walk))];
    put_lines(b"rejected: ", &codes, lines)
}

/// Returns the lines of the tables and of the filter.
pub(crate) fn lines(alloc: Global) -> Option<Vec<u8>> {
    let objects = read_terms(alloc, OBJECTS).ok()?;
    let specification = specification(alloc, SPECIFICATION)?;
    let mut lines = Vec::new(alloc);
    let objects = objects.as_slice();
    let answers = selected(alloc, TableKind::Set, &specification, objects).ok()?;
    put_lines(b"of a set: ", answers.as_slice(), &mut lines)?;
    let answers = selected(alloc, TableKind::OrderedSet, &specification, objects).ok()?;
    put_lines(b"of an ordered set: ", answers.as_slice(), &mut lines)?;
    put_set(alloc, objects, &mut lines)?;
    put_rejected(alloc, objects, &mut lines)?;
    let code = received(alloc, sent(alloc, &specification)?.as_slice())?;
    let answers = filtered(alloc, &code, objects)?;
    put_lines(b"by the filter: ", answers.as_slice(), &mut lines)?;
    Some(lines)
}
