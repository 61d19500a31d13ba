//! The commands of a script, read from terms.
ghost use Rattle.std.specs.Prelude.{◌≡◌, nat_eq, true, option_map, MatchOption};
ghost use Rattle.std.specs.List.{list_all};
ghost use Rattle.std.specs.Char.{is_ascii};
ghost use Rattle.std.specs.Cmp.Lexicographic.{pointwise};
ghost use Rattle.std.specs.Str.{chars};
ghost use Rattle.term_core.specs.Datum.Datum.{atom};
ghost use Rattle.tool_script.specs.Command.{command_term, IsNoCommand};
ghost use Rattle.tool_script.specs.Commands.{ask_of, command_of, selection_of};
ghost use Rattle.tool_script.specs.Reading.{IsNoAtom, kind_in, ask_alone, ask_with, asked_by, selection_with};
ghost use Rattle.tool_script.specs.Reading.{selection_within, walked_by, told_by, closed_by, opened_by};
ghost use Rattle.tool_script.specs.Reading.{command_with, elements_in};

use part_core::TableKind;
use std::alloc::{Allocator, Global};
use term_core::{Term, View};
use term_operand::Operand;

/// What a session requests of the table, other than a walk.
#[derive(Drop)]
pub enum Ask<'a, A: Allocator = Global> {
    /// `insert`
    Insert(&'a Term<A>),
    /// `insert_new`
    InsertNew(&'a Term<A>),
    /// `lookup`
    Lookup(&'a Term<A>),
    /// `member`
    Member(&'a Term<A>),
    /// `delete`
    Delete(&'a Term<A>),
    /// `delete_object`
    DeleteObject(&'a Term<A>),
    /// `take`
    Take(&'a Term<A>),
    /// `fix`
    Fix,
    /// `unfix`
    Unfix,
    /// `leave`
    Leave,
    /// `first`
    First,
    /// `next`
    Next(&'a Term<A>),
}

/// What a session requests with a specification, or of a walk that it began.
#[derive(Drop)]
pub enum Selection<'a, A: Allocator = Global> {
    /// `select`: all answers.
    Select(&'a Term<A>),
    /// `select` with a limit: at most that many answers at once.
    SelectLimit(&'a Term<A>, i64),
    /// `more`: the answers that follow a piece, by the number of its continuation.
    SelectMore(i64),
    /// `select_count`: the number of objects for which the answer is `true`.
    SelectCount(&'a Term<A>),
    /// `select_delete`: deletes the objects for which the answer is `true`, and counts them.
    SelectDelete(&'a Term<A>),
}

/// A command. Its numbers are as they are written, not checked against any range.
#[derive(Drop)]
pub enum Command<'a, A: Allocator = Global> {
    /// Opens a table of a kind, with the key position, the number of parts and the number of sessions.
    Open(TableKind, i64, i64, i64),
    /// A session, by its number, requests something.
    Session(i64, Ask<'a, A>),
    /// A session, by its number, walks the table.
    Walk(i64, Selection<'a, A>),
    /// Closes the table.
    Close,
}

/// Returns the text of an atom, or `None` for any other term.
fn name_in<A: Allocator>(term: &Term<A>) -> Option<&str>
    ensures { MatchOption result (IsNoAtom term.now) (λ name. term.now ≡ atom (chars name.now)) }
{
    match Operand::Term(term).view() {
        View::Atom(text) => Some(text),
        View::Integer(_) | View::Nil | View::Tuple(_) => None,
        View::List(..) | View::Map(_) | View::Binary(_) => None,
    }
}

/// Returns whether a name is this one, of ASCII characters.
#[inline(always)]
#[tactic(auto, using(crate::proofs::NameLemmas::same_name))]
fn is_name(name: &str, this: &str) -> bool
    requires { list_all is_ascii this.now ≡ true }
    ensures { result ≡ pointwise nat_eq this.now (chars name.now) }
{
    this == name
}

/// Returns the kind of table with this name, or `None`.
fn kind_named(name: &str) -> Option<TableKind>
    ensures { result ≡ kind_in (chars name.now) }
{
    if is_name(name, "set") {
        return Some(TableKind::Set);
    }
    if is_name(name, "ordered_set") {
        return Some(TableKind::OrderedSet);
    }
    if is_name(name, "bag") {
        return Some(TableKind::Bag);
    }
    if is_name(name, "duplicate_bag") {
        return Some(TableKind::DuplicateBag);
    }
    None
}

/// Returns the request that has this name and no argument, or `None`.
fn ask_alone<'a, A: Allocator>(name: &str) -> Option<Ask<'a, A>>
    ensures { option_map ask_of result ≡ ask_alone (chars name.now) }
{
    if is_name(name, "fix") {
        return Some(Ask::Fix);
    }
    if is_name(name, "unfix") {
        return Some(Ask::Unfix);
    }
    if is_name(name, "leave") {
        return Some(Ask::Leave);
    }
    if is_name(name, "first") {
        return Some(Ask::First);
    }
    None
}

/// Returns the request that has this name and one term, or `None`.
fn ask_with<'a, A: Allocator>(name: &str, term: &'a Term<A>) -> Option<Ask<'a, A>>
    ensures { option_map ask_of result ≡ ask_with (chars name.now) term.now }
{
    if is_name(name, "insert") {
        return Some(Ask::Insert(term));
    }
    if is_name(name, "insert_new") {
        return Some(Ask::InsertNew(term));
    }
    if is_name(name, "lookup") {
        return Some(Ask::Lookup(term));
    }
    if is_name(name, "member") {
        return Some(Ask::Member(term));
    }
    if is_name(name, "delete") {
        return Some(Ask::Delete(term));
    }
    if is_name(name, "delete_object") {
        return Some(Ask::DeleteObject(term));
    }
    if is_name(name, "take") {
        return Some(Ask::Take(term));
    }
    if is_name(name, "next") {
        return Some(Ask::Next(term));
    }
    None
}

/// Returns the command of a session that requests something, or `None` if the session is no integer or there is no
/// request.
fn asked_by<'a, A: Allocator>(session: &Term<A>, ask: Option<Ask<'a, A>>) -> Option<Command<'a, A>>
    ensures { option_map command_of result ≡ asked_by session.now (option_map ask_of ask.entry) }
{
    let session = Operand::Term(session).integer()?;
    Some(Command::Session(session, ask?))
}

/// Returns the request that has this name and one term, which is a specification or the number of a continuation, or
/// `None`.
fn selection_with<'a, A: Allocator>(name: &str, term: &'a Term<A>) -> Option<Selection<'a, A>>
    ensures { option_map selection_of result ≡ selection_with (chars name.now) term.now }
{
    if is_name(name, "select") {
        return Some(Selection::Select(term));
    }
    if is_name(name, "more") {
        return Some(Selection::SelectMore(Operand::Term(term).integer()?));
    }
    if is_name(name, "select_count") {
        return Some(Selection::SelectCount(term));
    }
    if is_name(name, "select_delete") {
        return Some(Selection::SelectDelete(term));
    }
    None
}

/// Returns the request that has this name, a specification and a limit, or `None`.
fn selection_within<'a, A: Allocator>(
    name: &str,
    term: &'a Term<A>,
    limit: &Term<A>,
) -> Option<Selection<'a, A>>
    ensures { option_map selection_of result ≡ selection_within (chars name.now) term.now limit.now }
{
    if !is_name(name, "select") {
        return None;
    }
    let limit = Operand::Term(limit).integer()?;
    Some(Selection::SelectLimit(term, limit))
}

/// Returns the command of a session that walks the table, or `None` if the session is no integer or there is no
/// request.
fn walked_by<'a, A: Allocator>(
    session: &Term<A>,
    selection: Option<Selection<'a, A>>,
) -> Option<Command<'a, A>>
    ensures { option_map command_of result
        ≡ walked_by session.now (option_map selection_of selection.entry) }
{
    let number = Operand::Term(session).integer()?;
    Some(Command::Walk(number, selection?))
}

/// Returns the command of a session that has this name and one term, or `None`.
fn told_by<'a, A: Allocator>(
    name: &str,
    session: &Term<A>,
    term: &'a Term<A>,
) -> Option<Command<'a, A>>
    ensures { option_map command_of result ≡ told_by (chars name.now) session.now term.now }
{
    match asked_by(session, ask_with(name, term)) {
        Some(command) => Some(command),
        None => walked_by(session, selection_with(name, term)),
    }
}

/// Returns the command that has this name and no argument, which is `close`, or `None`.
fn closed_by<'a, A: Allocator>(name: &str) -> Option<Command<'a, A>>
    ensures { option_map command_of result ≡ closed_by (chars name.now) }
{
    if is_name(name, "close") {
        return Some(Command::Close);
    }
    None
}

/// Returns the command that opens a table, or `None` if the name is not `open`, the kind is unknown or a number is no
/// integer.
fn opened_by<'a, A: Allocator>(
    name: &str,
    kind: &Term<A>,
    keypos: &Term<A>,
    parts: &Term<A>,
    sessions: &Term<A>,
) -> Option<Command<'a, A>>
    ensures { option_map command_of result
        ≡ opened_by (chars name.now) kind.now keypos.now parts.now sessions.now }
{
    if !is_name(name, "open") {
        return None;
    }
    let kind = kind_named(name_in(kind)?)?;
    let keypos = Operand::Term(keypos).integer()?;
    let parts = Operand::Term(parts).integer()?;
    let sessions = Operand::Term(sessions).integer()?;
    Some(Command::Open(kind, keypos, parts, sessions))
}

/// Returns the command that has this name and these arguments, or `None`.
fn command_with<'a, A: Allocator>(name: &str, arguments: &'a [Term<A>]) -> Option<Command<'a, A>>
    ensures { option_map command_of result ≡ command_with (chars name.now) arguments.now }
{
    match arguments {
        [] => return closed_by(name),
        [session] => return asked_by(session, ask_alone(name)),
        [session, term] => return told_by(name, session, term),
        [session, term, limit] => {
            return walked_by(session, selection_within(name, term, limit));
        }
        [kind, keypos, parts, sessions] => return opened_by(name, kind, keypos, parts, sessions),
        _ => return None,
    }
}

/// Returns the command of a tuple's elements, the name and the arguments, or `None`.
fn command_in<A: Allocator>(elements: &[Term<A>]) -> Option<Command<'_, A>>
    ensures { option_map command_of result ≡ elements_in elements.now }
{
    let [name, arguments @ ..] = elements else {
        return None;
    };
    command_with(name_in(name)?, arguments)
}

/// Returns the command of which this is the term, or `None` if it is the term of no command.
pub fn read_command<A: Allocator>(term: &Term<A>) -> Option<Command<'_, A>>
    ensures { MatchOption result (IsNoCommand term.now)
        (λ command. term.now ≡ command_term (command_of command)) }
{
    command_in(Operand::Term(term).elements()?)
}
