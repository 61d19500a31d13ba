//! The open table of a script, and which sessions have left it.
ghost use Rattle.std.specs.Prelude.{◌≡◌, IfOk};
ghost use Rattle.tables.specs.Local.{AreAfter};
ghost use Rattle.tables.specs.OneThread.{opened};
ghost use Rattle.tables.specs.Options.{IsOpenable};
ghost use Rattle.tool_script.specs.Commands.{ask_of};
ghost use Rattle.tool_script.specs.Opened.{IsNoted};
ghost use Rattle.tool_script.specs.Script.{number_within, options_with, is_leaving};
ghost use Rattle.tool_script.specs.State.{IsAt};

use crate::command::{Ask, Selection};
use crate::continuations::Continuations;
use crate::reply::CommandReply;
use crate::session::perform;
use crate::walk::walk;
use part_core::{MAX_KEYPOS, MAX_PARTS, MAX_SESSIONS, Part, TableKind};
use std::alloc::{AllocError, Allocator, Global};
use tables::{LocalTable, Options};
use term_core::Term;
use tool_io::STRANGER_SESSION;

/// Returns the number as a key position if it is between 1 and 65,535, else `None`.
fn keypos_in(value: i64) -> Option<u16>
    ensures { result ≡ number_within 1 65535 value }
{
    if value < 1 || i64::from(MAX_KEYPOS) < value {
        return None;
    }
    Some(value as u16)
}

/// Returns the number if it is between 1 and `most`, else `None`.
fn small_in(value: i64, most: u8) -> Option<u8>
    ensures { result ≡ number_within 1 most value }
{
    if value < 1 || i64::from(most) < value {
        return None;
    }
    Some(value as u8)
}

/// Returns the options of a table: a key position from 1 to 65,535, 1 to 64 parts and 1 to 16 sessions. Returns `None`
/// if a number is outside its range, or an ordered set has more than one part.
pub(crate) fn options_in(
    name: u64,
    kind: TableKind,
    keypos: i64,
    parts: i64,
    sessions: i64,
) -> Option<Options>
    ensures { result ≡ options_with name kind (number_within 1 65535 keypos)
        (number_within 1 64 parts) (number_within 1 16 sessions) }
{
    let keypos = keypos_in(keypos)?;
    let parts = small_in(parts, MAX_PARTS)?;
    let sessions = small_in(sessions, MAX_SESSIONS)?;
    if kind.is_ordered() && parts != 1 {
        return None;
    }
    Some(Options {
        name,
        kind,
        keypos,
        parts,
        sessions,
    })
}

/// Returns whether the session leaves the table with this request.
fn is_leaving<A: Allocator>(ask: &Ask<'_, A>) -> bool
    ensures { result ≡ is_leaving (ask_of ask.now) }
{
    match ask {
        Ask::Leave => true,
        Ask::Insert(_) | Ask::InsertNew(_) | Ask::Lookup(_) | Ask::Member(_) | Ask::Delete(_) => {
            false
        }
        Ask::DeleteObject(_) | Ask::Take(_) | Ask::Fix | Ask::Unfix | Ask::First | Ask::Next(_) => {
            false
        }
    }
}

/// Notes that a session has left, if it leaves; otherwise changes nothing.
fn note_leaving<A: Allocator>(left: &mut Vec<bool, A>, number: u8, leaves: bool)
    ensures { IsNoted number leaves left.old.items left.new.items }
{
    let place = usize::from(number);
    if !leaves {
        return;
    }
    if place < left.len() {
        left[place] = true;
    }
}

/// Opens a table with options that its parts support. Fails if an allocation fails.
fn open_at<A: Allocator + Copy, P: Part<A> + Drop>(
    alloc: A,
    options: Options,
) -> Result<LocalTable<P, A>, AllocError>
    requires { IsOpenable P.serves options }
    ensures options { IfOk result (λ table. table.options ≡ options) }
    ensures state { IfOk result (λ table. IsAt table.options
        (AreAfter P.is_after table.parts.items) (opened options)) }
{
    LocalTable::open(alloc, options).map_err(|fault| fault.alloc_error())
}

/// An open table, and for each session whether it has left.
#[derive(Drop)]
pub(crate) struct OpenTable<P: Part<A> + Drop, A: Allocator = Global> {
    table: LocalTable<P, A>,
    left: Vec<bool, A>,
}

impl<P: Part<A> + Drop, A: Allocator + Copy> OpenTable<P, A> {
    ghost use Rattle.std.specs.Prelude.{◌≡◌, ◌<◌, IfSome, IfOk};
    ghost use Rattle.tables.specs.Options.{IsOpenable};
    ghost use Rattle.walks.specs.OneThread.{table_objects};
    ghost use Rattle.tool_script.specs.Commands.{ask_of, selection_of};
    ghost use Rattle.tool_script.specs.Replies.{reply_term};
    ghost use Rattle.tool_script.specs.Script.{OpenTable as OpenState, session_number, newly_opened};
    ghost use Rattle.tool_script.specs.Opened.{IsOpen, IsSelectionAnswered, IsSessionAnswered};

    /// Opens a table that no session has left. Fails if an allocation fails.
    pub(crate) fn new(alloc: A, options: Options) -> Result<Self, AllocError>
        requires { IsOpenable P.serves options }
        ensures options { IfOk result (λ table. table.table.options ≡ options) }
        ensures state { IfOk result (λ table. IsOpen table (newly_opened options)) }
    {
        let table = open_at(alloc, options)?;
        let left = vec![in alloc; false; usize::from(options.sessions)]?;
        Ok(OpenTable { table, left })
    }

    /// Returns the session with this number, or `None` if it does not exist or has left.
    fn session(&self, number: i64) -> Option<u8>
        ensures inside { IfSome result (λ n. n < self.now.table.options.sessions) }
        ensures found { (o : OpenState) → IsOpen self.now o → result ≡ session_number o number }
    {
        let sessions = self.table.options.sessions;
        if number < 0 || i64::from(sessions) <= number {
            return None;
        }
        let number = number as u8;
        match self.left.get(usize::from(number)) {
            Some(false) => Some(number),
            _ => None,
        }
    }

    /// Has a session do what it requests, and notes whether it leaves. Replies with error 61 if the session does not
    /// exist or has left. Fails if an allocation fails.
    pub(crate) fn admit(
        &mut self,
        number: i64,
        ask: Ask<'_, A>,
    ) -> Result<CommandReply<A>, AllocError>
        ensures options { IfOk result (λ _. self.new.table.options ≡ self.old.table.options) }
        ensures answered { IfOk result (λ reply.
            IsSessionAnswered self.old self.new number (ask_of ask.entry) (reply_term reply)) }
    {
        let Some(number) = self.session(number) else {
            return Ok(CommandReply::Error(STRANGER_SESSION));
        };
        let leaves = is_leaving(&ask);
        let mut session = self.table.at(number);
        let reply = perform(&mut session, ask)?;
        note_leaving(&mut self.left, number, leaves);
        Ok(reply)
    }

    /// Has a session walk the table. Replies with error 61 if the session does not exist or has left. Fails if an
    /// allocation fails.
    pub(crate) fn admit_walk(
        &mut self,
        alloc: A,
        walks: &mut Continuations<A>,
        number: i64,
        selection: Selection<'_, A>,
    ) -> Result<CommandReply<A>, AllocError>
        ensures options { IfOk result (λ _. self.new.table.options ≡ self.old.table.options) }
        ensures answered { IfOk result (λ reply. IsSelectionAnswered self.old self.new
            walks.old walks.new number (selection_of selection.entry) (reply_term reply)) }
    {
        let Some(number) = self.session(number) else {
            return Ok(CommandReply::Error(STRANGER_SESSION));
        };
        let mut session = self.table.at(number);
        walk(alloc, &mut session, walks, selection)
    }

    /// Closes the table and returns its objects in walk order. Fails if an allocation fails.
    pub(crate) fn close(self, alloc: A) -> Result<Vec<Term<A>, A>, AllocError>
        ensures { IfOk result (λ objects. (o : OpenState) → IsOpen self o
            → objects.items ≡ table_objects o.table) }
    {
        self.table.objects(alloc)
    }
}
