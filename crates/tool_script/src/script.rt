//! A script between two commands.
use crate::command::{Ask, Command, Selection};
use crate::continuations::Continuations;
use crate::open::{OpenTable, options_in};
use crate::reply::CommandReply;
use part_core::{OpenFault, Part, TableKind};
use std::alloc::{AllocError, Allocator, Global};
use std::mem;
use tables::Options;
use tool_io::BAD_INPUT;

/// The open table, by its kind, or none.
#[derive(Drop)]
pub(crate) enum Current<S: Part<A> + Drop, O: Part<A> + Drop, A: Allocator = Global> {
    /// No table is open.
    NoTable,
    /// A set or a bag.
    Unordered(OpenTable<S, A>),
    /// An ordered set.
    Ordered(OpenTable<O, A>),
}

impl<S: Part<A> + Drop, O: Part<A> + Drop, A: Allocator + Copy> Current<S, O, A> {
    ghost use Rattle.std.specs.Prelude.{◌≡◌, IfOk, IsFalse, IsTrue, Option, Some, is_some};
    ghost use Rattle.part_core.specs.Settings.{is_ordered};
    ghost use Rattle.tables.specs.Options.{IsOpenable};
    ghost use Rattle.tool_script.specs.Script.{OpenTable as OpenState, newly_opened};
    ghost use Rattle.tool_script.specs.Scripts.{HasTable, open_options};

    /// Opens a table with these options. Fails if an allocation fails.
    fn open(alloc: A, options: Options) -> Result<Self, AllocError>
        requires unordered { IsFalse (is_ordered options.kind) → IsOpenable S.serves options }
        requires ordered { IsTrue (is_ordered options.kind) → IsOpenable O.serves options }
        ensures table { IfOk result (λ current. HasTable current (Some (newly_opened options))) }
        ensures options { IfOk result (λ current. open_options current ≡ Some options) }
    {
        if options.kind.is_ordered() {
            Ok(Current::Ordered(OpenTable::new(alloc, options)?))
        } else {
            Ok(Current::Unordered(OpenTable::new(alloc, options)?))
        }
    }

    /// Returns whether a table is open.
    fn is_open(&self) -> bool
        ensures { (state : Option OpenState) → HasTable self.now state → result ≡ is_some state }
    {
        match self {
            Current::NoTable => false,
            Current::Unordered(_) => true,
            Current::Ordered(_) => true,
        }
    }
}

/// The open table, if there is one; the number of tables opened so far; the walks that can go on; and the number of
/// commands taken up so far.
pub(crate) struct Script<S: Part<A> + Drop, O: Part<A> + Drop, A: Allocator = Global> {
    alloc: A,
    current: Current<S, O, A>,
    count: u64,
    walks: Continuations<A>,
    taken: u64,
}

/// By hand: a function that drops one has one call in its proof, and not a case for each way in which its parts are dropped.
impl<S: Part<A> + Drop, O: Part<A> + Drop, A: Allocator> Drop for Script<S, O, A> {
    fn drop(self) {
        let Script {
            alloc,
            current,
            count: _count,
            walks,
            taken: _taken,
        } = self;
        drop(alloc);
        drop(current);
        drop(walks);
    }
}

impl<S: Part<A> + Drop, O: Part<A> + Drop, A: Allocator + Copy> Script<S, O, A> {
    ghost use Rattle.std.specs.Prelude.{◌≡◌, IfOk, IsTrue};
    ghost use Rattle.part_core.specs.declared.kind.TableKind.TheVariants.{OrderedSet};
    ghost use Rattle.part_core.specs.Served.{ServesUnordered};
    ghost use Rattle.tool_script.specs.Command.Command.{Open, Session, Walk, Close};
    ghost use Rattle.tool_script.specs.Commands.{ask_of, command_of, selection_of};
    ghost use Rattle.tool_script.specs.Replies.{reply_term};
    ghost use Rattle.tool_script.specs.Script.{ScriptState, beginning};
    ghost use Rattle.tool_script.specs.Scripts.{AreTaken, HasState, IsStep};

    /// Returns a script at its beginning: no table was opened, and no command taken up.
    pub(crate) fn new(alloc: A) -> Self
        ensures state { HasState result beginning }
        ensures taken { result.taken ≡ 0 }
    {
        Script {
            alloc,
            current: Current::NoTable,
            count: 0,
            walks: Continuations::new(alloc),
            taken: 0,
        }
    }

    /// Counts a command that is taken up. The count ends at 2^64 - 1.
    pub(crate) fn take_up(&mut self)
        ensures taken { AreTaken self.old self.new 1 }
        ensures same { (st : ScriptState) → HasState self.old st → HasState self.new st }
    {
        if self.taken < u64::MAX {
            self.taken += 1;
        }
    }

    /// Opens a table. Replies with error 65 if a table is open, and with error 60 if the options are outside their
    /// ranges. Fails if an allocation fails, or if 2^64 - 1 tables have been opened.
    fn open(
        &mut self,
        kind: TableKind,
        keypos: i64,
        parts: i64,
        sessions: i64,
    ) -> Result<CommandReply<A>, AllocError>
        requires unordered { ServesUnordered S.serves }
        requires ordered { IsTrue (O.serves OrderedSet) }
        ensures taken { self.new.taken ≡ self.old.taken }
        ensures answered { IfOk result (λ reply.
            IsStep self.old self.new (Open kind keypos parts sessions) (reply_term reply)) }
    {
        if self.current.is_open() {
            return Ok(CommandReply::Error(BAD_INPUT));
        }
        let Some(options) = options_in(self.count, kind, keypos, parts, sessions) else {
            return Ok(CommandReply::Error(OpenFault::BadOptions.number()));
        };
        let Some(count) = self.count.checked_add(1) else {
            return Err(AllocError);
        };
        let table = Current::open(self.alloc, options)?;
        drop(mem::replace(&mut self.current, table));
        self.count = count;
        Ok(CommandReply::Flag(true))
    }

    /// Closes the table and replies with its objects in walk order; error 65 if none is open. Drops the walks, which
    /// can't go on any more.
    fn close(&mut self) -> Result<CommandReply<A>, AllocError>
        ensures taken { self.new.taken ≡ self.old.taken }
        ensures answered { IfOk result (λ reply.
            IsStep self.old self.new Close (reply_term reply)) }
    {
        self.walks.clear();
        match mem::replace(&mut self.current, Current::NoTable) {
            Current::Unordered(table) => Ok(CommandReply::Objects(table.close(self.alloc)?)),
            Current::Ordered(table) => Ok(CommandReply::Objects(table.close(self.alloc)?)),
            Current::NoTable => Ok(CommandReply::Error(BAD_INPUT)),
        }
    }

    /// Passes a session's request to the open table. Replies with error 65 if none is open.
    fn forward(&mut self, number: i64, ask: Ask<'_, A>) -> Result<CommandReply<A>, AllocError>
        ensures taken { self.new.taken ≡ self.old.taken }
        ensures answered { IfOk result (λ reply.
            IsStep self.old self.new (Session number (ask_of ask.entry)) (reply_term reply)) }
    {
        match &mut self.current {
            Current::Unordered(table) => table.admit(number, ask),
            Current::Ordered(table) => table.admit(number, ask),
            Current::NoTable => Ok(CommandReply::Error(BAD_INPUT)),
        }
    }

    /// Has a session walk the open table. Replies with error 65 if none is open.
    fn walk(
        &mut self,
        number: i64,
        selection: Selection<'_, A>,
    ) -> Result<CommandReply<A>, AllocError>
        ensures taken { self.new.taken ≡ self.old.taken }
        ensures answered { IfOk result (λ reply.
            IsStep self.old self.new (Walk number (selection_of selection.entry)) (reply_term reply)) }
    {
        let alloc = self.alloc;
        let walks = &mut self.walks;
        match &mut self.current {
            Current::Unordered(table) => table.admit_walk(alloc, walks, number, selection),
            Current::Ordered(table) => table.admit_walk(alloc, walks, number, selection),
            Current::NoTable => Ok(CommandReply::Error(BAD_INPUT)),
        }
    }

    /// Obeys a command and returns the reply. Fails if an allocation fails, or if 2^64 - 1 tables have been opened.
    pub(crate) fn obey(&mut self, command: Command<'_, A>) -> Result<CommandReply<A>, AllocError>
        requires unordered { ServesUnordered S.serves }
        requires ordered { IsTrue (O.serves OrderedSet) }
        ensures taken { self.new.taken ≡ self.old.taken }
        ensures answered { IfOk result (λ reply.
            IsStep self.old self.new (command_of command.entry) (reply_term reply)) }
    {
        match command {
            Command::Open(kind, keypos, parts, sessions) => {
                self.open(kind, keypos, parts, sessions)
            }
            Command::Session(number, ask) => self.forward(number, ask),
            Command::Walk(number, selection) => self.walk(number, selection),
            Command::Close => self.close(),
        }
    }
}
