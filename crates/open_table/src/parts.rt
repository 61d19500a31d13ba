//! The parts of a table of either sort.
ghost use Rattle.std.specs.Prelude.{◌≡◌, ◌≢◌, ◌<◌, None, IfErr, IfOk, IsErrOf, IsTrue, OnOk};
ghost use Rattle.part_core.specs.Acts.{IsAsked};
ghost use Rattle.part_core.specs.Legal.{fix_count};
ghost use Rattle.part_core.specs.Ops.{act_of, answer_in, object_in, takes_no_memory};
ghost use Rattle.tables.specs.Local.{AreAfter, local_home};
ghost use Rattle.tables.specs.OneThread.{TableState, opened};
ghost use Rattle.tables.specs.Options.{IsOpenable};
ghost use Rattle.tables.specs.Turns.{Views, Follows, Turned};
ghost use Rattle.walks.specs.OneThread.{table_objects};
ghost use Rattle.open_table.specs.Parts.{CanOpen, IsAt, Sees, options_in};

use part_core::{Fault, OpenFault, Part, PartOp, Reply};
use std::alloc::{AllocError, Allocator, Global};
use tables::{LocalTable, Options, TryTurns};
use term_core::Term;

/// The parts of a table, which are of one sort for sets and bags and of another for ordered sets.
#[derive(Drop)]
pub(crate) enum Parts<S: Part<A> + Drop, O: Part<A> + Drop, A: Allocator = Global> {
    /// Of a set or a bag.
    Unordered(LocalTable<S, A>),
    /// Of an ordered set.
    Ordered(LocalTable<O, A>),
}

/// Opens a table without objects. Fails as `LocalTable::open` does.
fn open_in<P: Part<A> + Drop, A: Allocator + Copy>(
    alloc: A,
    options: Options,
) -> Result<LocalTable<P, A>, OpenFault>
    ensures opened { IfOk result (λ l. IsOpenable P.serves options × (l.options ≡ options)
        × IsAt l.options (AreAfter P.is_after l.parts.items) (opened options)) }
    ensures refused { IsErrOf result OpenFault.BadOptions → ¬ (IsOpenable P.serves options) }
    ensures scarce { IsErrOf result OpenFault.Memory → IsOpenable P.serves options }
{
    LocalTable::open(alloc, options)
}

/// Returns copies of the objects of a table, in walk order. Fails if an allocation fails.
fn objects_in<P: Part<A> + Drop, A: Allocator + Copy>(
    table: &LocalTable<P, A>,
) -> Result<Vec<Term<A>, A>, AllocError>
    ensures { IfOk result (λ objects. (t : TableState)
        → IsAt table.now.options (AreAfter P.is_after table.now.parts.items) t
        → objects.items ≡ table_objects t) }
{
    table.objects(*table.parts.allocator())
}

/// Returns how many times a session fixes a part of a table.
fn fixes_in<P: Part<A> + Drop, A: Allocator>(table: &LocalTable<P, A>, session: u8, part: u8) -> u16
    requires session { session < table.now.options.sessions }
    requires part { part < table.now.options.parts }
    ensures { (v : Views) → AreAfter P.is_after table.now.parts.items v
        → result ≡ fix_count session (v part) }
{
    table.parts[usize::from(part)].fixes(session)
}

/// Performs an operation for a session at a part of a table. If it fails, `op` and the part are as they were.
fn turn_in<'a, P: Part<A> + Drop, A: Allocator>(
    table: &mut LocalTable<P, A>,
    session: u8,
    part: u8,
    op: &mut PartOp<'a, A>,
) -> Result<Reply<A>, Fault>
    requires session { session < table.old.options.sessions }
    requires part { part < table.old.options.parts }
    requires asked { IsAsked (act_of op.old) }
    ensures options { table.new.options ≡ table.old.options }
    ensures entry { Follows (AreAfter P.is_after table.old.parts.items) (AreAfter P.is_after table.new.parts.items)
        (Turned (local_home table.old.options session 0) part (act_of op.old) (answer_in result)) }
    ensures back { IfErr result (λ fault. op.new ≡ op.old) }
    ensures spent { OnOk result (object_in op.new ≡ None) }
    ensures sure { IsTrue (takes_no_memory (act_of op.old))
        → IfErr result (λ fault. fault ≢ Fault.Memory) }
{
    let mut session = table.at(session);
    session.turn(part, op)
}

impl<S: Part<A> + Drop, O: Part<A> + Drop, A: Allocator + Copy> Parts<S, O, A> {
    /// Opens the parts of a table without objects. Fails with `BadOptions` exactly if the options are outside their
    /// ranges or the parts of their sort do not serve the kind, else with `Memory` if an allocation fails.
    pub(crate) fn open(alloc: A, options: Options) -> Result<Self, OpenFault>
        ensures opened { IfOk result (λ p. CanOpen S.serves O.serves options × (options_in p ≡ options)
            × IsAt (options_in p) (Sees p) (opened options)) }
        ensures refused { IsErrOf result OpenFault.BadOptions → ¬ (CanOpen S.serves O.serves options) }
        ensures scarce { IsErrOf result OpenFault.Memory → CanOpen S.serves O.serves options }
    {
        if options.kind.is_ordered() {
            match open_in(alloc, options) {
                Ok(table) => Ok(Parts::Ordered(table)),
                Err(fault) => Err(fault),
            }
        } else {
            match open_in(alloc, options) {
                Ok(table) => Ok(Parts::Unordered(table)),
                Err(fault) => Err(fault),
            }
        }
    }

    /// Returns copies of the objects, in walk order. Fails if an allocation fails.
    pub(crate) fn objects(&self) -> Result<Vec<Term<A>, A>, AllocError>
        ensures { IfOk result (λ objects. (t : TableState) → IsAt (options_in self.now) (Sees self.now) t
            → objects.items ≡ table_objects t) }
    {
        match self {
            Parts::Unordered(table) => objects_in(table),
            Parts::Ordered(table) => objects_in(table),
        }
    }

    /// Returns the allocator of the table.
    pub(crate) fn allocator(&self) -> A {
        match self {
            Parts::Unordered(table) => *table.parts.allocator(),
            Parts::Ordered(table) => *table.parts.allocator(),
        }
    }
}

impl<S: Part<A> + Drop, O: Part<A> + Drop, A: Allocator> Parts<S, O, A> {
    /// Returns the options that the table was opened with.
    pub(crate) fn options(&self) -> Options
        ensures { result ≡ options_in self.now }
    {
        match self {
            Parts::Unordered(table) => table.options,
            Parts::Ordered(table) => table.options,
        }
    }

    /// Returns how many times a session fixes a part.
    pub(crate) fn fixes(&self, session: u8, part: u8) -> u16
        requires session { session < (options_in self.now).sessions }
        requires part { part < (options_in self.now).parts }
        ensures { (v : Views) → Sees self.now v → result ≡ fix_count session (v part) }
    {
        match self {
            Parts::Unordered(table) => fixes_in(table, session, part),
            Parts::Ordered(table) => fixes_in(table, session, part),
        }
    }

    /// Performs an operation for a session at a part. If it fails, `op` and the part are as they were.
    pub(crate) fn turn<'a>(
        &mut self,
        session: u8,
        part: u8,
        op: &mut PartOp<'a, A>,
    ) -> Result<Reply<A>, Fault>
        requires session { session < (options_in self.old).sessions }
        requires part { part < (options_in self.old).parts }
        requires asked { IsAsked (act_of op.old) }
        ensures options { options_in self.new ≡ options_in self.old }
        ensures entry { Follows (Sees self.old) (Sees self.new)
            (Turned (local_home (options_in self.old) session 0) part (act_of op.old) (answer_in result)) }
        ensures back { IfErr result (λ fault. op.new ≡ op.old) }
        ensures spent { OnOk result (object_in op.new ≡ None) }
        ensures sure { IsTrue (takes_no_memory (act_of op.old))
            → IfErr result (λ fault. fault ≢ Fault.Memory) }
    {
        match self {
            Parts::Unordered(table) => turn_in(table, session, part, op),
            Parts::Ordered(table) => turn_in(table, session, part, op),
        }
    }
}
