//! Tables on one thread.
ghost use Rattle.std.specs.Prelude.{ℕ, not, ◌&&◌, ◌==◌, ◌≡◌, ◌≢◌, ◌<◌, None, true, IsTrue, IfErr, OnOk, All, IfOk, IsErrOf, MatchOption, Some, [], ◌∷◌, ◌++◌, length, slice_get};
ghost use Rattle.part_core.specs.Acts.{IsAsked};
ghost use Rattle.part_core.specs.Acts.Act.{Release};
ghost use Rattle.part_core.specs.Acts.Answer.{Replied};
ghost use Rattle.part_core.specs.Acts.Said.{Nothing};
ghost use Rattle.part_core.specs.Legal.{fix_count};
ghost use Rattle.part_core.specs.Ops.{act_of, answer_in, object_in, takes_no_memory};
ghost use Rattle.part_core.specs.Served.{IsServed};
ghost use Rattle.part_core.specs.Settings.{is_ordered};
ghost use Rattle.tables.specs.Local.{AreAfter, local_home, objects_seen};
ghost use Rattle.tables.specs.Options.{settings_of, IsOpenable};
ghost use Rattle.tables.specs.Turns.{Views, Follows, Turned, TurnedEach};

use crate::fixing::release;
use crate::opening::{is_split_order, made};
use crate::options::Options;
use crate::turns::{TryTurns, Turns};
use part_core::{Fault, OpenFault, Part, PartOp, Reply};
use std::alloc::{AllocError, Allocator, Global};
use term_core::Term;

/// A table whose parts are used by one thread.
#[derive(Drop)]
pub struct LocalTable<P: Part<A> + Drop, A: Allocator = Global> {
    /// The options that it was opened with.
    pub options: Options,
    /// Its parts, by their numbers.
    pub parts: Vec<P, A>,
    ghost some: { 0 < options.parts },
    ghost count: { length parts.items ≡ options.parts },
    ghost same: { ∥ (All (λ p. P.settings p ≡ settings_of options) parts.items) ∥₁ },
    ghost seen: { ∥ ((v : Views) × AreAfter P.is_after parts.items v) ∥₁ },
}

impl<P: Part<A> + Drop, A: Allocator + Copy> LocalTable<P, A> {
    /// Opens a table without objects. Fails with `BadOptions` exactly if a number is outside its range, an ordered set
    /// has more than one part, or the parts don't serve the kind. Fails with `Memory` only if the options are valid and
    /// an allocation fails.
    pub fn open(alloc: A, options: Options) -> Result<Self, OpenFault>
        ensures opened { IfOk result (λ t. IsOpenable P.serves options × (t.options ≡ options)
            × AreAfter P.is_after t.parts.items (λ part. [])) }
        ensures refused { IsErrOf result OpenFault.BadOptions → ¬ (IsOpenable P.serves options) }
        ensures scarce { IsErrOf result OpenFault.Memory → IsOpenable P.serves options }
    {
        if options.parts == 0 {
            return Err(OpenFault::BadOptions);
        }
        if is_split_order(options) {
            return Err(OpenFault::BadOptions);
        }
        let parts = made(alloc, options)?;
        Ok(LocalTable { options, parts })
    }

    /// Returns copies of the objects, part by part, in each part in walk order. Fails if an allocation fails.
    pub fn objects(&self, alloc: A) -> Result<Vec<Term<A>, A>, AllocError>
        ensures { IfOk result (λ objects. (v : Views) → AreAfter P.is_after self.now.parts.items v
            → objects.items ≡ objects_seen self.now.options v) }
    {
        let mut objects = Vec::new(alloc);
        for part in &self.parts {
            let mut more = part.objects(alloc)?;
            objects.append(&mut more)?;
        }
        Ok(objects)
    }
}

impl<P: Part<A> + Drop, A: Allocator> LocalTable<P, A> {
    /// Performs an operation for a session at a part. If it fails, `op` and the part are as they were.
    fn turn<'a>(&mut self, number: u8, part: u8, op: &mut PartOp<'a, A>) -> Result<Reply<A>, Fault>
        requires session { number < self.old.options.sessions }
        requires part { part < self.old.options.parts }
        requires asked { IsAsked (act_of op.old) }
        ensures options { self.new.options ≡ self.old.options }
        ensures entry { (table : ℕ) → Follows (AreAfter P.is_after self.old.parts.items) (AreAfter P.is_after self.new.parts.items)
            (Turned (local_home self.old.options number table) part (act_of op.old) (answer_in result)) }
        ensures back { IfErr result (λ fault. op.new ≡ op.old) }
        ensures spent { OnOk result (object_in op.new ≡ None) }
        ensures sure { IsTrue (takes_no_memory (act_of op.old))
            → IfErr result (λ fault. fault ≢ Fault.Memory) }
    {
        self.parts[usize::from(part)].apply(number, op)
    }

    /// Returns a session of the table, by its number.
    pub fn at(&mut self, number: u8) -> LocalAt<'_, P, A>
        requires { number < self.old.options.sessions }
        ensures same_reference { result.table.ghost_name ≡ self.entry.ghost_name }
        ensures table { result.table.now ≡ self.old }
        ensures number { result.number ≡ number }
    {
        LocalAt {
            table: self,
            number,
        }
    }

    /// Releases all fixes of a session, at each part.
    pub fn leave(&mut self, number: u8)
        requires { number < self.old.options.sessions }
        ensures options { self.new.options ≡ self.old.options }
        ensures done { (table : ℕ) → Follows (AreAfter P.is_after self.old.parts.items) (AreAfter P.is_after self.new.parts.items)
            (TurnedEach (local_home self.old.options number table) Release (Some (Replied Nothing))) }
    {
        let mut session = self.at(number);
        release(&mut session);
    }

    /// Closes the table: the result hands out its parts, from the last to the first.
    pub fn close(self) -> LocalParts<P, A>
        ensures { result.parts.items ≡ self.parts.items }
    {
        LocalParts { parts: self.parts }
    }
}

/// A session at a table on one thread.
#[derive(Drop)]
pub struct LocalAt<'t, P: Part<A> + Drop, A: Allocator = Global> {
    /// The table.
    pub table: &'t mut LocalTable<P, A>,
    /// The session's number.
    pub number: u8,
}

impl<'t, A: Allocator, P: Part<A> + Drop> TryTurns<A> for LocalAt<'t, P, A> {
    ghost use Rattle.tables.specs.LocalFacts.{local_legal};

    ghost home = { λ s. local_home s.table.now.options s.number s.table.ghost_name };

    ghost is_ready = { λ s. s.number < s.table.now.options.sessions };

    ghost sees = { λ s. AreAfter P.is_after s.table.now.parts.items };

    ghost is_made = { λ s. true };

    ghost fits = { λ s ready. (s.table.now.some, ready) };

    ghost seen = { λ s ready. s.table.now.seen };

    ghost legal = { λ s v part ready sees inside. local_legal P.settings P.is_after P.legal s.table.now.options s.table.now.parts.items s.table.now.count s.table.now.same v sees part inside };

    fn options(&self) -> Options
        ensures { result ≡ self.now.table.now.options }
    {
        self.table.options
    }

    fn number(&self) -> u8
        ensures { result ≡ self.now.number }
    {
        self.number
    }

    fn fixes(&self, part: u8) -> u16
        requires ready { self.now.number < self.now.table.now.options.sessions }
        requires part { part < self.now.table.now.options.parts }
        ensures { (v : Views) → AreAfter P.is_after self.now.table.now.parts.items v
            → result ≡ fix_count self.now.number (v part) }
    {
        self.table.parts[usize::from(part)].fixes(self.number)
    }

    fn turn<'a>(&mut self, part: u8, op: &mut PartOp<'a, A>) -> Result<Reply<A>, Fault>
        requires ready { self.old.number < self.old.table.now.options.sessions }
        requires part { part < self.old.table.now.options.parts }
        requires asked { IsAsked (act_of op.old) }
        ensures ready { self.new.number < self.new.table.now.options.sessions }
        ensures same { local_home self.new.table.now.options self.new.number self.new.table.ghost_name
            ≡ local_home self.old.table.now.options self.old.number self.old.table.ghost_name }
        ensures entry { (v : Views) → AreAfter P.is_after self.old.table.now.parts.items v
            → (w : Views) × AreAfter P.is_after self.new.table.now.parts.items w
            × Turned (local_home self.old.table.now.options self.old.number self.old.table.ghost_name) part
            (act_of op.old) (answer_in result) v w }
        ensures back { IfErr result (λ fault. op.new ≡ op.old) }
        ensures spent { OnOk result (object_in op.new ≡ None) }
        ensures sure { IsTrue true → IsTrue (takes_no_memory (act_of op.old))
            → IfErr result (λ fault. fault ≢ Fault.Memory) }
    {
        self.table.turn(self.number, part, op)
    }
}

impl<'t, A: Allocator, P: Part<A> + Drop> Turns<A> for LocalAt<'t, P, A> {
    ghost use Rattle.std.specs.Prelude.{refl};

    ghost sure = { λ s. refl };
}

/// The parts of a table that was closed.
#[derive(Drop)]
pub struct LocalParts<P: Drop, A: Allocator = Global> {
    /// The parts that have not been handed out yet.
    pub parts: Vec<P, A>,
}

impl<P: Drop, A: Allocator> LocalParts<P, A> {
    ghost use Rattle.std.specs.Prelude.{◌≡◌, [], ◌∷◌, ◌++◌, MatchOption};

    /// Returns the last part that has not been handed out yet, or `None` when all have been.
    pub fn next_part(&mut self) -> Option<P>
        ensures { MatchOption result (self.old.parts.items ≡ [])
            (λ part. self.old.parts.items ≡ self.new.parts.items ++ part ∷ []) }
    {
        self.parts.pop()
    }
}
