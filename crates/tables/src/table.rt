//! Tables whose parts have gates, for sessions on threads of their own.
ghost use Rattle.std.specs.Prelude.{ℕ, ◌≡◌, ◌<◌, ◌⊎◌, All, IfOk, IsErrOf, [], length};
ghost use Rattle.gate.specs.Views.{GoesOn};
ghost use Rattle.tables.specs.Opened.{AreOpened, AreForParts};
ghost use Rattle.tables.specs.Options.{settings_of, IsOpenable};
ghost use Rattle.tables.specs.Sessions.{IsOpened, Sees};
ghost use Rattle.tables.specs.Turns.{Views};

use crate::at::At;
use crate::brief::{BriefAt, Halt};
use crate::fixing::release;
use crate::opening::{gated, is_split_order, made};
use crate::options::Options;
use gate::{Closed, Gate, Session};
use part_core::{OpenFault, Part};
use std::alloc::{Allocator, Global};
use std::sync::Wait;

/// A table whose parts have gates, for sessions on threads of their own.
#[derive(Drop)]
pub struct Table<P: Part<A> + Drop, A: Allocator = Global> {
    /// The options that it was opened with.
    pub options: Options,
    /// The gates of its parts, by their numbers.
    pub gates: Vec<Gate<P, A>, A>,
}

impl<P: Part<A> + Drop, A: Allocator + Copy> Table<P, A> {
    /// Opens a table without objects. Returns it with its sessions, in the order of their numbers. Fails with
    /// `BadOptions` exactly if a number is outside its range, an ordered set has more than one part, or the parts don't
    /// serve the kind. Fails with `Memory` only if the options are valid and an allocation fails.
    pub fn open(alloc: A, options: Options) -> Result<(Self, Vec<Session<P, A>, A>), OpenFault>
        ensures opened { IfOk result (λ made. IsOpenable P.serves options × (made.0.options ≡ options)
            × AreOpened options made.0.gates.items made.1.items) }
        ensures refused { IsErrOf result OpenFault.BadOptions → ¬ (IsOpenable P.serves options) }
        ensures scarce { IsErrOf result OpenFault.Memory → IsOpenable P.serves options }
    {
        if options.parts == 0 {
            return Err(OpenFault::BadOptions);
        }
        if is_split_order(options) {
            return Err(OpenFault::BadOptions);
        }
        let parts = made(alloc, options)?;
        gated(alloc, options, parts)
    }

    /// Opens a table over the given parts, which are in their opening state. Returns it with its sessions, in the order
    /// of their numbers. Fails with `BadOptions` exactly if a number is outside its range, an ordered set has more than
    /// one part, or the number of parts differs. Fails with `Memory` only if the options are valid and an allocation
    /// fails. An error drops the parts.
    pub fn over(
        alloc: A,
        options: Options,
        parts: Vec<P, A>,
    ) -> Result<(Self, Vec<Session<P, A>, A>), OpenFault>
        requires opening { All (λ p. (P.settings p ≡ settings_of options) × P.is_after p []) parts.items }
        ensures opened { IfOk result (λ made. AreForParts options (length parts.items) × (made.0.options ≡ options)
            × AreOpened options made.0.gates.items made.1.items) }
        ensures refused { IsErrOf result OpenFault.BadOptions → ¬ (AreForParts options (length parts.items)) }
        ensures scarce { IsErrOf result OpenFault.Memory → AreForParts options (length parts.items) }
    {
        if !options.settings().are_in_range() {
            return Err(OpenFault::BadOptions);
        }
        if is_split_order(options) {
            return Err(OpenFault::BadOptions);
        }
        if parts.len() != usize::from(options.parts) {
            return Err(OpenFault::BadOptions);
        }
        gated(alloc, options, parts)
    }
}

impl<P: Part<A> + Drop, A: Allocator> Table<P, A> {
    /// Returns a session at the table, which waits by the runtime `rt`.
    pub fn at<'t, R: Wait>(&'t self, rt: &'t R, session: &'t mut Session<P, A>) -> At<'t, P, A, R>
        requires { IsOpened self.now.options self.now.gates.items session.old.number session.old.passes.items }
        ensures table { result.table.now ≡ self.now }
        ensures same_reference { result.session.ghost_name ≡ session.entry.ghost_name }
        ensures session { result.session.now ≡ session.old }
    {
        At {
            table: self,
            session,
            rt,
        }
    }

    /// Returns a session at the table that waits for no part: it looks for a part `looks` times in a turn, at least once,
    /// and makes at most `turns` turns.
    pub fn brief_at<'t>(
        &'t self,
        session: &'t mut Session<P, A>,
        looks: u64,
        turns: u64,
    ) -> BriefAt<'t, P, A>
        requires { IsOpened self.now.options self.now.gates.items session.old.number session.old.passes.items }
        ensures table { result.table.now ≡ self.now }
        ensures same_reference { result.session.ghost_name ≡ session.entry.ghost_name }
        ensures session { result.session.now ≡ session.old }
        ensures bounds { (result.looks ≡ looks) × (result.left ≡ turns) }
    {
        BriefAt {
            table: self,
            session,
            looks,
            left: turns,
            halt: Halt::Nothing,
        }
    }

    /// Releases all fixes of a session, and drops the session.
    pub fn leave<R: Wait>(&self, rt: &R, session: Session<P, A>)
        requires { IsOpened self.now.options self.now.gates.items session.number session.passes.items }
    {
        let mut session = session;
        let mut at = self.at(rt, &mut session);
        release(&mut at);
    }

    /// Shows that of what two sessions have seen of a part, one begins with the other, at each part. It never waits.
    pub fn meet(&self, one: &mut Session<P, A>, other: &mut Session<P, A>)
        requires one { IsOpened self.now.options self.now.gates.items one.old.number one.old.passes.items }
        requires other { IsOpened self.now.options self.now.gates.items other.old.number other.old.passes.items }
        ensures one { (one.new.number ≡ one.old.number) × (one.new.passes.items ≡ one.old.passes.items) }
        ensures other { (other.new.number ≡ other.old.number) × (other.new.passes.items ≡ other.old.passes.items) }
        ensures met { (part : ℕ) (v w : Views) → part < self.now.options.parts → Sees one.old.passes.items v
            → Sees other.old.passes.items w → GoesOn (v part) (w part) ⊎ GoesOn (w part) (v part) }
    {
        for part in 0..self.options.parts {
            one.meet_at(other, &self.gates[usize::from(part)], part);
        }
    }

    /// Closes the table: the result hands out its parts, from the last to the first.
    pub fn close(self, session: Session<P, A>) -> Closed<P, A>
        requires { IsOpened self.options self.gates.items session.number session.passes.items }
        ensures gates { result.gates.items ≡ self.gates.items }
        ensures passes { result.passes.items ≡ session.passes.items }
    {
        Closed {
            gates: self.gates,
            passes: session.passes,
        }
    }
}
