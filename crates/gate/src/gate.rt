//! The gate of one part.
ghost use Rattle.std.specs.Prelude.{ℕ, ◌+◌, ◌≡◌, ◌≢◌, ◌<◌, ◌⊎◌, ◌++◌, Bool, IsTrue, MatchBool, MatchResult, None, IfNone, IfSome, IfOk, IfErr, OnOk, [], ◌∷◌, map};
ghost use Rattle.std.specs.List.{range_with_len};
ghost use Rattle.part_core.specs.Acts.{IsAsked};
ghost use Rattle.part_core.specs.Legal.{fix_count};
ghost use Rattle.part_core.specs.Ops.{act_of, answer_in, entries_made, object_in, takes_no_memory};
ghost use Rattle.gate.specs.declared.view.Role.TheVariants.{Session, Holder};
ghost use Rattle.gate.specs.Rule.{opener, seer, holder};
ghost use Rattle.gate.specs.Steps.{IsTaken, IsHeld};
ghost use Rattle.gate.specs.Views.{first_ticket, ticket_with, GoesOn, IsTurn, IsLeft};

use crate::lost::Lost;
use crate::pass::Pass;
use crate::rule::{Adds, Compare, GateRule, NextPass, PutBack, Take, TakeNote};
use crate::view::View;
use atomic_table::{Seat, Table};
use part_core::{Fault, Part, PartOp, Reply, push_within};
use std::alloc::{AllocError, Allocator, Global};
use std::hint;
use std::marker::{Brand, Model};
use std::snapshot::Snapshot;
use std::sync::Wait;

/// How many times a session looks for the part before it parks.
const LOOKS: u64 = 1_000;

/// Where the part is at home: its slot, and the word that says whether it is there.
#[derive(Drop)]
pub(crate) struct Home<P: Part<A> + Drop, A: Allocator> {
    table: Table<P, View, Snapshot<P>, GateRule<A>, A>,
}

/// The gate of one part: sessions, each on a thread of its own, take the part out, perform one operation on it, and put
/// it back.
#[derive(Drop)]
pub struct Gate<P: Part<A> + Drop, A: Allocator = Global> {
    home: Box<Home<P, A>, A>,
}

impl<P: Part<A> + Drop, A: Allocator> Model for Gate<P, A> {
    ghost use Rattle.std.specs.Prelude.{◌≡◌};
    ghost use Rattle.atomic_table.specs.Seated.{table_id_coded};
    ghost use Rattle.gate.specs.Views.{GateId};

    ghost Value = { GateId };

    ghost coded = { table_id_coded };

    ghost view = { λ g. g.home.value.table.shared.table_id };

    ghost invariant = { λ g. (g.home.value.table.shared.table_id.words ≡ 1) × (g.home.value.table.shared.table_id.slots ≡ 1) };
}

impl<P: Part<A> + Drop, A: Allocator> Gate<P, A> {
    /// Tries to take the part out, at most `looks` times and at least once. Returns whether it did.
    fn take_soon(&self, seat: &mut Seat<P, View>, _number: u8, looks: u64) -> bool
        requires { (seat.old.table_id ≡ self.now) × (seat.old.me.0.role ≡ Session _number) × (seat.old.me.1 ≡ []) }
        ensures seat { seat.new.table_id ≡ seat.old.table_id }
        ensures taken { MatchBool result (IsTaken P.settings P.is_after seat.old.me seat.new.me) (seat.new.me ≡ seat.old.me) }
    {
        let shared = &self.home.table.shared;
        for _look in 0..looks.max(1) {
            if shared.peek(0) == 0 {
                if shared.compare_exchange::<Take<A>>(seat, 0, 0, 1) == 0 {
                    return true;
                }
            }
            hint::spin_loop();
        }
        false
    }

    /// Takes the part out, and waits until it can.
    fn take<R: Wait>(&self, rt: &R, seat: &mut Seat<P, View>, number: u8)
        requires { (seat.old.table_id ≡ self.now) × (seat.old.me.0.role ≡ Session number) × (seat.old.me.1 ≡ []) }
        ensures seat { seat.new.table_id ≡ seat.old.table_id }
        ensures taken { IsTaken P.settings P.is_after seat.old.me seat.new.me }
    {
        if self.take_soon(seat, number, LOOKS) {
            return;
        }
        let shared = &self.home.table.shared;
        for _wait in rt.forever() {
            if shared.swap::<Take<A>>(seat, 0, 2) == 0 {
                return;
            }
            shared.park(rt, 0, 2);
        }
        unreachable!()
    }

    /// Performs an operation on the part that was taken out. Returns its result, and the session's count of fixes after
    /// it.
    fn operate<'a>(
        &self,
        seat: &mut Seat<P, View>,
        number: u8,
        op: &mut PartOp<'a, A>,
    ) -> (Result<Reply<A>, Fault>, u16)
        requires gate { seat.old.table_id ≡ self.now }
        requires held { IsHeld P.settings P.is_after seat.old.me seat.old.me.0.seen }
        requires session { number < seat.old.me.0.settings.sessions }
        requires asked { IsAsked (act_of op.old) }
        ensures gate { seat.new.table_id ≡ seat.old.table_id }
        ensures view { seat.new.me.0 ≡ seat.old.me.0 }
        ensures held { IsHeld P.settings P.is_after seat.new.me (seat.old.me.0.seen ++ entries_made number (act_of op.old) result.0) }
        ensures fixes { result.1 ≡ fix_count number (seat.old.me.0.seen ++ entries_made number (act_of op.old) result.0) }
        ensures back { IfErr result.0 (λ fault. op.new ≡ op.old) }
        ensures spent { OnOk result.0 (object_in op.new ≡ None) }
        ensures sure { IsTrue (takes_no_memory (act_of op.old))
            → IfErr result.0 (λ fault. fault ≢ Fault.Memory) }
    {
        let part = seat.slot_mut(&self.home.table.shared, 0);
        let answer = part.apply(number, op);
        let fixes = part.fixes(number);
        (answer, fixes)
    }

    /// Puts the part back. Returns whether a thread may be waiting for it.
    fn put_back<'a, E: Adds>(
        &self,
        seat: &mut Seat<P, View>,
        _number: u8,
        _asked: &Snapshot<PartOp<'a, A>>,
        _answer: &Result<Reply<A>, Fault>,
    ) -> bool
        requires gate { seat.old.table_id ≡ self.now }
        requires more { E.more ≡ entries_made _number (act_of _asked.now.value) _answer.now }
        requires role { seat.old.me.0.role ≡ Holder _number }
        requires held { IsHeld P.settings P.is_after seat.old.me (seat.old.me.0.seen ++ E.more) }
        ensures gate { seat.new.table_id ≡ seat.old.table_id }
        ensures back { seat.new.me ≡ (seer seat.old.me.0 (seat.old.me.0.seen ++ entries_made _number (act_of _asked.now.value) _answer.now), []) }
    {
        self.home.table.shared.swap::<PutBack<E>>(seat, 0, 0) == 2
    }

    /// Makes a pass for the next session.
    fn next_pass(&self, seat: &mut Seat<P, View>, number: u8) -> Pass<P>
        requires gate { seat.old.table_id ≡ self.now }
        requires opener { (seat.old.me.0 ≡ opener seat.old.me.0.settings number) × (seat.old.me.1 ≡ []) }
        requires session { number < seat.old.me.0.settings.sessions }
        ensures gate { seat.new.table_id ≡ seat.old.table_id }
        ensures opener { (seat.new.me.0 ≡ opener seat.old.me.0.settings (number + 1)) × (seat.new.me.1 ≡ []) }
        ensures pass { result ≡ first_ticket self.now seat.old.me.0.settings number }
    {
        Pass {
            seat: self.home.table.shared.split_seat::<NextPass>(seat),
            number,
            fixes: 0,
        }
    }

    /// Takes the part out, performs an operation on it for the session, and puts it back. Waits while another session
    /// has it. If the operation fails, `op` and the part are as they were; running out of memory leaves no entry in the
    /// history.
    pub fn turn<'a, R: Wait>(
        &self,
        rt: &R,
        pass: &mut Pass<P>,
        op: &mut PartOp<'a, A>,
    ) -> Result<Reply<A>, Fault>
        requires made { pass.old.gate ≡ self.now }
        requires asked { IsAsked (act_of op.old) }
        ensures same { pass.new ≡ ticket_with pass.old pass.new.log }
        ensures entry { IsTurn pass.old.settings pass.old.number pass.old.log (act_of op.old) (answer_in result) pass.new.log }
        ensures back { IfErr result (λ fault. op.new ≡ op.old) }
        ensures spent { OnOk result (object_in op.new ≡ None) }
        ensures sure { IsTrue (takes_no_memory (act_of op.old))
            → IfErr result (λ fault. fault ≢ Fault.Memory) }
    {
        let asked = Snapshot::of(op);
        let number = pass.number;
        self.take(rt, &mut pass.seat, number);
        let (answer, fixes) = self.operate(&mut pass.seat, number, op);
        pass.fixes = fixes;
        if self.put_back::<Brand>(&mut pass.seat, number, &asked, &answer) {
            self.home.table.shared.wake_one(0);
        }
        answer
    }

    /// Takes the part out if one of `looks` looks finds it, at least one, performs an operation on it for the session,
    /// and puts it back. Returns `None` if each look finds that another session has it; then nothing was done. If the
    /// operation fails, `op` and the part are as they were; running out of memory leaves no entry in the history.
    ///
    /// It waits for nobody and wakes nobody: a session that waits in `turn` of the same gate may then sleep on, so a
    /// gate is either for `turn` or for `ask`.
    pub fn ask<'a>(
        &self,
        pass: &mut Pass<P>,
        op: &mut PartOp<'a, A>,
        looks: u64,
    ) -> Option<Result<Reply<A>, Fault>>
        requires made { pass.old.gate ≡ self.now }
        requires asked { IsAsked (act_of op.old) }
        ensures same { pass.new ≡ ticket_with pass.old pass.new.log }
        ensures busy { IfNone result ((pass.new ≡ pass.old) × (op.new ≡ op.old)) }
        ensures entry { IfSome result (λ answer.
            IsTurn pass.old.settings pass.old.number pass.old.log (act_of op.old) (answer_in answer) pass.new.log) }
        ensures back { IfSome result (λ answer. IfErr answer (λ fault. op.new ≡ op.old)) }
        ensures spent { IfSome result (λ answer. OnOk answer (object_in op.new ≡ None)) }
        ensures sure { IfSome result (λ answer. IsTrue (takes_no_memory (act_of op.old))
            → IfErr answer (λ fault. fault ≢ Fault.Memory)) }
    {
        let wanted = Snapshot::of(op);
        let number = pass.number;
        if !self.take_soon(&mut pass.seat, number, looks) {
            return None;
        }
        let (reply, count) = self.operate(&mut pass.seat, number, op);
        pass.fixes = count;
        let _is_awaited = self.put_back::<Brand>(&mut pass.seat, number, &wanted, &reply);
        Some(reply)
    }

    /// Shows that of what two sessions have seen of the part, one begins with the other. It never waits.
    pub fn meet(&self, one: &mut Pass<P>, other: &mut Pass<P>)
        requires { (one.old.gate ≡ self.now) × (other.old.gate ≡ self.now) }
        ensures same { (one.new ≡ one.old) × (other.new ≡ other.old) }
        ensures met { GoesOn one.old.log other.old.log ⊎ GoesOn other.old.log one.old.log }
    {
        let shared = &self.home.table.shared;
        let note = shared.split_seat::<TakeNote>(&mut one.seat);
        shared.join_seat::<TakeNote>(&mut other.seat, note);
        shared.load::<Compare>(&mut other.seat, 0);
    }

    /// Closes the gate, and returns the part. Fails if a session has taken it out and never put it back.
    pub fn close(self, pass: Pass<P>) -> Result<P, Lost>
        requires { pass.gate ≡ self }
        ensures { IfOk result (λ part. (P.settings part ≡ pass.settings)
            × IsLeft P.is_after pass.number pass.log part) }
    {
        let home = Box::into_inner(self.home);
        let mut closed = home.table.close_with(pass.seat);
        let is_home = closed.word(0) == 0;
        let part = closed.take(0);
        closed.free();
        if is_home { Ok(part) } else { Err(Lost) }
    }
}

impl<P: Part<A> + Drop, A: Allocator + Copy> Gate<P, A> {
    /// Makes a gate over a part in its opening state, and a pass for each of its sessions, in the order of their
    /// numbers. Fails if an allocation fails.
    pub fn new(alloc: A, part: P, sessions: u8) -> Result<(Self, Vec<Pass<P>, A>), AllocError>
        requires sessions { (P.settings part).sessions ≡ sessions }
        requires opening { P.is_after part [] }
        ensures { IfOk result (λ made. made.1.items ≡ map (first_ticket made.0 (P.settings part)) (range_with_len 0 sessions)) }
    {
        let made = Snapshot::of(&part);
        let mut slots = Vec::with_capacity(alloc, 1)?;
        push_within(&mut slots, part);
        let Ok((table, mut seat)) = Table::new(alloc, &[0], slots, &made) else {
            return Err(AllocError);
        };
        let home = Box::new(alloc, Home { table })?;
        let gate = Gate { home };
        let passes = gate.passes(alloc, &mut seat, sessions)?;
        Ok((gate, passes))
    }

    /// Makes a pass for each session, in the order of their numbers. Fails if an allocation fails.
    fn passes(
        &self,
        alloc: A,
        seat: &mut Seat<P, View>,
        sessions: u8,
    ) -> Result<Vec<Pass<P>, A>, AllocError>
        requires gate { seat.old.table_id ≡ self.now }
        requires opener { (seat.old.me.0 ≡ opener seat.old.me.0.settings 0) × (seat.old.me.1 ≡ []) }
        requires sessions { seat.old.me.0.settings.sessions ≡ sessions }
        ensures { IfOk result (λ passes. passes.items ≡ map (first_ticket self.now seat.old.me.0.settings) (range_with_len 0 sessions)) }
    {
        let mut passes = Vec::new(alloc);
        for number in 0..sessions {
            let pass = self.next_pass(seat, number);
            match passes.push(pass) {
                Ok(()) => {}
                Err(_) => return Err(AllocError),
            }
        }
        Ok(passes)
    }
}
