//! One operation at a part. An operation that is rejected has to be returned unchanged: it is tried again, and has to
//! be rejected again, unless memory had run out, which may be available then. The calls that run out of memory are
//! counted.
ghost use Rattle.std.specs.Prelude.{◌≡◌, ◌<◌, IfOk, IfErr};
ghost use Rattle.part_core.specs.Acts.{IsAsked};
ghost use Rattle.part_core.specs.Ops.{act_of};

use part_core::{Fault, OpenFault, Part, PartOp, Reply, TableKind};
use std::alloc::Allocator;
use std::sync::atomic::{AtomicU64, Ordering};
use term_core::Term;
use verifier::Verified;

/// Whether allocations may fail while a row runs, and how many calls ran out of memory then.
#[derive(Drop)]
pub struct Wants {
    is_scarce: bool,
    count: AtomicU64,
}

impl Wants {
    /// Returns a count of 0.
    pub fn new(is_scarce: bool) -> Self {
        Wants {
            is_scarce,
            count: AtomicU64::new(0),
        }
    }

    /// Returns how many calls ran out of memory while allocations might fail.
    pub fn count(&self) -> u64 {
        self.count.load(Ordering::SeqCst)
    }

    /// Returns whether allocations may fail, and counts a call that ran out of memory if so.
    pub(crate) fn note(&self) -> bool {
        if self.is_scarce {
            self.count.fetch_add(1, Ordering::SeqCst);
        }
        self.is_scarce
    }
}

/// The session that makes an operation, what counts the calls that run out of memory, and the code with which the part
/// is visited, if it is compared.
#[derive(Clone, Copy)]
pub(crate) struct Turn<'w, A: Allocator + Copy> {
    pub(crate) session: u8,
    pub(crate) wants: &'w Wants,
    pub(crate) watch: Option<&'w Verified<A>>,
}

/// The options with which a part is made.
#[derive(Clone, Copy)]
pub struct Options {
    /// The kind of the table.
    pub kind: TableKind,
    /// The position of the key in an object, counted from 1.
    pub keypos: u16,
    /// The number of parts of the table.
    pub parts: u8,
    /// The number of sessions that use the part, numbered from 0.
    pub sessions: u8,
}

/// Makes a part with these options.
fn make<A: Allocator + Copy, P: Part<A>>(heap: A, options: Options) -> Result<P, OpenFault>
    ensures { IfOk result (λ p. (P.settings p).sessions ≡ options.sessions) }
{
    P::make(
        heap,
        options.kind,
        options.keypos,
        options.parts,
        options.sessions,
    )
}

/// Makes a part with these options, and tries again if an allocation failed that may fail.
pub fn made<A: Allocator + Copy, P: Part<A>>(
    heap: A,
    options: Options,
    wants: &Wants,
) -> Result<P, OpenFault>
    ensures { IfOk result (λ p. (P.settings p).sessions ≡ options.sessions) }
{
    match make::<A, P>(heap, options) {
        Ok(part) => Ok(part),
        Err(fault) => {
            if fault == OpenFault::Memory && wants.note() {
                make::<A, P>(heap, options)
            } else {
                Err(fault)
            }
        }
    }
}

/// Returns whether an operation never allocates.
pub(crate) fn takes_no_memory<A: Allocator>(op: &PartOp<'_, A>) -> bool {
    match op {
        PartOp::Member(_) | PartOp::Delete(_) | PartOp::DeleteObject(_) => true,
        PartOp::Fix | PartOp::Unfix | PartOp::Release => true,
        _ => false,
    }
}

/// Returns whether an operation that allocates ran out of memory while allocations may fail, and counts it if so.
pub(crate) fn wants_memory<A: Allocator + Copy>(
    turn: Turn<'_, A>,
    op: &PartOp<'_, A>,
    fault: Fault,
) -> bool {
    fault == Fault::Memory && !takes_no_memory(op) && turn.wants.note()
}

/// Performs an operation, and tries again if it allocates and ran out of memory while allocations may fail.
fn done<'a, A: Allocator + Copy, P: Part<A>>(
    part: &mut P,
    turn: Turn<'_, A>,
    op: &mut PartOp<'a, A>,
) -> Result<Reply<A>, Fault>
    requires session { turn.session < (P.settings part.old).sessions }
    requires asked { IsAsked (act_of op.old) }
    ensures settings { P.settings part.new ≡ P.settings part.old }
    ensures back { IfErr result (λ fault. op.new ≡ op.old) }
{
    match part.apply(turn.session, op) {
        Ok(reply) => Ok(reply),
        Err(fault) => {
            if wants_memory(turn, op, fault) {
                part.apply(turn.session, op)
            } else {
                Err(fault)
            }
        }
    }
}

/// Performs an operation. Tries again if it is rejected, unless it ran out of memory twice.
pub(crate) fn answer<'a, A: Allocator + Copy, P: Part<A>>(
    part: &mut P,
    turn: Turn<'_, A>,
    op: &mut PartOp<'a, A>,
) -> Result<Reply<A>, Fault>
    requires session { turn.session < (P.settings part.old).sessions }
    requires asked { IsAsked (act_of op.old) }
    ensures { P.settings part.new ≡ P.settings part.old }
{
    match done(part, turn, op) {
        Ok(reply) => Ok(reply),
        Err(fault) => {
            if wants_memory(turn, op, fault) {
                Err(fault)
            } else {
                done(part, turn, op)
            }
        }
    }
}

/// Returns whether the result of an operation ends the row, since it ran out of memory again, and counts it if so.
pub(crate) fn ends<A: Allocator + Copy>(
    turn: Turn<'_, A>,
    op: &PartOp<'_, A>,
    answer: &Result<Reply<A>, Fault>,
) -> bool {
    match answer {
        Ok(_) => false,
        Err(fault) => wants_memory(turn, op, *fault),
    }
}

/// Returns the objects of a part. Tries again if memory ran out while allocations may fail.
pub(crate) fn objects<A: Allocator + Copy, P: Part<A>>(
    heap: A,
    part: &P,
    turn: Turn<'_, A>,
) -> Option<Vec<Term<A>, A>> {
    if let Ok(objects) = part.objects(heap) {
        return Some(objects);
    }
    if !turn.wants.note() {
        return None;
    }
    let again = part.objects(heap);
    if again.is_err() {
        turn.wants.note();
    }
    again.ok()
}
