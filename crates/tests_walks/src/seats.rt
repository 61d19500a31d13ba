//! Members of a selection, one of which waits before its first turn until another has made one.
use kit_members::is_raised;
use part_core::{Fault, PartOp, Reply};
use std::alloc::Allocator;
use std::sync::atomic::{AtomicBool, Ordering};
use tables::{Options, TryTurns, Turns};

/// A session that sets a flag once it has made a turn.
#[derive(Drop)]
pub(crate) struct Seat<'f, T> {
    /// The session.
    pub(crate) turns: T,
    /// The flag.
    pub(crate) flag: &'f AtomicBool,
    /// It waits for the flag before its next turn.
    pub(crate) waits: bool,
    /// It waited in vain.
    pub(crate) is_alone: bool,
}

impl<'f, A: Allocator, T: TryTurns<A>> TryTurns<A> for Seat<'f, T> {
    ghost home = { λ s. T.home s.turns };

    ghost is_ready = { λ s. T.is_ready s.turns };

    ghost sees = { λ s. T.sees s.turns };

    ghost is_made = { λ s. T.is_made s.turns };

    ghost fits = { λ s. T.fits s.turns };

    ghost seen = { λ s. T.seen s.turns };

    ghost legal = { λ s. T.legal s.turns };

    fn options(&self) -> Options {
        self.turns.options()
    }

    fn number(&self) -> u8 {
        self.turns.number()
    }

    fn fixes(&self, part: u8) -> u16 {
        self.turns.fixes(part)
    }

    fn turn<'a>(&mut self, part: u8, op: &mut PartOp<'a, A>) -> Result<Reply<A>, Fault> {
        if self.waits {
            self.waits = false;
            self.is_alone = !is_raised(self.flag);
        }
        let answered = self.turns.turn(part, op);
        self.flag.store(true, Ordering::SeqCst);
        answered
    }
}

impl<'f, A: Allocator, T: Turns<A>> Turns<A> for Seat<'f, T> {
    ghost sure = { λ s. T.sure s.turns };
}
