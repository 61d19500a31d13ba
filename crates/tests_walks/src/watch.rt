//! What is checked of calls with failing allocations.
use kit_alloc::{Failing, Plan};
use std::alloc::Global;

/// The calls of a run, over an allocator of which one allocation fails alone, or all from one on.
#[derive(Drop)]
pub(crate) struct Watch<'h> {
    heap: &'h Failing<Global>,
    /// An allocation had failed when the last call ended.
    was_refused: bool,
    /// All was right so far.
    is_right: bool,
}

impl<'h> Watch<'h> {
    /// Returns a watch before any call.
    pub(crate) fn new(heap: &'h Failing<Global>) -> Self {
        Watch {
            heap,
            was_refused: heap.was_refused(),
            is_right: true,
        }
    }

    /// Returns whether a call that failed may fail again, since all later allocations fail too.
    fn is_onward(&self) -> bool {
        matches!(self.heap.plan(), Plan::From(_))
    }

    /// Records whether something is as it has to be.
    pub(crate) fn sees(&mut self, is_so: bool) {
        self.is_right = self.is_right && is_so;
    }

    /// Records the end of a call, which has to fail exactly if one of its allocations did.
    pub(crate) fn ended(&mut self, is_refused: bool) {
        let before = self.was_refused;
        let now = self.heap.was_refused();
        self.was_refused = now;
        let is_due = if is_refused {
            now && (!before || self.is_onward())
        } else {
            now == before
        };
        self.sees(is_due);
    }

    /// Returns whether all was right so far.
    pub(crate) fn is_right(&self) -> bool {
        self.is_right
    }

    /// Returns whether all was right in a run that ended at a call which failed again, as it may if all later
    /// allocations fail.
    pub(crate) fn stops(&self) -> bool {
        self.is_right && self.is_onward()
    }
}
