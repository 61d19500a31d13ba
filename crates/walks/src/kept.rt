//! Answers that were not returned yet.
use std::alloc::{AllocError, Allocator, Global};
use std::collections::VecDeque;
use std::mem;
use term_core::Term;

/// Answers that were not returned yet. Those of the last visit are kept apart, so that keeping them needs no memory.
#[derive(Drop)]
pub struct Kept<A: Allocator = Global> {
    /// Answers of earlier visits.
    pub earlier: VecDeque<Term<A>, A>,
    /// Answers of the last visit.
    pub last: VecDeque<Term<A>, A>,
}

impl<A: Allocator> Kept<A> {
    ghost use Rattle.std.specs.Prelude.{◌≡◌, ◌<◌, ◌≤◌, ◌++◌, [], IfOk, IfErr, take, drop, length};
    ghost use Rattle.walks.specs.Query.{kept_of};

    /// Appends the answers of the last visit to the earlier ones. If an allocation fails, returns an error, and no
    /// answer is lost.
    pub(crate) fn settle(&mut self) -> Result<(), AllocError>
        ensures same { kept_of self.new ≡ kept_of self.old }
        ensures settled { IfOk result (λ _. self.new.last.items ≡ []) }
    {
        self.earlier.append(&mut self.last)
    }

    /// Returns the number of answers, without those of the last visit.
    pub(crate) fn len(&self) -> u64
        ensures length { result ≡ length self.now.earlier.items }
        ensures small { result < 18446744073709551615 }
    {
        self.earlier.len() as u64
    }

    /// Takes the answers of a visit as those of the last visit, of which there must be none.
    pub(crate) fn hold(&mut self, answers: Vec<Term<A>, A>)
        requires { self.old.last.items ≡ [] }
        ensures { kept_of self.new ≡ kept_of self.old ++ answers.items }
    {
        self.last = VecDeque::from_vec(answers);
    }
}

impl<A: Allocator + Copy> Kept<A> {
    ghost use Rattle.std.specs.Prelude.{◌≡◌, ◌≤◌, ◌<◌, ◌++◌, [], IfOk, IfErr, take, drop, length};
    ghost use Rattle.walks.specs.Query.{kept_of};

    /// Returns no answers.
    pub(crate) fn new(alloc: A) -> Self
        ensures none { kept_of result ≡ [] }
        ensures settled { result.last.items ≡ [] }
    {
        Kept {
            earlier: VecDeque::new(alloc),
            last: VecDeque::new(alloc),
        }
    }

    /// Takes all answers of earlier visits.
    fn take_all(&mut self, alloc: A) -> Vec<Term<A>, A>
        ensures none { self.new.earlier.items ≡ [] }
        ensures last { self.new.last ≡ self.old.last }
        ensures all { result.items ≡ self.old.earlier.items }
    {
        mem::replace(&mut self.earlier, VecDeque::new(alloc)).into_vec()
    }

    /// Takes the first `limit` answers of earlier visits. If an allocation fails, returns an error, and they are
    /// unchanged.
    fn take_first(&mut self, alloc: A, limit: usize) -> Result<Vec<Term<A>, A>, AllocError>
        requires { limit ≤ length self.old.earlier.items }
        ensures first { IfOk result (λ piece. (piece.items ≡ take limit self.old.earlier.items)
            × (self.new.earlier.items ≡ drop limit self.old.earlier.items)) }
        ensures last { self.new.last ≡ self.old.last }
        ensures refused { IfErr result (λ _. self.new.earlier.items ≡ self.old.earlier.items) }
    {
        let mut piece = Vec::with_capacity(alloc, limit)?;
        for _taken in 0..limit {
            if let Some(answer) = self.earlier.pop_front() {
                piece.push_reserved(answer);
            }
        }
        Ok(piece)
    }

    /// Takes the first answers, at most `limit`. There must be none of the last visit. If an allocation fails, returns
    /// an error, and the answers are unchanged.
    pub(crate) fn piece(&mut self, alloc: A, limit: u64) -> Result<Vec<Term<A>, A>, AllocError>
        requires { self.old.last.items ≡ [] }
        ensures given { IfOk result (λ piece. (piece.items ≡ take limit (kept_of self.old))
            × (kept_of self.new ≡ drop limit (kept_of self.old))) }
        ensures refused { IfErr result (λ _. kept_of self.new ≡ kept_of self.old) }
    {
        if self.len() <= limit {
            return Ok(self.take_all(alloc));
        }
        self.take_first(alloc, limit as usize)
    }
}
