//! What walks gain: answers, or a count.
ghost use Rattle.std.specs.Prelude.{◌≡◌, Some, IsTrue, IfOk, IfErr, List, min, ◌+◌, option_map};
ghost use Rattle.term_core.specs.Datum.{Datum};
ghost use Rattle.part_core.specs.Acts.{next_in};
ghost use Rattle.part_core.specs.Acts.Act.{Visit};
ghost use Rattle.part_core.specs.Ops.{act_of, cursor_of, said_of, scope_of};
ghost use Rattle.part_core.specs.Replies.{most_counted};
ghost use Rattle.parallel_select.specs.Gained.{IsCounted, TakesIn, is_told, purpose_of};

use part_core::{Cursor, Look, PartOp, Reply, Scope};
use std::alloc::{AllocError, Allocator, Global};
use term_core::Term;
use verifier::Verified;

/// The purpose of visits.
#[derive(Clone, Copy)]
pub enum Asking {
    /// To return answers.
    Answers,
    /// To count the objects for which the query returns `true`.
    Counts,
    /// To delete the objects for which the query returns `true`.
    Deletes,
}

/// What walks gained so far.
#[derive(Drop)]
pub enum Gained<A: Allocator = Global> {
    /// Answers.
    Answers(Vec<Term<A>, A>),
    /// How many objects were counted or deleted, at most 2^64 - 1.
    Count(u64),
}

/// Returns a visit as an operation at a part, with a target of 2^64 - 1.
pub(crate) fn visit_op<'q, A: Allocator>(
    asking: Asking,
    code: &'q Verified<A>,
    scope: Scope<'q, A>,
) -> PartOp<'q, A>
    ensures { act_of result ≡ Visit (purpose_of asking) code.now (scope_of scope.entry) most_counted }
{
    let look = Look {
        code,
        scope,
        wanted: u64::MAX,
    };
    match asking {
        Asking::Answers => PartOp::Visit(look),
        Asking::Counts => PartOp::VisitCount(look),
        Asking::Deletes => PartOp::VisitDelete(look),
    }
}

/// Returns the sum of two counts, at most 2^64 - 1.
pub(crate) fn capped_sum(total: u64, count: u64) -> u64
    ensures { result ≡ min (total + count) most_counted }
{
    total.saturating_add(count)
}

impl<A: Allocator> Gained<A> {
    ghost use Rattle.std.specs.Prelude.{◌≡◌, List, [], length, min, true, false, None, IsTrue, IfOk, IfErr, OnOk, option_map};
    ghost use Rattle.term_core.specs.Datum.{Datum};
    ghost use Rattle.part_core.specs.Acts.{next_in};
    ghost use Rattle.part_core.specs.Acts.Said.{Found, Counted};
    ghost use Rattle.part_core.specs.Ops.{cursor_of, said_of};
    ghost use Rattle.part_core.specs.Replies.{most_counted};
    ghost use Rattle.parallel_select.specs.Gained.{IsCounted, IsGained, TakesIn, is_count, is_told};

    /// Appends answers to those before. Fails if an allocation fails; then nothing is known of the answers.
    fn hold(&mut self, found: Vec<Term<A>, A>) -> Result<(), AllocError>
        requires { IsTrue (is_told self.old (Found found.items None)) }
        ensures taken { OnOk result (TakesIn (Found found.items None) self.old self.new) }
        ensures other { (all : List Datum) → IsCounted self.new all }
        ensures kind { is_count self.new ≡ is_count self.old }
    {
        match self {
            Gained::Answers(answers) => {
                let mut found = found;
                answers.append(&mut found)
            }
            Gained::Count(_) => unreachable!(),
        }
    }

    /// Adds a number to the count, up to 2^64 - 1.
    fn add(&mut self, count: u64)
        requires { IsTrue (is_told self.old (Counted count None)) }
        ensures taken { TakesIn (Counted count None) self.old self.new }
        ensures kind { is_count self.new ≡ is_count self.old }
    {
        match self {
            Gained::Answers(_) => unreachable!(),
            Gained::Count(total) => *total = capped_sum(*total, count),
        }
    }

    /// Adds what a visit returned, and returns where the walk goes on. Fails if an allocation fails; then nothing is
    /// known of the answers.
    pub(crate) fn take_in(&mut self, reply: Reply<A>) -> Result<Option<Cursor<A>>, AllocError>
        requires { IsTrue (is_told self.old (said_of reply)) }
        ensures kind { is_count self.new ≡ is_count self.old }
        ensures next { IfOk result (λ next. next_in (said_of reply) ≡ option_map cursor_of next) }
        ensures taken { IfOk result (λ _. TakesIn (said_of reply) self.old self.new) }
        ensures refused { IfErr result (λ _. (all : List Datum) → IsCounted self.new all) }
    {
        match reply {
            Reply::Found(found, next) => {
                self.hold(found)?;
                Ok(next)
            }
            Reply::Counted(count, next) => {
                self.add(count);
                Ok(next)
            }
            Reply::Done | Reply::Flag(_) | Reply::Objects(_) | Reply::AtKey(_) => unreachable!(),
        }
    }

    /// Returns a count of 0.
    pub(crate) fn nothing_counted() -> Self
        ensures none { IsGained result [] }
        ensures counts { is_count result ≡ true }
    {
        Gained::Count(0)
    }

    /// Returns how many objects were counted or deleted, at most 2^64 - 1.
    pub(crate) fn count(&self) -> u64
        requires { is_count self.now ≡ true }
        ensures { (all : List Datum) → IsCounted self.now all → result ≡ min (length all) most_counted }
    {
        match self {
            Gained::Answers(_) => unreachable!(),
            Gained::Count(count) => *count,
        }
    }

    /// Returns no answers.
    pub(crate) fn no_answers(alloc: A) -> Self
        ensures none { IsGained result [] }
        ensures answers { is_count result ≡ false }
    {
        Gained::Answers(Vec::new(alloc))
    }

    /// Returns the answers.
    pub(crate) fn into_answers(self) -> Vec<Term<A>, A>
        requires { is_count self ≡ false }
        ensures { IsGained self result.items }
    {
        match self {
            Gained::Answers(answers) => answers,
            Gained::Count(_) => unreachable!(),
        }
    }
}
