//! The walks that can go on, by the numbers of their continuations.
ghost use Rattle.std.specs.Prelude.{◌≡◌};
ghost use Rattle.tool_script.specs.Continuations.{is_own};

use crate::reply::CommandReply;
use std::alloc::{AllocError, Allocator, Global};
use std::collections::BTreeMap;
use walks::{Continuation, Step};

/// Returns whether the continuation belongs to this table and session.
fn is_own<A: Allocator>(walk: &Continuation<A>, table: u64, session: u8) -> bool
    ensures { result ≡ is_own table session walk.now }
{
    walk.table == table && walk.session == session
}

/// The walks that can go on, and the number of the next continuation. A number that is spent takes no memory.
#[derive(Drop)]
pub(crate) struct Continuations<A: Allocator = Global> {
    open: BTreeMap<u64, Continuation<A>, A>,
    next: u64,
}

impl<A: Allocator + Copy> Continuations<A> {
    ghost use Rattle.std.specs.Prelude.{ℕ, ◌≡◌, IfNone, IfOk, IfSome, None};
    ghost use Rattle.tool_script.specs.Continuations.{walk_at, own_at, own_by, AreDropped, IsKept, IsSet, IsSpent};
    ghost use Rattle.tool_script.specs.Replies.{reply_term};

    /// Returns no walks: the first continuation has the number 0.
    pub(crate) fn new(alloc: A) -> Self
        ensures next { result.next ≡ 0 }
        ensures none { (i : ℕ) → walk_at result i ≡ None }
    {
        Continuations {
            open: BTreeMap::new(alloc),
            next: 0,
        }
    }

    /// Drops all walks. Their numbers are not used again.
    pub(crate) fn clear(&mut self)
        ensures { AreDropped self.old self.new }
    {
        self.open.clear();
    }

    /// Replies to a step of a walk: a piece with the number of a new continuation, by which the walk goes on, or the
    /// end. Fails if an allocation fails, or if no number is left.
    pub(crate) fn keep(&mut self, step: Step<A>) -> Result<CommandReply<A>, AllocError>
        ensures { IfOk result (λ reply. IsKept step self.old self.new (reply_term reply)) }
    {
        match step {
            Step::Piece(answers, walk) => {
                let number = self.next;
                let Some(later) = number.checked_add(1) else {
                    return Err(AllocError);
                };
                match self.open.insert(number, walk) {
                    Ok(_none) => {}
                    Err(_refused) => return Err(AllocError),
                }
                self.next = later;
                Ok(CommandReply::Piece(answers, number))
            }
            Step::End(_) => Ok(CommandReply::Key(None)),
        }
    }

    /// Takes the continuation with this number out and returns it, if it belongs to this table and session. Returns
    /// `None` also if the number is spent or was never given.
    fn take_at(&mut self, number: u64, table: u64, session: u8) -> Option<Continuation<A>>
        ensures found { result ≡ own_by table session (walk_at self.old number) }
        ensures spent { IfSome result (λ _. IsSet self.old number None self.new) }
        ensures same { IfNone result (self.new ≡ self.old) }
    {
        let Some(walk) = self.open.get(&number) else {
            return None;
        };
        if !is_own(walk, table, session) {
            return None;
        }
        self.open.remove(&number)
    }

    /// Takes a continuation out as `take_at` does. Returns `None` also for a negative number.
    pub(crate) fn take(&mut self, number: i64, table: u64, session: u8) -> Option<Continuation<A>>
        ensures found { result ≡ own_at self.old table session number }
        ensures spent { IfSome result (λ _. IsSpent self.old number self.new) }
        ensures same { IfNone result (self.new ≡ self.old) }
    {
        if number < 0 {
            return None;
        }
        self.take_at(number as u64, table, session)
    }
}
