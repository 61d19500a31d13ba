//! Laws of walks on one thread, and of walks that count in pieces, each the contract of a function that does nothing.
ghost use Rattle.walks.specs.Alone.{StepsArePieces, WholeWalksSelect, WholeWalksCount, WholeWalksRemove};
ghost use Rattle.walks.specs.Laws.{WholeWalksGoInOrder, CountsBegin, CountsGoOn, CountsStop, CountsOutlastOthers, CountsEnd};

use std::alloc::Allocator;

/// A whole walk without named keys looks at each row once, in walk order.
pub fn whole_walks_go_in_order()
    ensures { WholeWalksGoInOrder }
{}

/// If a session is alone, a step of a walk in pieces returns the piece of the definitions.
pub fn steps_are_pieces<A: Allocator>()
    ensures { StepsArePieces A }
{}

/// If a session is alone, a whole walk returns all answers that are selected.
pub fn whole_walks_select<A: Allocator>()
    ensures { WholeWalksSelect A }
{}

/// If a session is alone, a whole walk that counts returns the number of objects for which the query returns `true`.
pub fn whole_walks_count<A: Allocator>()
    ensures { WholeWalksCount A }
{}

/// If a session is alone, a whole walk that deletes returns the number of objects for which the query returns `true`,
/// and leaves the table without them.
pub fn whole_walks_remove<A: Allocator>()
    ensures { WholeWalksRemove A }
{}

/// A walk that counts and begins has counted nothing.
pub fn counts_begin()
    ensures { CountsBegin }
{}

/// More visits add what they count.
pub fn counts_go_on()
    ensures { CountsGoOn }
{}

/// Visits add what they count also if the one after them ran out of memory or was put off.
pub fn counts_stop()
    ensures { CountsStop }
{}

/// What other sessions do, and other calls of the session, doesn't change what was counted.
pub fn counts_outlast_others()
    ensures { CountsOutlastOthers }
{}

/// At its end a walk in pieces has counted what one walk answers.
pub fn counts_end()
    ensures { CountsEnd }
{}
