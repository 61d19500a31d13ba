//! Laws of the walks of workers, each the contract of a function that does nothing.
ghost use Rattle.parallel_select.specs.Joined.{PartsJoin, CountsJoin, RemovalsJoin};
ghost use Rattle.parallel_select.specs.Laws.{PartsAreAnswered, BrokenPartsAreGathered};

use std::alloc::Allocator;
use tables::Turns;

/// What a worker gained from each of its parts is the answer of the part's walk, in what its session sees.
pub fn parts_are_answered<A: Allocator>()
    ensures { PartsAreAnswered A }
{}

/// If a worker failed, what it gained from its parts before the one where it failed is the answer of the part's walk.
/// What it gained from this part is gathered for the keys that were done.
pub fn broken_parts_are_gathered<A: Allocator>()
    ensures { BrokenPartsAreGathered A }
{}

/// The answers of a selection's members are together the answer of the query over all parts of their table; the moments
/// of each part are those that its worker sees.
pub fn parts_join<A: Allocator, T: Turns<A>>()
    ensures { PartsJoin A T.is_ready T.home T.sees }
{}

/// The count of members that counted, or deleted and counted, is the number of the answers that they found together.
pub fn counts_join<A: Allocator, T: Turns<A>>()
    ensures { CountsJoin A T.is_ready T.home T.sees }
{}

/// What members deleted, each object in the turn in which it was evaluated, is gone, and nothing else.
pub fn removals_join<A: Allocator, T: Turns<A>>()
    ensures { RemovalsJoin A T.is_ready T.home T.sees }
{}
