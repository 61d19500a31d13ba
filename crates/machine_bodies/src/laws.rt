//! Laws of the machine, each the contract of a function that does nothing.
ghost use Rattle.machine_bodies.specs.Laws.{IsDeterministic, TypedCodeIsNeverStuck, RunsAreWithinBudget, TypedCodeEnds, RunsEndWithTheAnswer};

/// A run executes one number of instructions, of all bodies, and ends in one way.
pub fn machine_is_deterministic()
    ensures { IsDeterministic }
{}

/// A run of typed code always finds what its instructions need, in whichever body it is.
pub fn typed_code_is_never_stuck()
    ensures { TypedCodeIsNeverStuck }
{}

/// No run executes more instructions than the code's budget, typed or not.
pub fn runs_stay_within_the_budget()
    ensures { RunsAreWithinBudget }
{}

/// Typed code runs to an end on each object.
pub fn typed_code_ends()
    ensures { TypedCodeEnds }
{}

/// What typed code answers on an object is a function of both, with which each of its runs ends.
pub fn runs_end_with_the_answer()
    ensures { RunsEndWithTheAnswer }
{}
