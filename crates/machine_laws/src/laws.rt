//! Laws of runs, each the contract of a function that does nothing.
ghost use Rattle.machine_laws.specs.Laws.{RunsAreWithinDepth};

/// States that no run has more terms on all its stacks together than the depth of its code.
pub fn runs_stay_within_the_depth()
    ensures { RunsAreWithinDepth }
{}
