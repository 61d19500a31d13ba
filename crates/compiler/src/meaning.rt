//! A law of the code of specifications, the contract of a function that does nothing.
ghost use Rattle.compiler.specs.Meaning.{CodeRunsAsMeant};

/// If each frame of a specification's code is at an instruction, the code has a run for each object, which ends with
/// what the specification means for it.
#[tactic(auto, using(crate::proofs::ClauseLemmas::code_runs))]
pub fn code_runs_as_meant()
    ensures { CodeRunsAsMeant }
{}
