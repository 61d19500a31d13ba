//! Laws of the code of specifications, each the contract of a function that does nothing.
ghost use Rattle.compiler.specs.Laws.{CodeAnswersAsMeant, CodeIsShort, CodeIsShallow};

use crate::meaning::code_runs_as_meant;
use crate::typing::code_of_specifications_is_typed;
use machine_bodies::runs_end_with_the_answer;

/// For every object, the code answers what the specification means.
pub fn compiled_code_answers_as_meant()
    ensures { CodeAnswersAsMeant }
{
    code_of_specifications_is_typed();
    code_runs_as_meant();
    runs_end_with_the_answer();
}

/// Code has at most eight instructions for each node of its specification, and one for the end.
pub fn code_is_short()
    ensures { CodeIsShort }
{}

/// The stack is never deeper than a specification has nodes.
pub fn code_is_shallow()
    ensures { CodeIsShallow }
{}
