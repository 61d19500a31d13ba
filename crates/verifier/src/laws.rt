//! Laws of typed code.
ghost use Rattle.verifier.specs.Laws.{FaultyCodeIsUntyped, FirstFaultIsOne, DepthIsOne, PlainCodeIsTyped};

/// Code that `verify` rejects, for another reason than out of memory, is not typed.
pub fn faulty_code_is_untyped()
    ensures { FaultyCodeIsUntyped }
{}

/// Code has at most one first fault.
pub fn first_fault_is_one()
    ensures { FirstFaultIsOne }
{}

/// Code has at most one greatest depth.
pub fn depth_is_one()
    ensures { DepthIsOne }
{}

/// Code without routines is typed if its body is: its budget is within the limit.
pub fn plain_code_is_typed()
    ensures { PlainCodeIsTyped }
{}
