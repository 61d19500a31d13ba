//! A law of the code of specifications, the contract of a function that does nothing.
ghost use Rattle.compiler.specs.Typing.{CodeIsTyped};

/// The code of a specification within the limits is within those of code, and typed.
pub fn code_of_specifications_is_typed()
    ensures { CodeIsTyped }
{}
