//! Laws of code files, for any program that they spell.
ghost use Rattle.code_writer.specs.Laws.{OneCode, ReadBack};

/// Bytes spell at most one program.
pub const fn one_code()
    ensures { OneCode }
{}

/// The file of a program spells that program, and no other.
pub const fn read_back()
    ensures { ReadBack }
{}
