//! A law of assembled code, the contract of a function that does nothing.
ghost use Rattle.compiler_assembly.specs.Laws.{AssembledStands};

/// Assembled code has each line where it belongs: its instruction with the number of its constant, and a frame after it
/// exactly if it has a label. No frame is at 0.
pub fn assembled_code_stands()
    ensures { AssembledStands }
{}
