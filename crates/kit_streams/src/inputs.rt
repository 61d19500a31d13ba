//! Inputs of commands.

/// The file of the specification whose answer is `true` on each object.
pub const FILE: &str =
    "<<69,77,83,67,0,1,0,0,0,1,2,0,4,116,114,117,101,0,3,2,0,0,24,25,0,1,0,2,0,0,0,0,0,0>>.\n";

/// A specification and two objects; the answer on each of them is its element.
pub const INPUT: &str = "[{{'$1'},[],['$1']}]. {1}. {2}.";
