//! What an open table owns.
use part_hash::HashPart;
use part_order::OrderPart;
use std::alloc::Global;
use tool_script::Engine;

/// An engine, as a type without parameters, of which a table may own a box. Sets and bags are made of hashed parts,
/// ordered sets of ordered ones.
#[derive(Drop)]
pub(crate) struct Kept {
    pub(crate) engine: Engine<HashPart<Global>, OrderPart<Global>, Global>,
}

impl Kept {
    ghost use Rattle.std.specs.Prelude.{◌≡◌, []};
    ghost use Rattle.tool_script.specs.Engine.{IsIn, lines_of};
    ghost use Rattle.tool_script.specs.Script.{beginning};

    /// Returns what a table has just after it is opened: an engine at its beginning.
    pub(crate) fn new(alloc: Global) -> Kept
        ensures state { IsIn result.engine beginning }
        ensures lines { lines_of result.engine ≡ [] }
    {
        Kept {
            engine: Engine::new(alloc),
        }
    }
}
