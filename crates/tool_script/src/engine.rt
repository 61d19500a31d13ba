//! An engine: a script that goes on from text to text, and keeps the lines of its last replies.
ghost use Rattle.std.specs.Prelude.{IsTrue, OnErr, OnOk};
ghost use Rattle.part_core.specs.declared.kind.TableKind.TheVariants.{OrderedSet};
ghost use Rattle.part_core.specs.Served.{ServesUnordered};
ghost use Rattle.tool_script.specs.Engine.{ArePut, ArePutFirst};

use crate::run::put_next;
use crate::script::Script;
use part_core::Part;
use std::alloc::{AllocError, Allocator, Global};
use term_core::Term;
use term_text::{TextFault, read_terms};

/// Why not all commands of a text were replied to.
#[derive(Clone, Copy, Debug, PartialEq, Eq)]
pub enum Halt {
    /// The text is rejected, or memory ran out while it was read. None of its commands is obeyed.
    Unread(TextFault),
    /// Memory ran out at a command or at its reply, and the engine is at its beginning again.
    Lost,
}

/// Replies to these terms, and appends the lines of the replies. Fails if an allocation fails, or if 2^64 - 1 tables
/// have been opened; the lines are then those of the replies to all terms before the one that was taken up last.
fn put_all<S: Part<A> + Drop, O: Part<A> + Drop, A: Allocator + Copy>(
    script: &mut Script<S, O, A>,
    terms: &[Term<A>],
    lines: &mut Vec<u8, A>,
) -> Result<(), AllocError>
    requires unordered { ServesUnordered S.serves }
    requires ordered { IsTrue (O.serves OrderedSet) }
    ensures ok { OnOk result
        (ArePut script.old script.new terms.now lines.old.items lines.new.items) }
    ensures err { OnErr result
        (ArePutFirst script.old script.new terms.now lines.old.items lines.new.items) }
{
    for term in terms {
        match put_next(script, term, lines) {
            Ok(()) => {}
            Err(AllocError) => return Err(AllocError),
        }
    }
    Ok(())
}

/// A script between two texts, and the lines of its last replies.
pub struct Engine<S: Part<A> + Drop, O: Part<A> + Drop, A: Allocator = Global> {
    script: Script<S, O, A>,
    replies: Vec<u8, A>,
}

/// By hand: a function that drops one has one call in its proof, and not a case for each way in which its parts are dropped.
impl<S: Part<A> + Drop, O: Part<A> + Drop, A: Allocator> Drop for Engine<S, O, A> {
    fn drop(self) {
        let Engine { script, replies } = self;
        drop(script);
        drop(replies);
    }
}

impl<S: Part<A> + Drop, O: Part<A> + Drop, A: Allocator + Copy> Engine<S, O, A> {
    ghost use Rattle.std.specs.Prelude.{◌≡◌, [], IfErr, IsTrue, OnOk};
    ghost use Rattle.part_core.specs.declared.kind.TableKind.TheVariants.{OrderedSet};
    ghost use Rattle.part_core.specs.Served.{ServesUnordered};
    ghost use Rattle.tool_script.specs.Engine.{IsIn, IsObeyed, IsHalted, lines_of};
    ghost use Rattle.tool_script.specs.Script.{beginning};

    /// Returns an engine at its beginning: no table is open, and there are no replies.
    pub fn new(alloc: A) -> Self
        ensures state { IsIn result beginning }
        ensures lines { lines_of result ≡ [] }
    {
        Engine {
            script: Script::new(alloc),
            replies: Vec::new(alloc),
        }
    }

    /// Obeys the commands that a text spells, each followed by a dot. The lines of their replies replace those of the
    /// last text. Fails with `Unread` if the text is rejected, and changes nothing then. Fails with `Lost` if memory
    /// runs out at a command or its reply: the lines are then those of the replies before it, and the engine is at its
    /// beginning again.
    pub fn obey(&mut self, alloc: A, text: &[u8]) -> Result<(), Halt>
        requires unordered { ServesUnordered S.serves }
        requires ordered { IsTrue (O.serves OrderedSet) }
        ensures ok { OnOk result (IsObeyed self.old self.new text.now) }
        ensures halted { IfErr result (IsHalted self.old self.new text.now) }
    {
        let terms = match read_terms(alloc, text) {
            Ok(terms) => terms,
            Err(fault) => return Err(Halt::Unread(fault)),
        };
        self.replies.clear();
        match put_all(&mut self.script, terms.as_slice(), &mut self.replies) {
            Ok(()) => Ok(()),
            Err(AllocError) => {
                self.script = Script::new(alloc);
                Err(Halt::Lost)
            }
        }
    }

    /// Returns the lines of the replies to the last text.
    pub fn replies(&self) -> &[u8]
        ensures { result.now ≡ lines_of self.now }
    {
        self.replies.as_slice()
    }
}
