//! Scripts, from a reader to a writer.
ghost use Rattle.std.specs.Prelude.{◌≡◌, IfErr, IfOk, IsTrue, OnOk, OnErr};
ghost use Rattle.part_core.specs.declared.kind.TableKind.TheVariants.{OrderedSet};
ghost use Rattle.part_core.specs.Served.{ServesUnordered};
ghost use Rattle.tool_script.specs.Script.{beginning};
ghost use Rattle.tool_script.specs.Replies.{reply_term};
ghost use Rattle.tool_script.specs.Scripts.{AreTaken, HasState, IsTermStep};
ghost use Rattle.tool_script.specs.Input.{OfScript, StopsScript, StopsScriptAt};
ghost use Rattle.tool_script.specs.Run.{IsPut, WritesReplies, StopsAt};

use crate::command::read_command;
use crate::reply::{CommandReply, put_reply};
use crate::script::Script;
use part_core::Part;
use std::alloc::{AllocError, Allocator};
use std::io::{Read, Write};
use term_core::Term;
use tool_io::{BAD_INPUT, ToolFault, out_of_memory, read_script, write_if_many, write_lines};

/// Returns the reply to a term: to the command that it is, or error 65 if it is none. Fails if an allocation fails, or
/// if 2^64 - 1 tables have been opened.
pub(crate) fn reply_to_term<S: Part<A> + Drop, O: Part<A> + Drop, A: Allocator + Copy>(
    script: &mut Script<S, O, A>,
    term: &Term<A>,
) -> Result<CommandReply<A>, AllocError>
    requires unordered { ServesUnordered S.serves }
    requires ordered { IsTrue (O.serves OrderedSet) }
    ensures taken { script.new.taken ≡ script.old.taken }
    ensures answered { IfOk result (λ reply.
        IsTermStep script.old script.new term.now (reply_term reply)) }
{
    match read_command(term) {
        Some(command) => script.obey(command),
        None => Ok(CommandReply::Error(BAD_INPUT)),
    }
}

/// Takes a command up, and appends the line of the reply to its term. Fails if an allocation fails, or if 2^64 - 1
/// tables have been opened; the lines are then unchanged.
pub(crate) fn put_next<S: Part<A> + Drop, O: Part<A> + Drop, A: Allocator + Copy>(
    script: &mut Script<S, O, A>,
    term: &Term<A>,
    lines: &mut Vec<u8, A>,
) -> Result<(), AllocError>
    requires unordered { ServesUnordered S.serves }
    requires ordered { IsTrue (O.serves OrderedSet) }
    ensures taken { AreTaken script.old script.new 1 }
    ensures ok { OnOk result
        (IsPut script.old script.new term.now lines.old.items lines.new.items) }
    ensures err { OnErr result (lines.new.items ≡ lines.old.items) }
{
    script.take_up();
    let reply = reply_to_term(script, term)?;
    put_reply(&reply, lines)
}

/// Replies to these terms and writes the lines of the replies. If memory runs out, the lines of the replies to all terms
/// before the one that was taken up last are written.
pub(crate) fn run_terms<S: Part<A> + Drop, O: Part<A> + Drop, A: Allocator + Copy, W: Write>(
    alloc: A,
    script: &mut Script<S, O, A>,
    terms: &[Term<A>],
    writer: &mut W,
) -> Result<(), ToolFault>
    requires unordered { ServesUnordered S.serves }
    requires ordered { IsTrue (O.serves OrderedSet) }
    requires beginning { HasState script.old beginning }
    ensures ok { OnOk result (WritesReplies terms.now
        (W.contents writer.old) (W.contents writer.new)) }
    ensures stopped { IfErr result (StopsAt script.old script.new terms.now
        (W.contents writer.old) (W.contents writer.new)) }
{
    let mut lines = Vec::new(alloc);
    for term in terms {
        match put_next(script, term, &mut lines) {
            Ok(()) => write_if_many(writer, &mut lines)?,
            Err(AllocError) => return Err(out_of_memory(writer, &mut lines)),
        }
    }
    write_lines(writer, &mut lines)
}

/// Reads a script, up to the reader's end, and writes the lines of the replies to its terms.
pub(crate) fn run_with<
    S: Part<A> + Drop,
    O: Part<A> + Drop,
    A: Allocator + Copy,
    R: Read,
    W: Write,
>(alloc: A, script: &mut Script<S, O, A>, reader: &mut R, writer: &mut W) -> Result<(), ToolFault>
    requires unordered { ServesUnordered S.serves }
    requires ordered { IsTrue (O.serves OrderedSet) }
    requires beginning { HasState script.old beginning }
    ensures ok { OnOk result (OfScript (R.remaining reader.old) (λ terms.
        WritesReplies terms (W.contents writer.old) (W.contents writer.new))) }
    ensures refused { IfErr result (λ fault. StopsScriptAt script.old script.new (R.remaining reader.old)
        (W.contents writer.old) (W.contents writer.new) fault) }
{
    let terms = read_script(alloc, reader)?;
    run_terms(alloc, script, terms.as_slice(), writer)
}

/// Reads a script, up to the reader's end, and writes the line of the reply to each of its terms. Sets and bags are
/// made of parts `S`, ordered sets of parts `O`. If the text is rejected, nothing is written. If memory runs out at a
/// command, the lines of the replies to all commands before it are written.
pub fn run_script<S: Part<A> + Drop, O: Part<A> + Drop, A: Allocator + Copy, R: Read, W: Write>(
    alloc: A,
    reader: &mut R,
    writer: &mut W,
) -> Result<(), ToolFault>
    requires unordered { ServesUnordered S.serves }
    requires ordered { IsTrue (O.serves OrderedSet) }
    ensures ok { OnOk result (OfScript (R.remaining reader.old) (λ terms.
        WritesReplies terms (W.contents writer.old) (W.contents writer.new))) }
    ensures refused { IfErr result (λ fault. StopsScript (R.remaining reader.old)
        (W.contents writer.old) (W.contents writer.new) fault) }
{
    let mut script: Script<S, O, A> = Script::new(alloc);
    run_with(alloc, &mut script, reader, writer)
}
