//! Replies to commands, and their lines.
ghost use Rattle.std.specs.Prelude.{◌≡◌, ◌++◌, ◌∷◌, pos, OnOk, OnErr};
ghost use Rattle.std.specs.Option.{option_copied};
ghost use Rattle.term_core.specs.Datum.{cells};
ghost use Rattle.term_core.specs.Datum.Datum.{integer, nil};
ghost use Rattle.term_operand.specs.Operand.{boolean};
ghost use Rattle.tool_io.specs.Lines.{line, text_of};
ghost use Rattle.tool_script.specs.Script.{error, key_or_end};
ghost use Rattle.tool_script.specs.Replies.{reply_term, behind_commas};
ghost use Rattle.tool_script.specs.Shell.{refusal};
ghost use Rattle.tool_script.specs.Walks.{arguments, fault_term, piece_term};

use itoa::Buffer;
use mspec_syntax::SpecFault;
use std::alloc::{AllocError, Allocator, Global};
use term_core::Term;
use term_text::TextFault;
use tool_io::put_line;

/// The reply to a command.
#[derive(Drop)]
pub enum CommandReply<A: Allocator = Global> {
    /// `true` or `false`.
    Flag(bool),
    /// A list of objects or of answers.
    Objects(Vec<Term<A>, A>),
    /// Some answers of a walk, and the number of the continuation that gives the following ones.
    Piece(Vec<Term<A>, A>, u64),
    /// A key, or `None` for the end of the table.
    Key(Option<Term<A>>),
    /// A number of objects.
    Count(u64),
    /// An error, by its error code.
    Error(u8),
    /// The fault of a specification.
    Fault(SpecFault),
}

/// Appends the line of a reply. If an allocation fails, the lines are unchanged.
pub fn put_reply<A: Allocator + Copy>(
    reply: &CommandReply<A>,
    lines: &mut Vec<u8, A>,
) -> Result<(), AllocError>
    ensures ok { OnOk result (lines.new.items ≡ lines.old.items ++ line (reply_term reply.now)) }
    ensures err { OnErr result (lines.new.items ≡ lines.old.items) }
{
    match reply {
        CommandReply::Flag(flag) => put_flag(*flag, lines),
        CommandReply::Objects(objects) => put_objects(objects.as_slice(), lines),
        CommandReply::Piece(answers, number) => put_piece(answers.as_slice(), *number, lines),
        CommandReply::Key(key) => put_key(key.as_ref(), lines),
        CommandReply::Count(count) => put_count(*count, lines),
        CommandReply::Error(number) => put_error(*number, lines),
        CommandReply::Fault(fault) => put_fault(*fault, lines),
    }
}

/// Appends the line of a truth value. If an allocation fails, the lines are unchanged.
#[tactic(auto, using(crate::proofs::TextLemmas::true_line, crate::proofs::TextLemmas::false_line))]
fn put_flag<A: Allocator>(flag: bool, lines: &mut Vec<u8, A>) -> Result<(), AllocError>
    ensures ok { OnOk result (lines.new.items ≡ lines.old.items ++ line (boolean flag)) }
    ensures err { OnErr result (lines.new.items ≡ lines.old.items) }
{
    if flag {
        lines.extend_from_slice(b"true.\n")
    } else {
        lines.extend_from_slice(b"false.\n")
    }
}

/// Appends the line of a key, or of the end of the table. If an allocation fails, the lines are unchanged.
fn put_key<A: Allocator + Copy>(
    key: Option<&Term<A>>,
    lines: &mut Vec<u8, A>,
) -> Result<(), AllocError>
    ensures ok { OnOk result (lines.new.items
        ≡ lines.old.items ++ line (key_or_end (option_copied key.entry))) }
    ensures err { OnErr result (lines.new.items ≡ lines.old.items) }
{
    match key {
        Some(key) => put_line(b"", key, b".\n", lines),
        None => lines.extend_from_slice(b"'$end_of_table'.\n"),
    }
}

/// Appends the line of an error reply. If an allocation fails, the lines are unchanged.
fn put_error<A: Allocator + Copy>(number: u8, lines: &mut Vec<u8, A>) -> Result<(), AllocError>
    ensures ok { OnOk result (lines.new.items ≡ lines.old.items ++ line (error number)) }
    ensures err { OnErr result (lines.new.items ≡ lines.old.items) }
{
    let number = Term::int(i64::from(number));
    put_line(b"{error,", &number, b"}.\n", lines)
}

/// Appends the line of a list of objects. The list is written directly, since it may be longer or nested more deeply
/// than a term can be. If an allocation fails, the lines are unchanged.
fn put_objects<A: Allocator + Copy>(
    objects: &[Term<A>],
    lines: &mut Vec<u8, A>,
) -> Result<(), AllocError>
    ensures ok { OnOk result (lines.new.items
        ≡ lines.old.items ++ line (cells objects.now nil)) }
    ensures err { OnErr result (lines.new.items ≡ lines.old.items) }
{
    let mut text = Vec::new(*lines.allocator());
    put_list(objects, &mut text)?;
    text.extend_from_slice(b".\n")?;
    lines.extend_from_slice(text.as_slice())
}

/// Appends the line of a piece with the number of its continuation. If an allocation fails, the lines are unchanged.
fn put_piece<A: Allocator + Copy>(
    answers: &[Term<A>],
    number: u64,
    lines: &mut Vec<u8, A>,
) -> Result<(), AllocError>
    ensures ok { OnOk result (lines.new.items
        ≡ lines.old.items ++ line (piece_term answers.now number)) }
    ensures err { OnErr result (lines.new.items ≡ lines.old.items) }
{
    let mut text = Vec::new(*lines.allocator());
    put_pair(answers, number, &mut text)?;
    lines.extend_from_slice(text.as_slice())
}

/// Appends the line of a count. If an allocation fails, the lines are unchanged.
fn put_count<A: Allocator + Copy>(count: u64, lines: &mut Vec<u8, A>) -> Result<(), AllocError>
    ensures ok { OnOk result (lines.new.items ≡ lines.old.items ++ line (integer (pos count))) }
    ensures err { OnErr result (lines.new.items ≡ lines.old.items) }
{
    let mut text = Vec::new(*lines.allocator());
    put_number(count, &mut text)?;
    text.extend_from_slice(b".\n")?;
    lines.extend_from_slice(text.as_slice())
}

/// Appends the line of a specification's fault. If an allocation fails, the lines are unchanged.
fn put_fault<A: Allocator + Copy>(
    fault: SpecFault,
    lines: &mut Vec<u8, A>,
) -> Result<(), AllocError>
    ensures ok { OnOk result (lines.new.items ≡ lines.old.items ++ line (fault_term fault)) }
    ensures err { OnErr result (lines.new.items ≡ lines.old.items) }
{
    let mut text = Vec::new(*lines.allocator());
    put_arguments(fault, &mut text)?;
    lines.extend_from_slice(text.as_slice())
}

/// Appends the line of the error reply to a text. If an allocation fails, the lines are unchanged.
pub(crate) fn put_refusal<A: Allocator + Copy>(
    fault: TextFault,
    lines: &mut Vec<u8, A>,
) -> Result<(), AllocError>
    ensures ok { OnOk result (lines.new.items ≡ lines.old.items ++ line (refusal fault)) }
    ensures err { OnErr result (lines.new.items ≡ lines.old.items) }
{
    let mut text = Vec::new(*lines.allocator());
    put_place(fault, &mut text)?;
    lines.extend_from_slice(text.as_slice())
}

/// Appends the text of a list of these objects.
fn put_list<A: Allocator + Copy>(
    objects: &[Term<A>],
    text: &mut Vec<u8, A>,
) -> Result<(), AllocError>
    ensures { OnOk result (text.new.items ≡ text.old.items ++ text_of (cells objects.now nil)) }
{
    let [first, rest @ ..] = objects else {
        return text.extend_from_slice(b"[]");
    };
    put_elements(first, rest, text)
}

/// Appends the text of a list of at least one element.
fn put_elements<A: Allocator + Copy>(
    first: &Term<A>,
    rest: &[Term<A>],
    text: &mut Vec<u8, A>,
) -> Result<(), AllocError>
    ensures { OnOk result (text.new.items
        ≡ text.old.items ++ text_of (cells (first.now ∷ rest.now) nil)) }
{
    put_line(b"[", first, b"", text)?;
    put_more(rest, text)?;
    text.extend_from_slice(b"]")
}

/// Appends these objects, each after a comma.
fn put_more<A: Allocator + Copy>(
    objects: &[Term<A>],
    text: &mut Vec<u8, A>,
) -> Result<(), AllocError>
    ensures { OnOk result (text.new.items ≡ text.old.items ++ behind_commas objects.now) }
{
    for object in objects {
        put_line(b",", object, b"", text)?;
    }
    Ok(())
}

/// Appends the line of a tuple of a list and a number.
fn put_pair<A: Allocator + Copy>(
    answers: &[Term<A>],
    number: u64,
    text: &mut Vec<u8, A>,
) -> Result<(), AllocError>
    ensures { OnOk result (text.new.items
        ≡ text.old.items ++ line (piece_term answers.now number)) }
{
    text.extend_from_slice(b"{")?;
    put_list(answers, text)?;
    text.extend_from_slice(b",")?;
    put_number(number, text)?;
    text.extend_from_slice(b"}.\n")
}

/// Appends the line with the error code of a specification's fault, its clause and its variable.
fn put_arguments<A: Allocator>(fault: SpecFault, text: &mut Vec<u8, A>) -> Result<(), AllocError>
    ensures { OnOk result (text.new.items ≡ text.old.items ++ line (fault_term fault)) }
{
    text.extend_from_slice(b"{error")?;
    put_argument(Some(u64::from(fault.number())), text)?;
    put_argument(fault.clause().map(|clause| clause as u64), text)?;
    put_argument(fault.variable().map(u64::from), text)?;
    text.extend_from_slice(b"}.\n")
}

/// Appends the line with the error code of a text's fault and its byte offset.
fn put_place<A: Allocator>(fault: TextFault, text: &mut Vec<u8, A>) -> Result<(), AllocError>
    ensures { OnOk result (text.new.items ≡ text.old.items ++ line (refusal fault)) }
{
    text.extend_from_slice(b"{error")?;
    put_argument(Some(u64::from(fault.number())), text)?;
    put_argument(fault.at().map(|at| at as u64), text)?;
    text.extend_from_slice(b"}.\n")
}

/// Appends a comma and the number, or nothing if there is none.
fn put_argument<A: Allocator>(
    argument: Option<u64>,
    text: &mut Vec<u8, A>,
) -> Result<(), AllocError>
    ensures { OnOk result (text.new.items
        ≡ text.old.items ++ behind_commas (arguments argument)) }
{
    let Some(number) = argument else {
        return Ok(());
    };
    text.extend_from_slice(b",")?;
    put_number(number, text)
}

/// Appends a number in decimal.
#[tactic(auto, using(crate::proofs::TextLemmas::number_bytes))]
fn put_number<A: Allocator>(number: u64, text: &mut Vec<u8, A>) -> Result<(), AllocError>
    ensures { OnOk result (text.new.items ≡ text.old.items ++ text_of (integer (pos number))) }
{
    let mut buffer = Buffer::new();
    text.extend_from_slice(buffer.format(number).as_bytes())
}
