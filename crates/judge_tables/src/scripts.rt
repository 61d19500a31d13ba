//! Rows of scripts: each is run with sets and bags in plain parts, and in hashed parts.
ghost use Rattle.part_core.specs.Served.{ServesUnordered};

use kit_rows::{elements, listed};
use part_core::Part;
use part_hash::HashPart;
use part_order::OrderPart;
use part_plain::PlainPart;
use std::alloc::Global;
use term_core::Term;
use term_text::{read_terms, write_term};
use tool_script::run_script;

/// The number of forms of a row: sets and bags in plain parts, and in hashed parts.
pub(crate) const FORMS: usize = 2;

/// Returns the text of commands, each followed by a dot.
fn script_of(alloc: Global, commands: &[Term]) -> Option<Vec<u8>> {
    let mut text = Vec::new(alloc);
    for command in commands {
        write_term(command, &mut text).ok()?;
        text.extend_from_slice(b".\n").ok()?;
    }
    Some(text)
}

/// Runs a script with sets and bags in these parts, and returns the text of the list of its replies.
fn replies<S: Part<Global> + Drop>(alloc: Global, commands: &[Term]) -> Option<Vec<u8>>
    requires { ServesUnordered S.serves }
{
    let script = script_of(alloc, commands)?;
    let mut reader = script.as_slice();
    let mut out: Vec<u8> = Vec::new(alloc);
    run_script::<S, OrderPart<Global>, _, _, _>(alloc, &mut reader, &mut out).ok()?;
    let Ok(replies) = read_terms(alloc, out.as_slice()) else {
        return None;
    };
    let text = listed(alloc, replies.as_slice());
    drop(replies);
    text
}

/// Returns the result of a row of scripts in one of the forms.
pub(crate) fn came(alloc: Global, parts: &[Term], forms: usize) -> Option<Vec<u8>> {
    let [commands, _wanted] = parts else {
        return None;
    };
    let commands = elements(commands)?;
    if forms == 0 {
        replies::<PlainPart<Global>>(alloc, commands)
    } else {
        replies::<HashPart<Global>>(alloc, commands)
    }
}
