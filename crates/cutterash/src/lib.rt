//! Filters and tables for C and for languages that call C. A match specification is compiled to a code file. A code
//! file from an untrusted sender is loaded, or rejected with an error code, and then run on one object after the other.
//! A table obeys texts of commands, as scripts have them, and returns the lines of their replies.
//!
//! The contract is that of the exports. Each states its reply (`specs/Calls.antt`, `specs/Tables.antt`,
//! `specs/Reply.antt`). The reply to a fault has its error code and its arguments; out of memory, a room that is too
//! small and a closed handle are replies too. `include/cutterash.h` declares the exports for C; nothing compares the
//! two.
//!
//! - `filter`, `table`: the handles that are passed to C, and what they own, `specs/Held.antt`; `loaded`, `kept`: what
//!   an open handle owns; `loose`: a box as its pointer. The functions that turn a box into a handle and a handle into
//!   a box are proved by hand.
//! - `table_calls`: the exports for tables; those for filters are in this file.
//! - `text`: what calls do with texts; `reply`: their replies.
#![tactic(auto)]

ghost use Rattle.std.specs.Prelude.{◌≡◌, ◌⊎◌, true, false};
ghost use Rattle.cutterash.specs.Reply.{closed_reply, refusal_reply};
ghost use Rattle.cutterash.specs.Calls.{Compiles, Loads, IsOpened, Keeps, Answers};

mod filter;
mod kept;
mod loaded;
mod loose;
mod reply;
mod table;
mod table_calls;
mod text;

use filter::Filter;
use loaded::Loaded;
use loose::Loose;
use reply::{Reply, bounds, closed, given, nothing, refused};
use std::alloc::Global;
use std::mem;
use text::{answer, compiled};
use tool_io::ToolFault;
use tool_query::load;
use verifier::Verified;

/// Compiles the specification that a text spells, followed by a dot, and copies its code file into the room. The status
/// is 0, or 2 if the text is rejected, 3 if memory runs out, or 4 if the room is too small; the reply then has the
/// length of the file.
#[unsafe(no_mangle)]
pub extern "C" fn cutterash_compile(alloc: Global, text: &[u8], room: &mut [u8]) -> Reply
    ensures { Compiles text.now room.old room.new result }
{
    match compiled(alloc, text) {
        Ok(file) => given(file.as_slice(), room),
        Err(fault) => refused(fault),
    }
}

/// Opens a filter with a code file; only code that passes the verifier is accepted. The status is 0 with the budget and
/// the depth of the code, 2 if the file is rejected, or 3 if memory runs out. What the filter had before is freed
/// first. If the status is not 0, the filter is closed.
#[unsafe(no_mangle)]
pub extern "C" fn cutterash_load(alloc: Global, filter: &mut Filter, file: &[u8]) -> Reply
    ensures { Loads file.now filter.new result }
{
    cutterash_close(alloc, filter);
    match load(alloc, file) {
        Ok(code) => open(alloc, filter, code),
        Err(fault) => refused(fault),
    }
}

/// Opens a closed filter with code. The filter stays closed if an allocation fails.
fn open(alloc: Global, filter: &mut Filter, code: Verified) -> Reply
    requires { filter.old.is_open ≡ false }
    ensures { IsOpened code filter.new result
        ⊎ ((filter.new.is_open ≡ false) × (result ≡ refusal_reply ToolFault.Memory)) }
{
    let reply = bounds(code.budget(), code.depth());
    let Ok(loaded) = Box::new(alloc, Loaded::new(code)) else {
        return refused(ToolFault::Memory);
    };
    *filter = Filter::of(Loose::of(loaded));
    reply
}

/// Runs a filter on the object that a text spells, followed by a dot. Copies the text of the answer into the room,
/// without a dot. The status is 0, or 1 if there is no answer, 2 if the text is rejected, 3 if memory runs out, 4 if
/// the room is too small, or 5 if the filter is closed. For 4 the reply has the length of the text. The filter is
/// unchanged.
#[unsafe(no_mangle)]
pub extern "C" fn cutterash_run(
    alloc: Global,
    filter: &mut Filter,
    object: &[u8],
    room: &mut [u8],
) -> Reply
    ensures open { filter.old.is_open ≡ true → Keeps filter.new filter.old.code
        × Answers filter.old.code object.now room.old room.new result }
    ensures closed { filter.old.is_open ≡ false → (filter.new.is_open ≡ false)
        × (room.new ≡ room.old) × (result ≡ closed_reply) }
{
    let (is_open, taken) = mem::replace(filter, Filter::closed()).told();
    if !is_open {
        return closed();
    }
    let loaded = taken.into_loose(alloc).into_box();
    let reply = answered(alloc, loaded.code(), object, room);
    *filter = Filter::of(Loose::of(loaded));
    reply
}

/// Returns the reply for the answer of code on the object that a text spells.
fn answered(alloc: Global, code: &Verified, object: &[u8], room: &mut [u8]) -> Reply
    ensures { Answers code.now object.now room.old room.new result }
{
    match answer(alloc, code, object) {
        Ok(Some(text)) => given(text.as_slice(), room),
        Ok(None) => nothing(),
        Err(fault) => refused(fault),
    }
}

/// Closes a filter, and frees what it owns. A closed filter stays closed.
#[unsafe(no_mangle)]
pub extern "C" fn cutterash_close(alloc: Global, filter: &mut Filter)
    ensures { filter.new.is_open ≡ false }
{
    let (is_open, taken) = mem::replace(filter, Filter::closed()).told();
    if is_open {
        drop(taken.into_loose(alloc).into_box());
    }
}
