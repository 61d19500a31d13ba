//! Tables for C: each obeys texts of commands, one after the other, and returns the lines of their replies.
ghost use Rattle.std.specs.Prelude.{◌≡◌, true, false, MatchOption};
ghost use Rattle.cutterash.specs.Reply.{Gives, closed_reply};
ghost use Rattle.cutterash.specs.Tables.{Obeys, OpensTable};
ghost use Rattle.tool_script.specs.Engine.{lines_of};

use crate::kept::Kept;
use crate::loose::Loose;
use crate::reply::{Reply, closed, done, given, lost, refused};
use crate::table::Table;
use std::alloc::Global;
use std::mem;
use tool_io::ToolFault;
use tool_script::Halt;

/// Takes what a table owns, and leaves it closed. Returns `None` if it was closed.
fn take(alloc: Global, table: &mut Table) -> Option<Box<Kept, Global>>
    ensures closed { table.new.is_open ≡ false }
    ensures taken { MatchOption result (table.old.is_open ≡ false)
        (λ kept. (table.old.is_open ≡ true) × (kept.value ≡ table.old.kept)) }
{
    let (is_open, taken) = mem::replace(table, Table::closed()).told();
    if !is_open {
        return None;
    }
    Some(taken.into_loose(alloc).into_box())
}

/// Opens a table at its beginning: no command was obeyed, and there are no replies. The status is 0, or 3 if memory
/// runs out. What the table had before is freed first. If the status is 3, the table is closed.
#[unsafe(no_mangle)]
pub extern "C" fn cutterash_table_open(alloc: Global, table: &mut Table) -> Reply
    ensures { OpensTable table.new result }
{
    cutterash_table_close(alloc, table);
    let Ok(kept) = Box::new(alloc, Kept::new(alloc)) else {
        return refused(ToolFault::Memory);
    };
    *table = Table::of(Loose::of(kept));
    done()
}

/// Obeys the commands that a text spells, each followed by a dot. The lines of their replies are copied into the room,
/// and the table keeps them until its next run. The status is 0, or 2 to 6 as below; it is 5 if the table is closed.
///
/// If the room is too small (4), the commands are obeyed all the same, the reply has the length of the lines, and
/// `cutterash_table_replies` returns them. If the text is rejected (2), or memory runs out while it is read (3),
/// nothing is changed. If memory runs out while the commands are obeyed (6), the table is at its beginning again, and
/// has the lines of the replies before that.
#[unsafe(no_mangle)]
pub extern "C" fn cutterash_table_run(
    alloc: Global,
    table: &mut Table,
    text: &[u8],
    room: &mut [u8],
) -> Reply
    ensures open { table.old.is_open ≡ true → (table.new.is_open ≡ true)
        × Obeys table.old.kept table.new.kept text.now room.old room.new result }
    ensures closed { table.old.is_open ≡ false → (table.new.is_open ≡ false)
        × (room.new ≡ room.old) × (result ≡ closed_reply) }
{
    let Some(mut kept) = take(alloc, table) else {
        return closed();
    };
    let reply = obeyed(alloc, &mut kept, text, room);
    *table = Table::of(Loose::of(kept));
    reply
}

/// Has an engine obey the commands that a text spells, and returns the reply.
fn obeyed(alloc: Global, kept: &mut Kept, text: &[u8], room: &mut [u8]) -> Reply
    ensures { Obeys kept.old kept.new text.now room.old room.new result }
{
    match kept.engine.obey(alloc, text) {
        Ok(()) => given(kept.engine.replies(), room),
        Err(Halt::Unread(fault)) => refused(ToolFault::from(fault)),
        Err(Halt::Lost) => lost(kept.engine.replies().len()),
    }
}

/// Copies into the room the lines of the replies of the table's last run. It can be called any number of times. The
/// status is 0, 4 if the room is too small, or 5 if the table is closed. For 4 the reply has the length of the lines.
#[unsafe(no_mangle)]
pub extern "C" fn cutterash_table_replies(
    alloc: Global,
    table: &mut Table,
    room: &mut [u8],
) -> Reply
    ensures open { table.old.is_open ≡ true → (table.new.is_open ≡ true)
        × (table.new.kept ≡ table.old.kept)
        × Gives (lines_of table.old.kept.engine) room.old room.new result }
    ensures closed { table.old.is_open ≡ false → (table.new.is_open ≡ false)
        × (room.new ≡ room.old) × (result ≡ closed_reply) }
{
    let Some(kept) = take(alloc, table) else {
        return closed();
    };
    let reply = given(kept.engine.replies(), room);
    *table = Table::of(Loose::of(kept));
    reply
}

/// Closes a table, and frees what it owns. A closed table stays closed.
#[unsafe(no_mangle)]
pub extern "C" fn cutterash_table_close(alloc: Global, table: &mut Table)
    ensures { table.new.is_open ≡ false }
{
    drop(take(alloc, table));
}
