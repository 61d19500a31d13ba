//! The replies of calls.
ghost use Rattle.std.specs.Prelude.{◌≡◌, ◌++◌, length, slice_index_or};
ghost use Rattle.std.specs.Option.{option_to_list};
ghost use Rattle.cutterash.specs.Reply.{IsPut, Gives, put_status, refusal_status, nothing_reply, closed_reply, done_reply, lost_reply, refusal_reply, bounds_reply};

use tool_io::ToolFault;

/// The status of a call that did its work.
const DONE: u32 = 0;
/// The status of a run without an answer.
const NO_ANSWER: u32 = 1;
/// The status of an input that is rejected.
const REFUSED: u32 = 2;
/// The status if memory ran out.
const NO_MEMORY: u32 = 3;
/// The status if the room is too small.
const NO_ROOM: u32 = 4;
/// The status of a call for a closed filter or table.
const CLOSED: u32 = 5;
/// The status if memory ran out while a table obeyed a text.
const LOST: u32 = 6;

/// The error code of out of memory.
const OUT_OF_MEMORY: u32 = 1;

/// The reply of a call.
#[repr(C)]
#[derive(Clone, Copy)]
pub struct Reply {
    /// How the call ended:
    /// - 0: it did its work;
    /// - 1: there is no answer;
    /// - 2: the input is rejected;
    /// - 3: memory ran out;
    /// - 4: the room is too small;
    /// - 5: the filter or the table is closed;
    /// - 6: memory ran out while a table obeyed a text.
    pub status: u32,
    /// The error code of a fault, else 0.
    pub number: u32,
    /// How many of `first` and `second` have a value: 0 to 2.
    pub count: u32,
    /// The first argument of a fault; or the budget of a filter that was loaded.
    pub first: u64,
    /// The second argument of a fault; or the depth of a filter that was loaded.
    pub second: u64,
    /// The number of bytes that were copied into the room, did not fit, or are what a table has of replies.
    pub length: usize,
}

/// Returns a reply with this status alone.
fn plain(status: u32) -> Reply
    ensures { result ≡ record { status = status; number = 0; count = 0; first = 0; second = 0; length = 0 } }
{
    Reply {
        status,
        number: 0,
        count: 0,
        first: 0,
        second: 0,
        length: 0,
    }
}

/// Returns the reply that there is no answer.
pub(crate) fn nothing() -> Reply
    ensures { result ≡ nothing_reply }
{
    plain(NO_ANSWER)
}

/// Returns the reply that the call did its work.
pub(crate) fn done() -> Reply
    ensures { result ≡ done_reply }
{
    plain(DONE)
}

/// Returns the reply that memory ran out while a table obeyed a text. The table has `length` bytes of replies.
pub(crate) fn lost(length: usize) -> Reply
    ensures { result ≡ lost_reply length }
{
    Reply {
        status: LOST,
        number: OUT_OF_MEMORY,
        count: 0,
        first: 0,
        second: 0,
        length,
    }
}

/// Returns the reply that the filter or the table is closed.
pub(crate) fn closed() -> Reply
    ensures { result ≡ closed_reply }
{
    plain(CLOSED)
}

/// Returns the reply with the budget and the depth of a filter that was loaded.
pub(crate) fn bounds(budget: u32, depth: u16) -> Reply
    ensures { result ≡ bounds_reply budget depth }
{
    Reply {
        status: DONE,
        number: 0,
        count: 2,
        first: u64::from(budget),
        second: u64::from(depth),
        length: 0,
    }
}

/// Copies bytes to the front of the room and returns `true` if they fit; otherwise leaves it unchanged and returns
/// `false`.
fn put(bytes: &[u8], room: &mut [u8]) -> bool
    ensures { IsPut bytes.now room.old room.new result }
{
    if room.len() < bytes.len() {
        return false;
    }
    room[..bytes.len()].copy_from_slice(bytes);
    true
}

/// Copies bytes to the front of the room if they fit, and returns the reply: status 0 or 4, with their length.
#[tactic(auto, using(crate::proofs::ReplyLemmas::gives))]
pub(crate) fn given(bytes: &[u8], room: &mut [u8]) -> Reply
    ensures { Gives bytes.now room.old room.new result }
{
    let fits = put(bytes, room);
    let length = bytes.len();
    let status = status_of_put(fits);
    Reply {
        status,
        number: 0,
        count: 0,
        first: 0,
        second: 0,
        length,
    }
}

/// Returns the status 0 for bytes that fit, else 4.
fn status_of_put(fits: bool) -> u32
    ensures { result ≡ put_status fits }
{
    if fits { DONE } else { NO_ROOM }
}

/// Returns the status for an error code: 3 for 1 (out of memory), else 2.
fn status_of_number(number: u8) -> u32
    ensures { result ≡ refusal_status number }
{
    match number {
        1 => NO_MEMORY,
        _ => REFUSED,
    }
}

/// Returns the number of arguments of a fault, and the arguments, with 0 for each that is missing.
fn counted(arguments: (Option<u64>, Option<u64>)) -> (u32, u64, u64)
    ensures { (result.0 ≡ length (option_to_list arguments.0 ++ option_to_list arguments.1))
        × (result.1 ≡ slice_index_or (option_to_list arguments.0 ++ option_to_list arguments.1) 0 0)
        × (result.2 ≡ slice_index_or (option_to_list arguments.0 ++ option_to_list arguments.1) 1 0) }
{
    match arguments {
        (None, None) => (0, 0, 0),
        (Some(first), None) => (1, first, 0),
        (None, Some(second)) => (1, second, 0),
        (Some(first), Some(second)) => (2, first, second),
    }
}

/// Returns the reply for a fault: its error code and its arguments.
pub(crate) fn refused(fault: ToolFault) -> Reply
    ensures { result ≡ refusal_reply fault }
{
    let number = fault.number();
    let (count, first, second) = counted(fault.arguments());
    Reply {
        status: status_of_number(number),
        number: u32::from(number),
        count,
        first,
        second,
        length: 0,
    }
}
