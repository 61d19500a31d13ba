//! The reply to a session that requests something of its table.
ghost use Rattle.std.specs.Prelude.{◌≡◌, IsTrue, IfOk};
ghost use Rattle.tool_script.specs.Commands.{ask_of};
ghost use Rattle.tool_script.specs.Replies.{reply_term};
ghost use Rattle.tool_script.specs.State.{IsAnswered, IsReplied};

use crate::command::Ask;
use crate::reply::CommandReply;
use part_core::Fault;
use std::alloc::{AllocError, Allocator};
use tables::{
    Turns, delete, delete_object, fix, insert, insert_new, lookup, member, release, take, unfix,
};
use term_core::{Refused, Term};
use walks::{first, next};

/// Returns why an object was rejected, and drops the object.
fn fault_of<A: Allocator>(refused: Refused<Term<A>, Fault>) -> Fault
    ensures { result ≡ refused.fault }
{
    refused.fault
}

/// Returns the reply to a call that returns no value: `true`, or the error code of its fault. Fails if the call ran out
/// of memory.
fn reply_to<A: Allocator>(outcome: Result<(), Fault>) -> Result<CommandReply<A>, AllocError>
    ensures { IfOk result (λ reply. IsReplied outcome (reply_term reply)) }
{
    match outcome {
        Ok(()) => Ok(CommandReply::Flag(true)),
        Err(Fault::Memory) => Err(AllocError),
        Err(fault) => Ok(CommandReply::Error(fault.number())),
    }
}

/// Makes the call that a session requests, and returns the reply. Fails if an allocation fails.
pub(crate) fn perform<A: Allocator + Copy, T: Turns<A>>(
    turns: &mut T,
    ask: Ask<'_, A>,
) -> Result<CommandReply<A>, AllocError>
    requires ready { T.is_ready turns.old }
    requires alone { IsTrue (T.home turns.old).alone }
    ensures same { T.home turns.new ≡ T.home turns.old }
    ensures answered { IfOk result (λ reply.
        IsAnswered (T.home turns.old).options (T.home turns.old).number (T.sees turns.old)
        (T.sees turns.new) (ask_of ask.entry) (reply_term reply)) }
{
    match ask {
        Ask::Insert(object) => {
            let object = object.copy()?;
            match insert(turns, object) {
                Ok(()) => Ok(CommandReply::Flag(true)),
                Err(refused) => reply_to(Err(fault_of(refused))),
            }
        }
        Ask::InsertNew(object) => {
            let object = object.copy()?;
            match insert_new(turns, object) {
                Ok(fresh) => Ok(CommandReply::Flag(fresh)),
                Err(refused) => reply_to(Err(fault_of(refused))),
            }
        }
        Ask::Lookup(key) => Ok(CommandReply::Objects(lookup(turns, key)?)),
        Ask::Member(key) => Ok(CommandReply::Flag(member(turns, key))),
        Ask::Delete(key) => {
            delete(turns, key);
            Ok(CommandReply::Flag(true))
        }
        Ask::DeleteObject(object) => reply_to(delete_object(turns, object)),
        Ask::Take(key) => Ok(CommandReply::Objects(take(turns, key)?)),
        Ask::Fix => reply_to(fix(turns)),
        Ask::Unfix => reply_to(unfix(turns)),
        Ask::Leave => {
            release(turns);
            Ok(CommandReply::Flag(true))
        }
        Ask::First => Ok(CommandReply::Key(first(turns)?)),
        Ask::Next(key) => match next(turns, key) {
            Ok(next) => Ok(CommandReply::Key(next)),
            Err(fault) => reply_to(Err(fault)),
        },
    }
}
