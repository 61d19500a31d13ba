//! The answer of a turn, in the form that its method returns.
ghost use Rattle.std.specs.Prelude.{◌≡◌, IsTrue, Some, is_some, Ok};
ghost use Rattle.std.specs.Result.{is_ok};
ghost use Rattle.part_core.specs.Acts.Answer.{Replied};
ghost use Rattle.part_core.specs.Acts.Said.{Flag, Objects};
ghost use Rattle.part_core.specs.Ops.{object_in, said_of};
ghost use Rattle.tables.specs.Calls.{is_flag, is_objects};

use part_core::{Fault, PartOp, Reply};
use std::alloc::Allocator;
use term_core::Term;

/// Returns the object that an operation still has.
pub(crate) fn object_put<A: Allocator>(op: PartOp<'_, A>) -> Term<A>
    requires { IsTrue (is_some (object_in op)) }
    ensures { object_in op.entry ≡ Some result }
{
    match op.into_object() {
        Some(object) => object,
        None => unreachable!(),
    }
}

/// Returns the reply of a turn that cannot fail.
pub(crate) fn done<A: Allocator>(outcome: Result<Reply<A>, Fault>) -> Reply<A>
    requires { IsTrue (is_ok outcome) }
    ensures { outcome ≡ Ok result }
{
    match outcome {
        Ok(reply) => reply,
        Err(_) => unreachable!(),
    }
}

/// Returns the value of a reply of yes or no.
pub(crate) fn flag<A: Allocator>(reply: Reply<A>) -> bool
    requires { IsTrue (is_flag (Replied (said_of reply))) }
    ensures { said_of reply ≡ Flag result }
{
    match reply {
        Reply::Flag(flag) => flag,
        Reply::Done | Reply::Objects(_) | Reply::AtKey(_) | Reply::Found(..) | Reply::Counted(..) =>
            unreachable!(),
    }
}

/// Returns the objects of a reply of objects.
pub(crate) fn objects<A: Allocator>(reply: Reply<A>) -> Vec<Term<A>, A>
    requires { IsTrue (is_objects (Replied (said_of reply))) }
    ensures { said_of reply ≡ Objects result.items }
{
    match reply {
        Reply::Objects(objects) => objects,
        Reply::Done | Reply::Flag(_) | Reply::AtKey(_) | Reply::Found(..) | Reply::Counted(..) =>
            unreachable!(),
    }
}
