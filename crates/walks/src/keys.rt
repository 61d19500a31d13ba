//! Walks by keys.
ghost use Rattle.std.specs.Prelude.{◌≡◌, ◌≤◌, ◌<◌, Some, None, IsTrue, IfOk, IfErr};
ghost use Rattle.part_core.specs.Acts.Act.{First, Next};
ghost use Rattle.part_core.specs.Acts.Answer.{Replied};
ghost use Rattle.part_core.specs.Acts.Said.{AtKey};
ghost use Rattle.part_core.specs.Ops.{act_of, said_of};
ghost use Rattle.tables.specs.Turns.{Turned, Follows};
ghost use Rattle.walks.specs.Keys.{FoundFirst, FoundNext, RefusedAt, RefusedNext, Stopped};
ghost use Rattle.walks.specs.Keys.{is_at_key};

use part_core::{Fault, PartOp, Reply};
use std::alloc::{AllocError, Allocator};
use tables::{TryTurns, part_of_key, turn_at};
use term_core::Term;

/// Returns the key of a reply, or `None` at the end.
fn key_in<A: Allocator>(reply: Reply<A>) -> Option<Term<A>>
    requires { IsTrue (is_at_key (Replied (said_of reply))) }
    ensures { said_of reply ≡ AtKey result }
{
    match reply {
        Reply::AtKey(key) => key,
        Reply::Done | Reply::Flag(_) | Reply::Objects(_) | Reply::Found(..) | Reply::Counted(..) =>
            unreachable!(),
    }
}

/// Returns the operation that requests the first key of a part.
// A call, since the borrow checker gives the bare variant's lifetime no bound.
fn first_op<'a, A: Allocator>() -> PartOp<'a, A>
    ensures { act_of result ≡ First }
{
    PartOp::First
}

/// Returns the first key of a part that has objects, or `None`. Fails if an allocation fails.
pub fn first_at<A: Allocator, T: TryTurns<A>>(
    turns: &mut T,
    part: u8,
) -> Result<Option<Term<A>>, AllocError>
    requires ready { T.is_ready turns.old }
    requires part { part < (T.home turns.old).options.parts }
    ensures ready { T.is_ready turns.new }
    ensures same { T.home turns.new ≡ T.home turns.old }
    ensures done { IfOk result (λ key. Follows (T.sees turns.old) (T.sees turns.new)
        (Turned (T.home turns.old) part First (Some (Replied (AtKey key))))) }
    ensures refused { IfErr result (λ _. Follows (T.sees turns.old) (T.sees turns.new)
        (Turned (T.home turns.old) part First None)) }
{
    match turn_at(turns, part, first_op()) {
        Ok(reply) => Ok(key_in(reply)),
        Err(_) => Err(AllocError),
    }
}

/// Returns the first key of the parts from `from` on that has objects, or `None`. Fails if an allocation fails.
fn first_from<A: Allocator, T: TryTurns<A>>(
    turns: &mut T,
    from: u8,
) -> Result<Option<Term<A>>, AllocError>
    requires ready { T.is_ready turns.old }
    requires from { from ≤ (T.home turns.old).options.parts }
    ensures ready { T.is_ready turns.new }
    ensures same { T.home turns.new ≡ T.home turns.old }
    ensures done { IfOk result (λ key. Follows (T.sees turns.old) (T.sees turns.new)
        (FoundFirst (T.home turns.old) from key)) }
    ensures refused { IfErr result (λ _. Follows (T.sees turns.old) (T.sees turns.new)
        (Stopped (T.home turns.old) from None)) }
{
    for part in from..turns.options().parts {
        if let Some(key) = first_at(turns, part)? {
            return Ok(Some(key));
        }
    }
    Ok(None)
}

/// Returns the key after another in its part that has objects, or `None` at the part's end. Fails if the key has no row
/// in a set, or if an allocation fails.
pub fn next_at<A: Allocator, T: TryTurns<A>>(
    turns: &mut T,
    part: u8,
    key: &Term<A>,
) -> Result<Option<Term<A>>, Fault>
    requires ready { T.is_ready turns.old }
    requires part { part < (T.home turns.old).options.parts }
    ensures ready { T.is_ready turns.new }
    ensures same { T.home turns.new ≡ T.home turns.old }
    ensures done { IfOk result (λ next. Follows (T.sees turns.old) (T.sees turns.new)
        (Turned (T.home turns.old) part (Next key.now) (Some (Replied (AtKey next))))) }
    ensures refused { IfErr result (λ fault. Follows (T.sees turns.old) (T.sees turns.new)
        (RefusedAt (T.home turns.old) part key.now fault)) }
{
    let reply = turn_at(turns, part, PartOp::Next(key))?;
    Ok(key_in(reply))
}

/// Returns the first key in walk order, or `None` for a table without objects (ets:first/1). Makes a turn at each part
/// until one has a key. Fails if an allocation fails.
pub fn first<A: Allocator, T: TryTurns<A>>(turns: &mut T) -> Result<Option<Term<A>>, AllocError>
    requires { T.is_ready turns.old }
    ensures ready { T.is_ready turns.new }
    ensures same { T.home turns.new ≡ T.home turns.old }
    ensures done { IfOk result (λ key. Follows (T.sees turns.old) (T.sees turns.new)
        (FoundFirst (T.home turns.old) 0 key)) }
    ensures refused { IfErr result (λ _. Follows (T.sees turns.old) (T.sees turns.new)
        (Stopped (T.home turns.old) 0 None)) }
{
    first_from(turns, 0)
}

/// Returns the key after another in walk order that has objects, or `None` at the end (ets:next/2). In a set the other
/// key must have a row, dead or live; otherwise fails with `BadKey`. In an ordered set it can be any term. Also fails
/// if an allocation fails.
pub fn next<A: Allocator, T: TryTurns<A>>(
    turns: &mut T,
    key: &Term<A>,
) -> Result<Option<Term<A>>, Fault>
    requires { T.is_ready turns.old }
    ensures ready { T.is_ready turns.new }
    ensures same { T.home turns.new ≡ T.home turns.old }
    ensures done { IfOk result (λ next. Follows (T.sees turns.old) (T.sees turns.new)
        (FoundNext (T.home turns.old) key.now next)) }
    ensures refused { IfErr result (λ fault. Follows (T.sees turns.old) (T.sees turns.new)
        (RefusedNext (T.home turns.old) key.now fault)) }
{
    let part = part_of_key(key, turns.options().parts);
    if let Some(next) = next_at(turns, part, key)? {
        return Ok(Some(next));
    }
    Ok(first_from(turns, part + 1)?)
}
