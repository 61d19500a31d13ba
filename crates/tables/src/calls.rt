//! Methods for the part of one key.
ghost use Rattle.std.specs.Prelude.{◌≡◌, ◌≢◌, ◌<◌, ◌%◌, Some, None, IsTrue, IsFalse, false, MatchOption, IfOk, IfErr};
ghost use Rattle.term_core.specs.KeyHash.{key_hash};
ghost use Rattle.part_core.specs.Settings.{is_object, key_of, part_of};
ghost use Rattle.part_core.specs.Acts.{IsAsked};
ghost use Rattle.part_core.specs.Acts.Act.{Insert, InsertNew, Lookup, Member, Delete, DeleteObject, Take};
ghost use Rattle.part_core.specs.Acts.Answer.{Replied};
ghost use Rattle.part_core.specs.Acts.Said.{Nothing, Flag, Objects};
ghost use Rattle.part_core.specs.Ops.{act_of, answer_in, takes_no_memory};
ghost use Rattle.tables.specs.Options.{settings_of};
ghost use Rattle.tables.specs.Turns.{TurnedByKey, Follows};
ghost use Rattle.tables.specs.Calls.{TurnedByObject, RefusedByObject};

use crate::put_off::PutOff;
use crate::replies::{done, flag, object_put, objects};
use crate::turns::{TryTurns, Turns, turn_at};
use part_core::{Fault, PartOp, Reply, key_in};
use std::alloc::{AllocError, Allocator};
use term_core::{Refused, Term};

/// Returns the number of a key's part, for a table of `parts` parts.
pub fn part_of_key<A: Allocator>(key: &Term<A>, parts: u8) -> u8
    requires { 0 < parts }
    ensures part { result ≡ key_hash key.now % parts }
    ensures inside { result < parts }
{
    (key.key_hash() % u64::from(parts)) as u8
}

/// Returns the number of the part of an object's key, or `None` if the term is no object.
fn part_of_object<A: Allocator, T: TryTurns<A>>(turns: &T, object: &Term<A>) -> Option<u8>
    requires { T.is_ready turns.now }
    ensures { MatchOption result (is_object (settings_of (T.home turns.now).options) object.now ≡ false)
        (λ part. IsTrue (is_object (settings_of (T.home turns.now).options) object.now)
        × (part ≡ part_of (settings_of (T.home turns.now).options) (key_of (settings_of (T.home turns.now).options) object.now))
        × (part < (T.home turns.now).options.parts)) }
{
    let options = turns.options();
    match key_in(options.keypos, object) {
        Some(key) => Some(part_of_key(key, options.parts)),
        None => None,
    }
}

/// Performs an operation at the part of a key, and returns the part's reply or fault.
fn turn_by_key<'a, A: Allocator, T: TryTurns<A>>(
    turns: &mut T,
    key: &Term<A>,
    op: PartOp<'a, A>,
) -> Result<Reply<A>, Fault>
    requires ready { T.is_ready turns.old }
    requires asked { IsAsked (act_of op) }
    ensures ready { T.is_ready turns.new }
    ensures same { T.home turns.new ≡ T.home turns.old }
    ensures entry { Follows (T.sees turns.old) (T.sees turns.new)
        (TurnedByKey (T.home turns.old) key.now (act_of op.entry) (answer_in result)) }
    ensures sure { IsTrue (T.is_made turns.new) → IsTrue (takes_no_memory (act_of op.entry))
        → IfErr result (λ fault. fault ≢ Fault.Memory) }
{
    let parts = turns.options().parts;
    turn_at(turns, part_of_key(key, parts), op)
}

/// Inserts an object; in a set it replaces the one with its key (ets:insert/2). Fails if the term is not a tuple with
/// an element at the key's position, if an allocation fails, or if the turn is put off. The error hands the object back.
pub fn insert<A: Allocator, T: TryTurns<A>>(
    turns: &mut T,
    object: Term<A>,
) -> Result<(), Refused<Term<A>, Fault>>
    requires { T.is_ready turns.old }
    ensures ready { T.is_ready turns.new }
    ensures same { T.home turns.new ≡ T.home turns.old }
    ensures done { IfOk result (λ _. Follows (T.sees turns.old) (T.sees turns.new)
        (TurnedByObject (T.home turns.old) object (Insert object) (Some (Replied Nothing)))) }
    ensures refused { IfErr result (λ refused. Follows (T.sees turns.old) (T.sees turns.new)
        (RefusedByObject (T.home turns.old) object (Insert object) refused.fault)) }
    ensures back { IfErr result (λ refused. refused.value ≡ object) }
{
    let Some(part) = part_of_object(turns, &object) else {
        return Err(Refused {
            value: object,
            fault: Fault::TooSmall,
        });
    };
    let mut op = PartOp::Insert(Some(object));
    match turns.turn(part, &mut op) {
        Ok(reply) => {
            drop(op);
            drop(reply);
            Ok(())
        }
        // An object can only be rejected because an allocation failed or the turn was put off.
        Err(_) => Err(Refused {
            value: object_put(op),
            fault: Fault::Memory,
        }),
    }
}

/// Inserts an object if its key has none, and returns whether it did (ets:insert_new/2); otherwise the object is
/// dropped. Fails if the term is not a tuple with an element at the key's position, if an allocation fails, or if the
/// turn is put off. The error hands the object back.
pub fn insert_new<A: Allocator, T: TryTurns<A>>(
    turns: &mut T,
    object: Term<A>,
) -> Result<bool, Refused<Term<A>, Fault>>
    requires { T.is_ready turns.old }
    ensures ready { T.is_ready turns.new }
    ensures same { T.home turns.new ≡ T.home turns.old }
    ensures done { IfOk result (λ fresh. Follows (T.sees turns.old) (T.sees turns.new)
        (TurnedByObject (T.home turns.old) object (InsertNew object) (Some (Replied (Flag fresh))))) }
    ensures refused { IfErr result (λ refused. Follows (T.sees turns.old) (T.sees turns.new)
        (RefusedByObject (T.home turns.old) object (InsertNew object) refused.fault)) }
    ensures back { IfErr result (λ refused. refused.value ≡ object) }
{
    let Some(part) = part_of_object(turns, &object) else {
        return Err(Refused {
            value: object,
            fault: Fault::TooSmall,
        });
    };
    let mut op = PartOp::InsertNew(Some(object));
    match turns.turn(part, &mut op) {
        Ok(reply) => {
            drop(op);
            Ok(flag(reply))
        }
        Err(_) => Err(Refused {
            value: object_put(op),
            fault: Fault::Memory,
        }),
    }
}

/// Returns the objects of a key in the order of insertion (ets:lookup/2). Fails if an allocation fails or the turn is
/// put off.
pub fn lookup<A: Allocator, T: TryTurns<A>>(
    turns: &mut T,
    key: &Term<A>,
) -> Result<Vec<Term<A>, A>, AllocError>
    requires { T.is_ready turns.old }
    ensures ready { T.is_ready turns.new }
    ensures same { T.home turns.new ≡ T.home turns.old }
    ensures done { IfOk result (λ found. Follows (T.sees turns.old) (T.sees turns.new)
        (TurnedByKey (T.home turns.old) key.now (Lookup key.now) (Some (Replied (Objects found.items))))) }
    ensures refused { IfErr result (λ _. Follows (T.sees turns.old) (T.sees turns.new)
        (TurnedByKey (T.home turns.old) key.now (Lookup key.now) None)) }
{
    match turn_by_key(turns, key, PartOp::Lookup(key)) {
        Ok(reply) => Ok(objects(reply)),
        Err(_) => Err(AllocError),
    }
}

/// Deletes the objects of a key, and returns them in the order of insertion (ets:take/2). Fails, with nothing deleted,
/// if an allocation fails or the turn is put off.
pub fn take<A: Allocator, T: TryTurns<A>>(
    turns: &mut T,
    key: &Term<A>,
) -> Result<Vec<Term<A>, A>, AllocError>
    requires { T.is_ready turns.old }
    ensures ready { T.is_ready turns.new }
    ensures same { T.home turns.new ≡ T.home turns.old }
    ensures done { IfOk result (λ found. Follows (T.sees turns.old) (T.sees turns.new)
        (TurnedByKey (T.home turns.old) key.now (Take key.now) (Some (Replied (Objects found.items))))) }
    ensures refused { IfErr result (λ _. Follows (T.sees turns.old) (T.sees turns.new)
        (TurnedByKey (T.home turns.old) key.now (Take key.now) None)) }
{
    match turn_by_key(turns, key, PartOp::Take(key)) {
        Ok(reply) => Ok(objects(reply)),
        Err(_) => Err(AllocError),
    }
}

/// Returns whether a key has an object (ets:member/2).
pub fn member<A: Allocator, T: Turns<A>>(turns: &mut T, key: &Term<A>) -> bool
    requires { T.is_ready turns.old }
    ensures ready { T.is_ready turns.new }
    ensures same { T.home turns.new ≡ T.home turns.old }
    ensures done { Follows (T.sees turns.old) (T.sees turns.new)
        (TurnedByKey (T.home turns.old) key.now (Member key.now) (Some (Replied (Flag result)))) }
{
    flag(done(turn_by_key(turns, key, PartOp::Member(key))))
}

/// Deletes the objects of a key (ets:delete/2).
pub fn delete<A: Allocator, T: Turns<A>>(turns: &mut T, key: &Term<A>)
    requires { T.is_ready turns.old }
    ensures ready { T.is_ready turns.new }
    ensures same { T.home turns.new ≡ T.home turns.old }
    ensures done { Follows (T.sees turns.old) (T.sees turns.new)
        (TurnedByKey (T.home turns.old) key.now (Delete key.now) (Some (Replied Nothing))) }
{
    drop(done(turn_by_key(turns, key, PartOp::Delete(key))));
}

/// Deletes the objects that are equal to the given one (ets:delete_object/2). Fails if the term is not a tuple with an
/// element at the key's position.
pub fn delete_object<A: Allocator, T: Turns<A>>(
    turns: &mut T,
    object: &Term<A>,
) -> Result<(), Fault>
    requires { T.is_ready turns.old }
    ensures ready { T.is_ready turns.new }
    ensures same { T.home turns.new ≡ T.home turns.old }
    ensures done { IfOk result (λ _. Follows (T.sees turns.old) (T.sees turns.new)
        (TurnedByObject (T.home turns.old) object.now (DeleteObject object.now) (Some (Replied Nothing)))) }
    ensures refused { IfErr result (λ fault. (fault ≡ Fault.TooSmall) × Follows (T.sees turns.old) (T.sees turns.new)
        (RefusedByObject (T.home turns.old) object.now (DeleteObject object.now) fault)) }
{
    let Some(part) = part_of_object(turns, object) else {
        return Err(Fault::TooSmall);
    };
    drop(done(turn_at(turns, part, PartOp::DeleteObject(object))));
    Ok(())
}

/// Returns whether a key has an object (ets:member/2). Fails, with nothing done, only if the turn is put off.
pub fn try_member<A: Allocator, T: TryTurns<A>>(
    turns: &mut T,
    key: &Term<A>,
) -> Result<bool, PutOff>
    requires { T.is_ready turns.old }
    ensures ready { T.is_ready turns.new }
    ensures same { T.home turns.new ≡ T.home turns.old }
    ensures done { IfOk result (λ found. Follows (T.sees turns.old) (T.sees turns.new)
        (TurnedByKey (T.home turns.old) key.now (Member key.now) (Some (Replied (Flag found))))) }
    ensures put_off { IfErr result (λ _. IsFalse (T.is_made turns.new) × Follows (T.sees turns.old) (T.sees turns.new)
        (TurnedByKey (T.home turns.old) key.now (Member key.now) None)) }
{
    match turn_by_key(turns, key, PartOp::Member(key)) {
        Ok(reply) => Ok(flag(reply)),
        Err(_) => Err(PutOff),
    }
}

/// Deletes the objects of a key (ets:delete/2). Fails, with nothing deleted, only if the turn is put off.
pub fn try_delete<A: Allocator, T: TryTurns<A>>(turns: &mut T, key: &Term<A>) -> Result<(), PutOff>
    requires { T.is_ready turns.old }
    ensures ready { T.is_ready turns.new }
    ensures same { T.home turns.new ≡ T.home turns.old }
    ensures done { IfOk result (λ _. Follows (T.sees turns.old) (T.sees turns.new)
        (TurnedByKey (T.home turns.old) key.now (Delete key.now) (Some (Replied Nothing)))) }
    ensures put_off { IfErr result (λ _. IsFalse (T.is_made turns.new) × Follows (T.sees turns.old) (T.sees turns.new)
        (TurnedByKey (T.home turns.old) key.now (Delete key.now) None)) }
{
    match turn_by_key(turns, key, PartOp::Delete(key)) {
        Ok(reply) => {
            drop(reply);
            Ok(())
        }
        Err(_) => Err(PutOff),
    }
}

/// Deletes the objects that are equal to the given one (ets:delete_object/2). Fails with `TooSmall` if the term is not a
/// tuple with an element at the key's position, and with `Memory`, with nothing deleted, only if the turn is put off.
pub fn try_delete_object<A: Allocator, T: TryTurns<A>>(
    turns: &mut T,
    object: &Term<A>,
) -> Result<(), Fault>
    requires { T.is_ready turns.old }
    ensures ready { T.is_ready turns.new }
    ensures same { T.home turns.new ≡ T.home turns.old }
    ensures done { IfOk result (λ _. Follows (T.sees turns.old) (T.sees turns.new)
        (TurnedByObject (T.home turns.old) object.now (DeleteObject object.now) (Some (Replied Nothing)))) }
    ensures refused { IfErr result (λ fault. Follows (T.sees turns.old) (T.sees turns.new)
        (RefusedByObject (T.home turns.old) object.now (DeleteObject object.now) fault)) }
    ensures put_off { IfErr result (λ fault. fault ≡ Fault.Memory → IsFalse (T.is_made turns.new)) }
{
    let Some(part) = part_of_object(turns, object) else {
        return Err(Fault::TooSmall);
    };
    match turn_at(turns, part, PartOp::DeleteObject(object)) {
        Ok(reply) => {
            drop(reply);
            Ok(())
        }
        Err(_) => Err(Fault::Memory),
    }
}
