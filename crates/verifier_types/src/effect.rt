//! What an instruction needs, and the depth of the stack that it leaves.
ghost use Rattle.std.specs.Prelude.{◌≡◌, ◌<◌, ◌≤◌, ◌↔◌, IsTrue, IsSome, OnOk, List, true, false, length, reverse, slice_get, slice_index};
ghost use Rattle.std.specs.Option.{option_map_or};
ghost use Rattle.prims_table.specs.Gives.{gives_of};
ghost use Rattle.mcode.specs.Kind.{kind_of as exact_kind};
ghost use Rattle.verifier_types.specs.Effect.{needs, arguments_of, result_of, IsConstantFit, kinds_fit, are_below, is_top_below as is_kind_at_top_below, passes, slot_fits, left_shape, top_stays as top_is_kept, given_kind as kind_given};
ghost use Rattle.verifier_types.specs.Fit.{IsPlaced};
ghost use Rattle.verifier_types.specs.Inner.{inner_depth as depth_inside};
ghost use Rattle.mcode.specs.Program.{routine_at, most_arguments};
ghost use Rattle.mcode.specs.declared.kind.Kind.{Kind as KindValue};
ghost use Rattle.verifier_types.specs.Needed.{AreCounts, tops_fit as tops_are_fit, pushed_count as count_pushed};

use crate::keys::key_count;
use crate::shape::{Shape, is_below};
use mcode::{Body, Instr, Kind};
use std::alloc::{AllocError, Allocator};

/// Returns the number of arguments of a routine, 0 if it doesn't exist.
pub fn argument_count<A: Allocator>(body: &Body<'_, A>, routine: u16) -> usize
    ensures { result ≡ length (arguments_of (routine_at body.now routine)) }
{
    match body.routine(routine) {
        Some(routine) => routine.arguments().len(),
        None => 0,
    }
}

/// Returns the kind of a routine's result, `Kind::Any` if it doesn't exist.
pub fn result_kind<A: Allocator>(body: &Body<'_, A>, routine: u16) -> Kind
    ensures { result ≡ result_of (routine_at body.now routine) }
{
    match body.routine(routine) {
        Some(routine) => routine.gives(),
        None => Kind::Any,
    }
}

/// Returns the number of operands that an instruction needs.
pub fn needed<A: Allocator>(body: &Body<'_, A>, counts: &[Option<usize>], instr: Instr) -> usize
    requires { AreCounts body.now counts.now }
    ensures { result ≡ needs body.now instr }
{
    match instr {
        Instr::Load | Instr::Const { .. } | Instr::Get { .. } => 0,
        Instr::Jump { .. } | Instr::NoAnswer | Instr::Fail => 0,
        Instr::Bind { .. } | Instr::Dup | Instr::Drop => 1,
        Instr::Tuple { .. } | Instr::Field { .. } => 1,
        Instr::Cons { .. } | Instr::Head | Instr::Tail => 1,
        Instr::Map { .. } | Instr::Value { .. } => 1,
        Instr::Int { .. } | Instr::Bool { .. } | Instr::Branch { .. } => 1,
        Instr::Answer | Instr::Return => 1,
        Instr::Equal { .. } | Instr::Arith { .. } | Instr::MakeCons { .. } => 2,
        Instr::Call { arguments, .. } => usize::from(arguments),
        Instr::MakeTuple { size, .. } => usize::from(size),
        Instr::MakeMap { keys, .. } => key_count(body, counts, keys).unwrap_or(0),
        Instr::Invoke { routine, .. } => argument_count(body, routine),
    }
}

/// Returns whether the constant that an instruction names exists and has the form that it needs.
pub fn is_constant_fit<A: Allocator>(
    body: &Body<'_, A>,
    counts: &[Option<usize>],
    instr: Instr,
) -> bool
    requires { AreCounts body.now counts.now }
    ensures { IsTrue result ↔ IsConstantFit body.now instr }
{
    match instr {
        Instr::Const { constant } => usize::from(constant) < body.constants().len(),
        Instr::Value { key, .. } => usize::from(key) < body.constants().len(),
        Instr::MakeMap { keys, .. } => key_count(body, counts, keys).is_some(),
        _ => true,
    }
}

/// Returns whether a routine exists and has a higher number than a body.
fn is_beyond<A: Allocator>(body: &Body<'_, A>, routine: u16) -> bool
    ensures { IsTrue result ↔ ((body.now.around.number < routine) × IsSome (routine_at body.now routine)) }
{
    body.number() < routine && body.routine(routine).is_some()
}

/// Returns whether an instruction is allowed in a body.
pub fn is_placed<A: Allocator>(body: &Body<'_, A>, instr: Instr) -> bool
    ensures { IsTrue result ↔ IsPlaced body.now instr }
{
    match instr {
        Instr::Invoke { routine, .. } => is_beyond(body, routine),
        Instr::Answer | Instr::NoAnswer => body.number() == 0,
        Instr::Return | Instr::Fail => 0 < body.number(),
        _ => true,
    }
}

/// Returns whether the two kinds at the top are those that an instruction needs, FIELD's place is one of the tuple's,
/// and CALL's function takes this number of arguments.
fn tops_fit(instr: Instr, top: Option<Kind>, second: Option<Kind>) -> bool
    ensures { result ≡ tops_are_fit instr top second }
{
    match instr {
        Instr::Field { index } => match top {
            Some(Kind::Tuple(size)) => 0 < index && index <= size,
            _ => false,
        },
        Instr::Head | Instr::Tail => matches!(top, Some(Kind::Cons)),
        Instr::Value { .. } => matches!(top, Some(Kind::Map)),
        Instr::Branch { .. } => matches!(top, Some(Kind::Bool)),
        Instr::Arith { .. } => {
            matches!(top, Some(Kind::Int)) && matches!(second, Some(Kind::Int))
        }
        Instr::Call {
            function,
            arguments,
            ..
        } => function.takes(usize::from(arguments)),
        _ => true,
    }
}

/// Returns whether an instruction may need operands of certain kinds, or a certain number of them.
fn asks_kinds(instr: Instr) -> bool
    ensures { result ≡ false → (ks : List KindValue) → kinds_fit instr ks ≡ true }
{
    matches!(
        instr,
        Instr::Field { .. }
            | Instr::Head
            | Instr::Tail
            | Instr::Value { .. }
            | Instr::Branch { .. }
            | Instr::Arith { .. }
            | Instr::Call { .. }
    )
}

/// Returns whether the operands are of the kinds that an instruction needs.
pub fn are_kinds_fit<A: Allocator>(instr: Instr, shape: &Shape<A>) -> bool
    ensures { result ≡ kinds_fit instr shape.now.kinds }
{
    // Most instructions take any kinds, and then no place is looked up.
    if !asks_kinds(instr) {
        return true;
    }
    tops_fit(instr, shape.kind(0), shape.kind(1))
}

/// Returns whether a kind exists and is equal to another or below it.
fn is_top_below(top: Option<Kind>, other: Kind) -> bool
    ensures { result ≡ is_kind_at_top_below top other }
{
    match top {
        Some(kind) => is_below(kind, other),
        None => false,
    }
}

/// Returns whether the kinds at the top are equal to those of the arguments or below them, one each. `arguments` has
/// the lowest first.
fn are_tops_below<A: Allocator>(shape: &Shape<A>, arguments: &[Kind]) -> bool
    requires { length arguments.now ≤ most_arguments }
    ensures { result ≡ are_below shape.now.kinds (reverse arguments.now) }
{
    for above in 0..arguments.len() {
        let argument = arguments[arguments.len() - 1 - above];
        if !is_top_below(shape.kind(above as u16), argument) {
            return false;
        }
    }
    true
}

/// Returns whether the arguments of INVOKE are of its routine's kinds, and the result with which RETURN ends its
/// routine is of that routine's kind.
pub fn are_passed<A: Allocator>(body: &Body<'_, A>, instr: Instr, shape: &Shape<A>) -> bool
    ensures { result ≡ passes body.now instr shape.now.kinds }
{
    match instr {
        Instr::Invoke { routine, .. } => match body.routine(routine) {
            Some(routine) => are_tops_below(shape, routine.arguments()),
            None => true,
        },
        Instr::Return => match body.own_routine() {
            Some(routine) => is_top_below(shape.kind(0), routine.gives()),
            None => is_top_below(shape.kind(0), Kind::Any),
        },
        _ => true,
    }
}

/// Returns whether the slot that an instruction names exists, and is bound if it is read.
pub fn is_slot_fit<A: Allocator>(body: &Body<'_, A>, instr: Instr, shape: &Shape<A>) -> bool
    ensures { result ≡ slot_fits body.now instr shape.now.bound }
{
    match instr {
        Instr::Get { slot } => shape.is_bound(slot),
        Instr::Bind { slot } => u16::from(slot) < body.slots(),
        _ => true,
    }
}

/// Returns the number of places that an instruction pushes.
fn pushed_count(instr: Instr) -> usize
    ensures { result ≡ count_pushed instr }
{
    match instr {
        Instr::Dup => 2,
        Instr::Bind { .. } | Instr::Drop | Instr::Equal { .. } | Instr::Jump { .. } => 0,
        Instr::Branch { .. } | Instr::Answer | Instr::NoAnswer => 0,
        Instr::Return | Instr::Fail => 0,
        _ => 1,
    }
}

/// Returns the number of places that an instruction leaves if it goes on.
pub fn left_depth<A: Allocator>(
    body: &Body<'_, A>,
    instr: Instr,
    shape: &Shape<A>,
    needed: usize,
) -> usize
    requires needed { needed ≡ needs body.now instr }
    requires operands { needs body.now instr ≤ length shape.now.kinds }
    ensures { result ≡ length (left_shape body.now instr shape.now).kinds }
{
    usize::from(shape.depth()) - needed + pushed_count(instr)
}

/// Returns the depth of a body's operand stack, 0 if the body doesn't exist.
fn depth_at(depths: &[u16], number: u16) -> usize
    ensures { result ≡ slice_index depths.now number }
{
    match depths.get(usize::from(number)) {
        Some(depth) => usize::from(*depth),
        None => 0,
    }
}

/// Returns the largest number of places in use while INVOKE's routine runs, given the depths of all bodies; 0 for any
/// other instruction.
pub fn inner_depth<A: Allocator>(
    body: &Body<'_, A>,
    depths: &[u16],
    instr: Instr,
    shape: &Shape<A>,
) -> usize
    requires { needs body.now instr ≤ length shape.now.kinds }
    ensures { result ≡ depth_inside body.now depths.now instr shape.now }
{
    match instr {
        Instr::Invoke { routine, .. } => {
            usize::from(shape.depth()) - argument_count(body, routine) + depth_at(depths, routine)
        }
        _ => 0,
    }
}

/// Returns whether the top stays if an instruction jumps.
pub fn top_stays(instr: Instr) -> bool
    ensures { result ≡ top_is_kept instr }
{
    matches!(
        instr,
        Instr::Tuple { .. }
            | Instr::Cons { .. }
            | Instr::Map { .. }
            | Instr::Int { .. }
            | Instr::Bool { .. }
    )
}
