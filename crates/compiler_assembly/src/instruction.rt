//! Converting symbolic instructions to instructions.
ghost use Rattle.std.specs.Prelude.{◌≡◌, ◌≤◌, ◌<◌, ◌⊎◌, List, length, MatchOption, IfOk, IfErr, OnOk};
ghost use Rattle.compiler_assembly.specs.Assembled.{constant_of, with_named, resolved, instr_of, IsTargetInRange};
ghost use Rattle.compiler_assembly.specs.Assembling.{instr_to};
ghost use Rattle.compiler_assembly.specs.Pool.{IsFront};
ghost use Rattle.mcode.specs.Program.{most_parts};
ghost use Rattle.mcode.specs.declared.fault.Fault.TheVariants.{Memory};
ghost use Rattle.term_core.specs.Datum.{Datum};

use crate::op::{Op, Target};
use crate::pool::Pool;
use mcode::{Fault, Instr};
use std::alloc::Allocator;
use term_core::Term;

/// The position of an instruction.
#[derive(Clone, Copy)]
pub(crate) struct Place {
    /// Its number.
    pub(crate) pc: u16,
    /// The number of the instruction after its block.
    pub(crate) behind: u16,
}

/// Returns the number of the instruction to which the one at a place leads, or `None` if it exceeds 65,535.
fn resolve(place: Place, target: Target) -> Option<u16>
    ensures { let number = resolved place.behind place.pc target in
        MatchOption result (most_parts < number) (λ to. to ≡ number) }
{
    match target {
        Target::Failing => Some(place.behind),
        Target::Ahead(between) => place.pc.checked_add(1)?.checked_add(between),
    }
}

/// Returns the instruction that jumps to the number `otherwise`. Adds its constant to the pool; the instruction stays
/// right if constants are appended later. Fails if an allocation fails or there are too many constants.
fn instruction_to<A: Allocator + Copy>(
    pool: &mut Pool<A>,
    op: Op<Term<A>>,
    otherwise: u16,
) -> Result<Instr, Fault>
    ensures pool { OnOk result (pool.new ≡ with_named pool.old (constant_of op)) }
    ensures instr { IfOk result (λ instr. (all : List Datum) → IsFront pool.new all
        → instr ≡ instr_to all otherwise op) }
    ensures refused { IfErr result (λ fault. (fault ≡ Memory)
        ⊎ (most_parts < length (with_named pool.old (constant_of op)))) }
{
    let instr = match op {
        Op::Load => Instr::Load,
        Op::Const(term) => Instr::Const {
            constant: pool.intern(term)?,
        },
        Op::Get(slot) => Instr::Get { slot },
        Op::Bind(slot) => Instr::Bind { slot },
        Op::Dup => Instr::Dup,
        Op::Drop => Instr::Drop,
        Op::Tuple(size, _) => Instr::Tuple { size, otherwise },
        Op::Field(index) => Instr::Field { index },
        Op::Cons(_) => Instr::Cons { otherwise },
        Op::Head => Instr::Head,
        Op::Tail => Instr::Tail,
        Op::Map(_) => Instr::Map { otherwise },
        Op::Value(term, _) => Instr::Value {
            key: pool.intern(term)?,
            otherwise,
        },
        Op::Equal(_) => Instr::Equal { otherwise },
        Op::Jump(_) => Instr::Jump { target: otherwise },
        Op::Call(function, arguments, _) => Instr::Call {
            function,
            arguments,
            otherwise,
        },
        Op::Int(_) => Instr::Int { otherwise },
        Op::Arith(function, _) => Instr::Arith {
            function,
            otherwise,
        },
        Op::Bool(_) => Instr::Bool { otherwise },
        Op::Branch(_) => Instr::Branch { otherwise },
        Op::MakeTuple(size, _) => Instr::MakeTuple { size, otherwise },
        Op::MakeCons(_) => Instr::MakeCons { otherwise },
        Op::MakeMap(term, _) => Instr::MakeMap {
            keys: pool.intern(term)?,
            otherwise,
        },
        Op::Answer => Instr::Answer,
        Op::NoAnswer => Instr::NoAnswer,
    };
    Ok(instr)
}

/// Returns the instruction at a place. Adds its constant to the pool; the instruction stays right if constants are
/// appended later. Fails if an allocation fails, there are too many constants, or the target is out of range.
pub(crate) fn instruction<A: Allocator + Copy>(
    pool: &mut Pool<A>,
    op: Op<Term<A>>,
    place: Place,
) -> Result<Instr, Fault>
    ensures pool { OnOk result (pool.new ≡ with_named pool.old (constant_of op)) }
    ensures instr { IfOk result (λ instr. (all : List Datum) → IsFront pool.new all
        → instr ≡ instr_of all place.behind place.pc op) }
    ensures refused { IfErr result (λ fault. (fault ≡ Memory)
        ⊎ ((most_parts < length (with_named pool.old (constant_of op)))
        ⊎ ((all : List Datum) → ¬ IsTargetInRange (instr_of all place.behind place.pc op)))) }
{
    let to = match op.target() {
        None => 0,
        Some(target) => match resolve(place, target) {
            Some(to) => to,
            None => return Err(Fault::Limit),
        },
    };
    instruction_to(pool, op, to)
}
