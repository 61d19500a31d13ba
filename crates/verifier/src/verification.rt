//! Verifying code.
ghost use Rattle.std.specs.Prelude.{ℕ, suc, ◌≡◌, ◌<◌, ◌≤◌, ◌+◌, ◌⊎◌, ◌++◌, ◌∷◌, [], ◌↔◌, IsTrue, IfOk, IfErr, OnOk, OnErr, All, List, length, map, max};
ghost use Rattle.mcode.specs.Frame.{frame_of};
ghost use Rattle.mcode.specs.Program.{place_number, body_of};
ghost use Rattle.verifier.specs.Faults.{IsFirstUnfit, IsFirstUntyped, IsBodyFault, IsBodyOver, IsFirstFault};
ghost use Rattle.verifier.specs.Pass.{IsWalked};
ghost use Rattle.verifier_types.specs.Fit.{IsFrameFit};
ghost use Rattle.verifier_types.specs.Needed.{AreCounts};
ghost use Rattle.verifier.specs.Typing.{IsTyped};
ghost use Rattle.verifier.specs.Verified.{IsTable, AreTables, IsFound, IsStart, IsKnown, IsVerified};
ghost use Rattle.mcode_fused.specs.Ops.{AreOps};
ghost use Rattle.verifier_types.specs.declared.fault.Fault.TheVariants.{Memory};

use crate::fault::BodyFault;
use crate::pass::{Walk, step};
use crate::verified::{Table, Verified};
use budget::budget_of;
use mcode::{Body, Code, Frame};
use mcode_fused::{Op, prepared};
use std::alloc::{AllocError, Allocator};
use term_core::Refused;
use verifier_types::{Fault, MAX_DEPTH, key_counts};

/// Returns whether all of these places are within a depth.
fn are_within(places: &[(u16, mcode::Kind)], depth: u16) -> bool
    ensures { IsTrue result ↔ All (λ place. place_number place < depth) places.now }
{
    places.iter().all(|place| place.0 < depth)
}

/// Returns whether all of these slots are below `count`.
fn are_slots(slots: &[u8], count: u16) -> bool
    ensures { IsTrue result ↔ All (λ slot. slot < count) slots.now }
{
    slots.iter().all(|slot| u16::from(*slot) < count)
}

/// Returns whether a frame is at an instruction other than the first, and within the limits.
fn is_frame_fit<A: Allocator>(body: &Body<'_, A>, frame: &Frame<A>) -> bool
    ensures { IsTrue result ↔ IsFrameFit body.now (frame_of frame.now) }
{
    0 < frame.pc
        && usize::from(frame.pc) < body.instructions().len()
        && frame.depth <= MAX_DEPTH
        && are_within(frame.places.as_slice(), frame.depth)
        && are_slots(frame.slots.as_slice(), body.slots())
}

/// Checks the frames. Fails with the first that isn't fit.
fn check_frames<A: Allocator>(body: &Body<'_, A>, frames: &[Frame<A>]) -> Result<(), Fault>
    requires { map frame_of frames.now ≡ body.now.frames }
    ensures fit { OnOk result (All (IsFrameFit body.now) body.now.frames) }
    ensures fault { IfErr result (λ fault. IsFirstUnfit body.now fault) }
{
    for frame in frames {
        if !is_frame_fit(body, frame) {
            return Err(Fault::Frame(frame.pc));
        }
    }
    Ok(())
}

/// Types each instruction in turn, given the numbers of the constants' keys and the depths of the bodies with higher
/// numbers (`behind`). Fails with the first fault, or if an allocation fails.
fn walk_through<A: Allocator + Copy>(
    alloc: A,
    body: &Body<'_, A>,
    counts: &[Option<usize>],
    behind: &[u16],
) -> Result<Walk<A>, Fault>
    requires counts { AreCounts body.now counts.now }
    requires frames { All (IsFrameFit body.now) body.now.frames }
    ensures typed { IfOk result (λ w. IsWalked body.now behind.now (length body.now.instructions) w.falls
        w.shape w.depths.items w.own w.inner) }
    ensures fault { IfErr result (λ fault. (fault ≡ Memory) ⊎ IsFirstUntyped body.now behind.now fault) }
{
    let mut walk = Walk::start(alloc, body)?;
    for pc in 0..body.instructions().len() {
        step(body, counts, behind, pc as u16, &mut walk)?;
    }
    Ok(walk)
}

/// The findings about one body.
#[derive(Drop)]
struct Found<A: Allocator> {
    table: Table<A>,
    depth: u16,
    budget: u32,
}

/// Checks a body and returns the findings about it, given the numbers of the constants' keys, and the depths and the
/// budgets of bodies with higher numbers. Fails with its first fault, or if an allocation fails.
fn find_out<A: Allocator + Copy>(
    alloc: A,
    body: &Body<'_, A>,
    counts: &[Option<usize>],
    depths: &[u16],
    budgets: &[u32],
) -> Result<Found<A>, Fault>
    requires { AreCounts body.now counts.now }
    ensures typed { IfOk result (λ f. IsFound body.now depths.now budgets.now f.table f.depth f.budget) }
    ensures fault { IfErr result (λ fault. (fault ≡ Memory) ⊎ (IsBodyFault body.now depths.now fault
        ⊎ IsBodyOver body.now depths.now budgets.now fault)) }
{
    check_frames(body, body.frames())?;
    if body.instructions().is_empty() {
        return Err(Fault::FallsOff(0));
    }
    let walk = walk_through(alloc, body, counts, depths)?;
    let Some(budget) = budget_of(alloc, body, budgets)? else {
        return Err(Fault::Budget);
    };
    Ok(Found {
        depth: walk.own.max(walk.inner),
        table: Table::new(walk.depths, walk.own),
        budget,
    })
}

/// The findings about the bodies so far, which are checked from the last one.
#[derive(Drop)]
struct Known<A: Allocator> {
    /// For each body, by its number, the greatest depth including the routines that it invokes.
    depths: Vec<u16, A>,
    /// For each body, by its number, its budget.
    budgets: Vec<u32, A>,
    /// For each routine, the last first, its table.
    tables: Vec<Table<A>, A>,
}

/// Makes the findings before the last of `count` bodies is checked.
fn start<A: Allocator + Copy>(alloc: A, count: usize) -> Result<Known<A>, AllocError>
    ensures { IfOk result (λ k. IsStart count k.depths.items k.budgets.items k.tables.items) }
{
    Ok(Known {
        depths: vec![in alloc; 0; count]?,
        budgets: vec![in alloc; 0; count]?,
        tables: Vec::new(alloc),
    })
}

/// Appends the table of one more body.
fn note_table<A: Allocator>(
    tables: &mut Vec<Table<A>, A>,
    table: Table<A>,
) -> Result<(), AllocError>
    ensures { OnOk result (tables.new.items ≡ tables.old.items ++ table ∷ []) }
{
    match tables.push(table) {
        Ok(()) => Ok(()),
        Err(_) => Err(AllocError),
    }
}

/// Checks one more body, adds the findings about it, and returns its table. Fails with its first fault, or if an
/// allocation fails.
fn learn<A: Allocator + Copy>(
    alloc: A,
    code: &Code<A>,
    counts: &[Option<usize>],
    number: u16,
    known: &mut Known<A>,
) -> Result<Table<A>, Fault>
    requires counts { AreCounts code.now counts.now }
    requires inside { number ≤ length code.now.around.routines }
    requires known { IsKnown code.now (number + 1) known.old.depths.items known.old.budgets.items }
    ensures known { OnOk result (IsKnown code.now number known.new.depths.items known.new.budgets.items) }
    ensures table { IfOk result (λ t. IsTable (body_of code.now number) t) }
    ensures same { known.new.tables.items ≡ known.old.tables.items }
    ensures fault { IfErr result (λ fault. (fault ≡ Memory) ⊎ IsFirstFault code.now number fault) }
{
    let found = find_out(
        alloc,
        &Body::of(code, number),
        counts,
        known.depths.as_slice(),
        known.budgets.as_slice(),
    )?;
    known.depths[usize::from(number)] = found.depth;
    known.budgets[usize::from(number)] = found.budget;
    Ok(found.table)
}

/// Checks one more routine, and adds the findings about it with its table.
fn learn_routine<A: Allocator + Copy>(
    alloc: A,
    code: &Code<A>,
    counts: &[Option<usize>],
    number: u16,
    known: &mut Known<A>,
) -> Result<(), Fault>
    requires counts { AreCounts code.now counts.now }
    requires inside { number ≤ length code.now.around.routines }
    requires known { IsKnown code.now (number + 1) known.old.depths.items known.old.budgets.items }
    requires tables { AreTables code.now (number + 1) known.old.tables.items }
    ensures known { OnOk result (IsKnown code.now number known.new.depths.items known.new.budgets.items) }
    ensures tables { OnOk result (AreTables code.now number known.new.tables.items) }
    ensures fault { IfErr result (λ fault. (fault ≡ Memory) ⊎ IsFirstFault code.now number fault) }
{
    let table = learn(alloc, code, counts, number, known)?;
    note_table(&mut known.tables, table)?;
    Ok(())
}

/// Checks all routines, the last first, given the numbers of the constants' keys. Fails with the first fault and its
/// body, or if an allocation fails.
fn learn_routines<A: Allocator + Copy>(
    alloc: A,
    code: &Code<A>,
    counts: &[Option<usize>],
) -> Result<Known<A>, BodyFault>
    requires { AreCounts code.now counts.now }
    ensures known { IfOk result (λ k. IsKnown code.now 1 k.depths.items k.budgets.items) }
    ensures tables { IfOk result (λ k. AreTables code.now 1 k.tables.items) }
    ensures fault { IfErr result (λ told. (told.fault ≡ Memory) ⊎ IsFirstFault code.now told.body told.fault) }
{
    let count = code.routines().len();
    let mut known = start(alloc, count + 1)?;
    for number in (1..count + 1).rev() {
        if let Err(fault) = learn_routine(alloc, code, counts, number as u16, &mut known) {
            return Err(BodyFault {
                fault,
                body: number as u16,
            });
        }
    }
    Ok(known)
}

/// The findings about code.
#[derive(Drop)]
struct Findings<A: Allocator> {
    main: Table<A>,
    tables: Vec<Table<A>, A>,
    ops: Vec<Op, A>,
    budget: u32,
    depth: u16,
}

/// Checks all bodies and returns the findings about the code. Fails with the first fault and its body, or if an
/// allocation fails.
fn find_all<A: Allocator + Copy>(alloc: A, code: &Code<A>) -> Result<Findings<A>, BodyFault>
    ensures typed { IfOk result (λ f. IsVerified code.now f.main f.tables.items f.budget f.depth) }
    ensures ops { IfOk result (λ f. AreOps code.now.instructions f.ops.items) }
    ensures fault { IfErr result (λ told. (told.fault ≡ Memory) ⊎ IsFirstFault code.now told.body told.fault) }
{
    let counts = key_counts(alloc, code.constants())?;
    let mut known = learn_routines(alloc, code, counts.as_slice())?;
    let main = match learn(alloc, code, counts.as_slice(), 0, &mut known) {
        Ok(table) => table,
        Err(fault) => return Err(BodyFault { fault, body: 0 }),
    };
    let ops = prepared(alloc, code)?;
    Ok(Findings {
        main,
        budget: known.budgets[0],
        depth: known.depths[0],
        tables: known.tables,
        ops,
    })
}

/// Verifies code. Accepts it exactly if each body has a state for each instruction, such that each instruction finds
/// what it needs and leaves what the next one begins with, and no body's budget is above `budget::MAX_BUDGET`.
/// Otherwise fails with the first fault, or because an allocation failed, and hands the code back.
///
/// Bodies are checked from the last to the main one. In each body the order is: the frames, in ascending order of their
/// instructions, then that there is an instruction, then each instruction in turn, then the budget.
pub fn verify<A: Allocator + Copy>(
    alloc: A,
    code: Code<A>,
) -> Result<Verified<A>, Refused<Code<A>, BodyFault>>
    ensures ok { IfOk result (λ v. (v ≡ code) × IsTyped code) }
    ensures refused { IfErr result (λ r. (r.value ≡ code)
        × ((r.fault.fault ≡ Memory) ⊎ IsFirstFault code r.fault.body r.fault.fault)) }
{
    match find_all(alloc, &code) {
        Ok(found) => Ok(Verified::new(
            code,
            found.main,
            found.tables,
            found.ops,
            found.budget,
            found.depth,
        )),
        Err(fault) => Err(Refused { value: code, fault }),
    }
}
