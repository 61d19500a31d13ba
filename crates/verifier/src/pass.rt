//! The pass from the first instruction to the last, which computes the one state in which each can begin.
ghost use Rattle.std.specs.Prelude.{◌≡◌, ◌<◌, ◌+◌, ◌⊎◌, ◌↔◌, ◌++◌, ◌≤◌, ◌∷◌, [], IsTrue, IfSome, IfOk, IfErr, OnOk, All, Some, length, max, reverse, slice_get};
ghost use Rattle.mcode.specs.Frame.{frame_of};
ghost use Rattle.mcode.specs.Program.{frame_at, most_arguments};
ghost use Rattle.verifier.specs.Faults.{HasNoBeginning, IsFirstUntyped};
ghost use Rattle.verifier_types.specs.Kept.{AreKept};
ghost use Rattle.verifier_types.specs.Needed.{AreCounts};
ghost use Rattle.verifier.specs.Pass.{fallen, IsWalked};
ghost use Rattle.verifier_types.specs.Shape.{IsAtOrBelow};
ghost use Rattle.verifier_types.specs.Fit.{IsFrameFit, most_places};
ghost use Rattle.verifier.specs.Typing.{Begins, entry_shape};
ghost use Rattle.verifier_types.specs.declared.fault.Fault.TheVariants.{Memory, Frame as FrameFault};

use mcode::{Body, Frame, Instr, Kind};
use std::alloc::{AllocError, Allocator};
use verifier_types::{Fault, Shape, check, inner_depth, leave};

/// What the pass knows before an instruction.
#[derive(Drop)]
pub(crate) struct Walk<A: Allocator> {
    /// The state that the instruction before this one left.
    shape: Shape<A>,
    /// Whether that state falls into this instruction.
    falls: bool,
    /// The depths of the states so far, by the number of the instruction.
    pub(crate) depths: Vec<u16, A>,
    /// The greatest depth of a state so far.
    pub(crate) own: u16,
    /// The largest number of places so far that are in use while an invoked routine runs.
    pub(crate) inner: u16,
}

/// Returns whether the state that falls into an instruction with a frame, if one does, is at or below the frame.
fn falls_below<A: Allocator>(falls: bool, shape: &Shape<A>, frame: &Frame<A>) -> bool
    requires { AreKept frame.now.depth frame.now.places }
    ensures { IsTrue result ↔ IfSome (fallen falls shape.now)
        (λ t. IsAtOrBelow t (frame_of frame.now)) }
{
    if !falls {
        return true;
    }
    shape.is_at_or_below(frame)
}

/// Turns the state that falls into an instruction, if one does, into the state in which the instruction begins. Fails
/// if there is no such state, or if an allocation fails.
fn begin<A: Allocator>(
    body: &Body<'_, A>,
    pc: u16,
    falls: bool,
    shape: &mut Shape<A>,
) -> Result<(), Fault>
    requires frames { All (IsFrameFit body.now) body.now.frames }
    requires slots { length shape.old.bound ≡ body.now.slots }
    ensures begins { OnOk result (Begins body.now (fallen falls shape.old)
        (frame_at body.now.frames pc) shape.new) }
    ensures fault { IfErr result (λ fault. (fault ≡ Memory)
        ⊎ ((fault ≡ FrameFault pc) × HasNoBeginning body.now (fallen falls shape.old)
        (frame_at body.now.frames pc))) }
{
    let Some(frame) = body.frame_at(pc) else {
        return if falls { Ok(()) } else { Err(Fault::Frame(pc)) };
    };
    if !falls_below(falls, shape, frame) {
        return Err(Fault::Frame(pc));
    }
    match shape.enter(frame) {
        Ok(()) => Ok(()),
        Err(AllocError) => Err(Fault::Memory),
    }
}

/// Pushes these kinds, the lowest first, onto an empty stack.
fn push_all<A: Allocator>(shape: &mut Shape<A>, kinds: &[Kind]) -> Result<(), AllocError>
    requires few { length kinds.now ≤ most_arguments }
    requires empty { shape.old.kinds ≡ [] }
    ensures { OnOk result (shape.new ≡ record
        { kinds = reverse kinds.now; bound = shape.old.bound }) }
{
    for place in 0..kinds.len() {
        shape.push(kinds[place])?;
    }
    Ok(())
}

/// Returns the state in which a body begins.
fn entry<A: Allocator + Copy>(alloc: A, body: &Body<'_, A>) -> Result<Shape<A>, AllocError>
    ensures { IfOk result (λ s. s ≡ entry_shape body.now) }
{
    let mut shape = Shape::start(alloc, body.slots())?;
    if let Some(routine) = body.own_routine() {
        push_all(&mut shape, routine.arguments())?;
    }
    Ok(shape)
}

impl<A: Allocator + Copy> Walk<A> {
    ghost use Rattle.std.specs.Prelude.{IfOk, List, ℕ};
    ghost use Rattle.verifier.specs.Pass.{IsWalked};

    /// Makes what the pass knows before the first instruction of a body.
    pub(crate) fn start(alloc: A, body: &Body<'_, A>) -> Result<Self, AllocError>
        ensures { IfOk result (λ w. (ds : List ℕ)
            → IsWalked body.now ds 0 w.falls w.shape w.depths.items w.own w.inner) }
    {
        let shape = entry(alloc, body)?;
        let depths = Vec::with_capacity(alloc, body.instructions().len())?;
        Ok(Walk {
            shape,
            falls: true,
            depths,
            own: 0,
            inner: 0,
        })
    }
}

/// Returns the greatest of three depths.
fn greatest(depth: u16, before: u16, after: u16) -> u16
    ensures { result ≡ max (max depth before) after }
{
    depth.max(before).max(after)
}

/// Returns the greater of two depths.
fn deeper(depth: u16, inner: usize) -> u16
    requires { inner ≤ most_places }
    ensures { result ≡ max depth inner }
{
    depth.max(inner as u16)
}

/// Returns the instruction at `pc`.
fn instr_at<A: Allocator>(body: &Body<'_, A>, pc: u16) -> Instr
    requires { pc < length body.now.instructions }
    ensures { slice_get body.now.instructions pc ≡ Some result }
{
    body.instructions()[usize::from(pc)]
}

/// Appends the depth of one more state.
fn note<A: Allocator>(depths: &mut Vec<u16, A>, depth: u16) -> Result<(), AllocError>
    ensures { OnOk result (depths.new.items ≡ depths.old.items ++ depth ∷ []) }
{
    depths.push(depth)?;
    Ok(())
}

/// Updates what the pass knows by one more instruction, given the depths of all bodies with higher numbers (`behind`).
/// Fails with the instruction's fault, or if an allocation fails.
pub(crate) fn step<A: Allocator>(
    body: &Body<'_, A>,
    counts: &[Option<usize>],
    behind: &[u16],
    pc: u16,
    walk: &mut Walk<A>,
) -> Result<(), Fault>
    requires counts { AreCounts body.now counts.now }
    requires frames { All (IsFrameFit body.now) body.now.frames }
    requires inside { pc < length body.now.instructions }
    requires walked { IsWalked body.now behind.now pc walk.old.falls walk.old.shape
        walk.old.depths.items walk.old.own walk.old.inner }
    ensures typed { OnOk result (IsWalked body.now behind.now (pc + 1) walk.new.falls walk.new.shape
        walk.new.depths.items walk.new.own walk.new.inner) }
    ensures fault { IfErr result (λ fault. (fault ≡ Memory) ⊎ IsFirstUntyped body.now behind.now fault) }
{
    begin(body, pc, walk.falls, &mut walk.shape)?;
    let instr = instr_at(body, pc);
    let needed = check(body, counts, behind, pc, instr, &walk.shape)?;
    walk.inner = deeper(walk.inner, inner_depth(body, behind, instr, &walk.shape));
    let before = walk.shape.depth();
    note(&mut walk.depths, before)?;
    leave(body, pc, instr, &mut walk.shape, needed)?;
    walk.own = greatest(walk.own, before, walk.shape.depth());
    walk.falls = instr.goes_on();
    Ok(())
}
