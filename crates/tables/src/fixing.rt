//! Methods for each part: counts of fixes.
ghost use Rattle.std.specs.Prelude.{MatchBool, ℕ, ◌≡◌, ◌<◌, ◌≤◌, Some, IsTrue, IsFalse, IfSome, IfOk, IfErr};
ghost use Rattle.part_core.specs.Acts.Act.{Fix, Unfix, Release};
ghost use Rattle.part_core.specs.Acts.Answer.{Replied};
ghost use Rattle.part_core.specs.Acts.Said.{Nothing};
ghost use Rattle.part_core.specs.Legal.{fix_count};
ghost use Rattle.tables.specs.Turns.{Views, Turned, TurnedEach, Follows};
ghost use Rattle.tables.specs.Calls.{is_granted, IsGranted, IsNotGranted, RefusedEach};
ghost use Rattle.tables.specs.Fixing.{act_of_change, reached, IsGrantedFrom, TurnedFrom};

use crate::replies::done;
use crate::turns::{TryTurns, Turns, turn_at};
use part_core::{Fault, PartOp};
use std::alloc::Allocator;

/// A change of a session's counts of fixes.
#[derive(Clone, Copy)]
pub enum Change {
    /// One more fix.
    Fix,
    /// One fix less.
    Unfix,
    /// No fix is left.
    Release,
}

impl Change {
    ghost use Rattle.std.specs.Prelude.{◌≡◌};
    ghost use Rattle.part_core.specs.Ops.{act_of};
    ghost use Rattle.tables.specs.Calls.{is_granted};
    ghost use Rattle.tables.specs.Fixing.{act_of_change};

    /// Returns whether the change can be made to a count: `Fix` below 65,535, `Unfix` above 0, `Release` always.
    pub fn is_granted(self, count: u16) -> bool
        ensures { result ≡ is_granted (act_of_change self) count }
    {
        match self {
            Change::Fix => count < u16::MAX,
            Change::Unfix => 0 < count,
            Change::Release => true,
        }
    }

    /// Returns the change as an operation at a part.
    fn op<'a, A: Allocator>(self) -> PartOp<'a, A>
        ensures { act_of result ≡ act_of_change self }
    {
        match self {
            Change::Fix => PartOp::Fix,
            Change::Unfix => PartOp::Unfix,
            Change::Release => PartOp::Release,
        }
    }
}

/// Returns whether the change can be made at each part.
fn is_granted<A: Allocator, T: TryTurns<A>>(turns: &T, change: Change) -> bool
    requires { T.is_ready turns.now }
    ensures { (v : Views) → T.sees turns.now v → MatchBool result
        (IsGranted (T.home turns.now) (act_of_change change) v)
        (IsNotGranted (T.home turns.now) (act_of_change change) v) }
{
    for part in 0..turns.options().parts {
        if !change.is_granted(turns.fixes(part)) {
            return false;
        }
    }
    true
}

/// Makes a change of fixes at the parts from one on, up to one whose turn is put off. Returns the number of that part,
/// where the change goes on, or `None` if the change was made at all of them. The session's count at each must allow it.
///
/// `fix` is this change from 0 on, if no turn is put off. Between two calls the session must do nothing else that makes
/// turns at several parts.
pub fn change_from<A: Allocator, T: TryTurns<A>>(
    turns: &mut T,
    change: Change,
    from: u8,
) -> Option<u8>
    requires ready { T.is_ready turns.old }
    requires within { from ≤ (T.home turns.old).options.parts }
    requires granted { (v : Views) → T.sees turns.old v → IsGrantedFrom (T.home turns.old) from change v }
    ensures ready { T.is_ready turns.new }
    ensures same { T.home turns.new ≡ T.home turns.old }
    ensures turned { Follows (T.sees turns.old) (T.sees turns.new) (TurnedFrom (T.home turns.old) from
        (reached (T.home turns.old).options result) (act_of_change change) (Some (Replied Nothing))) }
    ensures put_off { IfSome result (λ part. (from ≤ part) × (part < (T.home turns.old).options.parts)
        × IsFalse (T.is_made turns.new)) }
{
    for part in from..turns.options().parts {
        match turn_at(turns, part, change.op()) {
            Ok(reply) => drop(reply),
            Err(_) => return Some(part),
        }
    }
    None
}

/// Makes the change at each part. The session's count at each must allow it.
fn change_each<A: Allocator, T: Turns<A>>(turns: &mut T, change: Change)
    requires ready { T.is_ready turns.old }
    requires granted { (v : Views) → T.sees turns.old v → IsGranted (T.home turns.old) (act_of_change change) v }
    ensures ready { T.is_ready turns.new }
    ensures same { T.home turns.new ≡ T.home turns.old }
    ensures done { Follows (T.sees turns.old) (T.sees turns.new)
        (TurnedEach (T.home turns.old) (act_of_change change) (Some (Replied Nothing))) }
{
    let _end = change_from(turns, change, 0);
}

/// Fixes the table once more (ets:safe_fixtable/2), at each part. If the session's count at some part is 65,535, fails
/// with `FixLimit`, and fixes none.
pub fn fix<A: Allocator, T: Turns<A>>(turns: &mut T) -> Result<(), Fault>
    requires { T.is_ready turns.old }
    ensures ready { T.is_ready turns.new }
    ensures same { T.home turns.new ≡ T.home turns.old }
    ensures done { IfOk result (λ _. Follows (T.sees turns.old) (T.sees turns.new)
        (TurnedEach (T.home turns.old) Fix (Some (Replied Nothing)))) }
    ensures refused { IfErr result (λ fault. (fault ≡ Fault.FixLimit) × Follows (T.sees turns.old) (T.sees turns.new)
        (RefusedEach (T.home turns.old) Fix)) }
{
    if !is_granted(turns, Change::Fix) {
        return Err(Fault::FixLimit);
    }
    change_each(turns, Change::Fix);
    Ok(())
}

/// Releases one fix of the session (ets:safe_fixtable/2), at each part. If its count at some part is 0, fails with
/// `NotFixed`, and releases none.
pub fn unfix<A: Allocator, T: Turns<A>>(turns: &mut T) -> Result<(), Fault>
    requires { T.is_ready turns.old }
    ensures ready { T.is_ready turns.new }
    ensures same { T.home turns.new ≡ T.home turns.old }
    ensures done { IfOk result (λ _. Follows (T.sees turns.old) (T.sees turns.new)
        (TurnedEach (T.home turns.old) Unfix (Some (Replied Nothing)))) }
    ensures refused { IfErr result (λ fault. (fault ≡ Fault.NotFixed) × Follows (T.sees turns.old) (T.sees turns.new)
        (RefusedEach (T.home turns.old) Unfix)) }
{
    if !is_granted(turns, Change::Unfix) {
        return Err(Fault::NotFixed);
    }
    change_each(turns, Change::Unfix);
    Ok(())
}

/// Releases all fixes of the session, at each part.
pub fn release<A: Allocator, T: Turns<A>>(turns: &mut T)
    requires { T.is_ready turns.old }
    ensures ready { T.is_ready turns.new }
    ensures same { T.home turns.new ≡ T.home turns.old }
    ensures done { Follows (T.sees turns.old) (T.sees turns.new)
        (TurnedEach (T.home turns.old) Release (Some (Replied Nothing))) }
{
    change_each(turns, Change::Release);
}

/// Makes a change at one part. The session's count there must allow it.
fn change_at<A: Allocator, T: Turns<A>>(turns: &mut T, part: u8, change: Change)
    requires ready { T.is_ready turns.old }
    requires part { part < (T.home turns.old).options.parts }
    requires granted { ∥ ((v : Views) × T.sees turns.old v
        × IsTrue (is_granted (act_of_change change) (fix_count (T.home turns.old).number (v part)))) ∥₁ }
    ensures ready { T.is_ready turns.new }
    ensures same { T.home turns.new ≡ T.home turns.old }
    ensures done { Follows (T.sees turns.old) (T.sees turns.new)
        (Turned (T.home turns.old) part (act_of_change change) (Some (Replied Nothing))) }
{
    let outcome = turn_at(turns, part, change.op());
    drop(done(outcome));
}

/// Fixes one part once more. The session's count there must be below 65,535.
pub fn fix_at<A: Allocator, T: Turns<A>>(turns: &mut T, part: u8)
    requires ready { T.is_ready turns.old }
    requires part { part < (T.home turns.old).options.parts }
    requires granted { ∥ ((v : Views) × T.sees turns.old v
        × IsTrue (is_granted Fix (fix_count (T.home turns.old).number (v part)))) ∥₁ }
    ensures ready { T.is_ready turns.new }
    ensures same { T.home turns.new ≡ T.home turns.old }
    ensures done { Follows (T.sees turns.old) (T.sees turns.new)
        (Turned (T.home turns.old) part Fix (Some (Replied Nothing))) }
{
    change_at(turns, part, Change::Fix);
}

/// Releases one fix of one part. The session must have one there.
pub fn unfix_at<A: Allocator, T: Turns<A>>(turns: &mut T, part: u8)
    requires ready { T.is_ready turns.old }
    requires part { part < (T.home turns.old).options.parts }
    requires granted { ∥ ((v : Views) × T.sees turns.old v
        × IsTrue (is_granted Unfix (fix_count (T.home turns.old).number (v part)))) ∥₁ }
    ensures ready { T.is_ready turns.new }
    ensures same { T.home turns.new ≡ T.home turns.old }
    ensures done { Follows (T.sees turns.old) (T.sees turns.new)
        (Turned (T.home turns.old) part Unfix (Some (Replied Nothing))) }
{
    change_at(turns, part, Change::Unfix);
}
