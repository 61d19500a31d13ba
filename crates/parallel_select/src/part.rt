//! Walks through one part, each with its own fix.
ghost use Rattle.std.specs.Prelude.{ℕ, ◌≡◌, ◌<◌, List, IsTrue, IfOk, IfErr, ◌++◌};
ghost use Rattle.term_core.specs.Datum.{Datum};
ghost use Rattle.part_core.specs.Acts.Act.{Fix, Unfix};
ghost use Rattle.part_core.specs.Legal.{fix_count};
ghost use Rattle.tables.specs.Turns.{Views, Follows};
ghost use Rattle.walk_core.specs.Walk.Position.{Over};
ghost use Rattle.walks.specs.Own.{is_fixed_first};
ghost use Rattle.parallel_select.specs.Gained.{IsFor, purpose_of};
ghost use Rattle.parallel_select.specs.Parts.{part_walk, ChangesFix, FixesFirst, SelectsGaining, CeasesGaining};

use crate::gained::{Asking, Gained};
use crate::visits::visit_part;
use std::alloc::{AllocError, Allocator};
use tables::{Turns, fix_at, unfix_at};
use walks::Query;

/// Fixes a part of a set or bag that the session doesn't fix, and returns whether it did.
fn fix_first<A: Allocator, T: Turns<A>>(turns: &mut T, part: u8) -> bool
    requires ready { T.is_ready turns.old }
    requires part { part < (T.home turns.old).options.parts }
    ensures ready { T.is_ready turns.new }
    ensures same { T.home turns.new ≡ T.home turns.old }
    ensures done { Follows (T.sees turns.old) (T.sees turns.new) (FixesFirst (T.home turns.old) part result) }
{
    if turns.options().kind.is_ordered() {
        return false;
    }
    if turns.fixes(part) == 0 {
        fix_at(turns, part);
        return true;
    }
    false
}

/// Releases the fix of a part if it was fixed first.
fn release<A: Allocator, T: Turns<A>>(turns: &mut T, part: u8, own: bool)
    requires ready { T.is_ready turns.old }
    requires part { part < (T.home turns.old).options.parts }
    requires held { IsTrue own → ∥ ((v : Views) × T.sees turns.old v × (0 < fix_count (T.home turns.old).number (v part))) ∥₁ }
    ensures ready { T.is_ready turns.new }
    ensures same { T.home turns.new ≡ T.home turns.old }
    ensures done { Follows (T.sees turns.old) (T.sees turns.new) (ChangesFix (T.home turns.old) Unfix part own) }
{
    if own {
        unfix_at(turns, part);
    }
}

/// Walks through a part, and fixes the part meanwhile if it is one of a set or bag that the session doesn't fix. The
/// fix is released at the end, also if the walk fails. Fails if an allocation fails; a count in `gained` then includes
/// what was counted.
pub(crate) fn select_part<A: Allocator, T: Turns<A>>(
    turns: &mut T,
    query: &Query<A>,
    asking: Asking,
    part: u8,
    gained: &mut Gained<A>,
) -> Result<(), AllocError>
    requires ready { T.is_ready turns.old }
    requires part { part < (T.home turns.old).options.parts }
    requires purpose { IsFor asking gained.old }
    ensures ready { T.is_ready turns.new }
    ensures same { T.home turns.new ≡ T.home turns.old }
    ensures purpose { IsFor asking gained.new }
    ensures done { IfOk result (λ _. Follows (T.sees turns.old) (T.sees turns.new)
        (SelectsGaining (T.home turns.old) (part_walk (T.home turns.old) (purpose_of asking) query.now part) gained.old gained.new)) }
    ensures refused { IfErr result (λ _. Follows (T.sees turns.old) (T.sees turns.new)
        (CeasesGaining (T.home turns.old) (part_walk (T.home turns.old) (purpose_of asking) query.now part) gained.old gained.new)) }
{
    let own = fix_first(turns, part);
    let walked = visit_part(turns, query, asking, part, gained);
    release(turns, part, own);
    walked
}
