//! Removing dead rows once no session fixes the part.
ghost use Rattle.std.specs.Prelude.{◌≡◌, ◌<◌, if◌then◌else◌};
ghost use Rattle.part_core.specs.declared.settings.Settings.{Settings as AnySettings};
ghost use Rattle.part_core.specs.Rows.{is_fixed};
ghost use Rattle.part_rows.specs.Dead.{Keeps, shown_settled};
ghost use Rattle.part_rows.specs.Shown.{Shown, shown_live};

use crate::rows::Rows;
use part_core::is_fixed;
use std::alloc::Allocator;

/// Removes dead rows, and sets their count to 0. Searches for them only if the count is not 0.
fn keep_live<R: Rows<A>, A: Allocator>(rows: &mut R, dead: &mut usize)
    ensures { (o : AnySettings) (w : Shown) → Keeps R.shows o rows.old dead.old w
        → Keeps R.shows o rows.new dead.new (shown_live w) }
{
    if *dead == 0 {
        return;
    }
    rows.keep_live();
    *dead = 0;
}

/// Removes the dead rows, whose number is `dead`, unless some session fixes the part. Returns the base of walks that
/// begin from now on: the number of slots, or `base` while the part is fixed.
pub fn settle<R: Rows<A>, A: Allocator>(
    rows: &mut R,
    dead: &mut usize,
    fixes: &[u16],
    base: u32,
) -> u32
    ensures settled { (o : AnySettings) (w : Shown) → Keeps R.shows o rows.old dead.old w
        → Keeps R.shows o rows.new dead.new (shown_settled fixes.now w)
        × (result ≡ (if is_fixed fixes.now then base else w.slots)) }
    ensures some { 0 < base → 0 < result }
{
    if is_fixed(fixes) {
        return base;
    }
    keep_live(rows, dead);
    rows.slots()
}
