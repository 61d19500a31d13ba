//! Writing to rows together with a count of the dead ones.
ghost use Rattle.std.specs.Prelude.{◌≡◌, ◌||◌, None, IsTrue, IsFalse, IfOk, IsErrOf, OnOk, OnErr, if◌then◌else◌, unwrap_or};
ghost use Rattle.term_core.specs.Datum.Datum.{nil};
ghost use Rattle.part_core.specs.Settings.{is_object, key_of};
ghost use Rattle.part_core.specs.Rows.{has_row, is_empty, objects_at};
ghost use Rattle.part_rows.specs.Dead.{Keeps, one_dead};
ghost use Rattle.part_rows.specs.Shown.{Shown, AreSound, shown_with, shown_exchanged};

use crate::put::PutFault;
use crate::rows::Rows;
use part_core::{Held, Settings};
use std::alloc::Allocator;
use term_core::Term;

/// Returns how many dead rows a row with these objects counts for: 1 if it has none, else 0.
fn dead_in<A: Allocator>(held: &Held<A>) -> usize
    ensures { result ≡ one_dead held.now }
{
    usize::from(held.is_empty())
}

/// Returns how many dead rows are added when a key's row takes these objects: none if a row without objects is removed,
/// i.e. unless `keeps`.
fn dead_coming<A: Allocator>(held: &Held<A>, keeps: bool) -> usize
    ensures { result ≡ (if keeps then one_dead held.now else 0) }
{
    if keeps { dead_in(held) } else { 0 }
}

/// Inserts an object, unless its key has one and `replaces` is `false`. Returns whether it was inserted. If its key had
/// a dead row, that row is live now, and no longer counted in `dead`. The object is taken out of the option if it is
/// inserted or its key has one. Fails, with nothing changed, if the term is no object or an allocation fails.
pub fn put_counted<R: Rows<A>, A: Allocator>(
    rows: &mut R,
    dead: &mut usize,
    settings: Settings,
    object: &mut Option<Term<A>>,
    replaces: bool,
) -> Result<bool, PutFault>
    ensures object { IfOk result (λ _. IsTrue (is_object settings (unwrap_or object.old nil))) }
    ensures no_object { IsErrOf result PutFault.NoObject → IsFalse (is_object settings (unwrap_or object.old nil)) }
    ensures scarce { IsErrOf result PutFault.Memory → IsTrue (is_object settings (unwrap_or object.old nil)) }
    ensures put { IfOk result (λ put. (w : Shown) → Keeps R.shows settings rows.old dead.old w → AreSound settings w
        → (put ≡ (replaces || is_empty (objects_at w.rows (key_of settings (unwrap_or object.old nil)))))
        × Keeps R.shows settings rows.new dead.new
        (if put then shown_with settings (unwrap_or object.old nil) w else w)) }
    ensures spent { OnOk result (object.new ≡ None) }
    ensures back { OnErr result (object.new ≡ object.old) }
    ensures refused { OnErr result ((w : Shown) → Keeps R.shows settings rows.old dead.old w
        → Keeps R.shows settings rows.new dead.new w) }
{
    let put = rows.put(settings, object, replaces)?;
    *dead = dead.saturating_sub(put.revived());
    Ok(put.is_done())
}

/// Exchanges the objects of a key with `held` if the key has a row, and returns whether it has. The row is removed if
/// no objects are left, unless `keeps`. The count of dead rows is updated.
pub fn exchange_counted<R: Rows<A>, A: Allocator>(
    rows: &mut R,
    dead: &mut usize,
    settings: Settings,
    key: &Term<A>,
    held: &mut Held<A>,
    keeps: bool,
) -> bool
    ensures { (w : Shown) → Keeps R.shows settings rows.old dead.old w → AreSound settings w
        → (result ≡ has_row w.rows key.now)
        × (held.new ≡ (if result then objects_at w.rows key.now else held.old))
        × Keeps R.shows settings rows.new dead.new (shown_exchanged key.now held.old keeps w) }
{
    let coming = dead_coming(held, keeps);
    if !rows.exchange(settings, key, held, keeps) {
        return false;
    }
    let going = dead_in(held);
    *dead = dead.saturating_add(coming).saturating_sub(going);
    true
}
