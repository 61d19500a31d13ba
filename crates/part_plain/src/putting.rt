//! Inserting objects.
ghost use Rattle.std.specs.Prelude.{vec_len, ◌≡◌, ◌<◌, None, if◌then◌else◌, length, unwrap_or, IsTrue, IsFalse, IfOk, IsErrOf, List, OnOk, OnErr};
ghost use Rattle.std.specs.List.{IsDistinct};
ghost use Rattle.std.specs.Map.{keys_of, lookup};
ghost use Rattle.term_core.specs.Datum.{Datum};
ghost use Rattle.term_core.specs.Datum.Datum.{nil};
ghost use Rattle.term_operand.specs.Order.{is_same};
ghost use Rattle.part_core.specs.Settings.{is_object, is_ordered, key_of};
ghost use Rattle.part_core.specs.Rows.{Row as AnyRow, with_object};
ghost use Rattle.part_rows.specs.Puts.{is_put, put_at};
ghost use Rattle.part_plain.specs.Places.{IsPlace};
ghost use Rattle.part_engine.specs.Sets.{with_key};

use crate::places::place_of;
use part_core::Settings;
use part_engine::{HashedRow, key_of};
use part_rows::{Put, PutFault};
use std::alloc::{AllocError, Allocator};
use term_core::Term;

/// Returns the position of a key's row. If it has none, appends a dead one. Fails, with nothing changed, if an
/// allocation fails.
fn place_for<A: Allocator + Copy>(
    rows: &mut Vec<HashedRow<A>, A>,
    key: &Term<A>,
) -> Result<usize, AllocError>
    ensures rows { OnOk result (rows.new.items ≡ with_key key.now rows.old.items) }
    ensures place { IfOk result (λ place. IsPlace key.now rows.new.items place) }
    ensures within { IfOk result (λ place. place < vec_len rows.new) }
    ensures refused { OnErr result (rows.new.items ≡ rows.old.items) }
{
    let hash = key.key_hash();
    match place_of(rows, key, hash) {
        Some(place) => Ok(place),
        None => {
            let place = rows.len();
            rows.push(HashedRow::new(key.copy()?, hash))?;
            Ok(place)
        }
    }
}

/// Returns the position of the row of an object's key. If the key has none, appends a dead one. Fails, with nothing
/// changed, if the term is no object or an allocation fails.
fn place_of_object<A: Allocator + Copy>(
    settings: Settings,
    rows: &mut Vec<HashedRow<A>, A>,
    object: &Option<Term<A>>,
) -> Result<usize, PutFault>
    ensures object { IfOk result (λ _. IsTrue (is_object settings (unwrap_or object.now nil))) }
    ensures no_object { IsErrOf result PutFault.NoObject → IsFalse (is_object settings (unwrap_or object.now nil)) }
    ensures scarce { IsErrOf result PutFault.Memory → IsTrue (is_object settings (unwrap_or object.now nil)) }
    ensures rows { OnOk result (rows.new.items
        ≡ with_key (key_of settings (unwrap_or object.now nil)) rows.old.items) }
    ensures place { IfOk result (λ place.
        IsPlace (key_of settings (unwrap_or object.now nil)) rows.new.items place) }
    ensures within { IfOk result (λ place. place < vec_len rows.new) }
    ensures refused { OnErr result (rows.new.items ≡ rows.old.items) }
{
    let Some(key) = key_of(settings, object) else {
        return Err(PutFault::NoObject);
    };
    let place = place_for(rows, key)?;
    Ok(place)
}

/// Returns what an insertion makes of the row of a key at its position, if there were `before` rows before one was
/// appended for it.
fn put_over<A: Allocator>(rows: &[HashedRow<A>], place: usize, before: usize, replaces: bool) -> Put
    requires { place < length rows.now }
    ensures { (key : Datum) (old : List AnyRow) → rows.now ≡ with_key key old → IsPlace key rows.now place
        → before ≡ length old → result ≡ put_at replaces (lookup (is_same key) old) }
{
    if before < rows.len() {
        return Put::Done;
    }
    if !rows[place].is_live() {
        return Put::Revived;
    }
    if replaces { Put::Done } else { Put::Kept }
}

/// Inserts an object as the kind of table requires: in any case if it `replaces`, else if its key has none. Returns
/// what became of its key's row; the object is taken in either case. Fails, with nothing changed, if the term is no
/// object or an allocation fails.
pub(crate) fn put<A: Allocator + Copy>(
    settings: Settings,
    rows: &mut Vec<HashedRow<A>, A>,
    object: &mut Option<Term<A>>,
    replaces: bool,
) -> Result<Put, PutFault>
    ensures object { IfOk result (λ _. IsTrue (is_object settings (unwrap_or object.old nil))) }
    ensures no_object { IsErrOf result PutFault.NoObject → IsFalse (is_object settings (unwrap_or object.old nil)) }
    ensures scarce { IsErrOf result PutFault.Memory → IsTrue (is_object settings (unwrap_or object.old nil)) }
    ensures put { IfOk result (λ put. put
        ≡ put_at replaces (lookup (is_same (key_of settings (unwrap_or object.old nil))) rows.old.items)) }
    ensures rows { IfOk result (λ put. IsFalse (is_ordered settings.kind) → IsDistinct is_same (keys_of rows.old.items)
        → rows.new.items ≡ (if is_put put then with_object settings (unwrap_or object.old nil) rows.old.items
        else rows.old.items)) }
    ensures spent { OnOk result (object.new ≡ None) }
    ensures back { OnErr result (object.new ≡ object.old) }
    ensures refused { OnErr result (rows.new.items ≡ rows.old.items) }
{
    let before = rows.as_slice().len();
    let place = place_of_object(settings, rows, object)?;
    let became = put_over(rows, place, before, replaces);
    if !became.is_done() {
        drop(object.take());
        return Ok(became);
    }
    let alloc = *rows.allocator();
    rows[place].put(alloc, settings.kind, object)?;
    Ok(became)
}
