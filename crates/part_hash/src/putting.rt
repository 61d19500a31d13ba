//! Objects that are put in.
ghost use Rattle.std.specs.Prelude.{◌≡◌, ◌<◌, ℕ, List, Some, None, [], IfOk, IsErrOf, IsFalse, IsSome, IsTrue, OnOk, OnErr, false, if◌then◌else◌, is_some, length, unwrap_or};
ghost use Rattle.std.specs.Map.{lookup};
ghost use Rattle.std.specs.Option.{option_map_or};
ghost use Rattle.slab.specs.Slab.{get, with_value};
ghost use Rattle.term_core.specs.Datum.{Datum};
ghost use Rattle.term_core.specs.Datum.Datum.{nil};
ghost use Rattle.term_operand.specs.Order.{is_same};
ghost use Rattle.part_core.specs.declared.kind.TableKind.TheVariants.{Set};
ghost use Rattle.part_core.specs.After.{slots_after};
ghost use Rattle.part_core.specs.Rows.{Row as AnyRow, is_live, objects_with, rows_at_key, with_object};
ghost use Rattle.part_core.specs.Settings.{is_object, is_ordered, key_of};
ghost use Rattle.part_rows.specs.Puts.{is_put, put_at};
ghost use Rattle.part_hash.specs.Places.{Kept, row_in};
ghost use Rattle.part_hash.specs.Standing.{Stands};

use crate::adding::add;
use crate::mixing::mixed;
use crate::row::Row;
use crate::store::Store;
use part_core::{Settings, TableKind};
use part_engine::key_of;
use part_rows::{Put, PutFault};
use slab::Slab;
use std::alloc::{AllocError, Allocator};
use term_core::Term;

/// Whether there is a live row at a key of the slab.
fn is_live_at<A: Allocator>(rows: &Slab<Row<A>, A>, at: usize) -> bool
    ensures { result ≡ option_map_or is_live (row_in rows.now at) false }
{
    match rows.get(at) {
        Some(row) => row.is_live(),
        None => false,
    }
}

/// Puts an object into the row at a key of the slab, as the kind of table has it.
fn write_at<A: Allocator + Copy>(
    alloc: A,
    rows: &mut Slab<Row<A>, A>,
    at: usize,
    kind: TableKind,
    object: &mut Option<Term<A>>,
) -> Result<(), AllocError>
    requires { IsSome object.old }
    ensures done { OnOk result ((s : Kept) → get rows.old at ≡ Some s → rows.new
        ≡ with_value rows.old at ((s.0.0, objects_with kind s.0.1 (unwrap_or object.old nil)), s.1)) }
    ensures spent { OnOk result (object.new ≡ None) }
    ensures back { OnErr result (object.new ≡ object.old) }
    ensures refused { OnErr result ((s : Kept) → get rows.old at ≡ Some s
        → (rows.new ≡ with_value rows.old at s) × IsTrue (is_live s.0)) }
    ensures same { (i : ℕ) → is_some (get rows.new i) ≡ is_some (get rows.old i) }
{
    match rows.get_mut(at) {
        Some(row) => row.put(alloc, kind, object),
        None => {
            drop(object.take());
            Ok(())
        }
    }
}

/// Puts an object into the row at a key of the slab, unless that has one and it doesn't replace that.
fn put_into<A: Allocator + Copy>(
    store: &mut Store<A>,
    settings: Settings,
    at: usize,
    object: &mut Option<Term<A>>,
    replaces: bool,
) -> Result<Put, AllocError>
    requires { IsSome object.old }
    ensures done { IfOk result (λ put. (rows : List AnyRow) (key : Datum) (os : List Datum)
        → Stands settings store.old rows → row_in store.old.rows at ≡ Some (key, os)
        → (put ≡ put_at replaces (Some os))
        × Stands settings store.new (if is_put put
        then rows_at_key key (λ _. objects_with settings.kind os (unwrap_or object.old nil)) rows else rows)) }
    ensures spent { OnOk result (object.new ≡ None) }
    ensures back { OnErr result (object.new ≡ object.old) }
    ensures refused { OnErr result ((rows : List AnyRow) (key : Datum) (os : List Datum)
        → Stands settings store.old rows → row_in store.old.rows at ≡ Some (key, os)
        → Stands settings store.new (rows_at_key key (λ _. os) rows)) }
    ensures slots { store.new.slots.items ≡ store.old.slots.items }
{
    let live = is_live_at(&store.rows, at);
    if live && !replaces {
        drop(object.take());
        return Ok(Put::Kept);
    }
    let alloc = *store.slots.allocator();
    write_at(alloc, &mut store.rows, at, settings.kind, object)?;
    Ok(if live { Put::Done } else { Put::Revived })
}

/// Puts an object in, as the kind of table has it: in any case if it `replaces`, else if its key has none. Says what
/// became of the key's row; what is no object is refused.
pub(crate) fn put<A: Allocator + Copy>(
    store: &mut Store<A>,
    settings: Settings,
    object: &mut Option<Term<A>>,
    replaces: bool,
) -> Result<Put, PutFault>
    ensures object { IfOk result (λ _. IsTrue (is_object settings (unwrap_or object.old nil))) }
    ensures no_object { IsErrOf result PutFault.NoObject → IsFalse (is_object settings (unwrap_or object.old nil)) }
    ensures scarce { IsErrOf result PutFault.Memory → IsTrue (is_object settings (unwrap_or object.old nil)) }
    ensures done { IfOk result (λ put. (rows : List AnyRow) → IsFalse (is_ordered settings.kind)
        → Stands settings store.old rows
        → (put ≡ put_at replaces (lookup (is_same (key_of settings (unwrap_or object.old nil))) rows))
        × Stands settings store.new (if is_put put then with_object settings (unwrap_or object.old nil) rows else rows)
        × (length store.new.slots.items ≡ slots_after Set (length rows)
        (length (if is_put put then with_object settings (unwrap_or object.old nil) rows else rows))
        (length store.old.slots.items))) }
    ensures spent { OnOk result (object.new ≡ None) }
    ensures back { OnErr result (object.new ≡ object.old) }
    ensures refused { OnErr result ((rows : List AnyRow)
        → Stands settings store.old rows → Stands settings store.new rows) }
    ensures slots { OnErr result (length store.new.slots.items ≡ length store.old.slots.items) }
{
    let Some(key) = key_of(settings, object) else {
        return Err(PutFault::NoObject);
    };
    let mixed = mixed(store.seed, key);
    match store.find(mixed, key) {
        Some(at) => {
            let put = put_into(store, settings, at, object, replaces)?;
            Ok(put)
        }
        None => {
            let key = key.copy()?;
            add(store, settings, mixed, key, object)?;
            Ok(Put::Done)
        }
    }
}
