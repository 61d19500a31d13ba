//! Rows that are written, or taken out.
ghost use Rattle.std.specs.Prelude.{ℕ, ◌≡◌, ◌<◌, ◌+◌, ◌/◌, ◌%◌, ◌^◌, ◌==◌, List, Some, None, [], IfSome, IfNone, true, false, not, filter, get_or, if◌then◌else◌, is_some, length};
ghost use Rattle.slab.specs.Slab.{Updates, get, with_value};
ghost use Rattle.term_core.specs.Datum.{Datum};
ghost use Rattle.term_core.specs.KeyHash.{key_hash};
ghost use Rattle.term_operand.specs.Order.{is_same};
ghost use Rattle.hash_index.specs.Index.{Has};
ghost use Rattle.part_core.specs.declared.settings.Settings.{Settings as AnySettings};
ghost use Rattle.part_core.specs.Rows.{Row as AnyRow, has_row, is_live, objects_at, rows_at_key};
ghost use Rattle.part_rows.specs.Shown.{rows_exchanged};
ghost use Rattle.part_hash.specs.Mixed.{mixed as mixed_of};
ghost use Rattle.part_hash.specs.Places.{Kept, Standing, spread as spread_of_settings};
ghost use Rattle.part_hash.specs.Slots.{AreListed, AreListedWithGone};
ghost use Rattle.part_hash.specs.Standing.{Stands, is_noted};
ghost use Rattle.part_hash.specs.Swept.{AreFewerDead, is_dead_at};

use crate::mixing::mixed;
use crate::places::{Slot, slot_of, spread_of};
use crate::row::Row;
use crate::store::Store;
use part_core::{Held, Settings};
use slab::Slab;
use std::alloc::Allocator;
use term_core::Term;

/// Counts a row as gone in the slot of its key's hash; `made` rows were created before it.
fn unlist<A: Allocator>(
    slots: &mut Vec<Slot<A>, A>,
    rows: &Slab<Row<A>, A>,
    spread: u64,
    hash: u64,
    made: u64,
)
    requires spread { 0 < spread }
    requires slots { 0 < length slots.old.items }
    ensures count { length slots.new.items ≡ length slots.old.items }
    ensures listed { (o : AnySettings) (total : ℕ) (list : List Standing)
        → AreListedWithGone o rows.now total slots.old.items ((hash / spread) % length slots.old.items) list
        → AreListed o rows.now total slots.new.items list }
{
    let number = slot_of(spread, hash, slots.len() as u64) as usize;
    slots[number].lose(rows, made);
}

/// Takes the row at a key of the slab out, whose key's mixed hash is known.
fn remove<A: Allocator>(store: &mut Store<A>, spread: u64, mixed: u32, at: usize) -> Row<A>
    requires spread { 0 < spread }
    requires known { Has store.old.index mixed at }
    ensures row { get store.old.rows at ≡ Some result }
    ensures done { (o : AnySettings) (rows : List AnyRow) → spread ≡ spread_of_settings o
        → Stands o store.old rows
        → Stands o store.new (filter (λ r. not (is_same result.0.0 r.0)) rows) }
    ensures others { Updates store.old.rows store.new.rows at None }
    ensures slots { length store.new.slots.items ≡ length store.old.slots.items }
    ensures dying { store.new.dying.items ≡ store.old.dying.items }
    ensures lost { store.new.lost ≡ store.old.lost }
{
    let row = store.rows.remove(at);
    store.index.take(mixed, at);
    let hash = row.key().key_hash();
    unlist(&mut store.slots, &store.rows, spread, hash, row.made());
    row
}

/// Notes at which key of the slab a row dies.
fn note<A: Allocator>(store: &mut Store<A>, at: usize)
    requires { at < 2 ^ 32 }
    ensures kept { (o : AnySettings) (rows : List AnyRow) → Stands o store.old rows → Stands o store.new rows }
    ensures noted { is_noted store.new.lost store.new.dying.items at ≡ true }
    ensures rows { store.new.rows ≡ store.old.rows }
    ensures index { store.new.index ≡ store.old.index }
    ensures slots { store.new.slots.items ≡ store.old.slots.items }
{
    if store.dying.len() < store.dying.capacity() {
        store.dying.push_reserved(at as u32);
    } else {
        store.lost = true;
    }
}

/// What the row at a key of the slab holds and `held` change places.
fn exchange_at<A: Allocator>(rows: &mut Slab<Row<A>, A>, at: usize, held: &mut Held<A>)
    ensures done { (s : Kept) → get rows.old at ≡ Some s
        → (held.new ≡ s.0.1) × (rows.new ≡ with_value rows.old at ((s.0.0, held.old), s.1)) }
    ensures same { (i : ℕ) → is_some (get rows.new i) ≡ is_some (get rows.old i) }
{
    if let Some(row) = rows.get_mut(at) {
        row.exchange(held);
    }
}

/// What the row at a key of the slab holds goes into `held`, which holds nothing. The row stays, noted as dead, if it
/// is kept, and else it goes.
fn empty_at<A: Allocator>(
    store: &mut Store<A>,
    spread: u64,
    mixed: u32,
    at: usize,
    held: &mut Held<A>,
    keeps: bool,
)
    requires spread { 0 < spread }
    requires known { Has store.old.index mixed at }
    ensures done { (o : AnySettings) (rows : List AnyRow) (s : Kept) → spread ≡ spread_of_settings o
        → Stands o store.old rows → get store.old.rows at ≡ Some s
        → (held.new ≡ s.0.1) × Stands o store.new (if keeps then rows_at_key s.0.0 (λ _. held.old) rows
        else filter (λ r. not (is_same s.0.0 r.0)) rows) }
    ensures slots { length store.new.slots.items ≡ length store.old.slots.items }
{
    if keeps {
        note(store, at);
        exchange_at(&mut store.rows, at, held);
        return;
    }
    let mut row = remove(store, spread, mixed, at);
    row.exchange(held);
}

/// What is held of a key and `held` change places, where the key has a row; that goes, unless `keeps`, if it is dead
/// then.
pub(crate) fn exchange<A: Allocator>(
    store: &mut Store<A>,
    settings: Settings,
    key: &Term<A>,
    held: &mut Held<A>,
    keeps: bool,
) -> bool
    ensures done { (rows : List AnyRow) → Stands settings store.old rows
        → (result ≡ has_row rows key.now)
        × (held.new ≡ (if result then objects_at rows key.now else held.old))
        × Stands settings store.new (rows_exchanged key.now held.old keeps rows) }
    ensures slots { length store.new.slots.items ≡ length store.old.slots.items }
{
    let mixed = mixed(store.seed, key);
    let Some(at) = store.find(mixed, key) else {
        return false;
    };
    if held.is_empty() {
        empty_at(store, spread_of(settings), mixed, at, held, keeps);
        return true;
    }
    exchange_at(&mut store.rows, at, held);
    true
}

/// The mixed hash, by a seed, of the key of the row at a key of the slab, if it is dead.
fn dead_at<A: Allocator>(rows: &Slab<Row<A>, A>, seed: u64, at: usize) -> Option<u32>
    ensures dead { IfSome result (λ m. (s : Kept) × (get rows.now at ≡ Some s) × (is_live s.0 ≡ false)
        × (m ≡ mixed_of seed s.0.0)) }
    ensures live { IfNone result (is_dead_at rows.now at ≡ false) }
{
    match rows.get(at) {
        Some(row) => {
            if row.is_live() {
                None
            } else {
                Some(mixed(seed, row.key()))
            }
        }
        None => None,
    }
}

/// Lets the row at a key of the slab go if it is dead.
fn sweep<A: Allocator>(store: &mut Store<A>, spread: u64, at: usize)
    requires { 0 < spread }
    ensures done { (o : AnySettings) (rows : List AnyRow) → spread ≡ spread_of_settings o
        → Stands o store.old rows
        → (left : List AnyRow) × Stands o store.new left × (filter is_live left ≡ filter is_live rows)
        × (is_dead_at store.new.rows at ≡ false) × AreFewerDead store.old.rows store.new.rows }
    ensures dying { store.new.dying.items ≡ store.old.dying.items }
    ensures lost { store.new.lost ≡ store.old.lost }
    ensures slots { length store.new.slots.items ≡ length store.old.slots.items }
{
    let Some(mixed) = dead_at(&store.rows, store.seed, at) else {
        return;
    };
    if let Some(found) = store.index.find(mixed, |row| row == at) {
        drop(remove(store, spread, mixed, found));
    }
}

/// Lets all dead rows go, which are looked for among all.
fn sweep_all<A: Allocator>(store: &mut Store<A>, spread: u64)
    requires { 0 < spread }
    ensures done { (o : AnySettings) (rows : List AnyRow) → spread ≡ spread_of_settings o
        → Stands o store.old rows
        → (left : List AnyRow) × Stands o store.new left × (filter is_live left ≡ filter is_live rows)
        × ((i : ℕ) → is_dead_at store.new.rows i ≡ false) }
    ensures slots { length store.new.slots.items ≡ length store.old.slots.items }
{
    for at in 0..store.rows.capacity() {
        sweep(store, spread, at);
    }
}

/// The key of the slab that was noted in a place.
fn noted_at(dying: &[u32], number: usize) -> usize
    requires { number < length dying.now }
    ensures { result ≡ get_or dying.now number 0 }
{
    dying[number] as usize
}

/// Lets the dead rows go that were noted.
fn sweep_noted<A: Allocator>(store: &mut Store<A>, spread: u64)
    requires { 0 < spread }
    ensures done { (o : AnySettings) (rows : List AnyRow) → spread ≡ spread_of_settings o
        → store.old.lost ≡ false
        → Stands o store.old rows
        → (left : List AnyRow) × Stands o store.new left × (filter is_live left ≡ filter is_live rows)
        × ((i : ℕ) → is_dead_at store.new.rows i ≡ false) }
    ensures slots { length store.new.slots.items ≡ length store.old.slots.items }
{
    for number in 0..store.dying.len() {
        let at = noted_at(store.dying.as_slice(), number);
        sweep(store, spread, at);
    }
}

/// Lets all dead rows go: those that were noted, if all were.
fn sweep_dead<A: Allocator>(store: &mut Store<A>, spread: u64)
    requires { 0 < spread }
    ensures done { (o : AnySettings) (rows : List AnyRow) → spread ≡ spread_of_settings o
        → Stands o store.old rows
        → (left : List AnyRow) × Stands o store.new left × (filter is_live left ≡ filter is_live rows)
        × ((i : ℕ) → is_dead_at store.new.rows i ≡ false) }
    ensures slots { length store.new.slots.items ≡ length store.old.slots.items }
{
    if store.lost {
        sweep_all(store, spread);
    } else {
        sweep_noted(store, spread);
    }
}

/// Forgets the keys of the slab that were noted, where no row is dead.
fn forget<A: Allocator>(store: &mut Store<A>)
    ensures kept { (o : AnySettings) (rows : List AnyRow) → ((i : ℕ) → is_dead_at store.old.rows i ≡ false)
        → Stands o store.old rows → Stands o store.new rows }
    ensures rows { store.new.rows ≡ store.old.rows }
    ensures slots { store.new.slots.items ≡ store.old.slots.items }
{
    store.dying.clear();
    store.lost = false;
}

/// Lets all dead rows go.
pub(crate) fn keep_live<A: Allocator>(store: &mut Store<A>, spread: u64)
    requires { 0 < spread }
    ensures done { (o : AnySettings) (rows : List AnyRow) → spread ≡ spread_of_settings o
        → Stands o store.old rows → Stands o store.new (filter is_live rows) }
    ensures slots { length store.new.slots.items ≡ length store.old.slots.items }
{
    sweep_dead(store, spread);
    forget(store);
}
