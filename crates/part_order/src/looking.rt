//! What a visit looks at, and walk order.
ghost use Rattle.std.specs.Prelude.{ℕ, ◌≡◌, ◌++◌, IfOk, IsTrue, filter, flat_map, take};
ghost use Rattle.std.specs.List.{IsDistinct};
ghost use Rattle.std.specs.Map.{keys_of};
ghost use Rattle.std.specs.Option.{option_copied};
ghost use Rattle.term_operand.specs.Order.{is_same};
ghost use Rattle.part_core.specs.declared.kind.TableKind.TheVariants.{OrderedSet};
ghost use Rattle.part_core.specs.declared.settings.Settings.{Settings};
ghost use Rattle.part_core.specs.Ops.{scope_of};
ghost use Rattle.part_core.specs.Replies.{first_live};
ghost use Rattle.part_core.specs.Visits.{most_rows, following_rows};
ghost use Rattle.part_rows.specs.Looks.{is_placed, looked_at};

use crate::tree::Tree;
use part_core::{Cursor, Held, Scope};
use part_rows::SeenRow;
use std::alloc::{AllocError, Allocator};
use std::collections::btree_map::Range;
use std::ops::Bound;
use term_core::Term;

/// The greatest number of rows that a visit looks at.
const MOST_ROWS: usize = 64;

/// Returns the rows after a key, in ascending key order.
fn following_rows<'r, A: Allocator>(tree: &'r Tree<A>, key: &Term<A>) -> Range<'r, Term<A>, Held<A>>
    ensures { result ≡ following_rows key.now tree.now.entries }
{
    tree.range((Bound::Excluded(key), Bound::Unbounded))
}

/// Appends the first rows of `ahead` to `into`, at most 64. Fails if an allocation fails.
fn look_ahead<'r, A: Allocator>(
    ahead: Range<'r, Term<A>, Held<A>>,
    into: &mut Vec<SeenRow<'r, A>, A>,
) -> Result<(), AllocError>
    ensures { IfOk result (λ _. into.new.items ≡ into.old.items ++ take most_rows ahead.entry) }
{
    into.reserve(MOST_ROWS)?;
    for (key, held) in ahead.take(MOST_ROWS) {
        into.push_reserved(SeenRow::new(key, held));
    }
    Ok(())
}

/// Appends the row of a key to `into`, if it has one. Fails if an allocation fails.
fn look_at<'r, A: Allocator>(
    tree: &'r Tree<A>,
    key: &Term<A>,
    into: &mut Vec<SeenRow<'r, A>, A>,
) -> Result<(), AllocError>
    ensures { IfOk result (λ _. IsDistinct is_same (keys_of tree.now.entries)
        → into.new.items ≡ into.old.items ++ filter (λ r. is_same key.now r.0) tree.now.entries) }
{
    if let Some((key, held)) = tree.get_key_value(key) {
        into.push(SeenRow::new(key, held))?;
    }
    Ok(())
}

/// Appends the rows that a visit may look at to `into`. A cursor at a class has none. Fails if an allocation fails.
pub(crate) fn look<'r, A: Allocator>(
    tree: &'r Tree<A>,
    scope: &Scope<'_, A>,
    into: &mut Vec<SeenRow<'r, A>, A>,
) -> Result<(), AllocError>
    ensures { IfOk result (λ _. (o : Settings) (base : ℕ) → o.kind ≡ OrderedSet
        → IsTrue (is_placed o (scope_of scope.now)) → IsDistinct is_same (keys_of tree.now.entries)
        → into.new.items ≡ into.old.items ++ looked_at o base (scope_of scope.now) tree.now.entries) }
{
    match scope {
        Scope::Begin => look_ahead(tree.range(..), into),
        Scope::After(cursor) => match cursor {
            Cursor::Class { .. } => Ok(()),
            Cursor::Behind(key) => look_ahead(following_rows(tree, key), into),
        },
        Scope::Named(key) => look_at(tree, key, into),
    }
}

/// Returns the first key that has an object, or `None`.
pub(crate) fn first_key<A: Allocator>(tree: &Tree<A>) -> Option<&Term<A>>
    ensures { option_copied result ≡ first_live tree.now.entries }
{
    for (key, held) in tree {
        if !held.is_empty() {
            return Some(key);
        }
    }
    None
}

/// Returns the first key after another that has an object, or `None`.
pub(crate) fn following_key<'r, A: Allocator>(
    tree: &'r Tree<A>,
    key: &Term<A>,
) -> Option<&'r Term<A>>
    ensures { option_copied result ≡ first_live (following_rows key.now tree.now.entries) }
{
    for (next, held) in following_rows(tree, key) {
        if !held.is_empty() {
            return Some(next);
        }
    }
    None
}

/// Appends copies of all objects to `into`, in ascending key order. Fails if an allocation fails.
pub(crate) fn gather<A: Allocator + Copy>(
    tree: &Tree<A>,
    into: &mut Vec<Term<A>, A>,
) -> Result<(), AllocError>
    ensures { IfOk result (λ _. into.new.items ≡ into.old.items ++ flat_map (λ r. r.1) tree.now.entries) }
{
    for (_key, held) in tree {
        held.copy_into(into)?;
    }
    Ok(())
}
