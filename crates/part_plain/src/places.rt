//! Where the row of a key is in a list of rows.
ghost use Rattle.std.specs.Prelude.{◌≡◌, MatchOption, IsFalse};
ghost use Rattle.std.specs.Map.{lookup};
ghost use Rattle.std.specs.Option.{option_copied};
ghost use Rattle.term_core.specs.KeyHash.{key_hash};
ghost use Rattle.term_operand.specs.Order.{is_same};
ghost use Rattle.part_core.specs.Rows.{has_row};
ghost use Rattle.part_plain.specs.Places.{IsPlace};

use part_core::Held;
use part_engine::HashedRow;
use std::alloc::Allocator;
use term_core::Term;

/// Returns the position of a key's row, or `None` if it has none.
pub(crate) fn place_of<A: Allocator>(
    rows: &[HashedRow<A>],
    key: &Term<A>,
    hash: u64,
) -> Option<usize>
    requires { hash ≡ key_hash key.now }
    ensures { MatchOption result (IsFalse (has_row rows.now key.now))
        (λ place. IsPlace key.now rows.now place) }
{
    for (place, row) in rows.iter().enumerate() {
        if row.is_of(key, hash) {
            return Some(place);
        }
    }
    None
}

/// Returns the objects held at a key, or `None` if it has no row.
pub(crate) fn held_of<'r, A: Allocator>(
    rows: &'r [HashedRow<A>],
    key: &Term<A>,
) -> Option<&'r Held<A>>
    ensures { option_copied result ≡ lookup (is_same key.now) rows.now }
{
    match place_of(rows, key, key.key_hash()) {
        Some(place) => Some(rows[place].held()),
        None => None,
    }
}
