//! How many slots a set has.
ghost use Rattle.std.specs.Prelude.{ℕ, ◌≡◌, ◌+◌, ◌≤◌, IsFalse, nat_eq};
ghost use Rattle.std.specs.List.{list_any};
ghost use Rattle.part_core.specs.declared.kind.TableKind.{TableKind};
ghost use Rattle.part_core.specs.After.{slots_after};
ghost use Rattle.part_core.specs.Settings.{is_ordered};
ghost use Rattle.part_core.specs.Visits.{bases};

/// The number of slots of a new set.
pub const FIRST_SLOTS: u32 = 8;
/// The greatest number of slots of a set.
pub const MOST_SLOTS: u32 = 65_536;
/// The number of rows per slot above which a set doubles its slots.
const ROWS_A_SLOT: usize = 4;
/// The numbers of slots that a set can have.
const BASES: [u32; 14] = [
    8, 16, 32, 64, 128, 256, 512, 1024, 2048, 4096, 8192, 16_384, 32_768, 65_536,
];

/// Returns whether a set can have `slots` slots: 8, 16, 32 and so on up to 65,536.
pub fn is_base(slots: u32) -> bool
    ensures { result ≡ list_any (nat_eq slots) bases }
{
    BASES.iter().any(|base| slots == *base)
}

/// Returns the number of slots of a set that has got one more row, and now has `rows` rows, dead ones among them: twice
/// `slots` if there are more than four rows per slot, unless it has the most already.
pub fn slots_with_row(rows: usize, slots: u32) -> u32
    requires { slots ≤ 65536 }
    ensures { (kind : TableKind) (before : ℕ) → IsFalse (is_ordered kind) → before + 1 ≡ rows
        → result ≡ slots_after kind before rows slots }
{
    if ROWS_A_SLOT * (slots as usize) < rows && slots < MOST_SLOTS {
        2 * slots
    } else {
        slots
    }
}
