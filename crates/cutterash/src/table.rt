//! The handle of a table, which is passed to C.
ghost use Rattle.std.specs.Prelude.{◌≡◌, true, false};
ghost use Rattle.cutterash.specs.Held.{held_table};
ghost use Rattle.cutterash.specs.declared.kept.Kept.{Kept};
ghost use Rattle.cutterash.specs.contracts.kept.Kept as kept_type;

use crate::kept::Kept;
use crate::loose::Loose;
use std::alloc::Global;
use std::marker::Model;
use std::ptr;

/// A table. If it is open, it owns a box of an engine. A table whose bytes are all 0 is closed. The caller must not
/// copy it or write to it, and passes it to one call at a time, always in the same thread.
#[repr(C)]
#[derive(Drop)]
pub struct Table {
    /// The box, if the table is open.
    pub(crate) at: *mut u8,
    /// Whether it is open.
    pub(crate) is_open: bool,
    /// What an open table owns.
    pub(crate) ghost kept: { Kept } by { kept_type.the_row.coded },
}

impl Model for Table {
    ghost also_owns = { λ t. held_table t.is_open t.at t.kept };
}

impl Table {
    /// Returns a closed table.
    pub(crate) fn closed() -> Table
        ensures { result.is_open ≡ false }
    {
        Table {
            at: ptr::null_mut(),
            is_open: false,
        }
    }

    /// Returns an open table that owns the box.
    pub(crate) fn of(loose: Loose<Kept, Global>) -> Table
        ensures { (result.is_open ≡ true) × (result.kept ≡ loose.value) }
    {
        let Loose { at, alloc: _ } = loose;
        Table {
            at: at as *mut u8,
            is_open: true,
        }
    }

    /// Returns whether the table is open, and the table.
    pub(crate) fn told(self) -> (bool, Table)
        ensures { (result.0 ≡ self.is_open) × (result.1 ≡ self) }
    {
        let is_open = self.is_open;
        (is_open, self)
    }

    /// Returns the box that an open table owns.
    pub(crate) fn into_loose(self, alloc: Global) -> Loose<Kept, Global>
        requires { self.is_open ≡ true }
        ensures { result.value ≡ self.kept }
    {
        Loose {
            at: self.at as *mut Kept,
            alloc,
        }
    }
}
