//! The handle of a filter, which is passed to C.
ghost use Rattle.std.specs.Prelude.{◌≡◌, true, false};
ghost use Rattle.std.specs.Coded.{codes};
ghost use Rattle.term_core.specs.DatumCode.{datum_code};
ghost use Rattle.mcode.specs.Program.{Program};
ghost use Rattle.cutterash.specs.Held.{held};

use crate::loaded::Loaded;
use crate::loose::Loose;
use std::alloc::Global;
use std::marker::Model;
use std::ptr;

/// A filter. If it is open, it owns a box of verified code. A filter whose bytes are all 0 is closed. The caller must
/// not copy it or write to it, and passes it to one call at a time, always in the same thread.
#[repr(C)]
#[derive(Drop)]
pub struct Filter {
    /// The box, if the filter is open.
    pub(crate) at: *mut u8,
    /// Whether it is open.
    pub(crate) is_open: bool,
    /// The code of an open filter.
    pub(crate) ghost code: { Program } by { Prim.hlevel (codes, datum_code) },
}

impl Model for Filter {
    ghost also_owns = { λ f. held f.is_open f.at f.code };
}

impl Filter {
    /// Returns a closed filter.
    pub(crate) fn closed() -> Filter
        ensures { result.is_open ≡ false }
    {
        Filter {
            at: ptr::null_mut(),
            is_open: false,
        }
    }

    /// Returns an open filter that owns the box.
    pub(crate) fn of(loose: Loose<Loaded, Global>) -> Filter
        ensures { (result.is_open ≡ true) × (result.code ≡ loose.value) }
    {
        let Loose { at, alloc: _ } = loose;
        Filter {
            at: at as *mut u8,
            is_open: true,
        }
    }

    /// Returns whether the filter is open, and the filter.
    pub(crate) fn told(self) -> (bool, Filter)
        ensures { (result.0 ≡ self.is_open) × (result.1 ≡ self) }
    {
        let is_open = self.is_open;
        (is_open, self)
    }

    /// Returns the box that an open filter owns.
    pub(crate) fn into_loose(self, alloc: Global) -> Loose<Loaded, Global>
        requires { self.is_open ≡ true }
        ensures { result.value ≡ self.code }
    {
        Loose {
            at: self.at as *mut Loaded,
            alloc,
        }
    }
}
