//! What becomes of the row of a key when an object is inserted, and why none is inserted.
ghost use Rattle.std.specs.Prelude.{◌≡◌, Some};
ghost use Rattle.std.specs.Option.{option_copied};
ghost use Rattle.part_rows.specs.Puts.{is_put, put_at, revived};

use part_core::{Fault, Held};
use std::alloc::{AllocError, Allocator};
use thiserror::Error;

/// What became of the row of a key when an object was inserted.
#[derive(Clone, Copy)]
pub enum Put {
    /// The key has an object, which was not to be replaced: nothing was inserted.
    Kept,
    /// The object was inserted into the dead row of its key, which is live now.
    Revived,
    /// The object was inserted into a live row of its key, or into a new row.
    Done,
}

/// Why nothing was inserted.
#[derive(Clone, Copy, Debug, PartialEq, Eq, Error)]
pub enum PutFault {
    /// An allocation failed.
    #[error("out of memory")]
    Memory,
    /// The term is no object: not a tuple with an element at the key's position.
    #[error("the term is no object")]
    NoObject,
}

impl From<AllocError> for PutFault {
    ghost use Rattle.std.specs.Prelude.{◌≡◌};
    ghost use Rattle.part_rows.specs.declared.put.PutFault.TheVariants.{Memory};

    ghost from_gives = { λ _ fault. fault ≡ Memory };

    fn from(_: AllocError) -> Self {
        PutFault::Memory
    }
}

impl From<PutFault> for Fault {
    ghost use Rattle.std.specs.Prelude.{◌≡◌};
    ghost use Rattle.part_rows.specs.Puts.{fault_of};

    ghost from_gives = { λ given fault. fault ≡ fault_of given };

    fn from(fault: PutFault) -> Self {
        match fault {
            PutFault::Memory => Fault::Memory,
            PutFault::NoObject => Fault::TooSmall,
        }
    }
}

/// Returns what becomes of a row with these objects when an object is inserted that replaces them or not.
fn over_row<A: Allocator>(held: &Held<A>, replaces: bool) -> Put
    ensures { result ≡ put_at replaces (Some held.now) }
{
    if held.is_empty() {
        return Put::Revived;
    }
    if replaces { Put::Done } else { Put::Kept }
}

impl Put {
    /// Returns what becomes of the row of a key when an object is inserted; `held` are its objects, or `None` if it has
    /// no row.
    pub fn over<A: Allocator>(held: Option<&Held<A>>, replaces: bool) -> Put
        ensures { result ≡ put_at replaces (option_copied held.entry) }
    {
        match held {
            Some(held) => over_row(held, replaces),
            None => Put::Done,
        }
    }

    /// Returns whether the object was inserted.
    pub fn is_done(self) -> bool
        ensures { result ≡ is_put self }
    {
        match self {
            Put::Kept => false,
            Put::Revived => true,
            Put::Done => true,
        }
    }

    /// Returns how many dead rows became live: 1 for `Revived`, else 0.
    pub fn revived(self) -> usize
        ensures { result ≡ revived self }
    {
        match self {
            Put::Kept => 0,
            Put::Revived => 1,
            Put::Done => 0,
        }
    }
}
