//! The table, and how it is opened.
ghost use Rattle.std.specs.Prelude.{◌<◌};
ghost use Rattle.open_table.specs.Parts.{options_in};

use crate::parts::Parts;
use part_core::{OpenFault, Part};
use std::alloc::{AllocError, Allocator, Global};
use tables::Options;
use term_core::Term;

/// A table of one thread. `S` is the sort of its parts if it is a set or a bag, `O` if it is an ordered set.
#[derive(Drop)]
pub struct OpenTable<S: Part<A> + Drop, O: Part<A> + Drop, A: Allocator = Global> {
    pub(crate) parts: Parts<S, O, A>,
    pub(crate) session: u8,
    ghost inside: { session < (options_in parts).sessions },
}

impl<S: Part<A> + Drop, O: Part<A> + Drop, A: Allocator + Copy> OpenTable<S, O, A> {
    ghost use Rattle.std.specs.Prelude.{◌≡◌, IfOk, IsErrOf, if◌then◌else◌, nat_lt};
    ghost use Rattle.tables.specs.OneThread.{TableState, opened};
    ghost use Rattle.walks.specs.OneThread.{table_objects};
    ghost use Rattle.open_table.specs.Parts.{CanOpen};
    ghost use Rattle.open_table.specs.Shows.{Shows};

    /// Opens a table without objects; the next call is made by session 0. Fails with `BadOptions` exactly if a number is
    /// outside its range, an ordered set has more than one part, or the parts do not serve the kind. Fails with `Memory`
    /// only if the options are valid and an allocation fails.
    pub fn open(alloc: A, options: Options) -> Result<Self, OpenFault>
        ensures opened { IfOk result (λ x. CanOpen S.serves O.serves options × (x.session ≡ 0)
            × Shows x (opened options)) }
        ensures refused { IsErrOf result OpenFault.BadOptions → ¬ (CanOpen S.serves O.serves options) }
        ensures scarce { IsErrOf result OpenFault.Memory → CanOpen S.serves O.serves options }
    {
        match Parts::open(alloc, options) {
            Ok(parts) => Ok(OpenTable { parts, session: 0 }),
            Err(fault) => Err(fault),
        }
    }

    /// Returns the options that the table was opened with.
    pub fn options(&self) -> Options
        ensures { result ≡ options_in self.now.parts }
    {
        self.parts.options()
    }

    /// Returns the number of the session that makes the next call.
    pub fn session(&self) -> u8
        ensures { result ≡ self.now.session }
    {
        self.session
    }

    /// Has another session make the calls from the next one on, if the table has a session of this number. Returns
    /// whether it has.
    pub fn act_as(&mut self, session: u8) -> bool
        ensures parts { self.new.parts ≡ self.old.parts }
        ensures found { result ≡ nat_lt session (options_in self.old.parts).sessions }
        ensures session { self.new.session ≡ (if nat_lt session (options_in self.old.parts).sessions
            then session else self.old.session) }
    {
        if self.parts.options().sessions <= session {
            return false;
        }
        self.session = session;
        true
    }

    /// Returns copies of the objects, in walk order. Fails if an allocation fails.
    pub fn objects(&self) -> Result<Vec<Term<A>, A>, AllocError>
        ensures { IfOk result (λ objects. (t : TableState) → Shows self.now t → objects.items ≡ table_objects t) }
    {
        self.parts.objects()
    }

    /// A table is in some state: what is said of a call for each state that a table may be in is said of one at least.
    pub fn is_in_a_state(&self)
        ensures { ∥ ((t : TableState) × Shows self.now t) ∥₁ }
    {}
}
