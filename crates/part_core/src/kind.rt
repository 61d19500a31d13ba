//! The kinds of tables.
ghost use Rattle.std.specs.Prelude.{◌≡◌};
ghost use Rattle.part_core.specs.Settings.{is_ordered, is_set};

/// What a table holds at a key, and the order in which it is walked (STDLIB Reference Manual, ets:new/2).
#[derive(Clone, Copy, Debug, PartialEq, Eq)]
pub enum TableKind {
    /// At most one object per key; walked class by class, then in the order in which rows were created.
    Set,
    /// At most one object per key; walked in ascending key order.
    OrderedSet,
    /// Any number of objects per key, no two of them equal.
    Bag,
    /// Any number of objects per key.
    DuplicateBag,
}

impl TableKind {
    /// Returns whether the table is walked in key order.
    pub fn is_ordered(self) -> bool
        ensures { result ≡ is_ordered self }
    {
        matches!(self, TableKind::OrderedSet)
    }

    /// Returns whether the table holds at most one object per key.
    pub fn is_set(self) -> bool
        ensures { result ≡ is_set self }
    {
        matches!(self, TableKind::Set | TableKind::OrderedSet)
    }
}
