//! Places of rows, by which rows are listed.

/// Where a row is: at a key of a slab, provided that the row there is still the one that was created then.
#[derive(Clone, Copy)]
pub struct Place {
    /// How many rows were created before it.
    pub made: u64,
    /// The key of the slab.
    pub at: u32,
    /// The part of its key's hash that determines its slot, however many slots there are.
    pub low: u32,
}
