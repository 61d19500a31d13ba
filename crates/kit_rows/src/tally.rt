//! The number of rows of each kind.
use std::alloc::{AllocError, Global};

/// Appends the decimal digits of a number.
fn write_number(alloc: Global, out: &mut Vec<u8>, number: u64) -> Result<(), AllocError> {
    out.extend_from_slice(number.to_string(alloc)?.as_bytes())
}

/// The rows of one kind.
#[derive(Drop)]
struct Count {
    kind: String,
    rows: u64,
}

/// The number of rows of each kind, in the order of their first rows.
#[derive(Drop)]
pub(crate) struct Tally {
    counts: Vec<Count>,
    rows: u64,
    failed: u64,
}

impl Tally {
    pub(crate) fn new(alloc: Global) -> Self {
        Tally {
            counts: Vec::new(alloc),
            rows: 0,
            failed: 0,
        }
    }

    /// Counts a row, which is right or not.
    pub(crate) fn count(&mut self, is_right: bool) {
        self.rows = self.rows.saturating_add(1);
        if !is_right {
            self.failed = self.failed.saturating_add(1);
        }
    }

    /// Counts a row of this kind.
    pub(crate) fn count_kind(&mut self, kind: String) -> Result<(), AllocError> {
        for count in &mut self.counts {
            if count.kind.as_str() == kind.as_str() {
                count.rows = count.rows.saturating_add(1);
                return Ok(());
            }
        }
        self.counts.push(Count { kind, rows: 1 })?;
        Ok(())
    }

    /// Returns the number of rows that were not right.
    pub(crate) fn failed(&self) -> u64 {
        self.failed
    }

    /// Appends a line for each kind, and one for all rows.
    pub(crate) fn write(&self, alloc: Global, out: &mut Vec<u8>) -> Result<(), AllocError> {
        for count in &self.counts {
            out.extend_from_slice(count.kind.as_bytes())?;
            out.extend_from_slice(b": ")?;
            write_number(alloc, out, count.rows)?;
            out.extend_from_slice(b" rows\n")?;
        }
        out.extend_from_slice(b"in all: ")?;
        write_number(alloc, out, self.rows)?;
        out.extend_from_slice(b" rows, ")?;
        write_number(alloc, out, self.failed)?;
        out.extend_from_slice(b" failed\n")
    }
}
