//! How many lines are written if an allocation fails: no fewer the later it comes. If the last one fails, a script
//! writes all but its last line, and a scan some of them.

/// Returns how many lines end in the output.
pub(crate) fn lines_in(written: &[u8]) -> usize {
    let mut lines: usize = 0;
    for byte in written {
        if *byte == b'\n' {
            lines = lines.saturating_add(1);
        }
    }
    lines
}

/// The output of the runs of a sweep that ended with out of memory.
#[derive(Clone, Copy, Debug)]
pub(crate) struct Written {
    /// The number of lines in the last of them.
    pub(crate) lines: usize,
}

impl Written {
    /// Records the output of one more run, and returns whether it has no fewer lines than that of the run before.
    pub(crate) fn goes_on(&mut self, written: &[u8]) -> bool {
        let before = self.lines;
        self.lines = lines_in(written);
        before <= self.lines
    }
}
