//! Where the program reports why it ends early.
ghost use Rattle.std.specs.Prelude.{◌≡◌, ◌≢◌, IsTrue, false, []};
ghost use Rattle.tool_cli.specs.Telling.{Tells};

use std::io::Write;

/// Where the program reports why it ends early. A report that fails changes nothing for the caller; that it failed is
/// remembered.
pub trait Tell {
    ghost use Rattle.std.specs.Prelude.{ℕ, Option, List};
    ghost use Rattle.tool_cli.specs.Telling.{Tells};

    /// What was reported so far, if that is known.
    ghost told: { Self → Option (List ℕ) };
    /// A report failed, and some of what was reported may be lost.
    ghost has_failed: { Self → Type 0 };

    /// Reports these bytes, after what was reported before.
    fn tell(&mut self, bytes: &[u8])
        ensures { Tells (told self.old) (told self.new) (has_failed self.new) bytes.now };
}

/// A writer to which reports go, such as standard error.
#[derive(Drop)]
pub struct Told<W: Write + Drop> {
    /// Where the reports are written.
    pub writer: W,
    /// Whether a write failed.
    pub has_failed: bool,
}

impl<W: Write + Drop> Told<W> {
    /// Returns a `Told` that has reported nothing so far.
    pub fn new(writer: W) -> Self
        ensures { result ≡ record { writer = writer; has_failed = false } }
    {
        Told {
            writer,
            has_failed: false,
        }
    }
}

impl<W: Write + Drop> Tell for Told<W> {
    ghost told = { λ t. W.contents t.writer };

    ghost has_failed = { λ t. IsTrue t.has_failed };

    fn tell(&mut self, bytes: &[u8])
        ensures { Tells (W.contents self.old.writer) (W.contents self.new.writer)
            (IsTrue self.new.has_failed) bytes.now }
    {
        if self.writer.write_all(bytes).is_err() || self.writer.flush().is_err() {
            self.has_failed = true;
        }
    }
}

/// Returns the bytes that are reported of a text: the text, or `error` and a line feed if it is empty.
pub(crate) fn shown(text: &str) -> &[u8]
    ensures { result.now ≢ [] }
{
    if text.is_empty() {
        return b"error\n";
    }
    text.as_bytes()
}
