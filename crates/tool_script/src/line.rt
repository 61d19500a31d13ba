//! Lines of an input, and what a line does to the pending text (the lines since the last that was examined or given
//! up).
ghost use Rattle.std.specs.Prelude.{◌≡◌, IfOk, IfErr};
ghost use Rattle.term_text.specs.Character.{is_white_space};
ghost use Rattle.term_text.specs.TokenReading.{begins_gap};
ghost use Rattle.tool_io.specs.Input.{IsReadFault};
ghost use Rattle.tool_script.specs.Line.{within_after, within_end, is_empty, is_idle, ends_term, has_dot, effect_of, EndsLine, TakesLine};

use std::alloc::Allocator;
use std::io::{self, BufRead, ErrorKind};
use tool_io::ToolFault;

/// Whether an input may go on after a line.
#[derive(Clone, Copy, Debug, PartialEq, Eq)]
pub(crate) enum Progress {
    More,
    End,
}

/// What a line does to the pending text.
#[derive(Clone, Copy, Debug, PartialEq, Eq)]
pub(crate) enum Effect {
    /// Nothing is pending, and the line is skipped: white space or a comment alone.
    Passes,
    /// The line is appended to the pending text.
    GoesOn,
    /// The line is appended to the pending text, which is then examined.
    LooksAt,
    /// The pending text is given up: it is examined without the line, for the last time.
    GivesUp,
}

/// What the next byte of a text is within.
#[derive(Clone, Copy, Debug, PartialEq, Eq)]
pub(crate) enum Within {
    /// Neither a comment nor quotation marks.
    Nothing,
    /// A comment, which a line feed ends.
    Comment,
    /// These quotation marks, `'` or `"`.
    Marks(u8),
    /// These quotation marks, after a backslash.
    Escape(u8),
}

impl Within {
    ghost use Rattle.std.specs.Prelude.{◌≡◌};
    ghost use Rattle.tool_script.specs.Line.{within_after, within_end};

    /// Returns what the byte after this one is within.
    fn after(self, byte: u8) -> Self
        ensures { result ≡ within_after self byte }
    {
        match self {
            Within::Nothing => Within::beginning_with(byte),
            Within::Comment => { if byte == b'\n' { Within::Nothing } else { self } }
            Within::Marks(mark) => {
                if byte == mark {
                    Within::Nothing
                } else if byte == b'\\' {
                    Within::Escape(mark)
                } else {
                    self
                }
            }
            Within::Escape(mark) => Within::Marks(mark),
        }
    }

    /// Returns what the byte after this one is within, where this one is within nothing.
    fn beginning_with(byte: u8) -> Self
        ensures { result ≡ within_after Within.Nothing byte }
    {
        if byte == b'%' {
            Within::Comment
        } else if byte == b'\'' || byte == b'"' {
            Within::Marks(byte)
        } else {
            Within::Nothing
        }
    }

    /// Returns what the byte after these bytes is within.
    pub(crate) fn end(self, bytes: &[u8]) -> Self
        ensures { result ≡ within_end self bytes.now }
    {
        let mut rest = bytes;
        let mut within = self;
        loop {
            let Some((first, after)) = rest.split_first() else {
                return within;
            };
            within = within.after(*first);
            rest = after;
        }
    }
}

/// Reads the next line, with its line feed, and appends it to these bytes. Returns `End` if the line has no line feed,
/// since it is then the last, and `More` otherwise. Fails with `Memory` or `ReadFailed`.
pub(crate) fn take_line<B: BufRead, A: Allocator>(
    input: &mut B,
    bytes: &mut Vec<u8, A>,
) -> Result<Progress, ToolFault>
    ensures ok { IfOk result (λ progress. TakesLine (B.remaining input.old) (B.remaining input.new)
        bytes.old.items bytes.new.items progress) }
    ensures failed { IfErr result IsReadFault }
{
    let start = bytes.len();
    match input.read_until(b'\n', bytes) {
        Ok(_count) => Ok(later_progress(&bytes[start..])),
        Err(error) => Err(read_fault(&error)),
    }
}

/// Returns `More` if the line ends with a line feed, so that the input may go on, else `End`.
fn later_progress(line: &[u8]) -> Progress
    ensures { EndsLine line.now result }
{
    if line.is_empty() {
        return Progress::End;
    }
    if line[line.len() - 1] == b'\n' {
        Progress::More
    } else {
        Progress::End
    }
}

/// Returns why no line was read: `Memory` if memory ran out, else `ReadFailed`.
fn read_fault(error: &io::Error) -> ToolFault
    ensures { IsReadFault result }
{
    if error.kind() == ErrorKind::OutOfMemory {
        return ToolFault::Memory;
    }
    ToolFault::ReadFailed
}

/// Returns what a line does after this pending text, whose end is within `within`.
pub(crate) fn effect_after(begun: &[u8], within: Within, line: &[u8]) -> Effect
    requires { within ≡ within_end Within.Nothing begun.now }
    ensures { result ≡ effect_of begun.now line.now }
{
    if begun.is_empty() {
        if is_idle(line) {
            return Effect::Passes;
        }
    } else if is_empty(line) {
        return Effect::GivesUp;
    }
    if has_dot(within, line) {
        Effect::LooksAt
    } else {
        Effect::GoesOn
    }
}

/// Returns whether a byte is white space: bytes 9 to 13 (tab to carriage return) and the space.
fn is_white_space(byte: u8) -> bool
    ensures { result ≡ is_white_space byte }
{
    matches!(byte, b'\t'..=b'\r' | b' ')
}

/// Returns whether a line is white space alone, or nothing.
fn is_empty(line: &[u8]) -> bool
    ensures { result ≡ is_empty line.now }
{
    let mut rest = line;
    loop {
        let Some((first, after)) = rest.split_first() else {
            return true;
        };
        if !is_white_space(*first) {
            return false;
        }
        rest = after;
    }
}

/// Returns whether a line is white space or a comment alone, or nothing.
fn is_idle(line: &[u8]) -> bool
    ensures { result ≡ is_idle line.now }
{
    let mut rest = line;
    loop {
        let Some((first, after)) = rest.split_first() else {
            return true;
        };
        if *first == b'%' {
            return true;
        }
        if !is_white_space(*first) {
            return false;
        }
        rest = after;
    }
}

/// Returns whether these bytes begin with white space or a comment, or there are none.
fn begins_gap(bytes: &[u8]) -> bool
    ensures { result ≡ begins_gap bytes.now }
{
    match bytes.first() {
        None => true,
        Some(first) => is_white_space(*first) || *first == b'%',
    }
}

/// Returns whether the line, which begins within `within`, has a dot within nothing that is followed by white space, a
/// percent sign or the end.
fn has_dot(within: Within, line: &[u8]) -> bool
    ensures { result ≡ has_dot within line.now }
{
    let mut rest = line;
    let mut within = within;
    loop {
        let Some((first, after)) = rest.split_first() else {
            return false;
        };
        if ends_term(within, *first, after) {
            return true;
        }
        within = within.after(*first);
        rest = after;
    }
}

/// Returns whether a byte is a dot within nothing that white space, a percent sign or the end follows.
fn ends_term(within: Within, byte: u8, after: &[u8]) -> bool
    ensures { result ≡ ends_term within byte after.now }
{
    match within {
        Within::Nothing => byte == b'.' && begins_gap(after),
        Within::Comment | Within::Marks(_) | Within::Escape(_) => false,
    }
}
