//! Why a text can't be read.

use thiserror::Error;

/// Why a text can't be read. All but `Memory` have the byte of the input where the fault is, counted from 0.
#[derive(Clone, Copy, Debug, PartialEq, Eq, Error)]
pub enum TextFault {
    /// An allocation failed.
    #[error("out of memory")]
    Memory,
    /// A term is at nesting level 256.
    #[error("at byte {0}: the term is too deep")]
    TooDeep(usize),
    /// An element, a pair, a character or a byte exceeds a limit.
    #[error("at byte {0}: the term is too long")]
    TooLong(usize),
    /// A key occurs twice in a map.
    #[error("at byte {0}: the key stands twice in its map")]
    DuplicateKey(usize),
    /// The text can't go on in this way, nothing begins in this way, or the text ends too early.
    #[error("at byte {0}: syntax error")]
    Syntax(usize),
    /// The bytes are not UTF-8.
    #[error("at byte {0}: not UTF-8")]
    BadUtf8(usize),
    /// An integer has more than 64 bits, or is not a byte although it is in a binary.
    #[error("at byte {0}: the integer is out of range")]
    IntegerRange(usize),
    /// A backslash is followed by a character with which it makes no escape.
    #[error("at byte {0}: unsupported escape")]
    UnsupportedEscape(usize),
}

impl TextFault {
    ghost use Rattle.std.specs.Prelude.{◌≡◌};
    ghost use Rattle.term_text.specs.FaultNumbers.{number_of, place_of};

    /// Returns the number, from 1 to 8, that programs print for the fault.
    pub const fn number(self) -> u8
        ensures { result ≡ number_of self }
    {
        match self {
            TextFault::Memory => 1,
            TextFault::TooDeep(_) => 2,
            TextFault::TooLong(_) => 3,
            TextFault::DuplicateKey(_) => 4,
            TextFault::Syntax(_) => 5,
            TextFault::BadUtf8(_) => 6,
            TextFault::IntegerRange(_) => 7,
            TextFault::UnsupportedEscape(_) => 8,
        }
    }

    /// Returns the byte of the input where the fault is, counted from 0, or `None` if memory ran out.
    pub const fn at(self) -> Option<usize>
        ensures { result ≡ place_of self }
    {
        match self {
            TextFault::Memory => None,
            TextFault::TooDeep(at)
            | TextFault::TooLong(at)
            | TextFault::DuplicateKey(at)
            | TextFault::Syntax(at)
            | TextFault::BadUtf8(at)
            | TextFault::IntegerRange(at)
            | TextFault::UnsupportedEscape(at) => Some(at),
        }
    }
}
