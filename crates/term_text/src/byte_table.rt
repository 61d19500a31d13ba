//! Classes of bytes, and their decimal texts.
ghost use Rattle.std.specs.Prelude.{◌≡◌, decimal};
ghost use Rattle.term_text.specs.Character.{is_word};

// Each byte of a bare word is at its own place, and a comma at every other place.
static WORD: [u8; 256] = *b"\
    ,,,,,,,,,,,,,,,,,,,,,,,,,,,,,,,,\
    ,,,,,,,,,,,,,,,,0123456789,,,,,,\
    @ABCDEFGHIJKLMNOPQRSTUVWXYZ,,,,_\
    ,abcdefghijklmnopqrstuvwxyz,,,,,\
    ,,,,,,,,,,,,,,,,,,,,,,,,,,,,,,,,\
    ,,,,,,,,,,,,,,,,,,,,,,,,,,,,,,,,\
    ,,,,,,,,,,,,,,,,,,,,,,,,,,,,,,,,\
    ,,,,,,,,,,,,,,,,,,,,,,,,,,,,,,,,";

/// Returns whether a bare word can go on with this byte: an ASCII letter or digit, `_` or `@`.
#[inline(always)]
pub fn is_word_byte(byte: u8) -> bool
    ensures { result ≡ is_word byte }
{
    WORD[usize::from(byte)] != b','
}
