//! The characters of a text, from the left.
ghost use Rattle.std.specs.Prelude.{◌≡◌, ◌==◌, ◌<◌, ◌∷◌, [], MatchOption, length};
ghost use Rattle.std.specs.Str.{chars};
ghost use Rattle.term_text.specs.Character.{EndsAscii};

/// Returns the first character and the text after it if that character is ASCII, otherwise `None`. Looks at one byte
/// only.
#[inline(always)]
pub fn split_ascii(text: &str) -> Option<(char, &str)>
    ensures { MatchOption result (EndsAscii (chars text.now)) (λ x. (x.0 < 128) × (chars text.now ≡ x.0 ∷ chars x.1.now)) }
{
    let first = *text.as_bytes().first()?;
    if first < 0x80 {
        Some((char::from(first), &text[1..]))
    } else {
        None
    }
}

/// Returns the first character and the text after it, or `None` if the text is empty.
#[tactic(auto, using(std::proofs::lemmas::Str::chars_past_char))]
pub fn split_first(text: &str) -> Option<(char, &str)>
    ensures { MatchOption result (chars text.now ≡ []) (λ x. chars text.now ≡ x.0 ∷ chars x.1.now) }
{
    let mut characters = text.chars();
    let first = characters.next()?;
    Some((first, characters.as_str()))
}

/// Returns the number of characters.
#[tactic(auto, using(std::proofs::lemmas::Str::chars_from_encodes))]
pub fn count(text: &str) -> usize
    ensures { result ≡ length (chars text.now) }
{
    text.chars().count()
}

/// Returns whether the text has no characters.
#[tactic(auto, using(crate::proofs::CharacterLemmas::empty_alike))]
pub fn is_empty(text: &str) -> bool
    ensures { result ≡ (length (chars text.now) == 0) }
{
    text.is_empty()
}
