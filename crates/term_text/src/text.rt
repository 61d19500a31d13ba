//! Reading a text of terms.
ghost use Rattle.std.specs.Prelude.{◌≡◌, [], ◌↔◌, ◌⊎◌, ◌<◌, ◌≤◌, ◌^◌, List, Option, option_map, IfOk, IfErr, ℕ, IsErrOf, MatchResult, Ok, Err, length, take};
ghost use Rattle.std.specs.Str.{encode_utf8_all, IsValidUpTo, chars};
ghost use Rattle.term_core.specs.Datum.{Datum};
ghost use Rattle.term_text.specs.Text.{Spells, Front, Next};
ghost use Rattle.term_text.specs.Causes.{HasCause};
ghost use Rattle.term_text.specs.Laws.{IsRefusal};
ghost use Rattle.term_text.specs.Fault.{fault_of};
ghost use Rattle.term_text.specs.TokenReading.{Gives};
ghost use Rattle.term_text.specs.Reading.{text_at};

use crate::characters::{count, split_first};
use crate::fault::TextFault;
use crate::read::{next, terms};
use crate::scratch::Scratch;
use crate::stop::{Cause, Stop};
use std::alloc::Allocator;
use std::str;
use term_core::Term;

/// Returns the number of bytes of the first `characters` characters of a text.
fn byte_count(text: &str, characters: usize) -> usize
    ensures { result ≡ length (encode_utf8_all (take characters (chars text.now))) }
{
    let mut rest = text;
    for _passed in 0..characters {
        let Some((_first, behind)) = split_first(rest) else {
            return text.len();
        };
        rest = behind;
    }
    text.len() - rest.len()
}

/// Returns the fault for a stop, with the byte of the text where it is.
fn fault(stop: Stop, text: &str) -> TextFault
    ensures { result ≡ fault_of stop (chars text.now) }
{
    let Stop::At(cause, left) = stop else {
        return TextFault::Memory;
    };
    let at = byte_count(text, count(text).saturating_sub(left));
    match cause {
        Cause::TooDeep => TextFault::TooDeep(at),
        Cause::TooLong => TextFault::TooLong(at),
        Cause::DuplicateKey => TextFault::DuplicateKey(at),
        Cause::Syntax => TextFault::Syntax(at),
        Cause::IntegerRange => TextFault::IntegerRange(at),
        Cause::UnsupportedEscape => TextFault::UnsupportedEscape(at),
    }
}

/// Returns the bytes as a text. Fails with `BadUtf8`, at the first byte that begins no UTF-8, if they are not UTF-8.
pub fn text_of(bytes: &[u8]) -> Result<&str, TextFault>
    ensures ok { IfOk result (λ text. text.now ≡ bytes.now) }
    // The fault is at the first byte that begins no UTF-8.
    ensures refused { IfErr result (IsRefusal bytes.now) }
{
    match str::from_utf8(bytes) {
        Ok(text) => Ok(text),
        Err(error) => Err(TextFault::BadUtf8(error.valid_up_to())),
    }
}

/// Reads the next term, followed by a dot, from `rest`, the end of a text. Returns the term and what follows, or `None`
/// if only a gap remains. Fails with the first fault, whose byte is counted from the beginning of the whole text, or if
/// an allocation fails. The term is put together in `scratch`, which holds after the call what it held before, and after
/// a fault nothing.
pub fn next_term<'t, A: Allocator + Copy>(
    alloc: A,
    scratch: &mut Scratch<A>,
    text: &str,
    rest: &'t str,
) -> Result<Option<(Term<A>, &'t str)>, TextFault>
    // What is read is what the text spells next.
    ensures ok { IfOk result (λ next. Next (chars rest.now)
        (option_map (λ x. (x.0, chars x.1.now)) next)) }
    // What the text spells next is read, unless memory runs out.
    ensures only { (there : Option (Datum × List ℕ)) → Next (chars rest.now) there → MatchResult
        result (λ next. option_map (λ x. (x.0, chars x.1.now)) next ≡ there)
        (λ fault. fault ≡ TextFault.Memory) }
    // A fault that is returned is the fault of the whole text, if the text before `rest` consists of terms with their
    // dots.
    ensures cause { (ds : List Datum) → Front (chars text.now) ds (chars rest.now) → IfErr result
        (λ fault. (fault ≡ TextFault.Memory) ⊎ IsRefusal text.now fault) }
    // The scratch keeps nothing of what was read, whatever the result.
    ensures scratch { MatchResult result (λ _. scratch.new.terms.items ≡ scratch.old.terms.items)
        (λ _. scratch.new.terms.items ≡ []) }
{
    match next(alloc, scratch, rest) {
        Ok(next) => Ok(next),
        Err(refused) => Err(fault(refused, text)),
    }
}

/// Reads the terms of a text, each followed by a dot. Fails with the first fault, whose byte is counted from 0, or if
/// an allocation fails.
pub fn read_terms<A: Allocator + Copy>(alloc: A, bytes: &[u8]) -> Result<Vec<Term<A>, A>, TextFault>
    // What is read is what the text spells.
    ensures ok { IfOk result (λ terms. Spells bytes.now terms.items) }
    // What the text spells is read, unless memory runs out.
    ensures only { (ds : List Datum) → Spells bytes.now ds
        → MatchResult result (λ terms. terms.items ≡ ds) (λ fault. fault ≡ TextFault.Memory) }
    // The cause that a fault names is at its byte, and the text before that byte has no fault.
    ensures cause { IfErr result (λ fault. HasCause bytes.now fault) }
    // `BadUtf8` has the first byte that begins no UTF-8.
    ensures bad_utf8 { (at : ℕ) → IsErrOf result (TextFault.BadUtf8 at) ↔ IsValidUpTo bytes.now at }
{
    let text = match str::from_utf8(bytes) {
        Ok(text) => text,
        Err(error) => return Err(TextFault::BadUtf8(error.valid_up_to())),
    };
    match terms(alloc, text) {
        Ok(terms) => Ok(terms),
        Err(stop) => Err(fault(stop, text)),
    }
}
