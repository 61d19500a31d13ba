//! The terms of an input.
ghost use Rattle.std.specs.Prelude.{◌≡◌, List, option_map, IfOk, IfErr};
ghost use Rattle.std.specs.Str.{chars};
ghost use Rattle.term_core.specs.Datum.{Datum};
ghost use Rattle.term_text.specs.Text.{Spells, Sentence, Front, Next};
ghost use Rattle.tool_io.specs.Terms.{OfInput, HasTerms, IsUnread, IsUnspelled};

use crate::fault::ToolFault;
use crate::input::read_whole;
use std::alloc::Allocator;
use std::io::Read;
use term_core::Term;
use term_text::{Scratch, TextFault, a_text_has_one_fault, next_term, read_terms};

/// Reads to the end of the reader, and returns the terms that the bytes spell: each followed by a dot, at least one.
/// Rejects an input without a term as a syntax error at its end.
#[tactic(auto, using(crate::proofs::TermsLemmas::unread))]
pub fn read_input<A: Allocator + Copy, R: Read>(
    alloc: A,
    reader: &mut R,
) -> Result<Vec<Term<A>, A>, ToolFault>
    ensures ok { IfOk result (λ terms. OfInput (R.remaining reader.old) (λ input.
        HasTerms input terms.items)) }
    ensures refused { IfErr result (λ fault. OfInput (R.remaining reader.old) (λ input.
        IsUnread input fault)) }
{
    let input = read_whole(alloc, reader)?;
    some_terms_of(alloc, input.as_slice())
}

/// Reads to the end of the reader, and returns the terms that the bytes spell: each followed by a dot, maybe none.
#[tactic(auto, using(crate::proofs::TermsLemmas::unspelled))]
pub fn read_script<A: Allocator + Copy, R: Read>(
    alloc: A,
    reader: &mut R,
) -> Result<Vec<Term<A>, A>, ToolFault>
    ensures ok { IfOk result (λ terms. OfInput (R.remaining reader.old) (λ input.
        Spells input terms.items)) }
    ensures refused { IfErr result (λ fault. OfInput (R.remaining reader.old) (λ input.
        IsUnspelled input fault)) }
{
    let input = read_whole(alloc, reader)?;
    terms_of(alloc, input.as_slice())
}

/// Returns the terms of an input, at least one. An input without a term is a syntax error at its end.
#[tactic(auto, using(crate::proofs::TermsLemmas::unspelled_is_unread))]
fn some_terms_of<A: Allocator + Copy>(alloc: A, input: &[u8]) -> Result<Vec<Term<A>, A>, ToolFault>
    ensures ok { IfOk result (λ terms. HasTerms input.now terms.items) }
    ensures refused { IfErr result (IsUnread input.now) }
{
    let terms = terms_of(alloc, input)?;
    if terms.as_slice().is_empty() {
        return Err(ToolFault::Text(TextFault::Syntax(input.len())));
    }
    Ok(terms)
}

/// Returns the terms of an input, maybe none.
fn terms_of<A: Allocator + Copy>(alloc: A, input: &[u8]) -> Result<Vec<Term<A>, A>, ToolFault>
    ensures ok { IfOk result (λ terms. Spells input.now terms.items) }
    ensures refused { IfErr result (IsUnspelled input.now) }
{
    match read_terms(alloc, input) {
        Ok(terms) => Ok(terms),
        Err(fault) => Err(ToolFault::from(fault)),
    }
}

/// Returns the input as text, or rejects it at the first byte that is not UTF-8.
pub fn text_of(input: &[u8]) -> Result<&str, ToolFault>
    ensures ok { IfOk result (λ text. text.now ≡ input.now) }
    ensures refused { IfErr result (IsUnspelled input.now) }
{
    a_text_has_one_fault();
    match term_text::text_of(input) {
        Ok(text) => Ok(text),
        Err(refused) => Err(ToolFault::from(refused)),
    }
}

/// Returns the next term of `rest`, which a dot follows, and what is left after the dot. Returns `None` if `rest` has
/// nothing but white space and comments. `rest` has to be what is left of `text`, since the fault's place is a byte
/// offset in `text`. The term is put together in `scratch`.
pub fn next_of<'t, A: Allocator + Copy>(
    alloc: A,
    scratch: &mut Scratch<A>,
    text: &str,
    rest: &'t str,
) -> Result<Option<(Term<A>, &'t str)>, ToolFault>
    ensures ok { IfOk result (λ next. Next (chars rest.now)
        (option_map (λ x. (x.0, chars x.1.now)) next)) }
    ensures refused { (ds : List Datum) → Front (chars text.now) ds (chars rest.now)
        → IfErr result (IsUnspelled text.now) }
{
    a_text_has_one_fault();
    match next_term(alloc, scratch, text, rest) {
        Ok(next) => Ok(next),
        Err(refused) => Err(ToolFault::from(refused)),
    }
}

/// Returns the first term of a text, and what is left after its dot. Returns `None` if there is no term.
fn first_if_any<A: Allocator + Copy>(
    alloc: A,
    text: &str,
) -> Result<Option<(Term<A>, &str)>, ToolFault>
    ensures ok { IfOk result (λ next. Next (chars text.now)
        (option_map (λ x. (x.0, chars x.1.now)) next)) }
    ensures refused { (ds : List Datum) → Front (chars text.now) ds (chars text.now)
        → IfErr result (IsUnspelled text.now) }
{
    let mut scratch = Scratch::new(alloc);
    next_of(alloc, &mut scratch, text, text)
}

/// Returns the first term of a text, and what is left after its dot. A text without a term is a syntax error at its
/// end.
pub fn first_of<A: Allocator + Copy>(alloc: A, text: &str) -> Result<(Term<A>, &str), ToolFault>
    ensures ok { IfOk result (λ x. Sentence (chars text.now) x.0 (chars x.1.now)) }
    ensures refused { IfErr result (IsUnread text.now) }
{
    match first_if_any(alloc, text)? {
        Some(first) => Ok(first),
        None => Err(ToolFault::Text(TextFault::Syntax(text.len()))),
    }
}
