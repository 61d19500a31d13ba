//! Texts that are read and written.
use kit_rows::term_of;
use std::alloc::{AllocError, Allocator, Global};
use term_core::Term;
use term_text::{TextFault, read_terms, write_term};

/// Returns the canonical texts of these terms, each followed by a dot, with bars between them.
fn joined<A: Allocator>(alloc: Global, terms: &[Term<A>]) -> Result<Vec<u8>, AllocError> {
    let mut out = Vec::new(alloc);
    for term in terms {
        write_term(term, &mut out)?;
        out.extend_from_slice(b".|")?;
    }
    out.truncate(out.len().saturating_sub(1));
    Ok(out)
}

const EVERY_KIND: &str = "[{a,'b c',-7},#{k=>\"hi\",j=>[]}|<<1,\"x\">>]. {}.";

const EVERY_KIND_JOINED: &str = "[{a,'b c',-7},#{j=>[],k=>[104,105]}|<<1,120>>].|{}.";

const WRITING: &str = "[{a,'b c',-7},#{k=>\"hi\"}|<<1>>].";

const WRITTEN: &str = ">[{a,'b c',-7},#{k=>[104,105]}|<<1>>]";

/// Returns whether the terms of a text are read as they have to be, or `None` if memory runs out.
pub(super) fn is_read<A: Allocator + Copy>(alloc: Global, heap: A) -> Option<bool> {
    match read_terms(heap, EVERY_KIND.as_bytes()) {
        Ok(terms) => {
            let out = joined(alloc, terms.as_slice()).ok();
            drop(terms);
            Some(out?.as_slice() == EVERY_KIND_JOINED.as_bytes())
        }
        Err(TextFault::Memory) => None,
        Err(_) => Some(false),
    }
}

/// Returns whether a term is appended to a text as it has to be, or `None` if memory runs out and the text is
/// unchanged.
fn is_term_written<A: Allocator + Copy>(heap: A, term: &Term) -> Option<bool> {
    let mut out = Vec::new(heap);
    out.push(b'>').ok()?;
    match write_term(term, &mut out) {
        Ok(()) => Some(out.as_slice() == WRITTEN.as_bytes()),
        Err(AllocError) => {
            if out.as_slice() == b">".as_slice() {
                None
            } else {
                Some(false)
            }
        }
    }
}

/// Returns whether the term of a text is appended to a text as it has to be, or `None` if memory runs out.
pub(super) fn is_written<A: Allocator + Copy>(alloc: Global, heap: A) -> Option<bool> {
    let term = term_of(alloc, WRITING.as_bytes())?;
    let is_written = is_term_written(heap, &term);
    drop(term);
    is_written
}
