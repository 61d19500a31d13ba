//! Texts read and written, readable ones, the order of terms, and their hashes.
use kit_rows::{Outcome, digits, text, word, written};
use std::alloc::Global;
use std::cmp::Ordering;
use term_core::Term;
use term_order::{compare, key_hash};
use term_text::{TextFault, read_terms, write_readable};

/// Returns the text of the error code and the byte offset of a fault.
fn fault_text(alloc: Global, fault: TextFault) -> Option<Vec<u8>> {
    let (number, at) = (usize::from(fault.number()), fault.at()?);
    Outcome::tuple(alloc).number(number).number(at).end()
}

/// Returns the canonical texts of the terms that a text spells, or the text of its fault.
fn read(alloc: Global, given: &Term) -> Option<Vec<u8>> {
    let bytes = text(alloc, given)?;
    match read_terms(alloc, bytes.as_slice()) {
        Ok(terms) => {
            let text = written(alloc, terms.as_slice());
            drop(terms);
            text
        }
        Err(fault) => fault_text(alloc, fault),
    }
}

/// Returns the readable text of a term.
fn readable(alloc: Global, term: &Term) -> Option<Vec<u8>> {
    let mut out = Vec::new(alloc);
    write_readable(term, &mut out).ok()?;
    Some(out)
}

/// Returns the text of how two terms compare, both ways.
fn order(alloc: Global, left: &Term, right: &Term) -> Option<Vec<u8>> {
    let is_equal = left == right;
    match (compare(left, right), compare(right, left), is_equal) {
        (Ordering::Less, Ordering::Greater, false) => word(alloc, "less"),
        (Ordering::Equal, Ordering::Equal, true) => word(alloc, "equal"),
        (Ordering::Greater, Ordering::Less, false) => word(alloc, "greater"),
        _ => word(alloc, "another_each_way"),
    }
}

/// Returns the decimal digits of a term's hash.
fn hash(alloc: Global, term: &Term) -> Option<Vec<u8>> {
    digits(alloc, key_hash(term))
}

/// Returns the result of a row of texts, orders or hashes, or `None` if there is no such row.
pub(crate) fn came(alloc: Global, kind: &str, parts: &[Term]) -> Option<Vec<u8>> {
    match (kind, parts) {
        ("text" | "refused", [given, _]) | ("canonical", [given]) => read(alloc, given),
        ("readable", [term, _]) => readable(alloc, term),
        ("order", [left, right, _]) => order(alloc, left, right),
        ("hash", [term, _]) => hash(alloc, term),
        _ => None,
    }
}
