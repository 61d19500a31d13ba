//! The result of a row, as a text.
use std::alloc::{Allocator, Global};
use std::io::Write;
use term_core::{Fault, Term};
use term_text::write_term;

/// The text of a tuple or of a list, which is put together element by element. If memory runs out, `end` reports it.
#[derive(Drop)]
pub struct Outcome {
    text: Vec<u8>,
    close: u8,
    has_elements: bool,
    is_whole: bool,
}

impl Outcome {
    fn new(alloc: Global, open: u8, close: u8) -> Self {
        let mut text = Vec::new(alloc);
        let is_whole = text.push(open).is_ok();
        Outcome {
            text,
            close,
            has_elements: false,
            is_whole,
        }
    }

    /// Returns a tuple without elements.
    pub fn tuple(alloc: Global) -> Self {
        Outcome::new(alloc, b'{', b'}')
    }

    /// Returns a list without elements.
    pub fn list(alloc: Global) -> Self {
        Outcome::new(alloc, b'[', b']')
    }

    /// Records whether something was written.
    fn keep(&mut self, is_written: bool) {
        self.is_whole = self.is_whole && is_written;
    }

    /// Appends a comma if there is an element before.
    fn separate(&mut self) {
        if self.has_elements {
            let is_written = self.text.push(b',').is_ok();
            self.keep(is_written);
        }
        self.has_elements = true;
    }

    /// Begins a list as an element.
    pub fn open_list(self) -> Self {
        let mut list = self.text(b"[");
        list.has_elements = false;
        list
    }

    /// Ends the list that was begun last.
    pub fn close_list(mut self) -> Self {
        let is_written = self.text.push(b']').is_ok();
        self.keep(is_written);
        self.has_elements = true;
        self
    }

    /// Appends this text as an element.
    pub fn text(mut self, text: &[u8]) -> Self {
        self.separate();
        let is_written = self.text.extend_from_slice(text).is_ok();
        self.keep(is_written);
        self
    }

    /// Appends this text as an element. `None` means that memory ran out for the text.
    pub fn part(mut self, text: Option<Vec<u8>>) -> Self {
        match text {
            Some(text) => self.text(text.as_slice()),
            None => {
                self.keep(false);
                self
            }
        }
    }

    /// Appends a word as an element.
    pub fn word(self, word: &str) -> Self {
        self.text(word.as_bytes())
    }

    /// Appends a truth value as an element.
    pub fn truth(self, value: bool) -> Self {
        self.word(truth_name(value))
    }

    /// Appends a number as an element.
    pub fn number(mut self, number: usize) -> Self {
        self.separate();
        let is_written = write!(self.text, "{number}").is_ok();
        self.keep(is_written);
        self
    }

    /// Appends a term as an element.
    pub fn term<A: Allocator>(mut self, term: &Term<A>) -> Self {
        self.separate();
        let is_written = write_term(term, &mut self.text).is_ok();
        self.keep(is_written);
        self
    }

    /// Returns the text, or `None` if memory ran out.
    pub fn end(mut self) -> Option<Vec<u8>> {
        let close = self.close;
        let is_closed = self.text.push(close).is_ok();
        if self.is_whole && is_closed {
            Some(self.text)
        } else {
            None
        }
    }
}

/// Returns the text of a truth value: `true` or `false`.
pub const fn truth_name(value: bool) -> &'static str {
    if value { "true" } else { "false" }
}

/// Returns the text of a word, or `None` if memory runs out.
pub fn word(alloc: Global, text: &str) -> Option<Vec<u8>> {
    Vec::from_slice(alloc, text.as_bytes()).ok()
}

/// Returns the decimal digits of a number, or `None` if memory runs out.
pub fn digits(alloc: Global, number: u64) -> Option<Vec<u8>> {
    Some(number.to_string(alloc).ok()?.into_bytes())
}

/// Returns the canonical text of a term, or `None` if memory runs out.
pub fn canonical<A: Allocator>(alloc: Global, term: &Term<A>) -> Option<Vec<u8>> {
    let mut out = Vec::new(alloc);
    write_term(term, &mut out).ok()?;
    Some(out)
}

/// Returns the text of a pair of a word and a term, or `None` if memory runs out.
pub fn tagged<A: Allocator>(alloc: Global, tag: &str, term: &Term<A>) -> Option<Vec<u8>> {
    Outcome::tuple(alloc).word(tag).term(term).end()
}

/// Returns the text of a pair of a word and a number, or `None` if memory runs out.
pub fn numbered(alloc: Global, tag: &str, number: usize) -> Option<Vec<u8>> {
    Outcome::tuple(alloc).word(tag).number(number).end()
}

/// Returns the text of `{refused,Number}` with the error code of the fault, or `None` if memory runs out.
pub fn refused(alloc: Global, fault: Fault) -> Option<Vec<u8>> {
    numbered(alloc, "refused", usize::from(fault.number()))
}

/// Returns the canonical texts of terms, each followed by a dot, with blanks between them, or `None` if memory runs
/// out.
pub fn written<A: Allocator>(alloc: Global, terms: &[Term<A>]) -> Option<Vec<u8>> {
    let mut out = Vec::new(alloc);
    for term in terms {
        write_term(term, &mut out).ok()?;
        out.extend_from_slice(b". ").ok()?;
    }
    out.truncate(out.len().saturating_sub(1));
    Some(out)
}

/// Returns the text of a list of terms: their canonical texts in brackets, with commas between them. Returns `None` if
/// memory runs out.
pub fn listed<A: Allocator>(alloc: Global, terms: &[Term<A>]) -> Option<Vec<u8>> {
    let mut out = Outcome::list(alloc);
    for term in terms {
        out = out.term(term);
    }
    out.end()
}
