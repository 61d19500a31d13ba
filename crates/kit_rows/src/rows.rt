//! The rows of a text, and their results.
use crate::outcome::canonical;
use crate::parts::{fields, name};
use crate::tally::Tally;
use crate::texts::text;
use std::alloc::{AllocError, Global};
use std::io::{self, Read, Write};
use std::process::ExitCode;
use term_core::Term;
use term_text::read_terms;

/// The maximal number of bytes of a text that are shown.
const SHOWN: usize = 2_000;

/// The kinds of rows that a program knows.
pub trait Kinds {
    /// Returns the result of a row of this kind, as a text, where its operands are in the forms with the number
    /// `forms`. Returns `None` if there is no such row.
    fn came(&self, alloc: Global, kind: &str, parts: &[Term], forms: usize) -> Option<Vec<u8>>;

    /// Returns the number of forms in which the operands of a row of this kind are tried.
    fn forms(_kind: &str) -> usize {
        1
    }

    /// Returns whether the last element of a row of this kind gives the expected text in pieces. Otherwise the
    /// canonical text of the last element is expected.
    fn wants_text(_kind: &str) -> bool {
        false
    }
}

/// The results of all rows.
#[derive(Drop)]
struct Report {
    /// The messages about rows that are not right, followed by a line for each kind and one for all rows.
    text: Vec<u8>,
    is_right: bool,
}

/// The result of a row, compared with the expected one.
#[derive(Drop)]
enum Verdict {
    Right,
    /// The expected text and the one that came.
    Wrong(Vec<u8>, Vec<u8>),
    /// The term is not a row.
    Unknown,
}

/// Returns the kind of a row, its first element.
fn kind_of(alloc: Global, row: &Term) -> Option<String> {
    name(alloc, fields(row)?.first()?)
}

/// Returns what follows the kind of a row.
fn parts_of(row: &Term) -> Option<&[Term]> {
    let (_kind, parts) = fields(row)?.split_first()?;
    Some(parts)
}

/// Returns the text that the last element of a row expects.
fn wanted<K: Kinds>(alloc: Global, kind: &str, last: &Term) -> Option<Vec<u8>> {
    if K::wants_text(kind) {
        text(alloc, last)
    } else {
        canonical(alloc, last)
    }
}

/// Returns the first result of a row, over its forms, that differs from the expected one; `Some(None)` if none differs.
/// Returns `None` if there is no such row.
fn other_than<K: Kinds>(
    kinds: &K,
    alloc: Global,
    kind: &str,
    parts: &[Term],
    wanted: &[u8],
) -> Option<Option<Vec<u8>>> {
    for forms in 0..K::forms(kind) {
        let came = kinds.came(alloc, kind, parts, forms)?;
        if came.as_slice() != wanted {
            return Some(Some(came));
        }
    }
    Some(None)
}

/// Compares the results of a row, in each of its forms, with the expected one.
fn verdict_in_forms<K: Kinds>(
    kinds: &K,
    alloc: Global,
    kind: &str,
    parts: &[Term],
) -> Option<Verdict> {
    let wanted = wanted::<K>(alloc, kind, parts.last()?)?;
    match other_than(kinds, alloc, kind, parts, wanted.as_slice())? {
        Some(came) => Some(Verdict::Wrong(wanted, came)),
        None => Some(Verdict::Right),
    }
}

/// Compares the results of a row with the expected one, or returns `None` if the term is not a row.
fn verdict_of<K: Kinds>(kinds: &K, alloc: Global, row: &Term) -> Option<Verdict> {
    let parts = parts_of(row)?;
    verdict_in_forms(kinds, alloc, kind_of(alloc, row)?.as_str(), parts)
}

/// Appends a line with a word and the first 2,000 bytes of a text.
fn show(out: &mut Vec<u8>, word: &str, text: &[u8]) -> Result<(), AllocError> {
    out.extend_from_slice(word.as_bytes())?;
    out.extend_from_slice(&text[..text.len().min(SHOWN)])?;
    out.extend_from_slice(b"\n")
}

/// Appends a row that is not right.
fn show_row(alloc: Global, out: &mut Vec<u8>, row: &Term) -> Result<(), AllocError> {
    match canonical(alloc, row) {
        Some(text) => show(out, "failed: ", text.as_slice()),
        None => show(out, "failed: out of memory", b""),
    }
}

/// Appends the message about a row, or nothing if it is right.
fn show_verdict(
    alloc: Global,
    out: &mut Vec<u8>,
    row: &Term,
    verdict: Verdict,
) -> Result<(), AllocError> {
    match verdict {
        Verdict::Right => Ok(()),
        Verdict::Unknown => {
            show_row(alloc, out, row)?;
            show(out, "  not understood", b"")
        }
        Verdict::Wrong(wanted, came) => {
            show_row(alloc, out, row)?;
            show(out, "  wanted: ", wanted.as_slice())?;
            show(out, "  came:   ", came.as_slice())
        }
    }
}

/// Compares the results of a row, appends the message about it, and counts it.
fn judge_row<K: Kinds>(
    kinds: &K,
    alloc: Global,
    out: &mut Vec<u8>,
    tally: &mut Tally,
    row: &Term,
) -> Result<(), AllocError> {
    let verdict = match verdict_of(kinds, alloc, row) {
        Some(verdict) => verdict,
        None => Verdict::Unknown,
    };
    tally.count(matches!(verdict, Verdict::Right));
    if let Some(kind) = kind_of(alloc, row) {
        tally.count_kind(kind)?;
    }
    show_verdict(alloc, out, row, verdict)
}

/// Compares the results of each of these rows.
fn judge_rows<K: Kinds>(kinds: &K, alloc: Global, rows: &[Term]) -> Result<Report, AllocError> {
    let mut out = Vec::new(alloc);
    let mut tally = Tally::new(alloc);
    for row in rows {
        judge_row(kinds, alloc, &mut out, &mut tally, row)?;
    }
    tally.write(alloc, &mut out)?;
    Ok(Report {
        text: out,
        is_right: tally.failed() == 0,
    })
}

/// Compares the results of the rows of a text. A text that can't be read is reported as not right.
fn judge<K: Kinds>(kinds: &K, alloc: Global, text: &[u8]) -> Result<Report, AllocError> {
    match read_terms(alloc, text) {
        Ok(rows) => {
            let report = judge_rows(kinds, alloc, rows.as_slice());
            drop(rows);
            report
        }
        Err(fault) => Ok(Report {
            text: format!(in alloc; "the rows can't be read: {fault}\n")?.into_bytes(),
            is_right: false,
        }),
    }
}

/// Reads rows up to the reader's end, compares their results, and writes the messages about them and the counts.
/// Returns success if all rows are right. Fails if memory runs out, or the reader or the writer fails.
pub fn judge_streams<K: Kinds, R: Read, W: Write>(
    kinds: &K,
    alloc: Global,
    reader: &mut R,
    writer: &mut W,
) -> io::Result<ExitCode> {
    let mut rows = Vec::new(alloc);
    reader.read_to_end(&mut rows)?;
    let report = judge(kinds, alloc, rows.as_slice())?;
    writer.write_all(report.text.as_slice())?;
    Ok(if report.is_right {
        ExitCode::SUCCESS
    } else {
        ExitCode::FAILURE
    })
}
