//! Code files that are read, verified and run, and code that is encoded as one.
use crate::codes;
use code_file::{FileFault, decode, encode};
use kit_code::{accepted, code_of, is_code, parts_of, ran_each};
use kit_rows::{Outcome, elements, text, word};
use std::alloc::{Allocator, Global};
use term_core::Term;
use verifier::{BodyFault, Verified, verify};

/// Why bytes are not the file of typed code.
#[derive(Clone, Copy)]
pub(crate) enum Refusal {
    /// They are not a code file.
    Unread(FileFault),
    /// The code is not typed.
    Untyped(BodyFault),
}

/// Decodes the code of a file, and verifies it.
pub(crate) fn load<A: Allocator + Copy>(heap: A, bytes: &[u8]) -> Result<Verified<A>, Refusal> {
    let code = match decode(heap, bytes) {
        Ok(code) => code,
        Err(fault) => return Err(Refusal::Unread(fault)),
    };
    match verify(heap, code) {
        Ok(code) => Ok(code),
        Err(refused) => {
            let fault = refused.fault;
            drop(refused);
            Err(Refusal::Untyped(fault))
        }
    }
}

/// Returns the text of the error code of a fault of a file, and of the byte offset that it names, if it names one.
/// Returns `None` if memory ran out.
fn unread(alloc: Global, fault: FileFault) -> Option<Vec<u8>> {
    if fault == FileFault::Memory {
        return None;
    }
    let out = Outcome::tuple(alloc).word("unread");
    let out = out.number(usize::from(fault.number()));
    match fault.at() {
        Some(at) => out.number(at).end(),
        None => out.end(),
    }
}

/// Returns the text of why bytes are not the file of typed code, or `None` if memory ran out.
fn refused(alloc: Global, refusal: Refusal) -> Option<Vec<u8>> {
    match refusal {
        Refusal::Unread(fault) => unread(alloc, fault),
        Refusal::Untyped(told) => codes::refused(alloc, told),
    }
}

/// Returns the text of the budget and depth of code that is accepted, which has to be encoded as these bytes again.
/// Returns `None` if memory runs out.
fn written_again<A: Allocator + Copy>(
    alloc: Global,
    heap: A,
    code: &Verified<A>,
    bytes: &[u8],
) -> Option<Vec<u8>> {
    let file = encode(heap, code.code()).ok()?;
    if file.as_slice() == bytes {
        accepted(alloc, code)
    } else {
        word(alloc, "other_file")
    }
}

/// Returns the text of the result of loading a file. Code that is accepted has to be encoded as this file again.
/// Returns `None` if memory runs out.
pub(crate) fn verdict<A: Allocator + Copy>(
    alloc: Global,
    heap: A,
    bytes: &[u8],
) -> Option<Vec<u8>> {
    match load(heap, bytes) {
        Ok(code) => {
            let text = written_again(alloc, heap, &code, bytes);
            drop(code);
            text
        }
        Err(refusal) => refused(alloc, refusal),
    }
}

/// Returns the texts of the answers of the code of a file on each of these objects, or of why the file is rejected.
fn answers(alloc: Global, bytes: &[u8], objects: &[Term]) -> Option<Vec<u8>> {
    match load(alloc, bytes) {
        Ok(code) => {
            let text = ran_each(alloc, &code, objects);
            drop(code);
            text
        }
        Err(refusal) => refused(alloc, refusal),
    }
}

/// Returns the file of the code that a term describes, or `None` if memory runs out.
fn file_of<A: Allocator + Copy>(heap: A, term: &Term<A>) -> Option<Vec<u8, A>> {
    let code = code_of(heap, term)?;
    let file = encode(heap, &code).ok();
    drop(code);
    file
}

/// Returns whether bytes are decoded as code with the parts that a term describes, or `None` if memory runs out.
fn is_read_as<A: Allocator + Copy>(heap: A, bytes: &[u8], term: &Term<A>) -> Option<bool> {
    let read = decode(heap, bytes).ok();
    let (read, parts) = read.zip(parts_of(heap, term))?;
    let is_so = is_code(&read, &parts);
    drop(read);
    drop(parts);
    Some(is_so)
}

/// Returns the text of whether code is encoded as these bytes, and these bytes are decoded as code with the same parts.
/// Returns `None` if memory runs out.
pub(crate) fn encoded<A: Allocator + Copy>(
    alloc: Global,
    heap: A,
    code: &Term<A>,
    bytes: &[u8],
) -> Option<Vec<u8>> {
    let file = file_of(heap, code)?;
    if file.as_slice() != bytes {
        return word(alloc, "other_file");
    }
    if is_read_as(heap, bytes, code)? {
        word(alloc, "same")
    } else {
        word(alloc, "other_code")
    }
}

/// Returns the result of a row of files, or `None` if there is no such row.
pub(crate) fn came(alloc: Global, kind: &str, parts: &[Term]) -> Option<Vec<u8>> {
    match (kind, parts) {
        ("file", [file, _]) => verdict(alloc, alloc, text(alloc, file)?.as_slice()),
        ("file_each", [file, objects, _]) => {
            answers(alloc, text(alloc, file)?.as_slice(), elements(objects)?)
        }
        ("encoded", [code, file, _]) => {
            encoded(alloc, alloc, code, text(alloc, file)?.as_slice())
        }
        _ => None,
    }
}
