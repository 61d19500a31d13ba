//! The time that a code file takes: to be read, to be written, and to be verified.
use crate::largest::budget_of;
use crate::timing::since;
use code_file::{decode, encode};
use mcode::Code;
use std::alloc::Global;
use std::time::Instant;

/// Returns the size of the file of code in bytes.
fn encoded(alloc: Global, code: &Code) -> Option<usize> {
    Some(encode(alloc, code).ok()?.len())
}

/// Writes the line with the time of encoding.
fn write_encoding(rt: &HostRuntime, code: &Code, lines: &mut String) -> Option<()> {
    let began = Instant::now(rt).ok()?;
    let bytes = encoded(rt.alloc(), code)?;
    let took = since(rt, began)?;
    writeln!(lines, "encode {took} ns, {bytes} bytes").ok()
}

/// Writes the line with the time of verifying.
fn write_verification(rt: &HostRuntime, code: Code, lines: &mut String) -> Option<()> {
    let began = Instant::now(rt).ok()?;
    let budget = budget_of(rt.alloc(), code);
    let took = since(rt, began)?;
    match budget {
        Some(budget) => writeln!(lines, "verify {took} ns, budget {budget}").ok(),
        None => writeln!(lines, "verify {took} ns, refused").ok(),
    }
}

/// Writes the lines for code that was decoded.
fn write_code(rt: &HostRuntime, code: Code, lines: &mut String) -> Option<()> {
    write_encoding(rt, &code, lines)?;
    write_verification(rt, code, lines)
}

/// Writes the nanoseconds that a file takes to be decoded, with those that its code takes to be encoded and to be
/// verified. Also writes the bytes of the file and the budget of the code. If the file or the code is rejected, writes
/// that it is.
pub(crate) fn write(rt: &HostRuntime, file: &[u8], lines: &mut String) -> Option<()> {
    let began = Instant::now(rt).ok()?;
    let decoded = decode(rt.alloc(), file);
    let took = since(rt, began)?;
    match decoded {
        Ok(code) => {
            writeln!(lines, "decode {took} ns").ok()?;
            write_code(rt, code, lines)
        }
        Err(_fault) => writeln!(lines, "decode {took} ns, refused").ok(),
    }
}
