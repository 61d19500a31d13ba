//! Reading whole code files.
ghost use Rattle.std.specs.Prelude.{◌≡◌, ◌≢◌, IfOk, IfErr};
ghost use Rattle.mcode.specs.Program.{alone};
ghost use Rattle.code_writer.specs.Formats.{plain_format, plain_parts, code_format, code_parts};
ghost use Rattle.code_writer.specs.File.{Spells, version, routine_version};
ghost use Rattle.code_file.specs.Due.Item.{a_plain_code, a_code};
ghost use Rattle.code_file.specs.Reads.{Reads, Blames};
ghost use Rattle.code_file.specs.Faults.{IsNoFile, IsHeader, IsRead};
ghost use Rattle.code_file.specs.declared.fault.FileFault.TheVariants.{Memory as OutOfMemory};

use crate::body::{builder_of, read_constants, read_main, read_parts};
use crate::count::{read_body_count, read_slot_count};
use crate::fault::FileFault;
use crate::header::{file_fault, read_version};
use crate::routine::read_routines;
use crate::stop::FileStop;
use code_writer::MAX_PLAIN_OPCODE;
use mcode::Code;
use std::alloc::Allocator;

/// The version of the format for code without routines.
const PLAIN_VERSION: u16 = 1;
/// The version of the format for code with routines.
const ROUTINE_VERSION: u16 = 2;

/// Reads code without routines, after the version.
fn read_plain<A: Allocator + Copy>(alloc: A, bytes: &[u8]) -> Result<(Code<A>, &[u8]), FileStop>
    ensures code { Reads plain_format (Blames a_plain_code bytes.now)
        (λ r. (plain_parts r.0, r.1.now)) bytes.now result }
    ensures alone { IfOk result (λ r. r.0.around ≡ alone) }
{
    let (slots, rest) = read_slot_count(bytes)?;
    let (constants, rest) = read_constants(alloc, rest)?;
    let mut builder = builder_of(alloc, slots, constants)?;
    let rest = read_parts(alloc, MAX_PLAIN_OPCODE, &mut builder, rest)?;
    Ok((builder.finish(), rest))
}

/// Reads code with routines, after the version.
fn read_code<A: Allocator + Copy>(alloc: A, bytes: &[u8]) -> Result<(Code<A>, &[u8]), FileStop>
    ensures { Reads code_format (Blames a_code bytes.now) (λ r. (code_parts r.0, r.1.now))
        bytes.now result }
{
    let (constants, rest) = read_constants(alloc, bytes)?;
    let (count, rest) = read_body_count(rest)?;
    let (mut builder, rest) = read_main(alloc, constants, rest)?;
    let rest = read_routines(alloc, &mut builder, count - 1, rest)?;
    Ok((builder.finish(), rest))
}

/// Returns the code that was read from a file. Fails with `Trailing` if bytes follow it.
fn whole<A: Allocator>(code: Code<A>, bytes: &[u8], rest: &[u8]) -> Result<Code<A>, FileFault>
    requires { IsRead bytes.now code rest.now }
    ensures ok { IfOk result (λ c. Spells bytes.now c) }
    ensures refused { IfErr result (λ fault. IsNoFile bytes.now fault) }
{
    if rest.is_empty() {
        return Ok(code);
    }
    Err(FileFault::Trailing(bytes.len().saturating_sub(rest.len())))
}

/// Reads a file without routines. `rest` is what follows the version.
fn decode_plain<A: Allocator + Copy>(
    alloc: A,
    bytes: &[u8],
    rest: &[u8],
) -> Result<Code<A>, FileFault>
    requires { IsHeader bytes.now version rest.now }
    ensures ok { IfOk result (λ code. Spells bytes.now code) }
    ensures refused { IfErr result (λ fault. fault ≢ OutOfMemory → IsNoFile bytes.now fault) }
{
    match read_plain(alloc, rest) {
        Ok((code, more)) => {
            // The proof needs this read: code is within its limits.
            let _routines = code.routines();
            whole(code, bytes, more)
        }
        Err(stop) => Err(file_fault(stop, bytes.len())),
    }
}

/// Reads a file with routines. `rest` is what follows the version.
fn decode_code<A: Allocator + Copy>(
    alloc: A,
    bytes: &[u8],
    rest: &[u8],
) -> Result<Code<A>, FileFault>
    requires { IsHeader bytes.now routine_version rest.now }
    ensures ok { IfOk result (λ code. Spells bytes.now code) }
    ensures refused { IfErr result (λ fault. fault ≢ OutOfMemory → IsNoFile bytes.now fault) }
{
    match read_code(alloc, rest) {
        Ok((code, more)) => {
            // The proof needs this read: code is within its limits.
            let _routines = code.routines();
            whole(code, bytes, more)
        }
        Err(stop) => Err(file_fault(stop, bytes.len())),
    }
}

/// Reads the code of a file. The bytes may come from anywhere; nothing about them is assumed. A count in a file is not
/// trusted: memory grows with the items that were read. Fails if the bytes are not the file of any code, or with
/// `FileFault::Memory` if an allocation fails.
pub fn decode<A: Allocator + Copy>(alloc: A, bytes: &[u8]) -> Result<Code<A>, FileFault>
    ensures ok { IfOk result (λ code. Spells bytes.now code) }
    ensures refused { IfErr result (λ fault. fault ≢ OutOfMemory → IsNoFile bytes.now fault) }
{
    let (version, rest) = read_version(bytes)?;
    match version {
        PLAIN_VERSION => decode_plain(alloc, bytes, rest),
        ROUTINE_VERSION => decode_code(alloc, bytes, rest),
        _ => Err(FileFault::BadVersion),
    }
}
