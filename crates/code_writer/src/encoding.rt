//! Writing whole code files.
ghost use Rattle.std.specs.Prelude.{◌≡◌, ◌≢◌, ◌++◌, [], IfOk, OnOk};
ghost use Rattle.code_writer.specs.Spelling.{u16_bytes};
ghost use Rattle.code_writer.specs.File.{HasFile, Spells, IsFileOf, magic};

use crate::constant::put_constants;
use crate::number::put_u16;
use crate::routine::{put_parts, put_routines};
use mcode::Code;
use std::alloc::{AllocError, Allocator};

/// The version of the format for code without routines.
const PLAIN_VERSION: u16 = 1;
/// The version of the format for code with routines.
const ROUTINE_VERSION: u16 = 2;

/// Appends the magic, EMSC in ASCII, and the version.
fn put_header<A: Allocator>(version: u16, out: &mut Vec<u8, A>) -> Result<(), AllocError>
    ensures { OnOk result (out.new.items ≡ out.old.items ++ (magic ++ u16_bytes version)) }
{
    out.extend_from_slice(b"EMSC")?;
    put_u16(version, out)
}

/// Writes the file of code without routines to `out`, which is empty.
fn put_plain<A: Allocator, B: Allocator>(
    code: &Code<A>,
    out: &mut Vec<u8, B>,
) -> Result<(), AllocError>
    requires none { code.now.around.routines ≡ [] }
    requires empty { out.old.items ≡ [] }
    ensures { OnOk result (IsFileOf code.now out.new.items) }
{
    put_header(PLAIN_VERSION, out)?;
    put_u16(code.slots(), out)?;
    put_constants(code.constants(), out)?;
    put_parts(code.instructions(), code.frames(), out)
}

/// Writes the file of code with routines to `out`, which is empty.
fn put_code<A: Allocator, B: Allocator>(
    code: &Code<A>,
    out: &mut Vec<u8, B>,
) -> Result<(), AllocError>
    requires some { code.now.around.routines ≢ [] }
    requires empty { out.old.items ≡ [] }
    ensures { OnOk result (IsFileOf code.now out.new.items) }
{
    let routines = code.routines();
    put_header(ROUTINE_VERSION, out)?;
    put_constants(code.constants(), out)?;
    put_u16(routines.len() as u16 + 1, out)?;
    put_u16(code.slots(), out)?;
    put_parts(code.instructions(), code.frames(), out)?;
    put_routines(routines, out)?;
    Ok(())
}

/// Returns the one code file of this code. Fails if an allocation fails. Code without routines that has an instruction
/// that only code with routines may have has no file: readers reject the bytes that are returned for it, which have the
/// form of a file otherwise, as `verify` rejects the code.
#[tactic(auto, using(crate::proofs::FileLemmas::file_spells))]
pub fn encode<A: Allocator + Copy>(alloc: A, code: &Code<A>) -> Result<Vec<u8, A>, AllocError>
    ensures ok { IfOk result (λ bytes. HasFile code.now → Spells bytes.items code.now) }
    ensures file { IfOk result (λ bytes. IsFileOf code.now bytes.items) }
{
    let mut file = Vec::new(alloc);
    if code.routines().is_empty() {
        put_plain(code, &mut file)?;
        return Ok(file);
    }
    put_code(code, &mut file)?;
    Ok(file)
}
