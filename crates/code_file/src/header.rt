//! The beginning of a code file: the magic and the version.
ghost use Rattle.std.specs.Prelude.{◌≡◌, ◌≢◌, ◌++◌, IfOk, IfErr};
ghost use Rattle.code_writer.specs.File.{magic};
ghost use Rattle.code_file.specs.Faults.{IsNoFile, IsHeader, fault_of};
ghost use Rattle.code_file.specs.declared.fault.FileFault.TheVariants.{Memory as OutOfMemory};

use crate::fault::FileFault;
use crate::number::read_u16;
use crate::stop::{FileCause, FileStop};

/// The magic, EMSC in ASCII, with which each code file begins.
const MAGIC: [u8; 4] = [69, 77, 83, 67];
/// Returns the fault for a stop in a file of this size.
pub(crate) fn file_fault(stop: FileStop, size: usize) -> FileFault
    ensures { result ≡ fault_of stop size }
{
    let FileStop::At(cause, left) = stop else {
        return FileFault::Memory;
    };
    let at = size.saturating_sub(left);
    match cause {
        FileCause::Truncated => FileFault::Truncated(at),
        FileCause::BadOpcode => FileFault::BadOpcode(at),
        FileCause::NotCanonical => FileFault::NotCanonical(at),
        FileCause::Limit => FileFault::Limit,
    }
}

/// Returns what follows the magic.
fn read_magic(bytes: &[u8]) -> Result<&[u8], FileFault>
    ensures ok { IfOk result (λ rest. bytes.now ≡ magic ++ rest.now) }
    ensures refused { IfErr result (λ fault. IsNoFile bytes.now fault) }
{
    let (front, rest) = bytes.split_at(bytes.len().min(4));
    if !MAGIC.starts_with(front) {
        return Err(FileFault::BadMagic);
    }
    if bytes.len() < 4 {
        return Err(FileFault::Truncated(bytes.len()));
    }
    Ok(rest)
}

/// Returns the version and what follows it.
pub(crate) fn read_version(bytes: &[u8]) -> Result<(u16, &[u8]), FileFault>
    ensures ok { IfOk result (λ r. IsHeader bytes.now r.0 r.1.now) }
    ensures refused { IfErr result (λ fault. fault ≢ OutOfMemory → IsNoFile bytes.now fault) }
{
    let rest = read_magic(bytes)?;
    match read_u16(rest) {
        Ok(read) => Ok(read),
        Err(stop) => Err(file_fault(stop, bytes.len())),
    }
}
