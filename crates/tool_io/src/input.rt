//! Input, read whole.
ghost use Rattle.std.specs.Prelude.{◌≡◌, ◌≢◌, ◌<◌, ◌≤◌, ◌+◌, ◌-◌, ◌*◌, length};
ghost use Rattle.std.specs.Prelude.{IfOk, IfErr, IfSome, OnOk, Ok, Err};
ghost use Rattle.std.specs.IoError.{error_kind};
ghost use Rattle.tool_io.specs.Input.{Continues, IsReadFault};

use crate::fault::ToolFault;
use std::alloc::Allocator;
use std::io::{self, ErrorKind, Read};

/// How many bytes one read requests at most.
const READ_SIZE: usize = 65_536;

/// Whether the input has more to read.
#[derive(Clone, Copy, Debug, PartialEq, Eq)]
enum Progress {
    More,
    End,
}

/// Returns how many reads `read_whole` makes at most: 2^32 - 1.
pub const fn most_reads() -> u32
    ensures { result ≡ 4294967295 }
{
    u32::MAX
}

/// Reads all that the reader gives, up to its end. Fails with `Memory` if an allocation fails, and with `ReadFailed` if
/// the reader fails or has not ended after `most_reads` reads.
pub fn read_whole<A: Allocator + Copy, R: Read>(
    alloc: A,
    reader: &mut R,
) -> Result<Vec<u8, A>, ToolFault>
    ensures ok { IfOk result (λ v. IfSome (R.remaining reader.old) (λ bytes. v.items ≡ bytes)) }
    ensures failed { IfErr result IsReadFault }
{
    read_within(alloc, most_reads(), reader)
}

/// Reads all that the reader gives, up to its end, with at most `limit` reads of 65,536 bytes each. The read that finds
/// the end counts, and so does an interrupted one. Fails with `Memory` if an allocation fails, and with `ReadFailed` if
/// the reader fails or does not end within the limit.
pub fn read_within<A: Allocator + Copy, R: Read>(
    alloc: A,
    limit: u32,
    reader: &mut R,
) -> Result<Vec<u8, A>, ToolFault>
    ensures ok { IfOk result (λ v. IfSome (R.remaining reader.old) (λ bytes. v.items ≡ bytes)) }
    ensures bounded { IfOk result (λ v. length v.items ≤ 65536 * (limit - 1)) }
    ensures failed { IfErr result IsReadFault }
{
    let mut buffer = read_buffer(alloc)?;
    let mut input = Vec::new(alloc);
    for _read in 0..limit {
        match read_part(reader, buffer.as_mut_slice(), &mut input)? {
            Progress::More => {}
            Progress::End => return Ok(input),
        }
    }
    Err(ToolFault::ReadFailed)
}
/// Allocates the buffer for one read, 65,536 bytes.
fn read_buffer<A: Allocator + Copy>(alloc: A) -> Result<Vec<u8, A>, ToolFault>
    ensures room { IfOk result (λ v. length v.items ≡ 65536) }
    ensures failed { IfErr result (λ fault. fault ≡ ToolFault.Memory) }
{
    let size = READ_SIZE;
    Ok(vec![in alloc; 0u8; size]?)
}

/// Reads once, and appends to `input` what the reader gave. An interrupted read appends nothing and returns `More`.
fn read_part<A: Allocator, R: Read>(
    reader: &mut R,
    buffer: &mut [u8],
    input: &mut Vec<u8, A>,
) -> Result<Progress, ToolFault>
    requires { 0 < length buffer.old }
    ensures ok { IfOk result (Continues (R.remaining reader.old) (R.remaining reader.new)
        input.old.items input.new.items) }
    ensures bounded { OnOk result (length input.new.items
        ≤ length input.old.items + length buffer.old) }
    ensures ended { IfOk result (λ progress.
        progress ≡ Progress.End → input.new.items ≡ input.old.items) }
    ensures failed { IfErr result IsReadFault }
{
    match reader.read(buffer) {
        Ok(0) => Ok(Progress::End),
        Ok(count) => {
            input.extend_from_slice(&buffer[..count])?;
            Ok(Progress::More)
        }
        Err(error) => progress_after(&error),
    }
}

/// Returns whether to go on after a read that failed: `More` if it was interrupted, so that it is tried again, else
/// `ReadFailed`.
fn progress_after(error: &io::Error) -> Result<Progress, ToolFault>
    ensures retried { error_kind error.now ≡ ErrorKind.Interrupted → result ≡ Ok Progress.More }
    ensures failed { error_kind error.now ≢ ErrorKind.Interrupted
        → result ≡ Err ToolFault.ReadFailed }
{
    if error.kind() == ErrorKind::Interrupted {
        return Ok(Progress::More);
    }
    Err(ToolFault::ReadFailed)
}
