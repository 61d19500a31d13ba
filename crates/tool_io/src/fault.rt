//! Why a command ends without its whole answer, and the error line that reports it.
ghost use Rattle.std.specs.Prelude.{◌≡◌, ◌++◌, IfOk, OnOk, OnErr, option_map};
ghost use Rattle.std.specs.Fmt.{decimal};
ghost use Rattle.std.specs.List.{flat_map};
ghost use Rattle.std.specs.Option.{option_to_list};
ghost use Rattle.tool_io.specs.Fault.{number_of, arguments_of, arguments_of_code, routine_of, status_by, status_of};
ghost use Rattle.tool_io.specs.Fault.{argument_text, line_of};

use crate::numbers::{BAD_INPUT, READ_FAILED, WRITE_FAILED};
use code_file::FileFault;
use mspec_syntax::SpecFault;
use part_core::OpenFault;
use std::alloc::{AllocError, Allocator};
use term_text::TextFault;
use thiserror::Error;
use verifier::BodyFault;

/// Why a command ends without its whole answer.
#[derive(Clone, Copy, Debug, PartialEq, Eq, Error)]
pub enum ToolFault {
    /// An allocation failed.
    #[error("out of memory")]
    Memory,
    /// The input does not spell terms.
    #[error("{0}")]
    Text(TextFault),
    /// The input does not have the terms that the command reads.
    #[error("other terms than the command reads")]
    BadInput,
    /// The first term is no specification.
    #[error("{0}")]
    Specification(SpecFault),
    /// The first term is no code file.
    #[error("{0}")]
    File(FileFault),
    /// The first term is a code file whose code does not pass the verifier: the fault, and the number of the body that
    /// has it.
    #[error("{0}")]
    Code(verifier::Fault, u16),
    /// A term is not an object of the table: no tuple, or one without an element at the key position.
    #[error("a term is no object of the table")]
    TooSmall,
    /// A number among the options is outside its range.
    #[error("an option is outside its range")]
    BadOptions,
    /// The reader failed, or did not end.
    #[error("the input can't be read")]
    ReadFailed,
    /// The writer failed.
    #[error("the output can't be written")]
    WriteFailed,
}

impl From<AllocError> for ToolFault {
    ghost use Rattle.std.specs.Prelude.{◌≡◌};
    ghost use Rattle.tool_io.specs.declared.fault.ToolFault.TheVariants.{Memory};

    ghost from_gives = { λ _ fault. fault ≡ Memory };

    fn from(_: AllocError) -> Self {
        ToolFault::Memory
    }
}

impl From<TextFault> for ToolFault {
    ghost use Rattle.std.specs.Prelude.{◌≡◌};
    ghost use Rattle.tool_io.specs.Wrapped.{of_text};

    ghost from_gives = { λ given fault. fault ≡ of_text given };

    fn from(fault: TextFault) -> Self {
        match fault {
            TextFault::Memory => ToolFault::Memory,
            fault => ToolFault::Text(fault),
        }
    }
}

impl From<SpecFault> for ToolFault {
    ghost use Rattle.std.specs.Prelude.{◌≡◌};
    ghost use Rattle.tool_io.specs.Wrapped.{of_specification};

    ghost from_gives = { λ given fault. fault ≡ of_specification given };

    fn from(fault: SpecFault) -> Self {
        match fault {
            SpecFault::Memory => ToolFault::Memory,
            fault => ToolFault::Specification(fault),
        }
    }
}

impl From<FileFault> for ToolFault {
    ghost use Rattle.std.specs.Prelude.{◌≡◌};
    ghost use Rattle.tool_io.specs.Wrapped.{of_file};

    ghost from_gives = { λ given fault. fault ≡ of_file given };

    fn from(fault: FileFault) -> Self {
        match fault {
            FileFault::Memory => ToolFault::Memory,
            fault => ToolFault::File(fault),
        }
    }
}

impl From<BodyFault> for ToolFault {
    ghost use Rattle.std.specs.Prelude.{◌≡◌};
    ghost use Rattle.tool_io.specs.Wrapped.{of_code};

    ghost from_gives = { λ given fault. fault ≡ of_code given.fault given.body };

    fn from(fault: BodyFault) -> Self {
        match fault.fault {
            verifier::Fault::Memory => ToolFault::Memory,
            found => ToolFault::Code(found, fault.body),
        }
    }
}

/// Returns the arguments that follow the error code of a fault of code: the instruction, then the body unless it is the
/// main one (0). Where no instruction is at fault, returns the body alone.
fn code_arguments(pc: Option<u16>, body: u16) -> (Option<u64>, Option<u64>)
    ensures { option_to_list result.0 ++ option_to_list result.1 ≡ arguments_of_code pc body }
{
    match pc {
        None => (Some(u64::from(body)), None),
        Some(pc) => (Some(u64::from(pc)), routine_argument(body)),
    }
}

/// Returns the number of a body, or `None` for the main body (0), which the error line leaves out.
fn routine_argument(body: u16) -> Option<u64>
    ensures { option_to_list result ≡ routine_of body }
{
    match body {
        0 => None,
        body => Some(u64::from(body)),
    }
}

impl ToolFault {
    /// Returns the error code, as in `E16`.
    pub fn number(self) -> u8
        ensures { result ≡ number_of self }
    {
        match self {
            ToolFault::Memory => 1,
            ToolFault::Text(fault) => fault.number(),
            ToolFault::BadInput => BAD_INPUT,
            ToolFault::Specification(fault) => fault.number(),
            ToolFault::File(fault) => fault.number(),
            ToolFault::Code(fault, _) => fault.number(),
            ToolFault::TooSmall => part_core::Fault::TooSmall.number(),
            ToolFault::BadOptions => OpenFault::BadOptions.number(),
            ToolFault::ReadFailed => READ_FAILED,
            ToolFault::WriteFailed => WRITE_FAILED,
        }
    }

    /// Returns the exit status of a command that ends with this fault: 3 if the fault is out of memory, 4 if reading or
    /// writing failed, else 2.
    pub fn status(self) -> u8
        ensures { result ≡ status_of self }
    {
        status_of_number(self.number())
    }

    /// Returns up to two arguments that follow the error code: a byte offset in the text or in the file; or an
    /// instruction and its body (left out if it is the main one), or a body alone; or a clause and a variable.
    pub fn arguments(self) -> (Option<u64>, Option<u64>)
        ensures { option_to_list result.0 ++ option_to_list result.1 ≡ arguments_of self }
    {
        match self {
            ToolFault::Text(fault) => (fault.at().map(|at| at as u64), None),
            ToolFault::Specification(fault) => (
                fault.clause().map(|clause| clause as u64),
                fault.variable().map(u64::from),
            ),
            ToolFault::File(fault) => (fault.at().map(|at| at as u64), None),
            ToolFault::Code(fault, body) => code_arguments(fault.pc(), body),
            ToolFault::Memory
            | ToolFault::BadInput
            | ToolFault::TooSmall
            | ToolFault::BadOptions
            | ToolFault::ReadFailed
            | ToolFault::WriteFailed => (None, None),
        }
    }
}

/// Appends the error line to `out`, for example `error E16 0 3` (error code and arguments). Fails if an allocation
/// fails; `out` is then unchanged.
pub fn fault_line<A: Allocator + Copy>(
    alloc: A,
    fault: &ToolFault,
    out: &mut Vec<u8, A>,
) -> Result<(), AllocError>
    ensures ok { OnOk result (out.new.items ≡ out.old.items ++ line_of fault.now) }
    ensures err { OnErr result (out.new.items ≡ out.old.items) }
{
    let line = line_text(alloc, *fault)?;
    out.extend_from_slice(line.as_slice())
}

/// Returns the exit status for an error code: 3 for 1 (out of memory), 4 for 70 and above (reading or writing failed),
/// else 2.
fn status_of_number(number: u8) -> u8
    ensures { result ≡ status_by number }
{
    match number {
        1 => 3,
        READ_FAILED.. => 4,
        _ => 2,
    }
}

/// Returns the error line of a fault: the error code, its arguments and a line feed.
fn line_text<A: Allocator + Copy>(alloc: A, fault: ToolFault) -> Result<Vec<u8, A>, AllocError>
    ensures { IfOk result (λ v. v.items ≡ line_of fault) }
{
    let mut line = Vec::from_slice(alloc, b"error E")?;
    push_number(alloc, &mut line, u64::from(fault.number()))?;
    let (first, second) = fault.arguments();
    push_argument(alloc, &mut line, first)?;
    push_argument(alloc, &mut line, second)?;
    line.push(b'\n')?;
    Ok(line)
}

/// Appends a blank and the argument, or nothing if it is `None`. `line` may have changed if an allocation fails.
fn push_argument<A: Allocator + Copy>(
    alloc: A,
    line: &mut Vec<u8, A>,
    argument: Option<u64>,
) -> Result<(), AllocError>
    ensures { OnOk result (line.new.items
        ≡ line.old.items ++ flat_map argument_text (option_to_list argument)) }
{
    if let Some(number) = argument {
        line.push(b' ')?;
        push_number(alloc, line, number)?;
    }
    Ok(())
}

/// Appends the decimal digits of a number.
fn push_number<A: Allocator + Copy>(
    alloc: A,
    line: &mut Vec<u8, A>,
    number: u64,
) -> Result<(), AllocError>
    ensures { OnOk result (line.new.items ≡ line.old.items ++ decimal number) }
{
    let digits = number.to_string(alloc)?;
    line.extend_from_slice(digits.as_bytes())
}
