//! What a fault means, for readers of its error line.
ghost use Rattle.std.specs.Prelude.{ℕ, ◌≡◌, ◌++◌, List, IfOk, OnOk, OnErr};
ghost use Rattle.tool_cli.specs.Why.{place_in, lines_at, Explains};

use crate::place::put_place;
use crate::telling::shown;
use std::alloc::{AllocError, Allocator};
use tool_io::ToolFault;

/// Appends what a fault of this input means: a text of one line. If a byte of the input is at fault, the numbers of its
/// line and column, that line, and a caret under the byte follow. If an allocation fails, `out` is unchanged.
#[tactic(auto, using(crate::proofs::WhyLemmas::is_put))]
pub(crate) fn put_meaning<A: Allocator + Copy>(
    alloc: A,
    fault: &ToolFault,
    input: &[u8],
    out: &mut Vec<u8, A>,
) -> Result<(), AllocError>
    ensures ok { OnOk result ((told : List ℕ) × Explains input.now fault.now told
        × (out.new.items ≡ out.old.items ++ told)) }
    ensures err { OnErr result (out.new.items ≡ out.old.items) }
{
    let meaning = meaning(alloc, fault, input)?;
    out.extend_from_slice(meaning.as_slice())
}

/// Returns what a fault of this input means, as lines.
#[tactic(auto, using(crate::proofs::WhyLemmas::explains))]
fn meaning<A: Allocator + Copy>(
    alloc: A,
    fault: &ToolFault,
    input: &[u8],
) -> Result<Vec<u8, A>, AllocError>
    ensures { IfOk result (λ v. Explains input.now fault.now v.items) }
{
    let text = fault.to_string(alloc)?;
    let mut meaning = Vec::from_slice(alloc, shown(&text))?;
    meaning.push(b'\n')?;
    put_place_of(alloc, fault, input, &mut meaning)?;
    Ok(meaning)
}

/// Appends the place of the byte that a fault names, or nothing if it names none.
fn put_place_of<A: Allocator + Copy>(
    alloc: A,
    fault: &ToolFault,
    input: &[u8],
    out: &mut Vec<u8, A>,
) -> Result<(), AllocError>
    ensures { OnOk result (out.new.items
        ≡ out.old.items ++ lines_at input.now (place_in fault.now)) }
{
    match place_in(*fault) {
        Some(at) => put_place(alloc, input, at, out),
        None => Ok(()),
    }
}

/// Returns the byte of the input that a fault names, or `None`.
fn place_in(fault: ToolFault) -> Option<usize>
    ensures { result ≡ place_in fault }
{
    match fault {
        ToolFault::Text(fault) => fault.at(),
        _ => None,
    }
}
