//! Which terms are objects.
ghost use Rattle.std.specs.Prelude.{◌≡◌, All, IfErr, OnOk};
ghost use Rattle.tool_scan.specs.Options.{HasNoObject, IsFit};

use crate::options::ScanOptions;
use part_core::key_in;
use std::alloc::Allocator;
use term_core::Term;
use tool_io::ToolFault;

/// Checks that all these terms are objects of the table. Fails with `TooSmall` if one is not.
pub(crate) fn check_objects<A: Allocator>(
    options: ScanOptions,
    terms: &[Term<A>],
) -> Result<(), ToolFault>
    ensures ok { OnOk result (All (IsFit options) terms.now) }
    ensures refused { IfErr result (λ fault. (fault ≡ ToolFault.TooSmall) × HasNoObject options terms.now) }
{
    for term in terms {
        let Some(_) = key_in(options.keypos, term) else {
            return Err(ToolFault::TooSmall);
        };
    }
    Ok(())
}
