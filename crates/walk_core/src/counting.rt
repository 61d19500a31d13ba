//! Visits that count.
ghost use Rattle.std.specs.Prelude.{◌≡◌};
ghost use Rattle.part_core.specs.Acts.Act.{Visit};
ghost use Rattle.part_core.specs.Ops.{act_of, scope_of};
ghost use Rattle.part_core.specs.Replies.{most_counted};
ghost use Rattle.walk_core.specs.Counting.{purpose_of};

use part_core::{Look, PartOp, Scope};
use std::alloc::Allocator;
use verifier::Verified;

/// What a visit does with the objects for which the query returns `true`.
#[derive(Clone, Copy)]
pub enum Counting {
    /// Count them.
    Count,
    /// Delete and count them.
    Delete,
}

/// Returns the operation at a part that counts or deletes, with a target of 2^64 - 1.
pub fn count_op<'q, A: Allocator>(
    counting: Counting,
    code: &'q Verified<A>,
    scope: Scope<'q, A>,
) -> PartOp<'q, A>
    ensures { act_of result ≡ Visit (purpose_of counting) code.now (scope_of scope.entry) most_counted }
{
    let look = Look {
        code,
        scope,
        wanted: u64::MAX,
    };
    match counting {
        Counting::Count => PartOp::VisitCount(look),
        Counting::Delete => PartOp::VisitDelete(look),
    }
}
