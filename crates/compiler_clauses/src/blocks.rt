//! The blocks of a specification.
ghost use Rattle.std.specs.Prelude.{◌≡◌, IfOk};
ghost use Rattle.mspec_syntax.specs.Specification.{specification_variables};
ghost use Rattle.compiler_clauses.specs.Clauses.{end_block, blocks_of};

use crate::clause::write_clause;
use compiler_assembly::{Block, Lines, Op};
use mcode::Slots;
use mspec_syntax::Spec;
use std::alloc::{AllocError, Allocator};

/// Returns the block of the end, if no clause answers. Fails if an allocation fails.
fn write_end<A: Allocator + Copy>(alloc: A) -> Result<Block<A>, AllocError>
    ensures { IfOk result (λ block. block ≡ end_block) }
{
    let mut lines = Lines::new(alloc);
    lines.prepend(Op::NoAnswer, None)?;
    Ok(Block::new(Slots::new(Vec::new(alloc)), lines))
}

/// Returns the blocks of a specification's code, one for each clause and one for the end. Assembled over as many slots
/// as the specification has variables, they are its code. Fails if an allocation fails.
pub fn write_blocks<A: Allocator + Copy>(
    alloc: A,
    specification: &Spec<A>,
) -> Result<Vec<Block<A>, A>, AllocError>
    ensures { IfOk result (λ blocks. blocks.items
        ≡ blocks_of (specification_variables specification.now) specification.now) }
{
    let slots = specification.variables();
    let mut blocks = Vec::new(alloc);
    for clause in specification.clauses() {
        blocks.push(write_clause(alloc, slots, clause)?)?;
    }
    blocks.push(write_end(alloc)?)?;
    Ok(blocks)
}
