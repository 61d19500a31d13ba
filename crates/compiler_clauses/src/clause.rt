//! Clauses.
ghost use Rattle.std.specs.Prelude.{◌≡◌, ◌≤◌, length, map, IfOk};
ghost use Rattle.mcode.specs.Program.{most_slots};
ghost use Rattle.mspec_syntax.specs.Rising.{rank_of};
ghost use Rattle.compiler_expressions.specs.Writable.{IsSoundSite};
ghost use Rattle.compiler_clauses.specs.Clauses.{site_of, clause_block};
ghost use Rattle.compiler_clauses.specs.Writable.{AreAmong, IsWritableClause};

use crate::parts::{write_body, write_conditions};
use compiler_assembly::{Block, Lines};
use compiler_expressions::Site;
use compiler_patterns::write_head;
use mcode::Slots;
use mspec_syntax::{Clause, Mode, Variables};
use std::alloc::{AllocError, Allocator};

/// The number of lines that most clauses don't exceed.
const MOST: usize = 32;

/// Returns the slots of the variables of a clause: their ranks among those of the specification. Fails if an allocation
/// fails.
fn write_slots<A: Allocator + Copy>(
    alloc: A,
    slots: &Variables<A>,
    bound: &Variables<A>,
) -> Result<Slots<A>, AllocError>
    requires count { length slots.now ≤ most_slots }
    requires bound { AreAmong bound.now slots.now }
    ensures { IfOk result (λ ranks. ranks ≡ map (rank_of slots.now) bound.now) }
{
    let mut ranks = Vec::with_capacity(alloc, bound.len())?;
    for number in bound.numbers() {
        let rank = slots.count_before(*number);
        ranks.push(rank as u8)?;
    }
    Ok(Slots::new(ranks))
}

/// Returns the context of the conditions of a clause, or of its body.
fn site_of<'s, A: Allocator + Copy>(
    alloc: A,
    slots: &'s Variables<A>,
    clause: &'s Clause<A>,
    mode: Mode,
) -> Site<'s, A>
    requires { IsWritableClause slots.now clause.now }
    ensures value { result ≡ site_of slots.now clause.now mode }
    ensures sound { IsSoundSite result }
{
    Site::new(alloc, slots, clause.variables(), mode)
}

/// Returns the lines of a clause, which are put from the last to the first. Fails if an allocation fails.
fn write_lines<A: Allocator + Copy>(
    alloc: A,
    slots: &Variables<A>,
    clause: &Clause<A>,
) -> Result<Lines<A>, AllocError>
    requires { IsWritableClause slots.now clause.now }
    ensures { IfOk result (λ lines. lines ≡ (clause_block slots.now clause.now).lines) }
{
    let mut lines = Lines::with_capacity(alloc, MOST)?;
    let body = site_of(alloc, slots, clause, Mode::Body);
    write_body(&body, clause.body(), &mut lines)?;
    let conditions = site_of(alloc, slots, clause, Mode::Condition);
    write_conditions(&conditions, clause.conditions(), &mut lines)?;
    write_head(alloc, slots, clause.head(), &mut lines)?;
    Ok(lines)
}

/// Returns the block of a clause of a specification with these variables. Fails if an allocation fails.
pub(crate) fn write_clause<A: Allocator + Copy>(
    alloc: A,
    slots: &Variables<A>,
    clause: &Clause<A>,
) -> Result<Block<A>, AllocError>
    requires { IsWritableClause slots.now clause.now }
    ensures { IfOk result (λ block. block ≡ clause_block slots.now clause.now) }
{
    let lines = write_lines(alloc, slots, clause)?;
    let ranks = write_slots(alloc, slots, clause.variables())?;
    Ok(Block::new(ranks, lines))
}
