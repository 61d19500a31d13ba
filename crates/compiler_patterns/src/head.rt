//! The code of the heads of clauses.
ghost use Rattle.std.specs.Prelude.{◌≡◌, ◌≤◌, ◌++◌, ℕ, true, length, OnOk};
ghost use Rattle.mcode.specs.Program.{most_slots};
ghost use Rattle.mspec_syntax.specs.Grammar.{is_among};
ghost use Rattle.mspec_syntax.specs.Pattern.{pattern_variables, pattern_nodes};
ghost use Rattle.mspec_syntax.specs.Sound.{IsSoundPattern};
ghost use Rattle.compiler_patterns.specs.Patterns.{head_lines};

use crate::draft::Draft;
use crate::slots::VariableSlots;
use crate::write::{is_anything, write_pattern};
use compiler_assembly::{Lines, Op};
use mspec_syntax::{Pattern, Variables};
use std::alloc::{AllocError, Allocator};

/// Adds the lines of a clause's head at the front of `lines`. `slots` are the variables of the specification, in the
/// order of their slots. Fails if an allocation fails.
pub fn write_head<A: Allocator + Copy>(
    alloc: A,
    slots: &Variables<A>,
    head: &Pattern<A>,
    lines: &mut Lines<A>,
) -> Result<(), AllocError>
    requires count { length slots.now ≤ most_slots }
    requires bound { (n : ℕ) → is_among (pattern_variables head.now) n ≡ true
        → is_among slots.now n ≡ true }
    requires sound { IsSoundPattern head.now }
    requires size { pattern_nodes head.now ≤ 65535 }
    ensures { OnOk result (lines.new ≡ head_lines slots.now head.now ++ lines.old) }
{
    if is_anything(head) {
        return Ok(());
    }
    let mut draft = Draft::new(alloc, slots.len())?;
    draft.put(Op::Load)?;
    let writer = VariableSlots::new(alloc, slots);
    write_pattern(&writer, head, &mut draft)?;
    draft.prepend_to(lines)
}
