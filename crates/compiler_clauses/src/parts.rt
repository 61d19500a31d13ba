//! Conditions and bodies.
ghost use Rattle.std.specs.Prelude.{◌≡◌, ◌++◌, ◌≤◌, OnOk};
ghost use Rattle.std.specs.List.{All};
ghost use Rattle.mspec_syntax.specs.Sound.{IsSoundExpression};
ghost use Rattle.mspec_syntax.specs.Specification.{most_nodes};
ghost use Rattle.compiler_expressions.specs.Writable.{IsSoundSite};
ghost use Rattle.compiler_clauses.specs.Clauses.{condition_lines, body_lines};
ghost use Rattle.compiler_clauses.specs.Writable.{node_total};

use compiler_assembly::{Label, Lines, Op, Target};
use compiler_expressions::Site;
use mspec_syntax::Expression;
use std::alloc::{AllocError, Allocator};

/// Puts the lines of the conditions of a clause at the front of `lines`. Fails if an allocation fails.
pub(crate) fn write_conditions<A: Allocator + Copy>(
    site: &Site<A>,
    conditions: &[Expression<A>],
    lines: &mut Lines<A>,
) -> Result<(), AllocError>
    requires site { IsSoundSite site.now }
    requires sound { All (IsSoundExpression site.now.bound) conditions.now }
    requires size { node_total site.now.bound conditions.now ≤ most_nodes }
    ensures { OnOk result (lines.new ≡ condition_lines site.now conditions.now ++ lines.old) }
{
    for place in (0..conditions.len()).rev() {
        lines.prepend(Op::Branch(Target::Failing), None)?;
        lines.prepend(Op::Bool(Target::Failing), None)?;
        site.write_expression(0, &[], &conditions[place], lines)?;
    }
    Ok(())
}

/// Puts the lines of the body of a clause at the front of `lines`: those of its last expression, which is the answer.
/// Fails if an allocation fails.
pub(crate) fn write_body<A: Allocator + Copy>(
    site: &Site<A>,
    body: &[Expression<A>],
    lines: &mut Lines<A>,
) -> Result<(), AllocError>
    requires site { IsSoundSite site.now }
    requires sound { All (IsSoundExpression site.now.bound) body.now }
    requires size { node_total site.now.bound body.now ≤ most_nodes }
    ensures { OnOk result (lines.new ≡ body_lines site.now body.now ++ lines.old) }
{
    let Some(answer) = body.last() else {
        return Ok(());
    };
    lines.prepend(Op::Answer, Some(Label::Clean))?;
    site.write_expression(0, &[], answer, lines)
}
