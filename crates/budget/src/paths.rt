//! The longest path through code.
ghost use Rattle.std.specs.Prelude.{ℕ, ◌≡◌, ◌+◌, ◌-◌, ◌*◌, ◌≤◌, ◌<◌, IfOk, length, slice_index};
ghost use Rattle.std.specs.Option.{MatchOption};
ghost use Rattle.mcode.specs.Program.{body_of};
ghost use Rattle.mcode.specs.declared.TheConstants.{MAX_COUNT};
ghost use Rattle.budget.specs.Paths.{AllForward, IsForward, AreJumpsForward, weight, IsBudget, IsBodyBudget, IsOver, IsNowhereOver, most_budget};
ghost use Rattle.budget.specs.Pass.{IsLongestFrom, AreLongest, AreSmall, most_weight, code_of, next_number, target_number, onward_number};

use crate::MAX_BUDGET;
use mcode::{Body, Code, Instr};
use std::alloc::{AllocError, Allocator};

/// Returns the budget of code in which every jump and every invocation goes forward: the largest number of instructions
/// on a path from instruction 0 of the main body, 0 if it has no instructions. An invocation also counts the budget of
/// its routine. Returns `None` if the budget of some body is above `MAX_BUDGET`. Takes time linear in the number of all
/// instructions. Allocates 4 bytes for each body, and 8 bytes for each instruction of the body at hand. Fails if an
/// allocation fails.
pub fn longest<A: Allocator + Copy>(alloc: A, code: &Code<A>) -> Result<Option<u32>, AllocError>
    requires { AllForward code.now }
    ensures { IfOk result (λ found. MatchOption found ((b : ℕ) × IsOver code.now b)
        (λ n. IsBudget code.now n × IsNowhereOver code.now)) }
{
    let mut budgets: Vec<u32, A> = vec![in alloc; 0; code.routines().len() + 1]?;
    for number in (0..budgets.len()).rev() {
        match budget_at(alloc, code, number as u16, budgets.as_slice())? {
            Some(budget) => budgets[number] = budget,
            None => return Ok(None),
        }
    }
    Ok(Some(main_budget(budgets.as_slice())))
}

/// Returns the budget of the main body, given those of all bodies.
fn main_budget(budgets: &[u32]) -> u32
    requires { 0 < length budgets.now }
    ensures { result ≡ slice_index budgets.now 0 }
{
    budgets[0]
}

/// Returns the budget of one body of code, or `None` if it is above `MAX_BUDGET`. Fails if an allocation fails.
fn budget_at<A: Allocator + Copy>(
    alloc: A,
    code: &Code<A>,
    number: u16,
    budgets: &[u32],
) -> Result<Option<u32>, AllocError>
    requires inside { number ≤ length code.now.around.routines }
    requires forward { IsForward (body_of code.now number) }
    ensures { IfOk result (λ found. MatchOption found
        ((n : ℕ) × IsBodyBudget (body_of code.now number) budgets.now n × (most_budget < n))
        (λ n. IsBodyBudget (body_of code.now number) budgets.now n × (n ≤ most_budget))) }
{
    budget_of(alloc, &Body::of(code, number), budgets)
}

/// Returns the budget of a body, given those of the routines that it invokes, or `None` if it is above `MAX_BUDGET`.
/// Fails if an allocation fails.
pub fn budget_of<A: Allocator + Copy>(
    alloc: A,
    body: &Body<'_, A>,
    budgets: &[u32],
) -> Result<Option<u32>, AllocError>
    requires { IsForward body.now }
    ensures { IfOk result (λ found. MatchOption found
        ((n : ℕ) × IsBodyBudget body.now budgets.now n × (most_budget < n))
        (λ n. IsBodyBudget body.now budgets.now n × (n ≤ most_budget))) }
{
    let budget = longest_of(alloc, body.instructions(), budgets)?;
    Ok(within_limit(budget))
}

/// Returns the budget, or `None` if it is above `MAX_BUDGET`.
fn within_limit(budget: u64) -> Option<u32>
    ensures { MatchOption result (most_budget < budget) (λ n. (n ≡ budget) × (n ≤ most_budget)) }
{
    if budget > u64::from(MAX_BUDGET) {
        return None;
    }
    Some(budget as u32)
}

/// Returns the budget of a body of these instructions, 0 without instructions.
fn longest_of<A: Allocator + Copy>(
    alloc: A,
    instructions: &[Instr],
    budgets: &[u32],
) -> Result<u64, AllocError>
    requires count { length instructions.now ≤ MAX_COUNT }
    requires jumps { AreJumpsForward (code_of instructions.now) }
    ensures { IfOk result (λ n. IsBodyBudget (code_of instructions.now) budgets.now n) }
{
    let mut numbers: Vec<u64, A> = vec![in alloc; 0; instructions.len()]?;
    for pc in (0..instructions.len()).rev() {
        numbers[pc] = longest_from(instructions, pc, budgets, numbers.as_slice());
    }
    Ok(number_at(numbers.as_slice(), 0))
}

/// Returns the largest number that a path from `pc` counts, given these numbers for all later places.
fn longest_from(instructions: &[Instr], pc: usize, budgets: &[u32], numbers: &[u64]) -> u64
    requires count { length instructions.now ≤ MAX_COUNT }
    requires inside { pc < length instructions.now }
    requires jumps { AreJumpsForward (code_of instructions.now) }
    requires later { AreLongest (code_of instructions.now) budgets.now numbers.now (pc + 1) }
    requires small { AreSmall numbers.now (length instructions.now - (pc + 1)) }
    ensures longest { IsLongestFrom (code_of instructions.now) budgets.now pc result }
    ensures small { result ≤ most_weight * (length instructions.now - pc) }
{
    weight(instructions[pc], budgets) + onward_number(instructions[pc], pc, numbers)
}

/// Returns the number of instructions that an instruction counts: one, and if it invokes a routine, the budget of that
/// routine too.
fn weight(instr: Instr, budgets: &[u32]) -> u64
    ensures value { result ≡ weight budgets.now instr }
    ensures small { result ≤ most_weight }
{
    match instr {
        Instr::Invoke { routine, .. } => 1 + budget_in(budgets, routine),
        _ => 1,
    }
}

/// Returns the budget of a body, 0 if the body doesn't exist.
fn budget_in(budgets: &[u32], number: u16) -> u64
    ensures value { result ≡ slice_index budgets.now number }
    ensures small { result < most_weight }
{
    match budgets.get(usize::from(number)) {
        Some(budget) => u64::from(*budget),
        None => 0,
    }
}

/// Returns the greater of the numbers at the two places to which the instruction at `pc` leads, 0 if it leads nowhere.
fn onward_number(instr: Instr, pc: usize, numbers: &[u64]) -> u64
    requires { pc < length numbers.now }
    ensures { result ≡ onward_number instr pc numbers.now }
{
    next_number(instr, pc, numbers).max(target_number(instr, numbers))
}

/// Returns the number at the next place if the instruction at `pc` goes on and there is one, otherwise 0.
fn next_number(instr: Instr, pc: usize, numbers: &[u64]) -> u64
    requires { pc < length numbers.now }
    ensures { result ≡ next_number instr pc numbers.now }
{
    if instr.goes_on() {
        number_at(numbers, pc + 1)
    } else {
        0
    }
}

/// Returns the number at the target of the instruction's jump, 0 if it doesn't jump.
fn target_number(instr: Instr, numbers: &[u64]) -> u64
    ensures { result ≡ target_number instr numbers.now }
{
    match instr.target() {
        Some(target) => number_at(numbers, usize::from(target)),
        None => 0,
    }
}

/// Returns the number at the place, 0 after the end.
fn number_at(numbers: &[u64], place: usize) -> u64
    ensures { result ≡ slice_index numbers.now place }
{
    numbers.get(place).copied().unwrap_or(0)
}
