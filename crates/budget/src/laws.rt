//! A law of budgets: the contract of a function that does nothing.
ghost use Rattle.budget.specs.Laws.{HasOneBudget};

/// Code has at most one budget.
pub fn budget_is_one()
    ensures { HasOneBudget }
{}
