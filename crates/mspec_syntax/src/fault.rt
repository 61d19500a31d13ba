//! Why a term is not a specification.
use std::alloc::{AllocError, AllocFailed};
use thiserror::Error;

/// Why a term is not a specification. Clauses are numbered from 0.
#[derive(Clone, Copy, Debug, PartialEq, Eq, Error)]
pub enum SpecFault {
    /// An allocation failed.
    #[error("out of memory")]
    Memory,
    /// The term is not a proper list.
    #[error("the specification is no proper list")]
    NotAList,
    /// The clause is not a tuple of three elements.
    #[error("clause {0} is no tuple of a head, conditions and a body")]
    NotAClause(usize),
    /// The clause's head is not a variable, `'_'` or a tuple.
    #[error("the head of clause {0} is no variable, '_' or tuple")]
    BadHead(usize),
    /// The clause's conditions are not a proper list.
    #[error("the conditions of clause {0} are no list of conditions")]
    BadConditions(usize),
    /// The clause's body is not a proper list with at least one element.
    #[error("the body of clause {0} is no proper list with an element")]
    BadBody(usize),
    /// A condition or the body of the clause has a tuple that begins with an atom, and there is no function of this
    /// name that takes this number of arguments.
    #[error("clause {0} calls what is no function of so many arguments")]
    UnknownCall(usize),
    /// A condition or the body of the clause names this variable, and its head does not.
    #[error("clause {0} names the variable {1}, which its head does not bind")]
    Unbound(usize, u32),
    /// The clause has an atom of `$` and digits that is not a variable: it has a 0 before other digits, or more than 8
    /// digits.
    #[error("clause {0} has $ and digits that are no variable's name")]
    BadVariableName(usize),
    /// A condition or the body of the clause has a term that is not an expression.
    #[error("clause {0} has a term that is no expression")]
    BadExpression(usize),
    /// A key of a map in the clause's head contains a variable or `'_'`.
    #[error("a key of a map in the head of clause {0} holds a variable or '_'")]
    VariableInMapKey(usize),
    /// The specification has more than 8,000 nodes or 256 distinct variables.
    #[error("the specification is too large")]
    TooLarge,
}

impl SpecFault {
    ghost use Rattle.std.specs.Prelude.{◌≡◌};
    ghost use Rattle.mspec_syntax.specs.FaultNumbers.{number_of, clause_of, variable_of};

    /// Returns the number, 1 or 10 to 20, that programs print for the fault.
    pub const fn number(self) -> u8
        ensures { result ≡ number_of self }
    {
        match self {
            SpecFault::Memory => 1,
            SpecFault::NotAList => 10,
            SpecFault::NotAClause(_) => 11,
            SpecFault::BadHead(_) => 12,
            SpecFault::BadConditions(_) => 13,
            SpecFault::BadBody(_) => 14,
            SpecFault::UnknownCall(_) => 15,
            SpecFault::Unbound(_, _) => 16,
            SpecFault::BadVariableName(_) => 17,
            SpecFault::BadExpression(_) => 18,
            SpecFault::VariableInMapKey(_) => 19,
            SpecFault::TooLarge => 20,
        }
    }

    /// Returns the number of the clause with the fault, or `None` if the fault is not in a clause.
    pub const fn clause(self) -> Option<usize>
        ensures { result ≡ clause_of self }
    {
        match self {
            SpecFault::Memory | SpecFault::NotAList | SpecFault::TooLarge => None,
            SpecFault::NotAClause(clause)
            | SpecFault::BadHead(clause)
            | SpecFault::BadConditions(clause)
            | SpecFault::BadBody(clause)
            | SpecFault::Unbound(clause, _)
            | SpecFault::UnknownCall(clause)
            | SpecFault::BadVariableName(clause)
            | SpecFault::BadExpression(clause)
            | SpecFault::VariableInMapKey(clause) => Some(clause),
        }
    }

    /// Returns the number of the variable if the fault is `Unbound`, otherwise `None`.
    pub const fn variable(self) -> Option<u32>
        ensures { result ≡ variable_of self }
    {
        match self {
            SpecFault::Unbound(_, variable) => Some(variable),
            _ => None,
        }
    }
}

impl From<AllocError> for SpecFault {
    ghost use Rattle.std.specs.Prelude.{◌≡◌};
    ghost use Rattle.mspec_syntax.specs.declared.fault.SpecFault.TheVariants.{Memory};

    ghost from_gives = { λ _ e. e ≡ Memory };

    fn from(_: AllocError) -> Self {
        SpecFault::Memory
    }
}

impl<T: Drop> From<AllocFailed<T>> for SpecFault {
    ghost use Rattle.std.specs.Prelude.{◌≡◌};
    ghost use Rattle.mspec_syntax.specs.declared.fault.SpecFault.TheVariants.{Memory};

    ghost from_gives = { λ _ e. e ≡ Memory };

    fn from(_: AllocFailed<T>) -> Self {
        SpecFault::Memory
    }
}
