//! Laws of the meaning. Each is the contract of a function that does nothing.
ghost use Rattle.mspec_meaning.specs.Laws.{EmptyAnswersNothing, FirstAnswers, OthersAnswer, HasOneMeaning, ApplicableHasValue, NothingWhereNoneApplies};

/// The empty specification has no answer on any object.
pub fn empty_answers_nothing()
    ensures { EmptyAnswersNothing }
{}

/// A specification has exactly the answer of its first clause if that applies, and otherwise exactly the answer of the
/// other clauses.
pub fn first_clause_decides()
    ensures first { FirstAnswers }
    ensures others { OthersAnswer }
{}

/// A specification has at most one answer on an object.
pub fn one_answer_is_meant()
    ensures { HasOneMeaning }
{}

/// The body of a sound clause that applies has a value, so a specification has no answer only if no clause applies.
pub fn applicable_clauses_answer()
    ensures value { ApplicableHasValue }
    ensures nothing { NothingWhereNoneApplies }
{}
