//! Laws of matching. Each is the contract of a function that does nothing.
ghost use Rattle.mspec_match.specs.Laws.{HasOneMatch, OwnTermMatches};

/// At most one substitution makes a pattern match a term.
pub fn one_substitution_matches()
    ensures { HasOneMatch }
{}

/// A pattern that contains no variable, `'_'` or map matches the term that it spells, and no other.
pub fn own_term_matches()
    ensures { OwnTermMatches }
{}
