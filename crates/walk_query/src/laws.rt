//! Laws of named keys, each the contract of a function that does nothing.
ghost use Rattle.walk_query.specs.Laws.{NamedKeysDiffer, PlansAreOne, UnnamedKeysMeanNothing};

/// The keys that a specification names are distinct.
pub fn named_keys_differ()
    ensures { NamedKeysDiffer }
{}

/// For an object whose key isn't named, a specification that names keys has no answer.
pub fn unnamed_keys_mean_nothing()
    ensures { UnnamedKeysMeanNothing }
{}

/// The keys that a walk visits according to a specification are uniquely determined.
pub fn plans_are_one()
    ensures { PlansAreOne }
{}
