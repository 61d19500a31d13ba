//! The patterns of heads.
use std::alloc::{Allocator, Global};
use std::marker::Model;
use term_core::Term;

/// A pattern: a term that may contain variables and `'_'`.
#[cycle(pattern)]
pub struct Pattern<A: Allocator = Global> {
    kind: PatternKind<A>,
}

/// By hand: a function that drops one has one call in its proof, and not a case for each way in which its parts are dropped.
impl<A: Allocator> Drop for Pattern<A> {
    #[cycle(pattern)]
    fn drop(self) {
        let Pattern { kind } = self;
        drop(kind);
    }
}

/// The kind of a pattern, with its parts.
#[cycle(pattern)]
#[derive(Drop)]
pub enum PatternKind<A: Allocator> {
    /// `'_'`, which matches any term.
    Anything,
    /// The variable with this number.
    Variable(u32),
    /// An integer, an atom, `[]` or a binary, which matches itself.
    Literal(Term<A>),
    /// A tuple of these patterns.
    Tuple(Vec<Pattern<A>, A>),
    /// The elements of a list, of which there is at least one, and its tail if that is not `[]`. The tail is not a
    /// list.
    List(Vec<Pattern<A>, A>, Option<Box<Pattern<A>, A>>),
    /// A map's keys with the patterns of their values. Keys read from a term are in ascending order.
    Map(Vec<(Term<A>, Pattern<A>), A>),
}

impl<A: Allocator> Model for Pattern<A> {
    ghost use Rattle.mspec_syntax.specs.Pattern.{Pattern};
    ghost use Rattle.mspec_syntax.specs.PatternCode.{pattern_code};

    ghost Value = { Pattern };

    ghost coded = { pattern_code };

    ghost use Rattle.mspec_syntax.specs.PatternView.{pattern_of, IsKept};
    ghost use Rattle.mspec_syntax.specs.Pattern.{pattern_size};

    ghost view = { λ p. pattern_of p.kind };

    ghost invariant = { λ p. IsKept p.kind };

    ghost size = { pattern_size };

    ghost use Rattle.mspec_syntax.specs.PatternFalls.{parts_fall};

    ghost size_decreases = { λ p h. parts_fall A.Allocator p.kind h };
}

impl<A: Allocator> Pattern<A> {
    ghost use Rattle.std.specs.Prelude.{◌≡◌};
    ghost use Rattle.mspec_syntax.specs.PatternView.{pattern_of, IsKept};

    /// Makes the pattern of this kind.
    pub fn new(kind: PatternKind<A>) -> Self
        requires { IsKept kind }
        ensures { result ≡ pattern_of kind }
    {
        Pattern { kind }
    }

    /// Returns the kind of the pattern, with its parts.
    pub fn kind(&self) -> &PatternKind<A>
        ensures value { pattern_of result.now ≡ self.now }
        ensures kept { IsKept result.now }
    {
        &self.kind
    }
}
