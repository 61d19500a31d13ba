//! The expressions of conditions and bodies.
use prims_table::Primitive;
use std::alloc::{Allocator, Global};
use std::marker::Model;
use term_core::Term;

/// An expression of a condition or a body.
#[cycle(expression)]
pub struct Expression<A: Allocator = Global> {
    kind: ExpressionKind<A>,
}

/// By hand: a function that drops one has one call in its proof, and not a case for each way in which its parts are dropped.
impl<A: Allocator> Drop for Expression<A> {
    #[cycle(expression)]
    fn drop(self) {
        let Expression { kind } = self;
        drop(kind);
    }
}

/// The kind of an expression, with its parts.
#[cycle(expression)]
#[derive(Drop)]
pub enum ExpressionKind<A: Allocator> {
    /// The value of the variable with this number.
    Variable(u32),
    /// `'$_'`: the whole object.
    Object,
    /// `'$$'`: the list of the values of all variables, in ascending order of their numbers.
    Bindings,
    /// An integer, an atom, `[]` or a binary, whose value is itself.
    Constant(Term<A>),
    /// `{const, T}`: the term `T`, whatever it is.
    Quoted(Term<A>),
    /// A call of a function with the values of these arguments. The function takes this number of arguments.
    Call(Primitive, Vec<Expression<A>, A>),
    /// `andalso` of one or more arguments.
    AndAlso(Vec<Expression<A>, A>),
    /// `orelse` of one or more arguments.
    OrElse(Vec<Expression<A>, A>),
    /// The tuple of the values of these elements.
    Tuple(Vec<Expression<A>, A>),
    /// The list of the values of these elements, of which there is at least one, with the value of its tail if that is
    /// not `[]`. The tail is not a list.
    List(Vec<Expression<A>, A>, Option<Box<Expression<A>, A>>),
    /// The map of these keys, in ascending order, with the values of their expressions.
    Map(Vec<(Term<A>, Expression<A>), A>),
}

impl<A: Allocator> Model for Expression<A> {
    ghost use Rattle.mspec_syntax.specs.Expression.{Expression};
    ghost use Rattle.mspec_syntax.specs.ExpressionCode.{expression_code};

    ghost Value = { Expression };

    ghost coded = { expression_code };

    ghost use Rattle.mspec_syntax.specs.ExpressionView.{expression_of, IsKept};
    ghost use Rattle.mspec_syntax.specs.Expression.{expression_size};

    ghost view = { λ e. expression_of e.kind };

    ghost invariant = { λ e. IsKept e.kind };

    ghost size = { expression_size };

    ghost use Rattle.mspec_syntax.specs.ExpressionFalls.{parts_fall};

    ghost size_decreases = { λ e h. parts_fall A.Allocator e.kind h };
}

impl<A: Allocator> Expression<A> {
    ghost use Rattle.std.specs.Prelude.{◌≡◌};
    ghost use Rattle.mspec_syntax.specs.ExpressionView.{expression_of, IsKept};

    /// Makes the expression of this kind.
    pub fn new(kind: ExpressionKind<A>) -> Self
        requires { IsKept kind }
        ensures { result ≡ expression_of kind }
    {
        Expression { kind }
    }

    /// Returns the kind of the expression, with its parts.
    pub fn kind(&self) -> &ExpressionKind<A>
        ensures value { expression_of result.now ≡ self.now }
        ensures kept { IsKept result.now }
    {
        &self.kind
    }
}
