//! The kind of term that each function returns.
ghost use Rattle.std.specs.Prelude.{◌≡◌};
ghost use Rattle.prims_table.specs.Gives.{gives_of};

use crate::prim::{Function, ListFunction, MapFunction, Primitive, TupleFunction};

/// The kind of term that a function returns if a call succeeds.
#[derive(Clone, Copy, Debug, PartialEq, Eq)]
pub enum Gives {
    /// The atom `true` or `false`.
    Boolean,
    /// An integer.
    Integer,
    /// Any term.
    Any,
}

impl Function {
    ghost use Rattle.std.specs.Prelude.{◌≡◌};
    ghost use Rattle.prims_table.specs.Gives.{gives_of};
    ghost use Rattle.prims_table.specs.declared.prim.Primitive.TheVariants as prim;

    /// Returns the kind of term that the function returns.
    pub const fn gives(self) -> Gives
        ensures { result ≡ gives_of (prim.Function self) }
    {
        match self {
            Function::Test(_) | Function::Boolean(_) | Function::Comparison(_) => Gives::Boolean,
            Function::Tuple(TupleFunction::IsRecord) | Function::Map(MapFunction::IsMapKey) => {
                Gives::Boolean
            }
            Function::Integer(_) | Function::Size(_) => Gives::Integer,
            Function::List(ListFunction::Length) | Function::Map(MapFunction::MapSize) =>
                Gives::Integer,
            Function::Extreme(_) | Function::Tuple(TupleFunction::Element) => Gives::Any,
            Function::List(ListFunction::Hd | ListFunction::Tl)
            | Function::Map(MapFunction::MapGet) => { Gives::Any }
        }
    }
}

impl Primitive {
    ghost use Rattle.std.specs.Prelude.{◌≡◌};
    ghost use Rattle.prims_table.specs.Gives.{gives_of};

    /// Returns the kind of term that the function returns.
    pub const fn gives(self) -> Gives
        ensures { result ≡ gives_of self }
    {
        match self {
            Primitive::Arithmetic(_) => Gives::Integer,
            Primitive::Function(function) => function.gives(),
        }
    }
}
