//! The functions that match specifications may call (ERTS User's Guide, "Match Specifications in Erlang", "Grammar"):
//! their names, the number of arguments that each takes, and the numbers by which instructions name them. What they
//! return for which terms is in `prims`.
//!
//! The contract: `Primitive::named` is `named` of `specs/Names.antt`, which finds the one function for a name and a
//! number of arguments. A number names the function that has it (`specs/Numbers.antt`).
//!
//! - `prim`: the functions, in families.
//! - `names`: their names and numbers of arguments. `numbers`: their numbers. `gives`: the kind of term that each
//!   returns.
#![tactic(auto)]

mod gives;
mod names;
mod numbers;
mod prim;

pub use gives::Gives;
pub use prim::{
    Arithmetic, BooleanFunction, Comparison, Extreme, Function, IntegerFunction, ListFunction,
    MapFunction, Primitive, SizeFunction, Test, TupleFunction,
};
