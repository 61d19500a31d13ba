//! The numbers by which instructions name functions.
ghost use Rattle.std.specs.Prelude.{◌≡◌, slice_get};
ghost use Rattle.prims_table.specs.Numbers.{function_of, arithmetic_of};

use crate::names::ALL;
use crate::prim::{Arithmetic, Function, Primitive};

/// The number of functions in the table before those of two integers.
const FUNCTIONS: usize = 46;

/// Returns the function at a place of the table, counted from 0, or `None` after its end.
fn at(table: &[Primitive], place: usize) -> Option<Primitive>
    ensures { result ≡ slice_get table.now place }
{
    table.get(place).copied()
}

/// Returns the function if it is not one of two integers, otherwise `None`.
const fn function_of(found: Option<Primitive>) -> Option<Function>
    ensures { result ≡ function_of found }
{
    match found {
        Some(Primitive::Function(function)) => Some(function),
        Some(Primitive::Arithmetic(_)) => None,
        None => None,
    }
}

/// Returns the function if it is one of two integers, otherwise `None`.
const fn arithmetic_of(found: Option<Primitive>) -> Option<Arithmetic>
    ensures { result ≡ arithmetic_of found }
{
    match found {
        Some(Primitive::Arithmetic(arithmetic)) => Some(arithmetic),
        Some(Primitive::Function(_)) => None,
        None => None,
    }
}

impl Function {
    ghost use Rattle.std.specs.Prelude.{◌≡◌, ◌↔◌, Some};
    ghost use Rattle.prims_table.specs.Numbers.{function_number};
    ghost use Rattle.prims_table.specs.declared.prim.Function.{Function as AnyFunction};

    /// Returns the number of the function, from 1 to 46.
    pub const fn number(self) -> u8
        ensures { result ≡ function_number self }
    {
        match self {
            Function::Test(test) => test as u8,
            Function::Boolean(boolean) => boolean as u8,
            Function::Comparison(comparison) => comparison as u8,
            Function::Extreme(extreme) => extreme as u8,
            Function::Integer(integer) => integer as u8,
            Function::Tuple(tuple) => tuple as u8,
            Function::List(list) => list as u8,
            Function::Map(map) => map as u8,
            Function::Size(size) => size as u8,
        }
    }

    /// Returns the function with this number, or `None` if there is none.
    pub fn numbered(number: u8) -> Option<Function>
        ensures { (f : AnyFunction) → (result ≡ Some f) ↔ (function_number f ≡ number) }
    {
        let place = number.checked_sub(1)?;
        function_of(at(&ALL, usize::from(place)))
    }
}

impl Arithmetic {
    ghost use Rattle.std.specs.Prelude.{◌≡◌, ◌↔◌, Some};
    ghost use Rattle.prims_table.specs.Numbers.{arithmetic_number};
    ghost use Rattle.prims_table.specs.declared.prim.Arithmetic.{Arithmetic as AnyArithmetic};

    /// Returns the number of the function, from 1 to 10.
    pub const fn number(self) -> u8
        ensures { result ≡ arithmetic_number self }
    {
        self as u8
    }

    /// Returns the function of two integers with this number, or `None` if there is none.
    pub fn numbered(number: u8) -> Option<Arithmetic>
        ensures { (a : AnyArithmetic) → (result ≡ Some a) ↔ (arithmetic_number a ≡ number) }
    {
        let place = number.checked_sub(1)?;
        arithmetic_of(at(&ALL, FUNCTIONS + usize::from(place)))
    }
}
