//! Calls of functions.
ghost use Rattle.std.specs.Prelude.{◌≡◌, ◌∷◌, [], map, IfSome};
ghost use Rattle.std.specs.Option.{option_map};
ghost use Rattle.term_operand.specs.Operand.{operand_datum, integer_of};
ghost use Rattle.prims_table.specs.Gives.{gives_of};
ghost use Rattle.prims.specs.Given.{IsGiven};
ghost use Rattle.prims.specs.Integers.{arithmetic_of};
ghost use Rattle.prims.specs.Calls.{at_integers, unary_of, binary_of, ternary_of, value_of_function, value_of_arithmetic, function_of};

use crate::{booleans, integers, kinds, lists, maps, order, sizes, tuples};
use prims_table::{Arithmetic, Function, ListFunction, MapFunction, Primitive, TupleFunction};
use std::alloc::Allocator;
use term_operand::Operand;

/// Calls a function of one argument. Returns `None` if the call fails, or the function doesn't take one argument.
fn of_one<'a, A: Allocator>(function: Function, operand: Operand<'a, A>) -> Option<Operand<'a, A>>
    ensures { option_map operand_datum result ≡ unary_of function (operand_datum operand.entry) }
{
    match function {
        Function::Test(test) => Some(Operand::Bool(kinds::is_of_kind(test, operand))),
        Function::Integer(integer) => {
            Some(Operand::Int(integers::of_one(integer, operand.integer()?)?))
        }
        Function::List(ListFunction::Hd) => Some(Operand::Term(lists::head(operand)?)),
        Function::List(ListFunction::Tl) => lists::tail(operand),
        Function::List(ListFunction::Length) => Some(Operand::Int(lists::length(operand)?)),
        Function::Map(MapFunction::MapSize) => Some(Operand::Int(maps::map_size(operand)?)),
        Function::Size(size) => Some(Operand::Int(sizes::size(size, operand)?)),
        Function::Map(MapFunction::IsMapKey) | Function::Map(MapFunction::MapGet) => None,
        Function::Boolean(_) | Function::Comparison(_) | Function::Extreme(_) => None,
        Function::Tuple(_) => None,
    }
}

/// Calls a function of two integers. Returns `None` if an operand is not an integer, or the call fails.
#[inline(always)]
fn at_integers<A: Allocator>(
    function: Arithmetic,
    left: Operand<'_, A>,
    right: Operand<'_, A>,
) -> Option<i64>
    ensures { result ≡ at_integers (arithmetic_of function) (integer_of (operand_datum left.entry))
        (integer_of (operand_datum right.entry)) }
{
    integers::compute(function, left.integer()?, right.integer()?)
}

/// Calls a function of two arguments. Returns `None` if the call fails, or the function doesn't take two arguments.
#[inline(always)]
fn of_two<'a, A: Allocator>(
    function: Function,
    left: Operand<'a, A>,
    right: Operand<'a, A>,
) -> Option<Operand<'a, A>>
    ensures { option_map operand_datum result
        ≡ binary_of function (operand_datum left.entry) (operand_datum right.entry) }
{
    match function {
        Function::Comparison(comparison) => {
            Some(Operand::Bool(order::meets(comparison, left, right)))
        }
        Function::Extreme(extreme) => Some(order::extreme(extreme, left, right)),
        Function::Tuple(TupleFunction::Element) => Some(Operand::Term(tuples::element(
            left, right,
        )?)),
        Function::Map(MapFunction::IsMapKey) => Some(Operand::Bool(maps::is_map_key(left, right)?)),
        Function::Map(MapFunction::MapGet) => Some(Operand::Term(maps::map_get(left, right)?)),
        Function::Tuple(TupleFunction::IsRecord) | Function::Map(MapFunction::MapSize) => None,
        Function::Test(_) | Function::Boolean(_) | Function::Integer(_) => None,
        Function::List(_) | Function::Size(_) => None,
    }
}

/// Calls a function of three arguments. Returns `None` if the call fails, or the function doesn't take three arguments.
fn of_three<'a, A: Allocator>(
    function: Function,
    first: Operand<'a, A>,
    second: Operand<'a, A>,
    third: Operand<'a, A>,
) -> Option<Operand<'a, A>>
    ensures { option_map operand_datum result
        ≡ ternary_of function (operand_datum first.entry) (operand_datum second.entry)
        (operand_datum third.entry) }
{
    match function {
        Function::Tuple(TupleFunction::IsRecord) => {
            Some(Operand::Bool(tuples::is_record(first, second, third)?))
        }
        _ => None,
    }
}

/// Calls a function other than those of two integers. Returns `None` if the call fails.
#[inline(always)]
fn of_any<'a, A: Allocator>(
    function: Function,
    operands: &[Operand<'a, A>],
) -> Option<Operand<'a, A>>
    ensures { option_map operand_datum result
        ≡ value_of_function function (map operand_datum operands.now) }
{
    if let Function::Boolean(function) = function {
        return Some(Operand::Bool(booleans::call(function, operands)?));
    }
    match operands {
        [operand] => of_one(function, *operand),
        [left, right] => of_two(function, *left, *right),
        [first, second, third] => of_three(function, *first, *second, *third),
        _ => None,
    }
}

/// Calls a function of two integers. Returns `None` if the call fails, or there are not two operands.
#[inline(always)]
fn of_integers<'a, A: Allocator>(
    function: Arithmetic,
    operands: &[Operand<'a, A>],
) -> Option<Operand<'a, A>>
    ensures { option_map operand_datum result
        ≡ value_of_arithmetic function (map operand_datum operands.now) }
{
    match operands {
        [left, right] => Some(Operand::Int(at_integers(function, *left, *right)?)),
        _ => None,
    }
}

/// Calls the function with one operand, like `call` with a slice of it. Returns `None` if the call fails.
#[inline(always)]
pub fn call_unary<'a, A: Allocator>(
    prim: Primitive,
    operand: Operand<'a, A>,
) -> Option<Operand<'a, A>>
    ensures { option_map operand_datum result
        ≡ function_of prim (operand_datum operand.entry ∷ []) }
{
    match prim {
        Primitive::Arithmetic(_) => None,
        Primitive::Function(Function::Boolean(function)) => {
            Some(Operand::Bool(booleans::call(function, &[operand])?))
        }
        Primitive::Function(function) => of_one(function, operand),
    }
}

/// Calls the function with two operands, like `call` with a slice of them. Returns `None` if the call fails.
#[inline(always)]
pub fn call_binary<'a, A: Allocator>(
    prim: Primitive,
    left: Operand<'a, A>,
    right: Operand<'a, A>,
) -> Option<Operand<'a, A>>
    ensures { option_map operand_datum result
        ≡ function_of prim (operand_datum left.entry ∷ operand_datum right.entry ∷ []) }
{
    match prim {
        Primitive::Arithmetic(function) => Some(Operand::Int(at_integers(function, left, right)?)),
        Primitive::Function(Function::Boolean(function)) => {
            Some(Operand::Bool(booleans::call(function, &[left, right])?))
        }
        Primitive::Function(function) => of_two(function, left, right),
    }
}

/// Calls the function with these operands. Returns `None` if the call fails: an operand is of the wrong kind, the
/// number of operands is wrong, or the result is an integer outside 64 bits. (ERTS User's Guide, "Match Specifications
/// in Erlang".) Does not allocate.
#[tactic(auto, using(crate::proofs::GivenLemmas::given_result))]
#[inline(always)]
pub fn call<'a, A: Allocator>(
    prim: Primitive,
    operands: &[Operand<'a, A>],
) -> Option<Operand<'a, A>>
    ensures value { option_map operand_datum result
        ≡ function_of prim (map operand_datum operands.now) }
    ensures kind { IfSome result (λ v. IsGiven (gives_of prim) (operand_datum v)) }
{
    match prim {
        Primitive::Arithmetic(function) => of_integers(function, operands),
        Primitive::Function(function) => of_any(function, operands),
    }
}
