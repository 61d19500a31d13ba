//! Calls of functions with values, some of which may have been made.
ghost use Rattle.std.specs.Prelude.{◌≡◌, ◌∷◌, [], ◌≤◌, length, map, IfOk, IfSome, IsOkAnd, IsSome, IsTrue};
ghost use Rattle.std.specs.Option.{option_map};
ghost use Rattle.term_operand.specs.Operand.{operand_datum};
ghost use Rattle.term_operand.specs.Value.{value_datum, is_borrowed, all};
ghost use Rattle.prims.specs.Calls.{function_of, inline_operands};

use crate::calls::{call, call_binary, call_unary};
use crate::order;
use prims_table::{Function, Primitive};
use smallvec::SmallVec;
use std::alloc::{AllocError, Allocator};
use term_operand::{Operand, Value};

/// The largest number of borrowed values that a call takes without an allocation.
pub const INLINE_OPERANDS: usize = 16;

/// Returns the value of a call's result that borrows what the values borrowed, or `None` if the call failed.
#[inline(always)]
fn given<'a, A: Allocator>(operand: Option<Operand<'a, A>>) -> Option<Value<'a, A>>
    ensures value { option_map value_datum result ≡ option_map operand_datum operand.entry }
    ensures borrowed { IfSome result (λ value. IsTrue (is_borrowed value)) }
{
    match operand {
        Some(operand) => Some(Value::new(operand)),
        None => None,
    }
}

/// Returns the value of a call's result that borrows from values. Copies it. Returns `None` if the call failed.
fn kept<'a, A: Allocator + Copy>(
    alloc: A,
    operand: Option<Operand<'_, A>>,
) -> Result<Option<Value<'a, A>>, AllocError>
    ensures { IfOk result (λ value. option_map value_datum value
        ≡ option_map operand_datum operand.entry) }
{
    match operand {
        Some(operand) => Ok(Some(Value::kept(alloc, operand)?)),
        None => Ok(None),
    }
}

/// Calls a function with one value. Returns `None` if the call fails. The result for a borrowed value is borrowed and
/// needs no memory; otherwise it is copied. An error means out of memory.
#[inline(always)]
pub fn call_one<'a, A: Allocator + Copy>(
    alloc: A,
    function: Primitive,
    value: &Value<'a, A>,
) -> Result<Option<Value<'a, A>>, AllocError>
    ensures value { IfOk result (λ given. option_map value_datum given
        ≡ function_of function (value_datum value.now ∷ [])) }
    ensures memory { IsTrue (is_borrowed value.now)
        → IsOkAnd result (λ given. IfSome given (λ value. IsTrue (is_borrowed value))) }
{
    if let Some(operand) = value.borrowed() {
        return Ok(given(call_unary(function, operand)));
    }
    kept(alloc, call_unary(function, value.operand()))
}

/// Calls a function with two values. Returns `None` if the call fails. The result for two borrowed values is borrowed
/// and needs no memory; otherwise it is copied. An error means out of memory.
#[inline(always)]
pub fn call_two<'a, A: Allocator + Copy>(
    alloc: A,
    function: Primitive,
    left: &Value<'a, A>,
    right: &Value<'a, A>,
) -> Result<Option<Value<'a, A>>, AllocError>
    ensures value { IfOk result (λ given. option_map value_datum given
        ≡ function_of function (value_datum left.now ∷ value_datum right.now ∷ [])) }
    ensures memory { IsTrue (is_borrowed left.now) → IsTrue (is_borrowed right.now)
        → IsOkAnd result (λ given. IfSome given (λ value. IsTrue (is_borrowed value))) }
{
    if let Primitive::Function(Function::Comparison(comparison)) = function {
        let holds = order::meets(comparison, left.operand(), right.operand());
        return Ok(Some(Value::Bool(holds)));
    }
    if let Some(first) = left.borrowed() {
        if let Some(second) = right.borrowed() {
            return Ok(given(call_binary(function, first, second)));
        }
    }
    kept(
        alloc,
        call_binary(function, left.operand(), right.operand()),
    )
}

/// Returns these values as operands that borrow what the values borrow, or `None` if one of them was made. Up to
/// `INLINE_OPERANDS` of them need no allocation.
fn lasting<'h, 'a, A: Allocator + Copy>(
    heap: &'h A,
    values: &[Value<'a, A>],
) -> Result<Option<SmallVec<Operand<'a, A>, INLINE_OPERANDS, &'h A>>, AllocError>
    ensures value { IfOk result (λ found. IfSome found
        (λ operands. map operand_datum operands.items ≡ map value_datum values.now)) }
    ensures memory { IsTrue (all is_borrowed values.now) → length values.now ≤ inline_operands
        → IsOkAnd result IsSome }
{
    let mut operands = SmallVec::new(heap);
    for value in values {
        match value.borrowed() {
            Some(operand) => operands.push(operand)?,
            None => return Ok(None),
        }
    }
    Ok(Some(operands))
}

/// Returns these values as operands that borrow from the values.
fn operands_of<'a, A: Allocator + Copy>(
    alloc: A,
    values: &'a [Value<'_, A>],
) -> Result<Vec<Operand<'a, A>, A>, AllocError>
    ensures { IfOk result (λ operands. map operand_datum operands.items
        ≡ map value_datum values.now) }
{
    let mut operands = Vec::with_capacity(alloc, values.len())?;
    for value in values {
        operands.push(value.operand())?;
    }
    Ok(operands)
}

/// Calls a function with these values. Returns `None` if the call fails. If all values are borrowed, the result is
/// borrowed, and up to `INLINE_OPERANDS` values need no allocation; otherwise the result is copied. An error means out
/// of memory.
#[inline(never)]
pub fn call_values<'a, A: Allocator + Copy>(
    heap: &A,
    function: Primitive,
    values: &[Value<'a, A>],
) -> Result<Option<Value<'a, A>>, AllocError>
    ensures value { IfOk result (λ given. option_map value_datum given
        ≡ function_of function (map value_datum values.now)) }
    ensures memory { IsTrue (all is_borrowed values.now) → length values.now ≤ inline_operands
        → IsOkAnd result (λ given. IfSome given (λ value. IsTrue (is_borrowed value))) }
{
    if let Some(operands) = lasting(heap, values)? {
        return Ok(given(call(function, operands.as_slice())));
    }
    let operands = operands_of(*heap, values)?;
    kept(*heap, call(function, operands.as_slice()))
}
