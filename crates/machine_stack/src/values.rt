//! What instructions make of values.
ghost use Rattle.std.specs.Prelude.{◌≡◌, Some, IsSome, IsTrue, IfOk, IfSome, IsOkAnd};
ghost use Rattle.std.specs.Option.{option_map};
ghost use Rattle.term_core.specs.Datum.Datum.{integer};
ghost use Rattle.term_operand.specs.Order.{is_same};
ghost use Rattle.term_operand.specs.Value.{value_datum, is_borrowed};
ghost use Rattle.term_operand.specs.Operand.{operand_datum};
ghost use Rattle.prims.specs.Integers.{arithmetic_of};
ghost use Rattle.prims.specs.Lists.{head_of, tail_behind};
ghost use Rattle.prims.specs.Maps.{map_get_of};
ghost use Rattle.mcode.specs.Machine.{field_of};

use prims::{compute, map_get};
use prims_table::Arithmetic;
use std::alloc::{AllocError, Allocator};
use term_core::Term;
use term_operand::{Operand, Value, compare};

/// The element of a tuple at a place that is counted from 1.
#[inline(always)]
fn element<'a, A: Allocator>(tuple: Operand<'a, A>, index: u16) -> &'a Term<A>
    requires { IsSome (field_of index (operand_datum tuple)) }
    ensures { field_of index (operand_datum tuple.entry) ≡ Some result.now }
{
    match tuple.element_at(index) {
        Some(element) => element,
        None => unreachable!(),
    }
}

/// The element of a tuple at a place that is counted from 1.
#[inline(always)]
pub fn field<'a, A: Allocator + Copy>(
    tuple: &Value<'a, A>,
    index: u16,
) -> Result<Value<'a, A>, AllocError>
    requires { IsSome (field_of index (value_datum tuple.now)) }
    ensures value { IfOk result (λ value. field_of index (value_datum tuple.now)
        ≡ Some (value_datum value)) }
    ensures memory { IsTrue (is_borrowed tuple.now)
        → IsOkAnd result (λ value. IsTrue (is_borrowed value)) }
{
    match tuple.borrowed() {
        Some(tuple) => Ok(Value::Term(element(tuple, index))),
        None => {
            let element = element(tuple.operand(), index).copy()?;
            Ok(Value::Made(element))
        }
    }
}

/// The first element of a list that has one.
#[inline(never)]
pub fn head<'a, A: Allocator + Copy>(list: &Value<'a, A>) -> Result<Value<'a, A>, AllocError>
    requires { IsSome (head_of (value_datum list.now)) }
    ensures value { IfOk result (λ value. head_of (value_datum list.now)
        ≡ Some (value_datum value)) }
    ensures memory { IsTrue (is_borrowed list.now)
        → IsOkAnd result (λ value. IsTrue (is_borrowed value)) }
{
    match list.borrowed() {
        Some(list) => match list.split() {
            Some((head, _)) => Ok(Value::Term(head)),
            None => unreachable!(),
        },
        None => match list.operand().split() {
            Some((head, _)) => Ok(Value::Made(head.copy()?)),
            None => unreachable!(),
        },
    }
}

/// What follows the first element of a list that has one.
#[inline(never)]
pub fn tail<'a, A: Allocator + Copy>(
    alloc: A,
    list: &Value<'a, A>,
) -> Result<Value<'a, A>, AllocError>
    requires { IsSome (tail_behind (value_datum list.now)) }
    ensures value { IfOk result (λ value. tail_behind (value_datum list.now)
        ≡ Some (value_datum value)) }
    ensures memory { IsTrue (is_borrowed list.now)
        → IsOkAnd result (λ value. IsTrue (is_borrowed value)) }
{
    match list.borrowed() {
        Some(list) => match list.split() {
            Some((_, rest)) => Ok(Value::new(rest)),
            None => unreachable!(),
        },
        None => match list.operand().split() {
            Some((_, rest)) => Value::kept(alloc, rest),
            None => unreachable!(),
        },
    }
}

/// The value of a key in a map, none where the map has no such key.
#[inline(never)]
pub fn value_of<'a, A: Allocator + Copy>(
    map: &Value<'a, A>,
    key: &'a Term<A>,
) -> Result<Option<Value<'a, A>>, AllocError>
    ensures value { IfOk result (λ value. option_map value_datum value
        ≡ map_get_of key.now (value_datum map.now)) }
    ensures memory { IsTrue (is_borrowed map.now)
        → IsOkAnd result (λ value. IfSome value (λ value. IsTrue (is_borrowed value))) }
{
    let key = Operand::Term(key);
    match map.borrowed() {
        Some(map) => match map_get(key, map) {
            Some(value) => Ok(Some(Value::Term(value))),
            None => Ok(None),
        },
        None => match map_get(key, map.operand()) {
            Some(value) => Ok(Some(Value::Made(value.copy()?))),
            None => Ok(None),
        },
    }
}

/// Whether two values are the same term.
#[inline(never)]
pub fn are_same<A: Allocator>(left: &Value<'_, A>, right: &Value<'_, A>) -> bool
    ensures { result ≡ is_same (value_datum left.now) (value_datum right.now) }
{
    compare(left.operand(), right.operand()).is_eq()
}

/// What a function of two integers gives, none where it fails.
#[inline(never)]
pub fn computed<'a, A: Allocator>(
    function: Arithmetic,
    left: i64,
    right: i64,
) -> Option<Value<'a, A>>
    ensures value { option_map value_datum result
        ≡ option_map integer (arithmetic_of function left right) }
    ensures borrowed { IfSome result (λ value. IsTrue (is_borrowed value)) }
{
    match compute(function, left, right) {
        Some(number) => Some(Value::Int(number)),
        None => None,
    }
}
