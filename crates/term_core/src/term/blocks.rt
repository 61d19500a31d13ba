//! Values of a vector, moved into one block of their own size if they are few.
ghost use Rattle.std.specs.Prelude.{◌≡◌, ◌<◌, ◌≤◌, ◌++◌, ◌∷◌, [], drop, length, take, vec_capacity, IfOk, IfErr, OnOk};
ghost use Rattle.term_core.specs.Datum.{cells, items_of};
ghost use Rattle.term_core.specs.Datum.Datum.{nil, tuple};
ghost use Rattle.term_core.specs.Limits.{depth as depth_of};
ghost use Rattle.term_core.specs.Term.{datum_of, IsKept};

use super::{Cells, Shape, Term, shared};
use crate::fault::{Fault, Refused};
use std::alloc::{AllocError, Allocator};
use std::sync::Arc;

/// Removes and returns the last value of a row that has one. The row keeps its capacity.
pub(super) fn last<T, A: Allocator>(row: &mut Vec<T, A>) -> T
    requires { 0 < length row.old.items }
    ensures value { row.old.items ≡ row.new.items ++ result ∷ [] }
    ensures room { vec_capacity row.new ≡ vec_capacity row.old }
{
    match row.pop() {
        Some(value) => value,
        None => unreachable!(),
    }
}

/// Removes and returns the last value of a row that has as many, in their order.
#[inline(always)]
fn last_one<T, A: Allocator>(row: &mut Vec<T, A>) -> [T; 1]
    requires { 1 ≤ length row.old.items }
    ensures values { row.old.items ≡ row.new.items ++ result }
    ensures room { vec_capacity row.new ≡ vec_capacity row.old }
{
    [last(row)]
}

/// Removes and returns the last two values of a row that has as many, in their order.
#[inline(always)]
fn last_two<T, A: Allocator>(row: &mut Vec<T, A>) -> [T; 2]
    requires { 2 ≤ length row.old.items }
    ensures values { row.old.items ≡ row.new.items ++ result }
    ensures room { vec_capacity row.new ≡ vec_capacity row.old }
{
    let second = last(row);
    [last(row), second]
}

/// Removes and returns the last three values of a row that has as many, in their order.
#[inline(always)]
fn last_three<T, A: Allocator>(row: &mut Vec<T, A>) -> [T; 3]
    requires { 3 ≤ length row.old.items }
    ensures values { row.old.items ≡ row.new.items ++ result }
    ensures room { vec_capacity row.new ≡ vec_capacity row.old }
{
    let third = last(row);
    let second = last(row);
    [last(row), second, third]
}

/// Removes and returns the last four values of a row that has as many, in their order.
#[inline(always)]
fn last_four<T, A: Allocator>(row: &mut Vec<T, A>) -> [T; 4]
    requires { 4 ≤ length row.old.items }
    ensures values { row.old.items ≡ row.new.items ++ result }
    ensures room { vec_capacity row.new ≡ vec_capacity row.old }
{
    let fourth = last(row);
    let third = last(row);
    let second = last(row);
    [last(row), second, third, fourth]
}

/// Removes and returns the last five values of a row that has as many, in their order.
#[inline(always)]
fn last_five<T, A: Allocator>(row: &mut Vec<T, A>) -> [T; 5]
    requires { 5 ≤ length row.old.items }
    ensures values { row.old.items ≡ row.new.items ++ result }
    ensures room { vec_capacity row.new ≡ vec_capacity row.old }
{
    let fifth = last(row);
    let fourth = last(row);
    let third = last(row);
    let second = last(row);
    [last(row), second, third, fourth, fifth]
}

/// Removes and returns the last six values of a row that has as many, in their order.
#[inline(always)]
fn last_six<T, A: Allocator>(row: &mut Vec<T, A>) -> [T; 6]
    requires { 6 ≤ length row.old.items }
    ensures values { row.old.items ≡ row.new.items ++ result }
    ensures room { vec_capacity row.new ≡ vec_capacity row.old }
{
    let sixth = last(row);
    let fifth = last(row);
    let fourth = last(row);
    let third = last(row);
    let second = last(row);
    [last(row), second, third, fourth, fifth, sixth]
}

/// Moves the only value of a row into a block. On failure, hands the row back.
fn block_of_one<T: Drop, A: Allocator>(
    alloc: A,
    mut row: Vec<T, A>,
) -> Result<Arc<[T; 1], A>, Refused<Vec<T, A>>>
    requires { length row.items ≡ 1 }
    ensures ok { IfOk result (λ b. b.value ≡ row.items) }
    ensures refused { IfErr result (λ r. (r.value.items ≡ row.items) × (r.fault ≡ Fault.Memory)) }
{
    match shared(alloc, last_one(&mut row)) {
        Ok(block) => Ok(block),
        Err(refused) => {
            let Refused {
                value: [first],
                fault,
            } = refused;
            row.push_reserved(first);
            Err(Refused { value: row, fault })
        }
    }
}

/// Moves the two values of a row into a block. On failure, hands the row back.
pub(super) fn block_of_two<T: Drop, A: Allocator>(
    alloc: A,
    mut row: Vec<T, A>,
) -> Result<Arc<[T; 2], A>, Refused<Vec<T, A>>>
    requires { length row.items ≡ 2 }
    ensures ok { IfOk result (λ b. b.value ≡ row.items) }
    ensures refused { IfErr result (λ r. (r.value.items ≡ row.items) × (r.fault ≡ Fault.Memory)) }
{
    match shared(alloc, last_two(&mut row)) {
        Ok(block) => Ok(block),
        Err(refused) => {
            let Refused {
                value: [first, second],
                fault,
            } = refused;
            row.push_reserved(first);
            row.push_reserved(second);
            Err(Refused { value: row, fault })
        }
    }
}

/// Moves the three values of a row into a block. On failure, hands the row back.
pub(super) fn block_of_three<T: Drop, A: Allocator>(
    alloc: A,
    mut row: Vec<T, A>,
) -> Result<Arc<[T; 3], A>, Refused<Vec<T, A>>>
    requires { length row.items ≡ 3 }
    ensures ok { IfOk result (λ b. b.value ≡ row.items) }
    ensures refused { IfErr result (λ r. (r.value.items ≡ row.items) × (r.fault ≡ Fault.Memory)) }
{
    match shared(alloc, last_three(&mut row)) {
        Ok(block) => Ok(block),
        Err(refused) => {
            let Refused {
                value: [first, second, third],
                fault,
            } = refused;
            row.push_reserved(first);
            row.push_reserved(second);
            row.push_reserved(third);
            Err(Refused { value: row, fault })
        }
    }
}

/// Moves the four values of a row into a block. On failure, hands the row back.
pub(super) fn block_of_four<T: Drop, A: Allocator>(
    alloc: A,
    mut row: Vec<T, A>,
) -> Result<Arc<[T; 4], A>, Refused<Vec<T, A>>>
    requires { length row.items ≡ 4 }
    ensures ok { IfOk result (λ b. b.value ≡ row.items) }
    ensures refused { IfErr result (λ r. (r.value.items ≡ row.items) × (r.fault ≡ Fault.Memory)) }
{
    match shared(alloc, last_four(&mut row)) {
        Ok(block) => Ok(block),
        Err(refused) => {
            let Refused {
                value: [first, second, third, fourth],
                fault,
            } = refused;
            row.push_reserved(first);
            row.push_reserved(second);
            row.push_reserved(third);
            row.push_reserved(fourth);
            Err(Refused { value: row, fault })
        }
    }
}

/// Moves the five values of a row into a block. On failure, hands the row back.
fn block_of_five<T: Drop, A: Allocator>(
    alloc: A,
    mut row: Vec<T, A>,
) -> Result<Arc<[T; 5], A>, Refused<Vec<T, A>>>
    requires { length row.items ≡ 5 }
    ensures ok { IfOk result (λ b. b.value ≡ row.items) }
    ensures refused { IfErr result (λ r. (r.value.items ≡ row.items) × (r.fault ≡ Fault.Memory)) }
{
    match shared(alloc, last_five(&mut row)) {
        Ok(block) => Ok(block),
        Err(refused) => {
            let Refused {
                value: [first, second, third, fourth, fifth],
                fault,
            } = refused;
            row.push_reserved(first);
            row.push_reserved(second);
            row.push_reserved(third);
            row.push_reserved(fourth);
            row.push_reserved(fifth);
            Err(Refused { value: row, fault })
        }
    }
}

/// Moves the six values of a row into a block. On failure, hands the row back.
fn block_of_six<T: Drop, A: Allocator>(
    alloc: A,
    mut row: Vec<T, A>,
) -> Result<Arc<[T; 6], A>, Refused<Vec<T, A>>>
    requires { length row.items ≡ 6 }
    ensures ok { IfOk result (λ b. b.value ≡ row.items) }
    ensures refused { IfErr result (λ r. (r.value.items ≡ row.items) × (r.fault ≡ Fault.Memory)) }
{
    match shared(alloc, last_six(&mut row)) {
        Ok(block) => Ok(block),
        Err(refused) => {
            let Refused {
                value: [first, second, third, fourth, fifth, sixth],
                fault,
            } = refused;
            row.push_reserved(first);
            row.push_reserved(second);
            row.push_reserved(third);
            row.push_reserved(fourth);
            row.push_reserved(fifth);
            row.push_reserved(sixth);
            Err(Refused { value: row, fault })
        }
    }
}

/// Makes the representation of the tuple of these elements, at least one, of the given depth. Up to six elements take
/// one block. On failure, hands the elements back.
pub(super) fn tuple_shape<A: Allocator>(
    alloc: A,
    depth: u8,
    elements: Vec<Term<A>, A>,
) -> Result<Shape<A>, Refused<Vec<Term<A>, A>>>
    requires { depth ≡ depth_of (tuple (items_of elements.items)) }
    ensures value { IfOk result (λ s. datum_of s ≡ tuple (items_of elements.items)) }
    ensures kept { IfOk result (λ s. IsKept s) }
    ensures refused { IfErr result (λ r. (r.value.items ≡ elements.items)
        × (r.fault ≡ Fault.Memory)) }
{
    match elements.len() {
        1 => Ok(Shape::TupleOfOne(depth, block_of_one(alloc, elements)?)),
        2 => Ok(Shape::TupleOfTwo(depth, block_of_two(alloc, elements)?)),
        3 => Ok(Shape::TupleOfThree(depth, block_of_three(alloc, elements)?)),
        4 => Ok(Shape::TupleOfFour(depth, block_of_four(alloc, elements)?)),
        5 => Ok(Shape::TupleOfFive(depth, block_of_five(alloc, elements)?)),
        6 => Ok(Shape::TupleOfSix(depth, block_of_six(alloc, elements)?)),
        _ => Ok(Shape::Tuple(depth, shared(alloc, elements)?)),
    }
}

/// Makes the representation of the list of these elements, at least one, and `[]`, of the given depth. Up to four
/// elements take one block. On failure, hands the elements back.
pub(super) fn proper_shape<A: Allocator>(
    alloc: A,
    depth: u8,
    elements: Vec<Term<A>, A>,
) -> Result<Shape<A>, Refused<Vec<Term<A>, A>>>
    requires some { 0 < length elements.items }
    requires depth { depth ≡ depth_of (cells elements.items nil) }
    ensures value { IfOk result (λ s. datum_of s ≡ cells elements.items nil) }
    ensures kept { IfOk result (λ s. IsKept s) }
    ensures refused { IfErr result (λ r. (r.value.items ≡ elements.items)
        × (r.fault ≡ Fault.Memory)) }
{
    match elements.len() {
        1 => Ok(Shape::ListOfOne(depth, block_of_one(alloc, elements)?)),
        2 => Ok(Shape::ListOfTwo(depth, block_of_two(alloc, elements)?)),
        3 => Ok(Shape::ListOfThree(depth, block_of_three(alloc, elements)?)),
        4 => Ok(Shape::ListOfFour(depth, block_of_four(alloc, elements)?)),
        _ => {
            let tail = None;
            match shared(alloc, Cells { elements, tail }) {
                Ok(cells) => Ok(Shape::List(depth, cells)),
                Err(refused) => {
                    let Refused {
                        value: cells,
                        fault,
                    } = refused;
                    let Cells { elements, tail: _ } = cells;
                    Err(Refused {
                        value: elements,
                        fault,
                    })
                }
            }
        }
    }
}

/// Moves a row's values from an index on into a row of their own.
fn split<T: Drop, A: Allocator + Copy>(
    row: &mut Vec<T, A>,
    base: usize,
) -> Result<Vec<T, A>, AllocError>
    requires { base ≤ length row.old.items }
    ensures { IfOk result (λ more. (row.new.items ≡ take base row.old.items)
        × (more.items ≡ drop base row.old.items)) }
{
    Ok(row.split_off(base)?)
}

/// Makes the representation of the tuple of a row's terms from an index on, of the given depth, and removes them from
/// the row. Up to six elements take one block. Fails if an allocation fails, when some of the terms may be removed.
#[inline(always)]
pub(super) fn tuple_of_last<A: Allocator + Copy>(
    alloc: A,
    depth: u8,
    row: &mut Vec<Term<A>, A>,
    base: usize,
) -> Result<Shape<A>, AllocError>
    requires within { base ≤ length row.old.items }
    requires depth { depth ≡ depth_of (tuple (items_of (drop base row.old.items))) }
    ensures rest { OnOk result (row.new.items ≡ take base row.old.items) }
    ensures value { IfOk result (λ s. datum_of s ≡ tuple (items_of (drop base row.old.items))) }
    ensures kept { IfOk result (λ s. IsKept s) }
{
    match row.len() - base {
        0 => Ok(Shape::Unit),
        1 => Ok(Shape::TupleOfOne(depth, Arc::new(alloc, last_one(row))?)),
        2 => Ok(Shape::TupleOfTwo(depth, Arc::new(alloc, last_two(row))?)),
        3 => Ok(Shape::TupleOfThree(depth, Arc::new(alloc, last_three(row))?)),
        4 => Ok(Shape::TupleOfFour(depth, Arc::new(alloc, last_four(row))?)),
        5 => Ok(Shape::TupleOfFive(depth, Arc::new(alloc, last_five(row))?)),
        6 => Ok(Shape::TupleOfSix(depth, Arc::new(alloc, last_six(row))?)),
        _ => Ok(Shape::Tuple(depth, Arc::new(alloc, split(row, base)?)?)),
    }
}

/// Makes the representation of the list of a row's terms from an index on, at least one, of the given depth, and removes
/// them from the row. Up to four elements take one block. Fails if an allocation fails, when some of the terms may be
/// removed.
#[inline(always)]
pub(super) fn list_of_last<A: Allocator + Copy>(
    alloc: A,
    depth: u8,
    row: &mut Vec<Term<A>, A>,
    base: usize,
) -> Result<Shape<A>, AllocError>
    requires some { base < length row.old.items }
    requires depth { depth ≡ depth_of (cells (drop base row.old.items) nil) }
    ensures rest { OnOk result (row.new.items ≡ take base row.old.items) }
    ensures value { IfOk result (λ s. datum_of s ≡ cells (drop base row.old.items) nil) }
    ensures kept { IfOk result (λ s. IsKept s) }
{
    match row.len() - base {
        1 => Ok(Shape::ListOfOne(depth, Arc::new(alloc, last_one(row))?)),
        2 => Ok(Shape::ListOfTwo(depth, Arc::new(alloc, last_two(row))?)),
        3 => Ok(Shape::ListOfThree(depth, Arc::new(alloc, last_three(row))?)),
        4 => Ok(Shape::ListOfFour(depth, Arc::new(alloc, last_four(row))?)),
        _ => {
            let elements = split(row, base)?;
            let tail = None;
            Ok(Shape::List(depth, Arc::new(alloc, Cells { elements, tail })?))
        }
    }
}
