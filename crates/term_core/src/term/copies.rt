//! Tuples and lists of copies of terms.
ghost use Rattle.std.specs.Prelude.{◌≡◌, ◌<◌, [], length, IfOk, IfErr};
ghost use Rattle.std.specs.Prelude.{map as each};
ghost use Rattle.term_core.specs.Datum.{cells, items_of};
ghost use Rattle.term_core.specs.Datum.Datum.{nil, tuple};
ghost use Rattle.term_core.specs.Fault.{IsDepthOf, IsFault};
ghost use Rattle.term_core.specs.Limits.{AreSound, depth as depth_of, items_depth};
ghost use Rattle.term_core.specs.Term.{datum_of, IsKept};

use super::{Shape, Term, blocks};
use crate::fault::Fault;
use crate::{MAX_DEPTH, MAX_LIST, MAX_TUPLE};
use std::alloc::{AllocError, Allocator};
use std::sync::Arc;

/// Returns the greatest depth of these terms, 0 if there are none.
#[inline(always)]
fn deepest<A: Allocator>(terms: &[&Term<A>]) -> u8
    ensures value { result ≡ items_depth (items_of (each (λ term. term.now) terms.now)) }
    ensures sound { AreSound (items_of (each (λ term. term.now) terms.now)) }
{
    let mut deepest = 0;
    for term in terms {
        deepest = deepest.max(term.depth());
    }
    deepest
}

/// Returns the depth of the list of these terms, at least one. Fails if it would be too deep or too long.
#[inline(always)]
fn list_depth<A: Allocator>(terms: &[&Term<A>]) -> Result<u8, Fault>
    requires { 0 < length terms.now }
    ensures ok { IfOk result (λ d. IsDepthOf d (cells (each (λ term. term.now) terms.now) nil)) }
    ensures refused { IfErr result (λ fault. IsFault fault
        (cells (each (λ term. term.now) terms.now) nil)) }
{
    let deepest = deepest(terms).max(1);
    if deepest >= MAX_DEPTH {
        return Err(Fault::TooDeep);
    }
    if terms.len() > MAX_LIST {
        return Err(Fault::TooLong);
    }
    Ok(deepest + 1)
}

/// Returns copies of these terms, in their order.
fn copies<A: Allocator>(alloc: A, terms: &[&Term<A>]) -> Result<Vec<Term<A>, A>, AllocError>
    ensures { IfOk result (λ copies. copies.items ≡ each (λ term. term.now) terms.now) }
{
    let mut copies = Vec::with_capacity(alloc, terms.len())?;
    for term in terms {
        copies.push(term.copy()?)?;
    }
    Ok(copies)
}

/// Makes the representation of the tuple of copies of these terms, of the given depth. Fails if an allocation fails.
#[inline(always)]
fn tuple_shape<A: Allocator + Copy>(
    alloc: A,
    depth: u8,
    terms: &[&Term<A>],
) -> Result<Shape<A>, AllocError>
    requires { depth ≡ depth_of (tuple (items_of (each (λ term. term.now) terms.now))) }
    ensures value { IfOk result (λ s. datum_of s
        ≡ tuple (items_of (each (λ term. term.now) terms.now))) }
    ensures kept { IfOk result (λ s. IsKept s) }
{
    match terms {
        [] => Ok(Shape::Unit),
        [first] => Ok(Shape::TupleOfOne(depth, Arc::new(alloc, [first.copy()?])?)),
        [first, second] => {
            let row = [first.copy()?, second.copy()?];
            Ok(Shape::TupleOfTwo(depth, Arc::new(alloc, row)?))
        }
        [first, second, third] => {
            let row = [first.copy()?, second.copy()?, third.copy()?];
            Ok(Shape::TupleOfThree(depth, Arc::new(alloc, row)?))
        }
        [first, second, third, fourth] => {
            let row = [first.copy()?, second.copy()?, third.copy()?, fourth.copy()?];
            Ok(Shape::TupleOfFour(depth, Arc::new(alloc, row)?))
        }
        many => match blocks::tuple_shape(alloc, depth, copies(alloc, many)?) {
            Ok(shape) => Ok(shape),
            Err(_refused) => Err(AllocError),
        },
    }
}

/// Makes the representation of the list of copies of these terms, at least one, of the given depth. Fails if an
/// allocation fails.
#[inline(always)]
fn list_shape<A: Allocator + Copy>(
    alloc: A,
    depth: u8,
    terms: &[&Term<A>],
) -> Result<Shape<A>, AllocError>
    requires some { 0 < length terms.now }
    requires depth { depth ≡ depth_of (cells (each (λ term. term.now) terms.now) nil) }
    ensures value { IfOk result (λ s. datum_of s ≡ cells (each (λ term. term.now) terms.now) nil) }
    ensures kept { IfOk result (λ s. IsKept s) }
{
    match terms {
        [first] => Ok(Shape::ListOfOne(depth, Arc::new(alloc, [first.copy()?])?)),
        [first, second] => {
            let row = [first.copy()?, second.copy()?];
            Ok(Shape::ListOfTwo(depth, Arc::new(alloc, row)?))
        }
        [first, second, third] => {
            let row = [first.copy()?, second.copy()?, third.copy()?];
            Ok(Shape::ListOfThree(depth, Arc::new(alloc, row)?))
        }
        [first, second, third, fourth] => {
            let row = [first.copy()?, second.copy()?, third.copy()?, fourth.copy()?];
            Ok(Shape::ListOfFour(depth, Arc::new(alloc, row)?))
        }
        many => match blocks::proper_shape(alloc, depth, copies(alloc, many)?) {
            Ok(shape) => Ok(shape),
            Err(_refused) => Err(AllocError),
        },
    }
}

impl<A: Allocator + Copy> Term<A> {
    /// Makes the tuple of copies of these terms. Up to six elements take one block. Fails if it would be deeper than
    /// `MAX_DEPTH`, if there are more than `MAX_TUPLE` elements, or if an allocation fails.
    #[inline(always)]
    pub fn tuple_of_copies(alloc: A, elements: &[&Term<A>]) -> Result<Self, Fault>
        ensures ok { IfOk result (λ t. t ≡ tuple (items_of (each (λ term. term.now) elements.now))) }
        ensures refused { IfErr result (λ fault. IsFault fault
            (tuple (items_of (each (λ term. term.now) elements.now)))) }
    {
        let deepest = deepest(elements);
        if deepest >= MAX_DEPTH {
            return Err(Fault::TooDeep);
        }
        if elements.len() > MAX_TUPLE {
            return Err(Fault::TooLong);
        }
        match tuple_shape(alloc, deepest + 1, elements) {
            Ok(shape) => Ok(Term { shape }),
            Err(AllocError) => Err(Fault::Memory),
        }
    }

    /// Makes the list of copies of these terms. Up to four elements take one block. Fails if it would be deeper than
    /// `MAX_DEPTH`, if there are more than `MAX_LIST` elements, or if an allocation fails.
    #[inline(always)]
    pub fn list_of_copies(alloc: A, elements: &[&Term<A>]) -> Result<Self, Fault>
        ensures ok { IfOk result (λ t. t ≡ cells (each (λ term. term.now) elements.now) nil) }
        ensures refused { IfErr result (λ fault. IsFault fault
            (cells (each (λ term. term.now) elements.now) nil)) }
    {
        if elements.is_empty() {
            return Ok(Term::nil());
        }
        match list_depth(elements) {
            Ok(depth) => match list_shape(alloc, depth, elements) {
                Ok(shape) => Ok(Term { shape }),
                Err(AllocError) => Err(Fault::Memory),
            },
            Err(fault) => Err(fault),
        }
    }
}
