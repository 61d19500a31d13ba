//! Copies of terms.
ghost use Rattle.std.specs.Prelude.{◌≡◌, IfOk};
ghost use Rattle.term_core.specs.Term.{datum_of, IsKept};

use super::{Shape, Term};
use std::alloc::{AllocError, Allocator};
use std::sync::Arc;

impl<A: Allocator> Term<A> {
    /// Returns a copy of the term. The copy shares its content, so it takes one step and no allocation, whatever the
    /// size of the term. Fails if 2^63 - 1 terms share the content already.
    pub fn copy(&self) -> Result<Self, AllocError>
        ensures { IfOk result (λ t. t ≡ self.now) }
    {
        let shape = copy_shape(&self.shape)?;
        Ok(Term { shape })
    }
}

/// Returns a copy of a term's representation, which shares the content.
fn copy_shape<A: Allocator>(shape: &Shape<A>) -> Result<Shape<A>, AllocError>
    ensures value { IfOk result (λ copied. datum_of copied ≡ datum_of shape.now) }
    ensures kept { IsKept shape.now → IfOk result (λ copied. IsKept copied) }
{
    match shape {
        Shape::Integer(value) => Ok(Shape::Integer(*value)),
        Shape::Nil => Ok(Shape::Nil),
        Shape::Unit => Ok(Shape::Unit),
        Shape::ShortAtom(count, bytes) => Ok(Shape::ShortAtom(*count, *bytes)),
        Shape::MiddleAtom(count, bytes) => Ok(Shape::MiddleAtom(*count, Arc::try_clone(bytes)?)),
        Shape::Atom(text) => Ok(Shape::Atom(Arc::try_clone(text)?)),
        Shape::TupleOfOne(depth, row) => Ok(Shape::TupleOfOne(*depth, Arc::try_clone(row)?)),
        Shape::TupleOfTwo(depth, row) => Ok(Shape::TupleOfTwo(*depth, Arc::try_clone(row)?)),
        Shape::TupleOfThree(depth, row) => Ok(Shape::TupleOfThree(*depth, Arc::try_clone(row)?)),
        Shape::TupleOfFour(depth, row) => Ok(Shape::TupleOfFour(*depth, Arc::try_clone(row)?)),
        Shape::TupleOfFive(depth, row) => Ok(Shape::TupleOfFive(*depth, Arc::try_clone(row)?)),
        Shape::TupleOfSix(depth, row) => Ok(Shape::TupleOfSix(*depth, Arc::try_clone(row)?)),
        Shape::Tuple(depth, elements) => Ok(Shape::Tuple(*depth, Arc::try_clone(elements)?)),
        Shape::ListOfOne(depth, row) => Ok(Shape::ListOfOne(*depth, Arc::try_clone(row)?)),
        Shape::ListOfTwo(depth, row) => Ok(Shape::ListOfTwo(*depth, Arc::try_clone(row)?)),
        Shape::ListOfThree(depth, row) => Ok(Shape::ListOfThree(*depth, Arc::try_clone(row)?)),
        Shape::ListOfFour(depth, row) => Ok(Shape::ListOfFour(*depth, Arc::try_clone(row)?)),
        Shape::List(depth, cells) => Ok(Shape::List(*depth, Arc::try_clone(cells)?)),
        Shape::Rest(depth, count, cells) => {
            Ok(Shape::Rest(*depth, *count, Arc::try_clone(cells)?))
        }
        Shape::MapOfOne(depth, pair) => Ok(Shape::MapOfOne(*depth, Arc::try_clone(pair)?)),
        Shape::MapOfTwo(depth, row) => Ok(Shape::MapOfTwo(*depth, Arc::try_clone(row)?)),
        Shape::MapOfThree(depth, row) => Ok(Shape::MapOfThree(*depth, Arc::try_clone(row)?)),
        Shape::MapOfFour(depth, row) => Ok(Shape::MapOfFour(*depth, Arc::try_clone(row)?)),
        Shape::Map(depth, pairs) => Ok(Shape::Map(*depth, Arc::try_clone(pairs)?)),
        Shape::ShortBinary(count, bytes) => Ok(Shape::ShortBinary(*count, *bytes)),
        Shape::MiddleBinary(count, bytes) => {
            Ok(Shape::MiddleBinary(*count, Arc::try_clone(bytes)?))
        }
        Shape::LargeBinary(count, bytes) => Ok(Shape::LargeBinary(*count, Arc::try_clone(bytes)?)),
        Shape::Binary(bytes) => Ok(Shape::Binary(Arc::try_clone(bytes)?)),
    }
}
