//! The rest of a list after its first elements, which shares the elements with the list.
ghost use Rattle.std.specs.Prelude.{◌≡◌, ◌<◌, ◌≤◌, length, drop, false, IfOk, IfErr, MatchOption, Some, IsTrue};
ghost use Rattle.term_core.specs.Datum.{cells as cells_of, items_of};
ghost use Rattle.term_core.specs.Limits.{IsTerm, depth as depth_of, items_depth};
ghost use Rattle.term_core.specs.ListParts.{HandsBack};
ghost use Rattle.term_core.specs.Parts.{rest_of, IsShared};
ghost use Rattle.term_core.specs.Term.{tail_of, IsRest};

use super::{Cells, ListParts, Shape, Term, extended, few_of, levels_of_tail};
use crate::fault::{Fault, Refused};
use std::alloc::{AllocError, Allocator};
use std::sync::Arc;

/// A rest with at most this many elements is copied instead of shared: the copy is a short list, which needs one
/// allocation.
const FEW: usize = 4;

/// Returns the elements after the first `count`.
#[inline(always)]
pub(super) fn behind<A: Allocator>(elements: &[Term<A>], count: usize) -> &[Term<A>]
    requires { count ≤ length elements.now }
    ensures { result.now ≡ drop count elements.now }
{
    &elements[count..]
}

/// Prepends elements to a rest of a list, by copying the rest's elements. The new list is within the limits.
pub(super) fn prepended_to_rest<A: Allocator>(
    alloc: A,
    depth: u8,
    elements: Vec<Term<A>, A>,
    kept: u8,
    count: u32,
    cells: Arc<Cells<A>, A>,
) -> Result<Term<A>, Refused<ListParts<A>>>
    requires some { 0 < length elements.items }
    requires list { IsRest kept count cells.value.elements.items cells.value.tail }
    requires list_within { IsTerm (cells_of (drop count cells.value.elements.items)
        (tail_of cells.value.tail)) }
    requires within { IsTerm (cells_of elements.items
        (cells_of (drop count cells.value.elements.items) (tail_of cells.value.tail))) }
    requires depth { depth ≡ depth_of (cells_of elements.items
        (cells_of (drop count cells.value.elements.items) (tail_of cells.value.tail))) }
    ensures ok { IfOk result (λ t. t ≡ cells_of elements.items
        (cells_of (drop count cells.value.elements.items) (tail_of cells.value.tail))) }
    ensures refused { IfErr result (λ r. HandsBack r.value elements.items
        (Some (cells_of (drop count cells.value.elements.items) (tail_of cells.value.tail)))
        × (r.fault ≡ Fault.Memory)) }
{
    match extended(
        alloc,
        elements,
        behind(cells.elements.as_slice(), count as usize),
        cells.tail.as_ref(),
    ) {
        Ok(cells) => Ok(Term {
            shape: Shape::List(depth, cells),
        }),
        Err(elements) => Err(Refused {
            value: ListParts {
                elements,
                tail: Some(Term {
                    shape: Shape::Rest(kept, count, cells),
                }),
            },
            fault: Fault::Memory,
        }),
    }
}

/// Returns whether at least one of these terms has at least this depth.
fn has_as_deep<A: Allocator>(elements: &[Term<A>], depth: u8) -> bool
    requires { 0 < depth }
    ensures some { IsTrue result → depth ≤ items_depth (items_of elements.now) }
    ensures none { result ≡ false → items_depth (items_of elements.now) < depth }
{
    for element in elements {
        if element.depth() >= depth {
            return true;
        }
    }
    false
}

/// Returns whether the list of these elements and this tail has at least this depth. The elements are looked at only if
/// the tail is not deep enough.
fn is_as_deep<A: Allocator>(elements: &[Term<A>], tail: &Option<Term<A>>, depth: u8) -> bool
    requires some { 0 < length elements.now }
    requires depth { 1 < depth }
    ensures some { IsTrue result → depth ≤ depth_of (cells_of elements.now (tail_of tail.now)) }
    ensures none { result ≡ false → depth_of (cells_of elements.now (tail_of tail.now)) < depth }
{
    let levels = depth - 1;
    if levels_of_tail(tail) >= levels {
        return true;
    }
    has_as_deep(elements, levels)
}

/// Returns the rest of a list, which may be a rest itself, after its first `count` elements, sharing the elements.
/// Returns `None` unless more than `FEW` elements remain and the rest is as deep as the list. Depth matters because a
/// rest keeps the elements before it, and no term may be less deep than what it keeps.
fn shared_rest_of<A: Allocator>(
    depth: u8,
    first: u32,
    count: usize,
    cells: &Arc<Cells<A>, A>,
) -> Result<Option<Term<A>>, AllocError>
    requires list { IsRest depth first cells.now.value.elements.items cells.now.value.tail }
    requires within { IsTerm (cells_of (drop first cells.now.value.elements.items)
        (tail_of cells.now.value.tail)) }
    ensures { IfOk result (λ found. MatchOption found
        (¬ IsShared count (cells_of (drop first cells.now.value.elements.items)
        (tail_of cells.now.value.tail)))
        (λ t. t ≡ rest_of count (cells_of (drop first cells.now.value.elements.items)
        (tail_of cells.now.value.tail)))) }
{
    let elements = behind(cells.elements.as_slice(), first as usize);
    if elements.len() <= FEW {
        return Ok(None);
    }
    if count >= elements.len() - FEW {
        return Ok(None);
    }
    if !is_as_deep(behind(elements, count), &cells.tail, depth) {
        return Ok(None);
    }
    let cells = Arc::try_clone(cells)?;
    Ok(Some(Term {
        shape: Shape::Rest(depth, first + count as u32, cells),
    }))
}

impl<A: Allocator> Term<A> {
    ghost use Rattle.std.specs.Prelude.{◌≡◌, IfOk, MatchOption};
    ghost use Rattle.term_core.specs.Parts.{rest_of, IsShared};

    /// Returns the rest of a list after its first `count` elements. It shares the elements with the list and needs no
    /// allocation. Returns `None` if the term is not a list, if at most four elements remain, or if the rest is less
    /// deep than the list. Fails if 2^63 - 1 terms share the elements already.
    pub fn shared_rest(&self, count: usize) -> Result<Option<Self>, AllocError>
        ensures { IfOk result (λ found. MatchOption found (¬ IsShared count self.now)
            (λ t. t ≡ rest_of count self.now)) }
    {
        match &self.shape {
            Shape::List(depth, cells) => shared_rest_of(*depth, 0, count, cells),
            Shape::Rest(depth, first, cells) => shared_rest_of(*depth, *first, count, cells),
            _ => {
                // The proof needs this read: it shows that a short list has at most four elements.
                let _few = few_of(&self.shape);
                Ok(None)
            }
        }
    }
}
