//! The type of terms, and how terms are made and read.
ghost use Rattle.std.specs.Prelude.{◌≡◌, ◌<◌, ◌≤◌, ◌++◌, ◌∷◌, [], None, Some, length, take, IfOk, IfErr, IfSome, IsSome, OnOk};
ghost use Rattle.std.specs.Option.{option_copied};
ghost use Rattle.term_core.specs.Datum.{items_of, cells as cells_of, cell_count, IsNoList};
ghost use Rattle.term_core.specs.Datum.Datum.{nil};
ghost use Rattle.term_core.specs.Term.{tail_of, datum_of, few_items, IsTail, IsList, IsKept, IsFew};
ghost use Rattle.term_core.specs.ListParts.{HandsBack};
ghost use Rattle.term_core.specs.Fault.{IsFault, IsDepthOf};
ghost use Rattle.term_core.specs.Limits.{IsTerm, IsSound, tail_depth, depth as depth_of, items_depth, AreSound};

use crate::fault::{Fault, Refused};
use crate::view::View;
use crate::{MAX_DEPTH, MAX_LIST, MAX_TUPLE};
use std::alloc::{AllocError, Allocator, Global};
use std::marker::Model;
use std::mem::size_of;
use std::slice;
use std::sync::Arc;

mod binary;
mod blocks;
mod bytes;
mod copies;
mod copy;
mod last;
mod map;
mod pairs;
mod rest;
mod same;
mod short_row;
mod text;

use blocks::{proper_shape, tuple_shape};
use bytes::{front, front_text};
pub use pairs::neighbours_differ;
use rest::{behind, prepended_to_rest};
pub use same::is_same;
pub use short_row::ShortRow;
pub(crate) use text::text_length;

/// A term: an integer, an atom, a tuple, a list, a map or a binary.
#[cycle(term)]
pub struct Term<A: Allocator = Global> {
    shape: Shape<A>,
}

/// Written by hand, so that the proof of a function that drops a term has one call there, and not a case for each shape.
impl<A: Allocator> Drop for Term<A> {
    #[cycle(term)]
    #[inline(always)]
    fn drop(self) {
        let Term { shape } = self;
        drop(shape);
    }
}

/// The largest number of bytes of an atom or a binary that is stored in the term itself, without an allocation.
const SHORT: usize = 14;
/// The largest number of bytes of an atom or a binary that is stored in one block of that size.
const MIDDLE: usize = 32;
/// The largest number of bytes of a binary that is stored in one block of that size.
const LARGE: usize = 48;

/// The representation of a term. Each kind that can contain terms has its depth, except `Unit`, which is `{}`. Copies
/// share what is allocated.
///
/// An atom is UTF-8. It is in the term itself (`ShortAtom`), in one block, or in a string: it has the smallest of these
/// forms. A number of bytes precedes a row that may have more room; zeros follow the bytes in the term itself. The
/// shortest tuples, lists and maps are one block of their own size. A `Rest` is what remains of a list after its first
/// elements: it has their number, and shares the elements with the list.
#[cycle(term)]
#[derive(Drop)]
enum Shape<A: Allocator> {
    Integer(i64),
    Nil,
    ShortAtom(u8, [u8; SHORT]),
    MiddleAtom(u8, Arc<[u8; MIDDLE], A>),
    Atom(Arc<String<A>, A>),
    Unit,
    TupleOfOne(u8, Arc<[Term<A>; 1], A>),
    TupleOfTwo(u8, Arc<[Term<A>; 2], A>),
    TupleOfThree(u8, Arc<[Term<A>; 3], A>),
    TupleOfFour(u8, Arc<[Term<A>; 4], A>),
    TupleOfFive(u8, Arc<[Term<A>; 5], A>),
    TupleOfSix(u8, Arc<[Term<A>; 6], A>),
    Tuple(u8, Arc<Vec<Term<A>, A>, A>),
    ListOfOne(u8, Arc<[Term<A>; 1], A>),
    ListOfTwo(u8, Arc<[Term<A>; 2], A>),
    ListOfThree(u8, Arc<[Term<A>; 3], A>),
    ListOfFour(u8, Arc<[Term<A>; 4], A>),
    List(u8, Arc<Cells<A>, A>),
    Rest(u8, u32, Arc<Cells<A>, A>),
    MapOfOne(u8, Arc<(Term<A>, Term<A>), A>),
    MapOfTwo(u8, Arc<[(Term<A>, Term<A>); 2], A>),
    MapOfThree(u8, Arc<[(Term<A>, Term<A>); 3], A>),
    MapOfFour(u8, Arc<[(Term<A>, Term<A>); 4], A>),
    Map(u8, Arc<Vec<(Term<A>, Term<A>), A>, A>),
    ShortBinary(u8, [u8; SHORT]),
    MiddleBinary(u8, Arc<[u8; MIDDLE], A>),
    LargeBinary(u8, Arc<[u8; LARGE], A>),
    Binary(Arc<Vec<u8, A>, A>),
}

// A term takes 16 bytes.
const _: () = prove!(size_of::<Term<Global>>() == 16);

/// The elements of a list that is not empty, and its tail if it is not `[]`. The tail is never a list.
#[cycle(term)]
#[derive(Drop)]
struct Cells<A: Allocator> {
    elements: Vec<Term<A>, A>,
    tail: Option<Term<A>>,
}

/// The parts of a list, handed back by a call that failed to make it.
#[derive(Drop)]
pub struct ListParts<A: Allocator = Global> {
    /// The elements.
    pub elements: Vec<Term<A>, A>,
    /// The tail, if there is one.
    pub tail: Option<Term<A>>,
}

impl<A: Allocator> Model for Term<A> {
    ghost use Rattle.term_core.specs.Datum.{Datum};
    ghost use Rattle.term_core.specs.DatumCode.{datum_code};

    ghost Value = { Datum };

    ghost coded = { datum_code };

    ghost use Rattle.term_core.specs.Term.{datum_of, IsKept};
    ghost use Rattle.term_core.specs.Limits.{IsTerm, depth};

    ghost view = { λ t. datum_of t.shape };

    ghost invariant = { λ t. IsTerm (datum_of t.shape) × IsKept t.shape };

    ghost size = { depth };

    ghost use Rattle.term_core.specs.TermFalls.{parts_fall};

    ghost size_decreases = { λ t h. parts_fall A.Allocator t.shape h.1 };
}

/// Moves a value into shared memory. Hands it back if the allocation fails.
fn shared<T, A: Allocator>(alloc: A, value: T) -> Result<Arc<T, A>, Refused<T>>
    ensures ok { IfOk result (λ b. b.value ≡ value) }
    ensures refused { IfErr result (λ r. (r.value ≡ value) × (r.fault ≡ Fault.Memory)) }
{
    Arc::new(alloc, value).map_err(|failed| Refused {
        value: failed.value,
        fault: Fault::Memory,
    })
}

/// Returns the greatest depth of these terms, 0 if there are none.
pub fn deepest<A: Allocator>(terms: &[Term<A>]) -> u8
    ensures value { result ≡ items_depth (items_of terms.now) }
    ensures sound { AreSound (items_of terms.now) }
{
    let mut deepest = 0;
    for term in terms {
        deepest = deepest.max(term.depth());
    }
    deepest
}

/// Returns the elements of a list of one to four, and none of another shape.
fn few_of<A: Allocator>(shape: &Shape<A>) -> &[Term<A>]
    ensures elements { result.now ≡ few_items shape.now }
    ensures few { length result.now ≤ 4 }
{
    match shape {
        Shape::ListOfOne(_, elements) => &elements[..],
        Shape::ListOfTwo(_, elements) => &elements[..],
        Shape::ListOfThree(_, elements) => &elements[..],
        Shape::ListOfFour(_, elements) => &elements[..],
        _ => &[],
    }
}

/// Returns what a tail adds to the depth of its list: for a tail that is a list, the depth of its deepest element or of
/// its own tail; for another tail, its depth; 1 without a tail.
fn levels_of_tail<A: Allocator>(tail: &Option<Term<A>>) -> u8
    ensures value { result ≡ tail_depth (tail_of tail.now) }
    ensures sound { IsSound (tail_of tail.now) }
{
    let Some(tail) = tail else {
        return 1;
    };
    match &tail.shape {
        Shape::ListOfOne(depth, _) => *depth - 1,
        Shape::ListOfTwo(depth, _) => *depth - 1,
        Shape::ListOfThree(depth, _) => *depth - 1,
        Shape::ListOfFour(depth, _) => *depth - 1,
        Shape::List(depth, _) => *depth - 1,
        Shape::Rest(depth, _, _) => *depth - 1,
        _ => tail.depth(),
    }
}

/// Returns the number of elements that a tail adds to its list, 0 if the tail is not a list.
fn length_of_tail<A: Allocator>(tail: &Option<Term<A>>) -> usize
    ensures value { result ≡ cell_count (tail_of tail.now) }
    ensures within { result ≤ MAX_LIST }
{
    let Some(tail) = tail else {
        return 0;
    };
    match &tail.shape {
        Shape::ListOfOne(_, row) => row[..].len(),
        Shape::ListOfTwo(_, row) => row[..].len(),
        Shape::ListOfThree(_, row) => row[..].len(),
        Shape::ListOfFour(_, row) => row[..].len(),
        Shape::List(_, cells) => cells.elements.len(),
        Shape::Rest(_, count, cells) => cells.elements.len() - *count as usize,
        _ => 0,
    }
}

/// Returns the depth of the list with these elements, at least one, and this tail. Fails if it would be too deep or too
/// long.
fn list_depth<A: Allocator>(elements: &[Term<A>], tail: &Option<Term<A>>) -> Result<u8, Fault>
    requires { 0 < length elements.now }
    ensures ok { IfOk result (λ d. IsDepthOf d (cells_of elements.now (tail_of tail.now))) }
    ensures refused { IfErr result (λ fault. IsFault fault
        (cells_of elements.now (tail_of tail.now))) }
{
    let deepest = deepest(elements).max(levels_of_tail(tail));
    if deepest >= MAX_DEPTH {
        return Err(Fault::TooDeep);
    }
    if elements.len() > MAX_LIST - length_of_tail(tail) {
        return Err(Fault::TooLong);
    }
    Ok(deepest + 1)
}

/// Makes the list of these elements, at least one, and `[]`. The list is within the limits.
fn without_tail<A: Allocator>(
    alloc: A,
    depth: u8,
    elements: Vec<Term<A>, A>,
) -> Result<Term<A>, Refused<Vec<Term<A>, A>>>
    requires some { 0 < length elements.items }
    requires depth { depth ≡ depth_of (cells_of elements.items nil) }
    requires within { IsTerm (cells_of elements.items nil) }
    ensures ok { IfOk result (λ t. t ≡ cells_of elements.items nil) }
    ensures refused { IfErr result (λ r. (r.value.items ≡ elements.items)
        × (r.fault ≡ Fault.Memory)) }
{
    let shape = proper_shape(alloc, depth, elements)?;
    Ok(Term { shape })
}

/// Makes the list of these elements, at least one, and a tail that is not a list. The list is within the limits.
fn with_tail<A: Allocator>(
    alloc: A,
    depth: u8,
    elements: Vec<Term<A>, A>,
    tail: Term<A>,
) -> Result<Term<A>, Refused<ListParts<A>>>
    requires some { 0 < length elements.items }
    requires tail { IsNoList tail }
    requires within { IsTerm (cells_of elements.items tail) }
    requires depth { depth ≡ depth_of (cells_of elements.items tail) }
    ensures ok { IfOk result (λ t. t ≡ cells_of elements.items tail) }
    ensures refused { IfErr result (λ r. HandsBack r.value elements.items (Some tail)
        × (r.fault ≡ Fault.Memory)) }
{
    let tail = Some(tail);
    match shared(alloc, Cells { elements, tail }) {
        Ok(cells) => Ok(Term {
            shape: Shape::List(depth, cells),
        }),
        Err(refused) => Err(Refused {
            value: ListParts {
                elements: refused.value.elements,
                tail: refused.value.tail,
            },
            fault: refused.fault,
        }),
    }
}

/// Appends copies of the terms `more` to `elements`, and returns a copy of the tail. On failure, elements that were
/// there before are unchanged, but some copies may have been appended.
fn append_copies<A: Allocator>(
    elements: &mut Vec<Term<A>, A>,
    more: &[Term<A>],
    tail: Option<&Term<A>>,
) -> Result<Option<Term<A>>, AllocError>
    ensures kept { take (length elements.old.items) elements.new.items ≡ elements.old.items }
    ensures items { OnOk result (elements.new.items ≡ elements.old.items ++ more.now) }
    ensures tail { IfOk result (λ t. t ≡ option_copied tail.entry) }
{
    for element in more {
        elements.push(element.copy()?)?;
    }
    match tail {
        None => Ok(None),
        Some(tail) => Ok(Some(tail.copy()?)),
    }
}

/// Makes a list's content from `elements`, followed by copies of `more` and of the tail. On failure, hands back
/// `elements` unchanged.
fn extended<'t, A: Allocator>(
    alloc: A,
    mut elements: Vec<Term<A>, A>,
    more: &'t [Term<A>],
    tail: Option<&'t Term<A>>,
) -> Result<Arc<Cells<A>, A>, Vec<Term<A>, A>>
    ensures elements { IfOk result (λ cells.
        cells.value.elements.items ≡ elements.items ++ more.now) }
    ensures tail { IfOk result (λ cells. cells.value.tail ≡ option_copied tail.entry) }
    ensures refused { IfErr result (λ kept. kept.items ≡ elements.items) }
{
    let count = elements.len();
    let mut elements = match append_copies(&mut elements, more, tail) {
        Ok(tail) => match shared(alloc, Cells { elements, tail }) {
            Ok(cells) => return Ok(cells),
            Err(refused) => refused.value.elements,
        },
        Err(AllocError) => elements,
    };
    elements.truncate(count);
    Err(elements)
}

/// Prepends elements to a list that other terms share, by copying its elements. The new list is within the limits.
fn prepended_to_shared<A: Allocator>(
    alloc: A,
    depth: u8,
    elements: Vec<Term<A>, A>,
    kept: u8,
    cells: Arc<Cells<A>, A>,
) -> Result<Term<A>, Refused<ListParts<A>>>
    requires some { 0 < length elements.items }
    requires list { IsList kept cells.value.elements.items cells.value.tail }
    requires list_within { IsTerm (cells_of cells.value.elements.items (tail_of cells.value.tail)) }
    requires within { IsTerm (cells_of elements.items
        (cells_of cells.value.elements.items (tail_of cells.value.tail))) }
    requires depth { depth ≡ depth_of (cells_of elements.items
        (cells_of cells.value.elements.items (tail_of cells.value.tail))) }
    ensures ok { IfOk result (λ t. t ≡ cells_of elements.items
        (cells_of cells.value.elements.items (tail_of cells.value.tail))) }
    ensures refused { IfErr result (λ r. HandsBack r.value elements.items
        (Some (cells_of cells.value.elements.items (tail_of cells.value.tail)))
        × (r.fault ≡ Fault.Memory)) }
{
    match extended(
        alloc,
        elements,
        cells.elements.as_slice(),
        cells.tail.as_ref(),
    ) {
        Ok(cells) => Ok(Term {
            shape: Shape::List(depth, cells),
        }),
        Err(elements) => Err(Refused {
            value: ListParts {
                elements,
                tail: Some(Term {
                    shape: Shape::List(kept, cells),
                }),
            },
            fault: Fault::Memory,
        }),
    }
}

/// Makes the list of `elements` followed by those of a list of one to four, which is within the limits. On failure, hands
/// back the elements and the list.
fn prepended_to_few<A: Allocator>(
    alloc: A,
    depth: u8,
    elements: Vec<Term<A>, A>,
    few: Shape<A>,
) -> Result<Term<A>, Refused<ListParts<A>>>
    requires some { 0 < length elements.items }
    requires list { IsFew few }
    requires kept { IsKept few }
    requires list_within { IsTerm (datum_of few) }
    requires within { IsTerm (cells_of elements.items (datum_of few)) }
    requires depth { depth ≡ depth_of (cells_of elements.items (datum_of few)) }
    ensures ok { IfOk result (λ t. t ≡ cells_of elements.items (datum_of few)) }
    ensures refused { IfErr result (λ r. HandsBack r.value elements.items (Some (datum_of few))
        × (r.fault ≡ Fault.Memory)) }
{
    match extended(alloc, elements, few_of(&few), None) {
        Ok(cells) => Ok(Term {
            shape: Shape::List(depth, cells),
        }),
        Err(elements) => Err(Refused {
            value: ListParts {
                elements,
                tail: Some(Term { shape: few }),
            },
            fault: Fault::Memory,
        }),
    }
}

/// Prepends elements to a list. Moves the list's elements if no other term shares them, otherwise copies them. The new
/// list is within the limits.
fn prepended<A: Allocator>(
    alloc: A,
    depth: u8,
    mut elements: Vec<Term<A>, A>,
    kept: u8,
    mut cells: Arc<Cells<A>, A>,
) -> Result<Term<A>, Refused<ListParts<A>>>
    requires some { 0 < length elements.items }
    requires list { IsList kept cells.value.elements.items cells.value.tail }
    requires list_within { IsTerm (cells_of cells.value.elements.items (tail_of cells.value.tail)) }
    requires within { IsTerm (cells_of elements.items
        (cells_of cells.value.elements.items (tail_of cells.value.tail))) }
    requires depth { depth ≡ depth_of (cells_of elements.items
        (cells_of cells.value.elements.items (tail_of cells.value.tail))) }
    ensures ok { IfOk result (λ t. t ≡ cells_of elements.items
        (cells_of cells.value.elements.items (tail_of cells.value.tail))) }
    ensures refused { IfErr result (λ r. HandsBack r.value elements.items
        (Some (cells_of cells.value.elements.items (tail_of cells.value.tail)))
        × (r.fault ≡ Fault.Memory)) }
{
    let Some(held) = Arc::get_mut(&mut cells) else {
        return prepended_to_shared(alloc, depth, elements, kept, cells);
    };
    match elements.append(&mut held.elements) {
        Ok(()) => {
            held.elements = elements;
            Ok(Term {
                shape: Shape::List(depth, cells),
            })
        }
        Err(AllocError) => Err(Refused {
            value: ListParts {
                elements,
                tail: Some(Term {
                    shape: Shape::List(kept, cells),
                }),
            },
            fault: Fault::Memory,
        }),
    }
}

/// Makes the list of these elements, at least one, and a tail of this representation. The list is within the limits.
fn joined<A: Allocator>(
    alloc: A,
    depth: u8,
    elements: Vec<Term<A>, A>,
    tail: Shape<A>,
) -> Result<Term<A>, Refused<ListParts<A>>>
    requires some { 0 < length elements.items }
    requires kept { IsKept tail }
    requires tail_within { IsTerm (datum_of tail) }
    requires within { IsTerm (cells_of elements.items (datum_of tail)) }
    requires depth { depth ≡ depth_of (cells_of elements.items (datum_of tail)) }
    ensures ok { IfOk result (λ t. t ≡ cells_of elements.items (datum_of tail)) }
    ensures refused { IfErr result (λ r. HandsBack r.value elements.items (Some (datum_of tail))
        × (r.fault ≡ Fault.Memory)) }
{
    match tail {
        Shape::Nil => with_nil(alloc, depth, elements),
        Shape::ListOfOne(kept, row) => {
            prepended_to_few(alloc, depth, elements, Shape::ListOfOne(kept, row))
        }
        Shape::ListOfTwo(kept, row) => {
            prepended_to_few(alloc, depth, elements, Shape::ListOfTwo(kept, row))
        }
        Shape::ListOfThree(kept, row) => {
            prepended_to_few(alloc, depth, elements, Shape::ListOfThree(kept, row))
        }
        Shape::ListOfFour(kept, row) => {
            prepended_to_few(alloc, depth, elements, Shape::ListOfFour(kept, row))
        }
        Shape::List(kept, cells) => prepended(alloc, depth, elements, kept, cells),
        Shape::Rest(kept, count, cells) => {
            prepended_to_rest(alloc, depth, elements, kept, count, cells)
        }
        shape => with_tail(alloc, depth, elements, Term { shape }),
    }
}

/// Makes the list of these elements, at least one, and this tail, if any. The list is within the limits.
fn joined_to<A: Allocator>(
    alloc: A,
    depth: u8,
    elements: Vec<Term<A>, A>,
    tail: Option<Term<A>>,
) -> Result<Term<A>, Refused<ListParts<A>>>
    requires some { 0 < length elements.items }
    requires depth { IsDepthOf depth (cells_of elements.items (tail_of tail)) }
    ensures ok { IfOk result (λ t. t ≡ cells_of elements.items (tail_of tail)) }
    ensures refused { IfErr result (λ r. HandsBack r.value elements.items tail
        × (r.fault ≡ Fault.Memory)) }
{
    match tail {
        Some(tail) => joined(alloc, depth, elements, tail.into_shape()),
        None => match without_tail(alloc, depth, elements) {
            Ok(list) => Ok(list),
            Err(refused) => {
                let Refused {
                    value: elements,
                    fault,
                } = refused;
                let tail = None;
                Err(Refused {
                    value: ListParts { elements, tail },
                    fault,
                })
            }
        },
    }
}

/// Makes the list of these elements, at least one, with `[]` given explicitly as the tail. On failure, the tail handed
/// back is `[]`.
fn with_nil<A: Allocator>(
    alloc: A,
    depth: u8,
    elements: Vec<Term<A>, A>,
) -> Result<Term<A>, Refused<ListParts<A>>>
    requires some { 0 < length elements.items }
    requires within { IsTerm (cells_of elements.items nil) }
    requires depth { depth ≡ depth_of (cells_of elements.items nil) }
    ensures ok { IfOk result (λ t. t ≡ cells_of elements.items nil) }
    ensures refused { IfErr result (λ r. HandsBack r.value elements.items (Some nil)
        × (r.fault ≡ Fault.Memory)) }
{
    match without_tail(alloc, depth, elements) {
        Ok(list) => Ok(list),
        Err(refused) => {
            let Refused {
                value: elements,
                fault,
            } = refused;
            let tail = Some(Term::nil());
            Err(Refused {
                value: ListParts { elements, tail },
                fault,
            })
        }
    }
}

impl<A: Allocator> Term<A> {
    ghost use Rattle.std.specs.Prelude.{◌≡◌, ◌≤◌, ◌∷◌, [], length, Some, None, MatchOption, IfOk, IfErr, IfSome, IsSome};
    ghost use Rattle.std.specs.Option.{option_copied};
    ghost use Rattle.term_core.specs.Datum.{items_of, cells as cells_of, proper_elements};
    ghost use Rattle.term_core.specs.Term.{tail_of};
    ghost use Rattle.term_core.specs.ListParts.{HandsBack};
    ghost use Rattle.term_core.specs.Datum.Datum.{integer, nil, atom, binary, tuple};
    ghost use Rattle.term_core.specs.Fault.{IsFault};
    ghost use Rattle.term_core.specs.View.{shown, IsSplit};
    ghost use Rattle.term_core.specs.Limits.{IsTerm, depth};
    ghost use Rattle.term_core.specs.Parts.{field_of, is_tuple_of, is_map};

    /// Makes an integer.
    pub fn int(value: i64) -> Self
        ensures { result ≡ integer value }
    {
        Term {
            shape: Shape::Integer(value),
        }
    }

    /// Makes the empty list `[]`.
    pub fn nil() -> Self
        ensures { result ≡ nil }
    {
        Term { shape: Shape::Nil }
    }

    /// The shape of the term, which is all that it is.
    #[inline(always)]
    fn into_shape(self) -> Shape<A>
        ensures value { datum_of result ≡ self }
        ensures kept { IsKept result }
    {
        let Term { shape } = self;
        shape
    }

    /// Makes a tuple of these elements. Fails if it would be deeper than `MAX_DEPTH`, if there are more than
    /// `MAX_TUPLE` elements, or if an allocation fails. On failure, hands the elements back.
    pub fn tuple(alloc: A, elements: Vec<Term<A>, A>) -> Result<Self, Refused<Vec<Term<A>, A>>>
        ensures ok { IfOk result (λ t. t ≡ tuple (items_of elements.items)) }
        ensures refused { IfErr result (λ r. (r.value.items ≡ elements.items)
            × IsFault r.fault (tuple (items_of elements.items))) }
    {
        if elements.is_empty() {
            return Ok(Term { shape: Shape::Unit });
        }
        let deepest = deepest(elements.as_slice());
        if deepest >= MAX_DEPTH {
            return Err(Refused {
                value: elements,
                fault: Fault::TooDeep,
            });
        }
        if elements.len() > MAX_TUPLE {
            return Err(Refused {
                value: elements,
                fault: Fault::TooLong,
            });
        }
        let shape = tuple_shape(alloc, deepest + 1, elements)?;
        Ok(Term { shape })
    }

    /// Makes the list of these elements followed by a tail. The elements of a tail that is a list become elements of
    /// the new list. Without elements, the result is the tail, or `[]` if there is none. Fails if the list would be
    /// deeper than `MAX_DEPTH` or have more than `MAX_LIST` elements, or if an allocation fails. On failure, hands the
    /// elements and the tail back.
    pub fn list(
        alloc: A,
        elements: Vec<Term<A>, A>,
        tail: Option<Term<A>>,
    ) -> Result<Self, Refused<ListParts<A>>>
        ensures ok { IfOk result (λ t. t ≡ cells_of elements.items (tail_of tail)) }
        ensures refused { IfErr result (λ r. HandsBack r.value elements.items tail
            × IsFault r.fault (cells_of elements.items (tail_of tail))) }
    {
        if elements.is_empty() {
            return Ok(tail.unwrap_or(Term::nil()));
        }
        match list_depth(elements.as_slice(), &tail) {
            Ok(depth) => joined_to(alloc, depth, elements, tail),
            Err(fault) => Err(Refused {
                value: ListParts { elements, tail },
                fault,
            }),
        }
    }

    /// Returns the depth of the term, from 1 to 255: 1 if it contains no terms, otherwise one more than its deepest
    /// part.
    #[inline]
    pub fn depth(&self) -> u8
        ensures value { result ≡ depth self.now }
        ensures within { IsTerm self.now }
    {
        match &self.shape {
            Shape::Integer(_) | Shape::Nil | Shape::Unit => 1,
            Shape::ShortAtom(_, _) | Shape::MiddleAtom(_, _) | Shape::Atom(_) => 1,
            Shape::ShortBinary(_, _) | Shape::MiddleBinary(_, _) => 1,
            Shape::LargeBinary(_, _) | Shape::Binary(_) => 1,
            Shape::TupleOfOne(depth, _) | Shape::TupleOfTwo(depth, _) => *depth,
            Shape::TupleOfThree(depth, _) | Shape::TupleOfFour(depth, _) => *depth,
            Shape::TupleOfFive(depth, _) | Shape::TupleOfSix(depth, _) => *depth,
            Shape::ListOfOne(depth, _) | Shape::ListOfTwo(depth, _) => *depth,
            Shape::ListOfThree(depth, _) | Shape::ListOfFour(depth, _) => *depth,
            Shape::MapOfOne(depth, _) => *depth,
            Shape::MapOfTwo(depth, _) | Shape::MapOfThree(depth, _) => *depth,
            Shape::MapOfFour(depth, _) => *depth,
            Shape::Tuple(depth, _) | Shape::List(depth, _) | Shape::Map(depth, _) => *depth,
            Shape::Rest(depth, _, _) => *depth,
        }
    }

    /// Returns the term's kind with its parts, one level down.
    #[inline(always)]
    pub fn view(&self) -> View<'_, A>
        ensures value { shown result ≡ self.now }
        ensures split { IsSplit result }
        ensures within { IsTerm self.now }
    {
        match &self.shape {
            Shape::Integer(value) => View::Integer(*value),
            Shape::Nil => View::Nil,
            Shape::ShortAtom(count, bytes) => View::Atom(front_text(bytes, *count)),
            Shape::MiddleAtom(count, bytes) => View::Atom(front_text(bytes, *count)),
            Shape::Atom(text) => View::Atom(text.as_str()),
            Shape::Unit => View::Tuple(&[]),
            Shape::TupleOfOne(_, elements) => View::Tuple(&elements[..]),
            Shape::TupleOfTwo(_, elements) => View::Tuple(&elements[..]),
            Shape::TupleOfThree(_, elements) => View::Tuple(&elements[..]),
            Shape::TupleOfFour(_, elements) => View::Tuple(&elements[..]),
            Shape::TupleOfFive(_, elements) => View::Tuple(&elements[..]),
            Shape::TupleOfSix(_, elements) => View::Tuple(&elements[..]),
            Shape::Tuple(_, elements) => View::Tuple(elements.as_slice()),
            Shape::ListOfOne(_, elements) => View::List(&elements[..], None),
            Shape::ListOfTwo(_, elements) => View::List(&elements[..], None),
            Shape::ListOfThree(_, elements) => View::List(&elements[..], None),
            Shape::ListOfFour(_, elements) => View::List(&elements[..], None),
            Shape::List(_, cells) => View::List(cells.elements.as_slice(), cells.tail.as_ref()),
            Shape::Rest(_, count, cells) => {
                View::List(
                    behind(cells.elements.as_slice(), *count as usize),
                    cells.tail.as_ref(),
                )
            }
            Shape::MapOfOne(_, pair) => View::Map(slice::from_ref(&**pair)),
            Shape::MapOfTwo(_, pairs) => View::Map(&pairs[..]),
            Shape::MapOfThree(_, pairs) => View::Map(&pairs[..]),
            Shape::MapOfFour(_, pairs) => View::Map(&pairs[..]),
            Shape::Map(_, pairs) => View::Map(pairs.as_slice()),
            Shape::ShortBinary(count, bytes) => View::Binary(front(bytes, *count)),
            Shape::MiddleBinary(count, bytes) => View::Binary(front(bytes, *count)),
            Shape::LargeBinary(count, bytes) => View::Binary(front(bytes, *count)),
            Shape::Binary(bytes) => View::Binary(bytes.as_slice()),
        }
    }

    /// Returns the element of a tuple at a place counted from 1. Returns `None` if there is no such element or the term
    /// is not a tuple.
    #[inline(always)]
    pub fn element_at(&self, place: u16) -> Option<&Term<A>>
        ensures { MatchOption result (field_of place self.now ≡ None)
            (λ element. field_of place self.now ≡ Some element.now) }
    {
        self.view().element_at(place)
    }

    /// Returns whether the term is a tuple of `size` elements.
    #[inline(always)]
    pub fn is_tuple(&self, size: u16) -> bool
        ensures { result ≡ is_tuple_of size self.now }
    {
        self.view().is_tuple(size)
    }

    /// Returns whether the term is a map.
    #[inline(always)]
    pub fn is_map(&self) -> bool
        ensures { result ≡ is_map self.now }
    {
        self.view().is_map()
    }

    /// Returns the elements of a proper list, whose tail is `[]`. Returns `None` for an improper list and any other
    /// term.
    pub fn proper_elements(&self) -> Option<&[Term<A>]>
        ensures value { option_copied result ≡ proper_elements self.now }
        ensures within { IsTerm self.now }
    {
        match self.view() {
            View::Nil => Some(&[]),
            View::List(elements, None) => Some(elements),
            View::List(_, Some(_)) => None,
            View::Integer(_) | View::Atom(_) => None,
            View::Tuple(_) | View::Map(_) | View::Binary(_) => None,
        }
    }
}
