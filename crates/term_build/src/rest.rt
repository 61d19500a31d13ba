//! The rest of a list after some of its elements.
ghost use Rattle.std.specs.Prelude.{◌≡◌, ◌<◌, IfOk, length};
ghost use Rattle.std.specs.Option.{option_copied};
ghost use Rattle.term_core.specs.Datum.{cells};
ghost use Rattle.term_core.specs.Limits.{IsTerm, depth};
ghost use Rattle.term_core.specs.Term.{tail_of, IsTail};
ghost use Rattle.term_core.specs.View.{shown, IsSplit};
ghost use Rattle.term_build.specs.Rest.{rest_of};

use crate::copies::{copy_all, copy_tail};
use std::alloc::{AllocError, Allocator};
use term_core::{Term, View, deepest};

/// The depth of a list whose elements contain no terms.
const FLAT: u8 = 2;

/// Makes the list of copies of these elements and of this tail.
fn copy_list<A: Allocator + Copy>(
    alloc: A,
    elements: &[Term<A>],
    tail: Option<&Term<A>>,
) -> Result<Term<A>, AllocError>
    requires { IsTerm (cells elements.now (tail_of (option_copied tail))) }
    ensures { IfOk result (λ t. t ≡ cells elements.now (tail_of (option_copied tail.entry))) }
{
    let copies = copy_all(alloc, elements)?;
    let tail = copy_tail(tail)?;
    Term::list(alloc, copies, tail).map_err(|refused| refused.fault.alloc_error())
}

/// Returns the depth of a list's tail that is not a list; no tail counts as `[]`, with depth 1.
fn depth_of_tail<A: Allocator>(tail: Option<&Term<A>>) -> u8
    ensures { result ≡ depth (tail_of (option_copied tail.entry)) }
{
    match tail {
        Some(tail) => tail.depth(),
        None => 1,
    }
}

/// Returns the depth of the list of these elements and this tail.
fn depth_of_list<A: Allocator>(elements: &[Term<A>], tail: Option<&Term<A>>) -> u8
    requires some { 0 < length elements.now }
    requires tail { IsTail (option_copied tail) }
    requires within { IsTerm (cells elements.now (tail_of (option_copied tail))) }
    ensures { result ≡ depth (cells elements.now (tail_of (option_copied tail.entry))) }
{
    deepest(elements).max(depth_of_tail(tail)) + 1
}

/// Returns a view of the rest of a list after its first `count` elements. If the list has no more elements than that,
/// the view is of its tail. A term that is not a list is viewed as it is.
pub fn view_rest<A: Allocator>(term: &Term<A>, count: usize) -> View<'_, A>
    ensures value { shown result ≡ rest_of count term.now }
    ensures split { IsSplit result }
    ensures term { IsTerm (rest_of count term.now) }
    ensures within { IsTerm term.now }
{
    match term.view() {
        View::List(elements, tail) => {
            if count < elements.len() {
                return View::List(&elements[count..], tail);
            }
            match tail {
                Some(tail) => tail.view(),
                None => View::Nil,
            }
        }
        View::Integer(value) => View::Integer(value),
        View::Atom(text) => View::Atom(text),
        View::Tuple(elements) => View::Tuple(elements),
        View::Nil => View::Nil,
        View::Map(pairs) => View::Map(pairs),
        View::Binary(bytes) => View::Binary(bytes),
    }
}

/// Returns the depth, from 1 to 255, of the rest of a list after its first `count` elements, or of a term that is not a
/// list. Looks at each remaining element, unless the whole list has only elements that contain no terms.
pub fn depth_of_rest<A: Allocator>(term: &Term<A>, count: usize) -> u8
    ensures { result ≡ depth (rest_of count term.now) }
{
    let View::List(elements, tail) = term.view() else {
        return term.depth();
    };
    if count < elements.len() {
        if term.depth() == FLAT {
            return FLAT;
        }
        return depth_of_list(&elements[count..], tail);
    }
    depth_of_tail(tail)
}

/// Returns the rest of a list after its first `count` elements, as a term of its own; after all elements, that is the
/// tail. The rest shares the elements with the list if more than four remain and it is as deep as the list; otherwise
/// it has copies of them. A term that is not a list is copied as it is. Fails if an allocation or a copy fails.
pub fn copy_rest<A: Allocator + Copy>(
    alloc: A,
    term: &Term<A>,
    count: usize,
) -> Result<Term<A>, AllocError>
    ensures { IfOk result (λ t. t ≡ rest_of count term.now) }
{
    let View::List(elements, tail) = term.view() else {
        return term.copy();
    };
    if count < elements.len() {
        return match term.shared_rest(count)? {
            Some(rest) => Ok(rest),
            None => copy_list(alloc, &elements[count..], tail),
        };
    }
    match tail {
        Some(tail) => tail.copy(),
        None => Ok(Term::nil()),
    }
}
