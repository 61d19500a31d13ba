//! Terms that are made of terms, of characters or of bytes, with memory and with each allocation failing in turn.
ghost use Rattle.std.specs.Prelude.{◌≡◌, [], ◌∷◌, pos, IfSome};
ghost use Rattle.term_core.specs.Datum.Datum.{integer};
ghost use Rattle.term_core.specs.MapPairs.{keys_of};

use kit_rows::{
    Calls, Outcome, canonical, length, name, put, put_pair, refused, size_of, swept, text,
    truth_name, word, written,
};
use std::alloc::{Allocator, Global};
use term_build::{
    are_apart, atom_of_text, copy_all, copy_tail, make_list, make_map, make_tuple, map_of_pairs,
};
use term_core::{Fault, ListParts, Refused, Term, View};
use term_text::read_terms;

/// The term that a call makes of terms, or its fault with all of these terms.
type Made<A> = Result<Term<A>, Refused<Vec<Term<A>, A>>>;

/// Appends a pair of a key and a value. Returns `false` if memory runs out or one of them is missing.
fn put_next<A: Allocator>(
    pairs: &mut Vec<(Term<A>, Term<A>), A>,
    key: Option<Term<A>>,
    value: Option<Term<A>>,
) -> bool {
    match key.zip(value) {
        Some((key, value)) => put_pair(pairs, key, value),
        None => false,
    }
}

/// Returns these terms as pairs of two each, or `None` if memory runs out.
fn paired<A: Allocator + Copy>(
    heap: A,
    terms: Vec<Term<A>, A>,
) -> Option<Vec<(Term<A>, Term<A>), A>> {
    let mut pairs = Vec::new(heap);
    let mut is_whole = true;
    let count = terms.len() / 2;
    let mut terms = terms.into_iter();
    for _ in 0..count {
        is_whole = put_next(&mut pairs, terms.next(), terms.next()) && is_whole;
    }
    is_whole.then_some(pairs)
}

/// Returns the keys and values of these pairs in turn, or `None` if memory runs out.
fn unpaired<A: Allocator + Copy>(
    heap: A,
    pairs: Vec<(Term<A>, Term<A>), A>,
) -> Option<Vec<Term<A>, A>> {
    let mut terms = Vec::new(heap);
    let mut is_whole = true;
    for (key, value) in pairs {
        is_whole = put(&mut terms, key) && is_whole;
        is_whole = put(&mut terms, value) && is_whole;
    }
    is_whole.then_some(terms)
}

/// Returns a list's elements followed by its tail, or `None` if memory runs out.
fn with_tail<A: Allocator + Copy>(parts: ListParts<A>) -> Option<Vec<Term<A>, A>> {
    let ListParts { mut elements, tail } = parts;
    let is_whole = match tail {
        Some(tail) => put(&mut elements, tail),
        None => true,
    };
    is_whole.then_some(elements)
}

/// Returns the fault with the terms, if these were returned.
fn refused_again<A: Allocator>(value: Option<Vec<Term<A>, A>>, fault: Fault) -> Option<Made<A>> {
    Some(Err(Refused {
        value: value?,
        fault,
    }))
}

fn list<A: Allocator + Copy>(
    heap: A,
    elements: Vec<Term<A>, A>,
    tail: Option<Term<A>>,
) -> Option<Made<A>> {
    match Term::list(heap, elements, tail) {
        Ok(list) => Some(Ok(list)),
        Err(refused) => {
            let Refused { value, fault } = refused;
            refused_again(with_tail(value), fault)
        }
    }
}

fn list_with_tail<A: Allocator + Copy>(heap: A, mut elements: Vec<Term<A>, A>) -> Option<Made<A>> {
    let tail = elements.pop();
    list(heap, elements, tail)
}

fn map<A: Allocator + Copy>(heap: A, terms: Vec<Term<A>, A>) -> Option<Made<A>> {
    match map_of_pairs(heap, paired(heap, terms)?) {
        Ok(map) => Some(Ok(map)),
        Err(refused) => {
            let Refused { value, fault } = refused;
            refused_again(unpaired(heap, value), fault)
        }
    }
}

/// Returns what a constructor makes of these terms, or `None` if memory runs out before or after the call.
fn constructed<A: Allocator + Copy>(
    heap: A,
    constructor: &str,
    terms: Vec<Term<A>, A>,
) -> Option<Made<A>> {
    match constructor {
        "tuple" => Some(Term::tuple(heap, terms)),
        "list" => list(heap, terms, None),
        "list_with_tail" => list_with_tail(heap, terms),
        "map" => map(heap, terms),
        _ => {
            drop(terms);
            None
        }
    }
}

/// Returns pairs with the keys 3, 1 and 2, in this order, and these three values, the last value first.
fn keyed<A: Allocator + Copy>(
    heap: A,
    mut terms: Vec<Term<A>, A>,
) -> Option<Vec<(Term<A>, Term<A>), A>>
    ensures { IfSome result (λ pairs. keys_of pairs.items ≡ integer (pos 3) ∷ integer (pos 1) ∷ integer (pos 2) ∷ []) }
{
    let mut pairs = Vec::new(heap);
    let last = terms.pop()?;
    pairs.push((Term::int(3), last)).ok()?;
    let middle = terms.pop()?;
    pairs.push((Term::int(1), middle)).ok()?;
    let first = terms.pop()?;
    pairs.push((Term::int(2), first)).ok()?;
    Some(pairs)
}

fn mapped<A: Allocator + Copy>(heap: A, terms: Vec<Term<A>, A>) -> Option<Option<Term<A>>> {
    let pairs = keyed(heap, terms)?;
    make_map(heap, pairs).ok()
}

fn copied_all<A: Allocator + Copy>(heap: A, terms: &[Term<A>]) -> Option<Option<Term<A>>> {
    let Ok(copies) = copy_all(heap, terms) else {
        return None;
    };
    make_tuple(heap, copies).ok()
}

fn copied_tail<A: Allocator + Copy>(list: &Term<A>) -> Option<Option<Term<A>>> {
    match list.view() {
        View::List(_, tail) => copy_tail(tail).ok(),
        _ => None,
    }
}

fn copied_one<A: Allocator + Copy>(term: &Term<A>) -> Option<Option<Term<A>>> {
    match term.copy() {
        Ok(copy) => Some(Some(copy)),
        Err(_) => None,
    }
}

/// Returns the copy that a call makes of these terms, if there is one, or `None` if memory runs out.
fn copied<A: Allocator + Copy>(
    heap: A,
    copier: &str,
    terms: &[Term<A>],
) -> Option<Option<Term<A>>> {
    match copier {
        "copy" => copied_one(terms.first()?),
        "copy_all" => copied_all(heap, terms),
        "copy_tail" => copied_tail(terms.first()?),
        _ => None,
    }
}

fn listed<A: Allocator + Copy>(heap: A, mut elements: Vec<Term<A>, A>) -> Option<Option<Term<A>>> {
    match elements.pop() {
        Some(tail) => make_list(heap, elements, tail).ok(),
        None => {
            drop(elements);
            None
        }
    }
}

/// Returns the term, if any, that a call makes of these terms; the call does not return the terms if it fails. Returns
/// `None` if memory runs out.
fn made<A: Allocator + Copy>(
    heap: A,
    maker: &str,
    terms: Vec<Term<A>, A>,
) -> Option<Option<Term<A>>> {
    match maker {
        "make_tuple" => make_tuple(heap, terms).ok(),
        "make_list" => listed(heap, terms),
        "make_map" => mapped(heap, terms),
        _ => {
            let copied = copied(heap, maker, terms.as_slice());
            drop(terms);
            copied
        }
    }
}

/// Returns the text of a fault, or `None` if memory ran out; `not_handed_back` if what was given was not returned
/// whole.
fn refusal(alloc: Global, fault: Fault, is_whole: bool) -> Option<Vec<u8>> {
    if !is_whole {
        return word(alloc, "not_handed_back");
    }
    if fault == Fault::Memory {
        return None;
    }
    refused(alloc, fault)
}

/// Returns the text of the fault of a constructor, which has to return the terms of a text.
fn refused_terms<A: Allocator>(
    alloc: Global,
    refused: &Refused<Vec<Term<A>, A>>,
    given: &[u8],
) -> Option<Vec<u8>> {
    let whole = written(alloc, refused.value.as_slice())?;
    refusal(alloc, refused.fault, whole.as_slice() == given)
}

/// Returns the text of the term that a constructor makes of the terms of a text, or of its fault.
fn constructs<A: Allocator + Copy>(
    alloc: Global,
    heap: A,
    constructor: &str,
    given: &[u8],
) -> Option<Vec<u8>> {
    let made = constructed(heap, constructor, read_terms(heap, given).ok()?)?;
    let out = match &made {
        Ok(term) => canonical(alloc, term),
        Err(refused) => refused_terms(alloc, refused, given),
    };
    drop(made);
    out
}

fn makes<A: Allocator + Copy>(
    alloc: Global,
    heap: A,
    maker: &str,
    given: &[u8],
) -> Option<Vec<u8>> {
    let made = made(heap, maker, read_terms(heap, given).ok()?)?;
    let out = match &made {
        Some(term) => canonical(alloc, term),
        None => word(alloc, "none"),
    };
    drop(made);
    out
}

/// Returns the text of the atom or binary that was made, or of the fault.
fn leaf<A: Allocator>(alloc: Global, made: Result<Term<A>, Fault>) -> Option<Vec<u8>> {
    let out = match &made {
        Ok(term) => canonical(alloc, term),
        Err(fault) => refusal(alloc, *fault, true),
    };
    drop(made);
    out
}

fn atom<A: Allocator + Copy>(alloc: Global, heap: A, given: &[u8]) -> Option<Vec<u8>> {
    leaf(alloc, atom_of_text(heap, str::from_utf8(given).ok()?))
}

fn from_characters<A: Allocator + Copy>(alloc: Global, heap: A, given: &[u8]) -> Option<Vec<u8>> {
    let characters: Vec<char, A> = str::from_utf8(given).ok()?.chars().collect(heap).ok()?;
    leaf(alloc, Term::from_characters(heap, characters.as_slice()))
}

fn binary<A: Allocator + Copy>(alloc: Global, heap: A, given: &[u8]) -> Option<Vec<u8>> {
    leaf(alloc, Term::binary(heap, given))
}

fn tells_apart<A: Allocator + Copy>(alloc: Global, heap: A, given: &[u8]) -> Option<Vec<u8>> {
    let Ok(terms) = read_terms(heap, given) else {
        return None;
    };
    let are_apart = are_apart(heap, terms.as_slice());
    drop(terms);
    word(alloc, truth_name(are_apart.ok()?))
}

/// The calls of rows of terms that are made.
struct TermCalls;

impl Calls for TermCalls {
    const MOST_REQUESTS: u64 = 200;

    fn outcome<A: Allocator + Copy>(
        alloc: Global,
        heap: A,
        call: &str,
        given: &[u8],
    ) -> Option<Vec<u8>> {
        match call {
            "atom" => atom(alloc, heap, given),
            "from_characters" => from_characters(alloc, heap, given),
            "binary" => binary(alloc, heap, given),
            "are_apart" => tells_apart(alloc, heap, given),
            "tuple" | "list" | "list_with_tail" | "map" => constructs(alloc, heap, call, given),
            _ => makes(alloc, heap, call, given),
        }
    }

    // Room for what is collected is allocated first; if that fails, the call goes on without it.
    fn asks_again(call: &str) -> bool {
        matches!(call, "from_characters" | "copy" | "copy_all")
    }
}

/// Returns the text of the fault of a constructor, the number of terms that were returned, and the length of the last
/// of them.
fn sized_refusal(alloc: Global, fault: Fault, terms: &[Term]) -> Option<Vec<u8>> {
    let (number, last) = (usize::from(fault.number()), length(terms.last()?));
    let out = Outcome::tuple(alloc).word("refused").number(number);
    out.number(terms.len()).number(last).end()
}

/// Returns the text of the size of the term that a call makes of these terms and that returns nothing if it fails.
fn made_size(alloc: Global, call: &str, terms: Vec<Term>) -> Option<Vec<u8>> {
    let made = made(alloc, call, terms)?;
    let out = match &made {
        Some(term) => size_of(alloc, term),
        None => word(alloc, "none"),
    };
    drop(made);
    out
}

/// Returns the text of the size of the term that a constructor makes of these terms, or of its fault.
fn constructed_size(alloc: Global, call: &str, terms: Vec<Term>) -> Option<Vec<u8>> {
    let made = constructed(alloc, call, terms)?;
    let out = match &made {
        Ok(term) => size_of(alloc, term),
        Err(refused) => sized_refusal(alloc, refused.fault, refused.value.as_slice()),
    };
    drop(made);
    out
}

/// Returns the text of the size of the term that a call makes of the terms of a text.
fn sized(alloc: Global, call: &str, given: &[u8]) -> Option<Vec<u8>> {
    let terms = read_terms(alloc, given).ok()?;
    if call.starts_with("make_") || call == "copy" {
        made_size(alloc, call, terms)
    } else {
        constructed_size(alloc, call, terms)
    }
}

/// Returns the text of the size of the atom of these characters, or of the fault.
fn sized_atom(alloc: Global, given: &[u8]) -> Option<Vec<u8>> {
    let made = atom_of_text(alloc, str::from_utf8(given).ok()?);
    let out = match &made {
        Ok(term) => size_of(alloc, term),
        Err(fault) => refusal(alloc, *fault, true),
    };
    drop(made);
    out
}

/// Returns the text of the size of the binary of these bytes, or of the fault.
fn sized_binary(alloc: Global, given: &[u8]) -> Option<Vec<u8>> {
    let made = Term::binary(alloc, given);
    let out = match &made {
        Ok(term) => size_of(alloc, term),
        Err(fault) => refusal(alloc, *fault, true),
    };
    drop(made);
    out
}

/// Returns the text of the size of the atom or binary of these characters or bytes, or of the fault.
fn sized_leaf(alloc: Global, call: &str, given: &[u8]) -> Option<Vec<u8>> {
    if call == "atom" {
        sized_atom(alloc, given)
    } else {
        sized_binary(alloc, given)
    }
}

/// Returns the result of a call on a text.
fn outcome(alloc: Global, kind: &str, call: &str, given: &[u8]) -> Option<Vec<u8>> {
    match kind {
        "made" => swept::<TermCalls>(alloc, call, given),
        "sized" => sized(alloc, call, given),
        "sized_leaf" => sized_leaf(alloc, call, given),
        _ => None,
    }
}

/// Returns the result of a row of constructors, or `None` if there is no such row.
pub(crate) fn came(alloc: Global, kind: &str, parts: &[Term]) -> Option<Vec<u8>> {
    let [call, given, _] = parts else {
        return None;
    };
    let (call, given) = (name(alloc, call)?, text(alloc, given)?);
    outcome(alloc, kind, call.as_str(), given.as_slice())
}
