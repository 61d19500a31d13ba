//! Terms: which calls do not allocate, and that a limit is reported without memory.
use kit_alloc::Failing;
use kit_rows::{term_of, was_ok};
use std::alloc::{Allocator, Global};
use term_core::Fault::{self, TooLong};
use term_core::{ShortRow, Term};
use term_operand::Operand;
use term_text::{read_terms, write_term};

/// Returns whether a term has this text and a depth of 1.
fn is_leaf(alloc: Global, term: Term, text: &str) -> bool {
    let mut out = Vec::new(alloc);
    let is_written = write_term(&term, &mut out).is_ok() && out.as_slice() == text.as_bytes();
    let depth = term.depth();
    drop(term);
    is_written && depth == 1
}

#[test]
fn integers_and_nil_alone_take_no_memory(rt: HostRuntime) {
    assert!(rt; is_leaf(rt.alloc(), Term::int(-7), "-7"));
    assert!(rt; is_leaf(rt.alloc(), Term::nil(), "[]"));
}

/// Returns the text of an integer and a dot, `count` times.
fn ones(alloc: Global, count: u32) -> Option<Vec<u8>> {
    let mut out = Vec::new(alloc);
    for _ in 0..count {
        out.extend_from_slice(b"1. ").ok()?;
    }
    Some(out)
}

/// Returns the number of allocations that reading a text takes.
fn requests_to_read(alloc: Global, text: &[u8]) -> Option<u64> {
    let counting = Failing::counting(alloc);
    if was_ok(read_terms(&counting, text)) {
        Some(counting.requests())
    } else {
        None
    }
}

/// Returns an allocator of which each allocation fails once a text has been read.
fn refusing_once_read(alloc: Global, text: &[u8]) -> Option<Failing<Global>> {
    let requests = requests_to_read(alloc, text)?;
    Some(Failing::refusing_from(alloc, requests.saturating_add(1)))
}

/// Returns the fault of making a tuple of a text's terms, or `None` if there is none.
fn fault_of<A: Allocator + Copy>(heap: A, text: &[u8]) -> Option<Fault> {
    let made = Term::tuple(heap, read_terms(heap, text).ok()?);
    let fault = match &made {
        Ok(_) => None,
        Err(refused) => Some(refused.fault),
    };
    drop(made);
    fault
}

/// Returns the fault of making a tuple of a text's terms with each allocation failing once they have been read.
fn fault_without_memory(alloc: Global, text: &[u8]) -> Option<Fault> {
    fault_of(&refusing_once_read(alloc, text)?, text)
}

/// Returns the fault of making a tuple of `count` integers with each allocation failing once they have been read.
fn fault_of_many(alloc: Global, count: u32) -> Option<Fault> {
    fault_without_memory(alloc, ones(alloc, count)?.as_slice())
}

#[test]
fn a_limit_is_told_without_memory(rt: HostRuntime) {
    assert!(rt; fault_of_many(rt.alloc(), 65_535) == Some(Fault::Memory));
    assert!(rt; fault_of_many(rt.alloc(), 65_536) == Some(TooLong));
}

/// Returns whether the term of a text can be copied.
fn is_copied<A: Allocator + Copy>(heap: A, text: &[u8]) -> Option<bool> {
    let term = term_of(heap, text)?;
    let is_copied = was_ok(term.copy());
    drop(term);
    Some(is_copied)
}

/// Returns whether the term of a text can be copied with each allocation failing once it has been read.
fn is_copied_without_memory(alloc: Global, text: &[u8]) -> Option<bool> {
    is_copied(&refusing_once_read(alloc, text)?, text)
}

#[test]
fn a_copy_takes_no_memory(rt: HostRuntime) {
    let term = b"[{1,a},#{k=><<1>>}|b].";
    assert!(rt; is_copied_without_memory(rt.alloc(), term) == Some(true));
    assert!(rt; is_copied_without_memory(rt.alloc(), b"7.") == Some(true));
}

/// Returns whether a term can be made of what follows the first element of the list of a text.
fn is_rest_made<A: Allocator + Copy>(heap: A, text: &[u8]) -> Option<bool> {
    let list = term_of(heap, text)?;
    let is_made = was_ok(Operand::Rest(&list, 1).to_term(heap));
    drop(list);
    Some(is_made)
}

/// Returns whether a term can be made of what follows the first element of the list of a text, with each allocation
/// failing once it has been read.
fn is_rest_shared(alloc: Global, text: &[u8]) -> Option<bool> {
    is_rest_made(&refusing_once_read(alloc, text)?, text)
}

#[test]
fn a_rest_as_deep_as_its_list_takes_no_memory(rt: HostRuntime) {
    assert!(rt; is_rest_shared(rt.alloc(), b"[1,2,3,4,5,6].") == Some(true));
    assert!(rt; is_rest_shared(rt.alloc(), b"[{1},2,3,4,{5},6].") == Some(true));
    assert!(rt; is_rest_shared(rt.alloc(), b"[{1},2,3,4,5,6|{a}].") == Some(true));
    assert!(rt; is_rest_shared(rt.alloc(), b"[{1},2,3,4,5,6].") == Some(false));
    assert!(rt; is_rest_shared(rt.alloc(), b"[1,2,3,4,5].") == Some(false));
}

/// A row of two.
fn two<A: Allocator>() -> ShortRow<A> {
    ShortRow::Two([Term::int(1), Term::int(2)])
}

/// A row of three.
fn three<A: Allocator>() -> ShortRow<A> {
    ShortRow::Three([Term::int(1), Term::int(2), Term::int(3)])
}

/// A row of four.
fn four<A: Allocator>() -> ShortRow<A> {
    ShortRow::Four([Term::int(1), Term::int(2), Term::int(3), Term::int(4)])
}

/// The shortest terms that need memory.
#[derive(Clone, Copy)]
enum Shortest {
    TupleOfOne,
    TupleOfTwo,
    TupleOfThree,
    TupleOfFour,
    MapOfOne,
    ListOfFour,
}

/// Makes one of them, and returns whether that succeeded.
fn is_made<A: Allocator + Copy>(heap: A, shortest: Shortest) -> bool {
    match shortest {
        Shortest::TupleOfOne => was_ok(Term::short_tuple(heap, ShortRow::One([Term::int(1)]))),
        Shortest::TupleOfTwo => was_ok(Term::short_tuple(heap, two())),
        Shortest::TupleOfThree => was_ok(Term::short_tuple(heap, three())),
        Shortest::TupleOfFour => was_ok(Term::short_tuple(heap, four())),
        Shortest::MapOfOne => was_ok(Term::map_of_one(heap, Term::int(1), Term::int(2))),
        Shortest::ListOfFour => was_ok(Term::short_list(heap, four())),
    }
}

/// Returns the number of allocations that making one of them takes.
fn requests_of(alloc: Global, shortest: Shortest) -> Option<u64> {
    let counting = Failing::counting(alloc);
    if is_made(&counting, shortest) {
        Some(counting.requests())
    } else {
        None
    }
}

#[test]
fn the_shortest_tuples_lists_and_maps_take_one_block(rt: HostRuntime) {
    for shortest in [
        Shortest::TupleOfOne,
        Shortest::TupleOfTwo,
        Shortest::TupleOfThree,
        Shortest::TupleOfFour,
        Shortest::MapOfOne,
        Shortest::ListOfFour,
    ] {
        assert!(rt; requests_of(rt.alloc(), shortest) == Some(1));
    }
}
