//! Opening of tables: options that can't be opened are rejected as such, also if memory runs out, and no others are.
use kit_alloc::Failing;
use part_core::{OpenFault, Part, TableKind};
use part_hash::HashPart;
use part_order::OrderPart;
use part_plain::PlainPart;
use std::alloc::Global;
use tables::{LocalTable, Options};

/// A kind of table, a key position, a number of parts and a number of sessions.
type Numbers = (TableKind, u16, u8, u8);

/// Returns why a table can't be opened with these options, or `None` if it can.
fn refusal<'a, P: Part<&'a Failing<Global>> + Drop>(
    heap: &'a Failing<Global>,
    numbers: Numbers,
) -> Option<OpenFault> {
    let (kind, keypos, parts, sessions) = numbers;
    let options = Options {
        name: 1,
        kind,
        keypos,
        parts,
        sessions,
    };
    LocalTable::<P, &'a Failing<Global>>::open(heap, options).err()
}

/// The sort of a table's parts.
#[derive(Clone, Copy)]
enum Sort {
    Plain,
    Hashed,
    Ordered,
}

/// Returns why a table of this sort of parts can't be opened with these options, or `None` if it can.
fn refusal_of(heap: &Failing<Global>, sort: Sort, numbers: Numbers) -> Option<OpenFault> {
    match sort {
        Sort::Plain => refusal::<PlainPart<_>>(heap, numbers),
        Sort::Hashed => refusal::<HashPart<_>>(heap, numbers),
        Sort::Ordered => refusal::<OrderPart<_>>(heap, numbers),
    }
}

/// Returns why a table can't be opened with these options, with memory and without.
fn refusals(alloc: Global, sort: Sort, numbers: Numbers) -> (Option<OpenFault>, Option<OpenFault>) {
    let ample = Failing::counting(alloc);
    let scarce = Failing::refusing_from(alloc, 1);
    (
        refusal_of(&ample, sort, numbers),
        refusal_of(&scarce, sort, numbers),
    )
}

#[test]
fn options_that_cannot_be_opened_are_refused_as_such(rt: HostRuntime) {
    let bad = (Some(OpenFault::BadOptions), Some(OpenFault::BadOptions));
    for numbers in [
        (TableKind::Set, 1, 0, 1),
        (TableKind::Set, 1, 65, 1),
        (TableKind::Set, 0, 1, 1),
        (TableKind::Set, 1, 1, 0),
        (TableKind::Set, 1, 1, 17),
        (TableKind::OrderedSet, 1, 1, 1),
        (TableKind::Bag, 1, 65, 1),
        (TableKind::DuplicateBag, 0, 1, 1),
    ] {
        assert!(rt; refusals(rt.alloc(), Sort::Hashed, numbers) == bad);
        assert!(rt; refusals(rt.alloc(), Sort::Plain, numbers) == bad);
    }
    for numbers in [
        (TableKind::OrderedSet, 1, 0, 1),
        (TableKind::OrderedSet, 1, 2, 1),
        (TableKind::OrderedSet, 0, 1, 1),
        (TableKind::OrderedSet, 1, 1, 17),
        (TableKind::Set, 1, 1, 1),
        (TableKind::Bag, 1, 1, 1),
        (TableKind::DuplicateBag, 1, 1, 1),
    ] {
        assert!(rt; refusals(rt.alloc(), Sort::Ordered, numbers) == bad);
    }
}

#[test]
fn options_that_can_be_opened_want_only_memory(rt: HostRuntime) {
    let scarce = (None, Some(OpenFault::Memory));
    for numbers in [
        (TableKind::Set, 1, 1, 1),
        (TableKind::Set, 65_535, 64, 16),
        (TableKind::Bag, 1, 1, 1),
        (TableKind::DuplicateBag, 65_535, 64, 16),
    ] {
        assert!(rt; refusals(rt.alloc(), Sort::Hashed, numbers) == scarce);
        assert!(rt; refusals(rt.alloc(), Sort::Plain, numbers) == scarce);
    }
    assert!(rt; refusals(rt.alloc(), Sort::Ordered, (TableKind::OrderedSet, 1, 1, 1)) == scarce);
    assert!(rt;
        refusals(
            rt.alloc(),
            Sort::Ordered,
            (TableKind::OrderedSet, 65_535, 1, 16)
        ) == scarce
    );
}
