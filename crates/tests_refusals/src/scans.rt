//! Scans with each allocation failing in turn, by one session and by several.
use crate::sweeps::Written;
use kit_alloc::{Failing, sweep, sweep_onward};
use part_plain::PlainPart;
use std::alloc::Global;
use std::sync::Wait;
use std::thread::Threads;
use tool_io::ToolFault;
use tool_scan::{ScanKind, ScanOptions, tool_scan};

/// A specification and objects; each answer is a term that has to be made. The first three of the six objects have one
/// key, and two of these are equal.
const INPUT: &str = "[{{'$1','_'},[],[{{'$1',[]}}]}]. {1,a}. {1,b}. {1,a}. {2,b}. {3,c}. {4,d}.";

/// The answers from a set of two parts; those from a bag and a `duplicate_bag` of two parts are below.
const OF_SET: &str = "{2,[]}.\n{4,[]}.\n{1,[]}.\n{3,[]}.\n";

const OF_BAG: &str = "{2,[]}.\n{4,[]}.\n{1,[]}.\n{1,[]}.\n{3,[]}.\n";

const OF_DUPLICATE_BAG: &str = "{2,[]}.\n{4,[]}.\n{1,[]}.\n{1,[]}.\n{1,[]}.\n{3,[]}.\n";

/// A specification of which no answer needs memory, and objects. Its answers from a set of two parts are below.
const KEYS: &str = "[{{'$1'},[],['$1']}]. {1}. {2}. {3}. {4}.";

const OF_KEYS: &str = "2.\n4.\n1.\n3.\n";

/// Returns whether a scan ends with all lines, or out of memory with the first of them. With one session there are no
/// fewer lines than in the run before; the order of allocations of several sessions is different each time.
fn is_right<H: Threads + Wait + Sync>(
    rt: &H,
    alloc: Global,
    heap: &Failing<Global>,
    options: ScanOptions,
    input: &str,
    lines: &str,
    so_far: &mut Written,
) -> bool {
    let mut reader = input.as_bytes();
    let mut written = Vec::new(alloc);
    let ended = tool_scan::<H, PlainPart<&Failing<Global>>, _, _, _>(
        rt,
        heap,
        options,
        &mut reader,
        &mut written,
    );
    let lines = lines.as_bytes();
    match ended {
        Ok(()) => written.as_slice() == lines,
        Err(ToolFault::Memory) => {
            let goes_on = so_far.goes_on(written.as_slice()) || options.workers > 1;
            heap.was_refused() && lines.starts_with(written.as_slice()) && goes_on
        }
        Err(_) => false,
    }
}

/// Returns the options of a scan into a table of this kind by this number of workers.
fn options_of(kind: ScanKind, workers: u8) -> ScanOptions {
    ScanOptions {
        kind,
        keypos: 1,
        parts: 2,
        workers,
    }
}

/// Returns whether such a scan is right with each allocation failing in turn, alone and together with all later ones.
/// One worker has to write some lines if the last allocation fails alone; how many depends on how their memory grows.
fn is_swept<H: Threads + Wait + Sync>(
    rt: &H,
    alloc: Global,
    kind: ScanKind,
    workers: u8,
    input: &str,
    lines: &str,
) -> bool {
    let options = options_of(kind, workers);
    let mut so_far = Written { lines: 0 };
    let alone = sweep(alloc, 4_000, |heap| {
        is_right(rt, alloc, heap, options, input, lines, &mut so_far) && heap.blocks() == 0
    });
    let mut so_far_onward = Written { lines: 0 };
    let onward = sweep_onward(alloc, 4_000, |heap| {
        is_right(rt, alloc, heap, options, input, lines, &mut so_far_onward) && heap.blocks() == 0
    });
    alone.is_complete() && onward.is_complete() && (workers > 1 || 0 < so_far.lines)
}

#[test]
fn each_request_refused_in_turn(rt: HostRuntime) {
    for workers in [1, 2, 3] {
        assert!(rt;
            is_swept(&rt, rt.alloc(), ScanKind::Set, workers, INPUT, OF_SET),
            "{workers}"
        );
        assert!(rt;
            is_swept(&rt, rt.alloc(), ScanKind::Set, workers, KEYS, OF_KEYS),
            "{workers}"
        );
    }
}

#[test]
fn each_request_for_a_bag_refused_in_turn(rt: HostRuntime) {
    let duplicates = ScanKind::DuplicateBag;
    assert!(rt; is_swept(&rt, rt.alloc(), ScanKind::Bag, 2, INPUT, OF_BAG));
    assert!(rt; is_swept(&rt, rt.alloc(), duplicates, 2, INPUT, OF_DUPLICATE_BAG));
}

/// Returns why a scan of this input with these options is rejected; it has to write nothing.
fn refused<H: Threads + Wait + Sync>(
    rt: &H,
    alloc: Global,
    options: ScanOptions,
    input: &str,
) -> Option<ToolFault> {
    let mut reader = input.as_bytes();
    let mut written: Vec<u8> = Vec::new(alloc);
    let ended = tool_scan::<H, PlainPart<Global>, _, _, _>(
        rt,
        alloc,
        options,
        &mut reader,
        &mut written,
    );
    if !written.as_slice().is_empty() {
        return None;
    }
    ended.err()
}

#[test]
fn options_outside_their_ranges_are_refused(rt: HostRuntime) {
    for (keypos, parts, workers) in [(0, 1, 1), (1, 0, 1), (1, 65, 1), (1, 1, 0), (1, 1, 17)] {
        let options = ScanOptions {
            kind: ScanKind::Set,
            keypos,
            parts,
            workers,
        };
        // The options are rejected before the text is.
        assert!(rt; refused(&rt, rt.alloc(), options, "[") == Some(ToolFault::BadOptions));
    }
}

#[test]
fn a_term_that_is_no_object_is_refused(rt: HostRuntime) {
    let options = ScanOptions {
        kind: ScanKind::Bag,
        keypos: 2,
        parts: 3,
        workers: 2,
    };
    for objects in ["{1}.", "{1,2}. {}.", "{1,2}. a.", "{1,2}. [1,2]. {3,4}."] {
        let mut text = String::new(rt.alloc());
        write!(text, "[{{'_',[],[true]}}]. {objects}").expect(&rt, "memory");
        let ended = refused(&rt, rt.alloc(), options, text.as_str());
        assert!(rt; ended == Some(ToolFault::TooSmall));
    }
}
