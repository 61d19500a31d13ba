//! The allocator that refuses chosen requests, and sweeps over these.
use kit_alloc::{Failing, Plan, SweepOutcome, sweep, sweep_onward};
use std::alloc::{AllocError, Allocator, Global};
use std::thread::{self, Threads};

/// Makes a request, and returns whether it was granted.
fn request<A: Allocator>(heap: A) -> bool {
    Box::new(heap, 1u8).is_ok()
}

/// Makes four requests, one after another, and returns which were granted.
fn four_requests<A: Allocator + Copy>(heap: A) -> [bool; 4] {
    [request(heap), request(heap), request(heap), request(heap)]
}

/// Code under test that makes three requests, and returns a number.
fn sum_of_three<A: Allocator + Copy>(heap: A) -> Result<u64, AllocError> {
    if request(heap) && request(heap) && request(heap) {
        Ok(6)
    } else {
        Err(AllocError)
    }
}

/// Code under test that hides that a request was refused.
fn sum_or_zero<A: Allocator + Copy>(heap: A) -> u64 {
    match sum_of_three(heap) {
        Ok(sum) => sum,
        Err(AllocError) => 0,
    }
}

fn up_to<A: Allocator>(heap: A, count: u8) -> Result<Vec<u8, A>, AllocError> {
    let mut numbers = Vec::new(heap);
    for number in 0..count {
        numbers.push(number)?;
    }
    Ok(numbers)
}

/// Makes a vec of the numbers up to one. Returns its length and its last number, or `None` if a request is refused.
fn end_of<A: Allocator>(heap: A, count: u8) -> Option<(usize, u8)> {
    match up_to(heap, count) {
        Ok(numbers) => Some((numbers.len(), *numbers.last()?)),
        Err(AllocError) => None,
    }
}

/// Returns how many of four requests were granted.
fn granted_of(requests: [bool; 4]) -> usize {
    let mut granted: usize = 0;
    for is_granted in requests {
        if is_granted {
            granted = granted.saturating_add(1);
        }
    }
    granted
}

/// Returns which of four requests are granted under a plan, how many were counted, whether one was refused, and the
/// plan.
fn granted_under(alloc: Global, plan: Plan) -> ([bool; 4], u64, bool, Plan) {
    let heap = Failing::new(alloc, plan);
    let granted = four_requests(&heap);
    (granted, heap.requests(), heap.was_refused(), heap.plan())
}

#[test]
fn refuses_what_its_plan_says(rt: HostRuntime) {
    for (plan, granted, refused) in [
        (Plan::Never, [true, true, true, true], false),
        (Plan::Once(1), [false, true, true, true], true),
        (Plan::Once(3), [true, true, false, true], true),
        (Plan::Once(5), [true, true, true, true], false),
        (Plan::From(1), [false, false, false, false], true),
        (Plan::From(3), [true, true, false, false], true),
        (Plan::From(5), [true, true, true, true], false),
    ] {
        let came = granted_under(rt.alloc(), plan);
        assert!(rt; came == (granted, 4, refused, plan), "under {plan:?}");
    }
}

/// Grows a vec. Returns its length and its last number, whether it made several requests, and whether one was refused.
fn grown(alloc: Global) -> (Option<(usize, u8)>, bool, bool) {
    let heap = Failing::counting(alloc);
    let end = end_of(&heap, 100);
    (end, heap.requests() > 1, heap.was_refused())
}

#[test]
fn grows_a_vec_where_memory_is_ample(rt: HostRuntime) {
    assert!(rt; grown(rt.alloc()) == (Some((100, 99)), true, false));
}

/// Returns the number at which a vec is first refused to grow, or `None` if that does not happen.
fn first_refused<A: Allocator>(numbers: &mut Vec<u8, A>) -> Option<usize> {
    for number in 0..100u8 {
        if numbers.push(number).is_err() {
            return Some(usize::from(number));
        }
    }
    None
}

/// Grows a vec until a request is refused. Returns whether the vec has the numbers before, whether its allocator
/// reports a refusal, whether a second attempt to grow is granted, and how many requests there were.
fn grown_again(heap: &Failing<Global>) -> (bool, bool, bool, u64) {
    let mut numbers = Vec::new(heap);
    let refused = first_refused(&mut numbers);
    let are_kept = refused == Some(numbers.len());
    let was_refused = heap.was_refused();
    let is_granted = numbers.push(7).is_ok();
    (are_kept, was_refused, is_granted, heap.requests())
}

#[test]
fn refuses_the_growth_of_a_vec(rt: HostRuntime) {
    assert!(rt; grown_again(&Failing::refusing_nth(rt.alloc(), 2)) == (true, true, true, 3));
}

/// Results for an allocator over another one: which of four requests it grants, how many it and the other one counted,
/// and whether it and the other one refused one.
type Nested = ([bool; 4], (u64, u64), (bool, bool));

fn nested(inner: &Failing<Global>, outer: Plan) -> Nested {
    let outer = Failing::new(inner, outer);
    let granted = four_requests(&outer);
    let requests = (outer.requests(), inner.requests());
    (
        granted,
        requests,
        (outer.was_refused(), inner.was_refused()),
    )
}

#[test]
fn passes_on_what_it_does_not_refuse(rt: HostRuntime) {
    let came = nested(&Failing::counting(rt.alloc()), Plan::Once(2));
    assert!(rt; came == ([true, false, true, true], (4, 3), (true, false)));
}

#[test]
fn tells_its_refusals_from_those_of_the_inner_allocator(rt: HostRuntime) {
    let came = nested(&Failing::refusing_from(rt.alloc(), 2), Plan::Never);
    assert!(rt; came == ([true, false, false, false], (4, 4), (false, true)));
}

/// Returns how a sweep over three requests ends, and the plan of its last run.
fn swept(alloc: Global) -> (SweepOutcome, Plan) {
    let mut last = Plan::Never;
    let outcome = sweep(alloc, 100, |heap| {
        last = heap.plan();
        match sum_of_three(heap) {
            Ok(sum) => sum == 6,
            Err(AllocError) => heap.was_refused(),
        }
    });
    (outcome, last)
}

/// Returns how a sweep over three requests ends that also refuses all later ones, and the plan of its last run.
fn swept_onward(alloc: Global) -> (SweepOutcome, Plan) {
    let mut last = Plan::Never;
    let outcome = sweep_onward(alloc, 100, |heap| {
        last = heap.plan();
        match sum_of_three(heap) {
            Ok(sum) => sum == 6,
            Err(AllocError) => heap.was_refused(),
        }
    });
    (outcome, last)
}

#[test]
fn sweeps_until_no_request_is_refused(rt: HostRuntime) {
    let (outcome, last) = swept(rt.alloc());
    assert!(rt; outcome == SweepOutcome::Complete { runs: 4 } && last == Plan::Once(4));
    assert!(rt; outcome.is_complete());
    let (outcome, last) = swept_onward(rt.alloc());
    assert!(rt; outcome == SweepOutcome::Complete { runs: 4 } && last == Plan::From(4));
}

/// Returns how a sweep over three requests ends that has at most `runs` runs.
fn swept_within(alloc: Global, runs: u64) -> SweepOutcome {
    sweep(alloc, runs, |heap: &Failing<Global>| {
        sum_of_three(heap).is_ok() || heap.was_refused()
    })
}

#[test]
fn sweeps_no_further_than_told(rt: HostRuntime) {
    for (runs, outcome) in [
        (0, SweepOutcome::OutOfRuns),
        (3, SweepOutcome::OutOfRuns),
        (4, SweepOutcome::Complete { runs: 4 }),
    ] {
        assert!(rt; swept_within(rt.alloc(), runs) == outcome, "within {runs}");
    }
}

/// Returns how sweeps end over three pieces of code: one hides each refusal, one fails without the third request, and
/// one fails when the second and all later ones are refused.
fn misbehaved(alloc: Global) -> [SweepOutcome; 3] {
    let hidden = sweep(alloc, 100, |heap| sum_or_zero(heap) == 6);
    let third = sweep(alloc, 100, |heap| four_requests(heap)[2]);
    let second = sweep_onward(alloc, 100, |heap| {
        four_requests(heap)[3] || heap.plan() != Plan::From(2)
    });
    [hidden, third, second]
}

#[test]
fn stops_at_the_first_run_that_does_not_behave_well(rt: HostRuntime) {
    let [hidden, third, second] = misbehaved(rt.alloc());
    assert!(rt; hidden == SweepOutcome::Misbehaved { request: 1 });
    assert!(rt; third == SweepOutcome::Misbehaved { request: 3 });
    assert!(rt; second == SweepOutcome::Misbehaved { request: 2 });
    assert!(rt; !third.is_complete() && !SweepOutcome::OutOfRuns.is_complete());
}

/// Has two threads make four requests each of an allocator that refuses from the sixth on. Returns how many are
/// granted, how many there were, and whether one was refused.
fn granted_to_two<R: Threads>(rt: &R, alloc: Global) -> (usize, u64, bool) {
    let heap = Failing::refusing_from(alloc, 6);
    let (here, there) = thread::join(rt, || four_requests(&heap), || four_requests(&heap));
    let granted = granted_of(here).saturating_add(granted_of(there));
    (granted, heap.requests(), heap.was_refused())
}

#[test]
fn counts_the_requests_of_two_threads(rt: HostRuntime) {
    assert!(rt; granted_to_two(&rt, rt.alloc()) == (5, 8, true));
}

/// Makes a vec that is dropped in another thread. Returns its length, or `None` if a request is refused.
fn length_elsewhere<R: Threads>(rt: &R, heap: &Failing<Global>) -> Option<usize> {
    let Ok(numbers) = up_to(heap, 9) else {
        return None;
    };
    let (count, ()) = thread::join(rt, move || numbers.len(), || ());
    Some(count)
}

#[test]
fn frees_a_block_in_another_thread(rt: HostRuntime) {
    assert!(rt; length_elsewhere(&rt, &Failing::counting(rt.alloc())) == Some(9));
}

/// Returns how many blocks are allocated for two vecs that grew, how many after one is dropped, and how many after both
/// are. Returns `None` if a request is refused.
fn blocks_of_two(heap: &Failing<Global>) -> Option<[u64; 3]> {
    let (Ok(first), Ok(second)) = (up_to(heap, 9), up_to(heap, 9)) else {
        return None;
    };
    let of_both = heap.blocks();
    drop(first);
    let of_one = heap.blocks();
    drop(second);
    Some([of_both, of_one, heap.blocks()])
}

#[test]
fn counts_the_blocks_that_have_not_come_back(rt: HostRuntime) {
    assert!(rt; blocks_of_two(&Failing::counting(rt.alloc())) == Some([2, 1, 0]));
}
