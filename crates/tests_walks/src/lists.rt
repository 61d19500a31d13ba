//! The answers on lists of objects: each object's at its place, equal to that of a run of its own, for few objects and
//! for many; and with each allocation failing in turn.
use crate::members::is_text;
use crate::watch::Watch;
use compiler::compile;
use kit_alloc::{Failing, Plan};
use kit_rows::{Outcome, term_of};
use machine::run;
use mspec_reader::read_spec;
use parallel_select::run_list;
use std::alloc::{AllocError, Allocator, Global};
use std::thread::Threads;
use term_core::{Term, View};
use term_text::read_terms;
use verifier::Verified;

/// A specification whose answer is each number that is even.
const EVEN: &[u8] = b"[{{'$1'},[{'==',{'rem','$1',2},0}],['$1']}].";

/// The answers that are expected.
#[derive(Clone, Copy)]
enum Wanted {
    /// Those of `EVEN` on `{1}`, `{2}` and so on.
    EvenNumbers,
    /// Those of this list, in which `none` stands for no answer.
    List(&'static str),
}

/// A specification, the text of the objects, and the answers on them.
#[derive(Clone, Copy)]
struct Work<'t> {
    specification: &'static [u8],
    objects: &'t str,
    wanted: Wanted,
}

impl Work<'_> {
    /// Returns the work of `EVEN` on objects `{1}`, `{2}` and so on.
    const fn even(objects: &str) -> Work<'_> {
        Work {
            specification: EVEN,
            objects,
            wanted: Wanted::EvenNumbers,
        }
    }
}

/// Few objects: an answer where a comparison holds, on every object, and by the head that walks in pieces are tried with.
const FEW: [Work<'static>; 4] = [
    Work {
        specification: EVEN,
        objects: "{1}. {2}. {3}.",
        wanted: Wanted::List("[none,2,none]"),
    },
    Work {
        specification: b"[{{'$1','$2'},[{'>','$1',1}],['$2']}].",
        objects: "{1,a}. {2,b}.",
        wanted: Wanted::List("[none,b]"),
    },
    Work {
        specification: b"[{'_',[],[true]}].",
        objects: "{1}. a.",
        wanted: Wanted::List("[true,true]"),
    },
    Work {
        specification: b"[{{'$1'},[],['$1']}].",
        objects: "{1}. {2}. 3. {4}. {5,6}.",
        wanted: Wanted::List("[1,2,none,4,none]"),
    },
];

/// The maximal number of allocations for a list.
const MOST_REQUESTS: u64 = 1_000;

/// Returns the text of `count` objects `{1}`, `{2}` and so on.
fn text_of(alloc: Global, count: usize) -> Option<String> {
    let mut text = String::new(alloc);
    let mut is_whole = true;
    for place in 0..count {
        let number = place.saturating_add(1);
        is_whole = is_whole && write!(text, "{{{number}}}. ").is_ok();
    }
    if is_whole {
        Some(text)
    } else {
        drop(text);
        None
    }
}

/// Returns the code of a specification.
fn code<A: Allocator + Copy>(heap: A, specification: &[u8]) -> Option<Verified<A>> {
    let term = term_of(heap, specification)?;
    let specification = read_spec(heap, &term);
    drop(term);
    let Ok(specification) = specification else {
        return None;
    };
    let code = compile(heap, &specification);
    drop(specification);
    code.ok()
}

/// Returns the number that is the answer, or 0 if there is no answer.
fn number<A: Allocator>(answer: &Option<Term<A>>) -> Option<i64> {
    match answer {
        Some(answer) => match answer.view() {
            View::Integer(number) => Some(number),
            _ => None,
        },
        None => Some(0),
    }
}

/// Returns whether these are the answers on `{1}`, `{2}` and so on.
fn are_even<A: Allocator>(answers: &[Option<Term<A>>]) -> bool {
    let mut wanted: i64 = 0;
    for answer in answers {
        wanted = wanted.saturating_add(1);
        let even = if wanted % 2 == 0 { wanted } else { 0 };
        if number(answer) != Some(even) {
            return false;
        }
    }
    true
}

/// Returns the answers as a list in which `none` stands for no answer, or `None` if memory runs out.
fn text_of_answers<A: Allocator>(alloc: Global, answers: &[Option<Term<A>>]) -> Option<Vec<u8>> {
    let mut out = Outcome::list(alloc);
    for answer in answers {
        out = match answer {
            Some(answer) => out.term(answer),
            None => out.word("none"),
        };
    }
    out.end()
}

/// Returns whether these are the answers that are expected.
fn are_wanted<A: Allocator>(alloc: Global, answers: &[Option<Term<A>>], wanted: Wanted) -> bool {
    match wanted {
        Wanted::EvenNumbers => are_even(answers),
        Wanted::List(text) => is_text(text_of_answers(alloc, answers), text),
    }
}

/// Returns whether the answer on an object is that of a run of its own.
fn is_plain<A: Allocator + Copy>(
    heap: A,
    code: &Verified<A>,
    object: &Term<A>,
    answer: &Option<Term<A>>,
) -> bool {
    let ran = run(heap, code, object);
    let is_same = match &ran {
        Ok((ran, _executed)) => ran == answer,
        Err(_) => false,
    };
    drop(ran);
    is_same
}

/// Returns whether the answer on each object is that of a run of its own.
fn are_plain<A: Allocator + Copy>(
    heap: A,
    code: &Verified<A>,
    objects: &[Term<A>],
    answers: &[Option<Term<A>>],
) -> bool {
    for (object, answer) in objects.iter().zip(answers) {
        if !is_plain(heap, code, object, answer) {
            return false;
        }
    }
    true
}

/// Returns whether the answers on a list are right, and equal to those of runs of their own if no allocation is to
/// fail. Returns `None` if memory runs out.
fn are_right<'h, R: Threads + Sync>(
    rt: &R,
    alloc: Global,
    heap: &'h Failing<Global>,
    watch: &mut Watch<'_>,
    code: &Verified<&'h Failing<Global>>,
    objects: &[Term<&'h Failing<Global>>],
    wanted: Wanted,
) -> Option<bool> {
    match run_list(rt, heap, code, objects) {
        Ok(answers) => {
            watch.ended(false);
            let all = answers.as_slice();
            let are_wanted = all.len() == objects.len() && are_wanted(alloc, all, wanted);
            let is_alike = heap.plan() != Plan::Never || are_plain(heap, code, objects, all);
            drop(answers);
            Some(are_wanted && is_alike)
        }
        Err(AllocError) => {
            watch.ended(true);
            None
        }
    }
}

/// The result for a list.
#[derive(Clone, Copy)]
struct Came {
    /// The number of allocations for the code and the objects.
    before: u64,
    /// The number of objects.
    count: usize,
    /// Memory ran out at the first attempt.
    is_refused: bool,
    /// Memory ran out exactly if an allocation failed, and the answers are right, at the first attempt or at the
    /// second.
    is_right: bool,
}

/// Returns the result for a list, which is tried again if memory runs out.
fn came_of<'h, R: Threads + Sync>(
    rt: &R,
    alloc: Global,
    heap: &'h Failing<Global>,
    code: &Verified<&'h Failing<Global>>,
    objects: &[Term<&'h Failing<Global>>],
    wanted: Wanted,
) -> Came {
    let before = heap.requests();
    let mut watch = Watch::new(heap);
    let first = are_right(rt, alloc, heap, &mut watch, code, objects, wanted);
    let second = match first {
        Some(_) => first,
        None => are_right(rt, alloc, heap, &mut watch, code, objects, wanted),
    };
    let is_right = match second {
        Some(are_right) => are_right && watch.is_right(),
        None => watch.stops(),
    };
    Came {
        before,
        count: objects.len(),
        is_refused: first == None,
        is_right,
    }
}

/// Returns the result for a list, or `None` if memory runs out for the code and the objects.
fn listed<R: Threads + Sync>(
    rt: &R,
    alloc: Global,
    heap: &Failing<Global>,
    work: Work<'_>,
) -> Option<Came> {
    let code = code(heap, work.specification)?;
    let objects = read_terms(heap, work.objects.as_bytes());
    let came = match &objects {
        Ok(objects) => {
            let objects = objects.as_slice();
            Some(came_of(rt, alloc, heap, &code, objects, work.wanted))
        }
        Err(_) => None,
    };
    drop(objects);
    drop(code);
    came
}

/// Returns the result for a list, with allocations failing according to a plan. Returns `None` if memory runs out for
/// the code and the objects, or a block is left allocated.
fn planned<R: Threads + Sync>(rt: &R, alloc: Global, plan: Plan, work: Work<'_>) -> Option<Came> {
    let heap = Failing::new(alloc, plan);
    let came = listed(rt, alloc, &heap, work);
    if heap.blocks() == 0 { came } else { None }
}

/// Returns whether the answers on `count` objects are right, each at its place.
fn is_answered<R: Threads + Sync>(rt: &R, alloc: Global, count: usize) -> bool {
    let Some(text) = text_of(alloc, count) else {
        return false;
    };
    let came = planned(rt, alloc, Plan::Never, Work::even(text.as_str()));
    drop(text);
    match came {
        Some(came) => came.is_right && !came.is_refused && came.count == count,
        None => false,
    }
}

/// Returns how many allocations the answers of a list take, where each fails in turn, alone or together with all later
/// ones.
fn refusals<R: Threads + Sync>(rt: &R, alloc: Global, work: Work<'_>, onward: bool) -> Option<u64> {
    let before = planned(rt, alloc, Plan::Never, work)?.before;
    for request in 1..MOST_REQUESTS {
        let first = before.saturating_add(request);
        let plan = if onward {
            Plan::From(first)
        } else {
            Plan::Once(first)
        };
        let came = planned(rt, alloc, plan, work)?;
        if !came.is_right {
            return None;
        }
        if !came.is_refused {
            return Some(request - 1);
        }
    }
    None
}

/// Returns how many allocations the answers on `count` objects take, where each fails in turn, alone or together with
/// all later ones.
fn refusals_of<R: Threads + Sync>(
    rt: &R,
    alloc: Global,
    count: usize,
    onward: bool,
) -> Option<u64> {
    let text = text_of(alloc, count)?;
    let requests = refusals(rt, alloc, Work::even(text.as_str()), onward);
    drop(text);
    requests
}

#[test]
fn answers_each_object_at_its_place(rt: HostRuntime) {
    for count in [0, 1, 3, 1_000, 2_047, 2_048, 2_049, 5_000] {
        assert!(rt; is_answered(&rt, rt.alloc(), count), "{count}");
    }
}

#[test]
fn is_refused_where_memory_is(rt: HostRuntime) {
    for onward in [false, true] {
        // Few objects are answered in one run.
        for work in FEW {
            assert!(rt; refusals(&rt, rt.alloc(), work, onward) == Some(1));
        }
        // Many objects are answered in several runs, whose answers are put together.
        let many = refusals_of(&rt, rt.alloc(), 5_000, onward);
        assert!(rt; many.is_some_and(|requests| requests > 3));
    }
}
