//! The answers for a list of objects, computed by several threads.
ghost use Rattle.std.specs.Prelude.{◌≡◌, ◌<◌, IfOk, Ok, map, vec_items};
ghost use Rattle.std.specs.List.{flat_map};
ghost use Rattle.mcode.specs.Answer.{answer_of};
ghost use Rattle.parallel_list.specs.Runs.{AreOfRuns};

use crate::runs::answer_run;
use rayon::current_num_threads;
use rayon::prelude::*;
use std::alloc::{AllocError, Allocator};
use std::thread::Threads;
use term_core::Term;
use verifier::Verified;

/// The fewest objects that are worth a thread of their own.
pub const LEAST_RUN: usize = 1024;

/// Returns the number of objects of a run, at least 1,024: there are at most two runs for each thread, since runs take
/// different times.
fn run_size<R: Threads>(rt: &R, count: usize) -> usize
    ensures { 0 < result }
{
    let runs = current_num_threads(rt).saturating_mul(2).max(1);
    count.div_ceil(runs).max(LEAST_RUN)
}

/// Applies a function to runs of `size` items, in parallel, and returns the results in the order of the runs. Fails if
/// an allocation fails, also one of the function.
fn map_runs<
    R: Threads + Sync,
    T: Sync,
    X: Send + Drop,
    A: Allocator + Clone + Send + Sync,
    F: Fn(&[T]) -> Result<X, AllocError> + Copy + Send + Sync,
>(
    rt: &R,
    alloc: A,
    items: &[T],
    size: usize,
    f: F,
) -> Result<Result<Vec<X, A>, AllocError>, AllocError>
    requires size { 0 < size }
    requires accepts { F.IsAlwaysCallable f }
    ensures { IfOk result (λ all. IfOk all (λ made.
        AreOfRuns (λ run x. F.post f run (Ok x)) items.now made.items)) }
{
    items
        .par_chunks(size)
        .with_min_len(1)
        .map(f)
        .collect(rt, alloc)
}

/// Returns the answers of code for runs of `size` objects, computed in parallel. Fails if an allocation fails.
fn answer_runs<R: Threads + Sync, A: Allocator + Copy + Send + Sync>(
    rt: &R,
    alloc: A,
    code: &Verified<A>,
    objects: &[Term<A>],
    size: usize,
) -> Result<Result<Vec<Vec<Option<Term<A>>, A>, A>, AllocError>, AllocError>
    requires { 0 < size }
    ensures { IfOk result (λ answered. IfOk answered (λ runs. flat_map vec_items runs.items
        ≡ map (answer_of code.now) objects.now)) }
{
    map_runs(
        rt,
        alloc,
        objects,
        size,
        |run: &[Term<A>]| -> Result<Vec<Option<Term<A>>, A>, AllocError>
            ensures { IfOk result (λ answers. answers.items ≡ map (answer_of code.entry.now) run.now) }
        { answer_run(alloc, code, run) },
    )
}

/// Returns the answers of all runs, joined in the order of the runs. Fails if an allocation fails.
fn join_runs<A: Allocator + Copy>(
    alloc: A,
    count: usize,
    runs: Vec<Vec<Option<Term<A>>, A>, A>,
) -> Result<Vec<Option<Term<A>>, A>, AllocError>
    ensures { IfOk result (λ answers. answers.items ≡ flat_map vec_items runs.items) }
{
    let mut answers = Vec::new(alloc);
    answers.reserve(count)?;
    for run in runs {
        let mut run = run;
        answers.append(&mut run)?;
    }
    Ok(answers)
}

/// Returns the answers of code for objects, in their order, `None` for an object that has no answer
/// (ets:match_spec_run/2 leaves these out). The objects are split into runs, which threads answer in parallel, each run
/// with one machine. Fewer than 2,048 objects are one run. Fails only if an allocation fails.
pub fn run_list<R: Threads + Sync, A: Allocator + Copy + Send + Sync>(
    rt: &R,
    alloc: A,
    code: &Verified<A>,
    objects: &[Term<A>],
) -> Result<Vec<Option<Term<A>>, A>, AllocError>
    ensures { IfOk result (λ answers. answers.items ≡ map (answer_of code.now) objects.now) }
{
    if objects.len() < 2 * LEAST_RUN {
        return answer_run(alloc, code, objects);
    }
    let size = run_size(rt, objects.len());
    let runs = answer_runs(rt, alloc, code, objects, size)??;
    join_runs(alloc, objects.len(), runs)
}
