//! Workers in parallel, each on a thread of its own, and their joint result.
ghost use Rattle.std.specs.Prelude.{ℕ, true, ◌∷◌, ◌++◌, ◌≡◌, ◌≢◌, if◌then◌else◌, ◌<◌, ◌≤◌, ◌+◌, ◌||◌, false, min, All, IfOk, IfErr, List, length, map, vec_items};
ghost use Rattle.std.specs.Thread.{IsSync};
ghost use Rattle.part_core.specs.Acts.Purpose.{Answers};
ghost use Rattle.part_core.specs.Replies.{most_counted};
ghost use Rattle.tables.specs.Turns.{Follows};
ghost use Rattle.parallel_select.specs.Gained.{is_counting, purpose_of};
ghost use Rattle.parallel_select.specs.Parts.{part_walk, is_share, answers_of, Works, Broken, Counted, BrokenAt};
ghost use Rattle.parallel_select.specs.Workers.{AreBothJoined, AreJoined, Did, EachAnswers, EachBroken, EachTallied, Gathered, GatheredEach, Tallied};

use crate::gained::{Asking, capped_sum};
use crate::worker::{answer_parts, count_parts_of};
use std::alloc::{AllocError, Allocator};
use std::mem;
use std::thread::{Threads, join_mut};
use tables::Turns;
use term_core::{Refused, Term};
use walks::Query;

/// What a worker counted, and whether it ran out of memory.
#[derive(Clone, Copy)]
pub(crate) struct Tally {
    /// The number of objects, at most 2^64 - 1.
    pub count: u64,
    /// The worker didn't reach its end.
    pub refused: bool,
}

/// Makes one worker count or delete in its parts.
// The handle isn't used: a closure is found to be sendable if the type parameters of what it captures are.
fn count_own<R, A: Allocator, T: Turns<A>>(
    _rt: &R,
    query: &Query<A>,
    asking: Asking,
    workers: u8,
    number: u8,
    turns: &mut T,
) -> Tally
    requires ready { T.is_ready turns.old }
    requires workers { 0 < workers }
    requires counting { is_counting asking ≡ true }
    ensures ready { T.is_ready turns.new }
    ensures same { T.home turns.new ≡ T.home turns.old }
    ensures done { Follows (T.sees turns.old) (T.sees turns.new)
        (Tallied (T.home turns.old) (part_walk (T.home turns.old) (purpose_of asking) query.now) (is_share workers number) result.refused result.count) }
{
    match count_parts_of(query, asking, workers, number, turns) {
        Ok(count) => Tally {
            count,
            refused: false,
        },
        Err(refused) => Tally {
            count: refused.value,
            refused: true,
        },
    }
}

/// Returns the joint result of two tallies: the sum of the counts, at most 2^64 - 1, refused if one was.
fn together(one: Tally, others: Tally) -> Tally
    ensures { (result.count ≡ min (one.count + others.count) most_counted) × (result.refused ≡ (one.refused || others.refused)) }
{
    Tally {
        count: capped_sum(one.count, others.count),
        refused: one.refused || others.refused,
    }
}

/// Makes one member count on a thread of its own, and the others each on another.
// A separate function, so that the requirements of the closures are its own.
#[cycle(tallies)]
fn tally_both<R: Threads + Sync, A: Allocator + Copy + Send + Sync, T: Turns<A> + Send>(
    rt: &R,
    query: &Query<A>,
    asking: Asking,
    workers: u8,
    number: u8,
    first: &mut T,
    rest: &mut [T],
) -> Tally
    requires first { T.is_ready first.old }
    requires rest { All T.is_ready rest.old }
    requires workers { number + 1 + length rest.old ≤ workers }
    requires counting { is_counting asking ≡ true }
    ensures { EachTallied T.is_ready T.home T.sees query.now (purpose_of asking) workers result.refused result.count number (first.old ∷ rest.old) (first.new ∷ rest.new) }
{
    let (one, others) = join_mut(
        rt,
        &mut || -> Tally
            requires { IsSync R.row × T.is_ready first.now × (0 < workers) × (is_counting asking ≡ true) }
            ensures { Did T.is_ready T.home T.sees (λ h. Tallied h (part_walk h (purpose_of asking) query.entry.now) (is_share workers number) result.refused result.count) first.entry.now first.exit.now }
        { count_own(rt, query, asking, workers, number, first) },
        &mut || -> Tally
            requires { IsSync R.row × All T.is_ready rest.now × (number + 1 + length rest.now ≤ workers) × (is_counting asking ≡ true) }
            ensures { EachTallied T.is_ready T.home T.sees query.entry.now (purpose_of asking) workers result.refused result.count (number + 1) rest.entry.now rest.exit.now }
        { tally_each(rt, query, asking, workers, number + 1, rest) },
    );
    together(one, others)
}

/// Makes each member count, each on a thread of its own. The first member is the worker with this number.
#[cycle(tallies)]
pub(crate) fn tally_each<R: Threads + Sync, A: Allocator + Copy + Send + Sync, T: Turns<A> + Send>(
    rt: &R,
    query: &Query<A>,
    asking: Asking,
    workers: u8,
    number: u8,
    members: &mut [T],
) -> Tally
    requires ready { All T.is_ready members.old }
    requires workers { number + length members.old ≤ workers }
    requires counting { is_counting asking ≡ true }
    ensures { EachTallied T.is_ready T.home T.sees query.now (purpose_of asking) workers result.refused result.count number members.old members.new }
{
    match members.split_first_mut() {
        Some((first, rest)) => tally_both(rt, query, asking, workers, number, first, rest),
        None => Tally {
            count: 0,
            refused: false,
        },
    }
}

/// Returns an empty list of answers for each part. Fails if an allocation fails.
fn no_lists<A: Allocator + Copy>(alloc: A, parts: u8) -> Result<Vec<Vec<Term<A>, A>, A>, AllocError>
    ensures { IfOk result (λ lists. length (map vec_items lists.items) ≡ parts) }
{
    let mut lists = Vec::with_capacity(alloc, usize::from(parts))?;
    for part in 0..parts {
        lists.push_reserved(Vec::new(alloc));
    }
    Ok(lists)
}

/// Exchanges one worker's answers at a part with those of others if the part is its own.
fn put_one<A: Allocator>(
    mine: bool,
    place: usize,
    own: &mut [Vec<Term<A>, A>],
    others: &mut [Vec<Term<A>, A>],
)
    requires own { place < length own.old }
    requires others { place < length others.old }
    ensures own { length own.new ≡ length own.old }
    ensures others { length others.new ≡ length others.old }
    ensures own_else { (part : ℕ) → part ≢ place → answers_of (map vec_items own.new) part ≡ answers_of (map vec_items own.old) part }
    ensures others_else { (part : ℕ) → part ≢ place → answers_of (map vec_items others.new) part ≡ answers_of (map vec_items others.old) part }
    ensures here { answers_of (map vec_items others.new) place
        ≡ (if mine then answers_of (map vec_items own.old) place else answers_of (map vec_items others.old) place) }
{
    if mine {
        mem::swap(&mut own[place], &mut others[place]);
    }
}

/// Puts one worker's answers at its own parts among those of others.
fn put_own<A: Allocator>(
    workers: u8,
    number: u8,
    parts: u8,
    own: &mut [Vec<Term<A>, A>],
    others: &mut [Vec<Term<A>, A>],
)
    requires workers { 0 < workers }
    requires own { length own.old ≡ parts }
    requires others { length others.old ≡ parts }
    ensures length { length others.new ≡ parts }
    ensures joined { AreJoined workers number parts (map vec_items own.old) (map vec_items others.old) (map vec_items others.new) }
{
    for part in 0..parts {
        put_one(part % workers == number, usize::from(part), own, others);
    }
}

/// Returns the answers of two sides: those of `own` at the worker's own parts, those of `others` elsewhere.
fn joined<A: Allocator>(
    workers: u8,
    number: u8,
    parts: u8,
    own: Vec<Vec<Term<A>, A>, A>,
    others: Vec<Vec<Term<A>, A>, A>,
) -> Vec<Vec<Term<A>, A>, A>
    requires workers { 0 < workers }
    requires own { length (map vec_items own.items) ≡ parts }
    requires others { length (map vec_items others.items) ≡ parts }
    ensures length { length (map vec_items result.items) ≡ parts }
    ensures joined { AreJoined workers number parts (map vec_items own.items) (map vec_items others.items) (map vec_items result.items) }
{
    let mut own = own;
    let mut others = others;
    put_own(
        workers,
        number,
        parts,
        own.as_mut_slice(),
        others.as_mut_slice(),
    );
    others
}

/// Returns the answers of two sides, or an error if one has failed.
fn both<A: Allocator>(
    workers: u8,
    number: u8,
    parts: u8,
    own: Result<Vec<Vec<Term<A>, A>, A>, AllocError>,
    others: Result<Vec<Vec<Term<A>, A>, A>, AllocError>,
) -> Result<Vec<Vec<Term<A>, A>, A>, AllocError>
    requires workers { 0 < workers }
    requires own { IfOk own (λ lists. length (map vec_items lists.items) ≡ parts) }
    requires others { IfOk others (λ lists. length (map vec_items lists.items) ≡ parts) }
    ensures each { IfOk result (λ lists. length (map vec_items lists.items) ≡ parts) }
    ensures joined { IfOk result (λ lists. AreBothJoined (λ given. map vec_items given.items) workers number parts own others (map vec_items lists.items)) }
{
    match (own, others) {
        (Ok(own), Ok(others)) => Ok(joined(workers, number, parts, own, others)),
        (Ok(_), Err(_)) => Err(AllocError),
        (Err(_), _) => Err(AllocError),
    }
}

/// What the workers of a selection share.
#[derive(Drop)]
pub(crate) struct Plan<'q, A: Allocator> {
    /// The allocator.
    pub alloc: A,
    /// The query.
    pub query: &'q Query<A>,
    /// The number of workers.
    pub workers: u8,
    /// The number of parts of the table.
    pub parts: u8,
}

/// Makes one member return the answers of its parts. Fails if an allocation fails.
fn answer_one<A: Allocator + Copy, T: Turns<A>>(
    plan: &Plan<'_, A>,
    number: u8,
    one: &mut [T],
) -> Result<Vec<Vec<Term<A>, A>, A>, AllocError>
    requires one { length one.old ≡ 1 }
    requires ready { All T.is_ready one.old }
    requires workers { 0 < plan.now.workers }
    ensures { Gathered T.is_ready T.home T.sees plan.now.query.now plan.now.workers number (λ lists. map vec_items lists.items) result one.old one.new }
{
    answer_parts(plan.alloc, plan.query, plan.workers, number, &mut one[0])
}

/// Makes one member answer on a thread of its own, and the others each on another. Fails if an allocation fails.
// A separate function, so that the requirements of the closures are its own.
#[cycle(answers)]
fn answer_both<R: Threads + Sync, A: Allocator + Copy + Send + Sync, T: Turns<A> + Send>(
    rt: &R,
    plan: &Plan<'_, A>,
    number: u8,
    one: &mut [T],
    rest: &mut [T],
) -> Result<Vec<Vec<Term<A>, A>, A>, AllocError>
    requires one { length one.old ≡ 1 }
    requires first { All T.is_ready one.old }
    requires rest { All T.is_ready rest.old }
    requires single { All (λ turns. (T.home turns).options.parts ≡ plan.now.parts) one.old }
    requires parts { All (λ turns. (T.home turns).options.parts ≡ plan.now.parts) rest.old }
    requires workers { (number + 1 + length rest.old ≤ plan.now.workers) × (plan.now.workers < 256) }
    ensures each { IfOk result (λ lists. length (map vec_items lists.items) ≡ plan.now.parts) }
    ensures done { IfOk result (λ lists. EachAnswers T.is_ready T.home T.sees plan.now.query.now plan.now.workers (map vec_items lists.items) number (one.old ++ rest.old) (one.new ++ rest.new)) }
    ensures refused { IfErr result (λ _. EachBroken T.is_ready T.home T.sees plan.now.query.now plan.now.workers number (one.old ++ rest.old) (one.new ++ rest.new)) }
{
    let (own, others) = join_mut(
        rt,
        &mut || -> Result<Vec<Vec<Term<A>, A>, A>, AllocError>
            requires { (length one.now ≡ 1) × All T.is_ready one.now × (0 < plan.now.workers) }
            ensures { Gathered T.is_ready T.home T.sees plan.entry.now.query.now plan.entry.now.workers number (λ lists. map vec_items lists.items) result one.entry.now one.exit.now }
        { answer_one(plan, number, one) },
        &mut || -> Result<Vec<Vec<Term<A>, A>, A>, AllocError>
            requires { IsSync R.row × All T.is_ready rest.now × All (λ turns. (T.home turns).options.parts ≡ plan.now.parts) rest.now × (number + 1 + length rest.now ≤ plan.now.workers) × (plan.now.workers < 256) }
            ensures { GatheredEach T.is_ready T.home T.sees plan.entry.now.query.now plan.entry.now.workers (number + 1) plan.entry.now.parts (λ lists. map vec_items lists.items) result rest.entry.now rest.exit.now }
        { answer_each(rt, plan, number + 1, rest) },
    );
    both(plan.workers, number, plan.parts, own, others)
}

/// Makes each member answer, each on a thread of its own. The first member is the worker with this number. Fails if an
/// allocation fails.
#[cycle(answers)]
pub(crate) fn answer_each<R: Threads + Sync, A: Allocator + Copy + Send + Sync, T: Turns<A> + Send>(
    rt: &R,
    plan: &Plan<'_, A>,
    number: u8,
    members: &mut [T],
) -> Result<Vec<Vec<Term<A>, A>, A>, AllocError>
    requires ready { All T.is_ready members.old }
    requires parts { All (λ turns. (T.home turns).options.parts ≡ plan.now.parts) members.old }
    requires workers { (number + length members.old ≤ plan.now.workers) × (plan.now.workers < 256) }
    ensures each { IfOk result (λ lists. length (map vec_items lists.items) ≡ plan.now.parts) }
    ensures done { IfOk result (λ lists. EachAnswers T.is_ready T.home T.sees plan.now.query.now plan.now.workers (map vec_items lists.items) number members.old members.new) }
    ensures refused { IfErr result (λ _. EachBroken T.is_ready T.home T.sees plan.now.query.now plan.now.workers number members.old members.new) }
{
    if members.is_empty() {
        return no_lists(plan.alloc, plan.parts);
    }
    let (one, rest) = members.split_at_mut(1);
    answer_both(rt, plan, number, one, rest)
}
