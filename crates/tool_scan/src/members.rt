//! What the sessions of a scan do.
ghost use Rattle.std.specs.Prelude.{◌≡◌, ◌<◌, ◌+◌, ◌∷◌, All, List, Some, IfOk, OnOk, flat_map, length, map};
ghost use Rattle.std.specs.Thread.{IsSync};
ghost use Rattle.term_core.specs.Datum.{Datum};
ghost use Rattle.part_core.specs.Acts.Act.{Insert};
ghost use Rattle.part_core.specs.Acts.Answer.{Replied};
ghost use Rattle.part_core.specs.Acts.Said.{Nothing};
ghost use Rattle.tables.specs.Calls.{TurnedByObject};
ghost use Rattle.tables.specs.Turns.{Follows};
ghost use Rattle.parallel_select.specs.Parts.{is_share};
ghost use Rattle.parallel_select.specs.Workers.{Did};
ghost use Rattle.walks.specs.Query.{plan_of};
ghost use Rattle.tool_scan.specs.Members.{AreMembers, EachPuts, EachPutsThose, EachScans, Puts, those_of};
ghost use Rattle.tool_scan.specs.Options.{table_of, worker_of, AreAllowed, IsFit};

use crate::options::ScanOptions;
use parallel_select::select_parts;
use part_core::key_in;
use std::alloc::{AllocError, Allocator};
use std::sync::Wait;
use std::thread::{Threads, join_mut};
use tables::{Turns, insert, part_of_key};
use term_core::Term;
use walks::Query;

/// Returns the number of the member to which the object's part belongs.
fn member_of<A: Allocator>(options: ScanOptions, object: &Term<A>) -> u8
    requires allowed { AreAllowed options }
    requires fit { IsFit options object.now }
    ensures worker { result ≡ worker_of options object.now }
    ensures inside { result < options.workers }
{
    match key_in(options.keypos, object) {
        Some(key) => part_of_key(key, options.parts) % options.workers,
        None => unreachable!(),
    }
}

/// Has a member insert a copy of an object.
fn put_object<A: Allocator, T: Turns<A>>(turns: &mut T, object: &Term<A>) -> Result<(), AllocError>
    requires { T.is_ready turns.old }
    ensures ready { T.is_ready turns.new }
    ensures same { T.home turns.new ≡ T.home turns.old }
    ensures put { OnOk result (Follows (T.sees turns.old) (T.sees turns.new)
        (TurnedByObject (T.home turns.old) object.now (Insert object.now) (Some (Replied Nothing)))) }
{
    let object = object.copy()?;
    match insert(turns, object) {
        Ok(()) => Ok(()),
        Err(_) => Err(AllocError),
    }
}

/// Returns, for each object, the number of the member to which the object's part belongs.
fn members_of<A: Allocator + Copy>(
    alloc: A,
    options: ScanOptions,
    objects: &[Term<A>],
) -> Result<Vec<u8, A>, AllocError>
    requires allowed { AreAllowed options }
    requires fit { All (IsFit options) objects.now }
    ensures { IfOk result (λ numbers. numbers.items ≡ map (worker_of options) objects.now) }
{
    let mut numbers = Vec::new(alloc);
    numbers.reserve(objects.len())?;
    for object in objects {
        numbers.push(member_of(options, object))?;
    }
    Ok(numbers)
}

/// Objects, and for each the number of the member to which its part belongs.
#[derive(Drop)]
struct Shares<'a, A: Allocator> {
    objects: &'a [Term<A>],
    numbers: &'a [u8],
}

/// Has one member insert the objects with its number, in their order.
// The handle is not used: a closure is found sendable only if its captures' type parameters are among those of the
// function.
fn put_own<R, A: Allocator, T: Turns<A>>(
    _rt: &R,
    number: u8,
    turns: &mut T,
    shares: &Shares<'_, A>,
) -> Result<(), AllocError>
    requires ready { T.is_ready turns.old }
    requires numbers { length shares.now.numbers.now ≡ length shares.now.objects.now }
    ensures ready { T.is_ready turns.new }
    ensures same { T.home turns.new ≡ T.home turns.old }
    ensures put { OnOk result (Follows (T.sees turns.old) (T.sees turns.new)
        (Puts (T.home turns.old) (those_of number shares.now.numbers.now shares.now.objects.now))) }
{
    for (place, object) in shares.objects.iter().enumerate() {
        if shares.numbers[place] == number {
            put_object(turns, object)?;
        }
    }
    Ok(())
}

/// Has the first member insert the objects of its parts on a thread of its own, and the others do so on other threads.
// A function of its own, so that its preconditions are what the closures require.
#[cycle(puts)]
fn put_both<R: Threads + Sync, A: Allocator + Copy + Send + Sync, T: Turns<A> + Send>(
    rt: &R,
    number: u8,
    first: &mut T,
    rest: &mut [T],
    shares: &Shares<'_, A>,
) -> Result<(), AllocError>
    requires first { T.is_ready first.old }
    requires rest { All T.is_ready rest.old }
    requires few { number + 1 + length rest.old < 256 }
    requires numbers { length shares.now.numbers.now ≡ length shares.now.objects.now }
    ensures { OnOk result (EachPutsThose T.is_ready T.home T.sees shares.now.objects.now shares.now.numbers.now number (first.old ∷ rest.old) (first.new ∷ rest.new)) }
{
    let (one, others) = join_mut(
        rt,
        &mut || -> Result<(), AllocError>
            requires { IsSync R.row × T.is_ready first.now × (length shares.now.numbers.now ≡ length shares.now.objects.now) }
            ensures { OnOk result (Did T.is_ready T.home T.sees (λ h. Puts h (those_of number shares.entry.now.numbers.now shares.entry.now.objects.now)) first.entry.now first.exit.now) }
        { put_own(rt, number, first, shares) },
        &mut || -> Result<(), AllocError>
            requires { IsSync R.row × All T.is_ready rest.now × (number + 1 + length rest.now < 256) × (length shares.now.numbers.now ≡ length shares.now.objects.now) }
            ensures { OnOk result (EachPutsThose T.is_ready T.home T.sees shares.entry.now.objects.now shares.entry.now.numbers.now (number + 1) rest.entry.now rest.exit.now) }
        { put_each(rt, number + 1, rest, shares) },
    );
    one?;
    others
}

/// Has each member insert the objects of its parts on a thread of its own. `number` is that of the first member.
#[cycle(puts)]
fn put_each<R: Threads + Sync, A: Allocator + Copy + Send + Sync, T: Turns<A> + Send>(
    rt: &R,
    number: u8,
    members: &mut [T],
    shares: &Shares<'_, A>,
) -> Result<(), AllocError>
    requires ready { All T.is_ready members.old }
    requires few { number + length members.old < 256 }
    requires numbers { length shares.now.numbers.now ≡ length shares.now.objects.now }
    ensures { OnOk result (EachPutsThose T.is_ready T.home T.sees shares.now.objects.now shares.now.numbers.now number members.old members.new) }
{
    match members.split_first_mut() {
        Some((first, rest)) => put_both(rt, number, first, rest, shares),
        None => Ok(()),
    }
}

/// Has each member insert the objects of its parts, in their order, on a thread of its own.
fn put_objects<R: Threads + Sync, A: Allocator + Copy + Send + Sync, T: Turns<A> + Send>(
    rt: &R,
    alloc: A,
    options: ScanOptions,
    members: &mut [T],
    objects: &[Term<A>],
) -> Result<(), AllocError>
    requires members { AreMembers T.is_ready T.home options members.old }
    requires allowed { AreAllowed options }
    requires fit { All (IsFit options) objects.now }
    ensures members { OnOk result (AreMembers T.is_ready T.home options members.new) }
    ensures put { OnOk result (EachPuts T.is_ready T.home T.sees options objects.now members.old members.new) }
{
    let numbers = members_of(alloc, options, objects)?;
    let shares = Shares {
        objects,
        numbers: numbers.as_slice(),
    };
    put_each(rt, 0, members, &shares)
}

/// Has each member insert the objects of its parts, in their order, on a thread of its own. Then each walks through
/// these parts, again on a thread of its own. Returns the answers in the order of the parts.
pub(crate) fn scan_members<
    R: Threads + Wait + Sync,
    A: Allocator + Copy + Send + Sync,
    T: Turns<A> + Send,
>(
    rt: &R,
    alloc: A,
    options: ScanOptions,
    members: &mut [T],
    objects: &[Term<A>],
    query: &Query<A>,
) -> Result<Vec<Term<A>, A>, AllocError>
    requires members { AreMembers T.is_ready T.home options members.old }
    requires allowed { AreAllowed options }
    requires fit { All (IsFit options) objects.now }
    ensures { IfOk result (λ answers. (lists : List (List Datum)) × (length lists ≡ options.parts)
        × (answers.items ≡ flat_map (λ list. list) lists)
        × EachScans T.is_ready T.home T.sees options query.now.code (plan_of query.now (table_of options)) objects.now lists members.old members.new) }
{
    put_objects(rt, alloc, options, members, objects)?;
    match select_parts(rt, alloc, members, query) {
        Ok(answers) => Ok(answers),
        Err(_) => Err(AllocError),
    }
}
