//! Constants, each once.
ghost use Rattle.std.specs.Prelude.{◌≡◌, ◌≤◌, ◌+◌, ◌-◌, ◌++◌, ◌∷◌, [], Some, None, length, slice_get, take, if◌then◌else◌, OnOk, OnErr, IfOk};
ghost use Rattle.std.specs.BTreeMap.{get};
ghost use Rattle.mcode.specs.Program.{most_parts};
ghost use Rattle.term_operand.specs.Order.{is_same};
ghost use Rattle.term_core.specs.Datum.{Datum};
ghost use Rattle.term_core.specs.Order.{datum_cmp};
ghost use Rattle.compiler_assembly.specs.Pool.{place_of, IsPool};

use mcode::{Fault, MAX_COUNT};
use std::alloc::{AllocError, Allocator, Global};
use std::collections::BTreeMap;
use std::marker::Model;
use std::mem;
use term_core::Term;

/// Up to this many constants are searched one by one, without a map.
const FEW: usize = 8;

/// Appends a term. If an allocation fails, returns an error, and the terms are unchanged.
fn push<A: Allocator>(terms: &mut Vec<Term<A>, A>, term: Term<A>) -> Result<(), AllocError>
    ensures ok { OnOk result (terms.new.items ≡ terms.old.items ++ term ∷ []) }
    ensures kept { OnErr result (terms.new.items ≡ terms.old.items) }
{
    match terms.push(term) {
        Ok(()) => Ok(()),
        Err(_) => Err(AllocError),
    }
}

/// Removes the last term.
fn take_back<A: Allocator>(terms: &mut Vec<Term<A>, A>)
    ensures { terms.new.items ≡ take (length terms.old.items - 1) terms.old.items }
{
    terms.pop();
}

/// Enters the number of a term in the map. If an allocation fails, returns an error, and the map is unchanged.
fn enter<A: Allocator + Copy>(
    numbers: &mut BTreeMap<Term<A>, u16, A>,
    term: &Term<A>,
    number: u16,
) -> Result<(), AllocError>
    ensures ok { OnOk result ((d : Datum) → get datum_cmp numbers.new d
        ≡ (if is_same term.now d then Some number else get datum_cmp numbers.old d)) }
    ensures kept { OnErr result ((d : Datum) → get datum_cmp numbers.new d
        ≡ get datum_cmp numbers.old d) }
{
    let key = term.copy()?;
    match numbers.insert(key, number) {
        Ok(_) => Ok(()),
        Err(_) => Err(AllocError),
    }
}

/// Returns the number of a term among these, or `None`. Searches them one by one.
fn place_among<A: Allocator>(terms: &[Term<A>], term: &Term<A>) -> Option<u16>
    requires { length terms.now ≤ most_parts }
    ensures { result ≡ place_of terms.now term.now }
{
    for place in 0..terms.len() {
        if terms[place] == *term {
            return Some(place as u16);
        }
    }
    None
}

/// Returns a map from these terms to their numbers. Fails if an allocation fails.
fn numbered<A: Allocator + Copy>(
    alloc: A,
    terms: &[Term<A>],
) -> Result<BTreeMap<Term<A>, u16, A>, AllocError>
    requires { length terms.now ≤ most_parts }
    ensures { IfOk result (λ numbers. (d : Datum) → get datum_cmp numbers d ≡ place_of terms.now d) }
{
    let mut numbers = BTreeMap::new(alloc);
    for place in (0..terms.len()).rev() {
        enter(&mut numbers, &terms[place], place as u16)?;
    }
    Ok(numbers)
}

/// Enters the last of these terms, whose number is `place`, if there are more than `FEW`. If it is the first beyond
/// `FEW`, enters all of them. If an allocation fails, returns an error, and the map is unchanged.
fn enter_last<A: Allocator + Copy>(
    alloc: A,
    numbers: &mut BTreeMap<Term<A>, u16, A>,
    terms: &[Term<A>],
    place: usize,
) -> Result<(), AllocError>
    requires last { length terms.now ≡ place + 1 }
    requires count { length terms.now ≤ most_parts }
    requires front { IsPool (get datum_cmp numbers.old) (take place terms.now) }
    requires new { (d : Datum) → slice_get terms.now place ≡ Some d → place_of (take place terms.now) d ≡ None }
    ensures ok { OnOk result (IsPool (get datum_cmp numbers.new) terms.now) }
    ensures kept { OnErr result ((d : Datum) → get datum_cmp numbers.new d ≡ get datum_cmp numbers.old d) }
{
    if place < FEW {
        return Ok(());
    }
    if place > FEW {
        return enter(numbers, &terms[place], place as u16);
    }
    let all = numbered(alloc, terms)?;
    drop(mem::replace(numbers, all));
    Ok(())
}

/// Constants, each once, by their numbers in order of first use, at most `MAX_COUNT`. An operation that fails leaves
/// them as they were.
#[derive(Drop)]
pub(crate) struct Pool<A: Allocator = Global> {
    terms: Vec<Term<A>, A>,
    /// The number of each constant, if there are more than `FEW`.
    numbers: BTreeMap<Term<A>, u16, A>,
}

impl<A: Allocator> Model for Pool<A> {
    ghost use Rattle.std.specs.Prelude.{List};
    ghost use Rattle.std.specs.BTreeMap.{get};
    ghost use Rattle.std.specs.Coded.{codes};
    ghost use Rattle.term_core.specs.Datum.{Datum};
    ghost use Rattle.term_core.specs.DatumCode.{datum_code};
    ghost use Rattle.term_core.specs.Order.{datum_cmp};
    ghost use Rattle.compiler_assembly.specs.Pool.{IsPool};

    ghost Value = { List Datum };

    ghost coded = { Prim.hlevel (codes, datum_code) };

    ghost view = { λ p. p.terms.items };

    ghost invariant = { λ p. IsPool (get datum_cmp p.numbers) p.terms.items };
}

impl<A: Allocator + Copy> Pool<A> {
    ghost use Rattle.std.specs.Prelude.{◌≡◌, ◌≤◌, ◌<◌, ◌++◌, ◌∷◌, ◌⊎◌, List, [], length, slice_get, Some, None, IfOk, IfErr, OnOk, OnErr};
    ghost use Rattle.compiler_assembly.specs.Assembled.{number_of, with_term};
    ghost use Rattle.compiler_assembly.specs.Pool.{place_of, IsFront};
    ghost use Rattle.mcode.specs.Program.{most_parts};
    ghost use Rattle.mcode.specs.declared.fault.Fault.TheVariants.{Memory, Limit};
    ghost use Rattle.term_core.specs.Datum.{Datum};

    /// Returns a pool without constants.
    pub(crate) fn new(alloc: A) -> Self
        ensures { result ≡ [] }
    {
        Pool {
            terms: Vec::new(alloc),
            numbers: BTreeMap::new(alloc),
        }
    }

    /// Returns the number of a constant, or `None` if it is none of these.
    fn number(&self, term: &Term<A>) -> Option<u16>
        ensures { result ≡ place_of self.now term.now }
    {
        if self.terms.len() <= FEW {
            return place_among(self.terms.as_slice(), term);
        }
        self.numbers.get(term).copied()
    }

    /// Appends a constant that is none of these, and returns its number. Fails, with nothing changed, if an allocation
    /// fails or there are `MAX_COUNT` already.
    fn add(&mut self, term: Term<A>) -> Result<u16, Fault>
        requires { place_of self.old term ≡ None }
        ensures terms { OnOk result (self.new ≡ self.old ++ term ∷ []) }
        ensures number { IfOk result (λ number. number ≡ length self.old) }
        ensures kept { OnErr result (self.new ≡ self.old) }
        ensures refused { IfErr result (λ fault. (fault ≡ Memory)
            ⊎ ((fault ≡ Limit) × (most_parts ≤ length self.old))) }
    {
        let place = self.terms.len();
        if place >= MAX_COUNT {
            return Err(Fault::Limit);
        }
        let number = place as u16;
        let alloc = *self.terms.allocator();
        let Ok(()) = push(&mut self.terms, term) else {
            return Err(Fault::Memory);
        };
        let Ok(()) = enter_last(alloc, &mut self.numbers, self.terms.as_slice(), place) else {
            take_back(&mut self.terms);
            return Err(Fault::Memory);
        };
        Ok(number)
    }

    /// Returns the number of a constant, which is appended if it is none of these. Fails, with nothing changed, if an
    /// allocation fails or there would be more than `MAX_COUNT`.
    pub(crate) fn intern(&mut self, term: Term<A>) -> Result<u16, Fault>
        ensures terms { OnOk result (self.new ≡ with_term self.old term) }
        ensures number { IfOk result (λ number. number ≡ number_of self.new term) }
        ensures there { IfOk result (λ number. slice_get self.new number ≡ Some term) }
        ensures later { IfOk result (λ number. (all : List Datum) → IsFront self.new all
            → number ≡ number_of all term) }
        ensures kept { OnErr result (self.new ≡ self.old) }
        ensures refused { IfErr result (λ fault. (fault ≡ Memory)
            ⊎ ((fault ≡ Limit) × (most_parts < length (with_term self.old term)))) }
    {
        if let Some(number) = self.number(&term) {
            return Ok(number);
        }
        self.add(term)
    }

    /// Returns the constants in the order of their numbers.
    pub(crate) fn into_terms(self) -> Vec<Term<A>, A>
        ensures { result.items ≡ self }
    {
        self.terms
    }
}
