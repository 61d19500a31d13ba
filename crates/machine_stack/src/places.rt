//! The places of the operand stack, and those of the slots.
use smallvec::SmallVec;
use std::alloc::{AllocError, Allocator};
use std::marker::Model;
use std::mem;
use term_operand::Value;

/// How many places of the operand stack take no memory.
pub const INLINE_PLACES: usize = 16;

/// How many slots take no memory.
pub const INLINE_SLOTS: usize = 8;

/// So many places, of which up to `N` take no memory. Contracts see the terms that they hold, from the first, and
/// whether none of these was made.
#[derive(Drop)]
pub struct Places<'a, 'h, const N: usize, A: Allocator> {
    places: SmallVec<Value<'a, A>, N, &'h A>,
}

impl<'a, 'h, const N: usize, A: Allocator> Model for Places<'a, 'h, N, A> {
    ghost use Rattle.std.specs.Prelude.{◌<◌, ◌≤◌, length};
    ghost use Rattle.std.specs.Coded.{codes};
    ghost use Rattle.term_core.specs.DatumCode.{datum_code};
    ghost use Rattle.machine_stack.specs.Stack.{Held, held_of};

    ghost Value = { Held };

    ghost coded = { Prim.hlevel (codes, datum_code) };

    ghost view = { λ s. held_of s.places.items };

    ghost invariant = { λ s. (length s.places.items < 65536) × (N ≤ s.places.capacity) };
}

impl<'a, 'h, const N: usize, A: Allocator + Copy> Places<'a, 'h, N, A> {
    ghost use Rattle.std.specs.Prelude.{◌≡◌, ◌<◌, ◌≤◌, ◌+◌, Some, false, IsTrue, IsOk, IfOk, OnOk, length, set, slice_get, map};
    ghost use Rattle.term_operand.specs.Operand.{boolean};
    ghost use Rattle.term_operand.specs.Value.{value_datum, is_borrowed, all};

    /// No places.
    fn empty(heap: &'h A) -> Self
        ensures count { length result.terms ≡ 0 }
        ensures borrowed { IsTrue result.borrowed }
    {
        Places {
            places: SmallVec::new(heap),
        }
    }

    /// How many places there are.
    fn len(&self) -> usize
        ensures { result ≡ length self.now.terms }
    {
        self.places.as_slice().len()
    }

    /// One more place.
    fn add(&mut self) -> Result<(), AllocError>
        requires { length self.old.terms < 65535 }
        ensures count { OnOk result (length self.new.terms ≡ length self.old.terms + 1) }
        ensures borrowed { IsTrue self.old.borrowed → OnOk result (IsTrue self.new.borrowed) }
        ensures memory { length self.old.terms < N → IsOk result }
    {
        self.places.push(Value::Bool(false))?;
        Ok(())
    }

    /// Makes as many places as this, where there are no more.
    fn fill(&mut self, count: u16) -> Result<(), AllocError>
        requires { length self.old.terms ≤ count }
        ensures count { OnOk result (length self.new.terms ≡ count) }
        ensures borrowed { IsTrue self.old.borrowed → OnOk result (IsTrue self.new.borrowed) }
        ensures memory { count ≤ N → IsOk result }
    {
        while self.len() < usize::from(count) {
            self.add()?;
        }
        Ok(())
    }

    /// Returns the allocator.
    #[inline(always)]
    pub fn heap(&self) -> &'h A {
        *self.places.allocator()
    }

    /// What all places hold.
    #[inline(always)]
    pub fn as_slice(&self) -> &[Value<'a, A>]
        ensures terms { map value_datum result.now ≡ self.now.terms }
        ensures borrowed { all is_borrowed result.now ≡ self.now.borrowed }
    {
        self.places.as_slice()
    }

    /// What a place holds.
    #[inline(always)]
    pub fn get(&self, index: usize) -> &Value<'a, A>
        requires { index < length self.now.terms }
        ensures value { slice_get self.now.terms index ≡ Some (value_datum result.now) }
        ensures borrowed { IsTrue self.now.borrowed → IsTrue (is_borrowed result.now) }
    {
        &self.places.as_slice()[index]
    }

    /// Puts a value in a place, where the one before goes.
    #[inline(always)]
    pub fn put(&mut self, index: usize, place: Value<'a, A>)
        requires { index < length self.old.terms }
        ensures terms { self.new.terms ≡ set self.old.terms index (value_datum place.entry) }
        ensures few { length self.new.terms < 65536 }
        ensures borrowed { IsTrue self.old.borrowed → IsTrue (is_borrowed place.entry)
            → IsTrue self.new.borrowed }
    {
        match self.places.get_mut(index) {
            Some(there) => mem::replace(there, place).go(),
            None => unreachable!(),
        }
    }

    /// Takes the value of a place, which holds `false` then.
    #[inline(always)]
    pub fn take(&mut self, index: usize) -> Value<'a, A>
        requires { index < length self.old.terms }
        ensures value { slice_get self.old.terms index ≡ Some (value_datum result) }
        ensures terms { self.new.terms ≡ set self.old.terms index (boolean false) }
        ensures borrowed { IsTrue self.old.borrowed
            → IsTrue (is_borrowed result) × IsTrue self.new.borrowed }
    {
        match self.places.get_mut(index) {
            Some(there) => mem::replace(there, Value::Bool(false)),
            None => unreachable!(),
        }
    }
}

impl<'a, 'h, A: Allocator + Copy> Places<'a, 'h, INLINE_PLACES, A> {
    ghost use Rattle.std.specs.Prelude.{◌≡◌, ◌≤◌, IsTrue, IsOk, IfOk, length};

    /// So many places of an operand stack. Few of them take no memory.
    pub fn of_stack(heap: &'h A, count: u16) -> Result<Self, AllocError>
        ensures count { IfOk result (λ places. length places.terms ≡ count) }
        ensures borrowed { IfOk result (λ places. IsTrue places.borrowed) }
        ensures memory { count ≤ INLINE_PLACES → IsOk result }
    {
        let mut places = Places::empty(heap);
        places.fill(count)?;
        Ok(places)
    }
}

impl<'a, 'h, A: Allocator + Copy> Places<'a, 'h, INLINE_SLOTS, A> {
    ghost use Rattle.std.specs.Prelude.{◌≡◌, ◌≤◌, IsTrue, IsOk, IfOk, length};

    /// So many slots. Few of them take no memory.
    pub fn of_slots(heap: &'h A, count: u16) -> Result<Self, AllocError>
        ensures count { IfOk result (λ places. length places.terms ≡ count) }
        ensures borrowed { IfOk result (λ places. IsTrue places.borrowed) }
        ensures memory { count ≤ INLINE_SLOTS → IsOk result }
    {
        let mut places = Places::empty(heap);
        places.fill(count)?;
        Ok(places)
    }
}
