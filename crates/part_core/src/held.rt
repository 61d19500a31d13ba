//! The objects of a key.
ghost use Rattle.std.specs.Prelude.{vec_len, vec_capacity, ◌≡◌, ◌+◌, ◌≤◌, [], ◌∷◌, ◌++◌, List, Some, None, IsSome, IfOk, OnOk, OnErr, unwrap_or, false, if◌then◌else◌};
ghost use Rattle.std.specs.List.{list_any};
ghost use Rattle.term_core.specs.Datum.{Datum};
ghost use Rattle.term_core.specs.Datum.Datum.{nil};
ghost use Rattle.term_operand.specs.Order.{is_same};
ghost use Rattle.part_core.specs.Held.{objects_of};
ghost use Rattle.part_core.specs.Rows.{objects_with, objects_without};

use crate::kind::TableKind;
use std::alloc::{AllocError, Allocator, Global};
use std::marker::Model;
use std::{mem, slice};
use term_core::Term;

/// The capacity of a list that is created when a key gets its second object.
const FEW: usize = 4;

/// No object; one, which is in the row itself; or a list. A list remains one when objects are deleted, since moving
/// them elsewhere would need memory.
#[derive(Drop)]
enum Objects<A: Allocator> {
    Empty,
    One(Term<A>),
    Many(Box<Vec<Term<A>, A>, A>),
}

/// The objects that are held at a key, in the order of insertion. A row that holds none is dead.
pub struct Held<A: Allocator = Global> {
    objects: Objects<A>,
}

/// By hand: a function that drops one has one call in its proof, and not a case for each way in which its parts are dropped.
impl<A: Allocator> Drop for Held<A> {
    fn drop(self) {
        let Held { objects } = self;
        drop(objects);
    }
}

impl<A: Allocator> Model for Held<A> {
    ghost use Rattle.std.specs.Prelude.{List};
    ghost use Rattle.std.specs.Coded.{codes};
    ghost use Rattle.term_core.specs.Datum.{Datum};
    ghost use Rattle.term_core.specs.DatumCode.{datum_code};
    ghost use Rattle.part_core.specs.Held.{objects_of};

    ghost Value = { List Datum };

    ghost coded = { Prim.hlevel (codes, datum_code) };

    ghost view = { λ held. objects_of held.objects };
}

/// Takes the object out of an option that has one, and leaves `None`.
pub fn taken<A: Allocator>(object: &mut Option<Term<A>>) -> Term<A>
    requires { IsSome object.old }
    ensures object { result ≡ unwrap_or object.old nil }
    ensures spent { object.new ≡ None }
{
    match object.take() {
        Some(object) => object,
        None => unreachable!(),
    }
}

/// Returns whether an object is equal to one of `objects`.
fn is_among<A: Allocator>(object: &Term<A>, objects: &[Term<A>]) -> bool
    ensures { result ≡ list_any (is_same object.now) objects.now }
{
    objects.iter().any(|present| object == present)
}

/// Removes from a list the objects that are equal to `object`.
fn keep_others<A: Allocator>(list: &mut Vec<Term<A>, A>, object: &Term<A>)
    ensures { list.new.items ≡ objects_without object.now list.old.items }
{
    list.retain(|present| object != present);
}

/// Returns the object if there is exactly one.
fn only<A: Allocator>(objects: Objects<A>) -> Option<Term<A>>
    ensures { (object : Datum) → objects_of objects ≡ object ∷ [] → result ≡ Some object }
{
    match objects {
        Objects::Empty => None,
        Objects::One(object) => Some(object),
        Objects::Many(mut list) => list.pop(),
    }
}

/// Returns the objects without those that are equal to `object`.
fn without<A: Allocator>(objects: Objects<A>, object: &Term<A>) -> Objects<A>
    ensures { objects_of result ≡ objects_without object.now (objects_of objects) }
{
    match objects {
        Objects::Empty => Objects::Empty,
        Objects::One(present) => {
            if object == &present {
                Objects::Empty
            } else {
                Objects::One(present)
            }
        }
        Objects::Many(mut list) => {
            keep_others(&mut list, object);
            Objects::Many(list)
        }
    }
}

/// Returns an empty list with room for a few objects, at least 2. Fails if an allocation fails.
fn room_for_few<A: Allocator + Copy>(alloc: A) -> Result<Box<Vec<Term<A>, A>, A>, AllocError>
    ensures items { IfOk result (λ list. list.value.items ≡ []) }
    ensures room { IfOk result (λ list. vec_len list.value + 2 ≤ vec_capacity list.value) }
{
    let list = Vec::with_capacity(alloc, FEW)?;
    let list = Box::new(alloc, list)?;
    Ok(list)
}

/// Returns two objects, `first` and `second`, in a list that is empty and has room for both.
fn with_second<A: Allocator>(
    first: Objects<A>,
    list: Box<Vec<Term<A>, A>, A>,
    second: Term<A>,
) -> Objects<A>
    requires items { list.value.items ≡ [] }
    requires room { vec_len list.value + 2 ≤ vec_capacity list.value }
    ensures { (object : Datum) → objects_of first ≡ object ∷ [] → objects_of result ≡ object ∷ second ∷ [] }
{
    let mut list = list;
    if let Some(first) = only(first) {
        list.push_reserved(first);
    }
    list.push_reserved(second);
    Objects::Many(list)
}

/// Appends an object to a list, and takes it out of the option. If an allocation fails, both are unchanged.
fn push<A: Allocator>(
    list: &mut Vec<Term<A>, A>,
    object: &mut Option<Term<A>>,
) -> Result<(), AllocError>
    requires { IsSome object.old }
    ensures done { OnOk result (list.new.items ≡ list.old.items ++ unwrap_or object.old nil ∷ []) }
    ensures spent { OnOk result (object.new ≡ None) }
    ensures back { OnErr result (object.new ≡ object.old) }
    ensures refused { OnErr result (list.new.items ≡ list.old.items) }
{
    list.reserve(1)?;
    list.push_reserved(taken(object));
    Ok(())
}

impl<A: Allocator> Held<A> {
    ghost use Rattle.std.specs.Prelude.{Some};
    ghost use Rattle.part_core.specs.Rows.{is_empty};

    /// Returns an empty list of objects, as a dead row has it.
    pub fn none() -> Self
        ensures { result ≡ [] }
    {
        Held {
            objects: Objects::Empty,
        }
    }

    /// Returns a list of one object.
    pub fn one(object: Term<A>) -> Self
        ensures { result ≡ object ∷ [] }
    {
        Held {
            objects: Objects::One(object),
        }
    }

    /// Returns the objects as a slice, in the order of insertion.
    pub fn as_slice(&self) -> &[Term<A>]
        ensures { result.now ≡ self.now }
    {
        match &self.objects {
            Objects::Empty => &[],
            Objects::One(object) => slice::from_ref(object),
            Objects::Many(list) => list.as_slice(),
        }
    }

    /// Returns whether there is no object.
    pub fn is_empty(&self) -> bool
        ensures { result ≡ is_empty self.now }
    {
        self.as_slice().is_empty()
    }

    /// Returns whether an object is equal to a term.
    pub fn has(&self, object: &Term<A>) -> bool
        ensures { result ≡ list_any (is_same object.now) self.now }
    {
        is_among(object, self.as_slice())
    }

    /// Returns the object if there is exactly one.
    pub fn into_object(self) -> Option<Term<A>>
        ensures { (object : Datum) → self ≡ object ∷ [] → result ≡ Some object }
    {
        let Held { objects } = self;
        only(objects)
    }

    /// Removes the objects that are equal to a term. It does not allocate.
    pub fn remove(&mut self, object: &Term<A>)
        ensures { self.new ≡ objects_without object.now self.old }
    {
        let objects = mem::replace(&mut self.objects, Objects::Empty);
        drop(mem::replace(&mut self.objects, without(objects, object)));
    }

    /// Replaces all objects by one, which is taken out of the option.
    fn put_alone(&mut self, object: &mut Option<Term<A>>)
        requires { IsSome object.old }
        ensures done { self.new ≡ unwrap_or object.old nil ∷ [] }
        ensures spent { object.new ≡ None }
    {
        drop(mem::replace(&mut self.objects, Objects::One(taken(object))));
    }

    /// Returns whether the object in the option is equal to one that is there.
    fn has_put(&self, object: &Option<Term<A>>) -> bool
        requires { IsSome object.now }
        ensures { result ≡ list_any (is_same (unwrap_or object.now nil)) self.now }
    {
        match object {
            Some(object) => self.has(object),
            None => unreachable!(),
        }
    }
}

impl<A: Allocator + Copy> Held<A> {
    ghost use Rattle.part_core.specs.Rows.{is_empty};

    /// Appends a second object to the only one that is there. If an allocation fails, nothing is changed.
    fn put_second(&mut self, alloc: A, object: &mut Option<Term<A>>) -> Result<(), AllocError>
        requires { IsSome object.old }
        ensures done { OnOk result ((first : Datum) → self.old ≡ first ∷ []
            → self.new ≡ first ∷ unwrap_or object.old nil ∷ []) }
        ensures spent { OnOk result (object.new ≡ None) }
        ensures back { OnErr result (object.new ≡ object.old) }
        ensures refused { OnErr result (self.new ≡ self.old) }
    {
        let list = room_for_few(alloc)?;
        let first = mem::replace(&mut self.objects, Objects::Empty);
        let both = with_second(first, list, taken(object));
        drop(mem::replace(&mut self.objects, both));
        Ok(())
    }

    /// Appends an object, and takes it out of the option. If an allocation fails, nothing is changed; this can only
    /// happen if there is an object already.
    fn put_last(&mut self, alloc: A, object: &mut Option<Term<A>>) -> Result<(), AllocError>
        requires { IsSome object.old }
        ensures done { OnOk result (self.new ≡ self.old ++ unwrap_or object.old nil ∷ []) }
        ensures spent { OnOk result (object.new ≡ None) }
        ensures back { OnErr result (object.new ≡ object.old) }
        ensures refused { OnErr result (self.new ≡ self.old) }
        ensures some { OnErr result (is_empty self.old ≡ false) }
    {
        if self.is_empty() {
            self.put_alone(object);
            return Ok(());
        }
        match &mut self.objects {
            Objects::Many(list) => push(list, object),
            Objects::Empty | Objects::One(_) => self.put_second(alloc, object),
        }
    }

    /// Inserts an object, and takes it out of the option: in a set it replaces the object that is there; in a bag it is
    /// appended unless an equal one is there; in a duplicate bag it is appended. If an allocation fails, nothing is
    /// changed; this can only happen if there is an object already.
    pub fn put(
        &mut self,
        alloc: A,
        kind: TableKind,
        object: &mut Option<Term<A>>,
    ) -> Result<(), AllocError>
        requires { IsSome object.old }
        ensures done { OnOk result (self.new ≡ objects_with kind self.old (unwrap_or object.old nil)) }
        ensures spent { OnOk result (object.new ≡ None) }
        ensures back { OnErr result (object.new ≡ object.old) }
        ensures refused { OnErr result (self.new ≡ self.old) }
        ensures some { OnErr result (is_empty self.old ≡ false) }
    {
        match kind {
            TableKind::Set | TableKind::OrderedSet => {
                self.put_alone(object);
                Ok(())
            }
            TableKind::Bag => {
                if self.has_put(object) {
                    drop(object.take());
                    return Ok(());
                }
                self.put_last(alloc, object)
            }
            TableKind::DuplicateBag => self.put_last(alloc, object),
        }
    }

    /// Appends copies of the objects to `into`. Fails if an allocation fails; some of them may then have been appended.
    pub fn copy_into(&self, into: &mut Vec<Term<A>, A>) -> Result<(), AllocError>
        ensures { IfOk result (λ _. into.new.items ≡ into.old.items ++ self.now) }
    {
        for object in self.as_slice() {
            into.push(object.copy()?)?;
        }
        Ok(())
    }

    /// Returns copies of the objects as a list. Fails if an allocation fails.
    pub fn objects(&self, alloc: A) -> Result<Vec<Term<A>, A>, AllocError>
        ensures { IfOk result (λ objects. objects.items ≡ self.now) }
    {
        let mut objects = Vec::with_capacity(alloc, self.as_slice().len())?;
        self.copy_into(&mut objects)?;
        Ok(objects)
    }

    /// Makes the held objects of a list, in its order. Fails if an allocation fails; up to one object needs none.
    pub fn from_list(alloc: A, list: Vec<Term<A>, A>) -> Result<Self, AllocError>
        ensures { IfOk result (λ held. held ≡ list.items) }
    {
        let mut list = list;
        if list.len() > 1 {
            let list = Box::new(alloc, list)?;
            return Ok(Held {
                objects: Objects::Many(list),
            });
        }
        match list.pop() {
            Some(object) => Ok(Held::one(object)),
            None => Ok(Held::none()),
        }
    }
}
