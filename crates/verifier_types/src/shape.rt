//! What is known of a state of the machine.
ghost use Rattle.std.specs.Prelude.{◌≡◌, ◌<◌, ◌≤◌, ◌↔◌, ◌+◌, ◌∷◌, ◌++◌, [], IsTrue, IfSome, All, OnOk, OnErr, IfOk, false, true, Some, length, drop, take, slice_get, replicate};
ghost use Rattle.mcode.specs.Frame.{frame_of};
ghost use Rattle.mcode.specs.Kind.{is_below as is_kind_below};
ghost use Rattle.mcode.specs.Program.{Rise, place_number};
ghost use Rattle.verifier_types.specs.Shape.{Shape, place_kind as kind_of_place, frame_kinds, is_bound, marked};
ghost use Rattle.verifier_types.specs.Kept.{AreKept, AreListedAbove, IsReaching};
ghost use Rattle.mcode.specs.declared.kind.Kind.TheVariants as kinds;

use mcode::{Frame, Kind};
use std::alloc::{AllocError, Allocator};
use std::marker::Model;

/// Returns whether a kind is equal to another or below it.
pub(crate) fn is_below(kind: Kind, other: Kind) -> bool
    ensures { result ≡ is_kind_below kind other }
{
    match other {
        Kind::Any => true,
        Kind::Int => matches!(kind, Kind::Int),
        Kind::Bool => matches!(kind, Kind::Bool),
        Kind::Cons => matches!(kind, Kind::Cons),
        Kind::Map => matches!(kind, Kind::Map),
        Kind::Tuple(size) => match kind {
            Kind::Tuple(count) => count == size,
            Kind::Any => false,
            Kind::Int => false,
            Kind::Bool => false,
            Kind::Cons => false,
            Kind::Map => false,
        },
    }
}

/// Returns the kind of a place, `Kind::Any` if it isn't listed.
fn place_kind(places: &[(u16, Kind)], place: u16) -> Kind
    requires { Rise place_number places.now }
    ensures { result ≡ kind_of_place places.now place }
{
    match places.binary_search_by(|entry| entry.0.cmp(&place)) {
        Ok(index) => places[index].1,
        Err(_) => Kind::Any,
    }
}

/// Returns whether there are places and the last one is at this depth or above it.
fn reach(places: &[(u16, Kind)], depth: u16) -> bool
    requires { Rise place_number places.now }
    ensures above { result ≡ true → IsReaching depth places.now }
    ensures below { result ≡ false → All (λ place. place_number place < depth) places.now }
{
    match places.last() {
        Some(last) => last.0 >= depth,
        None => false,
    }
}

/// Removes the places at this depth or above it.
fn cut_places<A: Allocator>(places: &mut Vec<(u16, Kind), A>, depth: u16)
    requires { Rise place_number places.old.items }
    ensures kept { AreKept depth places.new.items }
    ensures kinds { frame_kinds places.new.items depth ≡ frame_kinds places.old.items depth }
{
    while reach(places.as_slice(), depth) {
        places.pop();
    }
}

/// Appends a place above those that are there. A place of kind `Kind::Any` isn't stored. Fails if an allocation fails;
/// the places are then unchanged.
fn push_place<A: Allocator>(
    places: &mut Vec<(u16, Kind), A>,
    depth: u16,
    kind: Kind,
) -> Result<(), AllocError>
    requires kept { AreKept depth places.old.items }
    requires room { depth + 1 < 65536 }
    ensures kept { OnOk result (AreKept (depth + 1) places.new.items) }
    ensures kinds { OnOk result (frame_kinds places.new.items (depth + 1)
        ≡ kind ∷ frame_kinds places.old.items depth) }
    ensures same { OnErr result (places.new.items ≡ places.old.items) }
{
    match kind {
        Kind::Any => Ok(()),
        Kind::Int | Kind::Bool | Kind::Cons | Kind::Map | Kind::Tuple(_) => {
            places.push((depth, kind))?;
            Ok(())
        }
    }
}

/// Returns how many places at the front of both lists are the same, with the same kinds.
fn same_front(places: &[(u16, Kind)], listed: &[(u16, Kind)]) -> usize
    ensures places { result ≤ length places.now }
    ensures listed { result ≤ length listed.now }
    ensures same { take result places.now ≡ take result listed.now }
{
    let most = places.len().min(listed.len());
    for index in 0..most {
        if places[index].0 != listed[index].0 || places[index].1 != listed[index].1 {
            return index;
        }
    }
    most
}

/// Returns the index of the first place with this number or a greater one, the number of places if there is none. All
/// places before `from` have smaller numbers.
fn skip_below(places: &[(u16, Kind)], from: usize, number: u16) -> usize
    requires { All (λ place. place_number place < number) (take from places.now) }
    ensures before { All (λ place. place_number place < number) (take result places.now) }
    ensures here { IfSome (slice_get places.now result) (λ place. number ≤ place_number place) }
{
    for index in from..places.len() {
        if places[index].0 >= number {
            return index;
        }
    }
    places.len()
}

/// Returns whether the place at this index, if there is one, has this number and this kind.
fn is_at(places: &[(u16, Kind)], index: usize, place: (u16, Kind)) -> bool
    ensures { IsTrue result ↔ (slice_get places.now index ≡ Some place) }
{
    match places.get(index) {
        Some(found) => found.0 == place.0 && found.1 == place.1,
        None => false,
    }
}

/// Returns whether this is the kind of any term.
fn is_any(kind: Kind) -> bool
    ensures { IsTrue result ↔ (kind ≡ kinds.Any) }
{
    matches!(kind, Kind::Any)
}

/// Returns whether the kind of each listed place is, among these places, equal to the listed kind or below it.
///
/// Goes through both once. Never inlined: inside a larger function its loops take twice as long.
#[inline(never)]
fn listed_above(places: &[(u16, Kind)], listed: &[(u16, Kind)]) -> bool
    requires places { Rise place_number places.now }
    requires listed { Rise place_number listed.now }
    ensures { IsTrue result ↔ AreListedAbove places.now listed.now }
{
    let front = same_front(places, listed);
    let mut next = front;
    for index in front..listed.len() {
        let entry = listed[index];
        next = skip_below(places, next, entry.0);
        if is_at(places, next, entry) {
            next += 1;
        } else if !is_any(entry.1) {
            return false;
        }
    }
    true
}

/// Returns whether a slot exists and is bound.
fn bound_at(bound: &[bool], slot: u8) -> bool
    ensures { result ≡ is_bound bound.now slot }
{
    match bound.get(usize::from(slot)) {
        Some(known) => *known,
        None => false,
    }
}

/// Returns whether all of these slots exist and are bound.
fn all_bound(bound: &[bool], slots: &[u8]) -> bool
    ensures { IsTrue result ↔ All (λ slot. IsTrue (is_bound bound.now slot)) slots.now }
{
    slots.iter().all(|slot| bound_at(bound, *slot))
}

/// Marks these slots as bound.
fn mark(bound: &mut [bool], slots: &[u8])
    requires { All (λ slot. slot < length bound.old) slots.now }
    ensures { bound.new ≡ marked bound.old slots.now }
{
    for slot in slots {
        bound[usize::from(*slot)] = true;
    }
}

/// Marks all slots as not bound.
fn unmark(bound: &mut [bool])
    ensures { bound.new ≡ replicate (length bound.old) false }
{
    bound.fill(false);
}

/// Replaces the places by copies of these. No places are left if an allocation fails.
fn copy_places<A: Allocator>(
    places: &mut Vec<(u16, Kind), A>,
    listed: &[(u16, Kind)],
) -> Result<(), AllocError>
    ensures copied { OnOk result (places.new.items ≡ listed.now) }
    ensures none { OnErr result (places.new.items ≡ []) }
{
    places.clear();
    places.reserve(listed.len())?;
    places.extend_from_slice(listed)
}

/// What is known of a state of the machine. Places of any kind aren't stored.
#[derive(Drop)]
pub struct Shape<A: Allocator> {
    depth: u16,
    places: Vec<(u16, Kind), A>,
    bound: Vec<bool, A>,
}

impl<A: Allocator> Model for Shape<A> {
    ghost use Rattle.verifier_types.specs.Shape.{Shape};

    ghost Value = { Shape };

    ghost use Rattle.verifier_types.specs.Kept.{kept_shape, AreKept};

    ghost view = { λ s. kept_shape s.depth s.places.items s.bound.items };

    ghost invariant = { λ s. AreKept s.depth s.places.items };
}

impl<A: Allocator> Shape<A> {
    ghost use Rattle.std.specs.Prelude.{◌≡◌, ◌<◌, ◌≤◌, ◌↔◌, ◌+◌, ◌∷◌, [], IsTrue, All, OnOk, IfOk, true, false, length, drop, set, slice_get, replicate};
    ghost use Rattle.mcode.specs.Frame.{frame_of};
    ghost use Rattle.mcode.specs.Program.{place_number, Rise};
    ghost use Rattle.verifier_types.specs.Shape.{frame_kinds, marked, is_bound, IsAtOrBelow, IsCutBelow, cut_shape};
    ghost use Rattle.verifier_types.specs.Kept.{AreKept, popped_shape, entered_shape};

    /// Makes a state with nothing on the stack, and this number of slots, none bound. Fails if an allocation fails.
    pub fn start(alloc: A, slots: u16) -> Result<Self, AllocError>
    where
        A: Copy,
        ensures { IfOk result (λ s. s ≡ record { kinds = []; bound = replicate slots false }) }
    {
        let count = usize::from(slots);
        Ok(Shape {
            depth: 0,
            places: Vec::new(alloc),
            bound: vec![in alloc; false; count]?,
        })
    }

    /// Returns the number of places.
    pub fn depth(&self) -> u16
        ensures { result ≡ length self.now.kinds }
    {
        self.depth
    }

    /// Returns the kind of the place that has `above` places above it, or `None` if there is no such place.
    pub fn kind(&self, above: u16) -> Option<Kind>
        ensures { result ≡ slice_get self.now.kinds above }
    {
        if above >= self.depth {
            return None;
        }
        Some(place_kind(self.places.as_slice(), self.depth - 1 - above))
    }

    /// Removes `count` places from the top.
    pub fn pop(&mut self, count: usize)
        requires { count ≤ length self.old.kinds }
        ensures { self.new ≡ popped_shape self.old count }
    {
        let depth = self.depth - count as u16;
        cut_places(&mut self.places, depth);
        self.depth = depth;
    }

    /// Pushes a place of this kind. Fails if an allocation fails.
    pub fn push(&mut self, kind: Kind) -> Result<(), AllocError>
        requires { length self.old.kinds + 1 < 65536 }
        ensures { OnOk result (self.new ≡ record
            { kinds = kind ∷ self.old.kinds; bound = self.old.bound }) }
    {
        push_place(&mut self.places, self.depth, kind)?;
        self.depth += 1;
        Ok(())
    }

    /// Marks a slot as bound.
    pub fn bind(&mut self, slot: u8)
        requires { slot < length self.old.bound }
        ensures { self.new ≡ record {
          kinds = self.old.kinds;
          bound = set self.old.bound slot
              true;
        } }
    {
        self.bound[usize::from(slot)] = true;
    }

    /// Returns whether a slot exists and is bound.
    pub fn is_bound(&self, slot: u8) -> bool
        ensures { result ≡ is_bound self.now.bound slot }
    {
        bound_at(self.bound.as_slice(), slot)
    }

    /// Replaces the state by the one in which an instruction with this frame begins. Fails if an allocation fails.
    pub fn enter(&mut self, frame: &Frame<A>) -> Result<(), AllocError>
        requires places { AreKept frame.now.depth frame.now.places }
        requires slots { All (λ slot. slot < length self.old.bound) frame.now.slots }
        ensures { OnOk result (self.new ≡ entered_shape (length self.old.bound)
            (frame_of frame.now)) }
    {
        copy_places(&mut self.places, frame.places.as_slice())?;
        self.depth = frame.depth;
        unmark(self.bound.as_mut_slice());
        mark(self.bound.as_mut_slice(), frame.slots.as_slice());
        Ok(())
    }

    /// Returns whether the state, cut to a frame's depth, is at or below the frame.
    fn is_below_at_cut(&self, frame: &Frame<A>) -> bool
        requires deep { frame.now.depth ≤ length self.now.kinds }
        requires frame { AreKept frame.now.depth frame.now.places }
        ensures { IsTrue result ↔ IsAtOrBelow (cut_shape self.now frame.now.depth)
            (frame_of frame.now) }
    {
        if !listed_above(self.places.as_slice(), frame.places.as_slice()) {
            return false;
        }
        all_bound(self.bound.as_slice(), frame.slots.as_slice())
    }

    /// Returns whether the state, without `count` places from the top and then cut to a frame's depth, is at or below
    /// the frame.
    pub fn is_cut_below(&self, count: usize, frame: &Frame<A>) -> bool
        requires count { count ≤ length self.now.kinds }
        requires frame { AreKept frame.now.depth frame.now.places }
        ensures { IsTrue result ↔ IsCutBelow (popped_shape self.now count) (frame_of frame.now) }
    {
        if usize::from(frame.depth) > usize::from(self.depth()) - count {
            return false;
        }
        self.is_below_at_cut(frame)
    }

    /// Returns whether the state is as deep as a frame, and at or below it.
    pub fn is_at_or_below(&self, frame: &Frame<A>) -> bool
        requires { AreKept frame.now.depth frame.now.places }
        ensures { IsTrue result ↔ IsAtOrBelow self.now (frame_of frame.now) }
    {
        if frame.depth != self.depth() {
            return false;
        }
        self.is_below_at_cut(frame)
    }
}
