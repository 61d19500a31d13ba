//! The rule of a gate, and what its steps return.
use crate::view::View;
use atomic_table::{Join, Play, Split, TableRule};
use part_core::Part;
use std::alloc::Allocator;
use std::marker::{Brand, PhantomData};
use std::snapshot::Snapshot;

/// The rule of a gate. The word is 0 while the part is at home in the slot. It is 1 while the part is out, and 2 while
/// it is out and a thread may wait for it.
pub struct GateRule<A> {
    parts: PhantomData<A>,
}

impl<A: Allocator, P: Part<A>> TableRule<P, View, Snapshot<P>> for GateRule<A> {
    ghost use Rattle.gate.specs.Rule.{Keeps, opener};

    ghost holds = { λ made. Keeps P.settings P.is_after (P.settings made.value) };

    ghost first = { λ made. opener (P.settings made.value) 0 };
}

/// A step that tries to take the part out.
pub struct Take<A> {
    parts: PhantomData<A>,
}

impl<A: Allocator, P: Part<A>> Play<P, View> for Take<A> {
    ghost use Rattle.gate.specs.Steps.{Takes};

    ghost then = { Takes P.settings P.is_after };
}

/// A type that stands for the entries that are added to the part's history when it is put back.
pub trait Adds {
    ghost use Rattle.part_core.specs.Acts.{History};

    ghost more: { History };
}

impl Adds for Brand {
    ghost use Rattle.std.specs.Prelude.{[]};

    ghost more = { [] };
}

/// A step that puts the part back with more entries in its history.
pub struct PutBack<E: Adds> {
    more: PhantomData<E>,
}

impl<P, E: Adds> Play<P, View> for PutBack<E> {
    ghost use Rattle.gate.specs.Steps.{PutsBack};

    ghost then = { PutsBack E.more };
}

/// A step that compares what a session has seen with what another session's note showed.
pub struct Compare;

impl<P> Play<P, View> for Compare {
    ghost use Rattle.gate.specs.Steps.{Compares};

    ghost then = { Compares };
}

/// The split of the opener's seat that makes a pass for the next session.
pub struct NextPass;

impl Split<View> for NextPass {
    ghost use Rattle.gate.specs.Steps.{opener_after, first_view};

    ghost left = { opener_after };

    ghost right = { first_view };
}

/// The split that makes a note of what a session has seen, and the join that hands it to another session.
pub struct TakeNote;

impl Split<View> for TakeNote {
    ghost use Rattle.gate.specs.Steps.{note_of};

    ghost left = { λ v. v };

    ghost right = { note_of };
}

impl Join<View> for TakeNote {
    ghost use Rattle.gate.specs.Steps.{told_of, empty_note};

    ghost both = { told_of };

    ghost spent = { empty_note };
}
