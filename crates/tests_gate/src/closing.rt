//! Single gates, closed with the pass of a session that was never used: if the part is in the gate, it is returned with
//! what another session inserted.
ghost use Rattle.std.specs.Prelude.{◌≡◌, IfSome};
ghost use Rattle.tables.specs.Sessions.{IsOpened};

use crate::acts::{Act, acted, only};
use crate::objects::key_of;
use crate::pairs::opened;
use gate::{Gate, Pass};
use part_core::{Part, TableKind};
use part_hash::HashPart;
use part_order::OrderPart;
use part_plain::PlainPart;
use std::alloc::Global;
use std::process::Abort;
use std::sync::Wait;
use tables::{Options, Session, Table};
use term_core::Term;

/// Returns the gate of a table of one part, and the pass of a session there.
fn gate_and_pass<P: Part<Global> + Drop>(
    table: Table<P>,
    session: Session<P>,
) -> Option<(Gate<P>, Pass<P>)>
    requires { IsOpened table.options table.gates.items session.number session.passes.items }
    ensures { IfSome result (λ both. both.1.gate ≡ both.0) }
{
    let mut gates = table.gates;
    let mut passes = session.passes;
    let Some(gate) = gates.pop() else {
        drop(gates);
        drop(passes);
        return None;
    };
    drop(gates);
    let Some(pass) = passes.pop() else {
        drop(gate);
        drop(passes);
        return None;
    };
    drop(passes);
    Some((gate, pass))
}

/// Returns the key of the only object, or `None` if there is none or more than one.
fn only_key(objects: &[Term]) -> Option<u32> {
    match objects {
        [object] => key_of(object),
        _ => None,
    }
}

/// Closes a gate, and returns the key of the only object of its part.
fn following_key<R: Abort, P: Part<Global> + Drop>(
    rt: &R,
    alloc: Global,
    gate: Gate<P>,
    pass: Pass<P>,
) -> Option<u32>
    requires { pass.gate ≡ gate }
{
    let part = gate.close(pass).expect(rt, "a part that is home");
    let objects = part.objects(alloc).expect(rt, "the objects");
    drop(part);
    let key = only_key(objects.as_slice());
    drop(objects);
    key
}

/// Has the first of two sessions insert an object, and closes the gate of its part with the pass of the second one.
/// Returns the object's key.
fn closed<R: Wait + Abort, P: Part<Global> + Drop>(
    rt: &R,
    alloc: Global,
    kind: TableKind,
) -> Option<u32> {
    let options = Options {
        name: 1,
        kind,
        keypos: 1,
        parts: 1,
        sessions: 2,
    };
    let Some((table, first, second)) = opened::<Global, P>(alloc, options) else {
        rt.panic("no table")
    };
    let first = acted(rt, alloc, &table, first, Act::Put(only(7)), 0);
    let Some((gate, pass)) = gate_and_pass(table, second) else {
        rt.panic("no gate")
    };
    let key = following_key(rt, alloc, gate, pass);
    drop(first);
    key
}

#[test]
fn a_gate_whose_part_is_at_home_gives_it_out(rt: HostRuntime) {
    let alloc = rt.alloc();
    assert!(rt; closed::<_, PlainPart<Global>>(&rt, alloc, TableKind::Set) == Some(7));
    assert!(rt; closed::<_, HashPart<Global>>(&rt, alloc, TableKind::Bag) == Some(7));
    assert!(rt; closed::<_, OrderPart<Global>>(&rt, alloc, TableKind::OrderedSet) == Some(7));
}
