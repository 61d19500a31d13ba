//! The turns of sessions of one table.
ghost use Rattle.std.specs.Prelude.{◌≡◌, ◌+◌, All, IfSome, OnSome, length};
ghost use Rattle.tables.specs.Sessions.{IsOpened, session_home};
ghost use Rattle.kit_members.specs.Members.{AreMembers};

use part_core::Part;
use std::alloc::{Allocator, Global};
use std::sync::Wait;
use tables::{At, Session, Table};

/// Appends the turns of a session.
fn put_one<'t, R: Wait, A: Allocator + Copy, P: Part<A> + Drop>(
    rt: &'t R,
    table: &'t Table<P, A>,
    session: &'t mut Session<P, A>,
    members: &mut Vec<At<'t, P, A, R>>,
) -> Option<()>
    requires opened { IsOpened table.now.options table.now.gates.items session.old.number session.old.passes.items }
    requires before { All (λ m. (m.table.now ≡ table.now) × IsOpened m.table.now.options m.table.now.gates.items m.session.now.number m.session.now.passes.items) members.old.items }
    ensures each { All (λ m. (m.table.now ≡ table.now) × IsOpened m.table.now.options m.table.now.gates.items m.session.now.number m.session.now.passes.items) members.new.items }
    ensures count { OnSome result (length members.new.items ≡ length members.old.items + 1) }
{
    members.push(table.at(rt, session)).ok()
}

/// Appends the turns of sessions.
fn put_all<'t, R: Wait, A: Allocator + Copy, P: Part<A> + Drop>(
    rt: &'t R,
    table: &'t Table<P, A>,
    sessions: &'t mut [Session<P, A>],
    members: &mut Vec<At<'t, P, A, R>>,
) -> Option<()>
    requires opened { All (λ s. IsOpened table.now.options table.now.gates.items s.number s.passes.items) sessions.old }
    requires before { All (λ m. (m.table.now ≡ table.now) × IsOpened m.table.now.options m.table.now.gates.items m.session.now.number m.session.now.passes.items) members.old.items }
    ensures each { All (λ m. (m.table.now ≡ table.now) × IsOpened m.table.now.options m.table.now.gates.items m.session.now.number m.session.now.passes.items) members.new.items }
    ensures count { OnSome result (length members.new.items ≡ length members.old.items + length sessions.old) }
{
    match sessions.split_first_mut() {
        Some((first, rest)) => {
            put_one(rt, table, first, members)?;
            put_all(rt, table, rest, members)
        }
        None => Some(()),
    }
}

/// Returns the turns of sessions that were opened with a table, in the order of the sessions, or `None` if memory runs
/// out.
pub fn members_of<'t, R: Wait, A: Allocator + Copy, P: Part<A> + Drop>(
    rt: &'t R,
    alloc: Global,
    table: &'t Table<P, A>,
    sessions: &'t mut [Session<P, A>],
) -> Option<Vec<At<'t, P, A, R>>>
    requires { All (λ s. IsOpened table.now.options table.now.gates.items s.number s.passes.items) sessions.old }
    ensures members { IfSome result (λ members. AreMembers (λ m. IsOpened m.table.now.options m.table.now.gates.items m.session.now.number m.session.now.passes.items)
        (λ m. session_home m.table.now.options m.table.now.gates.items m.session.now.number m.session.ghost_name) members.items) }
    ensures count { IfSome result (λ members. length members.items ≡ length sessions.old) }
{
    let mut members = Vec::new(alloc);
    match put_all(rt, table, sessions, &mut members) {
        Some(()) => Some(members),
        None => {
            drop(members);
            None
        }
    }
}
