//! Objects that a session inserts into its table.
ghost use Rattle.std.specs.Prelude.{◌≡◌, All, IfSome};
ghost use Rattle.tables.specs.Sessions.{IsOpened};

use part_core::Part;
use std::alloc::Allocator;
use std::sync::Wait;
use tables::{Options, Session, Table, Turns, insert};
use term_core::Term;

/// Inserts objects into a table. Returns `None` if memory runs out or a term is no object; those before it stay
/// inserted.
pub fn put_all<A: Allocator + Copy, T: Turns<A>>(turns: &mut T, objects: &[Term<A>]) -> Option<()>
    requires { T.is_ready turns.old }
    ensures ready { T.is_ready turns.new }
    ensures same { T.home turns.new ≡ T.home turns.old }
{
    for object in objects {
        insert(turns, object.copy().ok()?).ok()?;
    }
    Some(())
}

/// Returns the session once it has inserted objects into its table, or `None` if memory runs out or a term is no
/// object.
pub fn filled<R: Wait, A: Allocator + Copy, P: Part<A> + Drop>(
    rt: &R,
    table: &Table<P, A>,
    session: Session<P, A>,
    objects: &[Term<A>],
) -> Option<Session<P, A>>
    requires { IsOpened table.now.options table.now.gates.items session.number session.passes.items }
    ensures { IfSome result (λ s. IsOpened table.now.options table.now.gates.items s.number s.passes.items) }
{
    let mut session = session;
    let mut at = table.at(rt, &mut session);
    match put_all(&mut at, objects) {
        Some(()) => Some(session),
        None => {
            drop(session);
            None
        }
    }
}

/// Opens a table and has its last session insert these objects. Returns the table, all its sessions but the last, and
/// the last.
pub fn opened<R: Wait, A: Allocator + Copy, P: Part<A> + Drop>(
    rt: &R,
    alloc: A,
    options: Options,
    objects: &[Term<A>],
) -> Option<(Table<P, A>, Vec<Session<P, A>, A>, Session<P, A>)>
    ensures { IfSome result (λ made. All (λ s. IsOpened made.0.options made.0.gates.items s.number s.passes.items) made.1.items
        × IsOpened made.0.options made.0.gates.items made.2.number made.2.passes.items) }
{
    let Ok((table, mut sessions)) = Table::<P, A>::open(alloc, options) else {
        return None;
    };
    let Some(last) = sessions.pop() else {
        drop(sessions);
        drop(table);
        return None;
    };
    match filled(rt, &table, last, objects) {
        Some(filled) => Some((table, sessions, filled)),
        None => {
            drop(sessions);
            drop(table);
            None
        }
    }
}
