//! Two sessions of a table, and a table on one thread.
ghost use Rattle.std.specs.Prelude.{◌<◌, IfSome};
ghost use Rattle.tables.specs.Opened.{AllOpened};
ghost use Rattle.tables.specs.Sessions.{IsOpened};

use part_core::Part;
use std::alloc::Allocator;
use tables::{LocalTable, Options, Session, Table};

/// Returns the last two of a table's sessions, the last one second, and drops the others.
pub(crate) fn last_two<A: Allocator, P: Part<A> + Drop>(
    _table: &Table<P, A>,
    mut sessions: Vec<Session<P, A>, A>,
) -> Option<(Session<P, A>, Session<P, A>)>
    requires { AllOpened _table.now.options _table.now.gates.items sessions.items }
    ensures { IfSome result (λ two. IsOpened _table.now.options _table.now.gates.items two.0.number two.0.passes.items
        × IsOpened _table.now.options _table.now.gates.items two.1.number two.1.passes.items) }
{
    let Some(second) = sessions.pop() else {
        drop(sessions);
        return None;
    };
    let Some(first) = sessions.pop() else {
        drop(second);
        drop(sessions);
        return None;
    };
    drop(sessions);
    Some((first, second))
}

/// Opens a table. Returns it with the last two of its sessions, and drops the others.
pub(crate) fn opened<A: Allocator + Copy, P: Part<A> + Drop>(
    heap: A,
    options: Options,
) -> Option<(Table<P, A>, Session<P, A>, Session<P, A>)>
    ensures { IfSome result (λ made. IsOpened made.0.options made.0.gates.items made.1.number made.1.passes.items
        × IsOpened made.0.options made.0.gates.items made.2.number made.2.passes.items) }
{
    let Ok((table, sessions)) = Table::<P, A>::open(heap, options) else {
        return None;
    };
    let Some((first, second)) = last_two(&table, sessions) else {
        drop(table);
        return None;
    };
    Some((table, first, second))
}

/// Opens a table on one thread, without objects.
pub(crate) fn local_table<A: Allocator + Copy, P: Part<A> + Drop>(
    heap: A,
    options: Options,
) -> Option<LocalTable<P, A>>
    requires { 0 < options.sessions }
    ensures { IfSome result (λ table. 0 < table.options.sessions) }
{
    LocalTable::open(heap, options).ok()
}
