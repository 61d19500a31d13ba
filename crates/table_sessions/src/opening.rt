//! How the sessions of a table are made.
ghost use Rattle.std.specs.Prelude.{◌≡◌, IfOk, IsErrOf, length};
ghost use Rattle.tables.specs.Opened.{AreOpened};
ghost use Rattle.tables.specs.Options.{IsOpenable};
ghost use Rattle.tables.specs.Sessions.{IsOpened};
ghost use Rattle.table_sessions.specs.Own.{AreSessionsOf};

use crate::own::OwnSession;
use gate::Session;
use part_core::{OpenFault, Part};
use std::alloc::{AllocError, Allocator};
use std::sync::Arc;
use tables::{Options, Table};

/// Gives a session that was opened with a table a share of it. Fails if there are too many shares.
fn shared<P: Part<A> + Drop, A: Allocator + Copy>(
    table: &Arc<Table<P, A>, A>,
    seat: Session<P, A>,
) -> Result<OwnSession<P, A>, AllocError>
    requires { IsOpened table.now.value.options table.now.value.gates.items seat.number seat.passes.items }
    ensures { IfOk result (λ own. (own.table.value ≡ table.now.value) × (own.seat ≡ seat)) }
{
    let table = Arc::try_clone(table)?;
    Ok(OwnSession { table, seat })
}

/// Gives each session a share of its table. Fails if an allocation fails; then the table and the sessions are dropped.
fn share<P: Part<A> + Drop, A: Allocator + Copy>(
    alloc: A,
    table: Table<P, A>,
    sessions: Vec<Session<P, A>, A>,
) -> Result<Vec<OwnSession<P, A>, A>, AllocError>
    requires { AreOpened table.options table.gates.items sessions.items }
    ensures { IfOk result (λ shares. AreSessionsOf table.options shares.items) }
{
    let table = Arc::new(alloc, table)?;
    let mut shares = Vec::new(alloc);
    for seat in sessions {
        let own = shared(&table, seat)?;
        match shares.push(own) {
            Ok(()) => {}
            Err(_) => return Err(AllocError),
        }
    }
    Ok(shares)
}

/// Opens a table without objects, and returns its sessions, in the order of their numbers. Fails with `BadOptions`
/// exactly if a number is outside its range, an ordered set has more than one part, or the parts don't serve the kind.
/// Fails with `Memory` only if the options are valid and an allocation fails.
pub fn open<P: Part<A> + Drop, A: Allocator + Copy>(
    alloc: A,
    options: Options,
) -> Result<Vec<OwnSession<P, A>, A>, OpenFault>
    ensures opened { IfOk result (λ sessions. IsOpenable P.serves options
        × AreSessionsOf options sessions.items) }
    ensures refused { IsErrOf result OpenFault.BadOptions → ¬ (IsOpenable P.serves options) }
    ensures scarce { IsErrOf result OpenFault.Memory → IsOpenable P.serves options }
{
    let (table, sessions) = Table::open(alloc, options)?;
    Ok(share(alloc, table, sessions)?)
}
