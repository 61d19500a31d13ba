//! How tables are opened.
ghost use Rattle.std.specs.Prelude.{ℕ, not, ◌&&◌, ◌==◌, ◌≡◌, ◌<◌, ◌++◌, All, IfOk, IsErrOf, IfErr, List, [], ◌∷◌, length, map};
ghost use Rattle.std.specs.List.{range_with_len};
ghost use Rattle.part_core.specs.Served.{IsServed};
ghost use Rattle.part_core.specs.Settings.{is_ordered};
ghost use Rattle.part_core.specs.declared.settings.Settings.{Settings};
ghost use Rattle.gate.specs.Views.{GateId, first_ticket};
ghost use Rattle.tables.specs.Opened.{AreDealt, AreOpened};
ghost use Rattle.tables.specs.Options.{settings_of};

use crate::options::Options;
use crate::table::Table;
use gate::{Gate, Pass, Session};
use part_core::{OpenFault, Part};
use std::alloc::{AllocError, Allocator};

/// Returns whether the options are those of an ordered set that does not have exactly one part.
pub(crate) fn is_split_order(options: Options) -> bool
    ensures { result ≡ (is_ordered options.kind && not (options.parts == 1)) }
{
    options.kind.is_ordered() && options.parts != 1
}

/// Makes parts without rows for a table. Fails with `BadOptions` if the parts don't serve the kind or a number is
/// outside its range, and with `Memory` if an allocation fails.
pub(crate) fn made<A: Allocator + Copy, P: Part<A> + Drop>(
    alloc: A,
    options: Options,
) -> Result<Vec<P, A>, OpenFault>
    ensures count { IfOk result (λ parts. length parts.items ≡ options.parts) }
    ensures each { IfOk result (λ parts. All (λ p. IsServed P.serves (settings_of options)
        × (P.settings p ≡ settings_of options) × P.is_after p []) parts.items) }
    ensures refused { IsErrOf result OpenFault.BadOptions → ¬ (IsServed P.serves (settings_of options)) }
    ensures scarce { IsErrOf result OpenFault.Memory → IsServed P.serves (settings_of options) }
{
    let mut parts = Vec::new(alloc);
    for _part in 0..options.parts {
        let part = P::make(
            alloc,
            options.kind,
            options.keypos,
            options.parts,
            options.sessions,
        )?;
        match parts.push(part) {
            Ok(()) => {}
            Err(_) => return Err(OpenFault::Memory),
        }
    }
    Ok(parts)
}

/// Makes sessions without passes, in the order of their numbers. Fails if an allocation fails.
fn new_sessions<P: Part<A> + Drop, A: Allocator + Copy>(
    alloc: A,
    count: u8,
) -> Result<Vec<Session<P, A>, A>, AllocError>
    ensures { IfOk result (λ sessions. (length sessions.items ≡ count)
        × ((o : Settings) → AreDealt o [] sessions.items)) }
{
    let mut sessions = Vec::new(alloc);
    for number in 0..count {
        let session = Session {
            number,
            passes: Vec::new(alloc),
        };
        match sessions.push(session) {
            Ok(()) => {}
            Err(_) => return Err(AllocError),
        }
    }
    Ok(sessions)
}

/// Gives each session its pass at a gate. Fails if an allocation fails.
fn deal<P: Part<A> + Drop, A: Allocator>(
    options: Options,
    sessions: &mut Vec<Session<P, A>, A>,
    passes: Vec<Pass<P>, A>,
    _gate: &Gate<P, A>,
) -> Result<(), AllocError>
    requires count { length sessions.old.items ≡ options.sessions }
    requires passes { passes.items ≡ map (first_ticket _gate.now (settings_of options)) (range_with_len 0 options.sessions) }
    ensures count { length sessions.new.items ≡ length sessions.old.items }
    ensures dealt { IfOk result (λ _. (gates : List GateId) → AreDealt (settings_of options) gates sessions.old.items
        → AreDealt (settings_of options) (gates ++ _gate.now ∷ []) sessions.new.items) }
{
    let mut passes = passes;
    for number in (0..options.sessions).rev() {
        let Some(pass) = passes.pop() else {
            unreachable!()
        };
        sessions[usize::from(number)].give(pass)?;
    }
    Ok(())
}

/// Makes a gate over a part, and gives each session a pass. Fails if an allocation fails.
fn new_gate<P: Part<A> + Drop, A: Allocator + Copy>(
    alloc: A,
    options: Options,
    part: P,
    sessions: &mut Vec<Session<P, A>, A>,
) -> Result<Gate<P, A>, AllocError>
    requires opening { (P.settings part ≡ settings_of options) × P.is_after part [] }
    requires count { length sessions.old.items ≡ options.sessions }
    ensures count { length sessions.new.items ≡ length sessions.old.items }
    ensures dealt { IfOk result (λ gate. (gates : List GateId) → AreDealt (settings_of options) gates sessions.old.items
        → AreDealt (settings_of options) (gates ++ gate ∷ []) sessions.new.items) }
{
    let (gate, passes) = Gate::new(alloc, part, options.sessions)?;
    deal(options, sessions, passes, &gate)?;
    Ok(gate)
}

/// Makes a gate over each part, and gives each session a pass at each. Fails if an allocation fails.
fn new_gates<P: Part<A> + Drop, A: Allocator + Copy>(
    alloc: A,
    options: Options,
    parts: Vec<P, A>,
    sessions: &mut Vec<Session<P, A>, A>,
) -> Result<Vec<Gate<P, A>, A>, AllocError>
    requires opening { All (λ p. (P.settings p ≡ settings_of options) × P.is_after p []) parts.items }
    requires count { length sessions.old.items ≡ options.sessions }
    requires dealt { AreDealt (settings_of options) [] sessions.old.items }
    ensures count { length sessions.new.items ≡ length sessions.old.items }
    ensures dealt { IfOk result (λ gates. (length gates.items ≡ length parts.items)
        × AreDealt (settings_of options) gates.items sessions.new.items) }
{
    let mut gates = Vec::new(alloc);
    for part in parts {
        let gate = new_gate(alloc, options, part, sessions)?;
        match gates.push(gate) {
            Ok(()) => {}
            Err(_) => return Err(AllocError),
        }
    }
    Ok(gates)
}

/// Makes a table over parts, and its sessions. Fails only if an allocation fails.
pub(crate) fn gated<P: Part<A> + Drop, A: Allocator + Copy>(
    alloc: A,
    options: Options,
    parts: Vec<P, A>,
) -> Result<(Table<P, A>, Vec<Session<P, A>, A>), OpenFault>
    requires some { 0 < options.parts }
    requires count { length parts.items ≡ options.parts }
    requires opening { All (λ p. (P.settings p ≡ settings_of options) × P.is_after p []) parts.items }
    ensures opened { IfOk result (λ made. (made.0.options ≡ options)
        × AreOpened options made.0.gates.items made.1.items) }
    ensures scarce { IfErr result (λ fault. fault ≡ OpenFault.Memory) }
{
    let mut sessions = new_sessions(alloc, options.sessions)?;
    let gates = new_gates(alloc, options, parts, &mut sessions)?;
    Ok((Table { options, gates }, sessions))
}
