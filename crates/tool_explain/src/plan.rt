//! The lines above a listing: which objects a walk visits, and how long and how deep a run is.
ghost use Rattle.std.specs.Prelude.{◌≡◌, ◌++◌, OnOk, Some, None};
ghost use Rattle.std.specs.List.{flat_map};
ghost use Rattle.tool_explain.specs.Plan.{walk_text, plan_text, key_text, bounds_text};

use crate::text::put_number;
use std::alloc::{AllocError, Allocator};
use term_core::Term;
use term_text::write_term;

/// Appends the beginning of a plan, up to which objects are visited.
fn put_walk<A: Allocator + Copy>(keypos: u16, lines: &mut Vec<u8, A>) -> Result<(), AllocError>
    ensures { OnOk result (lines.new.items ≡ lines.old.items ++ walk_text keypos) }
{
    lines.extend_from_slice(b"walk at keypos ")?;
    put_number(u64::from(keypos), lines)?;
    lines.extend_from_slice(b": ")?;
    Ok(())
}

/// Appends the plan of a walk that visits all objects.
pub(crate) fn put_whole_walk<A: Allocator + Copy>(
    keypos: u16,
    lines: &mut Vec<u8, A>,
) -> Result<(), AllocError>
    ensures { OnOk result (lines.new.items ≡ lines.old.items ++ plan_text keypos None) }
{
    put_walk(keypos, lines)?;
    lines.extend_from_slice(b"all objects\n")?;
    Ok(())
}

/// Appends a blank and a key.
fn put_key<A: Allocator + Copy>(key: &Term<A>, lines: &mut Vec<u8, A>) -> Result<(), AllocError>
    ensures { OnOk result (lines.new.items ≡ lines.old.items ++ key_text key.now) }
{
    lines.push(b' ')?;
    write_term(key, lines)
}

/// Appends each key after a blank.
fn put_keys<A: Allocator + Copy>(keys: &[Term<A>], lines: &mut Vec<u8, A>) -> Result<(), AllocError>
    ensures { OnOk result (lines.new.items ≡ lines.old.items ++ flat_map key_text keys.now) }
{
    for key in keys {
        put_key(key, lines)?;
    }
    Ok(())
}

/// Appends the plan of a walk that looks up these keys.
pub(crate) fn put_look_ups<A: Allocator + Copy>(
    keypos: u16,
    keys: &[Term<A>],
    lines: &mut Vec<u8, A>,
) -> Result<(), AllocError>
    ensures { OnOk result (lines.new.items ≡ lines.old.items ++ plan_text keypos (Some keys.now)) }
{
    put_walk(keypos, lines)?;
    put_number(keys.len() as u64, lines)?;
    lines.extend_from_slice(b" looked up:")?;
    put_keys(keys, lines)?;
    lines.extend_from_slice(b"\n")?;
    Ok(())
}

/// Appends the line of a budget and a depth.
pub(crate) fn put_bounds<A: Allocator + Copy>(
    budget: u32,
    depth: u16,
    lines: &mut Vec<u8, A>,
) -> Result<(), AllocError>
    ensures { OnOk result (lines.new.items ≡ lines.old.items ++ bounds_text budget depth) }
{
    lines.extend_from_slice(b"instructions of a run at most ")?;
    put_number(u64::from(budget), lines)?;
    lines.extend_from_slice(b", stack at most ")?;
    put_number(u64::from(depth), lines)?;
    lines.extend_from_slice(b"\n")?;
    Ok(())
}
