//! Writing constants.
ghost use Rattle.std.specs.Prelude.{◌≡◌, ◌<◌, ◌≤◌, ◌++◌, All, length, OnOk};
ghost use Rattle.std.specs.List.{flat_map};
ghost use Rattle.std.specs.Option.{option_copied};
ghost use Rattle.std.specs.Str.{chars};
ghost use Rattle.term_core.specs.Datum.{items_of, entries_of, cells};
ghost use Rattle.term_core.specs.Datum.Datum.{integer, atom, tuple, map, binary};
ghost use Rattle.term_core.specs.Limits.{IsTerm};
ghost use Rattle.term_core.specs.Sizes.{atom_limit, tuple_limit, map_limit, list_limit, binary_limit};
ghost use Rattle.term_core.specs.Term.{tail_of, IsTail};
ghost use Rattle.mcode.specs.Program.{most_parts};
ghost use Rattle.code_writer.specs.Spelling.{u16_bytes, constant_bytes, pair_bytes};

use crate::number::{put_i64, put_u8, put_u16, put_u32};
use std::alloc::{AllocError, Allocator};
use term_core::{Term, View};

/// Appends an integer.
fn put_integer<A: Allocator>(value: i64, out: &mut Vec<u8, A>) -> Result<(), AllocError>
    ensures { OnOk result (out.new.items ≡ out.old.items ++ constant_bytes (integer value)) }
{
    put_u8(1, out)?;
    put_i64(value, out)
}

/// Appends an atom.
fn put_atom<A: Allocator>(text: &str, out: &mut Vec<u8, A>) -> Result<(), AllocError>
    requires { length (chars text.now) ≤ atom_limit }
    ensures { OnOk result (out.new.items ≡ out.old.items
        ++ constant_bytes (atom (chars text.now))) }
{
    put_u8(2, out)?;
    put_u16(text.len() as u16, out)?;
    out.extend_from_slice(text.as_bytes())
}

/// Appends a binary.
fn put_binary<A: Allocator>(bytes: &[u8], out: &mut Vec<u8, A>) -> Result<(), AllocError>
    requires { length bytes.now ≤ binary_limit }
    ensures { OnOk result (out.new.items ≡ out.old.items ++ constant_bytes (binary bytes.now)) }
{
    put_u8(7, out)?;
    put_u32(bytes.len() as u32, out)?;
    out.extend_from_slice(bytes)
}

/// Appends the bytes of a term, as constants have them in code files. The recursion is as deep as the term, at most 255
/// levels. Fails if an allocation fails: a beginning of the bytes may be appended then.
#[cycle(constant)]
pub fn put_constant<A: Allocator, B: Allocator>(
    term: &Term<A>,
    out: &mut Vec<u8, B>,
) -> Result<(), AllocError>
    ensures bytes { OnOk result (out.new.items ≡ out.old.items ++ constant_bytes term.now) }
    ensures held { IsTerm term.now }
{
    match term.view() {
        View::Integer(value) => put_integer(value, out),
        View::Atom(text) => put_atom(text, out),
        View::Tuple(elements) => put_tuple(elements, out),
        View::Map(pairs) => put_map(pairs, out),
        View::Nil => put_u8(5, out),
        View::List(elements, tail) => put_list(elements, tail, out),
        View::Binary(bytes) => put_binary(bytes, out),
    }
}

/// Appends terms, one after the other.
#[cycle(constant)]
fn put_elements<A: Allocator, B: Allocator>(
    elements: &[Term<A>],
    out: &mut Vec<u8, B>,
) -> Result<(), AllocError>
    ensures bytes { OnOk result (out.new.items ≡ out.old.items
        ++ flat_map constant_bytes elements.now) }
    ensures held { OnOk result (All IsTerm elements.now) }
{
    for element in elements {
        put_constant(element, out)?;
    }
    Ok(())
}

/// Appends a tuple.
#[cycle(constant)]
fn put_tuple<A: Allocator, B: Allocator>(
    elements: &[Term<A>],
    out: &mut Vec<u8, B>,
) -> Result<(), AllocError>
    requires { length elements.now ≤ tuple_limit }
    ensures { OnOk result (out.new.items ≡ out.old.items
        ++ constant_bytes (tuple (items_of elements.now))) }
{
    put_u8(3, out)?;
    put_u16(elements.len() as u16, out)?;
    put_elements(elements, out)
}

/// Appends pairs, one after the other.
#[cycle(constant)]
fn put_pairs<A: Allocator, B: Allocator>(
    pairs: &[(Term<A>, Term<A>)],
    out: &mut Vec<u8, B>,
) -> Result<(), AllocError>
    ensures { OnOk result (out.new.items ≡ out.old.items ++ flat_map pair_bytes pairs.now) }
{
    for (key, value) in pairs {
        put_constant(key, out)?;
        put_constant(value, out)?;
    }
    Ok(())
}

/// Appends a map.
#[cycle(constant)]
fn put_map<A: Allocator, B: Allocator>(
    pairs: &[(Term<A>, Term<A>)],
    out: &mut Vec<u8, B>,
) -> Result<(), AllocError>
    requires { length pairs.now ≤ map_limit }
    ensures { OnOk result (out.new.items ≡ out.old.items
        ++ constant_bytes (map (entries_of pairs.now))) }
{
    put_u8(4, out)?;
    put_u16(pairs.len() as u16, out)?;
    put_pairs(pairs, out)
}

/// Appends the tail of a list.
#[cycle(constant)]
fn put_tail<A: Allocator, B: Allocator>(
    tail: Option<&Term<A>>,
    out: &mut Vec<u8, B>,
) -> Result<(), AllocError>
    ensures { OnOk result (out.new.items ≡ out.old.items
        ++ constant_bytes (tail_of (option_copied tail.entry))) }
{
    match tail {
        None => put_u8(5, out),
        Some(tail) => put_constant(tail, out),
    }
}

/// Appends a list that has elements.
#[cycle(constant)]
fn put_list<A: Allocator, B: Allocator>(
    elements: &[Term<A>],
    tail: Option<&Term<A>>,
    out: &mut Vec<u8, B>,
) -> Result<(), AllocError>
    requires some { (0 < length elements.now) × IsTail (option_copied tail) }
    requires few { length elements.now ≤ list_limit }
    ensures { OnOk result (out.new.items ≡ out.old.items
        ++ constant_bytes (cells elements.now (tail_of (option_copied tail.entry)))) }
{
    put_u8(6, out)?;
    put_u32(elements.len() as u32, out)?;
    put_elements(elements, out)?;
    put_tail(tail, out)
}

/// Appends the number of constants and then the constants.
pub(crate) fn put_constants<A: Allocator, B: Allocator>(
    constants: &[Term<A>],
    out: &mut Vec<u8, B>,
) -> Result<(), AllocError>
    requires { length constants.now ≤ most_parts }
    ensures bytes { OnOk result (out.new.items ≡ out.old.items ++ (u16_bytes (length constants.now)
        ++ flat_map constant_bytes constants.now)) }
    ensures held { OnOk result (All IsTerm constants.now) }
{
    put_u16(constants.len() as u16, out)?;
    put_elements(constants, out)
}
