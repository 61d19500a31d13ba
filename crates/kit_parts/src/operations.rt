//! Operations that terms describe.
ghost use Rattle.std.specs.Prelude.{◌<◌, IfSome};
ghost use Rattle.part_core.specs.Acts.{IsAsked};
ghost use Rattle.part_core.specs.Ops.{act_of};

use compiler::compile;
use kit_rows::{fields, is_atom, number};
use mspec_reader::read_spec;
use part_core::{Cursor, Look, PartOp, Scope, TableKind};
use std::alloc::Allocator;
use term_core::{Term, View};
use verifier::Verified;

/// Returns the kind of table that a term names, or `None`.
pub fn kind_of<A: Allocator>(term: &Term<A>) -> Option<TableKind> {
    for kind in [
        TableKind::Set,
        TableKind::OrderedSet,
        TableKind::Bag,
        TableKind::DuplicateBag,
    ] {
        if is_atom(term, kind_name(kind)) {
            return Some(kind);
        }
    }
    None
}

/// Returns the name of a kind of table.
const fn kind_name(kind: TableKind) -> &'static str {
    match kind {
        TableKind::Set => "set",
        TableKind::OrderedSet => "ordered_set",
        TableKind::Bag => "bag",
        TableKind::DuplicateBag => "duplicate_bag",
    }
}

/// The names of operations.
const NAMES: [&str; 15] = [
    "fix",
    "unfix",
    "release",
    "first",
    "next",
    "insert",
    "insert_new",
    "lookup",
    "member",
    "delete",
    "delete_object",
    "take",
    "visit",
    "visit_count",
    "visit_delete",
];

/// Returns the one of these names that a term is, or `None`.
fn name_among<A: Allocator>(term: &Term<A>, names: &[&'static str]) -> Option<&'static str> {
    for name in names {
        if is_atom(term, name) {
            return Some(*name);
        }
    }
    None
}

/// Returns the name of an operation that a term is, or `None`.
pub(crate) fn name_of<A: Allocator>(term: &Term<A>) -> Option<&'static str> {
    name_among(term, &NAMES)
}

/// Returns the value of an integer from 0 to 255, or `None` for any other term.
pub fn byte<A: Allocator>(term: &Term<A>) -> Option<u8> {
    u8::try_from(number(term)?).ok()
}

/// Returns the number of answers that a term requests, at least 1, or `None`.
pub(crate) fn wanted_of<A: Allocator>(term: &Term<A>) -> Option<u64>
    ensures { IfSome result (λ wanted. 0 < wanted) }
{
    let wanted = match term.view() {
        View::Integer(value) => u64::try_from(value).ok()?,
        _ => return None,
    };
    if wanted == 0 { None } else { Some(wanted) }
}

/// Returns the code of the specification that a term is, or `None` if it is none or memory runs out.
pub(crate) fn code_of<A: Allocator + Copy>(heap: A, term: &Term<A>) -> Option<Verified<A>> {
    let Ok(specification) = read_spec(heap, term) else {
        return None;
    };
    let code = compile(heap, &specification).ok();
    drop(specification);
    code
}

/// Returns the cursor at this class.
fn cursor_at<A: Allocator>(base: &Term<A>, class: &Term<A>) -> Option<Cursor<A>> {
    let (base, class) = (number(base)?, number(class)?);
    Some(Cursor::Class { base, class })
}

/// Returns the cursor after this key, or `None` if memory runs out.
fn cursor_after<A: Allocator + Copy>(key: &Term<A>) -> Option<Cursor<A>> {
    match key.copy() {
        Ok(key) => Some(Cursor::Behind(key)),
        Err(_) => None,
    }
}

/// Returns the cursor that a term describes: `{class,Base,Class}` or `{behind,Key}`.
pub(crate) fn cursor_of<A: Allocator + Copy>(term: &Term<A>) -> Option<Cursor<A>> {
    match fields(term)? {
        [tag, base, class] if is_atom(tag, "class") => cursor_at(base, class),
        [tag, key] if is_atom(tag, "behind") => cursor_after(key),
        _ => None,
    }
}

/// Returns the key of a term `{named,Key}`, or `None` for any other term.
fn named_key<A: Allocator>(term: &Term<A>) -> Option<&Term<A>> {
    match fields(term)? {
        [tag, key] if is_atom(tag, "named") => Some(key),
        _ => None,
    }
}

/// Returns the scope that a term describes: `begin`, `{named,Key}`, or what follows the cursor, which the term was read
/// as.
pub(crate) fn scope_of<'t, A: Allocator>(
    term: &'t Term<A>,
    cursor: Option<&'t Cursor<A>>,
) -> Option<Scope<'t, A>> {
    if is_atom(term, "begin") {
        return Some(Scope::Begin);
    }
    match named_key(term) {
        Some(key) => Some(Scope::Named(key)),
        None => Some(Scope::After(cursor?)),
    }
}

/// Returns the operation with this name, if it is one that needs nothing else.
pub(crate) fn bare<'a, A: Allocator>(name: &str) -> Option<PartOp<'a, A>>
    ensures { IfSome result (λ op. IsAsked (act_of op)) }
{
    match name {
        "fix" => Some(PartOp::Fix),
        "unfix" => Some(PartOp::Unfix),
        "release" => Some(PartOp::Release),
        "first" => Some(PartOp::First),
        _ => None,
    }
}

/// Returns the operation `insert`, or `insert_new` for any other name, of a copy of the object. Returns `None` if
/// memory runs out.
fn inserted<'a, A: Allocator + Copy>(name: &str, object: &'a Term<A>) -> Option<PartOp<'a, A>>
    ensures { IfSome result (λ op. IsAsked (act_of op)) }
{
    let copy = object.copy().ok()?;
    if name == "insert" {
        Some(PartOp::Insert(Some(copy)))
    } else {
        Some(PartOp::InsertNew(Some(copy)))
    }
}

/// Returns the operation with this name on an object or a key, or `None`.
pub(crate) fn keyed<'a, A: Allocator + Copy>(
    name: &str,
    operand: &'a Term<A>,
) -> Option<PartOp<'a, A>>
    ensures { IfSome result (λ op. IsAsked (act_of op)) }
{
    match name {
        "insert" | "insert_new" => inserted(name, operand),
        "lookup" => Some(PartOp::Lookup(operand)),
        "member" => Some(PartOp::Member(operand)),
        "delete" => Some(PartOp::Delete(operand)),
        "delete_object" => Some(PartOp::DeleteObject(operand)),
        "take" => Some(PartOp::Take(operand)),
        "next" => Some(PartOp::Next(operand)),
        _ => None,
    }
}

/// Returns the visit with this name, or `None`.
pub(crate) fn visit<'a, A: Allocator>(
    name: &str,
    code: &'a Verified<A>,
    scope: Scope<'a, A>,
    wanted: u64,
) -> Option<PartOp<'a, A>>
    requires { 0 < wanted }
    ensures { IfSome result (λ op. IsAsked (act_of op)) }
{
    let look = Look {
        code,
        scope,
        wanted,
    };
    match name {
        "visit" => Some(PartOp::Visit(look)),
        "visit_count" => Some(PartOp::VisitCount(look)),
        "visit_delete" => Some(PartOp::VisitDelete(look)),
        _ => None,
    }
}
