//! The state that an instruction leaves.
ghost use Rattle.std.specs.Prelude.{◌≡◌, ◌+◌, ◌<◌, ◌≤◌, ◌++◌, OnOk, length, slice_get};
ghost use Rattle.std.specs.Option.{option_map_or};
ghost use Rattle.mcode.specs.Kind.{kind_of as exact_kind};
ghost use Rattle.mcode.specs.Program.{Program};
ghost use Rattle.mcode.specs.declared.kind.Kind.TheVariants as kind;
ghost use Rattle.verifier_types.specs.Effect.{needs, given_kind as kind_given, left_bound, left_shape};
ghost use Rattle.verifier_types.specs.Leaving.{boolean_kind, pushed_for, pushed_list, IsBindable};
ghost use Rattle.term_core.specs.declared.TheConstants.{MAX_TUPLE};
ghost use Rattle.verifier_types.specs.Fit.{IsTypedAt};

use crate::effect::result_kind;
use crate::shape::Shape;
use mcode::{Body, Instr, Kind};
use prims_table::Gives;
use std::alloc::{AllocError, Allocator};
use term_core::{Term, View};
use term_operand::Operand;

/// The kinds that an instruction pushes, from the lowest.
pub(crate) enum Pushed {
    /// No kind.
    Nothing,
    /// One kind.
    One(Kind),
    /// One kind, pushed twice.
    Twice(Kind),
}

/// Returns the kind of an atom: `Kind::Bool` for `true` and `false`, otherwise `Kind::Any`.
fn atom_kind<A: Allocator>(term: &Term<A>) -> Kind
    ensures { result ≡ boolean_kind term.now }
{
    match Operand::Term(term).boolean() {
        Some(_) => Kind::Bool,
        None => Kind::Any,
    }
}

/// Returns the kind of a tuple of these elements.
fn tuple_kind<A: Allocator>(elements: &[Term<A>]) -> Kind
    requires { length elements.now ≤ MAX_TUPLE }
    ensures { result ≡ kind.Tuple (length elements.now) }
{
    Kind::Tuple(elements.len() as u16)
}

/// Returns the most exact kind of a term.
fn kind_of<A: Allocator>(term: &Term<A>) -> Kind
    ensures { result ≡ exact_kind term.now }
{
    match term.view() {
        View::Integer(_) => Kind::Int,
        View::Atom(_) => atom_kind(term),
        View::Tuple(elements) => tuple_kind(elements),
        View::Map(_) => Kind::Map,
        View::List(_, _) => Kind::Cons,
        View::Nil => Kind::Any,
        View::Binary(_) => Kind::Any,
    }
}

/// Returns the kind of a constant, `Kind::Any` if it doesn't exist.
fn constant_kind<A: Allocator>(body: &Body<'_, A>, constant: u16) -> Kind
    ensures { result ≡ option_map_or exact_kind (slice_get body.now.constants constant) kind.Any }
{
    match body.constants().get(usize::from(constant)) {
        Some(term) => kind_of(term),
        None => Kind::Any,
    }
}

/// Returns the kind of a function's result.
fn given_kind(gives: Gives) -> Kind
    ensures { result ≡ kind_given gives }
{
    match gives {
        Gives::Boolean => Kind::Bool,
        Gives::Integer => Kind::Int,
        Gives::Any => Kind::Any,
    }
}

/// Returns the kinds that an instruction pushes if this kind was at the top.
fn kinds_pushed<A: Allocator>(body: &Body<'_, A>, instr: Instr, top: Option<Kind>) -> Pushed
    ensures { pushed_list result ≡ pushed_for body.now instr top }
{
    match instr {
        Instr::Load | Instr::Get { .. } | Instr::Field { .. } => Pushed::One(Kind::Any),
        Instr::Head | Instr::Tail | Instr::Value { .. } => Pushed::One(Kind::Any),
        Instr::Const { constant } => Pushed::One(constant_kind(body, constant)),
        Instr::Dup => Pushed::Twice(top.unwrap_or(Kind::Any)),
        Instr::Tuple { size, .. } => Pushed::One(Kind::Tuple(size)),
        Instr::MakeTuple { size, .. } => Pushed::One(Kind::Tuple(size)),
        Instr::Cons { .. } | Instr::MakeCons { .. } => Pushed::One(Kind::Cons),
        Instr::Map { .. } | Instr::MakeMap { .. } => Pushed::One(Kind::Map),
        Instr::Int { .. } | Instr::Arith { .. } => Pushed::One(Kind::Int),
        Instr::Bool { .. } => Pushed::One(Kind::Bool),
        Instr::Call { function, .. } => Pushed::One(given_kind(function.gives())),
        Instr::Bind { .. } | Instr::Drop | Instr::Equal { .. } => Pushed::Nothing,
        Instr::Jump { .. } | Instr::Branch { .. } => Pushed::Nothing,
        Instr::Answer | Instr::NoAnswer => Pushed::Nothing,
        Instr::Return | Instr::Fail => Pushed::Nothing,
        Instr::Invoke { routine, .. } => Pushed::One(result_kind(body, routine)),
    }
}

/// Pushes these kinds.
fn push<A: Allocator>(shape: &mut Shape<A>, pushed: Pushed) -> Result<(), AllocError>
    requires { length shape.old.kinds + 2 < 65536 }
    ensures { OnOk result (shape.new ≡ record
        { kinds = pushed_list pushed ++ shape.old.kinds; bound = shape.old.bound }) }
{
    match pushed {
        Pushed::Nothing => Ok(()),
        Pushed::One(kind) => shape.push(kind),
        Pushed::Twice(kind) => {
            shape.push(kind)?;
            shape.push(kind)
        }
    }
}

/// Binds the slot that an instruction binds, if any.
fn bind<A: Allocator>(shape: &mut Shape<A>, instr: Instr)
    requires { IsBindable instr (length shape.old.bound) }
    ensures { shape.new ≡ record {
      kinds = shape.old.kinds;
      bound = left_bound instr
          shape.old.bound;
    } }
{
    match instr {
        Instr::Bind { slot } => shape.bind(slot),
        _ => {}
    }
}

/// Returns the kind at the top if the instruction pushes it again, otherwise `None`.
fn repeated_kind<A: Allocator>(instr: Instr, shape: &Shape<A>) -> Option<Kind>
    ensures { (p : Program) → pushed_for p instr result ≡ pushed_for p instr (slice_get shape.now.kinds 0) }
{
    match instr {
        Instr::Dup => shape.kind(0),
        _ => None,
    }
}

/// Turns the state in which an instruction began into the state that it leaves. `needed` is the number of operands that
/// it needs. Fails if an allocation fails.
pub fn leave<A: Allocator>(
    body: &Body<'_, A>,
    pc: u16,
    instr: Instr,
    shape: &mut Shape<A>,
    needed: usize,
) -> Result<(), AllocError>
    requires needed { needed ≡ needs body.now instr }
    requires slots { length shape.old.bound ≡ body.now.slots }
    requires typed { IsTypedAt body.now pc instr shape.old }
    ensures { OnOk result (shape.new ≡ left_shape body.now instr shape.old) }
{
    let top = repeated_kind(instr, shape);
    shape.pop(needed);
    push(shape, kinds_pushed(body, instr, top))?;
    bind(shape, instr);
    Ok(())
}
