//! Named keys in the order in which a walk visits them, and the code of a specification with them.
ghost use Rattle.std.specs.Prelude.{ℕ, ◌≡◌, Option, IfOk, IfSome, option_map};
ghost use Rattle.std.specs.List.{IsDistinct};
ghost use Rattle.term_core.specs.Datum.{Datum};
ghost use Rattle.term_operand.specs.Order.{is_same};
ghost use Rattle.mcode.specs.Answer.{answer_of};
ghost use Rattle.mspec_meaning.specs.Meaning.{Means};
ghost use Rattle.walk_query.specs.Named.{named_by};
ghost use Rattle.walk_query.specs.Plan.{IsPlanned, IsSilent};

use crate::keys::named_keys;
use crate::laws::{named_keys_differ, unnamed_keys_mean_nothing};
use compiler::compile;
use mspec_syntax::Spec;
use std::alloc::{AllocError, Allocator, Global};
use std::marker::Model;
use term_build::copy_all;
use term_core::Term;
use verifier::Verified;

/// The keys that a specification names at a position, each once.
#[derive(Drop)]
pub struct NamedKeys<A: Allocator = Global> {
    keypos: u16,
    keys: Vec<Term<A>, A>,
    rising: Vec<Term<A>, A>,
}

impl<A: Allocator> Model for NamedKeys<A> {
    ghost use Rattle.walk_query.specs.Plan.{Plan, IsPlanned};
    ghost use Rattle.std.specs.Coded.{codes};
    ghost use Rattle.term_core.specs.DatumCode.{datum_code};

    ghost Value = { Plan };

    ghost coded = { Prim.hlevel (codes, datum_code) };

    ghost view = { λ p. record { keypos = p.keypos; keys = p.keys.items; rising = p.rising.items } };

    ghost invariant = { λ p. IsPlanned (record { keypos = p.keypos; keys = p.keys.items; rising = p.rising.items }) };
}

impl<A: Allocator> NamedKeys<A> {
    ghost use Rattle.std.specs.Prelude.{◌≡◌, IfOk, option_map};
    ghost use Rattle.std.specs.List.{IsDistinct};
    ghost use Rattle.term_operand.specs.Order.{is_same};
    ghost use Rattle.walk_query.specs.Plan.{IsPlanned, keys_at};

    /// Makes the plan of distinct keys that are named at this position. Fails if an allocation fails.
    fn new(alloc: A, keypos: u16, keys: Vec<Term<A>, A>) -> Result<Self, AllocError>
    where
        A: Copy,
        requires { IsDistinct is_same keys.items }
        ensures { IfOk result (λ p. (p.keypos ≡ keypos) × (p.keys ≡ keys.items) × IsPlanned p) }
    {
        let mut rising = copy_all(alloc, keys.as_slice())?;
        rising.sort_unstable();
        Ok(NamedKeys {
            keypos,
            keys,
            rising,
        })
    }

    /// Returns the keys that a walk visits, one after the other, in a table with this `keypos`: in ascending order if
    /// the table is `ordered`, else in the order in which they are first named. Returns `None` at another position than
    /// the plan's.
    pub fn keys_at(&self, keypos: u16, ordered: bool) -> Option<&[Term<A>]>
        ensures keys { option_map (λ ks. ks.now) result ≡ keys_at self.now keypos ordered }
        ensures planned { IsPlanned self.now }
    {
        if self.keypos != keypos {
            return None;
        }
        if ordered {
            Some(self.rising.as_slice())
        } else {
            Some(self.keys.as_slice())
        }
    }
}

/// Returns the plan of the keys that a specification names at this position, or `None` if one of its heads names none.
/// Fails if an allocation fails.
fn plan_of<A: Allocator + Copy>(
    alloc: A,
    specification: &Spec<A>,
    keypos: u16,
) -> Result<Option<NamedKeys<A>>, AllocError>
    ensures keys { IfOk result (λ plan. option_map (λ p. p.keys) plan
        ≡ named_by keypos specification.now) }
    ensures keypos { IfOk result (λ plan. IfSome plan (λ p. p.keypos ≡ keypos)) }
    ensures planned { IfOk result (λ plan. IfSome plan IsPlanned) }
{
    named_keys_differ();
    match named_keys(alloc, specification, keypos)? {
        Some(keys) => Ok(Some(NamedKeys::new(alloc, keypos, keys)?)),
        None => Ok(None),
    }
}

/// Returns the verified code of a specification, and the keys that the specification names at this position, or `None`
/// if one of its heads names none. Fails if an allocation fails.
pub fn compile_named<A: Allocator + Copy>(
    alloc: A,
    specification: &Spec<A>,
    keypos: u16,
) -> Result<(Verified<A>, Option<NamedKeys<A>>), AllocError>
    ensures means { IfOk result (λ made. (object : Datum)
        → Means specification.now object (answer_of made.0 object)) }
    ensures silent { IfOk result (λ made. IfSome made.1 (λ p. IsSilent made.0 p)) }
    ensures keys { IfOk result (λ made. option_map (λ p. p.keys) made.1
        ≡ named_by keypos specification.now) }
    ensures keypos { IfOk result (λ made. IfSome made.1 (λ p. p.keypos ≡ keypos)) }
    ensures planned { IfOk result (λ made. IfSome made.1 IsPlanned) }
{
    unnamed_keys_mean_nothing();
    let plan = plan_of(alloc, specification, keypos)?;
    let code = compile(alloc, specification)?;
    Ok((code, plan))
}
