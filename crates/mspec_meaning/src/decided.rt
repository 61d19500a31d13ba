//! The arguments of `andalso` and `orelse`.
use crate::environment::Environment;
use mspec_match::failure;
use std::alloc::{AllocError, Allocator};
use term_operand::Value;

/// What the value of one argument says about the value of the whole.
#[derive(Drop)]
pub enum Verdict<'a, A: Allocator> {
    /// The arguments after it decide.
    Open,
    /// The whole has this value, or none.
    Ends(Option<Value<'a, A>>),
}

impl<'s, 'a, A: Allocator + Copy> Environment<'s, 'a, A> {
    ghost use Rattle.std.specs.Prelude.{◌≡◌, Option, IfOk};
    ghost use Rattle.std.specs.Option.{option_map};
    ghost use Rattle.term_core.specs.Datum.{Datum};
    ghost use Rattle.term_operand.specs.Value.{value_datum};
    ghost use Rattle.mspec_meaning.specs.Decided.{comes_to, decided_at};

    /// Returns the verdict of an argument with this value, where the truth value `decides` decides: `false` for
    /// `andalso`, `true` for `orelse`.
    pub fn verdict(
        &self,
        value: Option<Value<'a, A>>,
        decides: bool,
    ) -> Result<Verdict<'a, A>, AllocError>
        ensures { IfOk result (λ verdict. (rest : Option Datum) → comes_to verdict rest
            ≡ decided_at decides self.now.mode (option_map value_datum value.entry) rest) }
    {
        let Some(value) = value else {
            return Ok(Verdict::Ends(None));
        };
        match value.into_boolean() {
            Some(truth) => {
                if truth != decides {
                    return Ok(Verdict::Open);
                }
                Ok(Verdict::Ends(Some(Value::Bool(decides))))
            }
            None => Ok(Verdict::Ends(failure(self.alloc(), self.mode())?)),
        }
    }
}
