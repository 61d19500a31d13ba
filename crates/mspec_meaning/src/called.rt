//! Calls of functions with values.
use crate::environment::Environment;
use mspec_match::failure;
use prims::call_values;
use prims_table::Primitive;
use std::alloc::{AllocError, Allocator};
use term_operand::Value;

impl<'s, 'a, A: Allocator + Copy> Environment<'s, 'a, A> {
    ghost use Rattle.std.specs.Prelude.{◌≡◌, map, IfOk};
    ghost use Rattle.std.specs.Option.{option_map};
    ghost use Rattle.term_operand.specs.Value.{value_datum};
    ghost use Rattle.mspec_meaning.specs.Called.{called};

    /// Returns the value of a call, given its arguments' values, or `None` if one of them has none. If the call fails,
    /// returns the value of what fails. Results that borrow from borrowed values are not copied.
    pub fn called(
        &self,
        function: Primitive,
        values: Option<Vec<Value<'a, A>, A>>,
    ) -> Result<Option<Value<'a, A>>, AllocError>
        ensures { IfOk result (λ value. option_map value_datum value ≡ called self.now.mode function
            (option_map (λ values. map value_datum values.items) values.entry)) }
    {
        let Some(values) = values else {
            return Ok(None);
        };
        match call_values(self.heap(), function, values.as_slice())? {
            Some(value) => Ok(Some(value)),
            None => failure(self.alloc(), self.mode()),
        }
    }
}
