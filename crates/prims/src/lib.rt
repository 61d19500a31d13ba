//! The functions of match specifications. `call` calls one with operands that it borrows (ERTS User's Guide, "Match
//! Specifications in Erlang"; Erlang Reference Manual, module erlang).
//!
//! The contract: `call` returns what `function_of` of `specs/Calls.antt` gives, a partial function on lists of terms.
//! It returns `None` exactly if that has no value.
//!
//! The list of functions is in `prims_table`.
//!
//! - `kinds`, `booleans`, `order`, `integers`, `shifts`, `tuples`, `lists`, `maps`, `sizes`: one family each. `calls`:
//!   selects the family of a function.
//! - `values`: calls with values, some of which may have been made.
#![tactic(auto)]

mod bits;
mod booleans;
mod calls;
mod integers;
mod kinds;
mod lists;
mod maps;
mod order;
mod shifts;
mod sizes;
mod tuples;
mod values;

pub use calls::{call, call_binary, call_unary};
pub use integers::compute;
pub use maps::{find_value, map_get};
pub use order::meets;
pub use values::{INLINE_OPERANDS, call_one, call_two, call_values};
