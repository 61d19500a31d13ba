//! Terms made of terms or text, and the rests of lists.
//!
//! The contract: an atom, a tuple, a list or a map is made exactly if it is within the limits of a term
//! (`within_limits`, `term_core/specs/Limits.antt`), unless memory runs out; a copy is equal to its original.
//!
//! - `named`: atoms of text, and maps of pairs in any order.
//! - `made`: a tuple, a list or a map of other terms, or `None` if it would exceed a limit.
//! - `copies`: copies of rows of terms; `apart`: whether terms differ.
//! - `rest`: the rest of a list after some of its elements (`rest_of`, `specs/Rest.antt`), as a view of the list or as
//!   a list of its own.
#![tactic(auto)]

mod apart;
mod copies;
mod made;
mod named;
mod rest;

pub use apart::are_apart;
pub use copies::{copy_all, copy_tail};
pub use made::{make_list, make_map, make_tuple};
pub use named::{atom_of_text, map_of_pairs};
pub use rest::{copy_rest, depth_of_rest, view_rest};
