//! Walks through the parts of a table: what they are, and what their answers mean.
//!
//! The one contract: however the histories of the parts grow meanwhile, the visits of a walk gather, for each key that
//! is done once, what the query answers for the key's objects at one moment of the walk (`laws`; `specs/Moments.antt`).
//!
//! - `specs/Walk.antt`: a walk, its position, and the keys that it has done; `specs/Goes.antt`: visit after visit.
//! - `position`: the position of a walk, as code represents it, and how a visit changes it; `counting`: visits that
//!   count.
//! - `laws`: that a walk begins, continues, is unaffected by what other sessions do, and ends in this way.
#![tactic(auto)]

mod counting;
mod laws;
mod position;

pub use counting::{Counting, count_op};
pub use laws::{
    contents_have_their_key, deleting_walks_take_the_marks, deletions_are_the_marks,
    moments_are_the_marks, nothing_is_invented, once_outlasts_others, one_answer_a_key,
    other_visits_take_nothing, stops_cover_once, turns_are_visits, visits_are_answered,
    walks_begin, walks_begin_once, walks_cover_once, walks_end, walks_go_on, walks_outlast_others,
    walks_stop, who_stayed_is_answered, wider_calls_cover_once,
};
pub use position::{Position, after_key, at_key, at_part, behind, scope_from};
