//! One part of a table: its definitions, and the contract that every part satisfies.
//!
//! The one contract: each `apply` of a `Part` adds an entry to the part's history, and the history stays legal
//! (`specs/Legal.antt`): each answer is that of the state before it (`reply_of` of `specs/Replies.antt`), and `after`
//! of `specs/After.antt` says what state it leaves. A rejected operation is handed back, and one that runs out of
//! memory leaves no entry.
//!
//! - `kind`, `settings`: what a table holds at a key, and the settings that all its parts share.
//! - `op`, `reply`, `fault`: what a session requests of a part, and what it gets; `specs/Ops.antt` says what these mean
//!   in a history. `entry`: an entry, as contracts see it.
//! - `part`: the trait. `fixes`, `held`, `key`, `room`, `slots`: what the implementations of the trait share.
//! - `laws`: that the content of a history is that of the rows, that a visit answers for the keys that it covers, what
//!   holds of every state, and what stays while a part is fixed.
#![tactic(auto)]

mod entry;
mod fault;
mod fixes;
mod held;
mod key;
mod kind;
mod laws;
mod op;
mod part;
mod reply;
mod room;
mod settings;
mod slots;

pub use entry::Entry;
pub use fault::{Fault, OpenFault};
pub use fixes::{fixes_at, is_fixed, no_fixes};
pub use held::{Held, taken};
pub use key::key_in;
pub use kind::TableKind;
pub use laws::{
    base_never_falls, content_is_that_of_the_rows, cursors_stay_inside, fixed_rows_stay,
    fixes_are_counted, fixes_show, legal_front, legal_goes_on, legal_last, none_elsewhere,
    states_are_kept, visits_answer_their_cover, visits_lead, visits_lead_inside, visits_move_on,
};
pub use op::{Cursor, Look, MOST_ROWS, PartOp, Scope};
pub use part::Part;
pub use reply::{Reply, is_counted};
pub use room::push_within;
pub use settings::{MAX_KEYPOS, MAX_PARTS, MAX_SESSIONS, Settings};
pub use slots::{FIRST_SLOTS, MOST_SLOTS, is_base, slots_with_row};
