//! Term text: terms read from text and written as text.
//!
//! The contract: `read_terms` returns the terms that a text spells (`Spells`, in `specs/Text.antt`). It rejects any
//! other text, with the place and the cause there (`HasCause`, in `specs/Causes.antt`). `write_term` writes the one
//! canonical text of a term, `write_readable` a text for people, and `write_binary` the canonical text of a binary of
//! any size (`canonical` and `readable`, in `specs/Canonical.antt`). The laws `canonical_text_is_read_back` and
//! `readable_text_is_read_back` say that either text spells its term and no other.
//!
//! - Tokens: `token.rt`, over `characters.rt` and the characters of `specs/Character.antt`. What a token spells is a
//!   relation (`specs/Tokens.antt`). What reading it from the left gives is a function (`specs/TokenReading.antt`).
//!   `proofs/Tokens.antt` and `proofs/Words.antt` prove that they agree, `proofs/QuotedRuns.antt` that quoted characters
//!   that stand for themselves may be taken as one slice. Why and where reading stops: `stop.rt`.
//! - Terms, from their tokens: `read.rt`, over `leaf.rt` for terms without parts and `pairs.rt` for the pairs of a
//!   map, returns what `text_at` of `specs/Reading.antt` gives. Terms are pushed onto one stack (`scratch.rt`,
//!   `specs/Stack.antt`, `proofs/Stacks.antt`), and a tuple or a list is made of the last of them. `proofs/Short.antt`
//!   covers short words and integers, which have a fast path, and `proofs/Places.antt` a map of few pairs, which is
//!   sorted as it is read, without a tree. What is read is spelled so: `proofs/Sound.antt`. What is spelled is read
//!   so: `proofs/Whole.antt`. Each term that is made is within its limits: `proofs/Within.antt`,
//!   `proofs/Constructed.antt`.
//! - Texts of bytes: `text.rt`. Faults, with the byte where they are: `fault.rt`. A fault's cause is at its place:
//!   `proofs/Blames.antt`, `proofs/BlamesTerms.antt`.
//! - Writing: `write.rt`, over `added.rt`. The laws: `law.rt`, proved in `proofs/Written.antt` and
//!   `proofs/ReadBack.antt`.
#![tactic(auto)]

mod added;
mod byte_table;
mod characters;
mod fault;
mod law;
mod leaf;
mod pairs;
mod read;
mod scratch;
mod stop;
mod text;
mod token;
mod write;

pub use fault::TextFault;
pub use law::{
    a_text_has_one_fault, a_text_spells_one_list, canonical_text_is_read_back,
    readable_text_is_read_back,
};
pub use scratch::Scratch;
pub use text::{next_term, read_terms, text_of};
pub use write::{Form, write_as, write_binary, write_readable, write_term};
