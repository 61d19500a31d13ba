//! Tables of terms with match specifications, in the manner of Erlang's ets: the crate that a program names. It has no code
//! of its own, and passes on what other crates have, in modules by what one does.
//!
//! The one contract is theirs: each call says by its clauses what it returns and what it leaves, and `specs/Lib.antt` passes
//! on the definitions that these clauses name. `CALLING.md` shows each call in a caller.
//!
//! - [`term`] and [`text`]: terms, and their text.
//! - [`spec`] and [`code`]: match specifications, and the code that they are compiled to, which is verified and run.
//! - [`table`]: tables on one thread, whose calls are methods; [`walk`]: queries of their objects.
//! - [`threads`]: a table that sessions on several threads use at once.
#![tactic(auto)]

pub use ets_error::Error;

/// Terms: integers, atoms, tuples, maps, lists and binaries.
pub mod term {
    pub use term_core::{Fault as TermFault, Refused, Term, View};
    pub use term_order::{compare, key_hash};
}

/// The text of terms, as in `{1,ada,[2,3]}.`: read and written.
pub mod text {
    pub use term_text::{
        Form, Scratch, TextFault, next_term, read_terms, text_of, write_as, write_binary,
        write_term,
    };
}

/// Match specifications: read from terms, and what they mean.
pub mod spec {
    pub use mspec_meaning::evaluate;
    pub use mspec_reader::read_spec;
    pub use mspec_syntax::{Spec, SpecFault};
}

/// The code of specifications: compiled, kept in files, verified and run on objects that are in no table.
pub mod code {
    pub use budget::{all_forward, longest};
    pub use code_file::{FileFault, decode};
    pub use code_writer::encode;
    pub use compiler::compile;
    pub use machine::{Machine, run, run_true};
    pub use mcode::Code;
    pub use parallel_list::run_list;
    pub use verifier::{BodyFault, Verified, verify};
}

/// Tables on one thread.
pub mod table {
    pub use open_table::OpenTable;
    pub use part_core::{Fault, OpenFault, TableKind};
    pub use part_hash::HashPart;
    pub use part_order::OrderPart;
    use std::alloc::Global;
    pub use tables::Options;

    /// A table of any kind, which one thread uses.
    pub type Table<A = Global> = OpenTable<HashPart<A>, OrderPart<A>, A>;
}

/// What queries of tables are made of and return.
pub mod walk {
    pub use walk_query::Query;
    pub use walks::{Continuation, Step, WalkFault};
}

/// A table whose sessions run on several threads at once, the calls of a session, and selections by several workers.
pub mod threads {
    pub use parallel_select::{SelectFault, count_parts, delete_parts, select_parts};
    pub use part_core::Part;
    pub use tables::{
        At, Session, Table as SharedTable, Turns, delete, delete_object, fix, insert, insert_new,
        lookup, member, release, take, unfix,
    };
    pub use walks::{first, next, select, select_count, select_delete, select_limit, select_more};
}
