//! Scripts of ets commands on one thread: tables are opened, sessions use and walk them, tables are closed.
//!
//! The contract: the lines that are written are those of the replies to the script's terms (`AreReplies` of
//! `specs/Replied.antt`). If memory runs out, they are those of the replies to the first terms (`specs/Run.antt`). A
//! shell writes them as commands arrive, by one rule for each sort of line (`Goes` of `specs/Shell.antt`). The caller
//! chooses the parts that tables are made of: any that implement the trait `Part`.
//!
//! - `command`: the commands in memory (`specs/Commands.antt`), and how they are read from terms
//!   (`specs/Reading.antt`); `command_laws`: different commands have different terms (`command_term` of
//!   `specs/Command.antt`), and the reply to a request is what the call of a table returns (`specs/CallLaws.antt`).
//! - A command goes this way: `run` reads it from its term; `script` obeys it, and forwards a session's request to the
//!   open table; `open` admits the session; `session` performs the call. `specs/Scripts.antt`, `Opened.antt` and
//!   `State.antt` say which state each is in.
//! - A request with a specification goes the same way to `walk` (`specs/Verdict.antt`, `Walks.antt`), with the walks that
//!   can go on: `specs/Held.antt`; in memory `continuations`, `specs/Continuations.antt`.
//! - `reply`: replies and their lines, `specs/Replies.antt`; `run`: a script from a reader to a writer,
//!   `specs/Input.antt`.
//! - `shell`: replies as commands arrive, `specs/Shell.antt`, in memory `specs/Shells.antt`; `line`: the lines of its
//!   input, `specs/Line.antt`.
//! - `engine`: a script that goes on from text to text, `specs/Engine.antt`.
//! - `prompt`: a shell for a person, `specs/Prompt.antt`.
//! - `laws`: replies and the output of a shell are determined, and a shell replies to a script as `run_script` does,
//!   `specs/Laws.antt`.
#![tactic(auto)]

mod command;
mod command_laws;
mod continuations;
mod engine;
mod laws;
mod line;
mod open;
mod prompt;
mod reply;
mod run;
mod script;
mod session;
mod shell;
mod walk;

pub use command::{Ask, Command, Selection, read_command};
pub use command_laws::{a_call_is_a_command, terms_tell_commands};
pub use engine::{Engine, Halt};
pub use laws::{a_script_is_a_shell, lines_are_a_script, replies_are_one, shell_output_is_one};
pub use prompt::run_prompt;
pub use reply::{CommandReply, put_reply};
pub use run::run_script;
pub use shell::run_shell;
