//! What an instruction comes to.

/// What an instruction comes to that stays inside its body.
#[derive(Clone, Copy)]
pub(crate) enum Came {
    /// The body goes on.
    On,
    /// The end of the run, with what this place of the stack holds.
    Answer(u16),
    /// The end of the run, without an answer.
    NoAnswer,
}
