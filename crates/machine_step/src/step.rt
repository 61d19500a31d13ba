//! What a step comes to.

/// What a step comes to.
#[derive(Clone, Copy)]
pub(crate) enum Step {
    /// Execution continues at the instruction with the first number; the second is the number of stack places in use.
    On(u16, u16),
    /// The end, with what this place of the stack holds.
    Answer(u16),
    /// The end, without an answer.
    NoAnswer,
}
