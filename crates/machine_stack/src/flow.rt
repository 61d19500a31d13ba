//! Where an instruction leads.

/// Where an instruction leads, with how many places of the operand stack are taken then.
#[derive(Clone, Copy, Debug, PartialEq, Eq)]
pub enum Flow {
    /// On at the next instruction.
    Next(u16),
    /// On at the instruction of this number, where the stack is cut.
    Jump(u16, u16),
    /// To the end, with what this place of the stack holds.
    Answer(u16),
    /// To the end, without an answer.
    NoAnswer,
}
