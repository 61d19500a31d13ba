//! Lines of symbolic code.
use crate::op::Op;

/// What is known of the state of the machine where jumps lead.
#[derive(Drop)]
pub enum Label<P> {
    /// Inside a block: the operand stack has `depth` places, of which these are integers, and the block's slots are
    /// bound.
    Inside {
        /// The number of places of the operand stack.
        depth: u16,
        /// The places that are integers, from the lowest.
        integers: P,
    },
    /// At the beginning of a block: the operand stack is empty, and no slot is bound.
    Clean,
}

/// A symbolic instruction, and the label of the instruction after it, if jumps lead there.
#[derive(Drop)]
pub struct Line<C, P> {
    /// The instruction.
    pub op: Op<C>,
    /// The label of the next instruction.
    pub label: Option<Label<P>>,
}
