//! The instructions of the machine.
ghost use Rattle.std.specs.Prelude.{◌≡◌, IsTrue, ◌↔◌};

use prims_table::{Arithmetic, Function};

/// An instruction. The top is the last place of the operand stack; arguments and elements are pushed from the left. A
/// jump goes to the instruction with that number and cuts the stack to the depth of the frame there. Execution goes on
/// at the next instruction, except after `Jump`, `Answer`, `NoAnswer`, `Return` and `Fail`.
#[derive(Clone, Copy, Debug, PartialEq, Eq)]
pub enum Instr {
    /// Pushes the object.
    Load,
    /// Pushes the constant with this number.
    Const {
        /// The constant's number.
        constant: u16,
    },
    /// Pushes the term to which the slot is bound.
    Get {
        /// The slot's number.
        slot: u8,
    },
    /// Pops the top and binds the slot to it.
    Bind {
        /// The slot's number.
        slot: u8,
    },
    /// Pushes the top again.
    Dup,
    /// Pops the top.
    Drop,
    /// Jumps if the top is not a tuple of this size. The top stays.
    Tuple {
        /// The number of elements.
        size: u16,
        /// The target of the jump.
        otherwise: u16,
    },
    /// Pops a tuple and pushes the element at this place, counted from 1.
    Field {
        /// The place.
        index: u16,
    },
    /// Jumps if the top is not a list with elements. The top stays.
    Cons {
        /// The target of the jump.
        otherwise: u16,
    },
    /// Pops a list with elements and pushes its head.
    Head,
    /// Pops a list with elements and pushes its tail.
    Tail,
    /// Jumps if the top is not a map. The top stays.
    Map {
        /// The target of the jump.
        otherwise: u16,
    },
    /// Pops a map and pushes the value of a key. Jumps if the map has no such key.
    Value {
        /// The number of the constant that is the key.
        key: u16,
        /// The target of the jump.
        otherwise: u16,
    },
    /// Pops two terms and jumps if they are not equal.
    Equal {
        /// The target of the jump.
        otherwise: u16,
    },
    /// Jumps.
    Jump {
        /// The target of the jump.
        target: u16,
    },
    /// Pops the arguments and pushes the result of the function. Jumps if the call fails.
    Call {
        /// The function.
        function: Function,
        /// The number of arguments.
        arguments: u16,
        /// The target of the jump.
        otherwise: u16,
    },
    /// Jumps if the top is not an integer. The top stays.
    Int {
        /// The target of the jump.
        otherwise: u16,
    },
    /// Pops two integers and pushes the result of the function. Jumps if it fails.
    Arith {
        /// The function.
        function: Arithmetic,
        /// The target of the jump.
        otherwise: u16,
    },
    /// Jumps if the top is neither `true` nor `false`. The top stays.
    Bool {
        /// The target of the jump.
        otherwise: u16,
    },
    /// Pops `true` or `false`, and jumps if it is `false`.
    Branch {
        /// The target of the jump.
        otherwise: u16,
    },
    /// Pops the elements and pushes the tuple of them. Jumps if it exceeds a limit of terms.
    MakeTuple {
        /// The number of elements.
        size: u16,
        /// The target of the jump.
        otherwise: u16,
    },
    /// Pops a tail and the head below it, and pushes the list. Jumps if it exceeds a limit of terms.
    MakeCons {
        /// The target of the jump.
        otherwise: u16,
    },
    /// Pops a value for each key and pushes the map. Jumps if it exceeds a limit of terms.
    MakeMap {
        /// The number of the constant that is the list of the keys.
        keys: u16,
        /// The target of the jump.
        otherwise: u16,
    },
    /// Ends with the top as the answer.
    Answer,
    /// Ends without an answer.
    NoAnswer,
    /// Pops the arguments of a routine and pushes its result. Jumps if it fails.
    Invoke {
        /// The routine's number, counted from 1.
        routine: u16,
        /// The target of the jump.
        otherwise: u16,
    },
    /// Ends the routine with the top as its result.
    Return,
    /// Ends the routine with a failure.
    Fail,
}

impl Instr {
    ghost use Rattle.std.specs.Prelude.{◌≡◌};
    ghost use Rattle.mcode.specs.Instr.{target_of, goes_on};

    /// Returns the target of the instruction's jump, or `None` if it doesn't jump.
    pub const fn target(self) -> Option<u16>
        ensures { result ≡ target_of self }
    {
        match self {
            Instr::Tuple { otherwise, .. }
            | Instr::Cons { otherwise }
            | Instr::Map { otherwise }
            | Instr::Value { otherwise, .. }
            | Instr::Equal { otherwise }
            | Instr::Call { otherwise, .. }
            | Instr::Int { otherwise }
            | Instr::Arith { otherwise, .. }
            | Instr::Bool { otherwise }
            | Instr::Branch { otherwise }
            | Instr::MakeTuple { otherwise, .. }
            | Instr::MakeCons { otherwise }
            | Instr::MakeMap { otherwise, .. }
            | Instr::Invoke { otherwise, .. } => Some(otherwise),
            Instr::Jump { target } => Some(target),
            Instr::Load
            | Instr::Const { .. }
            | Instr::Get { .. }
            | Instr::Bind { .. }
            | Instr::Dup
            | Instr::Drop
            | Instr::Field { .. }
            | Instr::Head
            | Instr::Tail
            | Instr::Answer
            | Instr::NoAnswer
            | Instr::Return
            | Instr::Fail => None,
        }
    }

    /// Returns whether execution may go on at the next instruction.
    pub const fn goes_on(self) -> bool
        ensures { result ≡ goes_on self }
    {
        !matches!(
            self,
            Instr::Jump { .. } | Instr::Answer | Instr::NoAnswer | Instr::Return | Instr::Fail
        )
    }
}
