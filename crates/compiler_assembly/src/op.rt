//! Symbolic instructions.
use prims_table::{Arithmetic, Function};
use std::alloc::Allocator;
use term_core::Term;

/// Where an instruction leads if it does not continue with the next one.
#[derive(Clone, Copy, Debug, PartialEq, Eq)]
pub enum Target {
    /// The instruction after the block.
    Failing,
    /// Further ahead, after skipping that many instructions.
    Ahead(u16),
}

/// An instruction of the machine (`mcode::Instr`) that contains its constant, and gives its target relative to itself.
#[derive(Drop)]
pub enum Op<C> {
    /// Pushes the object.
    Load,
    /// Pushes a constant.
    Const(C),
    /// Pushes the value to which a slot is bound.
    Get(u8),
    /// Pops the top and binds a slot to it.
    Bind(u8),
    /// Pushes the top again.
    Dup,
    /// Pops the top.
    Drop,
    /// Jumps if the top is not a tuple of this size.
    Tuple(u16, Target),
    /// Pops a tuple and pushes the element at this position, counted from 1.
    Field(u16),
    /// Jumps if the top is not a list with elements.
    Cons(Target),
    /// Pops a list with elements and pushes its head.
    Head,
    /// Pops a list with elements and pushes its tail.
    Tail,
    /// Jumps if the top is not a map.
    Map(Target),
    /// Pops a map and pushes the value of a key, or jumps if the map has no such key.
    Value(C, Target),
    /// Pops two terms, and jumps if they are not the same.
    Equal(Target),
    /// Jumps.
    Jump(Target),
    /// Pops that many arguments and pushes the result of the function, or jumps if the call fails.
    Call(Function, u16, Target),
    /// Jumps if the top is not an integer.
    Int(Target),
    /// Pops two integers and pushes the result of the function, or jumps if it fails.
    Arith(Arithmetic, Target),
    /// Jumps if the top is neither `true` nor `false`.
    Bool(Target),
    /// Pops `true` or `false`, and jumps if it is `false`.
    Branch(Target),
    /// Pops that many elements and pushes the tuple of them, or jumps if it exceeds a limit of terms.
    MakeTuple(u16, Target),
    /// Pops a tail and below it a head, and pushes the list, or jumps if it exceeds a limit of terms.
    MakeCons(Target),
    /// Pops a value for each key of a list of keys and pushes the map, or jumps if it exceeds a limit of terms.
    MakeMap(C, Target),
    /// Ends with the top as the answer.
    Answer,
    /// Ends without an answer.
    NoAnswer,
}

impl<A: Allocator> Op<Term<A>> {
    ghost use Rattle.std.specs.Prelude.{◌≡◌};
    ghost use Rattle.compiler_assembly.specs.Assembling.{target_named};

    /// Returns the target to which the instruction may jump, or `None`.
    pub(crate) fn target(&self) -> Option<Target>
        ensures { result ≡ target_named self.now }
    {
        match self {
            Op::Tuple(_, target)
            | Op::Cons(target)
            | Op::Map(target)
            | Op::Value(_, target)
            | Op::Equal(target)
            | Op::Jump(target)
            | Op::Call(_, _, target)
            | Op::Int(target)
            | Op::Arith(_, target)
            | Op::Bool(target)
            | Op::Branch(target)
            | Op::MakeTuple(_, target)
            | Op::MakeCons(target)
            | Op::MakeMap(_, target) => Some(*target),
            Op::Load
            | Op::Const(_)
            | Op::Get(_)
            | Op::Bind(_)
            | Op::Dup
            | Op::Drop
            | Op::Field(_)
            | Op::Head
            | Op::Tail
            | Op::Answer
            | Op::NoAnswer => None,
        }
    }
}
