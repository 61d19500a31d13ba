//! The opcodes of instructions, grouped by the arguments that they have.
ghost use Rattle.std.specs.Prelude.{◌≡◌, ◌↔◌, Some, slice_get};
ghost use Rattle.code_writer.specs.Opcodes.{bare_instr, slotted_instr, single_instr, double_instr, opcode_number};
ghost use Rattle.code_writer.specs.declared.opcode.Opcode.{Opcode as AnyOpcode};

use mcode::Instr;

/// Instructions without arguments.
#[derive(Clone, Copy)]
pub enum Bare {
    Load,
    Dup,
    Drop,
    Head,
    Tail,
    Answer,
    NoAnswer,
    Return,
    Fail,
}

/// Instructions whose only argument is a slot.
#[derive(Clone, Copy)]
pub enum Slotted {
    Get,
    Bind,
}

/// Instructions whose only argument is a number of two bytes.
#[derive(Clone, Copy)]
pub enum Single {
    Const,
    Field,
    Cons,
    Map,
    Equal,
    Jump,
    Int,
    Bool,
    Branch,
    MakeCons,
}

/// Instructions whose arguments are two numbers of two bytes each.
#[derive(Clone, Copy)]
pub enum Double {
    Tuple,
    Value,
    MakeTuple,
    MakeMap,
    Invoke,
}

/// The opcode of an instruction.
#[derive(Clone, Copy)]
pub enum Opcode {
    Bare(Bare),
    Slotted(Slotted),
    Single(Single),
    Double(Double),
    /// Its arguments are a function, the number of its arguments, and the target of the jump.
    Call,
    /// Its arguments are a function of two integers and the target of the jump.
    Arith,
}

/// The opcodes in the order of their numbers, which begin with 1.
const ALL: [Opcode; 28] = [
    Opcode::Bare(Bare::Load),
    Opcode::Single(Single::Const),
    Opcode::Slotted(Slotted::Get),
    Opcode::Slotted(Slotted::Bind),
    Opcode::Bare(Bare::Dup),
    Opcode::Bare(Bare::Drop),
    Opcode::Double(Double::Tuple),
    Opcode::Single(Single::Field),
    Opcode::Single(Single::Cons),
    Opcode::Bare(Bare::Head),
    Opcode::Bare(Bare::Tail),
    Opcode::Single(Single::Map),
    Opcode::Double(Double::Value),
    Opcode::Single(Single::Equal),
    Opcode::Single(Single::Jump),
    Opcode::Call,
    Opcode::Single(Single::Int),
    Opcode::Arith,
    Opcode::Single(Single::Bool),
    Opcode::Single(Single::Branch),
    Opcode::Double(Double::MakeTuple),
    Opcode::Single(Single::MakeCons),
    Opcode::Double(Double::MakeMap),
    Opcode::Bare(Bare::Answer),
    Opcode::Bare(Bare::NoAnswer),
    Opcode::Double(Double::Invoke),
    Opcode::Bare(Bare::Return),
    Opcode::Bare(Bare::Fail),
];

/// Returns the opcode at a place of the table, counted from 0, or `None` after its end.
fn at(table: &[Opcode], place: usize) -> Option<Opcode>
    ensures { result ≡ slice_get table.now place }
{
    table.get(place).copied()
}

/// The largest number of an opcode.
pub const MAX_OPCODE: u8 = 28;
/// The largest number of an opcode in code without routines.
pub const MAX_PLAIN_OPCODE: u8 = 25;

impl Opcode {
    /// Returns the opcode with this number, or `None` if there is none.
    pub fn numbered(number: u8) -> Option<Opcode>
        ensures { (o : AnyOpcode) → (result ≡ Some o) ↔ (opcode_number o ≡ number) }
    {
        let place = number.checked_sub(1)?;
        at(&ALL, usize::from(place))
    }
}

impl Bare {
    /// Returns the instruction with this opcode.
    pub const fn instr(self) -> Instr
        ensures { result ≡ bare_instr self }
    {
        match self {
            Bare::Load => Instr::Load,
            Bare::Dup => Instr::Dup,
            Bare::Drop => Instr::Drop,
            Bare::Head => Instr::Head,
            Bare::Tail => Instr::Tail,
            Bare::Answer => Instr::Answer,
            Bare::NoAnswer => Instr::NoAnswer,
            Bare::Return => Instr::Return,
            Bare::Fail => Instr::Fail,
        }
    }
}

impl Slotted {
    /// Returns the instruction with this opcode and slot.
    pub const fn instr(self, slot: u8) -> Instr
        ensures { result ≡ slotted_instr self slot }
    {
        match self {
            Slotted::Get => Instr::Get { slot },
            Slotted::Bind => Instr::Bind { slot },
        }
    }
}

impl Single {
    /// Returns the instruction with this opcode and number.
    pub const fn instr(self, number: u16) -> Instr
        ensures { result ≡ single_instr self number }
    {
        match self {
            Single::Const => Instr::Const { constant: number },
            Single::Field => Instr::Field { index: number },
            Single::Cons => Instr::Cons { otherwise: number },
            Single::Map => Instr::Map { otherwise: number },
            Single::Equal => Instr::Equal { otherwise: number },
            Single::Jump => Instr::Jump { target: number },
            Single::Int => Instr::Int { otherwise: number },
            Single::Bool => Instr::Bool { otherwise: number },
            Single::Branch => Instr::Branch { otherwise: number },
            Single::MakeCons => Instr::MakeCons { otherwise: number },
        }
    }
}

impl Double {
    /// Returns the instruction with this opcode and numbers. The second number is the target of the jump.
    pub const fn instr(self, number: u16, otherwise: u16) -> Instr
        ensures { result ≡ double_instr self number otherwise }
    {
        match self {
            Double::Tuple => Instr::Tuple {
                size: number,
                otherwise,
            },
            Double::Value => Instr::Value {
                key: number,
                otherwise,
            },
            Double::MakeTuple => Instr::MakeTuple {
                size: number,
                otherwise,
            },
            Double::MakeMap => Instr::MakeMap {
                keys: number,
                otherwise,
            },
            Double::Invoke => Instr::Invoke {
                routine: number,
                otherwise,
            },
        }
    }
}
