//! The names of functions and their numbers of arguments.
ghost use Rattle.std.specs.Prelude.{◌≡◌, ◌↔◌, nat_eq, IsTrue, Some};
ghost use Rattle.std.specs.Cmp.Lexicographic.{pointwise};
ghost use Rattle.prims_table.specs.Names as spec;
ghost use Rattle.prims_table.specs.declared.prim.Primitive.{Primitive as AnyPrimitive};
ghost use Rattle.prims_table.specs.declared.prim.Primitive.TheVariants as prim;
ghost use Rattle.prims_table.specs.declared.prim.Function.TheVariants as function;

use crate::prim::{
    Arithmetic, BooleanFunction, Comparison, Extreme, Function, IntegerFunction, ListFunction,
    MapFunction, Primitive, SizeFunction, Test, TupleFunction,
};

/// All functions: those of `Function` and then those of two integers, each in the order of its number.
pub(crate) const ALL: [Primitive; 56] = [
    Primitive::Function(Function::Test(Test::IsAtom)),
    Primitive::Function(Function::Test(Test::IsInteger)),
    Primitive::Function(Function::Test(Test::IsList)),
    Primitive::Function(Function::Test(Test::IsNumber)),
    Primitive::Function(Function::Test(Test::IsTuple)),
    Primitive::Function(Function::Test(Test::IsMap)),
    Primitive::Function(Function::Map(MapFunction::IsMapKey)),
    Primitive::Function(Function::Test(Test::IsBinary)),
    Primitive::Function(Function::Test(Test::IsBitstring)),
    Primitive::Function(Function::Test(Test::IsBoolean)),
    Primitive::Function(Function::Tuple(TupleFunction::IsRecord)),
    Primitive::Function(Function::Test(Test::IsFloat)),
    Primitive::Function(Function::Test(Test::IsPid)),
    Primitive::Function(Function::Test(Test::IsPort)),
    Primitive::Function(Function::Test(Test::IsReference)),
    Primitive::Function(Function::Test(Test::IsFunction)),
    Primitive::Function(Function::Boolean(BooleanFunction::Not)),
    Primitive::Function(Function::Boolean(BooleanFunction::And)),
    Primitive::Function(Function::Boolean(BooleanFunction::Or)),
    Primitive::Function(Function::Boolean(BooleanFunction::Xor)),
    Primitive::Function(Function::Integer(IntegerFunction::Abs)),
    Primitive::Function(Function::Tuple(TupleFunction::Element)),
    Primitive::Function(Function::List(ListFunction::Hd)),
    Primitive::Function(Function::List(ListFunction::Tl)),
    Primitive::Function(Function::List(ListFunction::Length)),
    Primitive::Function(Function::Size(SizeFunction::Size)),
    Primitive::Function(Function::Size(SizeFunction::TupleSize)),
    Primitive::Function(Function::Size(SizeFunction::ByteSize)),
    Primitive::Function(Function::Size(SizeFunction::BitSize)),
    Primitive::Function(Function::Map(MapFunction::MapSize)),
    Primitive::Function(Function::Map(MapFunction::MapGet)),
    Primitive::Function(Function::Integer(IntegerFunction::Round)),
    Primitive::Function(Function::Integer(IntegerFunction::Trunc)),
    Primitive::Function(Function::Integer(IntegerFunction::Plus)),
    Primitive::Function(Function::Integer(IntegerFunction::Negate)),
    Primitive::Function(Function::Integer(IntegerFunction::Bnot)),
    Primitive::Function(Function::Comparison(Comparison::Greater)),
    Primitive::Function(Function::Comparison(Comparison::GreaterOrEqual)),
    Primitive::Function(Function::Comparison(Comparison::Less)),
    Primitive::Function(Function::Comparison(Comparison::LessOrEqual)),
    Primitive::Function(Function::Comparison(Comparison::ExactlyEqual)),
    Primitive::Function(Function::Comparison(Comparison::ExactlyUnequal)),
    Primitive::Function(Function::Comparison(Comparison::Equal)),
    Primitive::Function(Function::Comparison(Comparison::Unequal)),
    Primitive::Function(Function::Extreme(Extreme::Max)),
    Primitive::Function(Function::Extreme(Extreme::Min)),
    Primitive::Arithmetic(Arithmetic::Add),
    Primitive::Arithmetic(Arithmetic::Subtract),
    Primitive::Arithmetic(Arithmetic::Multiply),
    Primitive::Arithmetic(Arithmetic::Div),
    Primitive::Arithmetic(Arithmetic::Rem),
    Primitive::Arithmetic(Arithmetic::Band),
    Primitive::Arithmetic(Arithmetic::Bor),
    Primitive::Arithmetic(Arithmetic::Bxor),
    Primitive::Arithmetic(Arithmetic::Bsl),
    Primitive::Arithmetic(Arithmetic::Bsr),
];

const fn test_name(test: Test) -> &'static str
    ensures { result.now ≡ spec.name_of (prim.Function (function.Test test)) }
{
    match test {
        Test::IsAtom => "is_atom",
        Test::IsInteger => "is_integer",
        Test::IsList => "is_list",
        Test::IsNumber => "is_number",
        Test::IsTuple => "is_tuple",
        Test::IsMap => "is_map",
        Test::IsBinary => "is_binary",
        Test::IsBitstring => "is_bitstring",
        Test::IsBoolean => "is_boolean",
        Test::IsFloat => "is_float",
        Test::IsPid => "is_pid",
        Test::IsPort => "is_port",
        Test::IsReference => "is_reference",
        Test::IsFunction => "is_function",
    }
}

const fn boolean_name(boolean: BooleanFunction) -> &'static str
    ensures { result.now ≡ spec.name_of (prim.Function (function.Boolean boolean)) }
{
    match boolean {
        BooleanFunction::Not => "not",
        BooleanFunction::And => "and",
        BooleanFunction::Or => "or",
        BooleanFunction::Xor => "xor",
    }
}

const fn comparison_name(comparison: Comparison) -> &'static str
    ensures { result.now ≡ spec.name_of (prim.Function (function.Comparison comparison)) }
{
    match comparison {
        Comparison::Greater => ">",
        Comparison::GreaterOrEqual => ">=",
        Comparison::Less => "<",
        Comparison::LessOrEqual => "=<",
        Comparison::ExactlyEqual => "=:=",
        Comparison::ExactlyUnequal => "=/=",
        Comparison::Equal => "==",
        Comparison::Unequal => "/=",
    }
}

const fn extreme_name(extreme: Extreme) -> &'static str
    ensures { result.now ≡ spec.name_of (prim.Function (function.Extreme extreme)) }
{
    match extreme {
        Extreme::Max => "max",
        Extreme::Min => "min",
    }
}

const fn integer_name(integer: IntegerFunction) -> &'static str
    ensures { result.now ≡ spec.name_of (prim.Function (function.Integer integer)) }
{
    match integer {
        IntegerFunction::Abs => "abs",
        IntegerFunction::Round => "round",
        IntegerFunction::Trunc => "trunc",
        IntegerFunction::Plus => "+",
        IntegerFunction::Negate => "-",
        IntegerFunction::Bnot => "bnot",
    }
}

const fn arithmetic_name(arithmetic: Arithmetic) -> &'static str
    ensures { result.now ≡ spec.name_of (prim.Arithmetic arithmetic) }
{
    match arithmetic {
        Arithmetic::Add => "+",
        Arithmetic::Subtract => "-",
        Arithmetic::Multiply => "*",
        Arithmetic::Div => "div",
        Arithmetic::Rem => "rem",
        Arithmetic::Band => "band",
        Arithmetic::Bor => "bor",
        Arithmetic::Bxor => "bxor",
        Arithmetic::Bsl => "bsl",
        Arithmetic::Bsr => "bsr",
    }
}

const fn tuple_name(tuple: TupleFunction) -> &'static str
    ensures { result.now ≡ spec.name_of (prim.Function (function.Tuple tuple)) }
{
    match tuple {
        TupleFunction::IsRecord => "is_record",
        TupleFunction::Element => "element",
    }
}

const fn list_name(list: ListFunction) -> &'static str
    ensures { result.now ≡ spec.name_of (prim.Function (function.List list)) }
{
    match list {
        ListFunction::Hd => "hd",
        ListFunction::Tl => "tl",
        ListFunction::Length => "length",
    }
}

const fn map_name(map: MapFunction) -> &'static str
    ensures { result.now ≡ spec.name_of (prim.Function (function.Map map)) }
{
    match map {
        MapFunction::IsMapKey => "is_map_key",
        MapFunction::MapGet => "map_get",
        MapFunction::MapSize => "map_size",
    }
}

const fn size_name(size: SizeFunction) -> &'static str
    ensures { result.now ≡ spec.name_of (prim.Function (function.Size size)) }
{
    match size {
        SizeFunction::Size => "size",
        SizeFunction::TupleSize => "tuple_size",
        SizeFunction::ByteSize => "byte_size",
        SizeFunction::BitSize => "bit_size",
    }
}

/// Returns the first of these functions that has this name and takes this number of arguments, or `None`.
fn find(prims: &[Primitive], name: &str, arguments: usize) -> Option<Primitive>
    ensures { result ≡ spec.found name.now arguments prims.now }
{
    for prim in prims {
        if prim.name() == name && prim.takes(arguments) {
            return Some(*prim);
        }
    }
    None
}

impl Function {
    ghost use Rattle.std.specs.Prelude.{◌≡◌};
    ghost use Rattle.prims_table.specs.Names as spec;
    ghost use Rattle.prims_table.specs.declared.prim.Primitive.TheVariants as prim;

    /// Returns the function's name, an atom.
    const fn name(self) -> &'static str
        ensures { result.now ≡ spec.name_of (prim.Function self) }
    {
        match self {
            Function::Test(test) => test_name(test),
            Function::Boolean(boolean) => boolean_name(boolean),
            Function::Comparison(comparison) => comparison_name(comparison),
            Function::Extreme(extreme) => extreme_name(extreme),
            Function::Integer(integer) => integer_name(integer),
            Function::Tuple(tuple) => tuple_name(tuple),
            Function::List(list) => list_name(list),
            Function::Map(map) => map_name(map),
            Function::Size(size) => size_name(size),
        }
    }

    /// Returns the number of arguments that the function takes. For `and` and `or` it is the smallest number.
    const fn arity(self) -> usize
        ensures { result ≡ spec.arity_of (prim.Function self) }
    {
        match self {
            Function::Test(_) | Function::Integer(_) | Function::List(_) | Function::Size(_) => 1,
            Function::Comparison(_) | Function::Extreme(_) => 2,
            Function::Boolean(BooleanFunction::Not | BooleanFunction::And | BooleanFunction::Or) =>
                1,
            Function::Boolean(BooleanFunction::Xor) => 2,
            Function::Tuple(TupleFunction::IsRecord) => 3,
            Function::Tuple(TupleFunction::Element) => 2,
            Function::Map(MapFunction::IsMapKey | MapFunction::MapGet) => 2,
            Function::Map(MapFunction::MapSize) => 1,
        }
    }

    /// Returns whether the function takes this number of arguments.
    pub const fn takes(self, arguments: usize) -> bool
        ensures { result ≡ spec.takes (prim.Function self) arguments }
    {
        match self {
            Function::Boolean(BooleanFunction::And | BooleanFunction::Or) => 0 < arguments,
            _ => arguments == self.arity(),
        }
    }
}

impl Primitive {
    ghost use Rattle.std.specs.Prelude.{◌≡◌, ◌↔◌, IsTrue, Some};
    ghost use Rattle.std.specs.Str.{chars};
    ghost use Rattle.prims_table.specs.Names as spec;
    ghost use Rattle.prims_table.specs.declared.prim.Primitive.{Primitive as AnyPrimitive};

    /// Returns the function's name, an atom.
    pub const fn name(self) -> &'static str
        ensures { result.now ≡ spec.name_of self }
    {
        match self {
            Primitive::Arithmetic(arithmetic) => arithmetic_name(arithmetic),
            Primitive::Function(function) => function.name(),
        }
    }

    /// Returns whether the function takes this number of arguments.
    pub const fn takes(self, arguments: usize) -> bool
        ensures { result ≡ spec.takes self arguments }
    {
        match self {
            Primitive::Arithmetic(_) => arguments == 2,
            Primitive::Function(function) => function.takes(arguments),
        }
    }

    /// Returns the function of this name that takes this number of arguments, or `None` if there is none.
    pub fn named(name: &str, arguments: usize) -> Option<Primitive>
        ensures value { result ≡ spec.named (chars name.now) arguments }
        ensures table { (p : AnyPrimitive) → (result ≡ Some p)
            ↔ ((spec.name_of p ≡ chars name.now) × IsTrue (spec.takes p arguments)) }
    {
        find(&ALL, name, arguments)
    }
}
