//! The functions that match specifications may call.

/// A function of match specifications (ERTS User's Guide, "Match Specifications in Erlang"). The functions are those of
/// the same names in the Erlang Reference Manual, "Expressions", and module erlang.
#[derive(Clone, Copy, Debug, PartialEq, Eq)]
pub enum Primitive {
    /// A function of two integers.
    Arithmetic(Arithmetic),
    /// Any other function.
    Function(Function),
}

/// A function other than those of two integers.
#[derive(Clone, Copy, Debug, PartialEq, Eq)]
pub enum Function {
    /// A test for the kind of a term.
    Test(Test),
    /// A function of truth values.
    Boolean(BooleanFunction),
    /// A comparison in the order of terms.
    Comparison(Comparison),
    /// The greater or smaller of two terms.
    Extreme(Extreme),
    /// A function of one integer.
    Integer(IntegerFunction),
    /// A function of tuples.
    Tuple(TupleFunction),
    /// A function of lists.
    List(ListFunction),
    /// A function of maps.
    Map(MapFunction),
    /// The size of a term.
    Size(SizeFunction),
}

/// Tests for the kind of a term.
#[derive(Clone, Copy, Debug, PartialEq, Eq)]
pub enum Test {
    /// `is_atom`
    IsAtom = 1,
    /// `is_integer`
    IsInteger = 2,
    /// `is_list`: `[]` or any non-empty list, proper or not.
    IsList = 3,
    /// `is_number`
    IsNumber = 4,
    /// `is_tuple`
    IsTuple = 5,
    /// `is_map`
    IsMap = 6,
    /// `is_binary`
    IsBinary = 8,
    /// `is_bitstring`: as `is_binary`, since each binary has whole bytes.
    IsBitstring = 9,
    /// `is_boolean`
    IsBoolean = 10,
    /// `is_float`: false for all terms, like the four tests after it.
    IsFloat = 12,
    /// `is_pid`: false for all terms.
    IsPid = 13,
    /// `is_port`: false for all terms.
    IsPort = 14,
    /// `is_reference`: false for all terms.
    IsReference = 15,
    /// `is_function`: false for all terms.
    IsFunction = 16,
}

/// Functions of the atoms `true` and `false`.
#[derive(Clone, Copy, Debug, PartialEq, Eq)]
pub enum BooleanFunction {
    /// `not`
    Not = 17,
    /// `and`, of one or more arguments.
    And = 18,
    /// `or`, of one or more arguments.
    Or = 19,
    /// `xor`, of two arguments.
    Xor = 20,
}

/// Comparisons of two terms.
#[derive(Clone, Copy, Debug, PartialEq, Eq)]
pub enum Comparison {
    /// `>`
    Greater = 37,
    /// `>=`
    GreaterOrEqual = 38,
    /// `<`
    Less = 39,
    /// `=<`
    LessOrEqual = 40,
    /// `=:=`
    ExactlyEqual = 41,
    /// `=/=`
    ExactlyUnequal = 42,
    /// `==`, which agrees with `=:=`, since there are no floats.
    Equal = 43,
    /// `/=`
    Unequal = 44,
}

/// The greater or smaller of two terms.
#[derive(Clone, Copy, Debug, PartialEq, Eq)]
pub enum Extreme {
    /// `max`
    Max = 45,
    /// `min`
    Min = 46,
}

/// Functions of one integer.
#[derive(Clone, Copy, Debug, PartialEq, Eq)]
pub enum IntegerFunction {
    /// `abs`
    Abs = 21,
    /// `round`: the integer itself.
    Round = 32,
    /// `trunc`: the integer itself.
    Trunc = 33,
    /// `+`: the integer itself.
    Plus = 34,
    /// `-`: the negated integer.
    Negate = 35,
    /// `bnot`
    Bnot = 36,
}

/// Functions of two integers.
#[derive(Clone, Copy, Debug, PartialEq, Eq)]
pub enum Arithmetic {
    /// `+`
    Add = 1,
    /// `-`
    Subtract = 2,
    /// `*`
    Multiply = 3,
    /// `div`: truncates toward zero.
    Div = 4,
    /// `rem`: has the sign of the dividend.
    Rem = 5,
    /// `band`
    Band = 6,
    /// `bor`
    Bor = 7,
    /// `bxor`
    Bxor = 8,
    /// `bsl`: `X bsl N` is X times 2 to the power N. With a negative N it is `X bsr -N`.
    Bsl = 9,
    /// `bsr`: `X bsr N` is X divided by 2 to the power N, rounded down. With a negative N it is `X bsl -N`.
    Bsr = 10,
}

/// Functions of tuples.
#[derive(Clone, Copy, Debug, PartialEq, Eq)]
pub enum TupleFunction {
    /// `is_record` of a term, a name and a size: whether the term is a tuple of that size whose first element is the
    /// name.
    IsRecord = 11,
    /// `element` of a place, counted from 1, and a tuple.
    Element = 22,
}

/// Functions of lists.
#[derive(Clone, Copy, Debug, PartialEq, Eq)]
pub enum ListFunction {
    /// `hd`: the first element.
    Hd = 23,
    /// `tl`: what follows the first element.
    Tl = 24,
    /// `length` of a proper list.
    Length = 25,
}

/// Functions of maps.
#[derive(Clone, Copy, Debug, PartialEq, Eq)]
pub enum MapFunction {
    /// `is_map_key` of a key and a map.
    IsMapKey = 7,
    /// `map_get` of a key and a map.
    MapGet = 31,
    /// `map_size`: the number of pairs.
    MapSize = 30,
}

/// The size of a term.
#[derive(Clone, Copy, Debug, PartialEq, Eq)]
pub enum SizeFunction {
    /// `size`: the number of elements of a tuple or of bytes of a binary.
    Size = 26,
    /// `tuple_size`: the number of elements.
    TupleSize = 27,
    /// `byte_size`: the number of bytes of a binary.
    ByteSize = 28,
    /// `bit_size`: 8 times the number of bytes of a binary.
    BitSize = 29,
}
