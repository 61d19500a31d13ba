//! What atoms mean in a specification.
ghost use Rattle.std.specs.Prelude.{◌≡◌, ◌≤◌, length, nat_eq, true};
ghost use Rattle.std.specs.List.{list_all};
ghost use Rattle.std.specs.Char.{is_ascii, is_ascii_digit};
ghost use Rattle.std.specs.Cmp.Lexicographic.{pointwise};
ghost use Rattle.std.specs.Str.{chars};
ghost use Rattle.std.specs.Str.Parse.{digits_value};
ghost use Rattle.mspec_syntax.specs.Word.{is_number};

use crate::MAX_DIGITS;
use prims_table::Primitive;

/// The name of `const`, which quotes a term.
const CONST: &str = "const";
/// The name of `andalso`.
const ANDALSO: &str = "andalso";
/// The name of `orelse`.
const ORELSE: &str = "orelse";

/// What an atom means in a specification.
#[derive(Clone, Copy, Debug, PartialEq, Eq)]
pub enum Word {
    /// `'$N'`: the variable N.
    Variable(u32),
    /// `$` and digits that are not a variable's number.
    Misnumbered,
    /// `'_'`, which matches any term.
    Underscore,
    /// `'$_'`, the whole object.
    Object,
    /// `'$$'`, the list of all variables' values.
    Bindings,
    /// Any other atom, which means itself.
    Plain,
}

/// A kind of atom that no key of a map in a head may contain.
#[derive(Clone, Copy)]
pub enum Sought {
    /// A variable or `'_'`.
    Hole,
    /// `$` and digits that are not a variable's number.
    Misnumbered,
}

/// What an atom at the beginning of a tuple means, depending on the number of terms after it.
#[derive(Clone, Copy, Debug, PartialEq, Eq)]
pub enum Callee {
    /// `const` of one term, which means that term.
    Quote,
    /// `andalso` of one or more arguments.
    AndAlso,
    /// `orelse` of one or more arguments.
    OrElse,
    /// A function that takes this number of arguments.
    Function(Primitive),
    /// No function of this name takes this number of arguments.
    Unknown,
}

impl Callee {
    ghost use Rattle.std.specs.Prelude.{◌≡◌};
    ghost use Rattle.std.specs.Str.{chars};
    ghost use Rattle.mspec_syntax.specs.Callee.{callee_of};

    /// Returns what the atom of this name means before `arguments` terms.
    pub fn new(name: &str, arguments: usize) -> Callee
        ensures { result ≡ callee_of (chars name.now) arguments }
    {
        if arguments == 1 && is_name(name, CONST) {
            return Callee::Quote;
        }
        if arguments > 0 && is_name(name, ANDALSO) {
            return Callee::AndAlso;
        }
        if arguments > 0 && is_name(name, ORELSE) {
            return Callee::OrElse;
        }
        match Primitive::named(name, arguments) {
            Some(prim) => Callee::Function(prim),
            None => Callee::Unknown,
        }
    }
}

impl Word {
    ghost use Rattle.mspec_syntax.specs.Sought.{is_sought};
    ghost use Rattle.std.specs.Prelude.{◌≡◌};
    ghost use Rattle.std.specs.Str.{chars};
    ghost use Rattle.mspec_syntax.specs.Word.{word_of, dollar_word};

    /// Returns what the atom of this text means.
    pub fn new(text: &str) -> Word
        ensures { result ≡ word_of (chars text.now) }
    {
        Word::of_bytes(text.as_bytes())
    }

    /// Returns what the atom means whose text has these bytes. Only ASCII texts have a meaning.
    fn of_bytes(bytes: &[u8]) -> Word
        ensures { result ≡ word_of bytes.now }
    {
        match bytes {
            [b'$', rest @ ..] => Word::after_dollar(rest),
            [b'_'] => Word::Underscore,
            _ => Word::Plain,
        }
    }

    /// Returns whether the atom is of this kind.
    pub fn is(self, sought: Sought) -> bool
        ensures { result ≡ is_sought sought self }
    {
        match sought {
            Sought::Hole => matches!(self, Word::Variable(_) | Word::Underscore),
            Sought::Misnumbered => matches!(self, Word::Misnumbered),
        }
    }

    /// Returns what an atom means whose text begins with `$` and goes on with these bytes.
    fn after_dollar(bytes: &[u8]) -> Word
        ensures { result ≡ dollar_word bytes.now }
    {
        if !bytes.is_empty() && all_digits(bytes) {
            return if is_number(bytes) {
                Word::Variable(decimal(bytes))
            } else {
                Word::Misnumbered
            };
        }
        match bytes {
            [b'_'] => Word::Object,
            [b'$'] => Word::Bindings,
            _ => Word::Plain,
        }
    }
}

/// Returns whether the characters of the text are those of the name.
#[tactic(auto, using(crate::proofs::NameLemmas::same_name))]
fn is_name(text: &str, name: &str) -> bool
    requires { list_all is_ascii name.now ≡ true }
    ensures { result ≡ pointwise nat_eq (chars text.now) name.now }
{
    text == name
}

/// Returns whether these are all decimal digits.
fn all_digits(bytes: &[u8]) -> bool
    ensures { result ≡ list_all is_ascii_digit bytes.now }
{
    bytes.iter().all(|byte| byte.is_ascii_digit())
}

/// Returns whether these digits are at most `MAX_DIGITS`, with no 0 before other digits.
fn is_number(digits: &[u8]) -> bool
    ensures { result ≡ is_number digits.now }
{
    match digits {
        [] => false,
        [_] => true,
        [first, ..] => *first != b'0' && digits.len() <= MAX_DIGITS,
    }
}

/// Returns the number with these decimal digits, of which there are at most `MAX_DIGITS`.
fn decimal(digits: &[u8]) -> u32
    requires digits { list_all is_ascii_digit digits.now ≡ true }
    requires short { length digits.now ≤ MAX_DIGITS }
    ensures { result ≡ digits_value 10 digits.now }
{
    let mut number = 0;
    for digit in digits {
        number = number * 10 + u32::from(*digit - b'0');
    }
    number
}
