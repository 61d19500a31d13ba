//! What is known of the kind of a term.

/// What the verifier knows of the term at a place of the operand stack.
#[derive(Clone, Copy, Debug, PartialEq, Eq)]
pub enum Kind {
    /// Any term.
    Any,
    /// An integer.
    Int,
    /// The atom `true` or `false`.
    Bool,
    /// A list with elements.
    Cons,
    /// A map.
    Map,
    /// A tuple of this number of elements.
    Tuple(u16),
}
