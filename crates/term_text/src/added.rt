//! A text that is appended to another one.
use std::alloc::{AllocError, Allocator};
use std::marker::Model;

/// A text that is appended to another one, which stays unchanged in front of it.
#[derive(Drop)]
pub struct Added<B: Allocator> {
    bytes: Vec<u8, B>,
    start: usize,
}

impl<B: Allocator> Model for Added<B> {
    ghost use Rattle.std.specs.Prelude.{◌≤◌, length};
    ghost use Rattle.std.specs.Coded.{codes};
    ghost use Rattle.term_text.specs.Added.{Text, text_from};

    ghost Value = { Text };

    ghost coded = { Prim.hlevel codes };

    ghost view = { λ b. text_from b.start b.bytes.items };

    ghost invariant = { λ b. b.start ≤ length b.bytes.items };
}

impl<B: Allocator> Added<B> {
    ghost use Rattle.std.specs.Prelude.{◌≡◌, ◌++◌, ◌∷◌, [], OnOk};

    /// Starts an empty text after these bytes.
    #[tactic(auto, using(crate::proofs::AddedLemmas::nothing_behind))]
    pub fn new(bytes: Vec<u8, B>) -> Self
        ensures front { result.front ≡ bytes.items }
        ensures items { result.items ≡ [] }
    {
        let start = bytes.len();
        Added { bytes, start }
    }

    /// Appends a byte.
    #[inline(always)]
    #[tactic(auto, using(crate::proofs::AddedLemmas::more_behind, crate::proofs::AddedLemmas::same_front))]
    pub fn push(&mut self, byte: u8) -> Result<(), AllocError>
        ensures items { OnOk result (self.new.items ≡ self.old.items ++ byte ∷ []) }
        ensures front { self.new.front ≡ self.old.front }
    {
        self.bytes.push(byte)?;
        Ok(())
    }

    /// Appends bytes.
    #[inline(always)]
    #[tactic(auto, using(crate::proofs::AddedLemmas::more_behind, crate::proofs::AddedLemmas::same_front))]
    pub fn extend_from_slice(&mut self, bytes: &[u8]) -> Result<(), AllocError>
        ensures items { OnOk result (self.new.items ≡ self.old.items ++ bytes.now) }
        ensures front { self.new.front ≡ self.old.front }
    {
        self.bytes.extend_from_slice(bytes)
    }

    /// Returns the text in front followed by what was appended.
    #[tactic(auto, using(crate::proofs::AddedLemmas::both_texts))]
    pub fn whole(self) -> Vec<u8, B>
        ensures { result.items ≡ self.front ++ self.items }
    {
        self.bytes
    }

    /// Returns the text in front, without what was appended.
    pub fn before(self) -> Vec<u8, B>
        ensures { result.items ≡ self.front }
    {
        let mut bytes = self.bytes;
        bytes.truncate(self.start);
        bytes
    }
}
