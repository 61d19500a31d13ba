//! What an open filter owns.
use std::marker::Model;
use verifier::Verified;

/// Verified code, as a type without parameters, of which a filter may own a box.
#[derive(Drop)]
pub(crate) struct Loaded {
    code: Verified,
}

impl Model for Loaded {
    ghost use Rattle.std.specs.Coded.{codes};
    ghost use Rattle.term_core.specs.DatumCode.{datum_code};
    ghost use Rattle.mcode.specs.Program.{Program};

    ghost Value = { Program };

    ghost coded = { Prim.hlevel (codes, datum_code) };

    ghost view = { λ l. l.code };
}

impl Loaded {
    ghost use Rattle.std.specs.Prelude.{◌≡◌};

    /// Wraps verified code.
    pub(crate) fn new(code: Verified) -> Loaded
        ensures { result ≡ code }
    {
        Loaded { code }
    }

    /// Returns the code.
    pub(crate) fn code(&self) -> &Verified
        ensures { result.now ≡ self.now }
    {
        &self.code
    }
}
