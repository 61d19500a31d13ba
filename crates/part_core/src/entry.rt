//! An entry of a part's history.
use std::marker::Model;

/// Which session did what at a part, and what was answered, as contracts see it. No value of this type is ever created.
#[derive(Drop)]
pub struct Entry {
    _none: (),
}

impl Model for Entry {
    ghost use Rattle.std.specs.Coded.{codes};
    ghost use Rattle.term_core.specs.DatumCode.{datum_code};
    ghost use Rattle.part_core.specs.Acts as acts;
    ghost use Rattle.part_core.specs.Acts.Act.{First};
    ghost use Rattle.part_core.specs.Acts.Said.{Nothing};
    ghost use Rattle.part_core.specs.Acts.Answer.{Replied};

    ghost Value = { acts.Entry };

    ghost coded = { Prim.hlevel (codes, datum_code) };

    ghost view = { λ e. record { session = 0; act = First; answer = Replied Nothing } };
}
