//! A session's pass.
ghost use Rattle.std.specs.Prelude.{◌≡◌};
ghost use Rattle.part_core.specs.Legal.{fix_count};

use crate::view::View;
use atomic_table::Seat;
use std::marker::Model;

/// A session's pass through one gate. Contracts see the gate that it was made with, the session's number, and the
/// history of the part up to the session's last turn.
#[derive(Drop)]
pub struct Pass<P> {
    pub(crate) seat: Seat<P, View>,
    pub(crate) number: u8,
    pub(crate) fixes: u16,
}

impl<P> Model for Pass<P> {
    ghost use Rattle.std.specs.Prelude.{◌≡◌, ◌<◌, []};
    ghost use Rattle.std.specs.Coded.{codes};
    ghost use Rattle.atomic_table.specs.Seated.{table_id_coded};
    ghost use Rattle.term_core.specs.DatumCode.{datum_code};
    ghost use Rattle.part_core.specs.Legal.{fix_count};
    ghost use Rattle.gate.specs.declared.view.Role.TheVariants.{Session};
    ghost use Rattle.gate.specs.Views.{Ticket};

    ghost Value = { Ticket };

    ghost coded = { Prim.hlevel (codes, datum_code) };

    ghost view = { λ p. record { gate = p.seat.table_id; settings = p.seat.me.0.settings; number = p.number; log = p.seat.me.0.seen } };

    ghost invariant = { λ p. (p.seat.me.1 ≡ []) × (p.seat.me.0.role ≡ Session p.number)
        × (p.number < p.seat.me.0.settings.sessions) × (p.fixes ≡ fix_count p.number p.seat.me.0.seen) };
}

impl<P> Pass<P> {
    /// Returns how many times the session fixes the part, after its last turn.
    pub fn fixes(&self) -> u16
        ensures { result ≡ fix_count self.now.number self.now.log }
    {
        self.fixes
    }
}
