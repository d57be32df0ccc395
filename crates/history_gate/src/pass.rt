// What one caller of a gate has: a pass, or the value while it has the turn.
use crate::stands::Stands;
use crate::steps::PassSeat;
use std::marker::Model;

/// One caller's place at a gate. Contracts see the gate that it is of, its own numbers with the entries of each, the numbers
/// that it may give away, and a prefix of the history that it has seen. Whoever drops a pass loses its numbers, and the gate
/// can't be closed any more.
#[derive(Drop)]
pub struct Pass<V: Stands> {
    pub(crate) seat: PassSeat<V>,
}

impl<V: Stands> Model for Pass<V> {
    ghost use Rattle.std.specs.Prelude.{◌≡◌, ◌<◌, [], None, length};
    ghost use Rattle.history_gate.specs.Passes.{PassState};

    ghost Value = { PassState V.Entry };

    ghost view = { λ p. record { gate = p.seat.table_id; own = p.seat.me.0.own; reserve = p.seat.me.0.reserve; seen = p.seat.me.0.seen } };

    ghost invariant = { λ p. (p.seat.me.0.ticket ≡ None) × (p.seat.me.0.turn ≡ None) × (p.seat.me.1 ≡ []) × (0 < length p.seat.me.0.own) };
}

/// The value of a gate, while its holder has the turn. Contracts see of it what they see of a pass, the history that `enter`
/// found, and the value. It has no `Drop`: it goes back by `Gate::leave`, and no section can end without that.
pub struct Held<V: Stands> {
    pub(crate) seat: PassSeat<V>,
    pub(crate) value: V,
}

impl<V: Stands> Model for Held<V> {
    ghost use Rattle.std.specs.Prelude.{◌≡◌, ℕ, ◌<◌, List, [], ◌∷◌, Some, None, length};
    ghost use Rattle.history_gate.specs.Histories.{Tells};
    ghost use Rattle.history_gate.specs.Passes.{HeldState, found_at};

    ghost Value = { HeldState V.Entry V };

    ghost view = { λ h. record { gate = h.seat.table_id; own = h.seat.me.0.own; reserve = h.seat.me.0.reserve; found = found_at h.seat.me.0.turn; value = h.value } };

    ghost invariant = { λ h. ((t : ℕ) × (l : List V.Entry) × (h.seat.me.0.ticket ≡ Some t) × (h.seat.me.0.turn ≡ Some l)) × (h.seat.me.1 ≡ (0, None) ∷ []) × (0 < length h.seat.me.0.own) × Tells V.number h.seat.me.0.own (found_at h.seat.me.0.turn) };
}
