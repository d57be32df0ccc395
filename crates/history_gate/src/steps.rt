// The atomic steps of a gate, each kept to the rule. Word 0 is the next ticket and word 1 the ticket that is served, both
// counted round at 2^64. The one slot has the value, while no seat has it.
ghost use Rattle.std.specs.Prelude.{◌≡◌, ℕ, ◌<◌, ◌%◌, ◌^◌, List, [], ◌∷◌, None, Some, ◌==◌, length, Contains, MatchBool};
ghost use mathlib.Core.Option.{none};
ghost use Rattle.atomic_table.specs.Table.{step};
ghost use Rattle.history_gate.specs.Histories.{Grows, own_numbers};
ghost use Rattle.history_gate.specs.Views.{after_turn, given, giving};
ghost use Rattle.history_gate.specs.Steps.{IsDrawn, IsCalled};

use crate::rule::{Cut, Draw, HistoryRule, Look, Numbered, Serve, View};
use crate::stands::Stands;
use atomic_table::{Seat, Shared};

/// The words and the slot of a gate, as its threads share them.
pub(crate) type SharedTable<V: Stands> = Shared<Option<V>, View<V::Entry>, u32, HistoryRule<V>>;

/// The seat of one pass.
pub(crate) type PassSeat<V: Stands> = Seat<Option<V>, View<V::Entry>>;

/// Draws a ticket.
pub(crate) fn draw<V: Stands>(table: &SharedTable<V>, seat: &mut PassSeat<V>) -> u64
    requires table { (seat.old.table_id ≡ table.now.table_id) × (0 < table.now.table_id.words) }
    requires idle { seat.old.me.0.ticket ≡ None }
    requires number { 0 < length seat.old.me.0.own }
    ensures seat { (seat.new.table_id ≡ seat.old.table_id) × (seat.new.id ≡ seat.old.id) }
    ensures drawn { IsDrawn (step 0 0 1 0 none) seat.old.me result seat.new.me }
{
    table.fetch_add::<Draw>(seat, 0, 1)
}

/// Reads the number that is served. Where it is the ticket's, the seat has the turn and the slot.
pub(crate) fn look<V: Stands>(table: &SharedTable<V>, seat: &mut PassSeat<V>, ticket: u64) -> u64
    requires table { (seat.old.table_id ≡ table.now.table_id) × (1 < table.now.table_id.words) × (seat.old.me.1 ≡ []) }
    requires ticket { (t : ℕ) × (seat.old.me.0.ticket ≡ Some t) × (ticket ≡ t % 2 ^ 64) }
    requires waits { seat.old.me.0.turn ≡ None }
    ensures seat { (seat.new.table_id ≡ seat.old.table_id) × (seat.new.id ≡ seat.old.id) }
    ensures turn { MatchBool (result == ticket) (IsCalled V.number V.list seat.old.me seat.new.me) (seat.new.me ≡ seat.old.me) }
{
    table.load::<Look>(seat, 1)
}

/// Puts the value back into the slot and ends the turn. It returns the number that was served until then.
pub(crate) fn serve<V: Stands>(table: &SharedTable<V>, seat: &mut PassSeat<V>, value: V) -> u64
    requires table { (seat.old.table_id ≡ table.now.table_id) × (1 < table.now.table_id.words) × (seat.old.me.1 ≡ (0, None) ∷ []) }
    requires turn { (t : ℕ) × (l : List V.Entry) × (seat.old.me.0.ticket ≡ Some t) × (seat.old.me.0.turn ≡ Some l) × Grows V.number (own_numbers seat.old.me.0.own) l (V.list value) }
    ensures seat { (seat.new.table_id ≡ seat.old.table_id) × (seat.new.id ≡ seat.old.id) }
    ensures after { seat.new.me ≡ (after_turn V.number seat.old.me.0 (V.list value), []) }
{
    let empty = table.exchange(seat, 0, Some(value));
    let None = empty else { unreachable!() };
    table.fetch_add::<Serve>(seat, 1, 1)
}

/// Makes a new seat, to which the number goes from the reserve.
pub(crate) fn cut<V: Stands, J: Numbered>(
    table: &SharedTable<V>,
    seat: &mut PassSeat<V>,
    number: u32,
) -> PassSeat<V>
    requires table { (seat.old.table_id ≡ table.now.table_id) × (0 < table.now.table_id.words) }
    requires idle { (seat.old.me.0.ticket ≡ None) × (0 < length seat.old.me.0.own) }
    requires number { (J.number ≡ number) × Contains seat.old.me.0.reserve number }
    ensures left { (seat.new.table_id ≡ seat.old.table_id) × (seat.new.me ≡ (giving number seat.old.me.0, seat.old.me.1)) }
    ensures right { (result.table_id ≡ seat.old.table_id) × (result.me ≡ (given number seat.old.me.0, [])) }
{
    // It stands in the clauses alone: `J` says it to the step.
    let _ = number;
    table.split_seat::<Cut<J>>(seat)
}
