// The gate and its calls.
use crate::bells::Bells;
use crate::pass::{Held, Pass};
use crate::rule::{HistoryRule, Unite, View};
use crate::stands::Stands;
use crate::steps::{cut, draw, serve};
use crate::wait::wait;
use atomic_table::{Refused, Table};
use cs_base::Memory;
use std::alloc::{AllocFailed, Global};
use std::marker::{Brand, Model};
use std::sync::Wait;

/// A lock over a value that stands for a history. Threads share it by reference, and it is entered in the order of tickets.
/// Contracts see which gate it is and the number of its seats: entries have numbers below that, and each of these numbers is
/// with one pass. Nothing is promised of when a turn comes: who has the value and waits for another turn waits for ever.
pub struct Gate<V: Stands> {
    table: Table<Option<V>, View<V::Entry>, u32, HistoryRule<V>, Global>,
    bells: Bells,
}

impl<V: Stands> Model for Gate<V> {
    ghost use Rattle.std.specs.Prelude.{◌≡◌};
    ghost use Rattle.history_gate.specs.Passes.{GateState};

    ghost Value = { GateState };

    ghost view = { λ g. record { gate = g.table.shared.table_id; seats = g.table.shared.key } };

    ghost invariant = { λ g. (g.table.shared.table_id.words ≡ 2) × (g.table.shared.table_id.slots ≡ 1) };
}

impl<V: Stands> Gate<V> {
    ghost use Rattle.std.specs.Prelude.{◌≡◌, ℕ, ◌<◌, [], ◌∷◌, ◌-◌, ◌++◌, All, Contains, IfOk, IfErr};
    ghost use Rattle.std.specs.List.{range_with_len};
    ghost use mathlib.Core.List.{IsPrefix};
    ghost use Rattle.history_gate.specs.Histories.{Grows, Tells, added, own_numbers, without};
    ghost use Rattle.history_gate.specs.Passes.{HasNumber};

    /// A gate for so many seats, at least one, over a value whose history is empty, and its first pass: that has the number 0
    /// and may give away the others. It takes all memory that the gate needs. Memory, where that can't be had: then the value
    /// comes back.
    pub fn new(alloc: Global, value: V, seats: u32) -> Result<(Gate<V>, Pass<V>), (V, Memory)>
        requires seats { 0 < seats }
        requires empty { V.list value ≡ [] }
        ensures ok { IfOk result (λ r. (r.0.seats ≡ seats) × (r.1.gate ≡ r.0.gate) × (r.1.own ≡ (0, []) ∷ []) × (r.1.reserve ≡ range_with_len 1 (seats - 1)) × (r.1.seen ≡ [])) }
        ensures err { IfErr result (λ e. e.0 ≡ value) }
    {
        let Ok(bells) = Bells::new(alloc, seats) else {
            return Err((value, Memory));
        };
        let mut slots = Vec::new(alloc);
        if let Err(failed) = slots.push(Some(value)) {
            let AllocFailed { value } = failed;
            slots.destroy_empty();
            let Some(value) = value else { unreachable!() };
            return Err((value, Memory));
        }
        match Table::new(alloc, &[0, 0], slots, &seats) {
            Ok((table, seat)) => Ok((Gate { table, bells }, Pass { seat })),
            Err(Refused { mut slots }) => {
                let last = slots.pop();
                slots.destroy_empty();
                let Some(Some(value)) = last else {
                    unreachable!()
                };
                Err((value, Memory))
            }
        }
    }

    /// Waits for the turn, and takes the value. Its history begins with all that the pass has seen, and has of the pass's
    /// numbers the entries that the pass keeps.
    pub fn enter<R: Wait>(&self, rt: &R, pass: Pass<V>) -> Held<V>
        requires gate { pass.gate ≡ self.now.gate }
        ensures pass { (result.gate ≡ pass.gate) × (result.own ≡ pass.own) × (result.reserve ≡ pass.reserve) }
        ensures value { V.list result.value ≡ result.found }
        ensures seen { IsPrefix pass.seen result.found }
        ensures own { Tells V.number pass.own result.found }
    {
        let Pass { mut seat } = pass;
        let table = &self.table.shared;
        let ticket = draw(table, &mut seat);
        wait(rt, &self.bells, table, &mut seat, ticket);
        let taken = table.exchange(&mut seat, 0, None);
        let Some(value) = taken else { unreachable!() };
        Held { seat, value }
    }

    /// Gives the value back and ends the turn. The section may have added one entry at the end, with one of the pass's
    /// numbers. The pass that comes back has seen all. It wakes the one whose turn it is then, and the one behind.
    pub fn leave(&self, held: Held<V>) -> Pass<V>
        requires gate { held.gate ≡ self.now.gate }
        requires grows { Grows V.number (own_numbers held.own) held.found (V.list held.value) }
        ensures pass { (result.gate ≡ held.gate) × (result.reserve ≡ held.reserve) }
        ensures seen { result.seen ≡ V.list held.value }
        ensures told { Tells V.number result.own result.seen }
        ensures none { V.list held.value ≡ held.found → result.own ≡ held.own }
        ensures one { (e : V.Entry) → V.list held.value ≡ held.found ++ e ∷ [] → result.own ≡ added V.number e held.own }
    {
        let Held { mut seat, value } = held;
        let served = serve(&self.table.shared, &mut seat, value);
        self.bells.of_ticket(served.wrapping_add(1)).notify_one();
        // The ticket behind it is the next in line: its waiter is woken early, so that it may be looking when its turn comes.
        self.bells.of_ticket(served.wrapping_add(2)).notify_one();
        Pass { seat }
    }

    /// Takes a number out of the pass's reserve and gives it to a new pass, which has no entries and no reserve yet and has
    /// seen the same. It takes no memory.
    pub fn split(&self, pass: Pass<V>, number: u32) -> (Pass<V>, Pass<V>)
        requires gate { pass.gate ≡ self.now.gate }
        requires reserve { Contains pass.reserve number }
        ensures left { (result.0.gate ≡ pass.gate) × (result.0.own ≡ pass.own) × (result.0.reserve ≡ without number pass.reserve) × (result.0.seen ≡ pass.seen) }
        ensures right { (result.1.gate ≡ pass.gate) × (result.1.own ≡ (number, []) ∷ []) × (result.1.reserve ≡ []) × (result.1.seen ≡ pass.seen) }
    {
        let Pass { mut seat } = pass;
        let other = cut::<V, Brand>(&self.table.shared, &mut seat, number);
        (Pass { seat }, Pass { seat: other })
    }

    /// Makes one pass of two: it has the numbers, the reserves and the entries of both, and has seen what the first one has.
    pub fn join(&self, pass: Pass<V>, other: Pass<V>) -> Pass<V>
        requires gate { (pass.gate ≡ self.now.gate) × (other.gate ≡ self.now.gate) }
        ensures pass { (result.gate ≡ pass.gate) × (result.seen ≡ pass.seen) }
        ensures both { (result.own ≡ pass.own ++ other.own) × (result.reserve ≡ pass.reserve ++ other.reserve) }
    {
        let Pass { mut seat } = pass;
        let Pass { seat: second } = other;
        self.table.shared.join_seat::<Unite>(&mut seat, second);
        Pass { seat }
    }

    /// Ends the gate and gives the value back. The pass has every number, or may give it away: so every other pass was joined
    /// into it. The value's history begins with all that the pass has seen, has the entries that the pass keeps, and no
    /// others.
    pub fn close(self, pass: Pass<V>) -> V
        requires gate { pass.gate ≡ self.gate }
        requires all { (n : ℕ) → n < self.seats → HasNumber pass n }
        ensures seen { IsPrefix pass.seen (V.list result) }
        ensures own { Tells V.number pass.own (V.list result) }
        ensures others { All (λ e. Contains (own_numbers pass.own) (V.number e)) (V.list result) }
        ensures below { All (λ e. V.number e < self.seats) (V.list result) }
    {
        let Gate { table, bells: _ } = self;
        let Pass { seat } = pass;
        let mut closed = table.close_with(seat);
        let taken = closed.take(0);
        closed.free();
        let Some(value) = taken else { unreachable!() };
        value
    }
}
