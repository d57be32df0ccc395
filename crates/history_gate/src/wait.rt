// How a ticket waits. No step of the rule is made here but the looks.
ghost use Rattle.std.specs.Prelude.{◌≡◌, ℕ, ◌<◌, ◌%◌, ◌^◌, [], None, Some};
ghost use Rattle.history_gate.specs.Steps.{IsCalled};

use crate::bells::Bells;
use crate::stands::Stands;
use crate::steps::{PassSeat, SharedTable, look};
use std::hint;
use std::sync::Wait;

/// How many times the next in line looks before it sleeps.
const LOOKS: u32 = 200;

/// Looks again and again for a short time, and says whether the ticket is served. It tells the seat nothing.
fn is_served_soon<V: Stands>(table: &SharedTable<V>, ticket: u64) -> bool
    requires { 1 < table.now.table_id.words }
{
    for _ in 0..LOOKS {
        if table.peek(1) == ticket {
            return true;
        }
        hint::spin_loop();
    }
    false
}

/// Waits until the ticket is served, and takes the turn. The next in line looks for a while first, since its turn is near, and its
/// bell is rung when it becomes that; all others sleep at once, each on the bell of its ticket.
pub(crate) fn wait<V: Stands, R: Wait>(
    rt: &R,
    bells: &Bells,
    table: &SharedTable<V>,
    seat: &mut PassSeat<V>,
    ticket: u64,
)
    requires table { (seat.old.table_id ≡ table.now.table_id) × (1 < table.now.table_id.words) × (seat.old.me.1 ≡ []) }
    requires ticket { (t : ℕ) × (seat.old.me.0.ticket ≡ Some t) × (ticket ≡ t % 2 ^ 64) }
    requires waits { seat.old.me.0.turn ≡ None }
    ensures seat { (seat.new.table_id ≡ seat.old.table_id) × (seat.new.id ≡ seat.old.id) }
    ensures turn { IsCalled V.number V.list seat.old.me seat.new.me }
{
    for _ in rt.forever() {
        let served = look(table, seat, ticket);
        if served == ticket {
            return;
        }
        if served.wrapping_add(1) == ticket && is_served_soon(table, ticket) {
            continue;
        }
        // Whoever serves this ticket rings its bell after that: so either this look sees it served, or the sleep ends.
        let key = bells.of_ticket(ticket).prepare_wait();
        if look(table, seat, ticket) == ticket {
            return;
        }
        key.wait(rt);
    }
    unreachable!()
}
