// What an attempt at a turn gives.

use group_directory::Ledger;
use group_view::Claim;

/// What the attempt of a session's REORGANIZE at a turn gave.
#[derive(Drop)]
pub(crate) enum Attempt {
    /// Groups are lent, to be worked on outside the gate.
    Lent(Claim),
    /// There is nothing left to do, and no event. These are the groups at that moment: its last look.
    Idle(Ledger),
    /// Memory was wanting: for the turn, with an event that says so, for that event, or for the last look.
    Short,
}
