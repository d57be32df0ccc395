// What the history of a pool is made of.

use cs_model::Entry;
use group_view::Claim;
use std::snapshot::Snapshot;

/// An event of the history: an entry of the log, with the claim that it lent to its actor, if it lent one. No value of it is made.
pub(crate) struct Event {
    pub entry: Entry,
    pub lent: Option<Claim>,
}

/// A claim that was lent, by the place of its entry in the log. Only clauses read the claim.
#[derive(Drop)]
pub(crate) struct Note {
    pub place: usize,
    pub claim: Snapshot<Claim>,
}
