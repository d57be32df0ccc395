// The groups by their counts, as reports show them.

use cs_base::Items;
use cs_model::{Actor, GroupLine};

/// The groups by their counts, as one moment has them.
#[derive(Drop)]
pub struct Ledger {
    /// A line for each group, by id.
    pub lines: Items<GroupLine>,
    /// The number of entries of the delete buffer.
    pub buffered: u64,
    /// The groups that are claimed, with the actors that hold them: claim by claim, the newest first.
    pub holders: Items<(u64, Actor)>,
}
