// The directory: the groups, the open transactions and the newest changes.

use cs_types::Schema;
use group_view::GroupList;
use std::alloc::Global;
use std::sync::Arc;
use txn_table::Txns;
use version_store::Recent;

/// How large groups are.
#[derive(Clone, Copy, Debug, PartialEq, Eq)]
pub struct Sizes {
    /// The most versions of a group, 2 to 1,048,576.
    pub group_rows: u64,
    /// From how many rows on a commit loads them directly, 1 to 1,048,576.
    pub direct_rows: u64,
}

/// All that sessions and movers share of a table: its row groups, the open transactions, the newest change of each key that a
/// snapshot may still miss, and the clock. It stands for a list of committed changes that it does not keep.
#[derive(Drop)]
pub struct Directory {
    pub alloc: Global,
    pub schema: Arc<Schema>,
    pub sizes: Sizes,
    pub list: GroupList,
    pub txns: Txns,
    pub recent: Recent,
    /// Changes numbered at most this are perhaps no longer in `recent`.
    pub pruned: u64,
    /// How many newest changes the last prune left.
    pub kept: usize,
    /// The number of the last commit.
    pub clock: u64,
}
