ghost use Rattle.std.specs.Prelude.{◌≡◌, ◌<◌, ◌^◌};
ghost use Rattle.code_tallies.specs.Keys.{key_count};

use crate::column::Column;
use batch_kernels::Keys;
use delete_bitmap::Positions;
use std::alloc::Global;
use std::borrow::CowSlice;

/// The rows of a group that are chosen, and their key numbers.
#[derive(Drop)]
pub struct Chosen<'a> {
    /// The number of rows of the group.
    pub length: usize,
    /// The rows that are shown. None where each row is.
    pub shown: Option<&'a Positions>,
    /// Whether each row is chosen: the verdicts as they stand, or, where some rows are hidden, a list of those shown and kept. Where
    /// it is None, each row that is shown is chosen.
    pub kept: Option<CowSlice<'a, bool, Global>>,
    /// The grouping columns.
    pub keys: Vec<Column<'a>>,
    /// How many key numbers there are.
    pub size: usize,
    ghost few: { length < 2 ^ 59 },
    ghost sized: { size ≡ key_count keys.items },
    ghost small: { size < 2 ^ 60 },
}

/// A batch of rows: which are chosen and have a cell in a column that is not NULL, their codes and their numbers in this column where
/// they were read, and their key numbers. The batches of all columns of all groups of a scan are read into the same room, one after
/// another, since making it takes longer than tallying a small group.
#[derive(Drop)]
pub struct Batch {
    /// The first position.
    pub(crate) from: usize,
    /// The number of rows.
    pub(crate) count: usize,
    pub(crate) keys: Keys,
    pub(crate) codes: [u64; 1024],
    pub(crate) numbers: [i64; 1024],
    pub(crate) mask: [bool; 1024],
}
