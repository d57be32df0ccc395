ghost use Rattle.std.specs.Prelude.{◌≡◌, ℕ, pos, ◌<◌, vec_len, slice_index, slice_index_or};
ghost use Rattle.batch_kernels.specs.Places.{IsSumOf};

use crate::column::Column;
use column_segment::Segment;

/// What is kept for an item, an entry for each key number.
#[derive(Drop)]
pub enum Table<'a> {
    /// Nothing: a column shows the group's cell.
    Nothing,
    /// How many rows there are, which is kept beside the tables.
    Rows,
    /// How many cells are not NULL.
    Counts(Vec<u64>),
    /// That, and their sums.
    Sums(SumTable),
    /// That, and the least of their codes.
    Least(CodeTable<'a>),
    /// That, and the greatest of their codes.
    Greatest(CodeTable<'a>),
    /// No table: the rows are all those of the group, and the least cell is the one that its segment keeps.
    LeastCell(&'a Segment),
    /// The same of the greatest cell.
    GreatestCell(&'a Segment),
}

/// Counts and sums.
#[derive(Drop)]
pub struct SumTable {
    pub counts: Vec<u64>,
    pub sums: Vec<i128>,
    ghost long: { vec_len sums ≡ vec_len counts },
    ghost bound: { (k : ℕ) → k < vec_len counts → IsSumOf (slice_index counts.items k) (slice_index_or sums.items k (pos 0)) },
}

/// Counts and codes of a column.
#[derive(Drop)]
pub struct CodeTable<'a> {
    pub column: Column<'a>,
    pub counts: Vec<u64>,
    pub codes: Vec<u64>,
    ghost long: { vec_len codes ≡ vec_len counts },
}
