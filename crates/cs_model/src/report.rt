// The lines of the reports on row groups and their segments.
use cs_types::{Encoding, Value};

/// The state of a row group, as reports number it: 0 INVISIBLE, 1 OPEN, 2 CLOSED, 3 COMPRESSED, 4 TOMBSTONE (Microsoft's
/// columnstore guide).
#[derive(Clone, Copy, Debug, PartialEq, Eq)]
pub enum GroupState {
    /// 0: the place of a group that a claim makes.
    Invisible,
    /// 1: the delta store that takes rows.
    Opened,
    /// 2: a full delta store that waits.
    Closed,
    /// 3: segments with a delete bitmap.
    Compressed,
    /// 4: what is left of a former group.
    Tombstone,
}

/// A row group by its counts.
#[derive(Clone, Copy, Debug, PartialEq, Eq)]
pub struct GroupLine {
    /// From 1 upwards.
    pub id: u64,
    pub state: GroupState,
    /// The number of versions, ended ones too.
    pub total: u64,
    /// The number of ends that are recorded beside the versions; those in the delete buffer are not among them.
    pub deleted: u64,
}

/// A column's segment of a COMPRESSED row group.
#[derive(Debug, Drop)]
pub struct SegmentLine {
    /// The id of the group.
    pub id: u64,
    /// The column, from 1 by its place in the table.
    pub column: u32,
    pub encoding: Encoding,
    /// The number of cells, those of ended versions too.
    pub rows: u64,
    /// Whether a cell is NULL.
    pub nulls: bool,
    /// The size, in words of 64 bits.
    pub words: u64,
    /// The least and the greatest cell that is not NULL; NULL where there is none.
    pub least: Value,
    pub greatest: Value,
}
