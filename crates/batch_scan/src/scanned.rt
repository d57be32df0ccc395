use cs_types::Row;

/// What a scan gives of some groups of a view.
#[derive(Debug, Drop)]
pub struct Scan {
    /// The rows that it keeps, by group and position, each with a cell for each column of the table.
    pub rows: Vec<Row>,
    /// How many packed groups it reads.
    pub read: u64,
    /// How many packed groups the predicate skips.
    pub skipped: u64,
}
