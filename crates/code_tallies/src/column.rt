use column_segment::Segment;

/// A column of a group.
#[derive(Drop)]
pub struct Column<'a> {
    /// Its cells.
    pub segment: &'a Segment,
    /// The least code of a cell that is not NULL: 1 where NULL has the code 0, and else 0.
    pub first: u64,
    /// No cell's code is greater.
    pub last: u64,
}
