//! What a SELECT is answered.

use cs_base::Items;
use cs_model::AnswerRow;

/// The answer of a SELECT, with what a scan for it reads of the packed groups.
#[derive(Debug, Drop)]
pub struct Answered {
    /// The rows of the answer.
    pub rows: Items<AnswerRow>,
    /// How many segments the scan reads, one for each packed group that the filter does not skip.
    pub read: u64,
    /// How many segments the filter skips.
    pub skipped: u64,
}
