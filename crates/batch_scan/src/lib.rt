//! Scans: which versions of a view's groups a statement reads, and the rows of them that a predicate keeps.
//!
//! Its contracts: `Shown::of` is, position by position, whether the statement reads the version of a packed group there: its
//! snapshot sees it and no own write is of its key. It is found once a group: by the begins of the group, its bitmap, the delete
//! buffer and the own writes, and no row is looked at that none of these names. `kept_positions` has the positions of these
//! versions whose rows a predicate keeps, `scan` gives the rows of some groups that are read and kept, with how many packed
//! groups are read and skipped, and `own_rows` those of the own writes. It depends on `group_view`, whose definition of what a
//! snapshot sees it computes (Larson et al., PVLDB 2015, section 4), on `batch_filter` for what a predicate keeps and skips, on the
//! stores and on `write_set`.
#![tactic(auto)]

mod counts;
mod hidden;
mod positions;
mod reading;
mod scanned;
mod scans;
mod shown;

pub use counts::{is_skipped, segment_counts};
pub use positions::{kept_positions, sieve_of};
pub use reading::key_seen;
pub use scanned::Scan;
pub use scans::{own_rows, scan};
pub use shown::Shown;
