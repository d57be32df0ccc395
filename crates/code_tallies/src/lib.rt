//! Tallies of a packed group by the codes of its columns: no row is made.
//!
//! Its one contract: where `tally_group` answers true, a partial answer that stood for some rows stands for these and the rows
//! of the group that are shown; where it answers false nothing has changed, and the rows have to be added one by one. It stands
//! on `batch_aggregate` for partial answers and tallies, on `batch_kernels` for the loops, on `row_group` and `column_segment`
//! for codes, which compare and equal as their cells do, and on `delete_bitmap` for sets of positions.
#![tactic(auto)]

mod batch;
mod chosen;
mod codes;
mod column;
mod finish;
mod keys;
mod measure;
mod pieces;
mod shown;
mod table;
mod tabulate;
mod tally;
mod verdicts;

pub use chosen::Batch;
pub use tally::tally_group;
pub use verdicts::{EveryRow, Verdicts};
