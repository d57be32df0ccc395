//! What a predicate keeps of a packed row group, found by the codes of its columns, and of a batch of rows, found cell by cell.
//!
//! Its contracts: `skips` tells that a group has no row on which the predicate is True, exactly as the definition in `cs_model`
//! has it, by the least and the greatest cell of each column and by whether one is NULL; a `Sieve` has the verdict of each row
//! of a group, and `filter_codes` puts those of 1,024 rows into a mask; and `filter_batch` puts into a mask of which rows of some
//! batches the predicate is True. A part of the predicate over a group that names one column is judged by codes: a comparison
//! with a constant is a range of them, and any other form is judged once a code where there are fewer codes than rows. It stands
//! on `row_group` and `column_segment` for groups and codes, on `cs_predicate` for truth, and on `batch_kernels` for the loops.
//! Larson et al., SIGMOD 2011, describe segment elimination and filters on encoded columns.
#![tactic(auto)]

mod among;
mod batch;
mod bounds;
mod choice;
mod column;
mod cut;
mod filter;
mod laws;
mod named;
mod narrow;
mod sides;
mod sieve;
mod skip;

pub use batch::filter_batch;
pub use filter::filter_codes;
pub use laws::{rows_of_batches, skips_loses_no_row, truth_of_named};
pub use sieve::Sieve;
pub use skip::skips;
