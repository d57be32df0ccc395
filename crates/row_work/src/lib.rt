//! The work of statements over rows: what an INSERT, an UPDATE or a DELETE writes, or its first value refusal, and the rows
//! that a SELECT adds to a partial answer, with the counts of segments that its scan reads and skips.
//!
//! Its one contract: what a statement reads is a function of what is pinned for it, the rows that its snapshot sees in a view of
//! the row groups with the own writes laid over them, and each answer is what the definitions of `cs_model` give over that table,
//! or want of memory. Where an INSERT over a series puts its rows at new keys in the order of these, they may be had by columns, and none
//! of them is made (`loaded`). Where a condition names keys, the rows at these keys alone are read; where it bounds them, few rows of a
//! group are found by their keys, in delta stores and packed groups alike; and where it says no more than that, rows of a store and codes
//! of a packed group are tallied without a verdict. No row of a delta store that has the table's columns is copied to be read. It depends
//! on `group_view`, `delta_store` and `write_set` for what is read, on `batch_scan` and `batch_filter` for what of a packed group is
//! read and kept, on `cs_predicate` for expressions and on `batch_compute` for those over a series that it has quickly, and on
//! `batch_aggregate` and `code_tallies` for answers.
#![tactic(auto)]

mod absent;
mod adding;
mod bounds;
mod by_key;
mod choose;
mod counts;
mod delete;
mod exact;
mod insert;
mod key_ranges;
mod listed;
mod load;
mod lookup;
mod named;
mod packed;
mod ranged;
mod reading;
mod refusal;
mod select;
mod stores;
mod update;
mod write;

pub use counts::segment_counts;
pub use delete::deleted;
pub use insert::{InsertedRows, inserted};
pub use load::{LoadedColumns, loaded};
pub use named::named_keys;
pub use refusal::WriteRefusal;
pub use select::{add_groups, add_own, answer_at_keys};
pub use update::updated;
