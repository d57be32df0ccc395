//! Packed row groups: versions of rows, column by column in segments, in an order that makes the segments small.
//!
//! A `Packer` takes rows apart into columns and puts them in order by the columns of fewest distinct cells first; `pack_rows`
//! gives it versions, but for those that no snapshot can see any more. Its one contract: a `Packed` stands for a list of
//! rows, the cells of all columns with a begin, and packing gives the one list that has the rows in that order. It depends on
//! `column_segment` for the segments, on `cs_types` for versions, and on `indexmap`, which finds the distinct cells of a
//! column. Larson et al., SIGMOD 2011, describe row groups and why their rows are sorted; SQL Server's columnstore guide calls
//! them compressed rowgroups.
#![tactic(auto)]

mod arrange;
mod cells;
mod columns;
mod distance;
mod few;
mod heads;
mod keys;
mod marks;
mod order;
mod pack;
mod packed;
mod packer;
mod ranks;

pub use packed::{Packed, Places};
pub use packer::{Packer, pack_rows};
