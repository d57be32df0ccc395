//! The two reports on row groups: which groups there are, and how each column of a COMPRESSED one is kept.
//!
//! Its one contract: `segment_lines` has a line for each COMPRESSED group of a view and each column, which says how the cells of
//! all the group's versions are kept, ended ones too. It depends on `column_segment`, `row_group` and `group_view`, and on
//! `cs_model` for the lines.
#![tactic(auto)]

mod segments;

pub use segments::{group_lines, packed_parts_are, segment_lines};
