//! Tests of the encodings: packed codes, values, dictionaries, runs, segments and packed groups.
//!
//! Each module tests one crate through what it shows to others, so that the crate itself is proved once.
#![tactic(auto)]

#[cfg(test)]
mod bit_pack_tests;
#[cfg(test)]
mod column_segment_tests;
#[cfg(test)]
mod made;
#[cfg(test)]
mod row_group_tests;
#[cfg(test)]
mod segment_dict_tests;
#[cfg(test)]
mod segment_rle_tests;
#[cfg(test)]
mod segment_value_tests;
#[cfg(test)]
mod wide_table_tests;
