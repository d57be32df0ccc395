//! Tests of the stores: bitmaps, buffers, delta stores, write sets, views, parcels and reports.
//!
//! Each module tests one crate through what it shows to others, so that the crate itself is proved once.
#![tactic(auto)]

#[cfg(test)]
mod choice_tests;
#[cfg(test)]
mod column_parcel_tests;
#[cfg(test)]
mod delete_bitmap_tests;
#[cfg(test)]
mod delete_buffer_tests;
#[cfg(test)]
mod delta_store_tests;
#[cfg(test)]
mod group_reports_tests;
#[cfg(test)]
mod group_view_tests;
#[cfg(test)]
mod made;
#[cfg(test)]
mod shared_list_tests;
#[cfg(test)]
mod tuple_mover_tests;
#[cfg(test)]
mod txn_table_tests;
#[cfg(test)]
mod version_store_tests;
#[cfg(test)]
mod write_set_tests;
