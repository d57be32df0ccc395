//! Tests of columns over a series and of the scans: kernels, filters, and tallies and totals by codes against those by rows.
//!
//! Each module tests one crate through what it shows to others, so that the crate itself is proved once.
#![tactic(auto)]

#[cfg(test)]
mod batch_aggregate_tests;
#[cfg(test)]
mod batch_compute_tests;
#[cfg(test)]
mod batch_filter_tests;
#[cfg(test)]
mod batch_kernels_tests;
#[cfg(test)]
mod batch_scan_tests;
#[cfg(test)]
mod code_tallies_tests;
#[cfg(test)]
mod made;
