//! Tests of what runs side by side, and of work that finds no memory: the gate, the workers of a scan, the course of a REORGANIZE,
//! and scripts and sessions at desks of their own.
//!
//! Each module tests one crate through what it shows to others, so that the crate itself is proved once.
#![tactic(auto)]

#[cfg(test)]
mod desks;
#[cfg(test)]
mod history_gate_tests;
#[cfg(test)]
mod looks;
#[cfg(test)]
mod reorganize_tests;
#[cfg(test)]
mod scan_workers_tests;
#[cfg(test)]
mod threads;
