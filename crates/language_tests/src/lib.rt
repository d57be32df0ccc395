//! Tests of the readers, and of what texts mean: tokens, tables, statements and scripts.
//!
//! Each module tests one crate through what it shows to others, so that the crate itself is proved once.
#![tactic(auto)]

#[cfg(test)]
mod made;
#[cfg(test)]
mod script_reader_tests;
#[cfg(test)]
mod script_turns_tests;
#[cfg(test)]
mod tsql_create_tests;
#[cfg(test)]
mod tsql_reader_tests;
#[cfg(test)]
mod tsql_tokens_tests;
