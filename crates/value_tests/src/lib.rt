//! Tests of the ground and of the model: values, lines, streams, words of an order, truths, printed entries and the summary.
//!
//! Each module tests one crate through what it shows to others, so that the crate itself is proved once.
#![tactic(auto)]

#[cfg(test)]
mod command_words_tests;
#[cfg(test)]
mod cs_model_tests;
#[cfg(test)]
mod cs_outside_tests;
#[cfg(test)]
mod cs_predicate_tests;
#[cfg(test)]
mod cs_types_tests;
#[cfg(test)]
mod log_summary_tests;
#[cfg(test)]
mod made;
