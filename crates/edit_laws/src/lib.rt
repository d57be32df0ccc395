//! Writes as the edits of the row model, and laws of edits: what a table has with edits laid over it, and own writes that are
//! staged.
//!
//! Its one contract is these laws: each function does nothing, and its contract is a law that is proved. It stands on `cs_model`
//! and `write_set`.
#![tactic(auto)]

mod laws;

pub use laws::{laid_by_edits, rows_by_edits, staged_as_edits};
